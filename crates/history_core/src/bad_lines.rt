// The next line is no request.
ghost use Rattle.std.specs.Prelude.{◌≡◌, ◌==◌, ◌+◌, IfOk, OnErr};
ghost use Rattle.base_types.specs.declared.entries.BadRequest.{BadRequest};
ghost use Rattle.core_model.specs.CoreState.{CoreState};
ghost use Rattle.core_model.specs.declared.events.CoreEvent.TheVariants.{Bad};
ghost use Rattle.cell_table.specs.Table.{opens_with};
ghost use Rattle.history_core.specs.KeptParts.{PartsStand};
ghost use Rattle.history_core.specs.Steps.{CanDo, KeepsMeaning, Tells, Does};

use crate::parts::Parts;
use crate::room::owed;
use base_types::{BadRequest, Entry, Settled, UnitNo};
use core_model::CoreReply;
use std::alloc::AllocError;

impl Parts {
    // Whether the line is the next one, and no stop stands.
    pub(crate) fn can_bad(&self, line: u32) -> bool
        ensures { (why : BadRequest) → Tells self.now (Bad line why) result }
    {
        self.is_going() && self.is_next_line(line)
    }

    // Whether the line is the next one.
    pub(crate) fn is_next_line(&self, line: u32) -> bool
        ensures { (w : CoreState) → PartsStand self.now w → result ≡ (line == w.units.lines + 1) }
    {
        line != 0 && u64::from(line) - 1 == self.units.lines()
    }

    // The line is settled.
    pub(crate) fn bad(&mut self, line: u32, why: BadRequest) -> Result<CoreReply, AllocError>
        requires can { CanDo self.old (Bad line why) }
        ensures ok { IfOk result (λ reply. Does self.old (Bad line why) reply self.new) }
        ensures err { OnErr result (KeepsMeaning self.old self.new) }
        ensures opens { opens_with self.new.cells ≡ opens_with self.old.cells }
    {
        let room = owed(&self.batch) + 1;
        self.entries.reserve(room)?;
        self.entries.push(Entry {
            line,
            unit: UnitNo(0),
            what: Settled::Bad(why),
        });
        self.units.bad_line();
        Ok(CoreReply::Done)
    }
}
