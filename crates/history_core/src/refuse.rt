// A unit that asks for a lock is aborted.
ghost use Rattle.std.specs.Prelude.{◌≡◌, ◌<◌, ◌≤◌, ◌+◌, ◌++◌, true, IfOk, OnErr};
ghost use Rattle.core_model.specs.Changes.{entry_for, refusal};
ghost use Rattle.core_model.specs.Tests.{is_running};
ghost use Rattle.core_model.specs.declared.events.CoreEvent.TheVariants.{Refuse};
ghost use Rattle.cell_table.specs.Table.{opens_with};
ghost use Rattle.unit_table.specs.Table.{phase_in, origin_in};
ghost use Rattle.history_core.specs.Steps.{CanDo, KeepsMeaning, Tells, Does};

use crate::parts::Parts;
use crate::room::owed;
use base_types::{Entry, GrainId, Mode, Origin, Settled, UnitNo};
use core_model::{AskAnswer, CoreReply};
use core_parts::EntryList;
use std::alloc::AllocError;

impl Parts {
    // Whether the unit can be refused the lock, and no stop stands.
    pub(crate) fn can_refuse(&self, unit: UnitNo, grain: GrainId, mode: Mode) -> bool
        ensures { Tells self.now (Refuse unit grain mode) result }
    {
        self.is_going() && cause_of(self.ask(unit, grain, mode), grain).is_some()
    }

    // The unit is aborted, its line is settled, and what it waited for leaves memory where it is idle.
    pub(crate) fn refuse(
        &mut self,
        unit: UnitNo,
        grain: GrainId,
        mode: Mode,
    ) -> Result<CoreReply, AllocError>
        requires can { CanDo self.old (Refuse unit grain mode) }
        ensures ok { IfOk result (λ reply. Does self.old (Refuse unit grain mode) reply self.new) }
        ensures err { OnErr result (KeepsMeaning self.old self.new) }
        ensures opens { opens_with self.new.cells ≡ opens_with self.old.cells }
    {
        let room = owed(&self.batch) + 1;
        self.entries.reserve(room)?;
        let Some(why) = cause_of(self.ask(unit, grain, mode), grain) else {
            unreachable!()
        };
        let origin = self.origin(unit);
        settle(&mut self.entries, origin, unit, why);
        self.cells.evict_wanted(unit, self.units.wants());
        self.units.refuse(unit);
        Ok(CoreReply::Done)
    }

    // What a running unit is the run of.
    pub(crate) fn origin(&self, unit: UnitNo) -> Origin
        requires { is_running (phase_in self.now.units unit) ≡ true }
        ensures { result ≡ origin_in self.now.units unit }
    {
        match self.units.running(unit) {
            Some(running) => running.origin,
            None => unreachable!(),
        }
    }
}

// Why a unit that asks can be refused, if it can.
fn cause_of(answer: AskAnswer, grain: GrainId) -> Option<Settled>
    ensures { result ≡ refusal grain answer }
{
    match answer {
        AskAnswer::MustDie { holder } => Some(Settled::Lock { by: holder, grain }),
        AskAnswer::Doomed { source } => Some(Settled::Dependency { on: source }),
        AskAnswer::Free
        | AskAnswer::NotActive
        | AskAnswer::Held
        | AskAnswer::MustWait { .. }
        | AskAnswer::Absent => None,
    }
}

// Settles the line of a line's unit, in room that was made. Takes no memory.
pub(crate) fn settle(entries: &mut EntryList, origin: Origin, unit: UnitNo, what: Settled)
    requires { 0 < entries.old.spare }
    ensures entries { entries.new.entries ≡ entries.old.entries ++ entry_for origin unit what }
    ensures emitted { entries.new.emitted ≡ entries.old.emitted }
    ensures spare { entries.old.spare ≤ entries.new.spare + 1 }
{
    match origin {
        Origin::Line(line) => entries.push(Entry { line, unit, what }),
        Origin::Child { .. } => {}
    }
}
