// A plain run that read a snapshot has come to its end.
ghost use Rattle.std.specs.Prelude.{◌≡◌, ℕ, IfOk, IfErr, OnErr};
ghost use Rattle.core_model.specs.declared.events.CoreEvent.TheVariants.{EndSnapshot};
ghost use Rattle.unit_table.specs.KnownUnits.{known_running};
ghost use Rattle.unit_table.specs.Table.{known_in};
ghost use Rattle.history_core.specs.Effects.{ends_as_snapshot};
ghost use Rattle.cell_table.specs.Table.{opens_with};
ghost use Rattle.history_core.specs.Steps.{CanDo, KeepsMeaning, Tells, Does};

use crate::parts::Parts;
use base_types::{Outcome, UnitNo};
use core_model::{CoreEvent, CoreReply};
use core_parts::Same;
use std::alloc::AllocError;
use unit_table::{RunningUnit, UnitTable};

impl Parts {
    // Whether a running plain run without children may end so, and no stop stands.
    pub(crate) fn can_end_snapshot(&self, unit: UnitNo, outcome: &Outcome) -> bool
        ensures { (at : ℕ) → Tells self.now (EndSnapshot unit at outcome.now) result }
    {
        self.is_going() && may_end_snapshot(&self.units, unit, outcome)
    }

    // The plain run has ended, and its line is settled. How many records it saw isn't kept.
    pub(crate) fn end_snapshot(
        &mut self,
        unit: UnitNo,
        at: u64,
        outcome: Outcome,
    ) -> Result<CoreReply, (AllocError, CoreEvent)>
        requires can { CanDo self.old (EndSnapshot unit at outcome) }
        ensures ok { IfOk result (λ reply. Does self.old (EndSnapshot unit at outcome) reply self.new) }
        ensures back { IfErr result (λ e. e.1 ≡ EndSnapshot unit at outcome) }
        ensures err { OnErr result (KeepsMeaning self.old self.new) }
        ensures opens { opens_with self.new.cells ≡ opens_with self.old.cells }
    {
        match self.prepare_end(&outcome) {
            Err(error) => Err((error, CoreEvent::EndSnapshot { unit, at, outcome })),
            Ok(kept) => {
                self.end(unit, outcome, kept);
                Ok(CoreReply::Done)
            }
        }
    }
}

// Whether that is a plain run without children, and the outcome no abort.
fn may_end(running: &RunningUnit, outcome: &Outcome) -> bool
    ensures { result ≡ ends_as_snapshot outcome.now (known_running running.now) }
{
    running.plain && running.kids.is_empty() && !outcome.is_same(&Outcome::Aborted)
}

// Whether that is a running plain run without children, and the outcome no abort.
fn may_end_snapshot(units: &UnitTable, unit: UnitNo, outcome: &Outcome) -> bool
    ensures { result ≡ ends_as_snapshot outcome.now (known_in units.now unit) }
{
    match units.running(unit) {
        None => false,
        Some(running) => may_end(running, outcome),
    }
}
