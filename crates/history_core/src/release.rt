// A unit that has ended gives a lock back, and its new version with it.
ghost use Rattle.std.specs.Prelude.{◌≡◌};
ghost use Rattle.core_model.specs.declared.events.CoreEvent.TheVariants.{Release};
ghost use Rattle.cell_table.specs.Table.{opens_with};
ghost use Rattle.history_core.specs.Releases.{if_finished};
ghost use Rattle.history_core.specs.Steps.{CanDo, Tells, Does};

use crate::parts::Parts;
use base_types::{GrainId, State, UnitNo};
use core_model::{CoreReply, Phase};

impl Parts {
    // Whether the unit is over and has a lock of the grain.
    pub(crate) fn can_release(&self, unit: UnitNo, grain: GrainId) -> bool
        ensures { Tells self.now (Release unit grain) result }
    {
        self.units.is_over(unit) && self.cells.is_held_by(unit, grain)
    }

    // The unit gives the lock back, with the copy of what it wrote, and the grain leaves memory if it is idle. Takes no memory.
    pub(crate) fn release(&mut self, unit: UnitNo, grain: GrainId) -> CoreReply
        requires can { CanDo self.old (Release unit grain) }
        ensures ok { Does self.old (Release unit grain) result self.new }
        ensures opens { opens_with self.new.cells ≡ opens_with self.old.cells }
    {
        let kept = self.handed.take(unit, grain);
        let new = if_finished(self.units.phase(unit), kept);
        self.cells.release(unit, grain, new);
        self.cells.evict(grain, self.units.wants());
        CoreReply::Done
    }
}

// What was kept of its writes, where the unit has finished.
fn if_finished(phase: Phase, kept: Option<State>) -> Option<State>
    ensures { result ≡ if_finished phase kept }
{
    match phase {
        Phase::Finished => kept,
        Phase::Unborn | Phase::Running | Phase::Refused | Phase::Ended => None,
    }
}
