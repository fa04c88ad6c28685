// The run is to stop.
ghost use Rattle.std.specs.Prelude.{◌≡◌};
ghost use Rattle.core_model.specs.declared.events.CoreEvent.TheVariants.{Halt};
ghost use Rattle.cell_table.specs.Table.{opens_with};
ghost use Rattle.history_core.specs.Steps.{Tells, Does};

use crate::parts::Parts;
use core_model::CoreReply;

impl Parts {
    // Whether no stop stands.
    pub(crate) fn can_halt(&self) -> bool
        ensures { Tells self.now Halt result }
    {
        self.is_going()
    }

    // The run is to stop. Takes no memory.
    pub(crate) fn halt(&mut self) -> CoreReply
        ensures ok { Does self.old Halt result self.new }
        ensures opens { opens_with self.new.cells ≡ opens_with self.old.cells }
    {
        self.units.halt();
        CoreReply::Done
    }
}
