// A settled entry is written.
ghost use Rattle.std.specs.Prelude.{◌≡◌};
ghost use Rattle.core_model.specs.declared.events.CoreEvent.TheVariants.{Emitted};
ghost use Rattle.cell_table.specs.Table.{opens_with};
ghost use Rattle.history_core.specs.Steps.{CanDo, Tells, Does};

use crate::parts::Parts;
use core_model::CoreReply;

impl Parts {
    // Whether a settled entry isn't written.
    pub(crate) fn can_emit(&self) -> bool
        ensures { Tells self.now Emitted result }
    {
        self.entries.has_next()
    }

    // Counts an entry as written. Takes no memory.
    pub(crate) fn emit(&mut self) -> CoreReply
        requires can { CanDo self.old Emitted }
        ensures ok { Does self.old Emitted result self.new }
        ensures opens { opens_with self.new.cells ≡ opens_with self.old.cells }
    {
        self.entries.emit();
        CoreReply::Done
    }
}
