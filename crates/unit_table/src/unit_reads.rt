// What a unit read.
ghost use Rattle.std.specs.Prelude.{◌≡◌, ℕ, true, Option, OnOk};
ghost use Rattle.base_types.specs.declared.calls.UnitNo.{UnitNo};
ghost use Rattle.core_model.specs.Tests.{is_running};
ghost use Rattle.unit_table.specs.Parts.{units_read};
ghost use Rattle.unit_table.specs.Table.{base_of, phase_in, verdict_in, result_in, units_of};
ghost use Rattle.unit_table.specs.Rooms.{SameUnits, RoomToRead};

use crate::table::UnitTable;
use crate::waits::drop_want;
use base_types::UnitNo;
use core_model::Read;
use std::alloc::AllocError;

impl UnitTable {
    /// Makes room for one more read of a running unit, and for one more dependency. The units stay as they
    /// were, whether there was memory or not.
    pub fn reserve_read(&mut self, unit: UnitNo) -> Result<(), AllocError>
        requires { is_running (phase_in self.old unit) ≡ true }
        ensures same { SameUnits self.old self.new }
        ensures room { OnOk result (RoomToRead self.new unit) }
    {
        let at = self.place(unit);
        let entry = &mut self.units[at];
        entry.reserve_read()
    }

    /// The unit has read a grain, in room that was made, and waits for it no more. `depends` says that the
    /// source is neither the opening state nor known committed. Takes no memory.
    pub fn note_read(&mut self, unit: UnitNo, read: Read, depends: bool)
        requires { RoomToRead self.old unit }
        ensures units { (seen : UnitNo → Option ℕ) → units_of self.new seen ≡ units_read (units_of self.old seen) unit read depends }
        ensures verdict { verdict_in self.new ≡ verdict_in self.old }
        ensures result { result_in self.new ≡ result_in self.old }
        ensures base { base_of self.new ≡ base_of self.old }
    {
        drop_want(&mut self.wants, unit, read.grain);
        let at = self.place(unit);
        let entry = &mut self.units[at];
        entry.add_read(read, depends);
    }
}
