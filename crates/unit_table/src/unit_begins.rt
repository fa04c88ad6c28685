// How a unit comes into the table.
ghost use Rattle.std.specs.Prelude.{◌≡◌, ◌<◌, ◌≤◌, ◌+◌, ◌^◌, ◌∷◌, ◌++◌, [], ℕ, true, Option, nat_lt, OnOk, IsErrOf};
ghost use Rattle.std.specs.VecDeque.{deque_len, deque_capacity};
ghost use Rattle.base_types.specs.declared.calls.UnitNo.{UnitNo};
ghost use Rattle.core_model.specs.CoreState.{put};
ghost use Rattle.core_model.specs.Tests.{is_running};
ghost use Rattle.core_model.specs.Changes.{lines_with};
ghost use Rattle.unit_table.specs.declared.faults.BeginFault.{BeginFault};
ghost use Rattle.unit_table.specs.KnownUnits.{just_begun, with_kid};
ghost use Rattle.unit_table.specs.Parts.{units_begun};
ghost use Rattle.unit_table.specs.Table.{entry_in, known_in, base_of, next_in, phase_in, verdict_in, result_in, wants_in, units_of};
ghost use Rattle.unit_table.specs.Rooms.{SameUnits, SameRest, SameRoom, ParentRuns, ParentHasRoom, KidRoomAt, BlankAt, RoomToBegin, LineIsCounted};

use crate::entry::{RunningUnit, UnitEntry};
use crate::faults::BeginFault;
use crate::table::UnitTable;
use base_types::{Call, Origin, UnitNo};
use std::alloc::AllocError;

// No unit has this number or a higher one.
const NUMBER_LIMIT: u64 = 1 << 63;

impl UnitTable {
    /// Makes room for the next unit, and for it among its parent's children. Where its number would be 2^63 or
    /// more the answer is `NoNumber`, before any memory is asked for; where it is lower and memory is wanting,
    /// `Memory`. The units stay as they were, whatever the answer.
    pub fn reserve_begin(&mut self, origin: &Origin) -> Result<(), BeginFault>
        requires { ParentRuns self.old origin.now }
        ensures same { SameUnits self.old self.new }
        ensures room { OnOk result (RoomToBegin self.new origin.now) }
        ensures limit { IsErrOf result BeginFault.NoNumber → 2 ^ 63 ≤ next_in self.old }
        ensures starved { IsErrOf result BeginFault.Memory → next_in self.old < 2 ^ 63 }
    {
        if !self.has_number() {
            return Err(BeginFault::NoNumber);
        }
        self.forget();
        self.reserve_kid(origin)?;
        self.reserve_entry()?;
        Ok(())
    }

    // Whether the next unit's number is below the limit.
    fn has_number(&self) -> bool
        ensures { result ≡ nat_lt (next_in self.now) (2 ^ 63) }
    {
        let count = (self.past.len() + self.units.len()) as u64;
        self.base < NUMBER_LIMIT && count < NUMBER_LIMIT - self.base
    }

    // Makes room for one more child of a child's parent.
    fn reserve_kid(&mut self, origin: &Origin) -> Result<(), AllocError>
        requires { ParentRuns self.old origin.now }
        ensures same { SameUnits self.old self.new }
        ensures next { next_in self.new ≡ next_in self.old }
        ensures room { OnOk result (ParentHasRoom self.new origin.now) }
    {
        match origin {
            Origin::Line(_) => Ok(()),
            Origin::Child { parent, .. } => self.reserve_kid_of(*parent),
        }
    }

    // Makes room for one more child of a running unit.
    fn reserve_kid_of(&mut self, parent: UnitNo) -> Result<(), AllocError>
        requires { is_running (phase_in self.old parent) ≡ true }
        ensures same { SameUnits self.old self.new }
        ensures next { next_in self.new ≡ next_in self.old }
        ensures room { OnOk result (KidRoomAt (entry_in self.new parent)) }
    {
        let at = self.place(parent);
        let entry = &mut self.units[at];
        entry.reserve_kid()
    }

    // Makes room for one more entry, and a unit that it is written into.
    fn reserve_entry(&mut self) -> Result<(), AllocError>
        ensures same { SameUnits self.old self.new }
        ensures base { self.new.base ≡ self.old.base }
        ensures past { self.new.past ≡ self.old.past }
        ensures entries { self.new.units.items ≡ self.old.units.items }
        ensures len { deque_len self.new.units ≡ deque_len self.old.units }
        ensures room { OnOk result (deque_len self.new.units < deque_capacity self.new.units) }
        ensures unit { OnOk result (BlankAt self.new.spare) }
    {
        self.units.reserve(1)?;
        let unit = RunningUnit::blank(self.alloc)?;
        let unit = Box::new(self.alloc, unit)?;
        self.spare = Some(unit);
        Ok(())
    }

    /// The next unit begins, in room that was made, and is answered. Takes no memory.
    pub fn begin(&mut self, origin: Origin, call: Call, plain: bool) -> UnitNo
        requires room { RoomToBegin self.old origin }
        requires line { LineIsCounted self.old origin }
        ensures number { result ≡ record { 0 = next_in self.old } }
        ensures units { (seen : UnitNo → Option ℕ) → units_of self.new seen ≡ units_begun (units_of self.old seen) origin call plain }
        ensures verdict { verdict_in self.new ≡ verdict_in self.old }
        ensures result { result_in self.new ≡ result_in self.old }
        ensures base { base_of self.new ≡ base_of self.old }
    {
        let unit = UnitNo(self.base + self.past.len() as u64 + self.units.len() as u64);
        self.count(origin, unit);
        self.push(origin, call, plain);
        unit
    }

    // One more line, or one more child of the unit's parent.
    fn count(&mut self, origin: Origin, unit: UnitNo)
        requires line { LineIsCounted self.old origin }
        requires room { ParentHasRoom self.old origin }
        ensures known { known_in self.new ≡ with_kid (known_in self.old) origin unit }
        ensures lines { self.new.lines ≡ lines_with self.old.lines origin }
        ensures room { SameRoom self.old self.new }
        ensures rest { SameRest self.old self.new }
    {
        match origin {
            Origin::Line(_) => self.lines += 1,
            Origin::Child { parent, .. } => self.add_kid(parent, unit),
        }
    }

    // One more child of a running unit, in room that was made.
    fn add_kid(&mut self, parent: UnitNo, unit: UnitNo)
        requires { KidRoomAt (entry_in self.old parent) }
        ensures known { known_in self.new ≡ put (known_in self.old) parent
            (record (known_in self.old parent) { kids = (known_in self.old parent).kids ++ unit ∷ [] }) }
        ensures lines { self.new.lines ≡ self.old.lines }
        ensures room { SameRoom self.old self.new }
        ensures rest { SameRest self.old self.new }
    {
        let at = self.place(parent);
        let entry = &mut self.units[at];
        entry.add_kid(unit);
    }

    // The next unit's entry, in room that was made.
    fn push(&mut self, origin: Origin, call: Call, plain: bool)
        requires entry { deque_len self.old.units < deque_capacity self.old.units }
        requires unit { BlankAt self.old.spare }
        ensures known { known_in self.new ≡ put (known_in self.old) (record { 0 = next_in self.old }) (just_begun origin call plain) }
        ensures lines { self.new.lines ≡ self.old.lines }
        ensures next { next_in self.new ≡ next_in self.old + 1 }
        ensures wants { wants_in self.new ≡ wants_in self.old }
        ensures rest { SameRest self.old self.new }
    {
        if let Some(mut unit) = self.spare.take() {
            unit.begin(origin, call, plain);
            self.units.push_back_reserved(UnitEntry::Running(unit));
        }
    }
}
