ghost use Rattle.std.specs.Prelude.{◌≡◌, ◌<◌, ◌+◌, ◌^◌, ℕ, true, Option, Some, None, is_some, OnOk};
ghost use Rattle.std.specs.VecDeque.{deque_len};
ghost use Rattle.base_types.specs.declared.calls.UnitNo.{UnitNo};
ghost use Rattle.base_types.specs.declared.calls.Outcome.TheVariants as outcomes;
ghost use Rattle.core_model.specs.declared.phases.Verdict.TheVariants as verdicts;
ghost use Rattle.core_model.specs.Events.{first_units};
ghost use Rattle.unit_table.specs.Parts.{units_bad_line, units_wanting, units_halted};
ghost use Rattle.unit_table.specs.Table.{entry_in, first_in, lines_in, base_of, verdict_in, result_in, units_of};
ghost use Rattle.unit_table.specs.Rooms.{SameUnits, RoomToWant};

use crate::entry::{PastUnit, RunningUnit, UnitEntry};
use base_types::{GrainId, UnitNo};
use std::alloc::{AllocError, Global};
use std::collections::VecDeque;

/// All that is known of each unit, by number. No call walks over units that are over.
#[derive(Drop)]
pub struct UnitTable {
    // The number of the first unit.
    pub(crate) base: u64,
    pub(crate) kinds: u64,
    // How many lines have begun or are bad.
    pub(crate) lines: u64,
    // The first units, in order: each is decided, and its result has gone.
    pub(crate) past: Vec<PastUnit>,
    // The units behind them, in order.
    pub(crate) units: VecDeque<UnitEntry>,
    // What the next unit is written into, where room was made for it.
    pub(crate) spare: Option<Box<RunningUnit>>,
    // Who waits for which grain.
    pub(crate) wants: Vec<(UnitNo, GrainId)>,
    pub(crate) halt: bool,
    pub(crate) alloc: Global,
}

impl UnitTable {
    /// Nobody has begun: the first unit will have the number `base`, and the program has so many types. Takes
    /// no memory.
    pub fn new(alloc: Global, base: UnitNo, kinds: u64) -> UnitTable
        ensures units { units_of result (λ u. None) ≡ first_units base.0 kinds }
        ensures verdict { verdict_in result ≡ (λ u. verdicts.Open) }
        ensures result { result_in result ≡ (λ u. outcomes.Aborted) }
        ensures base { base_of result ≡ base.0 }
    {
        UnitTable {
            base: base.0,
            kinds,
            lines: 0,
            past: Vec::new(alloc),
            units: VecDeque::new(alloc),
            spare: None,
            wants: Vec::new(alloc),
            halt: false,
            alloc,
        }
    }

    /// One more line is bad. Takes no memory.
    pub fn bad_line(&mut self)
        requires { lines_in self.old < 2 ^ 32 }
        ensures units { (seen : UnitNo → Option ℕ) → units_of self.new seen ≡ units_bad_line (units_of self.old seen) }
        ensures verdict { verdict_in self.new ≡ verdict_in self.old }
        ensures result { result_in self.new ≡ result_in self.old }
        ensures base { base_of self.new ≡ base_of self.old }
    {
        self.lines += 1;
    }

    /// Makes room for one more wait. The units stay as they were, whether there was memory or not.
    pub fn reserve_want(&mut self) -> Result<(), AllocError>
        ensures same { SameUnits self.old self.new }
        ensures room { OnOk result (RoomToWant self.new) }
    {
        self.wants.reserve(1)
    }

    /// The unit waits for the grain, in room that was made. Takes no memory.
    pub fn want(&mut self, unit: UnitNo, grain: GrainId)
        requires { RoomToWant self.old }
        ensures units { (seen : UnitNo → Option ℕ) → units_of self.new seen ≡ units_wanting (units_of self.old seen) unit grain }
        ensures verdict { verdict_in self.new ≡ verdict_in self.old }
        ensures result { result_in self.new ≡ result_in self.old }
        ensures base { base_of self.new ≡ base_of self.old }
    {
        let done = self.wants.push((unit, grain));
        prove!(done.is_ok());
    }

    /// The run is to stop. Takes no memory.
    pub fn halt(&mut self)
        ensures units { (seen : UnitNo → Option ℕ) → units_of self.new seen ≡ units_halted (units_of self.old seen) }
        ensures verdict { verdict_in self.new ≡ verdict_in self.old }
        ensures result { result_in self.new ≡ result_in self.old }
        ensures base { base_of self.new ≡ base_of self.old }
    {
        self.halt = true;
    }

    // Where the unit's entry stands.
    pub(crate) fn place(&self, unit: UnitNo) -> usize
        requires { is_some (entry_in self.now unit) ≡ true }
        ensures at { unit.0 ≡ first_in self.now + result }
        ensures within { result < deque_len self.now.units }
    {
        (unit.0 - self.base) as usize - self.past.len()
    }
}
