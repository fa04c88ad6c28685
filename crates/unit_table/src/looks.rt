// What is known of a unit, and where it stands in the table.
ghost use Rattle.std.specs.Prelude.{◌≡◌, ◌&&◌, not, is_some, true, false, MatchOption, IfSome, IfOk};
ghost use Rattle.std.specs.Option.{option_copied};
ghost use Rattle.core_model.specs.Tests.{is_running, is_over};
ghost use Rattle.unit_table.specs.KnownUnits.{known_running};
ghost use Rattle.unit_table.specs.Table.{entry_in, past_in, is_past, known_in, lines_in, kinds_in, halt_in, phase_in, kids_in, reads_in, deps_in, verdict_in, result_in, wants_in, outcome_known};

use crate::entry::{PastUnit, RunningUnit, UnitEntry};
use crate::table::UnitTable;
use base_types::{GrainId, Outcome, UnitNo};
use core_model::{Phase, Read, Verdict};
use std::alloc::AllocError;

impl UnitTable {
    /// How many lines have begun or are bad.
    pub fn lines(&self) -> u64
        ensures { result ≡ lines_in self.now }
    {
        self.lines
    }

    /// How many types the program has.
    pub fn kinds(&self) -> u64
        ensures { result ≡ kinds_in self.now }
    {
        self.kinds
    }

    /// Whether the run is to stop.
    pub fn is_halted(&self) -> bool
        ensures { result ≡ halt_in self.now }
    {
        self.halt
    }

    /// Who waits for which grain, in the order in which they asked.
    pub fn wants(&self) -> &[(UnitNo, GrainId)]
        ensures { result.now ≡ wants_in self.now }
    {
        self.wants.as_slice()
    }

    /// Where the unit is in its life.
    pub fn phase(&self, unit: UnitNo) -> Phase
        ensures { result ≡ phase_in self.now unit }
    {
        if let Some(past) = self.past(unit) {
            return past.ending.phase();
        }
        match self.entry(unit) {
            Some(entry) => entry.phase(),
            None => Phase::Unborn,
        }
    }

    /// Whether the unit runs.
    pub fn is_running(&self, unit: UnitNo) -> bool
        ensures { result ≡ is_running (phase_in self.now unit) }
    {
        match self.phase(unit) {
            Phase::Running => true,
            Phase::Unborn => false,
            Phase::Finished => false,
            Phase::Refused => false,
            Phase::Ended => false,
        }
    }

    /// Whether the unit has come to its end, in one way or another.
    pub fn is_over(&self, unit: UnitNo) -> bool
        ensures { result ≡ is_over (phase_in self.now unit) }
    {
        match self.phase(unit) {
            Phase::Unborn => false,
            Phase::Running => false,
            Phase::Finished => true,
            Phase::Refused => true,
            Phase::Ended => true,
        }
    }

    /// What is kept of a unit while it runs, which is all that is known of it: `None` exactly where it doesn't run.
    pub fn running(&self, unit: UnitNo) -> Option<&RunningUnit>
        ensures { MatchOption (option_copied result) (is_running (phase_in self.now unit) ≡ false) (λ kept. known_in self.now unit ≡ known_running kept) }
    {
        if self.is_past(unit) {
            return None;
        }
        match self.entry(unit) {
            Some(entry) => entry.running(),
            None => None,
        }
    }

    /// The children of a running unit, in the order in which they began.
    pub fn kids(&self, unit: UnitNo) -> &[UnitNo]
        requires { is_running (phase_in self.now unit) ≡ true }
        ensures { result.now ≡ kids_in self.now unit }
    {
        match self.running(unit) {
            Some(unit) => unit.kids.as_slice(),
            None => &[],
        }
    }

    /// What a running unit read, in the order of first locks.
    pub fn reads(&self, unit: UnitNo) -> &[Read]
        requires { is_running (phase_in self.now unit) ≡ true }
        ensures { result.now ≡ reads_in self.now unit }
    {
        match self.running(unit) {
            Some(unit) => unit.reads.as_slice(),
            None => &[],
        }
    }

    /// The dependencies of a running unit, oldest first.
    pub fn deps(&self, unit: UnitNo) -> &[UnitNo]
        requires { is_running (phase_in self.now unit) ≡ true }
        ensures { result.now ≡ deps_in self.now unit }
    {
        match self.running(unit) {
            Some(unit) => unit.deps.list(),
            None => &[],
        }
    }

    /// What is decided of the unit.
    pub fn verdict(&self, unit: UnitNo) -> Verdict
        ensures { result ≡ verdict_in self.now unit }
    {
        if let Some(past) = self.past(unit) {
            return past.verdict;
        }
        match self.entry(unit) {
            Some(entry) => entry.verdict(),
            None => Verdict::Open,
        }
    }

    /// The result of a unit that is over: `None` exactly where it isn't over, or its result has gone.
    pub fn result(&self, unit: UnitNo) -> Option<&Outcome>
        ensures over { is_some (option_copied result) ≡ (not (is_past self.now unit) && is_over (phase_in self.now unit)) }
        ensures result { IfSome (option_copied result) (λ kept. kept ≡ result_in self.now unit) }
    {
        if self.is_past(unit) {
            return None;
        }
        match self.entry(unit) {
            Some(entry) => entry.result(),
            None => None,
        }
    }

    /// Whether the unit's outcome is decided for good.
    pub fn is_decided(&self, unit: UnitNo) -> bool
        ensures { result ≡ is_some (outcome_known self.now unit) }
    {
        if let Some(past) = self.past(unit) {
            return past.is_decided();
        }
        match self.entry(unit) {
            Some(entry) => entry.is_decided(),
            None => false,
        }
    }

    /// A copy of the unit's outcome, `None` where it isn't decided for good. A result that has gone is wanting as where there
    /// is no memory.
    pub fn outcome_copy(&self, unit: UnitNo) -> Result<Option<Outcome>, AllocError>
        ensures { IfOk result (λ known. known ≡ outcome_known self.now unit) }
    {
        if let Some(past) = self.past(unit) {
            return past.outcome();
        }
        match self.entry(unit) {
            Some(entry) => entry.outcome(),
            None => Ok(None),
        }
    }

    /// Whether the unit's result has gone: it is decided, and so are all units that began before it.
    pub fn is_past(&self, unit: UnitNo) -> bool
        ensures { result ≡ is_past self.now unit }
    {
        self.past(unit).is_some()
    }

    // What is kept of the unit, where its result has gone.
    fn past(&self, unit: UnitNo) -> Option<&PastUnit>
        ensures { option_copied result ≡ past_in self.now unit }
    {
        if unit.0 < self.base {
            return None;
        }
        self.past.get((unit.0 - self.base) as usize)
    }

    // The unit's entry, none where it hasn't begun or its result has gone.
    fn entry(&self, unit: UnitNo) -> Option<&UnitEntry>
        ensures { option_copied result ≡ entry_in self.now unit }
    {
        if unit.0 < self.base {
            return None;
        }
        let at = (unit.0 - self.base) as usize;
        if at < self.past.len() {
            return None;
        }
        self.units.get(at - self.past.len())
    }
}
