// How a unit ends.
ghost use Rattle.std.specs.Prelude.{◌≡◌, ℕ, true, Option};
ghost use Rattle.base_types.specs.declared.calls.UnitNo.{UnitNo};
ghost use Rattle.core_model.specs.declared.phases.Phase.TheVariants as phases;
ghost use Rattle.core_model.specs.declared.phases.Verdict.TheVariants as verdicts;
ghost use Rattle.core_model.specs.CoreState.{put};
ghost use Rattle.core_model.specs.Changes.{without_wants};
ghost use Rattle.core_model.specs.Tests.{is_running, is_over};
ghost use Rattle.unit_table.specs.KnownUnits.{phase_at};
ghost use Rattle.unit_table.specs.Parts.{units_over};
ghost use Rattle.unit_table.specs.Table.{is_past, known_in, base_of, next_in, phase_in, deps_in, verdict_in, result_in, units_of, wants_in};
ghost use Rattle.unit_table.specs.Rooms.{SameRest};

use crate::entry::Ending;
use crate::table::UnitTable;
use crate::waits::drop_wants;
use base_types::{Outcome, UnitNo};
use core_model::Verdict;
use dependency_sets::DepSet;

impl UnitTable {
    /// A running unit is refused: it is aborted, and waits for no grain. Takes no memory.
    pub fn refuse(&mut self, unit: UnitNo)
        requires { is_running (phase_in self.old unit) ≡ true }
        ensures units { (seen : UnitNo → Option ℕ) → units_of self.new seen ≡ units_over (units_of self.old seen) unit phases.Refused }
        ensures verdict { verdict_in self.new ≡ put (verdict_in self.old) unit verdicts.Aborted }
        ensures result { result_in self.new ≡ result_in self.old }
        ensures base { base_of self.new ≡ base_of self.old }
    {
        let _ = self.close(unit, Ending::Refused, Verdict::Aborted, Outcome::Aborted);
    }

    /// A running transaction has finished with that result, and waits for no grain. Its dependencies are handed
    /// out. Takes no memory.
    pub fn finish(&mut self, unit: UnitNo, outcome: Outcome) -> DepSet
        requires { is_running (phase_in self.old unit) ≡ true }
        ensures deps { result.sources ≡ deps_in self.old unit }
        ensures units { (seen : UnitNo → Option ℕ) → units_of self.new seen ≡ units_over (units_of self.old seen) unit phases.Finished }
        ensures verdict { verdict_in self.new ≡ verdict_in self.old }
        ensures result { result_in self.new ≡ put (result_in self.old) unit outcome }
        ensures base { base_of self.new ≡ base_of self.old }
    {
        self.close(unit, Ending::Finished, Verdict::Open, outcome)
    }

    /// A running plain run has ended with that result, and waits for no grain. Takes no memory.
    pub fn end(&mut self, unit: UnitNo, outcome: Outcome)
        requires { is_running (phase_in self.old unit) ≡ true }
        ensures units { (seen : UnitNo → Option ℕ) → units_of self.new seen ≡ units_over (units_of self.old seen) unit phases.Ended }
        ensures verdict { verdict_in self.new ≡ verdict_in self.old }
        ensures result { result_in self.new ≡ put (result_in self.old) unit outcome }
        ensures base { base_of self.new ≡ base_of self.old }
    {
        let _ = self.close(unit, Ending::Ended, Verdict::Open, outcome);
    }

    /// A unit that is over is decided. Takes no memory.
    pub fn set_verdict(&mut self, unit: UnitNo, verdict: Verdict)
        requires { is_over (phase_in self.old unit) ≡ true }
        ensures units { (seen : UnitNo → Option ℕ) → units_of self.new seen ≡ units_of self.old seen }
        ensures verdict { verdict_in self.new ≡ put (verdict_in self.old) unit verdict }
        ensures result { result_in self.new ≡ result_in self.old }
        ensures base { base_of self.new ≡ base_of self.old }
    {
        if self.is_past(unit) {
            self.set_past_verdict(unit, verdict);
            return;
        }
        let at = self.place(unit);
        let entry = &mut self.units[at];
        entry.set_verdict(verdict);
    }

    // A unit whose result has gone is decided.
    fn set_past_verdict(&mut self, unit: UnitNo, verdict: Verdict)
        requires { is_past self.old unit ≡ true }
        ensures known { known_in self.new ≡ put (known_in self.old) unit (record (known_in self.old unit) { verdict = verdict }) }
        ensures next { next_in self.new ≡ next_in self.old }
        ensures lines { self.new.lines ≡ self.old.lines }
        ensures wants { wants_in self.new ≡ wants_in self.old }
        ensures rest { SameRest self.old self.new }
    {
        let at = (unit.0 - self.base) as usize;
        let past = &mut self.past[at];
        past.verdict = verdict;
    }

    // A running unit comes to its end, and waits for no grain. Its dependencies are handed out.
    fn close(&mut self, unit: UnitNo, ending: Ending, verdict: Verdict, outcome: Outcome) -> DepSet
        requires { is_running (phase_in self.old unit) ≡ true }
        ensures deps { result.sources ≡ deps_in self.old unit }
        ensures known { known_in self.new ≡ put (known_in self.old) unit
            (record (known_in self.old unit) { phase = phase_at ending; verdict = verdict; result = outcome }) }
        ensures wants { wants_in self.new ≡ without_wants unit (wants_in self.old) }
        ensures lines { self.new.lines ≡ self.old.lines }
        ensures next { next_in self.new ≡ next_in self.old }
        ensures rest { SameRest self.old self.new }
    {
        drop_wants(&mut self.wants, unit);
        let at = self.place(unit);
        let entry = &mut self.units[at];
        entry.end(ending, verdict, outcome)
    }
}
