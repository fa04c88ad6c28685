// Whether what a unit says that it did is what it did.
ghost use Rattle.std.specs.Prelude.{◌≡◌, true, false};
ghost use Rattle.core_model.specs.Equality.{same_outcome};
ghost use Rattle.core_model.specs.Tests.{is_answer, is_over};
ghost use Rattle.unit_table.specs.Table.{is_past, outcome_known, phase_in, result_in};
ghost use Rattle.unit_table.specs.KnownUnits.{known_running};
ghost use Rattle.history_core.specs.Effects.{is_of_call_in, answered_in, outcome_kept};

use crate::parts::Parts;
use base_types::{Outcome, UnitNo};
use core_model::{Effect, Phase, Verdict};
use core_parts::Same;
use unit_table::{RunningUnit, UnitTable};

impl Parts {
    // Whether the effect is of the unit's call, with its children's outcomes.
    pub(crate) fn is_of_call(&self, unit: UnitNo, running: &RunningUnit, effect: &Effect) -> bool
        ensures { result ≡ is_of_call_in self.now unit effect.now (known_running running.now) }
    {
        effect.unit == unit
            && effect.origin.is_same(&running.origin)
            && effect.call.is_same(&running.call)
            && are_answers(
                &self.units,
                running.kids.as_slice(),
                effect.answers.as_slice(),
            )
    }
}

// Whether these units are decided, with these outcomes, which are kept.
fn are_answers(table: &UnitTable, units: &[UnitNo], answers: &[Outcome]) -> bool
    ensures { result ≡ answered_in (outcome_kept table.now) units.now answers.now }
{
    if units.len() != answers.len() {
        return false;
    }
    for at in 0..units.len() {
        if !is_answer(table, units[at], &answers[at]) {
            return false;
        }
    }
    true
}

// Whether the unit is decided, with that outcome, which is kept.
fn is_answer(table: &UnitTable, unit: UnitNo, answer: &Outcome) -> bool
    ensures { result ≡ is_answer (outcome_kept table.now unit) answer.now }
{
    if table.is_past(unit) {
        return false;
    }
    is_kept_answer(table, unit, answer)
}

// Whether a unit whose result is kept is decided, with that outcome.
fn is_kept_answer(table: &UnitTable, unit: UnitNo, answer: &Outcome) -> bool
    requires { is_past table.now unit ≡ false }
    ensures { result ≡ is_answer (outcome_known table.now unit) answer.now }
{
    match table.phase(unit) {
        Phase::Unborn | Phase::Running => false,
        Phase::Refused => Outcome::Aborted.is_same(answer),
        Phase::Ended => has_result(table, unit, answer),
        Phase::Finished => match table.verdict(unit) {
            Verdict::Open | Verdict::Chosen | Verdict::Condemned => false,
            Verdict::Committed => has_result(table, unit, answer),
            Verdict::Aborted => Outcome::Aborted.is_same(answer),
        },
    }
}

// Whether a unit that is over, and whose result is kept, has that result.
fn has_result(table: &UnitTable, unit: UnitNo, answer: &Outcome) -> bool
    requires over { is_over (phase_in table.now unit) ≡ true }
    requires kept { is_past table.now unit ≡ false }
    ensures { result ≡ same_outcome (result_in table.now unit) answer.now }
{
    match table.result(unit) {
        Some(result) => result.is_same(answer),
        None => false,
    }
}
