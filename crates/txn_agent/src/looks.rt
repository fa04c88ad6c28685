ghost use Rattle.std.specs.Prelude.{◌≡◌, IfOk, IsOk};
ghost use Rattle.core_model.specs.Answers.{known};
ghost use Rattle.core_model.specs.LegalRuns.{ends};
ghost use Rattle.core_model.specs.Tests.{ask_answer, is_decided as decided, outcome_of};
ghost use Rattle.core_access.specs.FitAccess.{StaysFit};
ghost use Rattle.core_access.specs.Sights.{run_seen, Looks};

use base_types::{GrainId, Mode, UnitNo};
use core_access::Access;
use core_model::{AskAnswer, CoreAnswer, CoreQuestion, KnownOutcome};
use std::alloc::AllocError;

fn lock_answer<A: Access>(
    access: &mut A,
    unit: UnitNo,
    grain: GrainId,
    mode: Mode,
) -> Result<AskAnswer, AllocError>
    requires fit { A.is_fit access.old }
    ensures kept { StaysFit (A.is_fit access.new) (A.aside access.old) (A.aside access.new) }
    ensures looked { Looks A.may_come (A.sight access.old) (A.sight access.new) }
    ensures sure { IsOk result }
    ensures answer { IfOk result (λ answer. answer ≡ ask_answer (ends (run_seen (A.sight access.new))) unit grain mode) }
{
    match access.see(&CoreQuestion::Ask { unit, grain, mode })? {
        CoreAnswer::Ask(answer) => Ok(answer),
        _ => unreachable!(),
    }
}

/// What the core answers to the unit that asks for a lock. It takes no memory.
pub fn ask_for<A: Access>(access: &mut A, unit: UnitNo, grain: GrainId, mode: Mode) -> AskAnswer
    requires fit { A.is_fit access.old }
    ensures kept { StaysFit (A.is_fit access.new) (A.aside access.old) (A.aside access.new) }
    ensures looked { Looks A.may_come (A.sight access.old) (A.sight access.new) }
    ensures answer { result ≡ ask_answer (ends (run_seen (A.sight access.new))) unit grain mode }
{
    match lock_answer(access, unit, grain, mode) {
        Ok(answer) => answer,
        Err(_) => unreachable!(),
    }
}

/// Whether a unit is decided, and how.
pub fn known_of<A: Access>(access: &mut A, unit: UnitNo) -> Result<KnownOutcome, AllocError>
    requires fit { A.is_fit access.old }
    ensures kept { StaysFit (A.is_fit access.new) (A.aside access.old) (A.aside access.new) }
    ensures looked { Looks A.may_come (A.sight access.old) (A.sight access.new) }
    ensures answer { IfOk result (λ answer. answer ≡ known (outcome_of (ends (run_seen (A.sight access.new))) unit)) }
{
    match access.see(&CoreQuestion::Outcome { unit })? {
        CoreAnswer::Outcome(answer) => Ok(answer),
        _ => unreachable!(),
    }
}

/// Whether a unit is decided. It takes no memory.
pub fn is_decided<A: Access>(access: &mut A, unit: UnitNo) -> Result<bool, AllocError>
    requires fit { A.is_fit access.old }
    ensures kept { StaysFit (A.is_fit access.new) (A.aside access.old) (A.aside access.new) }
    ensures looked { Looks A.may_come (A.sight access.old) (A.sight access.new) }
    ensures sure { IsOk result }
    ensures answer { IfOk result (λ answer. answer ≡ decided (ends (run_seen (A.sight access.new))) unit) }
{
    match access.see(&CoreQuestion::IsDecided { unit })? {
        CoreAnswer::IsDecided(answer) => Ok(answer),
        _ => unreachable!(),
    }
}
