ghost use Rattle.std.specs.Prelude.{◌≡◌, ◌+◌, true, IfOk, IsOk};
ghost use Rattle.core_model.specs.LegalRuns.{ends};
ghost use Rattle.core_access.specs.FitAccess.{StaysFit};
ghost use Rattle.core_access.specs.Sights.{run_seen, IsHistory, Looks};
ghost use Rattle.unit_crew.specs.FinishedUnits.{IsHalted};

use base_types::{Outcome, UnitNo};
use core_access::Access;
use core_model::{CoreAnswer, CoreQuestion, KnownOutcome};
use std::alloc::AllocError;

/// Whether a stop or a doubt stands. It takes no memory.
pub(crate) fn is_halted<A: Access>(access: &mut A) -> Result<bool, AllocError>
    requires fit { A.is_fit access.old }
    ensures kept { StaysFit (A.is_fit access.new) (A.aside access.old) (A.aside access.new) }
    ensures legal { IsHistory (A.sight access.new) }
    ensures looked { Looks A.may_come (A.sight access.old) (A.sight access.new) }
    ensures sure { IsOk result }
    ensures halted { IfOk result (λ halted. halted ≡ true → IsHalted (run_seen (A.sight access.new))) }
{
    match access.see(&CoreQuestion::Halted)? {
        CoreAnswer::Halted(halted) => Ok(halted),
        _ => unreachable!(),
    }
}

/// The number of the next line. It takes no memory.
pub(crate) fn next_line<A: Access>(access: &mut A) -> Result<u64, AllocError>
    requires fit { A.is_fit access.old }
    ensures kept { StaysFit (A.is_fit access.new) (A.aside access.old) (A.aside access.new) }
    ensures looked { Looks A.may_come (A.sight access.old) (A.sight access.new) }
    ensures sure { IsOk result }
    ensures next { IfOk result (λ next. next ≡ (ends (run_seen (A.sight access.new))).units.lines + 1) }
{
    match access.see(&CoreQuestion::NextLine)? {
        CoreAnswer::NextLine(next) => Ok(next),
        _ => unreachable!(),
    }
}

/// Whether the unit was aborted by now: soon after it was over that is so of one that was refused a lock. Without memory for its
/// outcome it isn't told.
pub(crate) fn was_aborted<A: Access>(access: &mut A, unit: UnitNo) -> bool
    requires fit { A.is_fit access.old }
    ensures kept { StaysFit (A.is_fit access.new) (A.aside access.old) (A.aside access.new) }
    ensures looked { Looks A.may_come (A.sight access.old) (A.sight access.new) }
{
    match access.see(&CoreQuestion::Outcome { unit }) {
        Ok(CoreAnswer::Outcome(KnownOutcome::Decided(Outcome::Aborted))) => true,
        Ok(told) => {
            drop(told);
            false
        }
        Err(AllocError) => false,
    }
}
