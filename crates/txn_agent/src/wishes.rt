ghost use Rattle.std.specs.Prelude.{◌≡◌, true, false, IfOk, IfErr};
ghost use Rattle.core_access.specs.FitAccess.{StaysFit};
ghost use Rattle.core_access.specs.Sights.{Counts, Looks};
ghost use Rattle.script_tree.specs.Programs.{ProgramTree};
ghost use Rattle.promise_spec.specs.TurnRule.{is_absent};
ghost use Rattle.txn_agent.specs.CoreLink.{KnowsDoing};
ghost use Rattle.txn_agent.specs.Wishes.{HasItsGrain, WishSays, lock_of, shows_grain};

use crate::looks::ask_for;
use crate::puts::put_want;
use crate::work::{Carried, Doing};
use base_types::{GrainId, Mode};
use core_access::Access;
use core_model::AskAnswer;
use script_machine::Pause;
use std::alloc::AllocError;

/// The lock for which the script stands, if it stands for one.
fn lock_of(doing: &Doing) -> Option<(GrainId, Mode)>
    ensures { result ≡ lock_of doing.now }
{
    match doing {
        Doing::Asks { pause, .. } => match pause {
            Pause::NeedGrain { grain, mode } => Some((*grain, *mode)),
            Pause::NeedUnit { .. } | Pause::Done { .. } => None,
        },
        Doing::Awaits { .. } | Doing::Frees { .. } | Doing::Stopped => None,
    }
}

/// Whether the answer says that the grain isn't in memory.
fn is_absent(answer: AskAnswer) -> bool
    ensures { result ≡ is_absent answer }
{
    match answer {
        AskAnswer::Absent => true,
        AskAnswer::Free
        | AskAnswer::MustWait { .. }
        | AskAnswer::MustDie { .. }
        | AskAnswer::Doomed { .. }
        | AskAnswer::NotActive
        | AskAnswer::Held => false,
    }
}

/// Whether the answer shows that the grain is in memory.
fn shows_grain(answer: AskAnswer) -> bool
    ensures { result ≡ shows_grain answer }
{
    match answer {
        AskAnswer::Free
        | AskAnswer::Held
        | AskAnswer::MustWait { .. }
        | AskAnswer::MustDie { .. } => true,
        AskAnswer::Absent | AskAnswer::Doomed { .. } | AskAnswer::NotActive => false,
    }
}

/// Whether the script stands for no lock, or the core shows that the grain of the one for which it stands is in memory.
pub fn has_grain<A: Access>(access: &mut A, carried: Carried, doing: &Doing) -> bool
    requires fit { A.is_fit access.old }
    ensures kept { StaysFit (A.is_fit access.new) (A.aside access.old) (A.aside access.new) }
    ensures looked { Looks A.may_come (A.sight access.old) (A.sight access.new) }
    ensures has { (types : ProgramTree) → Counts (A.sight access.old) → KnowsDoing types (A.sight access.old) carried doing.now → result ≡ true
        → HasItsGrain types (A.sight access.new) carried.unit doing.now }
{
    let Some((grain, mode)) = lock_of(doing) else {
        return true;
    };
    shows_grain(ask_for(access, carried.unit, grain, mode))
}

/// Puts the unit's wish for the grain of the lock for which its script asks, where that isn't in memory, and answers whether it
/// was done.
pub fn wish<A: Access>(access: &mut A, carried: Carried, doing: &Doing) -> Result<bool, AllocError>
    requires fit { A.is_fit access.old }
    ensures kept { StaysFit (A.is_fit access.new) (A.aside access.old) (A.aside access.new) }
    ensures looked { IfErr result (λ _. Looks A.may_come (A.sight access.old) (A.sight access.new)) }
    ensures told { IfOk result (λ done. (types : ProgramTree) → Counts (A.sight access.old) → KnowsDoing types (A.sight access.old) carried doing.now
        → WishSays A.may_come types carried.unit doing.now (A.sight access.old) (A.sight access.new) done) }
    ensures knows { (types : ProgramTree) → Counts (A.sight access.old) → KnowsDoing types (A.sight access.old) carried doing.now
        → KnowsDoing types (A.sight access.new) carried doing.now }
{
    let Some((grain, mode)) = lock_of(doing) else {
        return Ok(false);
    };
    if !is_absent(ask_for(access, carried.unit, grain, mode)) {
        return Ok(false);
    }
    let done = put_want(access, carried.unit, grain)?;
    Ok(done)
}
