ghost use Rattle.std.specs.Prelude.{◌≡◌, IfOk, IsOk};
ghost use Rattle.core_access.specs.FitAccess.{StaysFit};
ghost use Rattle.core_access.specs.Sights.{Counts, Looks};
ghost use Rattle.script_tree.specs.Programs.{ProgramTree, program_tree};
ghost use Rattle.promise_spec.specs.TurnRule.{is_wait};
ghost use Rattle.txn_agent.specs.CoreLink.{IfOwn, KnowsPaused, KnowsWaiting, KnowsDoing};
ghost use Rattle.txn_agent.specs.AgentStep.{HasStepped, Hears, children_of};
ghost use Rattle.txn_agent.specs.ShownMoves.{ShowsMove};

use crate::agent::Advanced;
use crate::children::{begin_child, hear};
use crate::ends::{finish, release};
use crate::locks::take_grain;
use crate::looks::{ask_for, is_decided, known_of};
use crate::work::{Carried, Doing, Work};
use base_types::UnitNo;
use core_access::Access;
use core_model::{AskAnswer, KnownOutcome};
use script_check::Checked;
use script_machine::{Input, Pause};
use std::alloc::{AllocError, Global};

/// Hands the script the outcome of the child for which it waits, where the child is decided.
pub fn hear_child<A: Access>(
    alloc: Global,
    checked: &Checked,
    access: &mut A,
    carried: Carried,
    doing: Doing,
) -> Result<Doing, AllocError>
    requires fit { A.is_fit access.old }
    requires counts { Counts (A.sight access.old) }
    requires doing { KnowsDoing (program_tree checked.now) (A.sight access.old) carried doing }
    ensures kept { StaysFit (A.is_fit access.new) (A.aside access.old) (A.aside access.new) }
    ensures looked { Looks A.may_come (A.sight access.old) (A.sight access.new) }
    ensures heard { IfOk result (λ made. Hears (A.sight access.new) made) }
    ensures children { IfOk result (λ made. children_of made ≡ children_of doing) }
    ensures doing { IfOk result (λ made. KnowsDoing (program_tree checked.now) (A.sight access.new) carried made) }
{
    match doing {
        Doing::Awaits { work, child } => hear(alloc, checked, access, carried, work, child),
        Doing::Asks { work, pause } => Ok(Doing::Asks { work, pause }),
        Doing::Frees { held } => Ok(Doing::Frees { held }),
        Doing::Stopped => Ok(Doing::Stopped),
    }
}

/// Does what the script asks for.
fn do_asked<A: Access>(
    alloc: Global,
    checked: &Checked,
    access: &mut A,
    carried: Carried,
    work: Work,
    pause: Pause,
) -> Result<(Doing, Advanced), AllocError>
    requires fit { A.is_fit access.old }
    requires counts { Counts (A.sight access.old) }
    requires paused { KnowsPaused (program_tree checked.now) (A.sight access.old) carried work pause }
    ensures stepped { HasStepped A.is_fit A.aside A.may_come A.sight (program_tree checked.now) carried work.kids access.old access.new result }
{
    match pause {
        Pause::NeedGrain { grain, mode } => take_grain(
            alloc, checked, access, carried, work, grain, mode,
        ),
        Pause::NeedUnit { call, depth } => begin_child(checked, access, carried, work, call, depth),
        Pause::Done { outcome } => finish(alloc, checked, access, carried, work, outcome),
    }
}

/// Hands the script the outcome of the child for which it waits and does what it asks for then, where the child is decided.
fn await_child<A: Access>(
    alloc: Global,
    checked: &Checked,
    access: &mut A,
    carried: Carried,
    work: Work,
    child: UnitNo,
) -> Result<(Doing, Advanced), AllocError>
    requires fit { A.is_fit access.old }
    requires counts { Counts (A.sight access.old) }
    requires waits { KnowsWaiting (program_tree checked.now) (A.sight access.old) carried work child }
    ensures stepped { HasStepped A.is_fit A.aside A.may_come A.sight (program_tree checked.now) carried work.kids access.old access.new result }
{
    match known_of(access, child)? {
        KnownOutcome::Undecided => Ok((
            Doing::Awaits { work, child },
            Advanced::WaitsFor { child },
        )),
        KnownOutcome::Decided(outcome) => {
            let (work, pause) = work.resume(alloc, checked, Input::Unit { outcome })?;
            do_asked(alloc, checked, access, carried, work, pause)
        }
    }
}

/// Goes on by at most one event of the unit.
pub fn step<A: Access>(
    alloc: Global,
    checked: &Checked,
    access: &mut A,
    carried: Carried,
    doing: Doing,
) -> Result<(Doing, Advanced), AllocError>
    requires fit { A.is_fit access.old }
    requires counts { Counts (A.sight access.old) }
    requires doing { KnowsDoing (program_tree checked.now) (A.sight access.old) carried doing }
    ensures stepped { HasStepped A.is_fit A.aside A.may_come A.sight (program_tree checked.now) carried (children_of doing) access.old access.new result }
{
    match doing {
        Doing::Asks { work, pause } => do_asked(alloc, checked, access, carried, work, pause),
        Doing::Awaits { work, child } => await_child(alloc, checked, access, carried, work, child),
        Doing::Frees { held } => release(checked, access, carried, held),
        Doing::Stopped => Ok((Doing::Stopped, Advanced::Ended)),
    }
}

/// Whether the answer says that the unit must wait.
fn must_wait(answer: AskAnswer) -> bool
    ensures { result ≡ is_wait answer }
{
    match answer {
        AskAnswer::MustWait { .. } | AskAnswer::Absent => true,
        AskAnswer::Free
        | AskAnswer::MustDie { .. }
        | AskAnswer::Doomed { .. }
        | AskAnswer::NotActive
        | AskAnswer::Held => false,
    }
}

/// Whether the unit moves, by what was looked at in this call.
pub fn moves_now<A: Access>(
    access: &mut A,
    carried: Carried,
    doing: &Doing,
) -> Result<bool, AllocError>
    requires fit { A.is_fit access.old }
    ensures kept { StaysFit (A.is_fit access.new) (A.aside access.old) (A.aside access.new) }
    ensures looked { Looks A.may_come (A.sight access.old) (A.sight access.new) }
    ensures sure { IsOk result }
    ensures moves { IfOk result (λ b. (types : ProgramTree) → Counts (A.sight access.old) → KnowsDoing types (A.sight access.old) carried doing.now
        → IfOwn carried (A.sight access.new) (λ r. ShowsMove types r carried doing.now b)) }
{
    match doing {
        Doing::Asks { pause, .. } => match pause {
            Pause::NeedGrain { grain, mode } => {
                let answer = ask_for(access, carried.unit, *grain, *mode);
                Ok(!must_wait(answer))
            }
            Pause::NeedUnit { .. } => Ok(true),
            Pause::Done { .. } => Ok(true),
        },
        Doing::Awaits { child, .. } => {
            let decided = is_decided(access, *child)?;
            Ok(decided)
        }
        Doing::Frees { held } => Ok(!held.is_empty()),
        Doing::Stopped => Ok(false),
    }
}
