ghost use Rattle.std.specs.Prelude.{◌≡◌, is_some, true};
ghost use Rattle.core_model.specs.Changes.{refusal};
ghost use Rattle.core_model.specs.LegalRuns.{ends};
ghost use Rattle.core_model.specs.Tests.{ask_answer};
ghost use Rattle.core_access.specs.Sights.{run_seen, Counts};
ghost use Rattle.script_tree.specs.Programs.{program_tree};
ghost use Rattle.script_machine.specs.declared.machine.Pause.TheVariants.{NeedGrain};
ghost use Rattle.txn_agent.specs.CoreLink.{KnowsPaused};
ghost use Rattle.txn_agent.specs.AgentStep.{HasStepped};

use crate::agent::Advanced;
use crate::grants::{grant_again, grant_first};
use crate::looks::ask_for;
use crate::puts::put_refuse;
use crate::work::{Carried, Doing, Work};
use base_types::{GrainId, Mode};
use core_access::Access;
use core_model::AskAnswer;
use script_check::Checked;
use script_machine::Pause;
use std::alloc::{AllocError, Global};

/// Refuses a lock that the unit asks for. Then its locks are to be given back.
fn refuse<A: Access>(
    checked: &Checked,
    access: &mut A,
    carried: Carried,
    work: Work,
    grain: GrainId,
    mode: Mode,
) -> Result<(Doing, Advanced), AllocError>
    requires fit { A.is_fit access.old }
    requires counts { Counts (A.sight access.old) }
    requires paused { KnowsPaused (program_tree checked.now) (A.sight access.old) carried work (NeedGrain grain mode) }
    requires barred { is_some (refusal grain (ask_answer (ends (run_seen (A.sight access.old))) carried.unit grain mode)) ≡ true }
    ensures stepped { HasStepped A.is_fit A.aside A.may_come A.sight (program_tree checked.now) carried work.kids access.old access.new result }
{
    let done = put_refuse(access, carried.unit, grain, mode)?;
    if done {
        return Ok((
            Doing::Frees {
                held: work.into_held(),
            },
            Advanced::Moved,
        ));
    }
    let pause = Pause::NeedGrain { grain, mode };
    Ok((Doing::Asks { work, pause }, Advanced::Moved))
}

/// Asks for a grain: locks it where it is free, and refuses it where the unit must die or has read what is gone.
pub fn take_grain<A: Access>(
    alloc: Global,
    checked: &Checked,
    access: &mut A,
    carried: Carried,
    work: Work,
    grain: GrainId,
    mode: Mode,
) -> Result<(Doing, Advanced), AllocError>
    requires fit { A.is_fit access.old }
    requires counts { Counts (A.sight access.old) }
    requires paused { KnowsPaused (program_tree checked.now) (A.sight access.old) carried work (NeedGrain grain mode) }
    ensures stepped { HasStepped A.is_fit A.aside A.may_come A.sight (program_tree checked.now) carried work.kids access.old access.new result }
{
    match ask_for(access, carried.unit, grain, mode) {
        AskAnswer::Free => {
            if work.machine.is_raise() {
                grant_again(alloc, checked, access, carried, work, grain, mode)
            } else {
                grant_first(alloc, checked, access, carried, work, grain, mode)
            }
        }
        AskAnswer::MustWait { holder } => {
            let pause = Pause::NeedGrain { grain, mode };
            Ok((Doing::Asks { work, pause }, Advanced::Waits { holder }))
        }
        AskAnswer::MustDie { holder: _holder } => refuse(
            checked, access, carried, work, grain, mode,
        ),
        AskAnswer::Doomed { source: _source } => refuse(
            checked, access, carried, work, grain, mode,
        ),
        AskAnswer::NotActive => {
            let pause = Pause::NeedGrain { grain, mode };
            Ok((Doing::Asks { work, pause }, Advanced::Moved))
        }
        AskAnswer::Held => {
            let pause = Pause::NeedGrain { grain, mode };
            Ok((Doing::Asks { work, pause }, Advanced::Moved))
        }
        AskAnswer::Absent => {
            let pause = Pause::NeedGrain { grain, mode };
            Ok((Doing::Asks { work, pause }, Advanced::WaitsLoad { grain }))
        }
    }
}
