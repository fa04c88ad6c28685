ghost use Rattle.std.specs.Prelude.{◌≡◌, false, true};
ghost use Rattle.core_model.specs.declared.questions.AskAnswer.TheVariants.{Free as IsFree};
ghost use Rattle.core_model.specs.LegalRuns.{ends};
ghost use Rattle.core_model.specs.Tests.{ask_answer};
ghost use Rattle.core_access.specs.Sights.{run_seen, Counts};
ghost use Rattle.script_tree.specs.Programs.{program_tree};
ghost use Rattle.script_machine.specs.Machines.{asks_raise, rest};
ghost use Rattle.script_machine.specs.declared.machine.Pause.TheVariants.{NeedGrain};
ghost use Rattle.txn_agent.specs.CoreLink.{KnowsPaused};
ghost use Rattle.txn_agent.specs.AgentStep.{HasStepped};

use crate::agent::Advanced;
use crate::puts::put_grant;
use crate::work::{Carried, Doing, Work};
use base_types::{GrainId, Mode};
use core_access::Access;
use script_check::Checked;
use script_machine::{Input, Pause};
use std::alloc::{AllocError, Global};

/// Locks a grain for the first time, and hands its state to the unit's script.
pub fn grant_first<A: Access>(
    alloc: Global,
    checked: &Checked,
    access: &mut A,
    carried: Carried,
    work: Work,
    grain: GrainId,
    mode: Mode,
) -> Result<(Doing, Advanced), AllocError>
    requires fit { A.is_fit access.old }
    requires counts { Counts (A.sight access.old) }
    requires paused { KnowsPaused (program_tree checked.now) (A.sight access.old) carried work (NeedGrain grain mode) }
    requires first { asks_raise (rest (program_tree checked.now) work.machine) ≡ false }
    requires free { ask_answer (ends (run_seen (A.sight access.old))) carried.unit grain mode ≡ IsFree }
    ensures stepped { HasStepped A.is_fit A.aside A.may_come A.sight (program_tree checked.now) carried work.kids access.old access.new result }
{
    let granted = put_grant(access, carried.unit, grain, mode)?;
    match granted {
        Some((state, source)) => {
            let locked = work.with_lock(grain, source)?;
            let (work, pause) = locked.resume(alloc, checked, Input::Grain { state })?;
            Ok((
                Doing::Asks { work, pause },
                Advanced::Granted { grain, source },
            ))
        }
        None => {
            let pause = Pause::NeedGrain { grain, mode };
            Ok((Doing::Asks { work, pause }, Advanced::Moved))
        }
    }
}

/// Makes a shared lock exclusive.
pub fn grant_again<A: Access>(
    alloc: Global,
    checked: &Checked,
    access: &mut A,
    carried: Carried,
    work: Work,
    grain: GrainId,
    mode: Mode,
) -> Result<(Doing, Advanced), AllocError>
    requires fit { A.is_fit access.old }
    requires counts { Counts (A.sight access.old) }
    requires paused { KnowsPaused (program_tree checked.now) (A.sight access.old) carried work (NeedGrain grain mode) }
    requires again { asks_raise (rest (program_tree checked.now) work.machine) ≡ true }
    requires free { ask_answer (ends (run_seen (A.sight access.old))) carried.unit grain mode ≡ IsFree }
    ensures stepped { HasStepped A.is_fit A.aside A.may_come A.sight (program_tree checked.now) carried work.kids access.old access.new result }
{
    let granted = put_grant(access, carried.unit, grain, mode)?;
    match granted {
        Some((_state, source)) => {
            let (work, pause) = work.resume(alloc, checked, Input::Held)?;
            Ok((
                Doing::Asks { work, pause },
                Advanced::Granted { grain, source },
            ))
        }
        None => {
            let pause = Pause::NeedGrain { grain, mode };
            Ok((Doing::Asks { work, pause }, Advanced::Moved))
        }
    }
}
