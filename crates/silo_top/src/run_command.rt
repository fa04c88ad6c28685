ghost use Rattle.std.specs.Prelude.{◌≡◌, ◌<◌, ◌≤◌, IsTrue, IfOk, IfErr};
ghost use Rattle.promise_spec.specs.Words.{Manner};
ghost use Rattle.host_trait.specs.Files.{StaysReady};
ghost use Rattle.promise_spec.specs.Words as command;
ghost use Rattle.promise_spec.specs.Endings.{MayEndRun};
ghost use Rattle.promise_spec.specs.Promise.{Promises};
ghost use Rattle.silo_top.specs.CallAnswers.{AnswersRun, shown, turns_manner, workers_manner};
ghost use Rattle.silo_opening.specs.OpenedSilo.{ending_of};
ghost use Rattle.silo_top.specs.Continuation.{CanCarry};
ghost use Rattle.silo_top.specs.RunWindows.{IsRunUnderWay};
ghost use Rattle.silo_top.specs.Statuses.{status_ending};

use crate::run_start::start;
use crate::run_windows::{Running, windows_by_workers, windows_in_turns};
use crate::status::Status;
use base_types::List;
use host_trait::Host;
use input_windows::InputWindows;
use settle_loop::Gate;
use silo_opening::{OpenFault, open_silo};
use std::alloc::{AllocError, Global};
use std::sync::Wait;
use std::thread::Threads;

/// The status of a call whose silo wasn't opened.
pub(crate) fn open_status(fault: OpenFault) -> Status
    ensures { status_ending result ≡ ending_of fault }
{
    match fault {
        OpenFault::NotASilo => Status::NotASilo,
        OpenFault::OldFormat => Status::OldFormat,
        OpenFault::Damaged { file, place } => Status::Damaged { file, place },
        OpenFault::DiskFault { file } => Status::DiskFault { file },
        OpenFault::Memory => Status::Memory,
        OpenFault::LastGeneration => Status::LastGeneration,
    }
}

/// Opens the silo. Nothing of the input was read yet.
fn begin_run<H: Host>(alloc: Global, host: &mut H) -> Result<Running, Status>
    // Carried in whichever manner, the run is under way.
    ensures begins { IfOk result (λ run. (m : Manner) → 0 < m.width → IsRunUnderWay H.tells m (H.faults host.old) (H.world host.old)
        run (H.faults host.new) (H.world host.new)) }
    ensures can { IfOk result (λ run. CanCarry H.tells run.started (H.world host.new)) }

    // Where it didn't begin, it has kept its promise.
    ensures promises { IfErr result (λ status. IsTrue H.tells → (m : Manner) → Promises m
        (shown (H.world host.old) (H.world host.new) (H.faults host.old) (H.faults host.new) status (command.Run m))) }
    ensures answers { IfErr result (λ status. AnswersRun MayEndRun (status_ending status) (H.faults host.old) (H.faults host.new)) }
    ensures ready { StaysReady (H.is_ready host.old) (H.is_ready host.new) }
{
    let opened = match open_silo(alloc, host) {
        Ok(opened) => opened,
        Err(fault) => return Err(open_status(fault)),
    };
    match start(alloc, opened, false) {
        Ok(started) => {
            let windows = InputWindows::new(alloc);
            Ok(Running {
                started,
                windows,
                used: 0,
            })
        }
        Err(AllocError) => Err(Status::Memory),
    }
}

/// Opens the silo, and carries the lines of the input on one thread, window by window.
pub(crate) fn run_in_turns<H: Host, G: Gate>(
    alloc: Global,
    host: &mut H,
    gate: &G,
    width: u32,
    picks: &List<u32>,
) -> Status
    requires wide { 0 < width }
    ensures promises { IsTrue H.tells → Promises (turns_manner width picks.now)
        (shown (H.world host.old) (H.world host.new) (H.faults host.old) (H.faults host.new) result (command.Run (turns_manner width picks.now))) }
    ensures answers { AnswersRun MayEndRun (status_ending result) (H.faults host.old) (H.faults host.new) }
    ensures ready { StaysReady (H.is_ready host.old) (H.is_ready host.new) }
{
    match begin_run(alloc, host) {
        Ok(running) => windows_in_turns(alloc, running, host, gate, width, picks),
        Err(status) => status,
    }
}

/// Opens the silo, and carries the lines of the input by so many workers, window by window.
pub(crate) fn run_by_workers<R: Threads + Wait + Sync, H: Host, G: Gate + Sync>(
    rt: &R,
    alloc: Global,
    host: &mut H,
    gate: &G,
    workers: u32,
) -> Status
    requires few { workers ≤ 16 }
    ensures promises { IsTrue H.tells → Promises workers_manner
        (shown (H.world host.old) (H.world host.new) (H.faults host.old) (H.faults host.new) result (command.Run workers_manner)) }
    ensures answers { AnswersRun MayEndRun (status_ending result) (H.faults host.old) (H.faults host.new) }
    ensures ready { StaysReady (H.is_ready host.old) (H.is_ready host.new) }
{
    match begin_run(alloc, host) {
        Ok(running) => windows_by_workers(rt, alloc, running, host, gate, workers),
        Err(status) => status,
    }
}
