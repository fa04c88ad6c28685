ghost use Rattle.std.specs.Prelude.{◌≡◌, ◌<◌, ◌≤◌, IsTrue, IfOk, OnOk};
ghost use Rattle.host_trait.specs.Files.{StaysReady};
ghost use Rattle.input_windows.specs.GivenWindows.{input_ending};
ghost use Rattle.input_windows.specs.Pulls.{PulledOnly};
ghost use Rattle.input_windows.specs.Windows.{given_in};
ghost use Rattle.silo_top.specs.CallAnswers.{turns_manner, workers_manner};
ghost use Rattle.silo_top.specs.InputReads.{WindowFaulted, WindowComes};
ghost use Rattle.silo_top.specs.RunBehindOpening.{ending_by_turns};
ghost use Rattle.silo_top.specs.RunWindows.{GoesOnInWindows, GoesToItsEnd};
ghost use Rattle.silo_top.specs.Continuation.{CanCarry};
ghost use Rattle.silo_top.specs.Statuses.{status_ending};

use crate::line_execution::{carry_by_workers, carry_in_turns};
use crate::run_start::Started;
use crate::status::Status;
use base_types::List;
use host_trait::{FileId, Host};
use input_windows::{InputWindows, WindowFault};
use interleaver::RunFault;
use run_lines::InputLines;
use settle_loop::Gate;
use std::alloc::Global;
use std::sync::Wait;
use std::thread::Threads;

/// A run between two windows of its input: what carries its lines, the windows so far, and how many picks their lines took.
#[derive(Drop)]
pub(crate) struct Running {
    pub(crate) started: Started,
    pub(crate) windows: InputWindows,
    pub(crate) used: usize,
}

/// The status of a run in this slot whose turns ended before each line of its window had its reply.
fn fault_status(slot: u8, fault: RunFault) -> Status
    ensures { status_ending result ≡ ending_by_turns slot fault }
{
    match fault {
        RunFault::InDoubt => Status::DiskFault {
            file: FileId::Manager { slot },
        },
        RunFault::WriteFault => Status::WriteFault,
        RunFault::Memory => Status::Memory,
        RunFault::LoadFault { file } => Status::DiskFault { file },
        RunFault::LoadDamaged { file, place } => Status::Damaged { file, place },
    }
}

/// The status of a run that got no further window.
fn window_status(fault: WindowFault) -> Status
    ensures { status_ending result ≡ input_ending fault }
{
    match fault {
        WindowFault::Memory => Status::Memory,
        WindowFault::Failed => Status::ReadFault,
        WindowFault::TooLong { line } => Status::InputTooLong { line },
    }
}

/// Reads the next window. Where none comes, the error is the status of the run: `Done` at the end of the input.
fn next_window<H: Host>(windows: &mut InputWindows, host: &mut H) -> Result<(), Status>
    ensures comes { WindowComes H.tells windows.old (H.world host.old) windows.new (H.world host.new) result }
    ensures further { OnOk result (given_in windows.old < given_in windows.new) }
    ensures counts { WindowFaulted result (H.faults host.old) (H.faults host.new) }
    ensures only { IsTrue H.tells → PulledOnly (H.world host.old) (H.world host.new) }
    ensures ready { StaysReady (H.is_ready host.old) (H.is_ready host.new) }
{
    if windows.is_last() {
        return Err(Status::Done);
    }
    match windows.next_window(host) {
        Ok(true) => Ok(()),
        Ok(false) => Err(Status::Done),
        Err(fault) => Err(window_status(fault)),
    }
}

/// Carries the lines of the next window on one thread. Where none comes, or a fault ends the run, the error is its status.
fn window_in_turns<H: Host, G: Gate>(
    alloc: Global,
    running: Running,
    host: &mut H,
    gate: &G,
    width: u32,
    picks: &List<u32>,
) -> Result<Running, Status>
    requires wide { 0 < width }
    requires can { CanCarry H.tells running.started (H.world host.old) }
    ensures goes { GoesOnInWindows H.tells (turns_manner width picks.now) running (H.faults host.old) (H.world host.old)
        result (H.faults host.new) (H.world host.new) }
    ensures can { IfOk result (λ run. CanCarry H.tells run.started (H.world host.new)) }
    ensures further { IfOk result (λ run. given_in running.windows < given_in run.windows) }
    ensures ready { StaysReady (H.is_ready host.old) (H.is_ready host.new) }
{
    let Running {
        started,
        mut windows,
        mut used,
    } = running;
    match next_window(&mut windows, host) {
        Ok(()) => {}
        Err(status) => {
            drop(started);
            drop(windows);
            return Err(status);
        }
    }
    let Started {
        slot,
        checked,
        core,
        mut settler,
    } = started;
    let lines = InputLines::new_behind(&checked, windows.lines_before(), windows.window());
    match carry_in_turns(
        alloc,
        &checked,
        core,
        &mut settler,
        lines,
        host,
        gate,
        width,
        picks,
        &mut used,
    ) {
        Ok(core) => Ok(Running {
            started: Started {
                slot,
                checked,
                core,
                settler,
            },
            windows,
            used,
        }),
        Err(fault) => {
            drop(checked);
            drop(settler);
            drop(windows);
            Err(fault_status(slot, fault))
        }
    }
}

/// Carries the lines of the next window by so many workers. Where none comes, or a fault ends the run, the error is its status.
fn window_by_workers<R: Threads + Wait + Sync, H: Host, G: Gate + Sync>(
    rt: &R,
    alloc: Global,
    running: Running,
    host: &mut H,
    gate: &G,
    workers: u32,
) -> Result<Running, Status>
    requires few { workers ≤ 16 }
    requires can { CanCarry H.tells running.started (H.world host.old) }
    ensures goes { GoesOnInWindows H.tells workers_manner running (H.faults host.old) (H.world host.old)
        result (H.faults host.new) (H.world host.new) }
    ensures can { IfOk result (λ run. CanCarry H.tells run.started (H.world host.new)) }
    ensures further { IfOk result (λ run. given_in running.windows < given_in run.windows) }
    ensures ready { StaysReady (H.is_ready host.old) (H.is_ready host.new) }
{
    let Running {
        started,
        mut windows,
        used,
    } = running;
    match next_window(&mut windows, host) {
        Ok(()) => {}
        Err(status) => {
            drop(started);
            drop(windows);
            return Err(status);
        }
    }
    let Started {
        slot,
        checked,
        core,
        mut settler,
    } = started;
    let lines = InputLines::new_behind(&checked, windows.lines_before(), windows.window());
    match carry_by_workers(
        rt,
        alloc,
        &checked,
        core,
        &mut settler,
        lines,
        host,
        gate,
        workers,
    ) {
        Ok(core) => Ok(Running {
            started: Started {
                slot,
                checked,
                core,
                settler,
            },
            windows,
            used,
        }),
        Err(fault) => {
            drop(checked);
            drop(settler);
            drop(windows);
            Err(fault_status(slot, fault))
        }
    }
}

/// Carries the lines of all windows on one thread, and tells how the run ends.
pub(crate) fn windows_in_turns<H: Host, G: Gate>(
    alloc: Global,
    running: Running,
    host: &mut H,
    gate: &G,
    width: u32,
    picks: &List<u32>,
) -> Status
    requires wide { 0 < width }
    requires can { CanCarry H.tells running.started (H.world host.old) }
    ensures ends { GoesToItsEnd H.tells (turns_manner width picks.now) running (H.faults host.old) (H.world host.old)
        result (H.faults host.new) (H.world host.new) }
    ensures ready { StaysReady (H.is_ready host.old) (H.is_ready host.new) }
{
    let mut running = running;
    loop {
        match window_in_turns(alloc, running, host, gate, width, picks) {
            Ok(further) => running = further,
            Err(status) => return status,
        }
    }
}

/// Carries the lines of all windows by so many workers, and tells how the run ends.
pub(crate) fn windows_by_workers<R: Threads + Wait + Sync, H: Host, G: Gate + Sync>(
    rt: &R,
    alloc: Global,
    running: Running,
    host: &mut H,
    gate: &G,
    workers: u32,
) -> Status
    requires few { workers ≤ 16 }
    requires can { CanCarry H.tells running.started (H.world host.old) }
    ensures ends { GoesToItsEnd H.tells workers_manner running (H.faults host.old) (H.world host.old)
        result (H.faults host.new) (H.world host.new) }
    ensures ready { StaysReady (H.is_ready host.old) (H.is_ready host.new) }
{
    let mut running = running;
    loop {
        match window_by_workers(rt, alloc, running, host, gate, workers) {
            Ok(further) => running = further,
            Err(status) => return status,
        }
    }
}
