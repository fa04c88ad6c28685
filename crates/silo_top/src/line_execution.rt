ghost use Rattle.std.specs.Prelude.{◌≤◌, ◌<◌, ℕ};
ghost use Rattle.history_core.specs.Cores.{run_of};
ghost use Rattle.script_tree.specs.Programs.{program_tree};
ghost use Rattle.silo_top.specs.CallAnswers.{turns_manner, workers_manner};
ghost use Rattle.silo_top.specs.LineExecution.{CarriedLines};
ghost use Rattle.run_books.specs.Stages.{side_of, stage_of, IsSafe, StaysSafe};

use base_types::List;
use history_core::Core;
use host_trait::Host;
use interleaver::{RunFault, run_turns};
use run_lines::Lines;
use script_check::Checked;
use settle_loop::{Gate, Settler};
use silo_workers::run_with_workers;
use std::alloc::Global;
use std::sync::Wait;
use std::thread::Threads;

/// Carries all lines on the calling thread, so many in flight and by these picks, and hands the core back where all is carried and
/// written. `used` tells how many picks calls before used, and goes on by those of this call where it hands the core back.
pub(crate) fn carry_in_turns<H: Host, G: Gate, L: Lines + Copy>(
    alloc: Global,
    checked: &Checked,
    core: Core,
    settler: &mut Settler,
    lines: L,
    host: &mut H,
    gate: &G,
    width: u32,
    picks: &List<u32>,
    used: &mut usize,
) -> Result<Core, RunFault>
    requires above { 0 < (run_of core).base }
    requires safe { IsSafe H.tells settler.old.writer (H.world host.old) }
    ensures carried { CarriedLines H.tells (turns_manner width picks.now) (program_tree checked.now) (L.lines lines) used.old used.new
        (stage_of H.world H.faults (run_of core) settler.old host.old) (side_of H.world H.faults settler.new host.new) result }
    ensures safe { StaysSafe H.tells H.is_ready H.world settler.new.writer host.old host.new }
{
    let mut core = core;
    let mut lines = lines;
    match run_turns(
        alloc, checked, &mut core, settler, &mut lines, host, gate, width, picks, used,
    ) {
        Ok(()) => Ok(core),
        Err(fault) => {
            drop(core);
            Err(fault)
        }
    }
}

/// Carries all lines by so many workers, each a thread, and hands the core back where all is carried and written.
pub(crate) fn carry_by_workers<
    R: Threads + Wait + Sync,
    H: Host,
    G: Gate + Sync,
    L: Lines + Copy + Sync,
>(
    rt: &R,
    alloc: Global,
    checked: &Checked,
    core: Core,
    settler: &mut Settler,
    lines: L,
    host: &mut H,
    gate: &G,
    workers: u32,
) -> Result<Core, RunFault>
    requires few { workers ≤ 16 }
    requires above { 0 < (run_of core).base }
    requires safe { IsSafe H.tells settler.old.writer (H.world host.old) }
    ensures carried { (used : ℕ) → CarriedLines H.tells workers_manner (program_tree checked.now) (L.lines lines) used used
        (stage_of H.world H.faults (run_of core) settler.old host.old) (side_of H.world H.faults settler.new host.new) result }
    ensures safe { StaysSafe H.tells H.is_ready H.world settler.new.writer host.old host.new }
{
    let (back, ended) = run_with_workers(
        rt,
        alloc,
        checked,
        core,
        settler,
        &lines,
        host,
        gate,
        workers as usize,
    );
    match ended {
        Err(fault) => {
            drop(back);
            return Err(fault);
        }
        Ok(()) => {}
    }
    match back {
        Some(core) => Ok(core),
        None => unreachable!(),
    }
}
