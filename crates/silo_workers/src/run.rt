ghost use Rattle.std.specs.Prelude.{◌≡◌, ◌≤◌, [], None, Err, true, false, IfOk, IfSome, ◌<◌};
ghost use Rattle.core_model.specs.LegalRuns.{ends};
ghost use Rattle.history_core.specs.Cores.{run_of};
ghost use Rattle.batch_disk.specs.Writers.{IsInBounds};
ghost use Rattle.script_tree.specs.Programs.{program_tree};
ghost use Rattle.run_books.specs.RecordFrame.{TurnsBeside};
ghost use Rattle.run_books.specs.Records.{RecordGoesOn};
ghost use Rattle.interleaver.specs.Turns.{TurnsCarry, WhereTurnsBegin};
ghost use Rattle.run_books.specs.declared.faults.RunFault.TheVariants.{Memory};
ghost use Rattle.silo_workers.specs.declared.work.WorkEnd.TheVariants.{Idle};
ghost use Rattle.run_books.specs.Stages.{stage_of, IsSafe, StaysSafe};

use crate::crowd::{Gathered, gather};
use crate::run_end::end_run;
use crate::team::Team;
use crate::work::WorkEnd;
use base_types::{Ends, List, Places};
use core_model::{CoreAnswer, CoreQuestion};
use history_core::Core;
use host_trait::Host;
use interleaver::run_turns;
use program_file::accept;
use run_books::RunFault;
use run_lines::Lines;
use script_check::Checked;
use settle_loop::{Gate, Settler};
use std::alloc::{AllocError, Global};
use std::marker::PhantomData;
use std::sync::Wait;
use std::thread::Threads;
use turn_cell::{TurnCell, TurnObject};
use worker_signals::Signals;

/// How many lines a core has taken so far.
fn lines_so_far(core: &Core) -> Result<u64, AllocError>
    ensures { IfOk result (λ lines. lines ≡ (ends (run_of core.now)).units.lines) }
{
    match core.ask(&CoreQuestion::NextLine)? {
        CoreAnswer::NextLine(next) => Ok(next - 1),
        _ => unreachable!(),
    }
}

/// Whether no thread was started, and nothing was put.
fn has_none(gathered: &Gathered) -> bool
    ensures { result ≡ true → (gathered.now.started ≡ false) × (gathered.now.end ≡ Idle) }
{
    match gathered.end {
        WorkEnd::Idle => !gathered.started,
        WorkEnd::Through => false,
        WorkEnd::Lacking => false,
    }
}

/// A settler that stands in for another one: it knows a program without types, and no place.
fn blank_settler(alloc: Global) -> Result<Settler, AllocError>
    ensures { IfOk result (λ made. IsInBounds made.writer) }
{
    let Ok(program) = accept(alloc, &[]) else {
        return Err(AllocError);
    };
    let mut programs = List::new(alloc);
    programs.push(program)?;
    Settler::new(
        alloc,
        0,
        0,
        Ends::new(alloc),
        true,
        Places::new(alloc),
        programs,
        0,
    )
}

/// Carries the lines in turns, one at a time.
fn carry_in_turns<H: Host, G: Gate, L: Lines + Copy>(
    alloc: Global,
    checked: &Checked,
    core: &mut Core,
    settler: &mut Settler,
    lines: &L,
    host: &mut H,
    gate: &G,
) -> Result<(), RunFault>
    requires above { 0 < (run_of core.old).base }
    requires safe { IsSafe H.tells settler.old.writer (H.world host.old) }
    ensures carries { TurnsCarry H.tells (program_tree checked.now) (L.lines lines.now) 1 [] 0
        (stage_of H.world H.faults (run_of core.old) settler.old host.old)
        (stage_of H.world H.faults (run_of core.new) settler.new host.new) result }
    ensures safe { StaysSafe H.tells H.is_ready H.world settler.new.writer host.old host.new }
{
    let mut lines = *lines;
    let mut used = 0;
    run_turns(
        alloc,
        checked,
        core,
        settler,
        &mut lines,
        host,
        gate,
        1,
        &List::new(alloc),
        &mut used,
    )
}

/// Carries all lines by so many worker threads, 16 at most, each of which begins the next line that is left, carries its units,
/// and looks again while it must wait; the calling thread settles what they do, and what is left once they have ended. Where no
/// thread can be started, the calling thread carries the lines in turns, one at a time.
///
/// It answers `Ok` where each line has its entry, all is written and nobody can move. The core comes back, unless there is no
/// memory to share it: then no event was put, and the host is as before.
///
/// That it returns isn't proved: it waits for turns, and for the ends of the units that a unit waits for. It has no deadlock: where
/// nobody can move, all is settled, which is a law of every legal run, whoever put its events (`without_a_mover_all_is_settled` of
/// `turn_rules`). What isn't proved is that a thread that waits looks again, and that one of those who can move wins the turn.
///
/// # Errors
///
/// - `InDoubt`: a batch was left in doubt, and all that is settled is written.
/// - `WriteFault`: the output failed.
/// - `LoadFault`, `LoadDamaged`: a version that a unit wants couldn't be read; the others have ended by a stop.
/// - `Memory`: memory ran out, here or at a worker. What was put into the core and done to the host by then stands.
pub fn run_with_workers<R: Threads + Wait + Sync, H: Host, G: Gate + Sync, L: Lines + Copy + Sync>(
    rt: &R,
    alloc: Global,
    checked: &Checked,
    core: Core,
    settler: &mut Settler,
    lines: &L,
    host: &mut H,
    gate: &G,
    workers: usize,
) -> (Option<Core>, Result<(), RunFault>)
    requires few { workers ≤ 16 }
    requires above { 0 < (run_of core).base }
    requires safe { IsSafe H.tells settler.old.writer (H.world host.old) }

    // The run's record, however it ends.
    ensures record_kept { WhereTurnsBegin H.tells (program_tree checked.now) (L.lines lines.now) 1 [] 0
        (stage_of H.world H.faults (run_of core) settler.old host.old)
        (λ o b. IfSome result.0 (λ c. RecordGoesOn H.tells o b (stage_of H.world H.faults (run_of core) settler.old host.old)
        (stage_of H.world H.faults (run_of c) settler.new host.new) result.1)) }

    // And what it leaves beside that.
    ensures beside { IfSome result.0 (λ c. TurnsBeside H.tells
        (stage_of H.world H.faults (run_of core) settler.old host.old)
        (stage_of H.world H.faults (run_of c) settler.new host.new) result.1) }
    ensures lost { result.0 ≡ None → (result.1 ≡ Err Memory) × (settler.new ≡ settler.old) × (host.new ≡ host.old) }

    ensures safe { StaysSafe H.tells H.is_ready H.world settler.new.writer host.old host.new }
{
    let _named: PhantomData<(CoreQuestion, CoreAnswer)> = PhantomData;
    let _program = checked.program();
    let before = match lines_so_far(&core) {
        Ok(before) => before,
        Err(AllocError) => return (Some(core), Err(RunFault::Memory)),
    };
    let shape = match checked.shape() {
        Ok(shape) => shape,
        Err(AllocError) => return (Some(core), Err(RunFault::Memory)),
    };
    let blank = match blank_settler(alloc) {
        Ok(blank) => blank,
        Err(AllocError) => {
            drop(shape);
            return (Some(core), Err(RunFault::Memory));
        }
    };
    let (cell, pass) = match TurnCell::new(alloc, core) {
        Ok(made) => made,
        Err(AllocError) => {
            drop(blank);
            drop(shape);
            return (None, Err(RunFault::Memory));
        }
    };
    let team = Team {
        rt,
        alloc,
        checked,
        lines,
        before,
        cell,
        gate,
        signals: Signals::new(),
    };
    let (mut core, gathered) = gather(team, workers, pass, &shape, settler, blank, host);
    if has_none(&gathered) {
        drop(gathered);
        drop(shape);
        let ended = carry_in_turns(alloc, checked, &mut core, settler, lines, host, gate);
        return (Some(core), ended);
    }
    core.show_few();
    let ended = end_run(&shape, &mut core, settler, host, gate, gathered);
    drop(shape);
    (Some(core), ended)
}
