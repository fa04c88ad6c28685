ghost use Rattle.std.specs.Prelude.{◌≡◌, ◌<◌, ◌≤◌, IsTrue, IfOk, IfErr};
ghost use Rattle.promise_spec.specs.Words.{Manner};
ghost use Rattle.host_trait.specs.Files.{StaysReady};
ghost use Rattle.core_model.specs.LegalRuns.{ends};
ghost use Rattle.history_core.specs.Cores.{run_of};
ghost use Rattle.promise_spec.specs.Words as command;
ghost use Rattle.promise_spec.specs.Endings.{MayEndLoad};
ghost use Rattle.promise_spec.specs.Loads.{Loads};
ghost use Rattle.bank_load.specs.Summaries.{summary_line, total_kept};
ghost use Rattle.silo_top.specs.CallAnswers.{AnswersRun, shown, turns_manner, workers_manner};
ghost use Rattle.silo_top.specs.Continuation.{CanCarry, LoadCounts, LoadSays, LoadsOn, LoadAnswersOn};
ghost use Rattle.silo_top.specs.LoadSteps.{creation_ending, load_ending, SaysSummary, MaySaySummary};
ghost use Rattle.silo_opening.specs.CommandCalls.{HasCalledAs};
ghost use Rattle.silo_top.specs.Statuses.{status_ending};

use crate::line_execution::{carry_by_workers, carry_in_turns};
use crate::run_command::open_status;
use crate::run_start::{Started, start};
use crate::status::Status;
use bank_load::{bank_text, load_lines, load_summary, total_balance};
use base_types::List;
use history_core::Core;
use host_trait::{Failed, FileId, Host};
use interleaver::RunFault;
use program_file::accept;
use request_wire::Line;
use run_lines::ListLines;
use settle_loop::Gate;
use silo_opening::{CreateFault, Opened, create, open_silo};
use std::alloc::{AllocError, Global};
use std::sync::Wait;
use std::thread::Threads;

/// Prints the summary of a load whose lines are all carried and settled.
fn print_summary<H: Host>(alloc: Global, core: &Core, requests: usize, host: &mut H) -> Status
    ensures says { IsTrue H.tells → SaysSummary
        (summary_line (ends (run_of core.now)).manager.settled requests (total_kept (ends (run_of core.now)) 64))
        (status_ending result) (H.world host.old) (H.world host.new) }
    ensures calls { HasCalledAs (status_ending result) H.is_ready H.faults host.old host.new }
    ensures may { MaySaySummary (status_ending result) }
{
    // The core of a load keeps the last states. One that didn't would have no sum, and ends as where memory is wanting.
    if !core.keeps_last() {
        return Status::Memory;
    }
    let total = total_balance(core);
    let text = match load_summary(alloc, core, requests, total) {
        Ok(text) => text,
        Err(AllocError) => return Status::Memory,
    };
    match host.emit(text.as_slice()) {
        Ok(()) => Status::Done,
        Err(Failed) => Status::WriteFault,
    }
}

/// The status of a load in this slot whose turns ended so. A quiet settler writes nothing, so that its turns don't end by the output.
fn load_status(slot: u8, fault: RunFault) -> Status
    ensures { status_ending result ≡ load_ending slot fault }
{
    match fault {
        RunFault::InDoubt => Status::DiskFault {
            file: FileId::Manager { slot },
        },
        RunFault::WriteFault => Status::Memory,
        RunFault::Memory => Status::Memory,
        RunFault::LoadFault { file } => Status::DiskFault { file },
        RunFault::LoadDamaged { file, place } => Status::Damaged { file, place },
    }
}

/// The status of a load whose silo wasn't made.
fn creation_status(fault: CreateFault) -> Status
    ensures { status_ending result ≡ creation_ending fault }
{
    match fault {
        CreateFault::AlreadyASilo => Status::AlreadyASilo,
        CreateFault::DiskFault { file } => Status::DiskFault { file },
    }
}

/// Prints the summary of a load whose lines are all carried, or names the fault that ended them.
fn end_load<H: Host>(
    alloc: Global,
    slot: u8,
    ended: Result<Core, RunFault>,
    requests: usize,
    host: &mut H,
) -> Status
    ensures counts { LoadCounts slot ended result (H.faults host.old) (H.faults host.new) }
    ensures says { IsTrue H.tells → LoadSays ended requests result (H.world host.old) (H.world host.new) }
    ensures ready { StaysReady (H.is_ready host.old) (H.is_ready host.new) }
{
    match ended {
        Ok(core) => {
            let status = print_summary(alloc, &core, requests, host);
            drop(core);
            status
        }
        Err(fault) => load_status(slot, fault),
    }
}

/// A load that has begun: what carries its lines, and these.
#[derive(Drop)]
pub(crate) struct BegunLoad {
    pub(crate) started: Started,
    pub(crate) lines: List<Line>,
}

/// Makes a silo of the bank program, opens it, and draws the lines of a load. Nothing is made where there is no memory for the program.
fn begin_load<H: Host>(
    alloc: Global,
    host: &mut H,
    transfers: u32,
    seed: u64,
) -> Result<BegunLoad, Status>
    requires many { transfers ≤ 100000 }

    // However its lines are carried from there on, the load keeps its promise.
    ensures keeps { IfOk result (λ begun. IsTrue H.tells → LoadsOn transfers seed H.tells begun.started begun.lines
        (H.faults host.old) (H.world host.old) (H.faults host.new) (H.world host.new)) }
    ensures answers_on { IfOk result (λ begun. LoadAnswersOn H.tells begun.started begun.lines
        (H.faults host.old) (H.faults host.new) (H.world host.new)) }
    ensures can { IfOk result (λ begun. CanCarry H.tells begun.started (H.world host.new)) }

    // Where it didn't begin, it has kept it.
    ensures loads { IfErr result (λ status. IsTrue H.tells → (m : Manner) → Loads transfers seed m
        (shown (H.world host.old) (H.world host.new) (H.faults host.old) (H.faults host.new) status (command.Load transfers seed m))) }
    ensures answers { IfErr result (λ status. AnswersRun MayEndLoad (status_ending status) (H.faults host.old) (H.faults host.new)) }
    ensures ready { StaysReady (H.is_ready host.old) (H.is_ready host.new) }
{
    let Ok(bank) = accept(alloc, bank_text()) else {
        return Err(Status::Memory);
    };
    match create(host, bank_text()) {
        Ok(()) => {}
        Err(fault) => {
            drop(bank);
            return Err(creation_status(fault));
        }
    }
    let opened = match open_silo(alloc, host) {
        Ok(opened) => Opened {
            slot: opened.slot,
            generation: opened.generation,
            text: opened.text,
            checked: bank,
            programs: opened.programs,
            count: opened.count,
            places: opened.places,
            ends: opened.ends,
            next_unit: opened.next_unit,
            session: opened.session,
            gate_at: opened.gate_at,
        },
        Err(fault) => {
            drop(bank);
            return Err(open_status(fault));
        }
    };
    let started = match start(alloc, opened, true) {
        Ok(started) => started,
        Err(AllocError) => return Err(Status::Memory),
    };
    match load_lines(alloc, transfers, seed) {
        Ok(lines) => Ok(BegunLoad { started, lines }),
        Err(AllocError) => {
            drop(started);
            Err(Status::Memory)
        }
    }
}

/// Makes a silo of the bank program, and carries the lines of a load in it on one thread.
pub(crate) fn load_in_turns<H: Host, G: Gate>(
    alloc: Global,
    host: &mut H,
    gate: &G,
    transfers: u32,
    seed: u64,
    width: u32,
    picks: &List<u32>,
) -> Status
    requires wide { 0 < width }
    requires many { transfers ≤ 100000 }
    ensures loads { IsTrue H.tells → Loads transfers seed (turns_manner width picks.now)
        (shown (H.world host.old) (H.world host.new) (H.faults host.old) (H.faults host.new) result
        (command.Load transfers seed (turns_manner width picks.now))) }
    ensures answers { AnswersRun MayEndLoad (status_ending result) (H.faults host.old) (H.faults host.new) }
    ensures ready { StaysReady (H.is_ready host.old) (H.is_ready host.new) }
{
    let BegunLoad { started, lines } = match begin_load(alloc, host, transfers, seed) {
        Ok(begun) => begun,
        Err(status) => return status,
    };
    let requests = lines.len();
    let Started {
        slot,
        checked,
        core,
        mut settler,
    } = started;
    let placed = ListLines::new(&lines);
    let mut used = 0;
    let ended = carry_in_turns(
        alloc,
        &checked,
        core,
        &mut settler,
        placed,
        host,
        gate,
        width,
        picks,
        &mut used,
    );
    drop(settler);
    drop(checked);
    drop(lines);
    end_load(alloc, slot, ended, requests, host)
}

/// Makes a silo of the bank program, and carries the lines of a load in it by so many workers.
pub(crate) fn load_by_workers<R: Threads + Wait + Sync, H: Host, G: Gate + Sync>(
    rt: &R,
    alloc: Global,
    host: &mut H,
    gate: &G,
    transfers: u32,
    seed: u64,
    workers: u32,
) -> Status
    requires few { workers ≤ 16 }
    requires many { transfers ≤ 100000 }
    ensures loads { IsTrue H.tells → Loads transfers seed workers_manner
        (shown (H.world host.old) (H.world host.new) (H.faults host.old) (H.faults host.new) result (command.Load transfers seed workers_manner)) }
    ensures answers { AnswersRun MayEndLoad (status_ending result) (H.faults host.old) (H.faults host.new) }
    ensures ready { StaysReady (H.is_ready host.old) (H.is_ready host.new) }
{
    let BegunLoad { started, lines } = match begin_load(alloc, host, transfers, seed) {
        Ok(begun) => begun,
        Err(status) => return status,
    };
    let requests = lines.len();
    let Started {
        slot,
        checked,
        core,
        mut settler,
    } = started;
    let placed = ListLines::new(&lines);
    let ended = carry_by_workers(
        rt,
        alloc,
        &checked,
        core,
        &mut settler,
        placed,
        host,
        gate,
        workers,
    );
    drop(settler);
    drop(checked);
    drop(lines);
    end_load(alloc, slot, ended, requests, host)
}
