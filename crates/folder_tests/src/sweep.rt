// A run of writes and syncs in which each call fails once.
ghost use Rattle.std.specs.Prelude.{◌≤◌};
ghost use Rattle.host_trait.specs.Files.{HasSlot};

use crate::steps::{GRAIN, MANAGER};
use host_files::FolderHost;
use host_trait::{Channel, FileId, Host};
use std::alloc::{AllocError, Global};
use system_machine::{Fault, Machine, OnMachine};

// What one run found wrong.
#[derive(Clone, Copy)]
struct Wrong {
    failed: u64,
    answers: u64,
    bytes: u64,
}

// A file of the run: what was written to it last, and whether that and the sync behind it succeeded.
#[derive(Clone, Copy)]
struct Told {
    file: FileId,
    text: &'static [u8],
    is_written: bool,
    is_synced: bool,
}

fn are_apart(found: &[u8], wanted: &[u8]) -> bool {
    found != wanted
}

// 1 for a call that failed.
fn one_failed(is_ok: bool) -> u64
    ensures { result ≤ 1 }
{
    if is_ok { 0 } else { 1 }
}

// One round of a file: it is written, read and synced. An answer is wrong where it isn't true of the machine, and where it isn't
// counted as a fault just when it fails.
fn ask(
    host: &mut FolderHost<OnMachine<'_>>,
    machine: &Machine,
    file: FileId,
    text: &'static [u8],
    wrong: &mut Wrong,
) -> Result<Told, AllocError>
    requires { HasSlot file }
{
    host.ready(file)?;
    let before = host.fault_count(Channel::File(file));
    let is_written = host.write_at(file, 0, text).is_ok();
    let stands = machine.bytes(file)?;
    let mut into = [0; 4];
    let is_read = host.read_at(file, 0, &mut into).is_ok();
    let is_synced = host.sync(file).is_ok();
    let is_untrue = is_written && are_apart(&stands, text);
    let is_misread = is_written && is_read && are_apart(&into, text);
    let failed = one_failed(is_written) + one_failed(is_read) + one_failed(is_synced);
    let faults = host.fault_count(Channel::File(file));
    if is_untrue || is_misread || faults != before.wrapping_add(failed) {
        wrong.answers = wrong.answers.saturating_add(1);
    }
    wrong.failed = wrong.failed.saturating_add(failed);
    Ok(Told {
        file,
        text,
        is_written,
        is_synced,
    })
}

// What a crash leaves of a file that was written and synced is its text.
fn look(machine: &Machine, told: &Told, wrong: &mut Wrong) -> Result<(), AllocError> {
    let left = machine.bytes(told.file)?;
    if told.is_written && told.is_synced && are_apart(&left, told.text) {
        wrong.bytes = wrong.bytes.saturating_add(1);
    }
    Ok(())
}

// The rounds of one run by this host, and a crash behind them. It answers how many calls were made.
fn run_rounds(
    host: &mut FolderHost<OnMachine<'_>>,
    machine: &Machine,
    wrong: &mut Wrong,
) -> Result<u64, AllocError> {
    ask(host, machine, MANAGER, b"abcd", wrong)?;
    ask(host, machine, GRAIN, b"abcd", wrong)?;
    let manager = ask(host, machine, MANAGER, b"efgh", wrong)?;
    let grain = ask(host, machine, GRAIN, b"efgh", wrong)?;
    let made = machine.calls();
    machine.crash()?;
    look(machine, &manager, wrong)?;
    look(machine, &grain, wrong)?;
    Ok(made)
}

// One run, whose nth call fails, and a crash behind it. It answers whether so many calls were made.
fn run(
    alloc: Global,
    machine: &Machine,
    nth: u64,
    fault: Fault,
    wrong: &mut Wrong,
) -> Result<bool, AllocError> {
    machine.restart(3);
    machine.lay(MANAGER, b"xx", false)?;
    machine.fail(nth, fault);
    let mut host = FolderHost::new(alloc, OnMachine(machine), "f")?;
    let made = run_rounds(&mut host, machine, wrong);
    drop(host);
    Ok(nth <= made?)
}

/// Writes how many runs there were, one for each call that could fail, and how much was wrong.
pub fn add_sweep(
    alloc: Global,
    machine: &Machine,
    fault: Fault,
    out: &mut String,
) -> Result<(), AllocError> {
    let mut wrong = Wrong {
        failed: 0,
        answers: 0,
        bytes: 0,
    };
    let mut runs: u64 = 0;
    for nth in 1..1_000 {
        if !run(alloc, machine, nth, fault, &mut wrong)? {
            break;
        }
        runs = nth;
    }
    let _ = machine.taken();
    let Wrong {
        failed,
        answers,
        bytes,
    } = wrong;
    write!(out, "{runs} runs, {failed} failed calls of the host, ")?;
    write!(out, "{answers} wrong answers, {bytes} times other bytes")
}
