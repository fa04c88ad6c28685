ghost use Rattle.std.specs.Prelude.{◌≡◌, ℕ, List, IsTrue, OnOk, IfOk, IfErr, IsErrOf, is_ok};
ghost use Rattle.host_trait.specs.Disk.{settled};
ghost use Rattle.host_trait.specs.Faults.{HasCalled};
ghost use Rattle.host_trait.specs.declared.channels.FileId.TheVariants.{Manager};
ghost use Rattle.field_codec.specs.declared.formats.Format.TheVariants.{Two};
ghost use Rattle.log_reading.specs.Steps.{seen_in};
ghost use Rattle.silo_spec.specs.Slots.{IsLive};
ghost use Rattle.silo_spec.specs.OpenedDisks.{OnlyOpens};
ghost use Rattle.silo_opening.specs.declared.faults.OpenFault.{OpenFault};
ghost use Rattle.silo_opening.specs.Counts.{OpenFaulted};
ghost use Rattle.silo_opening.specs.OpenedSilo.{ending_of, in_folder};
ghost use Rattle.silo_opening.specs.CommandCalls.{HasCalledAs};
ghost use Rattle.promise_spec.specs.Logs.{IsMagic};
ghost use Rattle.promise_spec.specs.Openings.{opened_as};
ghost use Rattle.promise_spec.specs.Refusals.{IsRefusedBy};
ghost use Rattle.promise_spec.specs.Words.{Manner};
ghost use Rattle.promise_spec.specs.Reports.{line_of};
ghost use Rattle.promise_spec.specs.Commands.{Audits};
ghost use Rattle.promise_spec.specs.Endings.{BadUse};
ghost use Rattle.log_audit.specs.Lines.{audit_data};
ghost use Rattle.log_audit.specs.ReportOutput.{PutsPart};
ghost use Rattle.log_audit.specs.Endings.{report_ending, reported_as, MayEnd};
ghost use Rattle.log_audit.specs.AuditAnswers.{IsAuditOf, bad_unit};

use crate::faults::{ReportFault, unopened};
use crate::in_force::InForce;
use crate::line_writer::write_line;
use crate::lines::audit_line;
use crate::replay::{Bad, replay_log};
use host_trait::Host;
use log_reading::FolderFault;
use silo_opening::{OpenFault, open_silo};
use std::alloc::{AllocError, Global};

/// What an audit found: the number of entries, and the first record that doesn't replay.
#[derive(Drop)]
pub struct AuditReport {
    pub count: u64,
    pub first_bad: Option<Bad>,
}

// The fault of a log, or of a version that it names, which couldn't be read again.
fn not_read(fault: FolderFault) -> OpenFault
    ensures { result ≡ in_folder fault }
{
    match fault {
        FolderFault::Damaged { file, place } => OpenFault::Damaged { file, place },
        FolderFault::Failed { file } => OpenFault::DiskFault { file },
        FolderFault::Memory => OpenFault::Memory,
    }
}

/// Plays each record of the log, under the program of its time, over the store that the entries before it left, and tells the first that
/// doesn't give its result, as many answers as were asked for, and its written grains with the states of their versions. There is none
/// exactly where the log is what the one-thread store gives.
///
/// It opens the folder, sound or not, reads the log again, and keeps a store of what was written. Nothing of the folder changes.
///
/// # Errors
///
/// Those of `open_silo`, and `DiskFault` and `Memory` at any place after it.
pub fn audit<H: Host>(alloc: Global, host: &mut H) -> Result<AuditReport, OpenFault>
    // The folder reads as a silo with a program and a log, and this is what they give.
    ensures audited { IfOk result (λ report. IsTrue H.tells → IsAuditOf (seen_in (H.world host.old).disk) report) }
    ensures settled { OnOk result (IsTrue H.tells → (live : ℕ) → IsLive IsMagic live (seen_in (H.world host.old).disk)
        → (H.world host.new).disk (Manager live) ≡ settled ((H.world host.old).disk (Manager live)).seen) }

    // A refusal is what the folder reads as, a fault of a file that has to be read, or want of memory.
    ensures refused { IfErr result (λ e. IsTrue H.tells
        → IsRefusedBy Two (seen_in (H.world host.old).disk) (opened_as (seen_in (H.world host.old).disk)) (ending_of e)) }

    // The counts of faults, over any host.
    ensures calls { HasCalled OpenFaulted result H.is_ready H.faults host.old host.new }
    ensures not_last { IsErrOf result OpenFault.LastGeneration → ⊥ }

    // Nothing was written or emitted, and no input was taken: the folder was opened, and beside that there was nothing but asking.
    ensures only { IsTrue H.tells → OnlyOpens (H.world host.old) (H.world host.new) }
{
    let opened = match open_silo(alloc, host) {
        Ok(opened) => opened,
        Err(fault) => return Err(fault),
    };
    let slot = opened.slot;
    let count = opened.count;
    let mut first = match InForce::first_of(opened) {
        Ok(first) => first,
        Err(AllocError) => return Err(OpenFault::Memory),
    };
    match replay_log(alloc, host, slot, &mut first) {
        Ok(first_bad) => Ok(AuditReport { count, first_bad }),
        Err(fault) => Err(not_read(fault)),
    }
}

// The unit of the first record that doesn't replay.
fn bad_unit(report: &AuditReport) -> Option<u64>
    ensures { result ≡ bad_unit report.now.first_bad }
{
    match &report.first_bad {
        Some(bad) => Some(bad.unit.0),
        None => None,
    }
}

// Writes what an audit found.
fn write_audit<H: Host>(
    alloc: Global,
    host: &mut H,
    report: &AuditReport,
) -> Result<(), ReportFault>
    ensures puts { IsTrue H.tells → PutsPart (line_of (audit_data report.now.count (bad_unit report.now.first_bad))) (is_ok result) (H.world host.old)
        (H.world host.new) }
    ensures ended { MayEnd (report_ending result) }
    ensures calls { HasCalledAs (report_ending result) H.is_ready H.faults host.old host.new }
{
    let line = audit_line(alloc, report.count, bad_unit(report))?;
    write_line(host, line.as_bytes())
}

/// Audits the log, and writes a line: the number of entries, and the unit of the first record that doesn't replay, or null.
///
/// # Errors
///
/// Those of [`audit`]; then nothing is written. `WriteFault` where the output failed.
pub fn print_audit<H: Host>(alloc: Global, host: &mut H) -> Result<(), ReportFault>
    // What the command promises of any folder.
    ensures audits { IsTrue H.tells → (manner : Manner) (asked : List (List ℕ)) → Audits
        (reported_as manner asked (H.world host.old) (H.world host.new) (H.faults host.old) (H.faults host.new) result) }
    // Exactly the call that the answer names has failed, and each file that was ready is, over any host.
    ensures calls { HasCalledAs (report_ending result) H.is_ready H.faults host.old host.new }
    ensures good { report_ending result ≡ BadUse → ⊥ }
{
    match audit(alloc, host) {
        Ok(report) => write_audit(alloc, host, &report),
        Err(fault) => Err(unopened(fault)),
    }
}
