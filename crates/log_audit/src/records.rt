ghost use Rattle.std.specs.Prelude.{◌≡◌, ◌+◌, ◌^◌, ◌<◌, ◌≤◌, ℕ, List, IsTrue, Ok, IfOk, IfErr, IfSome, OnOk, is_ok, length, zip};
ghost use Rattle.host_trait.specs.Runs.{OnlyAsked};
ghost use Rattle.host_trait.specs.declared.channels.FileId.TheVariants.{Manager};
ghost use Rattle.field_codec.specs.declared.formats.Format.TheVariants.{Two};
ghost use Rattle.log_reading.specs.Blocks.{LogRead as ALog, entries_said, log_in_file};
ghost use Rattle.log_reading.specs.Entries.{entry_said};
ghost use Rattle.log_reading.specs.Sessions.{sessions_read};
ghost use Rattle.log_reading.specs.Steps.{next_in, found_as, seen_in};
ghost use Rattle.script_tree.specs.Programs.{program_tree};
ghost use Rattle.program_file.specs.Succession.{ArePrograms};
ghost use Rattle.silo_opening.specs.OpenedSilo.{IsOpenedFrom, programs_of};
ghost use Rattle.silo_opening.specs.CommandCalls.{HasCalledAs};
ghost use Rattle.promise_spec.specs.Programs.{Program};
ghost use Rattle.promise_spec.specs.Words.{Manner};
ghost use Rattle.promise_spec.specs.Reports.{line_of, history_text};
ghost use Rattle.promise_spec.specs.Commands.{Reports};
ghost use Rattle.promise_spec.specs.Endings.{BadUse};
ghost use Rattle.log_audit.specs.Lines.{record_lines, upgrade_data, said_lines, entry_lines};
ghost use Rattle.log_audit.specs.InForce.{types_in_force, HasShape, types_said};
ghost use Rattle.log_audit.specs.ReportOutput.{PutsPart};
ghost use Rattle.log_audit.specs.RereadFaults.{IsBlockFault};
ghost use Rattle.log_audit.specs.Endings.{report_ending, reported_as, MayEnd};

use crate::faults::{ReportFault, unopened, unread};
use crate::in_force::InForce;
use crate::line_writer::write_line;
use crate::lines::{record_line, upgrade_line};
use base_types::Shape;
use commit_log::CommitRecord;
use field_codec::Format;
use host_trait::Host;
use log_reading::{Said, next_entry, read_base};
use script_check::Checked;
use silo_opening::{Opened, open_silo};
use std::alloc::Global;

// What the block behind a gate of a slot's manager file says under the program in force, behind its session, and the next gate, none
// where the gate isn't open. No block before it has a greater session than this one.
fn next_said<H: Host>(
    alloc: Global,
    host: &mut H,
    slot: u8,
    now: &InForce,
    session: u64,
    gate_at: u64,
) -> Result<Option<(u64, Said, u64)>, ReportFault>
    requires slot { slot ≤ 1 }
    requires shape { HasShape now.now }
    requires place { gate_at < 2 ^ 63 }
    ensures found { IfOk result (λ found. IsTrue H.tells
        → next_in Two (types_in_force now.now) session gate_at ((H.world host.old).disk (Manager slot)).seen ≡ Ok (found_as found)) }
    ensures further { IfOk result (λ found. IfSome found (λ x. (gate_at + 5 + length (entries_said (entry_said x.1)) ≤ x.2) × (x.2 < 2 ^ 63))) }
    ensures unread { IfErr result (λ e. IsTrue H.tells
        → IsBlockFault (types_in_force now.now) session gate_at ((H.world host.old).disk (Manager slot)).seen e) }
    ensures asked { IsTrue H.tells → OnlyAsked (H.world host.old) (H.world host.new) }
    ensures calls { HasCalledAs (report_ending result) H.is_ready H.faults host.old host.new }
{
    match next_entry(
        alloc,
        host,
        slot,
        &now.checked,
        &now.shape,
        session,
        Format::Two,
        gate_at,
    ) {
        Ok(found) => Ok(found),
        Err(fault) => Err(unread(fault)),
    }
}

// Writes a line for each of these records, in a block of this session.
fn write_records<H: Host>(
    alloc: Global,
    host: &mut H,
    checked: &Checked,
    shape: &Shape,
    session: u64,
    records: &[CommitRecord],
) -> Result<(), ReportFault>
    ensures puts { IsTrue H.tells → PutsPart (record_lines shape.now (program_tree checked.now) session records.now)
        (is_ok result) (H.world host.old) (H.world host.new) }
    ensures ended { MayEnd (report_ending result) }
    ensures calls { HasCalledAs (report_ending result) H.is_ready H.faults host.old host.new }
{
    let types = checked.program().types.as_slice();
    for entry in records {
        let line = record_line(alloc, types, shape, session, entry)?;
        write_line(host, line.as_bytes())?;
    }
    Ok(())
}

// Writes a line for an upgrade, in a block of this session, to a program whose text has this length in bytes.
fn write_upgrade<H: Host>(
    alloc: Global,
    host: &mut H,
    session: u64,
    length: u64,
) -> Result<(), ReportFault>
    ensures puts { IsTrue H.tells → PutsPart (line_of (upgrade_data session length)) (is_ok result) (H.world host.old) (H.world host.new) }
    ensures ended { MayEnd (report_ending result) }
    ensures calls { HasCalledAs (report_ending result) H.is_ready H.faults host.old host.new }
{
    let line = upgrade_line(alloc, session, length)?;
    write_line(host, line.as_bytes())
}

// Writes the lines of what a block of this session says under the program in force, and has the program that is in force behind it.
fn write_said<H: Host>(
    alloc: Global,
    host: &mut H,
    now: &mut InForce,
    session: u64,
    said: Said,
) -> Result<(), ReportFault>
    requires shape { HasShape now.old }
    ensures puts { IsTrue H.tells
        → PutsPart (said_lines (types_in_force now.old) session (entry_said said)) (is_ok result) (H.world host.old) (H.world host.new) }
    ensures behind { OnOk result (types_in_force now.new ≡ types_said now.old said) }
    ensures shaped { OnOk result (HasShape now.new) }
    ensures ended { MayEnd (report_ending result) }
    ensures calls { HasCalledAs (report_ending result) H.is_ready H.faults host.old host.new }
{
    match said {
        Said::Records(records) => {
            write_records(
                alloc,
                host,
                &now.checked,
                &now.shape,
                session,
                records.as_slice(),
            )?;
            Ok(())
        }
        Said::Upgrade { text, checked } => {
            now.change_to(checked)?;
            write_upgrade(alloc, host, session, text.len() as u64)?;
            Ok(())
        }
    }
}

// Writes a line for each entry of a slot's log, behind the checkpoint where it begins with one; `now` is the log's first program, and then
// each that comes into force. It reads the log block by block, and keeps one block and one program at a time.
fn write_log<H: Host>(
    alloc: Global,
    host: &mut H,
    slot: u8,
    now: &mut InForce,
) -> Result<(), ReportFault>
    requires slot { slot ≤ 1 }
    requires shape { HasShape now.old }
    ensures puts { IsTrue H.tells → (p : Program) → p.types ≡ types_in_force now.old
        → (log : ALog) → log_in_file Two p ((H.world host.old).disk (Manager slot)).seen ≡ Ok log
        → PutsPart (entry_lines p (zip (sessions_read Two p ((H.world host.old).disk (Manager slot)).seen) log.entries)) (is_ok result)
        (H.world host.old) (H.world host.new) }
    ensures ended { IsTrue H.tells → (p : Program) → p.types ≡ types_in_force now.old
        → (log : ALog) → log_in_file Two p ((H.world host.old).disk (Manager slot)).seen ≡ Ok log
        → MayEnd (report_ending result) }
    ensures calls { HasCalledAs (report_ending result) H.is_ready H.faults host.old host.new }
{
    let base = match read_base(alloc, host, slot, &now.shape, Format::Two) {
        Ok(base) => base,
        Err(fault) => return Err(unread(fault)),
    };
    let mut last = base.session;
    let mut gate_at = base.gate_at;
    drop(base);
    while let Some((session, said, behind)) = next_said(alloc, host, slot, now, last, gate_at)? {
        write_said(alloc, host, now, session, said)?;
        last = session;
        gate_at = behind;
    }
    Ok(())
}

// Writes the report of an opened silo.
fn write_history<H: Host>(alloc: Global, host: &mut H, opened: Opened) -> Result<(), ReportFault>
    requires slot { opened.slot ≤ 1 }
    requires programs { ArePrograms (programs_of opened) }
    ensures puts { IsTrue H.tells → (o : IsOpenedFrom (seen_in (H.world host.old).disk) opened)
        → PutsPart (history_text (sessions_read Two o.first ((H.world host.old).disk (Manager opened.slot)).seen) o.log) (is_ok result)
        (H.world host.old) (H.world host.new) }
    ensures ended { IsTrue H.tells → IsOpenedFrom (seen_in (H.world host.old).disk) opened → MayEnd (report_ending result) }
    ensures calls { HasCalledAs (report_ending result) H.is_ready H.faults host.old host.new }
{
    let slot = opened.slot;
    let mut first = InForce::first_of(opened)?;
    write_log(alloc, host, slot, &mut first)
}

/// Writes a line for each entry of the log, in its order, with the session of its block: of a record the call, its origin, and how it
/// ended, by the program of its time; of an upgrade its text's length in bytes.
///
/// It opens the folder and reads the log again, and writes each line as it is read. Nothing of the folder changes.
///
/// # Errors
///
/// `NotASilo`, `OldFormat` and `Damaged` as the folder reads; then nothing is written. `DiskFault`, `WriteFault` and `Memory` at any place.
pub fn history<H: Host>(alloc: Global, host: &mut H) -> Result<(), ReportFault>
    // What the command promises of any folder.
    ensures reports { IsTrue H.tells → (manner : Manner) (asked : List (List ℕ)) → Reports
        (reported_as manner asked (H.world host.old) (H.world host.new) (H.faults host.old) (H.faults host.new) result) }
    // Exactly the call that the answer names has failed, and each file that was ready is, over any host.
    ensures calls { HasCalledAs (report_ending result) H.is_ready H.faults host.old host.new }
    ensures good { report_ending result ≡ BadUse → ⊥ }
{
    match open_silo(alloc, host) {
        Ok(opened) => write_history(alloc, host, opened),
        Err(fault) => Err(unopened(fault)),
    }
}
