ghost use Rattle.std.specs.Prelude.{◌≡◌, ◌+◌, ◌^◌, ◌<◌, ◌≤◌, max, ℕ, List, [], ◌++◌, map, IsTrue, length, Some, None, OnOk, IfOk, IfSome, IsErrOf, Ok, Err};
ghost use Rattle.std.specs.List.{flat_map, AllByRecursion};
ghost use Rattle.host_trait.specs.Faults.{HasCalled};
ghost use Rattle.host_trait.specs.Runs.{OnlyAsked};
ghost use Rattle.host_trait.specs.declared.channels.FileId.{FileId};
ghost use Rattle.host_trait.specs.declared.channels.FileId.TheVariants.{Manager};
ghost use Rattle.script_tree.specs.Programs.{program_tree};
ghost use Rattle.script_check.specs.Comparison.{last_program};
ghost use Rattle.log_reading.specs.Entries.{Recorded, Upgraded, entry_said};
ghost use Rattle.log_reading.specs.declared.faults.FolderFault.{FolderFault as Fault};
ghost use Rattle.log_reading.specs.Blocks.{entries_said};
ghost use Rattle.log_reading.specs.Counts.{ReadFaulted};
ghost use Rattle.log_reading.specs.Versions.{named_of_base};
ghost use Rattle.log_reading.specs.Steps.{log_base_of, next_at, found_as, IsShapeOf, IsFoundIn, IsSaidBehind};
ghost use Rattle.log_reading.specs.Sums.{named_of_records, next_after, types_now, AreUnitsLow, AddsEntry};

use crate::bases::Base;
use crate::blocks::next_entry;
use crate::bodies::Said;
use crate::faults::FolderFault;
use base_types::{List, Shape, UnitNo};
use commit_log::{CommitRecord, Named, Written};
use field_codec::Format;
use host_trait::Host;
use script_check::Checked;
use std::alloc::{AllocError, Global};

/// What is known of a log up to a gate: how many entries it has, those before its beginning too, the number of the next unit, each version
/// that it names, the programs that came into force, the shape of the one in force, and its text, where it isn't that of the program file.
#[derive(Drop)]
pub(crate) struct LogSoFar {
    pub(crate) count: u64,
    pub(crate) next: u64,
    pub(crate) named: List<Named>,
    pub(crate) later: List<Checked>,
    pub(crate) shape: Shape,
    pub(crate) text: Option<List<u8>>,
}

// A version that a unit's record names, or a checkpoint, which names no unit, under the program of a number.
fn named_of(unit: Option<UnitNo>, program: u32, written: &Written) -> Named
    ensures { result ≡ record { unit = unit; program = program; written = written.now } }
{
    Named {
        unit,
        program,
        written: *written,
    }
}

// Appends the versions that a unit's record names, or a checkpoint, which names no unit.
fn add_named(
    named: &mut List<Named>,
    unit: Option<UnitNo>,
    program: u32,
    writes: &[Written],
) -> Result<(), AllocError>
    ensures { OnOk result (named.new ≡ named.old ++ map (λ w. record { unit = unit; program = program; written = w }) writes.now) }
{
    for written in writes {
        named.push(named_of(unit, program, written))?;
    }
    Ok(())
}

// The greater of the next unit's number and that behind a unit.
fn next_behind(next: u64, unit: u64) -> u64
    requires { unit < 2 ^ 63 }
    ensures { result ≡ max next (unit + 1) }
{
    if next < unit + 1 { unit + 1 } else { next }
}

// Appends the versions that records name, and answers the number of the unit after them.
fn add_records(
    named: &mut List<Named>,
    program: u32,
    next: u64,
    records: &[CommitRecord],
) -> Result<u64, AllocError>
    requires { AllByRecursion (λ r. r.unit.0 < 2 ^ 63) records.now }
    ensures named { OnOk result (named.new ≡ named.old ++ named_of_records program records.now) }
    ensures next { IfOk result (λ after. after ≡ next_after next records.now) }
{
    let mut after = next;
    for entry in records {
        add_named(named, Some(entry.unit), program, entry.writes.as_slice())?;
        after = next_behind(after, entry.unit.0);
    }
    Ok(after)
}

// Adds records, under the program in force.
fn add_batch(so_far: &mut LogSoFar, records: &[CommitRecord]) -> Result<(), AllocError>
    requires few { so_far.old.count + length records.now < 2 ^ 64 }
    requires low { AllByRecursion (λ r. r.unit.0 < 2 ^ 63) records.now }
    requires numbers { length so_far.old.later < 2 ^ 32 }
    ensures added { OnOk result (AddsEntry so_far.old so_far.new (Recorded records.now)) }
    ensures numbers { OnOk result (length so_far.new.later < 2 ^ 32) }
{
    let program = so_far.later.len() as u32;
    let next = add_records(&mut so_far.named, program, so_far.next, records)?;
    so_far.next = next;
    so_far.count += records.len() as u64;
    Ok(())
}

// Adds an upgrade to a program. There is no memory for more than 2^32 programs.
fn add_upgrade(so_far: &mut LogSoFar, text: List<u8>, checked: Checked) -> Result<(), AllocError>
    requires few { so_far.old.count + 1 < 2 ^ 64 }
    ensures added { OnOk result (AddsEntry so_far.old so_far.new (Upgraded (record { text = text; types = program_tree checked }))) }
    ensures numbers { OnOk result (length so_far.new.later < 2 ^ 32) }
{
    if so_far.later.len() >= 4294967295 {
        return Err(AllocError);
    }
    so_far.shape = checked.shape()?;
    so_far.later.push(checked)?;
    so_far.text = Some(text);
    so_far.count += 1;
    Ok(())
}

/// Adds what a block says.
pub(crate) fn add_said(so_far: &mut LogSoFar, said: Said) -> Result<(), AllocError>
    requires few { so_far.old.count + length (entries_said (entry_said said)) < 2 ^ 64 }
    requires low { AreUnitsLow (entry_said said) }
    requires numbers { length so_far.old.later < 2 ^ 32 }
    ensures added { OnOk result (AddsEntry so_far.old so_far.new (entry_said said)) }
    ensures numbers { OnOk result (length so_far.new.later < 2 ^ 32) }
{
    match said {
        Said::Records(records) => add_batch(so_far, records.as_slice()),
        Said::Upgrade { text, checked } => add_upgrade(so_far, text, checked),
    }
}

/// What is known of a log at its first gate, under a program of this shape.
pub(crate) fn begin(alloc: Global, base: Base, shape: Shape) -> Result<LogSoFar, AllocError>
    ensures count { IfOk result (λ s. s.count ≡ base.count) }
    ensures next { IfOk result (λ s. s.next ≡ base.next_unit.0) }
    ensures named { IfOk result (λ s. s.named ≡ named_of_base (log_base_of base)) }
    ensures later { IfOk result (λ s. s.later ≡ []) }
    ensures shape { IfOk result (λ s. s.shape ≡ shape) }
    ensures text { IfOk result (λ s. s.text ≡ None) }
{
    let mut named = List::new(alloc);
    add_named(&mut named, None, 0, base.saved.as_slice())?;
    Ok(LogSoFar {
        count: base.count,
        next: base.next_unit.0,
        named,
        later: List::new(alloc),
        shape,
        text: None,
    })
}

// The program in force behind these, which came into force after the first.
fn in_force<'a>(first: &'a Checked, later: &'a [Checked]) -> &'a Checked
    ensures { program_tree result.now ≡ last_program (program_tree first.now) (map program_tree later.now) }
{
    match later.last() {
        Some(last) => last,
        None => first,
    }
}

/// The session of the block behind a gate, what it says under the program in force, and the next gate, as [`next_entry`] answers it.
pub(crate) fn next_said<H: Host>(
    alloc: Global,
    host: &mut H,
    slot: u8,
    first: &Checked,
    log: &LogSoFar,
    session: u64,
    format: Format,
    gate: u64,
) -> Result<Option<(u64, Said, u64)>, FolderFault>
    requires slot { slot ≤ 1 }
    requires shape { IsShapeOf (types_now first.now log.now) log.now.shape }
    requires place { gate < 2 ^ 63 }
    ensures found { IfOk result (λ n. IsTrue H.tells
        → next_at format (types_now first.now log.now) session gate (H.world host.old).disk slot ≡ Ok (found_as n)) }
    ensures fit { IfOk result (λ n. IfSome n (IsFoundIn format (types_now first.now log.now) session)) }
    ensures further { IfOk result (λ n. IfSome n (IsSaidBehind gate)) }
    ensures damaged { (file : FileId) (place : ℕ) → IsErrOf result (Fault.Damaged file place) → IsTrue H.tells
        → next_at format (types_now first.now log.now) session gate (H.world host.old).disk slot ≡ Err place }
    ensures file { (file : FileId) (place : ℕ) → IsErrOf result (Fault.Damaged file place) → file ≡ Manager slot }
    ensures failed { (file : FileId) → IsErrOf result (Fault.Failed file) → file ≡ Manager slot }
    ensures asked { IsTrue H.tells → OnlyAsked (H.world host.old) (H.world host.new) }
    ensures calls { HasCalled ReadFaulted result H.is_ready H.faults host.old host.new }
{
    let program = in_force(first, log.later.as_slice());
    next_entry(
        alloc, host, slot, program, &log.shape, session, format, gate,
    )
}
