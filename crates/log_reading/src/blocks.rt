ghost use Rattle.std.specs.Prelude.{◌≡◌, ◌+◌, ◌-◌, ◌^◌, ◌<◌, ◌≤◌, ℕ, IsTrue, length, Ok, Err, IfOk, IfSome, IsErrOf};
ghost use Rattle.host_trait.specs.Faults.{HasCalled};
ghost use Rattle.host_trait.specs.Runs.{OnlyAsked};
ghost use Rattle.host_trait.specs.declared.channels.FileId.{FileId};
ghost use Rattle.host_trait.specs.declared.channels.FileId.TheVariants.{Manager};
ghost use Rattle.field_codec.specs.declared.units.Numbers.TheVariants.{Logged};
ghost use Rattle.field_codec.specs.Results.{named_place, place_of};
ghost use Rattle.field_codec.specs.Units.{SessionFits};
ghost use Rattle.field_codec.specs.Fields.{session_of};
ghost use Rattle.script_tree.specs.Programs.{program_tree};
ghost use Rattle.log_reading.specs.Entries.{entry_said, IsNear};
ghost use Rattle.log_reading.specs.declared.faults.FolderFault.{FolderFault as Fault};
ghost use Rattle.log_reading.specs.Blocks.{entries_said};
ghost use Rattle.log_reading.specs.Counts.{ReadFaulted, damage_in, entry_damage};
ghost use Rattle.log_reading.specs.Steps.{entry_under, counted_from, next_at, found_as, IsShapeOf, IsSaidIn, IsFoundIn, IsSaidBehind};

use crate::bodies::{EntryFault, Said, read_entry};
use crate::faults::FolderFault;
use base_types::Shape;
use field_codec::{CodecFault, Format};
use gate_block::{BlockFault, read_block};
use host_trait::{FileId, Host};
use script_check::Checked;
use std::alloc::Global;

/// The fault of reading a text that stands at an offset of a slot's manager file.
pub(crate) fn in_file(slot: u8, start: u64, fault: CodecFault) -> FolderFault
    requires { start + place_of fault < 2 ^ 64 }
    ensures { result ≡ damage_in slot start (named_place fault) }
{
    match fault.place() {
        Some(place) => FolderFault::Damaged {
            file: FileId::Manager { slot },
            place: start + place as u64,
        },
        None => FolderFault::Memory,
    }
}

// The fault of a body that stands at an offset of a slot's manager file.
fn in_block(slot: u8, start: u64, fault: EntryFault) -> FolderFault
    requires { IsNear (2 ^ 64 - start) fault }
    ensures { result ≡ entry_damage slot start fault }
{
    match fault {
        EntryFault::Damaged { place } => FolderFault::Damaged {
            file: FileId::Manager { slot },
            place: start + place as u64,
        },
        EntryFault::Memory => FolderFault::Memory,
    }
}

// The session of a body that stands at an offset of a slot's manager file, behind the greatest before it, and what it says.
fn entry_at(
    alloc: Global,
    slot: u8,
    program: &Checked,
    shape: &Shape,
    session: u64,
    format: Format,
    start: u64,
    body: &[u8],
) -> Result<(u64, Said), FolderFault>
    requires shape { IsShapeOf (program_tree program.now) shape.now }
    requires place { start + length body.now < 2 ^ 63 }
    ensures found { IfOk result (λ found. entry_under format (program_tree program.now) session body.now ≡ Ok (entry_said found.1)) }
    ensures session { IfOk result (λ found. found.0 ≡ session_of format body.now) }
    ensures taken { IfOk result (λ found. SessionFits format Logged session found.0) }
    ensures fit { IfOk result (λ found. IsSaidIn format (program_tree program.now) found.1) }
    ensures few { IfOk result (λ found. length (entries_said (entry_said found.1)) ≤ length body.now) }
    ensures damaged { (file : FileId) (place : ℕ) → IsErrOf result (Fault.Damaged file place)
        → (file ≡ Manager slot) × (counted_from start (entry_under format (program_tree program.now) session body.now) ≡ Err place) }
    ensures failed { (file : FileId) → IsErrOf result (Fault.Failed file) → ⊥ }
{
    match read_entry(alloc, body, program, shape, session, format) {
        Ok(found) => Ok(found),
        Err(fault) => Err(in_block(slot, start, fault)),
    }
}

/// The session of the block behind a gate of a slot's manager file, what it says under the program in force, of which this is the shape,
/// and the next gate; none where the gate isn't open. `Damaged` names the block's length field where the block isn't whole, and else the
/// first place in its body that isn't that of a session, behind the greatest before it, and of records of the program, or of a program
/// that may follow it. `Failed` names a file on which a call failed; `Memory` may come at any place. Nothing is written.
pub fn next_entry<H: Host>(
    alloc: Global,
    host: &mut H,
    slot: u8,
    program: &Checked,
    shape: &Shape,
    session: u64,
    format: Format,
    gate_at: u64,
) -> Result<Option<(u64, Said, u64)>, FolderFault>
    requires slot { slot ≤ 1 }
    requires shape { IsShapeOf (program_tree program.now) shape.now }
    requires place { gate_at < 2 ^ 63 }
    ensures found { IfOk result (λ n. IsTrue H.tells
        → next_at format (program_tree program.now) session gate_at (H.world host.old).disk slot ≡ Ok (found_as n)) }
    ensures fit { IfOk result (λ n. IfSome n (IsFoundIn format (program_tree program.now) session)) }
    ensures further { IfOk result (λ n. IfSome n (IsSaidBehind gate_at)) }
    ensures damaged { (file : FileId) (place : ℕ) → IsErrOf result (Fault.Damaged file place) → IsTrue H.tells
        → next_at format (program_tree program.now) session gate_at (H.world host.old).disk slot ≡ Err place }
    ensures file { (file : FileId) (place : ℕ) → IsErrOf result (Fault.Damaged file place) → file ≡ Manager slot }
    ensures failed { (file : FileId) → IsErrOf result (Fault.Failed file) → file ≡ Manager slot }
    ensures asked { IsTrue H.tells → OnlyAsked (H.world host.old) (H.world host.new) }
    ensures calls { HasCalled ReadFaulted result H.is_ready H.faults host.old host.new }
{
    let file = FileId::Manager { slot };
    let body = match read_block(alloc, host, file, gate_at) {
        Ok(Some(body)) => body,
        Ok(None) => return Ok(None),
        Err(BlockFault::BadLength { place }) => return Err(FolderFault::Damaged { file, place }),
        Err(BlockFault::Failed) => return Err(FolderFault::Failed { file }),
        Err(BlockFault::Memory) => return Err(FolderFault::Memory),
    };
    let next = gate_at + 5 + body.len() as u64;
    match entry_at(
        alloc,
        slot,
        program,
        shape,
        session,
        format,
        gate_at + 5,
        body.as_slice(),
    ) {
        Ok((own, said)) => Ok(Some((own, said, next))),
        Err(fault) => Err(fault),
    }
}
