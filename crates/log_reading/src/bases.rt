ghost use Rattle.std.specs.Prelude.{◌≡◌, ◌+◌, ◌^◌, ◌<◌, ◌≤◌, ◌++◌, [], ℕ, List, IsTrue, length, fold, Ok, Err, OnOk, IfOk, IsErrOf};
ghost use Rattle.host_trait.specs.Faults.{HasCalled};
ghost use Rattle.host_trait.specs.Runs.{OnlyAsked};
ghost use Rattle.host_trait.specs.declared.channels.FileId.{FileId};
ghost use Rattle.host_trait.specs.declared.channels.FileId.TheVariants.{Manager};
ghost use Rattle.commit_log.specs.Checkpoints.{IsPieceIn, piece_body_in};
ghost use Rattle.commit_log.specs.Orders.{grain_after};
ghost use Rattle.program_file.specs.Programs.{Program, shape_in};
ghost use Rattle.log_reading.specs.declared.faults.FolderFault.{FolderFault};
ghost use Rattle.log_reading.specs.Blocks.{log_in_file};
ghost use Rattle.log_reading.specs.Counts.{ReadFaulted};
ghost use Rattle.log_reading.specs.Steps.{placed, next_piece_in, log_base_of, IsBaseInBounds, BeginsSaved, IsFollowedBy};

use crate::blocks::in_file;
use crate::faults::FolderFault;
use crate::header::check_header;
use base_types::{GrainId, List, Shape, UnitNo};
use commit_log::{CheckpointHead, CheckpointPiece, Written, get_piece};
use field_codec::Format;
use gate_block::{BlockFault, read_block};
use host_trait::{FileId, Host};
use std::alloc::{AllocError, Global};

/// What a log begins with: how many entries stand before it, the number of the unit behind these, the greatest session of these, the place
/// of the version of each grain that has one, in ascending grain order, and the gate behind which the first block of its entries stands.
/// Of a log that begins with no checkpoint these are 0, 1, 0, none and 15.
#[derive(Drop)]
pub struct Base {
    pub count: u64,
    pub next_unit: UnitNo,
    pub session: u64,
    pub saved: List<Written>,
    pub gate_at: u64,
}

// The piece of a checkpoint that a body is, which stands at an offset of a slot's manager file.
fn piece_at(
    alloc: Global,
    slot: u8,
    shape: &Shape,
    first: Option<CheckpointHead>,
    last: Option<GrainId>,
    format: Format,
    start: u64,
    body: &[u8],
) -> Result<CheckpointPiece, FolderFault>
    requires { start + length body.now < 2 ^ 63 }
    ensures found { IfOk result (λ piece. piece_body_in format shape.now first last body.now ≡ Ok piece) }
    ensures fits { IfOk result (λ piece. IsPieceIn format shape.now first last piece) }
    ensures damaged { (file : FileId) (place : ℕ) → IsErrOf result (FolderFault.Damaged file place)
        → (file ≡ Manager slot) × (placed start (piece_body_in format shape.now first last body.now) ≡ Err place) }
    ensures failed { (file : FileId) → IsErrOf result (FolderFault.Failed file) → ⊥ }
{
    match get_piece(alloc, body, shape, first, last, format) {
        Ok(piece) => Ok(piece),
        Err(fault) => Err(in_file(slot, start, fault)),
    }
}

// The piece of a checkpoint that must stand behind a gate of a slot's manager file, behind what the first piece said and the last
// grain before, and the next gate. `Damaged` names the gate where it isn't open, the block's length field where the block isn't whole,
// and else the first place in its body that isn't that of such a piece.
fn next_piece<H: Host>(
    alloc: Global,
    host: &mut H,
    slot: u8,
    shape: &Shape,
    format: Format,
    gate_at: u64,
    first: Option<CheckpointHead>,
    last: Option<GrainId>,
) -> Result<(CheckpointPiece, u64), FolderFault>
    requires slot { slot ≤ 1 }
    requires place { gate_at < 2 ^ 63 }
    ensures found { IfOk result (λ found. IsTrue H.tells
        → next_piece_in format shape.now first last gate_at ((H.world host.old).disk (Manager slot)).seen ≡ Ok found) }
    ensures fits { IfOk result (λ found. IsPieceIn format shape.now first last found.0) }
    ensures further { IfOk result (λ found. (gate_at < found.1) × (found.1 < 2 ^ 63)) }
    ensures damaged { (file : FileId) (place : ℕ) → IsErrOf result (FolderFault.Damaged file place) → IsTrue H.tells
        → next_piece_in format shape.now first last gate_at ((H.world host.old).disk (Manager slot)).seen ≡ Err place }
    ensures file { (file : FileId) (place : ℕ) → IsErrOf result (FolderFault.Damaged file place) → file ≡ Manager slot }
    ensures failed { (file : FileId) → IsErrOf result (FolderFault.Failed file) → file ≡ Manager slot }
    ensures asked { IsTrue H.tells → OnlyAsked (H.world host.old) (H.world host.new) }
    ensures calls { HasCalled ReadFaulted result H.is_ready H.faults host.old host.new }
{
    let file = FileId::Manager { slot };
    let body = match read_block(alloc, host, file, gate_at) {
        Ok(Some(body)) => body,
        Ok(None) => {
            return Err(FolderFault::Damaged {
                file,
                place: gate_at,
            });
        }
        Err(BlockFault::BadLength { place }) => return Err(FolderFault::Damaged { file, place }),
        Err(BlockFault::Failed) => return Err(FolderFault::Failed { file }),
        Err(BlockFault::Memory) => return Err(FolderFault::Memory),
    };
    let next = gate_at + 5 + body.len() as u64;
    match piece_at(
        alloc,
        slot,
        shape,
        first,
        last,
        format,
        gate_at + 5,
        body.as_slice(),
    ) {
        Ok(piece) => Ok((piece, next)),
        Err(fault) => Err(fault),
    }
}

// Appends the writes of a piece, and answers the last grain with them.
fn add_saved(
    saved: &mut List<Written>,
    last: Option<GrainId>,
    writes: &[Written],
) -> Result<Option<GrainId>, AllocError>
    ensures saved { OnOk result (saved.new ≡ saved.old ++ writes.now) }
    ensures last { IfOk result (λ grain. grain ≡ fold grain_after last writes.now) }
{
    let mut grain = last;
    for written in writes {
        saved.push(*written)?;
        grain = Some(written.grain);
    }
    Ok(grain)
}

// Reads the checkpoint that a log begins with, piece by piece.
fn read_checkpoint<H: Host>(
    alloc: Global,
    host: &mut H,
    slot: u8,
    shape: &Shape,
    format: Format,
) -> Result<Base, FolderFault>
    requires slot { slot ≤ 1 }
    ensures begins { IfOk result (λ b. IsTrue H.tells → (p : Program) → shape_in p ≡ shape.now
        → BeginsSaved ((H.world host.old).disk (Manager slot)).seen
        → IsFollowedBy format p ((H.world host.old).disk (Manager slot)).seen (log_base_of b) [] [] b.session b.gate_at) }
    ensures bound { IfOk result (λ b. IsBaseInBounds b) }
    ensures damaged { (file : FileId) (place : ℕ) → IsErrOf result (FolderFault.Damaged file place) → IsTrue H.tells
        → (p : Program) → shape_in p ≡ shape.now → BeginsSaved ((H.world host.old).disk (Manager slot)).seen
        → log_in_file format p ((H.world host.old).disk (Manager slot)).seen ≡ Err place }
    ensures file { (file : FileId) (place : ℕ) → IsErrOf result (FolderFault.Damaged file place) → file ≡ Manager slot }
    ensures failed { (file : FileId) → IsErrOf result (FolderFault.Failed file) → file ≡ Manager slot }
    ensures asked { IsTrue H.tells → OnlyAsked (H.world host.old) (H.world host.new) }
    ensures calls { HasCalled ReadFaulted result H.is_ready H.faults host.old host.new }
{
    let mut saved = List::new(alloc);
    let mut first = None;
    let mut last = None;
    let mut gate_at = 15;
    loop {
        let (piece, behind) = next_piece(alloc, host, slot, shape, format, gate_at, first, last)?;
        last = add_saved(&mut saved, last, piece.writes.as_slice())?;
        gate_at = behind;
        if !piece.more {
            return Ok(Base {
                count: piece.head.count,
                next_unit: piece.head.next_unit,
                session: piece.head.session,
                saved,
                gate_at,
            });
        }
        first = Some(piece.head);
    }
}

/// Reads what the log of a slot's manager file begins with, by a format, and keeps the gate behind which its first block of records stands, from
/// which [`crate::next_entry`] goes on. `Damaged` names the first place of the header or of a checkpoint's pieces that is damaged, and
/// `Failed` that file, a call on which failed.
pub fn read_base<H: Host>(
    alloc: Global,
    host: &mut H,
    slot: u8,
    shape: &Shape,
    format: Format,
) -> Result<Base, FolderFault>
    requires slot { slot ≤ 1 }
    ensures begins { IfOk result (λ b. IsTrue H.tells → (p : Program) → shape_in p ≡ shape.now
        → IsFollowedBy format p ((H.world host.old).disk (Manager slot)).seen (log_base_of b) [] [] b.session b.gate_at) }
    ensures bound { IfOk result (λ b. IsBaseInBounds b) }
    ensures damaged { (file : FileId) (place : ℕ) → IsErrOf result (FolderFault.Damaged file place) → IsTrue H.tells
        → (p : Program) → shape_in p ≡ shape.now → log_in_file format p ((H.world host.old).disk (Manager slot)).seen ≡ Err place }
    ensures file { (file : FileId) (place : ℕ) → IsErrOf result (FolderFault.Damaged file place) → file ≡ Manager slot }
    ensures failed { (file : FileId) → IsErrOf result (FolderFault.Failed file) → file ≡ Manager slot }
    ensures asked { IsTrue H.tells → OnlyAsked (H.world host.old) (H.world host.new) }
    ensures calls { HasCalled ReadFaulted result H.is_ready H.faults host.old host.new }
{
    let saved = match check_header(host, slot) {
        Ok(saved) => saved,
        Err(fault) => return Err(fault),
    };
    if !saved {
        return Ok(Base {
            count: 0,
            next_unit: UnitNo(1),
            session: 0,
            saved: List::new(alloc),
            gate_at: 15,
        });
    }
    match read_checkpoint(alloc, host, slot, shape, format) {
        Ok(base) => Ok(base),
        Err(fault) => Err(fault),
    }
}
