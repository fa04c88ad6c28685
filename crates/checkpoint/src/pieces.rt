// The checkpoint that names the copies, in pieces of a block each.
ghost use Rattle.std.specs.Prelude.{◌≡◌, ◌+◌, ◌^◌, ◌<◌, ◌≤◌, ◌∷◌, ◌++◌, [], ℕ, map, length, IsTrue, IfOk, OnOk, IsErrOf};
ghost use Rattle.std.specs.Prelude as std;
ghost use Rattle.std.specs.List.{flat_map, AllByRecursion};
ghost use Rattle.host_trait.specs.Faults.{HasCalled};
ghost use Rattle.host_trait.specs.Runs.{RunsOnFile};
ghost use Rattle.host_trait.specs.declared.channels.FileId.{FileId as AFile};
ghost use Rattle.host_trait.specs.declared.channels.FileId.TheVariants.{Manager};
ghost use Rattle.log_reading.specs.declared.faults.FolderFault.{FolderFault as AFault};
ghost use Rattle.gate_block.specs.Blocks.{block_at};
ghost use Rattle.gate_block.specs.Log.{open_blocks};
ghost use Rattle.commit_log.specs.declared.records.Written.{Written as AWrite};
ghost use Rattle.commit_log.specs.Checkpoints.{flag_of, spelling_of_piece};
ghost use Rattle.commit_log.specs.Spelling.{WriteFits};
ghost use Rattle.log_reading.specs.Counts.{ReadFaulted};
ghost use Rattle.checkpoint.specs.Steps.{KeepsGate};
ghost use Rattle.checkpoint.specs.Copies.{writes_named};
ghost use Rattle.checkpoint.specs.ManagerBytes.{HasWritten};
ghost use Rattle.checkpoint.specs.Pieces.{block_of_piece, HasFront, HasPieces};

use crate::manager_file::{put, put_header};
use base_types::List;
use commit_log::{CheckpointHead, Named, Written, encode_piece};
use host_trait::{Failed, FileId, Host};
use log_reading::FolderFault;
use std::alloc::{AllocError, Global};

// The most copies that a piece names.
const PIECE: usize = 65_536;

// Where these copies stand.
fn writes_of(alloc: Global, copies: &[Named]) -> Result<Vec<Written>, AllocError>
    ensures { IfOk result (λ writes. writes.items ≡ writes_named copies.now) }
{
    copies.iter().map(|copy| copy.written).collect(alloc)
}

// The block of a piece of the checkpoint, behind its open gate.
fn piece_block(
    alloc: Global,
    more: bool,
    head: CheckpointHead,
    copies: &[Named],
) -> Result<List<u8>, AllocError>
    requires { length copies.now ≤ 65536 }
    ensures block { IfOk result (λ block. block ≡ block_of_piece more head copies.now) }
    ensures fits { OnOk result (AllByRecursion WriteFits (writes_named copies.now)) }
{
    let writes = writes_of(alloc, copies)?;
    let block = encode_piece(alloc, more, head, writes.as_slice())?;
    Ok(block)
}

// Writes the block of a piece at an offset, and answers where it ends.
fn put_piece<H: Host>(
    alloc: Global,
    host: &mut H,
    slot: u8,
    at: u64,
    more: bool,
    head: CheckpointHead,
    copies: &[Named],
) -> Result<u64, FolderFault>
    requires slot { slot ≤ 1 }
    requires behind { 1 ≤ at }
    requires place { IsTrue H.tells → at ≤ length ((H.world host.old).disk (Manager slot)).seen }
    requires size { length copies.now ≤ 65536 }
    ensures run { IsTrue H.tells → RunsOnFile (Manager slot) KeepsGate 0 (H.world host.old) (H.world host.new) }
    ensures written { OnOk result (IsTrue H.tells
        → HasWritten slot at (block_of_piece more head copies.now) (H.world host.old) (H.world host.new)) }
    ensures end { IfOk result (λ end. (end ≡ at + length (block_of_piece more head copies.now)) × (end < 2 ^ 63)) }
    ensures within { IfOk result (λ end. IsTrue H.tells → end ≤ length ((H.world host.new).disk (Manager slot)).seen) }
    ensures fits { OnOk result (AllByRecursion WriteFits (writes_named copies.now)) }
    ensures whole { (other : AFile) (place : ℕ) → IsErrOf result (AFault.Damaged other place) → ⊥ }
    ensures calls { HasCalled ReadFaulted result H.is_ready H.faults host.old host.new }
{
    let block = piece_block(alloc, more, head, copies)?;
    put(host, slot, at, block.as_slice())
}

// The pieces that others follow were written at an offset, and what is left of the copies is one piece at most.
#[derive(Clone, Copy)]
struct Front<'a> {
    end: u64,
    rest: &'a [Named],
}

// Writes the blocks of the pieces that others follow, from an offset on.
fn put_front<'a, H: Host>(
    alloc: Global,
    host: &mut H,
    slot: u8,
    at: u64,
    head: CheckpointHead,
    copies: &'a [Named],
) -> Result<Front<'a>, FolderFault>
    requires slot { slot ≤ 1 }
    requires behind { (1 ≤ at) × (at < 2 ^ 63) }
    requires place { IsTrue H.tells → at ≤ length ((H.world host.old).disk (Manager slot)).seen }
    ensures run { IsTrue H.tells → RunsOnFile (Manager slot) KeepsGate 0 (H.world host.old) (H.world host.new) }
    ensures written { IfOk result (λ made. HasFront H.tells slot at head copies.now made.rest.now made.end (H.world host.old) (H.world host.new)) }
    ensures size { IfOk result (λ made. length made.rest.now ≤ 65536) }
    ensures within { IfOk result (λ made. IsTrue H.tells → made.end ≤ length ((H.world host.new).disk (Manager slot)).seen) }
    ensures bound { IfOk result (λ made. (1 ≤ made.end) × (made.end < 2 ^ 63)) }
    ensures whole { (other : AFile) (place : ℕ) → IsErrOf result (AFault.Damaged other place) → ⊥ }
    ensures calls { HasCalled ReadFaulted result H.is_ready H.faults host.old host.new }
{
    let mut end = at;
    let mut rest = copies;
    while rest.len() > PIECE {
        let (piece, behind) = rest.split_at(PIECE);
        end = put_piece(alloc, host, slot, end, true, head, piece)?;
        rest = behind;
    }
    Ok(Front { end, rest })
}

/// Writes the manager file of a slot behind its closed header gate: the rest of a header of this generation, and a checkpoint with
/// this head that names these copies, in pieces of at most 65,536, up to a closed gate; and syncs it. `Failed` names
/// that file.
pub fn write_pieces<H: Host>(
    alloc: Global,
    host: &mut H,
    slot: u8,
    generation: u32,
    head: CheckpointHead,
    copies: &[Named],
) -> Result<(), FolderFault>
    requires slot { slot ≤ 1 }
    requires gate { IsTrue H.tells → 1 ≤ length ((H.world host.old).disk (Manager slot)).seen }
    ensures run { IsTrue H.tells → RunsOnFile (Manager slot) KeepsGate 1 (H.world host.old) (H.world host.new) }
    ensures written { OnOk result (IsTrue H.tells
        → HasPieces generation head (writes_named copies.now) ((H.world host.old).disk (Manager slot)) ((H.world host.new).disk (Manager slot))) }
    ensures whole { (other : AFile) (place : ℕ) → IsErrOf result (AFault.Damaged other place) → ⊥ }
    ensures calls { HasCalled ReadFaulted result H.is_ready H.faults host.old host.new }
{
    let at = put_header(host, slot, generation, 1)?;
    let front = put_front(alloc, host, slot, at, head, copies)?;
    let end = put_piece(alloc, host, slot, front.end, false, head, front.rest)?;
    put(host, slot, end, &[0])?;
    let file = FileId::Manager { slot };
    match host.sync(file) {
        Ok(()) => Ok(()),
        Err(Failed) => Err(FolderFault::Failed { file }),
    }
}
