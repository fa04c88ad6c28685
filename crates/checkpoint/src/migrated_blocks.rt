// The blocks of the live slot's manager file, written into the other one in the newer format.
ghost use Rattle.std.specs.Prelude.{◌≡◌, ◌+◌, ◌-◌, ◌^◌, ◌<◌, ◌≤◌, ℕ, length, take, drop, IsTrue, IfOk, IfSome, OnOk, IsErrOf};
ghost use Rattle.host_trait.specs.Faults.{HasCalled};
ghost use Rattle.host_trait.specs.Runs.{RunsOnFile, OnlyAsked};
ghost use Rattle.host_trait.specs.declared.channels.FileId.{FileId as AFile};
ghost use Rattle.host_trait.specs.declared.channels.FileId.TheVariants.{Manager};
ghost use Rattle.gate_block.specs.Blocks.{bad, block_at, found_at, IsFoundAt};
ghost use Rattle.gate_block.specs.Log.{IsWhole};
ghost use Rattle.log_reading.specs.declared.faults.FolderFault.{FolderFault as AFault};
ghost use Rattle.log_reading.specs.Counts.{ReadFaulted};
ghost use Rattle.checkpoint.specs.Steps.{KeepsGate};
ghost use Rattle.checkpoint.specs.ManagerBytes.{HasWritten};
ghost use Rattle.checkpoint.specs.MigratedBlocks.{with_session, session_place, more_follow, HasBlocksWritten, HasMigrated};

use crate::manager_file::{byte_at, put, put_header};
use base_types::List;
use gate_block::{BlockFault, read_block};
use host_trait::{Failed, FileId, Host};
use log_reading::FolderFault;
use std::alloc::{AllocError, Global};

// The session of a block of the older format.
const SESSION: u64 = 1;

// The most bytes of a body to which a session can be added.
const LONGEST: usize = 4_294_967_287;

// Where the first block's gate is.
const FIRST_GATE: u64 = 15;

// Where the session goes in a body of this length, a checkpoint's piece or not.
fn session_place(is_piece: bool, size: usize) -> usize
    ensures place { result ≡ session_place is_piece size }
    ensures within { result ≤ size }
{
    if is_piece {
        return size.min(17);
    }
    0
}

// Whether another piece of the checkpoint follows behind this body.
fn more_follow(is_piece: bool, body: &[u8]) -> bool
    ensures { result ≡ more_follow is_piece body.now }
{
    if !is_piece {
        return false;
    }
    match body.first() {
        Some(flag) => *flag == 1,
        None => false,
    }
}

// The block of a body with the session, behind its open gate.
fn block_with_session(alloc: Global, is_piece: bool, body: &[u8]) -> Result<Vec<u8>, AllocError>
    requires small { length body.now + 8 < 2 ^ 32 }
    ensures { IfOk result (λ block. block.items ≡ block_at (with_session is_piece body.now)) }
{
    let (front, rest) = body.split_at(session_place(is_piece, body.len()));
    let size = body.len() as u32 + 8;
    let mut block = Vec::with_capacity(alloc, body.len() + 13)?;
    block.push(1)?;
    block.extend_from_slice(&size.to_le_bytes())?;
    block.extend_from_slice(front)?;
    block.extend_from_slice(&SESSION.to_le_bytes())?;
    block.extend_from_slice(rest)?;
    Ok(block)
}

// Writes the block of a body with the session at an offset of a slot's manager file, and answers where it ends. A body that would be too
// long for its length field is refused, as if there were no memory: no log of the older format has one.
fn put_block<H: Host>(
    alloc: Global,
    host: &mut H,
    slot: u8,
    at: u64,
    is_piece: bool,
    body: &[u8],
) -> Result<u64, FolderFault>
    requires slot { slot ≤ 1 }
    requires behind { 1 ≤ at }
    requires place { IsTrue H.tells → at ≤ length ((H.world host.old).disk (Manager slot)).seen }
    ensures run { IsTrue H.tells → RunsOnFile (Manager slot) KeepsGate 0 (H.world host.old) (H.world host.new) }
    ensures written { OnOk result (IsTrue H.tells
        → HasWritten slot at (block_at (with_session is_piece body.now)) (H.world host.old) (H.world host.new)) }
    ensures end { IfOk result (λ end. (end ≡ at + length (block_at (with_session is_piece body.now))) × (end < 2 ^ 63)) }
    ensures within { IfOk result (λ end. IsTrue H.tells → end ≤ length ((H.world host.new).disk (Manager slot)).seen) }
    ensures whole { (other : AFile) (place : ℕ) → IsErrOf result (AFault.Damaged other place) → ⊥ }
    ensures calls { HasCalled ReadFaulted result H.is_ready H.faults host.old host.new }
{
    if body.len() > LONGEST {
        return Err(FolderFault::Memory);
    }
    let block = block_with_session(alloc, is_piece, body)?;
    let end = put(host, slot, at, &block)?;
    Ok(end)
}

// The body behind a gate of a slot's manager file, none where the gate isn't open.
fn next_body<H: Host>(
    alloc: Global,
    host: &mut H,
    slot: u8,
    gate_at: u64,
) -> Result<Option<List<u8>>, FolderFault>
    requires slot { slot ≤ 1 }
    requires place { gate_at < 2 ^ 63 }
    ensures found { IfOk result (λ found. IsTrue H.tells → IsFoundAt gate_at ((H.world host.old).disk (Manager slot)).seen found) }
    ensures spelled { IfOk result (λ found. IsTrue H.tells → IfSome found (λ body.
        take (5 + length body) (drop gate_at ((H.world host.old).disk (Manager slot)).seen) ≡ block_at body)) }
    ensures small { IfOk result (λ found. IfSome found (λ body. length body < 2 ^ 32)) }
    ensures next { IfOk result (λ found. IfSome found (λ body. gate_at + 5 + length body < 2 ^ 63)) }
    ensures bad { (file : AFile) (place : ℕ) → IsErrOf result (AFault.Damaged file place) → IsTrue H.tells
        → found_at gate_at ((H.world host.old).disk (Manager slot)).seen ≡ bad }
    ensures asked { IsTrue H.tells → OnlyAsked (H.world host.old) (H.world host.new) }
    ensures calls { HasCalled ReadFaulted result H.is_ready H.faults host.old host.new }
{
    let file = FileId::Manager { slot };
    match read_block(alloc, host, file, gate_at) {
        Ok(found) => Ok(found),
        Err(BlockFault::BadLength { place }) => Err(FolderFault::Damaged { file, place }),
        Err(BlockFault::Failed) => Err(FolderFault::Failed { file }),
        Err(BlockFault::Memory) => Err(FolderFault::Memory),
    }
}

// Writes the blocks of the live slot's log into the other slot's manager file from an offset on, each body with the session, and answers
// where they end. Of a log that begins with a checkpoint the first bodies are its pieces.
fn put_blocks<H: Host>(
    alloc: Global,
    host: &mut H,
    live: u8,
    at: u64,
    begins: bool,
) -> Result<u64, FolderFault>
    requires slot { live ≤ 1 }
    requires behind { (1 ≤ at) × (at < 2 ^ 63) }
    requires place { IsTrue H.tells → at ≤ length ((H.world host.old).disk (Manager (1 - live))).seen }
    requires long { IsTrue H.tells → 16 ≤ length ((H.world host.old).disk (Manager live)).seen }
    ensures run { IsTrue H.tells → RunsOnFile (Manager (1 - live)) KeepsGate 0 (H.world host.old) (H.world host.new) }
    ensures written { IfOk result (λ end. IsTrue H.tells → HasBlocksWritten live at end begins (H.world host.old) (H.world host.new)) }
    ensures bound { IfOk result (λ end. (1 ≤ end) × (end < 2 ^ 63)) }
    ensures within { IfOk result (λ end. IsTrue H.tells → end ≤ length ((H.world host.new).disk (Manager (1 - live))).seen) }
    ensures damaged { (file : AFile) (place : ℕ) → IsErrOf result (AFault.Damaged file place) → IsTrue H.tells
        → IsWhole ((H.world host.old).disk (Manager live)).seen → ⊥ }
    ensures calls { HasCalled ReadFaulted result H.is_ready H.faults host.old host.new }
{
    let mut gate_at = FIRST_GATE;
    let mut is_piece = begins;
    let mut end = at;
    while let Some(body) = next_body(alloc, host, live, gate_at)? {
        end = put_block(alloc, host, 1 - live, end, is_piece, body.as_slice())?;
        gate_at = gate_at + 5 + body.len() as u64;
        is_piece = more_follow(is_piece, body.as_slice());
    }
    Ok(end)
}

/// Writes the manager file of the slot that isn't live behind its closed header gate: the rest of a header of this generation, with the
/// byte of the live one that says how the log begins, and the log's blocks in their order, a block at a time, each body with the session 1,
/// up to a closed gate; and syncs it. No body is decoded. `Failed` names the file that couldn't be read or written.
pub fn migrate_blocks<H: Host>(
    alloc: Global,
    host: &mut H,
    live: u8,
    generation: u32,
) -> Result<(), FolderFault>
    requires slot { live ≤ 1 }
    requires gate { IsTrue H.tells → 1 ≤ length ((H.world host.old).disk (Manager (1 - live))).seen }
    requires long { IsTrue H.tells → 16 ≤ length ((H.world host.old).disk (Manager live)).seen }
    ensures run { IsTrue H.tells → RunsOnFile (Manager (1 - live)) KeepsGate 1 (H.world host.old) (H.world host.new) }
    ensures written { OnOk result (IsTrue H.tells → HasMigrated generation ((H.world host.old).disk (Manager live)).seen
        ((H.world host.old).disk (Manager (1 - live))) ((H.world host.new).disk (Manager (1 - live)))) }

    // Where the log ends at a closed gate, no block is found damaged.
    ensures damaged { (file : AFile) (place : ℕ) → IsErrOf result (AFault.Damaged file place) → IsTrue H.tells
        → IsWhole ((H.world host.old).disk (Manager live)).seen → ⊥ }

    ensures calls { HasCalled ReadFaulted result H.is_ready H.faults host.old host.new }
{
    let slot = 1 - live;
    let Ok(begins) = byte_at(host, live, 13) else {
        return Err(FolderFault::Failed {
            file: FileId::Manager { slot: live },
        });
    };
    let at = put_header(host, slot, generation, begins)?;
    let end = put_blocks(alloc, host, live, at, begins == 1)?;
    put(host, slot, end, &[0])?;
    let file = FileId::Manager { slot };
    match host.sync(file) {
        Ok(()) => Ok(()),
        Err(Failed) => Err(FolderFault::Failed { file }),
    }
}
