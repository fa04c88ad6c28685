// The grains' files of the live slot, copied into the other one.
ghost use Rattle.std.specs.Prelude.{◌≡◌, ◌≢◌, ◌+◌, ◌-◌, ◌^◌, ◌<◌, ◌≤◌, ℕ, Some, length, take, drop, IsTrue, IfOk, OnOk, IsErrOf};
ghost use Rattle.std.specs.List.{AllByRecursion};
ghost use Rattle.base_types.specs.Stores.{end_in};
ghost use Rattle.host_trait.specs.Files.{HasSlot, MayAsk};
ghost use Rattle.host_trait.specs.Faults.{HasCalled};
ghost use Rattle.host_trait.specs.Runs.{OnlyAsked, RunsOnFile};
ghost use Rattle.host_trait.specs.declared.channels.FileId.{FileId as AFile};
ghost use Rattle.host_trait.specs.declared.channels.FileId.TheVariants.{Grain};
ghost use Rattle.log_reading.specs.declared.faults.FolderFault.{FolderFault as AFault};
ghost use Rattle.log_reading.specs.Counts.{ReadFaulted};
ghost use Rattle.checkpoint.specs.Steps.{MayBeAny, OnlyCopies};
ghost use Rattle.checkpoint.specs.CopiedFiles.{BeginsAs, IsCopyOf, IsCopiedFile, AreEndsWithin};

use base_types::{Ends, GrainId};
use host_trait::{Failed, FileId, Host, read_full};
use log_reading::FolderFault;
use std::alloc::Global;

// The most bytes that are copied at once.
const PIECE: u64 = 65_536;

// How many bytes are copied next, where so many are left.
fn piece_size(left: u64) -> usize
    ensures most { result ≤ 65536 }
    ensures within { result ≤ left }
    ensures some { 0 < left → 0 < result }
{
    left.min(PIECE) as usize
}

// So many bytes of a file from an offset on. `Damaged` where it doesn't go on so far.
fn read_piece<H: Host>(
    alloc: Global,
    host: &mut H,
    file: FileId,
    at: u64,
    size: usize,
) -> Result<Vec<u8>, FolderFault>
    requires file { MayAsk (H.is_ready host.old) file }
    ensures read { IfOk result (λ bytes. IsTrue H.tells → (size ≤ length ((H.world host.old).disk file).seen - at)
        × (bytes.items ≡ take size (drop at ((H.world host.old).disk file).seen))) }
    ensures size { IfOk result (λ bytes. length bytes.items ≡ size) }
    ensures damaged { (other : AFile) (place : ℕ) → IsErrOf result (AFault.Damaged other place) → IsTrue H.tells
        → length ((H.world host.old).disk file).seen - at < size }
    ensures asked { IsTrue H.tells → OnlyAsked (H.world host.old) (H.world host.new) }
    ensures calls { HasCalled ReadFaulted result H.is_ready H.faults host.old host.new }
{
    let mut bytes = vec![in alloc; 0u8; size]?;
    match read_full(host, file, at, &mut bytes) {
        Ok(true) => Ok(bytes),
        Ok(false) => Err(FolderFault::Damaged { file, place: at }),
        Err(Failed) => Err(FolderFault::Failed { file }),
    }
}

// Copies so many bytes from an offset on, up to which the second file begins as the first one does. It isn't synced.
fn copy_piece<H: Host>(
    alloc: Global,
    host: &mut H,
    from: FileId,
    to: FileId,
    at: u64,
    size: usize,
) -> Result<(), FolderFault>
    requires from { MayAsk (H.is_ready host.old) from }
    requires to { MayAsk (H.is_ready host.old) to }
    requires apart { from ≢ to }
    requires begins { IsTrue H.tells → BeginsAs at ((H.world host.old).disk from).seen ((H.world host.old).disk to).seen }
    ensures run { IsTrue H.tells → RunsOnFile to MayBeAny 0 (H.world host.old) (H.world host.new) }
    ensures copied { OnOk result (IsTrue H.tells
        → BeginsAs (at + size) ((H.world host.old).disk from).seen ((H.world host.new).disk to).seen) }
    ensures bound { OnOk result (at + size < 2 ^ 63) }
    ensures damaged { (file : AFile) (place : ℕ) → IsErrOf result (AFault.Damaged file place) → IsTrue H.tells
        → at + size ≤ length ((H.world host.old).disk from).seen → ⊥ }
    ensures calls { HasCalled ReadFaulted result H.is_ready H.faults host.old host.new }
{
    let bytes = read_piece(alloc, host, from, at, size)?;
    match host.write_at(to, at, &bytes) {
        Ok(()) => Ok(()),
        Err(Failed) => Err(FolderFault::Failed { file: to }),
    }
}

// Copies a file's bytes up to an end to the start of another one, in pieces, and syncs that. Both files are ready.
fn copy_front<H: Host>(
    alloc: Global,
    host: &mut H,
    from: FileId,
    to: FileId,
    end: u64,
) -> Result<(), FolderFault>
    requires from { MayAsk (H.is_ready host.old) from }
    requires to { MayAsk (H.is_ready host.old) to }
    requires apart { from ≢ to }
    ensures run { IsTrue H.tells → RunsOnFile to MayBeAny 1 (H.world host.old) (H.world host.new) }
    ensures copied { OnOk result (IsTrue H.tells
        → IsCopyOf end ((H.world host.old).disk from).seen ((H.world host.new).disk to)) }
    ensures damaged { (file : AFile) (place : ℕ) → IsErrOf result (AFault.Damaged file place) → IsTrue H.tells
        → end ≤ length ((H.world host.old).disk from).seen → ⊥ }
    ensures calls { HasCalled ReadFaulted result H.is_ready H.faults host.old host.new }
{
    let mut at = 0;
    while at < end {
        let size = piece_size(end - at);
        copy_piece(alloc, host, from, to, at, size)?;
        at += size as u64;
    }
    match host.sync(to) {
        Ok(()) => Ok(()),
        Err(Failed) => Err(FolderFault::Failed { file: to }),
    }
}

// Copies a grain's file of the live slot into the other one, from its start up to an end, and syncs the copy.
fn copy_file<H: Host>(
    alloc: Global,
    host: &mut H,
    live: u8,
    grain: GrainId,
    end: u64,
) -> Result<(), FolderFault>
    requires slot { live ≤ 1 }
    ensures run { IsTrue H.tells → RunsOnFile (Grain (1 - live) grain) MayBeAny 1 (H.world host.old) (H.world host.new) }
    ensures copied { OnOk result (IsTrue H.tells
        → IsCopyOf end ((H.world host.old).disk (Grain live grain)).seen ((H.world host.new).disk (Grain (1 - live) grain))) }
    ensures damaged { (file : AFile) (place : ℕ) → IsErrOf result (AFault.Damaged file place) → IsTrue H.tells
        → end ≤ length ((H.world host.old).disk (Grain live grain)).seen → ⊥ }
    ensures calls { HasCalled ReadFaulted result H.is_ready H.faults host.old host.new }
{
    let from = FileId::Grain { slot: live, grain };
    let to = FileId::Grain {
        slot: 1 - live,
        grain,
    };
    host.ready(from)?;
    host.ready(to)?;
    copy_front(alloc, host, from, to, end)?;
    Ok(())
}

// Copies a grain's file up to the end of the places that are named in it, if it has one.
fn copy_named<H: Host>(
    alloc: Global,
    host: &mut H,
    live: u8,
    ends: &Ends,
    grain: GrainId,
) -> Result<(), FolderFault>
    requires slot { live ≤ 1 }
    ensures run { IsTrue H.tells → RunsOnFile (Grain (1 - live) grain) MayBeAny 1 (H.world host.old) (H.world host.new) }
    ensures copied { OnOk result (IsTrue H.tells → IsCopiedFile live ends.now (H.world host.old).disk (H.world host.new).disk grain) }
    ensures damaged { (file : AFile) (place : ℕ) → IsErrOf result (AFault.Damaged file place) → IsTrue H.tells
        → ((end : ℕ) → end_in ends.now grain ≡ Some end → end ≤ length ((H.world host.old).disk (Grain live grain)).seen) → ⊥ }
    ensures calls { HasCalled ReadFaulted result H.is_ready H.faults host.old host.new }
{
    match ends.get(grain) {
        Some(end) => copy_file(alloc, host, live, grain, end),
        None => Ok(()),
    }
}

/// Copies the file of each of these grains from the live slot into the other one, from its start up to the end of the places that are
/// named in it: in pieces of at most 65,536 bytes, and with a sync of each file. So each place is what it was. `Failed` names the file that
/// couldn't be read or written.
pub fn copy_files<H: Host>(
    alloc: Global,
    host: &mut H,
    live: u8,
    ends: &Ends,
    grains: &[GrainId],
) -> Result<(), FolderFault>
    requires slot { live ≤ 1 }

    // Nothing changes but files of grains in the other slot, and a copy of each stands there.
    ensures only { IsTrue H.tells → OnlyCopies (1 - live) (H.world host.old) (H.world host.new) }
    ensures copied { OnOk result (IsTrue H.tells
        → AllByRecursion (IsCopiedFile live ends.now (H.world host.old).disk (H.world host.new).disk) grains.now) }

    // Where each end lies in its file, none is found damaged.
    ensures damaged { (file : AFile) (place : ℕ) → IsErrOf result (AFault.Damaged file place) → IsTrue H.tells
        → AreEndsWithin live ends.now (H.world host.old).disk → ⊥ }

    ensures calls { HasCalled ReadFaulted result H.is_ready H.faults host.old host.new }
{
    for grain in grains {
        copy_named(alloc, host, live, ends, *grain)?;
    }
    Ok(())
}
