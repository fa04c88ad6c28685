ghost use Rattle.std.specs.Prelude.{◌≡◌, ◌≢◌, ◌⊎◌, ◌+◌, ◌-◌, ◌^◌, ◌<◌, ◌≤◌, ◌==◌, ◌∷◌, ◌++◌, [], ℕ, List, Bool, true, false, IsTrue, IsOk, length, take, drop, slice_index, IfOk, OnOk, OnErr, IfSome, IfNone, MatchOption, IsErrOf};
ghost use Rattle.std.specs.Int.{w32, to_le_bytes};
ghost use Rattle.host_trait.specs.Disk.{Tears, overlaid, settled};
ghost use Rattle.host_trait.specs.Files.{MayAsk, StaysReady, IsManager};
ghost use Rattle.host_trait.specs.Runs.{RunsOnFile, OnlyAsked, HasFailedWrite};
ghost use Rattle.host_trait.specs.Faults.{Counted, HasCalled};
ghost use Rattle.host_trait.specs.declared.channels.Channel.TheVariants.{File};
ghost use Rattle.gate_block.specs.Gates.{IsClosedAt, is_open_at};
ghost use Rattle.gate_block.specs.Blocks.{found_at, bad, block_at, IsFoundAt};
ghost use Rattle.gate_block.specs.Counts.{BlockFaulted};
ghost use Rattle.gate_block.specs.Log.{EachClosed, EachLogs, IsOpened, StaysTrue, MayLogMore, LogsMore, IsLeftOrLogsMore};
ghost use Rattle.gate_block.specs.declared.faults.BlockFault.{BlockFault};

use crate::faults::BlockFault;
use base_types::List;
use host_trait::{Failed, FileId, Host, read_full, write_synced};
use std::alloc::Global;

/// Puts a block behind the closed gate at `gate_at`, by one write and one sync. The gate stays closed, at every moment and
/// after a failure too: each image is one of before but for the bytes where the block goes.
pub fn append_closed<H: Host>(
    host: &mut H,
    file: FileId,
    gate_at: u64,
    block: &[u8],
) -> Result<(), Failed>
    requires file { MayAsk (H.is_ready host.old) file }
    requires manager { IsManager file }
    requires place { gate_at < 2 ^ 63 }
    requires closed { IsTrue H.tells → IsClosedAt gate_at ((H.world host.old).disk file).seen }

    // No other file and no output changes, and images and reads differ from those of before behind the gate alone.
    ensures run { IsTrue H.tells
        → RunsOnFile file (Tears (gate_at + 1) (length block.now)) 1 (H.world host.old) (H.world host.new) }

    // Once it is done every image has the block.
    ensures ok { OnOk result (IsTrue H.tells
        → (H.world host.new).disk file ≡ settled (overlaid ((H.world host.old).disk file).seen (gate_at + 1) block.now)) }
    ensures count { OnOk result (IsTrue H.tells
        → (H.world host.new).syncs ≡ (H.world host.old).syncs + 1) }
    ensures bound { OnOk result (gate_at + 1 + length block.now < 2 ^ 63) }

    // The gate is closed still; in each image too, at each moment, where it was before; and so each image has the log that it had.
    ensures closed { IsTrue H.tells → IsClosedAt gate_at ((H.world host.new).disk file).seen }
    ensures shut { IsTrue H.tells → StaysTrue (EachClosed gate_at file) (H.world host.old) (H.world host.new) }
    ensures log { IsTrue H.tells → (bodies : List (List ℕ)) → StaysTrue (EachLogs bodies gate_at file) (H.world host.old) (H.world host.new) }

    ensures faults { Counted (File file) result (H.faults host.old) (H.faults host.new) }
    ensures ready { StaysReady (H.is_ready host.old) (H.is_ready host.new) }
{
    write_synced(host, file, gate_at + 1, block)?;
    Ok(())
}

/// Opens the gate at `gate_at`, by one write of that byte alone and one sync. What is behind it counts from then on, so it has
/// to last by then. Before the sync, and after a failure, the gate's byte may be any byte in an image. After a failure the write
/// never began, and all is as it was; or the byte is pending still, and a crash may leave the gate open.
pub fn open_gate<H: Host>(host: &mut H, file: FileId, gate_at: u64) -> Result<(), Failed>
    requires file { MayAsk (H.is_ready host.old) file }
    requires manager { IsManager file }
    requires place { gate_at < 2 ^ 63 }
    requires within { IsTrue H.tells → gate_at ≤ length ((H.world host.old).disk file).seen }

    // No other file and no output changes, and images and reads differ from those of before in the gate's byte alone.
    ensures run { IsTrue H.tells
        → RunsOnFile file (Tears gate_at 1) 1 (H.world host.old) (H.world host.new) }

    // Once it is done the gate is open in every image, by one sync.
    ensures opened { OnOk result (IsTrue H.tells → IsOpened gate_at file (H.world host.old) (H.world host.new)) }
    ensures bound { OnOk result (gate_at + 1 < 2 ^ 63) }

    // Behind a closed gate that ends a log, where a block lasts: at each moment each image has this log, or it with the block's
    // body more; and after Ok each has the body more.
    ensures log { IsTrue H.tells → MayLogMore gate_at file (H.world host.old) (H.world host.new) }
    ensures logged { OnOk result (IsTrue H.tells → LogsMore gate_at file (H.world host.old) (H.world host.new)) }

    // After a failure the write never began, or some image has the body more.
    ensures left { OnErr result (IsTrue H.tells → HasFailedWrite file gate_at 1 (H.world host.old) (H.world host.new)) }
    ensures doubted { OnErr result (IsTrue H.tells → IsLeftOrLogsMore gate_at file (H.world host.old) (H.world host.new)) }

    ensures faults { Counted (File file) result (H.faults host.old) (H.faults host.new) }
    ensures ready { StaysReady (H.is_ready host.old) (H.is_ready host.new) }
{
    write_synced(host, file, gate_at, &[1])?;
    Ok(())
}

// Whether there is a gate and it is open.
fn is_open<H: Host>(host: &mut H, file: FileId, gate_at: u64) -> Result<bool, Failed>
    requires { MayAsk (H.is_ready host.old) file }
    ensures ok { IfOk result (λ is. IsTrue H.tells → is ≡ is_open_at gate_at ((H.world host.old).disk file).seen) }
    ensures asked { IsTrue H.tells → OnlyAsked (H.world host.old) (H.world host.new) }
    ensures faults { Counted (File file) result (H.faults host.old) (H.faults host.new) }
    ensures ready { StaysReady (H.is_ready host.old) (H.is_ready host.new) }
{
    let mut gate = [0];
    let full = read_full(host, file, gate_at, &mut gate)?;
    Ok(full && gate[0] == 1)
}

// The number that a length field spells.
fn number(field: [u8; 4]) -> u32
    ensures { to_le_bytes w32 result ≡ field }
{
    u32::from_le_bytes(field)
}

// The number that a length field says, none where the file ends before it does.
fn read_size<H: Host>(host: &mut H, file: FileId, at: u64) -> Result<Option<u32>, Failed>
    requires { MayAsk (H.is_ready host.old) file }
    ensures some { IfOk result (λ found. IsTrue H.tells → IfSome found (λ size.
        (4 ≤ length ((H.world host.old).disk file).seen - at) × (take 4 (drop at ((H.world host.old).disk file).seen) ≡ to_le_bytes w32 size))) }
    ensures none { IfOk result (λ found. IsTrue H.tells → IfNone found (length ((H.world host.old).disk file).seen - at < 4)) }
    ensures asked { IsTrue H.tells → OnlyAsked (H.world host.old) (H.world host.new) }
    ensures faults { Counted (File file) result (H.faults host.old) (H.faults host.new) }
    ensures ready { StaysReady (H.is_ready host.old) (H.is_ready host.new) }
{
    let mut field = [0; 4];
    if !read_full(host, file, at, &mut field)? {
        return Ok(None);
    }
    Ok(Some(number(field)))
}

// The bytes from there on, none where the file ends before them.
fn read_body<H: Host>(
    alloc: Global,
    host: &mut H,
    file: FileId,
    at: u64,
    size: u32,
) -> Result<Option<List<u8>>, BlockFault>
    requires { MayAsk (H.is_ready host.old) file }
    ensures some { IfOk result (λ found. IsTrue H.tells → IfSome found (λ body. body ≡ take size (drop at ((H.world host.old).disk file).seen))) }
    ensures len { IfOk result (λ found. IfSome found (λ body. length body ≡ size)) }
    ensures none { IfOk result (λ found. IsTrue H.tells → IfNone found (length ((H.world host.old).disk file).seen - at < size)) }
    ensures bad { (place : ℕ) → IsErrOf result (BlockFault.BadLength place) → ⊥ }
    ensures asked { IsTrue H.tells → OnlyAsked (H.world host.old) (H.world host.new) }
    ensures calls { HasCalled (BlockFaulted file) result H.is_ready H.faults host.old host.new }
{
    let mut body = vec![in alloc; 0u8; size as usize]?;
    if !read_full(host, file, at, &mut body)? {
        return Ok(None);
    }
    Ok(Some(List::from_vec(body)))
}

/// Reads the body of the block behind the gate at `gate_at`, and changes no file. `None` exactly where the gate isn't open.
/// `BadLength` names the place of the length field. After a body the next gate stands 5 bytes and the body's length on.
///
/// It takes as much memory as the length field says, once the file is seen to be that long: up to 4 GiB, in a file with a hole
/// too.
pub fn read_block<H: Host>(
    alloc: Global,
    host: &mut H,
    file: FileId,
    gate_at: u64,
) -> Result<Option<List<u8>>, BlockFault>
    requires file { MayAsk (H.is_ready host.old) file }
    requires manager { IsManager file }
    requires place { gate_at < 2 ^ 63 }

    ensures found { IfOk result (λ found. IsTrue H.tells → IsFoundAt gate_at ((H.world host.old).disk file).seen found) }

    // A body was spelled there, its length before it and the next gate behind it.
    ensures spelled { IfOk result (λ found. IsTrue H.tells → IfSome found (λ body.
        take (5 + length body) (drop gate_at ((H.world host.old).disk file).seen) ≡ block_at body)) }
    ensures small { IfOk result (λ found. IfSome found (λ body. length body < 2 ^ 32)) }
    ensures next { IfOk result (λ found. IfSome found (λ body. gate_at + 5 + length body < 2 ^ 63)) }

    ensures place { (place : ℕ) → IsErrOf result (BlockFault.BadLength place) → place ≡ gate_at + 1 }
    ensures bad { (place : ℕ) → IsErrOf result (BlockFault.BadLength place) → IsTrue H.tells
        → found_at gate_at ((H.world host.old).disk file).seen ≡ bad }

    ensures asked { IsTrue H.tells → OnlyAsked (H.world host.old) (H.world host.new) }

    // No count changes unless the answer is `Failed`; then the file's rose, and no other changed.
    ensures calls { HasCalled (BlockFaulted file) result H.is_ready H.faults host.old host.new }
{
    let bad = BlockFault::BadLength { place: gate_at + 1 };
    if !is_open(host, file, gate_at)? {
        return Ok(None);
    }
    let Some(size) = read_size(host, file, gate_at + 1)? else {
        return Err(bad);
    };
    let end = host.length(file)?;
    if end < gate_at + 6 + size as u64 {
        return Err(bad);
    }
    match read_body(alloc, host, file, gate_at + 5, size)? {
        Some(body) => Ok(Some(body)),
        None => Err(bad),
    }
}
