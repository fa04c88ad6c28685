// The bytes of a slot's manager file: a byte that is read, and those that are written behind the closed header gate.
ghost use Rattle.std.specs.Prelude.{◌≡◌, ◌+◌, ◌^◌, ◌<◌, ◌≤◌, ℕ, length, slice_index, IsTrue, IfOk, OnOk, IsErrOf};
ghost use Rattle.host_trait.specs.Files.{StaysReady};
ghost use Rattle.host_trait.specs.Faults.{Counted, HasCalled};
ghost use Rattle.host_trait.specs.Runs.{RunsOnFile, OnlyAsked};
ghost use Rattle.host_trait.specs.declared.channels.Channel.TheVariants.{File};
ghost use Rattle.host_trait.specs.declared.channels.FileId.{FileId as AFile};
ghost use Rattle.host_trait.specs.declared.channels.FileId.TheVariants.{Manager};
ghost use Rattle.log_reading.specs.declared.faults.FolderFault.{FolderFault as AFault};
ghost use Rattle.log_reading.specs.Counts.{ReadFaulted};
ghost use Rattle.checkpoint.specs.Steps.{KeepsGate};
ghost use Rattle.checkpoint.specs.ManagerBytes.{behind_gate, HasWritten};

use host_trait::{Failed, FileId, Host, read_full};
use log_reading::FolderFault;

/// A byte of a slot's manager file, 0 where it doesn't go on so far.
pub(crate) fn byte_at<H: Host>(host: &mut H, slot: u8, at: u64) -> Result<u8, Failed>
    requires slot { slot ≤ 1 }
    ensures told { IfOk result (λ byte. IsTrue H.tells → byte ≡ slice_index ((H.world host.old).disk (Manager slot)).seen at) }
    ensures asked { IsTrue H.tells → OnlyAsked (H.world host.old) (H.world host.new) }
    ensures faults { Counted (File (Manager slot)) result (H.faults host.old) (H.faults host.new) }
    ensures ready { StaysReady (H.is_ready host.old) (H.is_ready host.new) }
{
    let mut byte = [0];
    if !read_full(host, FileId::Manager { slot }, at, &mut byte)? {
        return Ok(0);
    }
    Ok(byte[0])
}

/// Writes bytes into a slot's manager file from an offset on, which isn't byte 0, without a sync, and answers where they end.
pub(crate) fn put<H: Host>(
    host: &mut H,
    slot: u8,
    at: u64,
    bytes: &[u8],
) -> Result<u64, FolderFault>
    requires slot { slot ≤ 1 }
    requires behind { 1 ≤ at }
    requires place { IsTrue H.tells → at ≤ length ((H.world host.old).disk (Manager slot)).seen }
    ensures run { IsTrue H.tells → RunsOnFile (Manager slot) KeepsGate 0 (H.world host.old) (H.world host.new) }
    ensures written { OnOk result (IsTrue H.tells → HasWritten slot at bytes.now (H.world host.old) (H.world host.new)) }
    ensures end { IfOk result (λ end. (end ≡ at + length bytes.now) × (end < 2 ^ 63)) }
    ensures within { IfOk result (λ end. IsTrue H.tells → end ≤ length ((H.world host.new).disk (Manager slot)).seen) }
    ensures whole { (other : AFile) (place : ℕ) → IsErrOf result (AFault.Damaged other place) → ⊥ }
    ensures calls { HasCalled ReadFaulted result H.is_ready H.faults host.old host.new }
{
    let file = FileId::Manager { slot };
    match host.write_at(file, at, bytes) {
        Ok(()) => Ok(at + bytes.len() as u64),
        Err(Failed) => Err(FolderFault::Failed { file }),
    }
}

/// Writes what stands behind the header gate up to the first block's: the magic of the newer format, the generation, how the log begins,
/// and a zero. Answers where that ends.
pub(crate) fn put_header<H: Host>(
    host: &mut H,
    slot: u8,
    generation: u32,
    begins: u8,
) -> Result<u64, FolderFault>
    requires slot { slot ≤ 1 }
    requires place { IsTrue H.tells → 1 ≤ length ((H.world host.old).disk (Manager slot)).seen }
    ensures run { IsTrue H.tells → RunsOnFile (Manager slot) KeepsGate 0 (H.world host.old) (H.world host.new) }
    ensures written { OnOk result (IsTrue H.tells → HasWritten slot 1 (behind_gate generation begins) (H.world host.old) (H.world host.new)) }
    ensures end { IfOk result (λ end. end ≡ 15) }
    ensures within { OnOk result (IsTrue H.tells → 15 ≤ length ((H.world host.new).disk (Manager slot)).seen) }
    ensures whole { (other : AFile) (place : ℕ) → IsErrOf result (AFault.Damaged other place) → ⊥ }
    ensures calls { HasCalled ReadFaulted result H.is_ready H.faults host.old host.new }
{
    let mut header = *b"OTXLOG02\0\0\0\0\0\0";
    let (_, number) = header.split_at_mut(8);
    let (number, _) = number.split_at_mut(4);
    number.copy_from_slice(&generation.to_le_bytes());
    header[12] = begins;
    let end = put(host, slot, 1, &header)?;
    Ok(end)
}
