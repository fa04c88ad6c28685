ghost use Rattle.std.specs.Prelude.{◌≡◌, ◌≤◌, ◌==◌, nat_le, if◌then◌else◌, ℕ, IsTrue, slice_index, Some, None, OnOk, IfOk, IsErrOf};
ghost use Rattle.host_trait.specs.Files.{StaysReady};
ghost use Rattle.host_trait.specs.Faults.{Counted, HasCalled};
ghost use Rattle.host_trait.specs.Runs.{OnlyAsked};
ghost use Rattle.host_trait.specs.declared.channels.Channel.TheVariants.{File};
ghost use Rattle.host_trait.specs.declared.channels.FileId.{FileId};
ghost use Rattle.host_trait.specs.declared.channels.FileId.TheVariants.{Manager};
ghost use Rattle.log_reading.specs.declared.faults.FolderFault.{FolderFault};
ghost use Rattle.log_reading.specs.Counts.{ReadFaulted};
ghost use Rattle.log_reading.specs.Blocks.{header_damage};

use crate::faults::FolderFault;
use host_trait::{Failed, FileId, Host, read_full};

// A byte of a slot's manager file, 0 behind its end.
fn byte_at<H: Host>(host: &mut H, slot: u8, at: u64) -> Result<u8, Failed>
    requires slot { slot ≤ 1 }
    ensures told { IfOk result (λ byte. IsTrue H.tells → byte ≡ slice_index ((H.world host.old).disk (Manager slot)).seen at) }
    ensures asked { IsTrue H.tells → OnlyAsked (H.world host.old) (H.world host.new) }
    ensures faults { Counted (File (Manager slot)) result (H.faults host.old) (H.faults host.new) }
    ensures ready { StaysReady (H.is_ready host.old) (H.is_ready host.new) }
{
    let mut byte = [0];
    if !read_full(host, FileId::Manager { slot }, at, &mut byte)? {
        return Ok(0);
    }
    Ok(byte[0])
}

// The header's bytes 13 and 14.
fn header_bytes<H: Host>(host: &mut H, slot: u8) -> Result<(u8, u8), Failed>
    requires slot { slot ≤ 1 }
    ensures told { IfOk result (λ bytes. IsTrue H.tells
        → (bytes.0 ≡ slice_index ((H.world host.old).disk (Manager slot)).seen 13) × (bytes.1 ≡ slice_index ((H.world host.old).disk (Manager slot)).seen 14)) }
    ensures asked { IsTrue H.tells → OnlyAsked (H.world host.old) (H.world host.new) }
    ensures faults { Counted (File (Manager slot)) result (H.faults host.old) (H.faults host.new) }
    ensures ready { StaysReady (H.is_ready host.old) (H.is_ready host.new) }
{
    let begins = byte_at(host, slot, 13)?;
    let zero = byte_at(host, slot, 14)?;
    Ok((begins, zero))
}

// The first of these bytes that is damaged.
fn first_damage(begins: u8, zero: u8) -> Option<u64>
    ensures { result ≡ (if nat_le begins 1 then (if zero == 0 then None else Some 14) else Some 13) }
{
    if begins > 1 {
        return Some(13);
    }
    if zero != 0 {
        return Some(14);
    }
    None
}

/// Reads what stands between the generation and the first gate of a slot's manager file, and answers whether its log begins with a
/// checkpoint. `Damaged` names byte 13 where it is neither 0 nor 1, and else byte 14 where it isn't zero; `Failed` names that file, a
/// call on which failed.
pub fn check_header<H: Host>(host: &mut H, slot: u8) -> Result<bool, FolderFault>
    requires slot { slot ≤ 1 }
    ensures whole { OnOk result (IsTrue H.tells → header_damage ((H.world host.old).disk (Manager slot)).seen ≡ None) }
    ensures begins { IfOk result (λ saved. IsTrue H.tells → saved ≡ (slice_index ((H.world host.old).disk (Manager slot)).seen 13 == 1)) }
    ensures damaged { (file : FileId) (place : ℕ) → IsErrOf result (FolderFault.Damaged file place) → IsTrue H.tells
        → header_damage ((H.world host.old).disk (Manager slot)).seen ≡ Some place }
    ensures file { (file : FileId) (place : ℕ) → IsErrOf result (FolderFault.Damaged file place) → file ≡ Manager slot }
    ensures failed { (file : FileId) → IsErrOf result (FolderFault.Failed file) → file ≡ Manager slot }
    ensures asked { IsTrue H.tells → OnlyAsked (H.world host.old) (H.world host.new) }
    ensures calls { HasCalled ReadFaulted result H.is_ready H.faults host.old host.new }
{
    let file = FileId::Manager { slot };
    match header_bytes(host, slot) {
        Ok((begins, zero)) => match first_damage(begins, zero) {
            None => Ok(begins == 1),
            Some(place) => Err(FolderFault::Damaged { file, place }),
        },
        Err(Failed) => Err(FolderFault::Failed { file }),
    }
}
