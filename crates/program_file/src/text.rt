ghost use Rattle.std.specs.Prelude.{◌≡◌, ◌+◌, ◌-◌, ◌^◌, ◌<◌, ◌≤◌, ℕ, List, IsTrue, length, take, drop, Ok, Err, IfOk, IfErr, IfSome, IfNone, IsErrOf};
ghost use Rattle.std.specs.Int.{w32, from_le_bytes};
ghost use Rattle.host_trait.specs.Files.{StaysReady};
ghost use Rattle.host_trait.specs.Faults.{Counted, HasCalled};
ghost use Rattle.host_trait.specs.Runs.{OnlyAsked};
ghost use Rattle.host_trait.specs.declared.channels.Channel.TheVariants.{File};
ghost use Rattle.host_trait.specs.declared.channels.FileId.TheVariants.{Program as ProgramFile};
ghost use Rattle.program_file.specs.declared.faults.ProgramFileFault.{ProgramFileFault as Fault};
ghost use Rattle.program_file.specs.Files.{text_in_file, sized};
ghost use Rattle.program_file.specs.Answers.{FileFaulted};

use crate::faults::ProgramFileFault;
use host_trait::{Failed, FileId, Host, read_full};
use std::alloc::Global;

// The number that a length field spells.
fn number(field: [u8; 4]) -> u32
    ensures { result ≡ from_le_bytes w32 field }
{
    u32::from_le_bytes(field)
}

// The number that the length field of a slot's program file says, none where the file ends before it does.
fn read_size<H: Host>(host: &mut H, slot: u8) -> Result<Option<u32>, Failed>
    requires slot { slot ≤ 1 }
    ensures some { IfOk result (λ found. IsTrue H.tells
        → IfSome found (λ size. size ≡ from_le_bytes w32 (take 4 ((H.world host.old).disk (ProgramFile slot)).seen))) }
    ensures none { IfOk result (λ found. IsTrue H.tells → IfNone found (length ((H.world host.old).disk (ProgramFile slot)).seen < 4)) }
    ensures asked { IsTrue H.tells → OnlyAsked (H.world host.old) (H.world host.new) }
    ensures faults { Counted (File (ProgramFile slot)) result (H.faults host.old) (H.faults host.new) }
    ensures ready { StaysReady (H.is_ready host.old) (H.is_ready host.new) }
{
    let mut field = [0; 4];
    if !read_full(host, FileId::Program { slot }, 0, &mut field)? {
        return Ok(None);
    }
    Ok(Some(number(field)))
}

// How long a slot's program file is.
fn read_length<H: Host>(host: &mut H, slot: u8) -> Result<u64, Failed>
    requires slot { slot ≤ 1 }
    ensures len { IfOk result (λ n. IsTrue H.tells → n ≡ length ((H.world host.old).disk (ProgramFile slot)).seen) }
    ensures asked { IsTrue H.tells → OnlyAsked (H.world host.old) (H.world host.new) }
    ensures faults { Counted (File (ProgramFile slot)) result (H.faults host.old) (H.faults host.new) }
    ensures ready { StaysReady (H.is_ready host.old) (H.is_ready host.new) }
{
    let n = host.length(FileId::Program { slot })?;
    Ok(n)
}

// How long the text in a file of this length is, by its length field; else where the file is damaged.
fn text_size(end: u64, size: u32) -> Result<u32, u64>
    ensures ok { IfOk result (λ n. (n ≡ size) × ((size ≤ 262144) × (4 + size ≤ end))) }
    ensures err { IfErr result (λ place. sized end size ≡ Err place) }
    ensures sized { IfOk result (λ n. sized end size ≡ Ok n) }
{
    if size > 262144 {
        return Err(0);
    }
    if end < 4 + size as u64 {
        return Err(end);
    }
    Ok(size)
}

/// The text of a slot's program file, of at most 262,144 bytes, or where the file is damaged.
pub fn read_text<H: Host>(
    alloc: Global,
    host: &mut H,
    slot: u8,
) -> Result<Vec<u8>, ProgramFileFault>
    requires slot { slot ≤ 1 }
    ensures found { IfOk result (λ text. IsTrue H.tells → text_in_file ((H.world host.old).disk (ProgramFile slot)).seen ≡ Ok text.items) }
    ensures small { IfOk result (λ text. length text.items ≤ 262144) }
    ensures damaged { (place : ℕ) → IsErrOf result (Fault.Damaged place) → IsTrue H.tells
        → text_in_file ((H.world host.old).disk (ProgramFile slot)).seen ≡ Err place }
    ensures asked { IsTrue H.tells → OnlyAsked (H.world host.old) (H.world host.new) }
    ensures calls { HasCalled (FileFaulted slot) result H.is_ready H.faults host.old host.new }
{
    let end = read_length(host, slot)?;
    let damaged = ProgramFileFault::Damaged { place: end };
    if end < 4 {
        return Err(damaged);
    }
    let Some(size) = read_size(host, slot)? else {
        return Err(damaged);
    };
    let size = match text_size(end, size) {
        Ok(size) => size,
        Err(place) => return Err(ProgramFileFault::Damaged { place }),
    };
    let mut text = vec![in alloc; 0u8; size as usize]?;
    if !read_full(host, FileId::Program { slot }, 4, &mut text)? {
        return Err(damaged);
    }
    Ok(text)
}
