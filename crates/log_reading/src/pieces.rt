ghost use Rattle.std.specs.Prelude.{◌≡◌, ◌+◌, ◌^◌, ◌<◌, ◌≤◌, ℕ, IsTrue, length, Ok, Err, OnOk, IfOk, IfSome, IsErrOf, Bool, true};
ghost use Rattle.host_trait.specs.Faults.{HasCalled};
ghost use Rattle.host_trait.specs.Runs.{OnlyAsked};
ghost use Rattle.host_trait.specs.World.{Image};
ghost use Rattle.host_trait.specs.declared.channels.FileId.{FileId};
ghost use Rattle.host_trait.specs.declared.channels.FileId.TheVariants.{Grain};
ghost use Rattle.log_reading.specs.declared.faults.FolderFault.{FolderFault};
ghost use Rattle.log_reading.specs.Counts.{ReadFaulted};
ghost use Rattle.log_reading.specs.Steps.{seen_in};
ghost use Rattle.log_reading.specs.Versions.{version_named};
ghost use Rattle.grain_log.specs.Reads.{IsTextAt};
ghost use Rattle.log_reading.specs.Pieces.{IsPieceOf, IsTextIn, continues_piece};

use crate::faults::FolderFault;
use base_types::{GrainId, Shape, Version};
use commit_log::Named;
use field_codec::Format;
use grain_log::{VersionFault, named_in};
use host_trait::{Failed, FileId, Host};
use std::alloc::Global;

/// A part of a grain's file that is read at once, and the offset at which it begins.
#[derive(Drop)]
pub struct Piece {
    pub grain: GrainId,
    pub start: u64,
    pub bytes: Vec<u8>,
}

/// A piece without bytes. Takes no memory.
pub fn no_piece(alloc: Global) -> Piece
    ensures { (tells : Bool) (live : ℕ) (image : Image) → IsPieceOf tells live image result }
{
    Piece {
        grain: GrainId { kind: 0, key: 0 },
        start: 0,
        bytes: Vec::new(alloc),
    }
}

// Whether a range of a piece lies in it.
fn lies_in(from: u64, len: u32, size: usize) -> bool
    ensures { result ≡ true → from + len ≤ size }
{
    from <= size as u64 && len as u64 <= size as u64 - from
}

/// The bytes at a place that is named, none where they aren't in the piece.
pub fn text_in(piece: &Piece, named: Named) -> Option<&[u8]>
    ensures { IfSome result (λ text. IsTextIn piece.now named text.now) }
{
    let place = named.written.place;
    if named.written.grain != piece.grain {
        return None;
    }
    if place.offset < piece.start {
        return None;
    }
    let from = place.offset - piece.start;
    if !lies_in(from, place.len, piece.bytes.len()) {
        return None;
    }
    let rest = &piece.bytes[from as usize..];
    Some(&rest[..place.len as usize])
}

/// The version that is named in a slot's files, from the bytes that stand at its place.
pub fn version_of(
    alloc: Global,
    slot: u8,
    shape: &Shape,
    format: Format,
    named: Named,
    text: &[u8],
) -> Result<Version, FolderFault>
    requires size { length text.now ≡ named.written.place.len }
    ensures found { IfOk result (λ version. (image : Image) → IsTextAt named.written.place (image (Grain slot named.written.grain)) text.now
        → version_named slot format shape.now image named ≡ Ok version) }
    ensures damaged { (file : FileId) (place : ℕ) → IsErrOf result (FolderFault.Damaged file place)
        → (image : Image) → IsTextAt named.written.place (image (Grain slot named.written.grain)) text.now
        → version_named slot format shape.now image named ≡ Err place }
    ensures file { (file : FileId) (place : ℕ) → IsErrOf result (FolderFault.Damaged file place) → file ≡ Grain slot named.written.grain }
    ensures quiet { (file : FileId) → IsErrOf result (FolderFault.Failed file) → ⊥ }
{
    let grain = named.written.grain;
    let file = FileId::Grain { slot, grain };
    match named_in(
        alloc,
        text,
        file,
        named.unit,
        named.written.place,
        shape,
        format,
    ) {
        Ok(version) => Ok(version),
        Err(VersionFault::Damaged { place }) => Err(FolderFault::Damaged { file, place }),
        Err(VersionFault::Failed) => Err(FolderFault::Failed { file }),
        Err(VersionFault::Memory) => Err(FolderFault::Memory),
    }
}

// Whether a version stands behind so many bytes of a piece that begins at an offset, and ends within 65,536 bytes of it.
fn continues_piece(grain: GrainId, start: u64, size: usize, named: Named) -> bool
    requires low { start < 2 ^ 62 }
    requires size { size ≤ 65536 }
    ensures { result ≡ continues_piece grain start size named }
{
    let place = named.written.place;
    named.written.grain == grain
        && place.offset == start + size as u64
        && place.len as u64 <= 65536 - size as u64
}

// How many bytes to read at once from an offset of a grain's file on: those of the first of these versions, as far as they are
// the grain's and one stands behind the other, and at most 65,536.
fn run_of(grain: GrainId, start: u64, named: &[Named]) -> usize
    requires { start < 2 ^ 62 }
    ensures { result ≤ 65536 }
{
    let mut size = 0usize;
    for one in named {
        if !continues_piece(grain, start, size, *one) {
            return size;
        }
        size += one.written.place.len as usize;
    }
    size
}

// Reads so many bytes from an offset of a grain's file in a slot on, or as many as it has there.
fn read_piece<H: Host>(
    alloc: Global,
    host: &mut H,
    slot: u8,
    grain: GrainId,
    start: u64,
    size: usize,
) -> Result<Piece, FolderFault>
    requires slot { slot ≤ 1 }
    requires size { start + size < 2 ^ 63 }
    ensures piece { IfOk result (λ piece. IsPieceOf H.tells slot (seen_in (H.world host.old).disk) piece) }
    ensures failed { (file : FileId) → IsErrOf result (FolderFault.Failed file) → file ≡ Grain slot grain }
    ensures quiet { (file : FileId) (place : ℕ) → IsErrOf result (FolderFault.Damaged file place) → ⊥ }
    ensures asked { IsTrue H.tells → OnlyAsked (H.world host.old) (H.world host.new) }
    ensures calls { HasCalled ReadFaulted result H.is_ready H.faults host.old host.new }
{
    let file = FileId::Grain { slot, grain };
    let mut bytes = vec![in alloc; 0u8; size]?;
    host.ready(file)?;
    match host.read_at(file, start, &mut bytes) {
        Ok(count) => {
            bytes.truncate(count);
            Ok(Piece {
                grain,
                start,
                bytes,
            })
        }
        Err(Failed) => Err(FolderFault::Failed { file }),
    }
}

/// Reads the piece that begins with the first of these versions, where that one isn't in the piece at hand: it and those behind it,
/// as far as they stand one behind the other in its grain's file in the slot, at most 65,536 bytes; none where the first is longer.
/// Nothing is read but named versions.
pub fn refill<H: Host>(
    alloc: Global,
    host: &mut H,
    slot: u8,
    piece: &mut Piece,
    first: Named,
    named: &[Named],
) -> Result<(), FolderFault>
    requires slot { slot ≤ 1 }
    requires piece { IsPieceOf H.tells slot (seen_in (H.world host.old).disk) piece.old }
    ensures piece { OnOk result (IsPieceOf H.tells slot (seen_in (H.world host.old).disk) piece.new) }
    ensures failed { (file : FileId) → IsErrOf result (FolderFault.Failed file) → file ≡ Grain slot first.written.grain }
    ensures quiet { (file : FileId) (place : ℕ) → IsErrOf result (FolderFault.Damaged file place) → ⊥ }
    ensures asked { IsTrue H.tells → OnlyAsked (H.world host.old) (H.world host.new) }
    ensures calls { HasCalled ReadFaulted result H.is_ready H.faults host.old host.new }
{
    if text_in(piece, first).is_some() {
        return Ok(());
    }
    let grain = first.written.grain;
    let start = first.written.place.offset;
    if start >= 4611686018427387904 {
        return Ok(());
    }
    let size = run_of(grain, start, named);
    if size == 0 {
        return Ok(());
    }
    *piece = read_piece(alloc, host, slot, grain, start, size)?;
    Ok(())
}
