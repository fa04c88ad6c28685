ghost use Rattle.std.specs.Prelude.{◌≡◌, ◌+◌, ◌^◌, ◌<◌, ◌≤◌, ℕ, List, IsTrue, true, false, if◌then◌else◌, length, take, drop, slice_get, Ok, Err, Some, None, OnOk, IfOk, IfErr, IsErrOf};
ghost use Rattle.std.specs.Option.{option_copied};
ghost use Rattle.std.specs.Int.{w64, to_le_bytes};
ghost use Rattle.base_types.specs.declared.calls.GrainId.{GrainId};
ghost use Rattle.base_types.specs.Stores.{end_in};
ghost use Rattle.base_types.specs.Places.{placed_in};
ghost use Rattle.host_trait.specs.Files.{MayAsk};
ghost use Rattle.host_trait.specs.Faults.{Counted, HasCalled};
ghost use Rattle.host_trait.specs.Runs.{OnlyAsked};
ghost use Rattle.host_trait.specs.declared.channels.FileId.{FileId};
ghost use Rattle.host_trait.specs.declared.channels.FileId.TheVariants.{Grain};
ghost use Rattle.host_trait.specs.declared.channels.Channel.TheVariants.{File};
ghost use Rattle.program_file.specs.Succession.{shapes_in_turn};
ghost use Rattle.program_file.specs.ProgramsInTurn.{programs_in, HasShapes};
ghost use Rattle.log_reading.specs.declared.faults.FolderFault.{FolderFault};
ghost use Rattle.log_reading.specs.Counts.{ReadFaulted};
ghost use Rattle.log_reading.specs.Steps.{seen_in};
ghost use Rattle.host_trait.specs.Files.{same_grain};
ghost use Rattle.log_reading.specs.Pieces.{IsPieceOf};
ghost use Rattle.log_reading.specs.Versions.{version_named, version_numbered, IsNearPlace, IsTyped};
ghost use Rattle.log_reading.specs.Sums.{placed_as, end_after, greater_end, AreNear, AreOfPrograms, AreKept, AreUnread};

use crate::faults::FolderFault;
use crate::pieces::{Piece, no_piece, refill, text_in, version_of};
use base_types::{Ends, Place, Placed, Places, Shape, Version};
use commit_log::Named;
use field_codec::Format;
use grain_log::{VersionFault, read_named};
use host_trait::{FileId, Host};
use program_file::{NumberedVersion, ProgramsInTurn};
use std::alloc::Global;

/// The version that is named in a slot's files, or the first place at which its file is damaged: it is the unit's, and has its
/// type's fields. `Failed` where a call on that file failed; `Memory` may come at any place. Nothing is written.
pub fn named_version<H: Host>(
    alloc: Global,
    host: &mut H,
    slot: u8,
    shape: &Shape,
    format: Format,
    named: Named,
) -> Result<Version, FolderFault>
    requires slot { slot ≤ 1 }
    ensures found { IfOk result (λ version. IsTrue H.tells → version_named slot format shape.now (seen_in (H.world host.old).disk) named ≡ Ok version) }
    ensures shaped { IfOk result (λ version. IsTyped format shape.now named version) }
    ensures near { OnOk result (IsNearPlace named.written.place) }
    ensures damaged { (file : FileId) (place : ℕ) → IsErrOf result (FolderFault.Damaged file place) → IsTrue H.tells
        → version_named slot format shape.now (seen_in (H.world host.old).disk) named ≡ Err place }
    ensures file { (file : FileId) (place : ℕ) → IsErrOf result (FolderFault.Damaged file place) → file ≡ Grain slot named.written.grain }
    ensures failed { (file : FileId) → IsErrOf result (FolderFault.Failed file) → file ≡ Grain slot named.written.grain }
    ensures asked { IsTrue H.tells → OnlyAsked (H.world host.old) (H.world host.new) }
    ensures calls { HasCalled ReadFaulted result H.is_ready H.faults host.old host.new }
{
    let grain = named.written.grain;
    let file = FileId::Grain { slot, grain };
    match read_named(
        alloc,
        host,
        file,
        named.unit,
        named.written.place,
        shape,
        format,
    ) {
        Ok(version) => Ok(version),
        Err(VersionFault::Damaged { place }) => Err(FolderFault::Damaged { file, place }),
        Err(VersionFault::Failed) => Err(FolderFault::Failed { file }),
        Err(VersionFault::Memory) => Err(FolderFault::Memory),
    }
}

// The version that is named, as `named_version` answers it: from a piece of its file where it lies in that, and else by a read of
// its own.
fn next_version<H: Host>(
    alloc: Global,
    host: &mut H,
    slot: u8,
    shape: &Shape,
    format: Format,
    piece: &Piece,
    named: Named,
) -> Result<Version, FolderFault>
    requires slot { slot ≤ 1 }
    requires piece { IsPieceOf H.tells slot (seen_in (H.world host.old).disk) piece.now }
    ensures found { IfOk result (λ version. IsTrue H.tells → version_named slot format shape.now (seen_in (H.world host.old).disk) named ≡ Ok version) }
    ensures near { OnOk result (IsNearPlace named.written.place) }
    ensures damaged { (file : FileId) (place : ℕ) → IsErrOf result (FolderFault.Damaged file place) → IsTrue H.tells
        → version_named slot format shape.now (seen_in (H.world host.old).disk) named ≡ Err place }
    ensures file { (file : FileId) (place : ℕ) → IsErrOf result (FolderFault.Damaged file place) → file ≡ Grain slot named.written.grain }
    ensures failed { (file : FileId) → IsErrOf result (FolderFault.Failed file) → file ≡ Grain slot named.written.grain }
    ensures asked { IsTrue H.tells → OnlyAsked (H.world host.old) (H.world host.new) }
    ensures calls { HasCalled ReadFaulted result H.is_ready H.faults host.old host.new }
{
    match text_in(piece, named) {
        Some(text) => version_of(alloc, slot, shape, format, named, text),
        None => named_version(alloc, host, slot, shape, format, named),
    }
}

/// The shape of a number among those of the programs, none where there is none.
pub(crate) fn shape_at(shapes: &[Shape], number: u32) -> Option<&Shape>
    ensures { option_copied result ≡ slice_get shapes.now number }
{
    shapes.get(number as usize)
}

// The version that is named, by the shape of the program of its time, as `next_version` answers it.
fn numbered_version<H: Host>(
    alloc: Global,
    host: &mut H,
    slot: u8,
    shapes: &[Shape],
    format: Format,
    piece: &Piece,
    named: Named,
) -> Result<Version, FolderFault>
    requires slot { slot ≤ 1 }
    requires piece { IsPieceOf H.tells slot (seen_in (H.world host.old).disk) piece.now }
    ensures found { IfOk result (λ version. IsTrue H.tells → version_numbered slot format shapes.now (seen_in (H.world host.old).disk) named ≡ Ok version) }
    ensures near { OnOk result (IsNearPlace named.written.place) }
    ensures numbered { OnOk result (named.program < length shapes.now) }
    ensures damaged { (file : FileId) (place : ℕ) → IsErrOf result (FolderFault.Damaged file place) → IsTrue H.tells
        → version_numbered slot format shapes.now (seen_in (H.world host.old).disk) named ≡ Err place }
    ensures file { (file : FileId) (place : ℕ) → IsErrOf result (FolderFault.Damaged file place) → file ≡ Grain slot named.written.grain }
    ensures failed { (file : FileId) → IsErrOf result (FolderFault.Failed file) → file ≡ Grain slot named.written.grain }
    ensures asked { IsTrue H.tells → OnlyAsked (H.world host.old) (H.world host.new) }
    ensures calls { HasCalled ReadFaulted result H.is_ready H.faults host.old host.new }
{
    let grain = named.written.grain;
    let Some(shape) = shape_at(shapes, named.program) else {
        return Err(FolderFault::Damaged {
            file: FileId::Grain { slot, grain },
            place: named.written.place.offset,
        });
    };
    next_version(alloc, host, slot, shape, format, piece, named)
}

// The greater of an end and one that may be missing.
fn greater_end(last: Option<u64>, end: u64) -> u64
    ensures { greater_end last end ≡ Some result }
{
    match last {
        Some(last) => { if last < end { end } else { last } }
        None => end,
    }
}

// That a version stands at a place which the log that is opened names, as what it means under the last of the programs.
fn placed_as(programs: &ProgramsInTurn, place: Place, read: &NumberedVersion) -> Placed
    ensures { result ≡ placed_as (programs_in programs.now) read.now.grain place read.now.program read.now.version }
{
    Placed {
        place,
        program: read.program,
        is_new: false,
        known: ProgramsInTurn::known(programs, read),
    }
}

// Gives a version's grain its place, and its file the later end.
fn keep(
    programs: &ProgramsInTurn,
    places: &mut Places,
    ends: &mut Ends,
    place: Place,
    read: &NumberedVersion,
) -> Result<(), FolderFault>
    requires { place.offset + place.len < 2 ^ 63 }
    ensures places { OnOk result ((grain : GrainId) → placed_in places.new grain
        ≡ (if same_grain read.now.grain grain then Some (placed_as (programs_in programs.now) read.now.grain place read.now.program read.now.version)
        else placed_in places.old grain)) }
    ensures ends { OnOk result ((grain : GrainId) → end_in ends.new grain
        ≡ (if same_grain read.now.grain grain then greater_end (end_in ends.old grain) (place.offset + place.len) else end_in ends.old grain)) }
    ensures memory { IfErr result (λ e. e ≡ FolderFault.Memory) }
{
    let grain = read.grain;
    places.put(grain, placed_as(programs, place, read))?;
    let end = greater_end(ends.get(grain), place.offset + place.len as u64);
    ends.put(grain, end)?;
    Ok(())
}

/// Reads these versions one by one, in pieces of a slot's files, and keeps where the last one of each grain stands and the greatest end
/// in its file, which lies below 2^63, and no state. Each is read by the shape of the program of its time, and contracts know it as
/// what it means under the last. `Damaged` names the first that isn't there, and `Failed` the file of one before which all are there.
pub fn read_versions<H: Host>(
    alloc: Global,
    host: &mut H,
    slot: u8,
    programs: &ProgramsInTurn,
    format: Format,
    named: &[Named],
    places: &mut Places,
    ends: &mut Ends,
) -> Result<(), FolderFault>
    requires slot { slot ≤ 1 }
    requires shapes { HasShapes programs.now }
    ensures kept { OnOk result (IsTrue H.tells
        → AreKept slot format (programs_in programs.now) (seen_in (H.world host.old).disk) named.now places.old places.new) }
    ensures ends { OnOk result ((grain : GrainId) → end_in ends.new grain ≡ end_after (end_in ends.old grain) named.now grain) }
    ensures near { OnOk result (AreNear ends.old → AreNear ends.new) }
    ensures numbered { OnOk result (AreOfPrograms (length (programs_in programs.now)) places.old
        → AreOfPrograms (length (programs_in programs.now)) places.new) }
    ensures unread { IfErr result (λ e. IsTrue H.tells
        → AreUnread slot format (shapes_in_turn (programs_in programs.now)) (seen_in (H.world host.old).disk) named.now e) }
    ensures asked { IsTrue H.tells → OnlyAsked (H.world host.old) (H.world host.new) }
    ensures calls { HasCalled ReadFaulted result H.is_ready H.faults host.old host.new }
{
    let mut piece = no_piece(alloc);
    let mut at = 0;
    for one in named {
        refill(alloc, host, slot, &mut piece, *one, &named[at..])?;
        let version = numbered_version(alloc, host, slot, programs.shapes(), format, &piece, *one)?;
        let read = NumberedVersion {
            program: one.program,
            grain: one.written.grain,
            version,
        };
        keep(programs, places, ends, one.written.place, &read)?;
        at += 1;
    }
    Ok(())
}
