// Each grain's last version, copied into the files of the slot that isn't live, as the program in force has it.
ghost use Rattle.std.specs.Prelude.{◌≡◌, ◌-◌, ◌≤◌, ◌∷◌, [], ℕ, None, map, length, IsTrue, IfOk, OnOk, IsErrOf, Ok};
ghost use Rattle.std.specs.List.{AllZip};
ghost use Rattle.base_types.specs.declared.stores.Version.{Version as AVersion};
ghost use Rattle.host_trait.specs.Files.{HasSlot};
ghost use Rattle.host_trait.specs.Faults.{HasCalled};
ghost use Rattle.host_trait.specs.Runs.{OnlyAsked, RunsOnFile};
ghost use Rattle.host_trait.specs.declared.channels.FileId.{FileId as AFile};
ghost use Rattle.host_trait.specs.declared.channels.FileId.TheVariants.{Grain};
ghost use Rattle.field_codec.specs.declared.formats.Format.TheVariants.{Two};
ghost use Rattle.field_codec.specs.Spelling.{spelling_of_version, VersionFits};
ghost use Rattle.commit_log.specs.Orders.{IsAscending};
ghost use Rattle.log_reading.specs.declared.faults.FolderFault.{FolderFault as AFault};
ghost use Rattle.log_reading.specs.Counts.{ReadFaulted};
ghost use Rattle.log_reading.specs.Steps.{seen_in};
ghost use Rattle.log_reading.specs.Versions.{version_numbered};
ghost use Rattle.program_file.specs.Succession.{ArePrograms, newest_program, shapes_in_turn};
ghost use Rattle.program_file.specs.ProgramsInTurn.{programs_in, HasShapes, HasItsFields};
ghost use Rattle.checkpoint.specs.Steps.{MayBeAny, OnlyCopies};
ghost use Rattle.checkpoint.specs.Copies.{AreThere, StandsFirst, IsMeantVersion, IsCopied};

use base_types::{List, Place, Version};
use commit_log::{Named, Written};
use field_codec::Format;
use grain_log::{LogFault, write_versions};
use host_trait::{FileId, Host};
use log_reading::{FolderFault, named_version};
use program_file::ProgramsInTurn;
use std::alloc::{AllocError, Global};

// A list of one version.
fn alone(alloc: Global, version: Version) -> Result<List<Version>, AllocError>
    ensures { IfOk result (λ list. list ≡ version ∷ []) }
{
    let mut list = List::new(alloc);
    list.push(version)?;
    Ok(list)
}

// Writes a version at the start of a grain's file, syncs that, and answers the version's place.
fn put_version<H: Host>(
    alloc: Global,
    host: &mut H,
    file: FileId,
    version: Version,
) -> Result<Place, FolderFault>
    requires slot { HasSlot file }
    ensures run { IsTrue H.tells → RunsOnFile file MayBeAny 1 (H.world host.old) (H.world host.new) }
    ensures stands { OnOk result (IsTrue H.tells → StandsFirst version ((H.world host.new).disk file)) }
    ensures place { IfOk result (λ place. place ≡ record { offset = 0; len = length (spelling_of_version version) }) }
    ensures fits { OnOk result (VersionFits Two version) }
    ensures whole { (other : AFile) (place : ℕ) → IsErrOf result (AFault.Damaged other place) → ⊥ }
    ensures calls { HasCalled ReadFaulted result H.is_ready H.faults host.old host.new }
{
    let versions = alone(alloc, version)?;
    match write_versions(alloc, host, file, 0, &versions) {
        Ok(places) => Ok(places.as_slice()[0]),
        Err(LogFault::Failed) => Err(FolderFault::Failed { file }),
        Err(LogFault::Memory) => Err(FolderFault::Memory),
    }
}

// The fault of a version whose program the log doesn't have: it isn't there.
fn missing(live: u8, named: Named) -> FolderFault
    ensures { result ≡ AFault.Damaged (Grain live named.written.grain) named.written.place.offset }
{
    FolderFault::Damaged {
        file: FileId::Grain {
            slot: live,
            grain: named.written.grain,
        },
        place: named.written.place.offset,
    }
}

// A version that is named in the live slot's files, as the program in force has it.
fn carried_version<H: Host>(
    alloc: Global,
    host: &mut H,
    live: u8,
    programs: &ProgramsInTurn,
    named: Named,
) -> Result<Version, FolderFault>
    requires slot { live ≤ 1 }
    requires shapes { HasShapes programs.now }
    requires programs { ArePrograms (programs_in programs.now) }
    ensures carried { IfOk result (λ version. IsTrue H.tells
        → IsMeantVersion live (programs_in programs.now) (seen_in (H.world host.old).disk) named version) }
    ensures typed { IfOk result (λ version. HasItsFields (newest_program (programs_in programs.now)) named.written.grain version.state) }
    ensures damaged { (file : AFile) (place : ℕ) → IsErrOf result (AFault.Damaged file place) → IsTrue H.tells → (version : AVersion)
        → version_numbered live Two (shapes_in_turn (programs_in programs.now)) (seen_in (H.world host.old).disk) named ≡ Ok version → ⊥ }
    ensures asked { IsTrue H.tells → OnlyAsked (H.world host.old) (H.world host.new) }
    ensures calls { HasCalled ReadFaulted result H.is_ready H.faults host.old host.new }
{
    if named.program > programs.newest() {
        return Err(missing(live, named));
    }
    let shape = programs.shape(named.program);
    let version = match named_version(alloc, host, live, shape, Format::Two, named) {
        Ok(version) => version,
        Err(fault) => return Err(fault),
    };
    let unit = version.unit;
    let state = programs.carried(alloc, named.program, named.written.grain, version.state)?;
    Ok(Version { unit, state })
}

// Copies a version that is named in the live slot's files, as the program in force has it, to the start of its grain's file in the
// other slot, syncs that file, and answers how the copy is named there.
fn copy_version<H: Host>(
    alloc: Global,
    host: &mut H,
    live: u8,
    programs: &ProgramsInTurn,
    named: Named,
) -> Result<Named, FolderFault>
    requires slot { live ≤ 1 }
    requires shapes { HasShapes programs.now }
    requires programs { ArePrograms (programs_in programs.now) }
    ensures run { IsTrue H.tells → RunsOnFile (Grain (1 - live) named.written.grain) MayBeAny 1 (H.world host.old) (H.world host.new) }
    ensures copied { IfOk result (λ copy. IsTrue H.tells
        → IsCopied live (programs_in programs.now) (seen_in (H.world host.old).disk) (H.world host.new).disk named copy) }
    ensures damaged { (file : AFile) (place : ℕ) → IsErrOf result (AFault.Damaged file place) → IsTrue H.tells → (version : AVersion)
        → version_numbered live Two (shapes_in_turn (programs_in programs.now)) (seen_in (H.world host.old).disk) named ≡ Ok version → ⊥ }
    ensures calls { HasCalled ReadFaulted result H.is_ready H.faults host.old host.new }
{
    let version = match carried_version(alloc, host, live, programs, named) {
        Ok(version) => version,
        Err(fault) => return Err(fault),
    };
    let grain = named.written.grain;
    let file = FileId::Grain {
        slot: 1 - live,
        grain,
    };
    let place = put_version(alloc, host, file, version)?;
    Ok(Named {
        unit: None,
        program: 0,
        written: Written { grain, place },
    })
}

/// Copies each of these versions, which are named in the live slot's files, one of a grain, to the start of its grain's file in the
/// other slot, with the state that it has under the last of these programs: one by one, with a sync of each. In the place of each name
/// stands then that of its copy. `Failed` names the file that couldn't be read or written.
pub fn copy_versions<H: Host>(
    alloc: Global,
    host: &mut H,
    live: u8,
    programs: &ProgramsInTurn,
    latest: &mut [Named],
) -> Result<(), FolderFault>
    requires slot { live ≤ 1 }
    requires shapes { HasShapes programs.now }
    requires programs { ArePrograms (programs_in programs.now) }
    requires order { IsTrue H.tells → IsAscending None (map (λ n. n.written) latest.old) }

    // Nothing changes but files of grains in the other slot, and a copy of each version stands there.
    ensures only { IsTrue H.tells → OnlyCopies (1 - live) (H.world host.old) (H.world host.new) }
    ensures copied { OnOk result (IsTrue H.tells
        → AllZip (IsCopied live (programs_in programs.now) (seen_in (H.world host.old).disk) (H.world host.new).disk) latest.old latest.new) }

    // Where each is there, none is found damaged.
    ensures damaged { (file : AFile) (place : ℕ) → IsErrOf result (AFault.Damaged file place) → IsTrue H.tells
        → AreThere live (shapes_in_turn (programs_in programs.now)) (seen_in (H.world host.old).disk) latest.old → ⊥ }

    ensures calls { HasCalled ReadFaulted result H.is_ready H.faults host.old host.new }
{
    for named in latest.iter_mut() {
        *named = copy_version(alloc, host, live, programs, *named)?;
    }
    Ok(())
}
