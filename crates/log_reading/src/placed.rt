ghost use Rattle.std.specs.Prelude.{◌≡◌, ◌≤◌, List, IsTrue, map, OnOk, IfOk, IfErr, Some, None, Ok};
ghost use Rattle.base_types.specs.declared.calls.GrainId.{GrainId as AGrain};
ghost use Rattle.base_types.specs.Stores.{state_in};
ghost use Rattle.base_types.specs.Places.{placed_in};
ghost use Rattle.host_trait.specs.Faults.{HasCalled};
ghost use Rattle.host_trait.specs.Runs.{OnlyAsked};
ghost use Rattle.script_tree.specs.Programs.{ProgramTree, program_tree};
ghost use Rattle.program_file.specs.Succession.{ArePrograms, shapes_in_turn, carried_from};
ghost use Rattle.program_file.specs.ProgramsInTurn.{HasFieldsUnder};
ghost use Rattle.log_reading.specs.Counts.{ReadFaulted};
ghost use Rattle.log_reading.specs.Steps.{seen_in};
ghost use Rattle.log_reading.specs.PlacedVersions.{fault_of, placed_numbered, state_placed, state_reread, states_reread, IsUnreadAt};

use crate::faults::FolderFault;
use crate::versions::shape_at;
use base_types::{GrainId, Placed, Places, Shape, State, Store, Version};
use field_codec::Format;
use grain_log::{VersionFault, read_version};
use host_trait::{FileId, Host};
use program_file::shapes_in_turn;
use script_check::{Checked, carry_along};
use std::alloc::{AllocError, Global};

// The fault of a version of a grain's file.
fn fault_of(slot: u8, grain: GrainId, fault: VersionFault) -> FolderFault
    ensures { result ≡ fault_of slot grain fault }
{
    let file = FileId::Grain { slot, grain };
    match fault {
        VersionFault::Damaged { place } => FolderFault::Damaged { file, place },
        VersionFault::Failed => FolderFault::Failed { file },
        VersionFault::Memory => FolderFault::Memory,
    }
}

// What a state of a grain means that it has under the program of a number: it is carried to each later one in turn.
fn carried(
    alloc: Global,
    programs: &[Checked],
    number: u32,
    grain: GrainId,
    state: State,
) -> Result<State, AllocError>
    requires programs { ArePrograms (map program_tree programs.now) }
    requires typed { HasFieldsUnder (map program_tree programs.now) number grain state }
    ensures { IfOk result (λ made. made ≡ carried_from (map program_tree programs.now) number grain.kind state) }
{
    let first = number as usize;
    carry_along(
        alloc,
        &programs[first],
        &programs[first + 1..],
        grain.kind,
        state,
    )
}

// The version at a grain's place, by the shape of the program under which it was written.
fn placed_version<H: Host>(
    alloc: Global,
    host: &mut H,
    slot: u8,
    shapes: &[Shape],
    format: Format,
    grain: GrainId,
    placed: &Placed,
) -> Result<Version, FolderFault>
    requires slot { slot ≤ 1 }
    ensures found { IfOk result (λ version. IsTrue H.tells
        → placed_numbered slot format shapes.now (seen_in (H.world host.old).disk) grain placed.now ≡ Ok version) }
    ensures typed { (programs : List ProgramTree) → shapes.now ≡ shapes_in_turn programs
        → IfOk result (λ version. HasFieldsUnder programs placed.now.program grain version.state) }
    ensures unread { IfErr result (λ e. IsTrue H.tells
        → IsUnreadAt slot format shapes.now (seen_in (H.world host.old).disk) grain (Some placed.now) e) }
    ensures asked { IsTrue H.tells → OnlyAsked (H.world host.old) (H.world host.new) }
    ensures calls { HasCalled ReadFaulted result H.is_ready H.faults host.old host.new }
{
    let file = FileId::Grain { slot, grain };
    let Some(shape) = shape_at(shapes, placed.program) else {
        return Err(FolderFault::Damaged {
            file,
            place: placed.place.offset,
        });
    };
    match read_version(alloc, host, file, placed.place, shape, format) {
        Ok(version) => Ok(version),
        Err(fault) => Err(fault_of(slot, grain, fault)),
    }
}

// Gives a grain the state that the version at its place means. Where it has no place, all stays as it was.
fn read_state<H: Host>(
    alloc: Global,
    host: &mut H,
    slot: u8,
    programs: &[Checked],
    shapes: &[Shape],
    format: Format,
    places: &Places,
    grain: GrainId,
    store: &mut Store,
) -> Result<(), FolderFault>
    requires slot { slot ≤ 1 }
    requires programs { ArePrograms (map program_tree programs.now) }
    requires shapes { shapes.now ≡ shapes_in_turn (map program_tree programs.now) }
    ensures stand { OnOk result (IsTrue H.tells → (other : AGrain) → state_in store.new other
        ≡ state_reread slot format (map program_tree programs.now) (seen_in (H.world host.old).disk) places.now (state_in store.old other) grain other) }
    ensures unread { IfErr result (λ e. IsTrue H.tells
        → IsUnreadAt slot format shapes.now (seen_in (H.world host.old).disk) grain (placed_in places.now grain) e) }
    ensures asked { IsTrue H.tells → OnlyAsked (H.world host.old) (H.world host.new) }
    ensures calls { HasCalled ReadFaulted result H.is_ready H.faults host.old host.new }
{
    let Some(placed) = places.get(grain) else {
        return Ok(());
    };
    let version = match placed_version(alloc, host, slot, shapes, format, grain, placed) {
        Ok(version) => version,
        Err(fault) => return Err(fault),
    };
    let state = carried(alloc, programs, placed.program, grain, version.state)?;
    store.put(grain, state)?;
    Ok(())
}

// Gives each of these grains the state that the version at its place means.
fn read_each<H: Host>(
    alloc: Global,
    host: &mut H,
    slot: u8,
    programs: &[Checked],
    shapes: &[Shape],
    format: Format,
    places: &Places,
    grains: &[GrainId],
    store: &mut Store,
) -> Result<(), FolderFault>
    requires slot { slot ≤ 1 }
    requires programs { ArePrograms (map program_tree programs.now) }
    requires shapes { shapes.now ≡ shapes_in_turn (map program_tree programs.now) }
    ensures stand { OnOk result (IsTrue H.tells → (other : AGrain) → state_in store.new other
        ≡ states_reread slot format (map program_tree programs.now) (seen_in (H.world host.old).disk) places.now (state_in store.old other) grains.now other) }
    ensures unread { IfErr result (λ e. IsTrue H.tells → (grain : AGrain)
        × IsUnreadAt slot format shapes.now (seen_in (H.world host.old).disk) grain (placed_in places.now grain) e) }
    ensures asked { IsTrue H.tells → OnlyAsked (H.world host.old) (H.world host.new) }
    ensures calls { HasCalled ReadFaulted result H.is_ready H.faults host.old host.new }
{
    for grain in grains {
        read_state(
            alloc, host, slot, programs, shapes, format, places, *grain, store,
        )?;
    }
    Ok(())
}

/// The states that the versions at these places of a slot's files mean under the last of the programs that came into force one after the
/// other, by one read for each grain, in ascending order: each is read by the shape of the program under which it was written, and carried
/// to each later one in turn. `Damaged` names a grain's file at whose place no version of the grain's type stands, and `Failed` one on
/// which a call failed.
pub fn read_states<H: Host>(
    alloc: Global,
    host: &mut H,
    slot: u8,
    programs: &[Checked],
    format: Format,
    places: &Places,
) -> Result<Store, FolderFault>
    requires slot { slot ≤ 1 }
    requires programs { ArePrograms (map program_tree programs.now) }
    ensures stand { IfOk result (λ store. IsTrue H.tells → (grain : AGrain) → state_in store grain
        ≡ state_placed slot format (map program_tree programs.now) (seen_in (H.world host.old).disk) grain (placed_in places.now grain) None) }
    ensures unread { IfErr result (λ e. IsTrue H.tells → (grain : AGrain)
        × IsUnreadAt slot format (shapes_in_turn (map program_tree programs.now)) (seen_in (H.world host.old).disk) grain (placed_in places.now grain) e) }
    ensures asked { IsTrue H.tells → OnlyAsked (H.world host.old) (H.world host.new) }
    ensures calls { HasCalled ReadFaulted result H.is_ready H.faults host.old host.new }
{
    let shapes = shapes_in_turn(alloc, programs)?;
    let grains = places.grains(alloc)?;
    let mut store = Store::new(alloc);
    read_each(
        alloc,
        host,
        slot,
        programs,
        shapes.as_slice(),
        format,
        places,
        grains.as_slice(),
        &mut store,
    )?;
    Ok(store)
}
