ghost use Rattle.std.specs.Prelude.{◌≡◌, ◌≤◌, ◌||◌, IsTrue, Ok, Some, None, is_some, OnOk, IfOk, IfErr, length};
ghost use Rattle.std.specs.List.{fold};
ghost use Rattle.host_trait.specs.Faults.{HasCalled};
ghost use Rattle.host_trait.specs.Runs.{OnlyAsked};
ghost use Rattle.host_trait.specs.declared.channels.FileId.TheVariants.{Manager};
ghost use Rattle.field_codec.specs.declared.formats.Format.TheVariants.{Two};
ghost use Rattle.core_model.specs.Equality.{same_list};
ghost use Rattle.log_reading.specs.Blocks.{LogRead as ALog, log_in_file};
ghost use Rattle.log_reading.specs.Counts.{ReadFaulted};
ghost use Rattle.log_reading.specs.Steps.{seen_in, IsSaidIn};
ghost use Rattle.base_types.specs.Stores.{state_in};
ghost use Rattle.base_types.specs.declared.calls.GrainId.{GrainId as AGrain};
ghost use Rattle.script_tree.specs.Programs.{ProgramTree};
ghost use Rattle.script_check.specs.Shapes.{type_shapes};
ghost use Rattle.script_meaning.specs.Play.{found_in};
ghost use Rattle.script_player.specs.PlayState.{played_of};
ghost use Rattle.promise_spec.specs.Programs.{Program};
ghost use Rattle.promise_spec.specs.Records.{written, put_state};
ghost use Rattle.promise_spec.specs.Entries.{Standing, is_among};
ghost use Rattle.promise_spec.specs.Openings.{commit_of, entries_logged, log_of};
ghost use Rattle.log_audit.specs.InForce.{types_in_force, HasShape, types_said, said_entries};
ghost use Rattle.log_audit.specs.CarriedStores.{StoreFits, AreOfProgram};
ghost use Rattle.log_audit.specs.RereadFaults.{IsWriteFault, IsRecordFault, IsEntryFault, IsRereadFault};
ghost use Rattle.log_audit.specs.Replays.{same_write, agree, IsJudged, first_states, states_saved_at, entries_of_records, IsStoreOf, ReplaysTo, AllReplayTo, IsFirstFailure};

use crate::carrying::carry_store;
use crate::in_force::InForce;
use base_types::{GrainId, Outcome, Shape, State, Store, UnitNo};
use commit_log::{CommitRecord, Named, Written};
use core_parts::Same;
use field_codec::Format;
use host_trait::Host;
use log_reading::{FolderFault, Said, named_version, next_entry, read_base};
use script_player::{Played, play};
use std::alloc::{AllocError, Global};
use std::mem;

/// A record that doesn't replay: its unit, the result that the log has and the one that its call gives over the store, and
/// whether its call writes other grains or states. Where neither differs, it has more or fewer answers than its call asks for.
#[derive(Drop)]
pub struct Bad {
    pub unit: UnitNo,
    pub kept: Outcome,
    pub played: Outcome,
    pub states_differ: bool,
}

// Whether the two are of one grain and one state.
fn is_same_write(ours: &(GrainId, State), theirs: &(GrainId, State)) -> bool
    ensures { result ≡ same_write ours.now theirs.now }
{
    ours.0 == theirs.0 && ours.1.is_same(&theirs.1)
}

// Whether the two have the same grains with the same states, in one order.
fn are_same_writes(ours: &[(GrainId, State)], theirs: &[(GrainId, State)]) -> bool
    ensures { result ≡ same_list same_write ours.now theirs.now }
{
    if ours.len() != theirs.len() {
        return false;
    }
    for index in 0..ours.len() {
        if !is_same_write(&ours[index], &theirs[index]) {
            return false;
        }
    }
    true
}

// The grains that a record wrote, with the states of their versions in a slot's files.
fn read_writes<H: Host>(
    alloc: Global,
    host: &mut H,
    slot: u8,
    shape: &Shape,
    entry: &CommitRecord,
) -> Result<Vec<(GrainId, State)>, FolderFault>
    requires slot { slot ≤ 1 }
    ensures writes { IfOk result (λ kept. IsTrue H.tells → kept.items ≡ written (commit_of Two slot shape.now (seen_in (H.world host.old).disk) entry.now)) }
    ensures fits { IfOk result (λ kept. (types : ProgramTree) → shape.now ≡ record { types = type_shapes types } → AreOfProgram types kept.items) }
    ensures unread { IfErr result (λ e. IsTrue H.tells
        → IsWriteFault slot shape.now (seen_in (H.world host.old).disk) (Some entry.now.unit) entry.now.writes e) }
    ensures asked { IsTrue H.tells → OnlyAsked (H.world host.old) (H.world host.new) }
    ensures calls { HasCalled ReadFaulted result H.is_ready H.faults host.old host.new }
{
    let writes = entry.writes.as_slice();
    let mut kept = Vec::new(alloc);
    for one in writes {
        let named = Named {
            unit: Some(entry.unit),
            program: 0,
            written: *one,
        };
        let version = named_version(alloc, host, slot, shape, Format::Two, named)?;
        kept.push((one.grain, version.state))?;
    }
    Ok(kept)
}

// Whether a record replays: its call writes the same, gives its result, and asks for as many units as it has answers.
fn agrees(entry: &CommitRecord, played: &Played, same: bool) -> bool
    ensures { result ≡ agree same played.now.result entry.now.result (length played.now.asked) (length entry.now.answers) }
{
    same && played.result.is_same(&entry.result) && played.asked.len() == entry.answers.len()
}

// How a record doesn't replay, whose call gives what was played and which wrote these states; none where it does.
fn failure(
    entry: &CommitRecord,
    played: Played,
    kept: &[(GrainId, State)],
) -> Result<Option<Bad>, AllocError>
    ensures { IfOk result (IsJudged entry.now (played_of played) kept.now) }
{
    let same = are_same_writes(played.writes.as_slice(), kept);
    if agrees(entry, &played, same) {
        return Ok(None);
    }
    let logged = entry.result.copy()?;
    Ok(Some(Bad {
        unit: entry.unit,
        kept: logged,
        played: played.result,
        states_differ: !same,
    }))
}

// Gives each grain its state.
fn keep(store: &mut Store, writes: Vec<(GrainId, State)>) -> Result<(), AllocError>
    ensures held { OnOk result ((grain : AGrain) → is_some (state_in store.new grain) ≡ (is_among writes.items grain || is_some (state_in store.old grain))) }
    ensures states { OnOk result ((types : ProgramTree) → found_in types store.new ≡ fold put_state (found_in types store.old) writes.items) }
    ensures fits { OnOk result ((types : ProgramTree) → AreOfProgram types writes.items → StoreFits types store.old → StoreFits types store.new) }
{
    for (grain, state) in writes {
        store.put(grain, state)?;
    }
    Ok(())
}

// Plays a record over the store, which has what stands before it. Where it replays, the store has what stands after it then.
fn replay<H: Host>(
    alloc: Global,
    host: &mut H,
    slot: u8,
    now: &InForce,
    store: &mut Store,
    entry: &CommitRecord,
) -> Result<Option<Bad>, FolderFault>
    requires slot { slot ≤ 1 }
    requires shape { HasShape now.now }
    ensures replays { IfOk result (λ found. IsTrue H.tells → (before : Standing) → before.program.types ≡ types_in_force now.now → IsStoreOf store.old before
        → ReplaysTo before (commit_of Two slot now.now.shape (seen_in (H.world host.old).disk) entry.now) store.new found) }
    ensures fits { OnOk result (StoreFits (types_in_force now.now) store.old → StoreFits (types_in_force now.now) store.new) }
    ensures unread { IfErr result (λ e. IsTrue H.tells
        → IsWriteFault slot now.now.shape (seen_in (H.world host.old).disk) (Some entry.now.unit) entry.now.writes e) }
    ensures asked { IsTrue H.tells → OnlyAsked (H.world host.old) (H.world host.new) }
    ensures calls { HasCalled ReadFaulted result H.is_ready H.faults host.old host.new }
{
    let kept = read_writes(alloc, host, slot, &now.shape, entry)?;
    let depth = entry.origin.depth();
    let answers = entry.answers.as_slice();
    let played = play(alloc, &now.checked, &entry.call, depth, store, answers)?;
    if let Some(bad) = failure(entry, played, kept.as_slice())? {
        return Ok(Some(bad));
    }
    keep(store, kept)?;
    Ok(None)
}

// Plays records over the store, which has what stands before them, up to the first that doesn't replay.
fn replay_records<H: Host>(
    alloc: Global,
    host: &mut H,
    slot: u8,
    now: &InForce,
    store: &mut Store,
    records: &[CommitRecord],
) -> Result<Option<Bad>, FolderFault>
    requires slot { slot ≤ 1 }
    requires shape { HasShape now.now }
    ensures replays { IfOk result (λ found. IsTrue H.tells → (before : Standing) → before.program.types ≡ types_in_force now.now → IsStoreOf store.old before
        → AllReplayTo before (entries_of_records slot now.now.shape (seen_in (H.world host.old).disk) records.now) store.new found) }
    ensures fits { OnOk result (StoreFits (types_in_force now.now) store.old → StoreFits (types_in_force now.now) store.new) }
    ensures unread { IfErr result (λ e. IsTrue H.tells → IsRecordFault slot now.now.shape (seen_in (H.world host.old).disk) records.now e) }
    ensures asked { IsTrue H.tells → OnlyAsked (H.world host.old) (H.world host.new) }
    ensures calls { HasCalled ReadFaulted result H.is_ready H.faults host.old host.new }
{
    for entry in records {
        let found = replay(alloc, host, slot, now, store, entry)?;
        if found.is_some() {
            return Ok(found);
        }
    }
    Ok(None)
}

// Plays what a block says over the store, which has what stands before it, and has the program that is in force behind it: an upgrade
// carries each state to its program.
fn replay_said<H: Host>(
    alloc: Global,
    host: &mut H,
    slot: u8,
    now: &mut InForce,
    store: &mut Store,
    said: Said,
) -> Result<Option<Bad>, FolderFault>
    requires slot { slot ≤ 1 }
    requires shape { HasShape now.old }
    requires fits { StoreFits (types_in_force now.old) store.old }
    requires may { IsSaidIn Two (types_in_force now.old) said }
    ensures replays { IfOk result (λ found. IsTrue H.tells → (before : Standing) → before.program.types ≡ types_in_force now.old → IsStoreOf store.old before
        → AllReplayTo before (entries_logged Two slot before.program (seen_in (H.world host.old).disk) (said_entries said)) store.new found) }
    ensures behind { OnOk result (types_in_force now.new ≡ types_said now.old said) }
    ensures shaped { OnOk result (HasShape now.new) }
    ensures fits { OnOk result (StoreFits (types_in_force now.new) store.new) }
    ensures unread { IfErr result (λ e. IsTrue H.tells → (p : Program) → p.types ≡ types_in_force now.old
        → IsEntryFault slot p (seen_in (H.world host.old).disk) (said_entries said) e) }
    ensures asked { IsTrue H.tells → OnlyAsked (H.world host.old) (H.world host.new) }
    ensures calls { HasCalled ReadFaulted result H.is_ready H.faults host.old host.new }
{
    match said {
        Said::Records(records) => {
            let found = replay_records(alloc, host, slot, now, store, records.as_slice())?;
            Ok(found)
        }
        Said::Upgrade {
            text: _text,
            checked,
        } => {
            let carried = carry_store(alloc, &now.checked, &checked, store)?;
            drop(mem::replace(store, carried));
            now.change_to(checked)?;
            Ok(None)
        }
    }
}

// The states of the versions that a checkpoint names in a slot's files.
fn saved_store<H: Host>(
    alloc: Global,
    host: &mut H,
    slot: u8,
    shape: &Shape,
    saved: &[Written],
) -> Result<Store, FolderFault>
    requires slot { slot ≤ 1 }
    ensures held { IfOk result (λ store. IsTrue H.tells → (grain : AGrain)
        → is_some (state_in store grain) ≡ is_among (states_saved_at slot shape.now (seen_in (H.world host.old).disk) saved.now) grain) }
    ensures states { IfOk result (λ store. IsTrue H.tells → (types : ProgramTree)
        → found_in types store ≡ fold put_state (first_states types) (states_saved_at slot shape.now (seen_in (H.world host.old).disk) saved.now)) }
    ensures fits { IfOk result (λ store. (types : ProgramTree) → shape.now ≡ record { types = type_shapes types } → StoreFits types store) }
    ensures unread { IfErr result (λ e. IsTrue H.tells → IsWriteFault slot shape.now (seen_in (H.world host.old).disk) None saved.now e) }
    ensures asked { IsTrue H.tells → OnlyAsked (H.world host.old) (H.world host.new) }
    ensures calls { HasCalled ReadFaulted result H.is_ready H.faults host.old host.new }
{
    let mut store = Store::new(alloc);
    for written in saved {
        let named = Named {
            unit: None,
            program: 0,
            written: *written,
        };
        let version = named_version(alloc, host, slot, shape, Format::Two, named)?;
        store.put(written.grain, version.state)?;
    }
    Ok(store)
}

/// Plays the entries of a slot's log, each over the store that those before it left, the first over a checkpoint's states
/// where the log begins with one, up to the first record that doesn't replay; `now` is the log's first program, and then each that comes
/// into force. It reads the log block by block, and keeps the store, one block and one program; a second store while it carries the first
/// to a program.
pub(crate) fn replay_log<H: Host>(
    alloc: Global,
    host: &mut H,
    slot: u8,
    now: &mut InForce,
) -> Result<Option<Bad>, FolderFault>
    requires slot { slot ≤ 1 }
    requires shape { HasShape now.old }
    ensures replays { IfOk result (λ found. IsTrue H.tells → (p : Program) → p.types ≡ types_in_force now.old
        → (log : ALog) → log_in_file Two p ((H.world host.old).disk (Manager slot)).seen ≡ Ok log
        → let all = log_of Two slot p (seen_in (H.world host.old).disk) log in IsFirstFailure all.base all.entries found) }
    ensures unread { IfErr result (λ e. IsTrue H.tells → (p : Program) → p.types ≡ types_in_force now.old
        → (log : ALog) → log_in_file Two p ((H.world host.old).disk (Manager slot)).seen ≡ Ok log
        → IsRereadFault slot p (seen_in (H.world host.old).disk) log e) }
    ensures asked { IsTrue H.tells → OnlyAsked (H.world host.old) (H.world host.new) }
    ensures calls { HasCalled ReadFaulted result H.is_ready H.faults host.old host.new }
{
    let base = read_base(alloc, host, slot, &now.shape, Format::Two)?;
    let mut store = saved_store(alloc, host, slot, &now.shape, base.saved.as_slice())?;
    let mut last = base.session;
    let mut gate_at = base.gate_at;
    drop(base);
    while let Some((session, said, behind)) = next_entry(
        alloc,
        host,
        slot,
        &now.checked,
        &now.shape,
        last,
        Format::Two,
        gate_at,
    )? {
        let found = replay_said(alloc, host, slot, now, &mut store, said)?;
        if found.is_some() {
            return Ok(found);
        }
        last = session;
        gate_at = behind;
    }
    Ok(None)
}
