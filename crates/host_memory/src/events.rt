// What was done so far, in order, and the calls that add to it.
ghost use Rattle.std.specs.Prelude.{◌≡◌, ◌+◌, ◌*◌, ◌^◌, ◌<◌, ◌≤◌, ◌++◌, ◌∷◌, [], ◌||◌, false, if◌then◌else◌, ℕ, List, IsTrue, IfSome, IfNone, OnOk, OnErr, is_ok, length};
ghost use Rattle.host_trait.specs.declared.channels.FileId.{FileId};
ghost use Rattle.host_trait.specs.Disk.{Overwrote, settled};
ghost use Rattle.host_trait.specs.Files.{same_file};
ghost use Rattle.host_trait.specs.World.{Emitted, Written, Synced};
ghost use Rattle.host_memory.specs.Table.{is_kept, StaysKept, SameFaults};
ghost use Rattle.host_memory.specs.Replay.{AreBy, AreSeen, IsTorn, state_of, written_by, output_of, syncs_of, moments_of, world_of, is_on, syncs_step};
ghost use Rattle.host_memory.specs.declared.events.Noted.{Noted};
ghost use Rattle.host_memory.specs.declared.files.Stored.{Stored};

use crate::files::{Stored, keep, put, replace};
use base_types::FILE_LIMIT;
use host_trait::FileId;
use std::alloc::{AllocError, Global};

// A change of the output or of a file.
#[derive(Drop)]
pub enum Event {
    // Bytes were appended to the output.
    Emitted {
        bytes: Vec<u8>,
    },
    // A write succeeded.
    Wrote {
        file: FileId,
        at: u64,
        bytes: Vec<u8>,
    },
    // A write failed: a read gives what it gave, and the range is pending.
    Tore {
        file: FileId,
        at: u64,
        len: u64,
    },
    // A sync was asked.
    Synced {
        file: FileId,
        ok: bool,
    },
    // The file was given other bytes from outside, which last.
    Put {
        file: FileId,
        bytes: Vec<u8>,
    },
}

// An event, with its stamp.
#[derive(Drop)]
pub struct Noted {
    pub stamp: u64,
    pub event: Event,
}

// Notes an event of the next call, or leaves all as it was.
fn note(events: &mut Vec<Noted>, call: u64, event: Event) -> Result<(), AllocError>
    requires { call < 2 ^ 62 }
    ensures ok { OnOk result (events.new.items ≡ events.old.items ++ (record { stamp = 2 * (call + 1); event = event }) ∷ []) }
    ensures err { OnErr result (events.new.items ≡ events.old.items) }
{
    let stamp = 2 * (call + 1);
    events.push(Noted { stamp, event })?;
    Ok(())
}

// Appends to the output, or leaves all as it was.
pub fn put_out(
    alloc: Global,
    output: &mut Vec<u8>,
    events: &mut Vec<Noted>,
    call: u64,
    bytes: &[u8],
) -> Result<(), AllocError>
    requires call { call < 2 ^ 62 }
    requires clock { AreBy (2 * call + 1) events.old.items }
    requires shown { output.old.items ≡ output_of events.old.items }
    ensures ok { OnOk result ((input : List ℕ)
        → Emitted (length bytes.now) bytes.now (world_of input events.old.items call) (world_of input events.new.items (call + 1))) }
    ensures err { OnErr result (events.new.items ≡ events.old.items) }
    ensures shown { output.new.items ≡ output_of events.new.items }
    ensures seen { (files : List Stored) → AreSeen files events.old.items → AreSeen files events.new.items }
    ensures clock { OnOk result (AreBy (2 * (call + 1) + 1) events.new.items) }
{
    let copy = bytes.to_vec(alloc)?;
    let before = output.len();
    output.extend_from_slice(bytes)?;
    if note(events, call, Event::Emitted { bytes: copy }).is_err() {
        output.truncate(before);
        return Err(AllocError);
    }
    Ok(())
}

// Writes, or leaves all as it was, also where the range would end at 2 to the 63 or beyond.
pub fn write(
    alloc: Global,
    files: &mut Vec<Stored>,
    events: &mut Vec<Noted>,
    call: u64,
    file: FileId,
    at: u64,
    bytes: &[u8],
) -> Result<(), AllocError>
    requires call { call < 2 ^ 62 }
    requires clock { AreBy (2 * call + 1) events.old.items }
    requires kept { IsTrue (is_kept files.old.items file) }
    requires seen { AreSeen files.old.items events.old.items }
    requires place { at ≤ length (state_of events.old.items file).seen }
    ensures told { OnOk result ((input : List ℕ)
        → Written file at (length bytes.now) (world_of input events.old.items call) (world_of input events.new.items (call + 1))) }
    ensures err { OnErr result (events.new.items ≡ events.old.items) }
    ensures ok { OnOk result (Overwrote at bytes.now (state_of events.old.items file) (state_of events.new.items file)) }
    ensures bound { OnOk result (at + length bytes.now < 2 ^ 63) }
    ensures seen { AreSeen files.new.items events.new.items }
    ensures output { output_of events.new.items ≡ output_of events.old.items }
    ensures clock { OnOk result (AreBy (2 * (call + 1) + 1) events.new.items) }
    ensures stays { StaysKept files.old.items files.new.items }
    ensures faults { SameFaults files.old.items files.new.items }
{
    if at >= FILE_LIMIT || bytes.len() as u64 >= FILE_LIMIT - at {
        return Err(AllocError);
    }
    let copy = bytes.to_vec(alloc)?;
    events.reserve(1)?;
    put(files, file, at as usize, bytes)?;
    let stamp = 2 * (call + 1);
    let event = Event::Wrote {
        file,
        at,
        bytes: copy,
    };
    let noted = events.push(Noted { stamp, event });
    prove!(noted.is_ok());
    Ok(())
}

// Makes a write fail after it began, or leaves all as it was.
pub fn tear(
    events: &mut Vec<Noted>,
    call: u64,
    file: FileId,
    at: u64,
    len: u64,
) -> Result<(), AllocError>
    requires call { call < 2 ^ 62 }
    requires clock { AreBy (2 * call + 1) events.old.items }
    ensures told { OnOk result ((input : List ℕ) → Written file at len (world_of input events.old.items call) (world_of input events.new.items (call + 1))) }
    ensures torn { OnOk result (IsTorn at len (state_of events.old.items file) (state_of events.new.items file)) }
    ensures err { OnErr result (events.new.items ≡ events.old.items) }
    ensures seen { (files : List Stored) → AreSeen files events.old.items → AreSeen files events.new.items }
    ensures output { output_of events.new.items ≡ output_of events.old.items }
    ensures clock { OnOk result (AreBy (2 * (call + 1) + 1) events.new.items) }
{
    note(events, call, Event::Tore { file, at, len })?;
    Ok(())
}

// Syncs a file, or fails to, as `ok` says; or leaves all as it was.
pub fn flush(events: &mut Vec<Noted>, call: u64, file: FileId, ok: bool) -> Result<(), AllocError>
    requires call { call < 2 ^ 62 }
    requires clock { AreBy (2 * call + 1) events.old.items }
    ensures told { OnOk result ((input : List ℕ) → Synced file ok (world_of input events.old.items call) (world_of input events.new.items (call + 1))) }
    ensures err { OnErr result (events.new.items ≡ events.old.items) }
    ensures count { OnOk result (syncs_of events.new.items ≡ syncs_of events.old.items + 1) }
    ensures seen { (files : List Stored) → AreSeen files events.old.items → AreSeen files events.new.items }
    ensures output { output_of events.new.items ≡ output_of events.old.items }
    ensures clock { OnOk result (AreBy (2 * (call + 1) + 1) events.new.items) }
{
    note(events, call, Event::Synced { file, ok })?;
    Ok(())
}

// Gives a file other bytes from outside, after so many calls; or leaves all as it was.
pub fn place(
    alloc: Global,
    files: &mut Vec<Stored>,
    events: &mut Vec<Noted>,
    call: u64,
    file: FileId,
    bytes: &[u8],
) -> Result<(), AllocError>
    requires call { call ≤ 2 ^ 62 }
    requires clock { AreBy (2 * call + 1) events.old.items }
    requires seen { AreSeen files.old.items events.old.items }
    ensures disk { OnOk result ((f : FileId) → state_of events.new.items f ≡ (if same_file file f then settled bytes.now else state_of events.old.items f)) }
    ensures written { OnOk result ((f : FileId) → written_by events.new.items f ≡ (same_file file f || written_by events.old.items f)) }
    ensures past { moments_of events.new.items call ≡ moments_of events.old.items call }
    ensures output { output_of events.new.items ≡ output_of events.old.items }
    ensures syncs { syncs_of events.new.items ≡ syncs_of events.old.items }
    ensures err { OnErr result (events.new.items ≡ events.old.items) }
    ensures seen { AreSeen files.new.items events.new.items }
    ensures clock { AreBy (2 * call + 1) events.new.items }
    ensures stays { StaysKept files.old.items files.new.items }
    ensures faults { SameFaults files.old.items files.new.items }
{
    let copy = bytes.to_vec(alloc)?;
    let held = bytes.to_vec(alloc)?;
    events.reserve(1)?;
    keep(alloc, files, file)?;
    replace(files, file, held);
    let event = Event::Put { file, bytes: copy };
    let stamp = 2 * call + 1;
    let noted = events.push(Noted { stamp, event });
    prove!(noted.is_ok());
    Ok(())
}

// The file that an event is on.
pub fn file_of(event: &Event) -> Option<FileId>
    ensures some { IfSome result (λ file. (f : FileId) → is_on f event.now ≡ same_file file f) }
    ensures none { IfNone result ((f : FileId) → is_on f event.now ≡ false) }
{
    match event {
        Event::Emitted { .. } => None,
        Event::Wrote { file, .. } => Some(*file),
        Event::Tore { file, .. } => Some(*file),
        Event::Synced { file, .. } => Some(*file),
        Event::Put { file, .. } => Some(*file),
    }
}

// How many syncs an event is.
fn syncs_in(event: &Event) -> u64
    ensures value { (n : ℕ) → syncs_step event.now n ≡ n + result }
    ensures bound { result ≤ 1 }
{
    match event {
        Event::Emitted { .. } => 0,
        Event::Wrote { .. } => 0,
        Event::Tore { .. } => 0,
        Event::Synced { .. } => 1,
        Event::Put { .. } => 0,
    }
}

// How many syncs were asked.
pub fn count_syncs(events: &[Noted]) -> u64
    ensures { result ≡ syncs_of events.now }
{
    let mut syncs = 0;
    for noted in events {
        syncs += syncs_in(&noted.event);
    }
    syncs
}
