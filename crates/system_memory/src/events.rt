ghost use Rattle.std.specs.Prelude.{◌≡◌, ◌∷◌, ◌++◌, ◌+◌, ◌-◌, ◌^◌, ◌<◌, ◌≤◌, ℕ, List, [], length, is_ok, true, false, IsTrue, take, drop, IfOk, OnOk, OnErr};
ghost use Rattle.system_calls.specs.System.{AppendsPart, WritesPart, FailsPart, MayWriteOn, SyncsData, MakesFile, EntersAll};
ghost use Rattle.system_memory.specs.MemoryState.{after_event, held_of, system_of, IsKeepable};

use host_trait::FileId;
use std::alloc::{AllocError, Global};

/// What was done to the system. `from` is the place in the call's bytes from which a part was moved, and `place` that in the file.
#[derive(Drop)]
pub enum Event {
    Emitted {
        from: usize,
        bytes: Vec<u8>,
    },
    Wrote {
        file: FileId,
        at: u64,
        size: usize,
        from: usize,
        place: u64,
        bytes: Vec<u8>,
    },
    Synced {
        file: FileId,
    },
    Doubted {
        file: FileId,
    },
    Made {
        file: FileId,
    },
    Entered,
    Lost,
}

// Some bytes from there on.
fn part_of(alloc: Global, bytes: &[u8], from: usize, count: usize) -> Result<Vec<u8>, AllocError>
    requires from { from ≤ length bytes.now }
    requires within { count ≤ length bytes.now - from }
    ensures { IfOk result (λ part. part.items ≡ take count (drop from bytes.now)) }
{
    let rest = &bytes[from..];
    let part = &rest[..count];
    let copy = part.to_vec(alloc)?;
    Ok(copy)
}

// One event more, or all as it was.
fn note(events: &mut Vec<Event>, event: Event) -> Result<(), AllocError>
    ensures ok { OnOk result (held_of events.new.items ≡ after_event event (held_of events.old.items)) }
    ensures err { OnErr result (events.new.items ≡ events.old.items) }
{
    events.push(event)?;
    Ok(())
}

/// Notes that some bytes were put out, or leaves all as it was.
pub fn note_emitted(
    alloc: Global,
    events: &mut Vec<Event>,
    bytes: &[u8],
    from: usize,
    count: usize,
) -> Result<(), AllocError>
    requires from { from ≤ length bytes.now }
    requires some { 0 < count }
    requires within { count ≤ length bytes.now - from }
    ensures ok { OnOk result ((input : List ℕ)
        → AppendsPart count from bytes.now (system_of input (held_of events.old.items)) (system_of input (held_of events.new.items))) }
    ensures err { OnErr result (events.new.items ≡ events.old.items) }
    ensures kept { IsKeepable (held_of events.old.items) → IsKeepable (held_of events.new.items) }
{
    let part = part_of(alloc, bytes, from, count)?;
    note(events, Event::Emitted { from, bytes: part })?;
    Ok(())
}

/// Notes that a part of a write was made, or leaves all as it was.
pub fn note_wrote(
    alloc: Global,
    events: &mut Vec<Event>,
    file: FileId,
    at: u64,
    bytes: &[u8],
    from: usize,
    count: usize,
) -> Result<(), AllocError>
    requires from { from ≤ length bytes.now }
    requires fits { at + length bytes.now < 2 ^ 63 }
    requires place { MayWriteOn from at (length bytes.now) ((held_of events.old.items).disk file) }
    requires some { count ≡ 0 → length bytes.now ≡ 0 }
    requires within { count ≤ length bytes.now - from }
    ensures ok { OnOk result ((input : List ℕ)
        → WritesPart count from file at bytes.now (system_of input (held_of events.old.items)) (system_of input (held_of events.new.items))) }
    ensures torn { OnOk result ((input : List ℕ)
        → FailsPart from file at (length bytes.now) (system_of input (held_of events.old.items)) (system_of input (held_of events.new.items))) }
    ensures err { OnErr result (events.new.items ≡ events.old.items) }
    ensures kept { IsKeepable (held_of events.old.items) → IsKeepable (held_of events.new.items) }
{
    let size = bytes.len();
    let part = part_of(alloc, bytes, from, count)?;
    let place = at + from as u64;
    note(
        events,
        Event::Wrote {
            file,
            at,
            size,
            from,
            place,
            bytes: part,
        },
    )?;
    Ok(())
}

/// Notes that a file was synced, or leaves all as it was.
pub fn note_synced(events: &mut Vec<Event>, file: FileId) -> Result<(), AllocError>
    requires { IsTrue ((held_of events.old.items).is_entered file) }
    ensures told { (input : List ℕ) → SyncsData file (is_ok result) (system_of input (held_of events.old.items)) (system_of input (held_of events.new.items)) }
    ensures err { OnErr result (events.new.items ≡ events.old.items) }
    ensures kept { IsKeepable (held_of events.old.items) → IsKeepable (held_of events.new.items) }
{
    note(events, Event::Synced { file })?;
    Ok(())
}

/// Notes that a sync of a file was refused, or leaves all as it was.
pub fn note_doubted(events: &mut Vec<Event>, file: FileId) -> Result<(), AllocError>
    ensures told { (input : List ℕ) → SyncsData file false (system_of input (held_of events.old.items)) (system_of input (held_of events.new.items)) }
    ensures err { OnErr result (events.new.items ≡ events.old.items) }
    ensures kept { IsKeepable (held_of events.old.items) → IsKeepable (held_of events.new.items) }
{
    note(events, Event::Doubted { file })?;
    Ok(())
}

/// Notes that a file was made, or leaves all as it was.
pub fn note_made(events: &mut Vec<Event>, file: FileId) -> Result<(), AllocError>
    requires { ((held_of events.old.items).disk file).seen ≡ [] }
    ensures told { (input : List ℕ) → MakesFile file (system_of input (held_of events.old.items)) (system_of input (held_of events.new.items)) }
    ensures err { OnErr result (events.new.items ≡ events.old.items) }
    ensures kept { IsKeepable (held_of events.old.items) → IsKeepable (held_of events.new.items) }
{
    note(events, Event::Made { file })?;
    Ok(())
}

/// Notes that all entries last, or leaves all as it was.
pub fn note_entered(events: &mut Vec<Event>) -> Result<(), AllocError>
    ensures told { (input : List ℕ) → EntersAll (is_ok result) (system_of input (held_of events.old.items)) (system_of input (held_of events.new.items)) }
    ensures err { OnErr result (events.new.items ≡ events.old.items) }
    ensures kept { IsKeepable (held_of events.old.items) → IsKeepable (held_of events.new.items) }
{
    note(events, Event::Entered)?;
    Ok(())
}

/// Notes that a sync of the folder was refused, or leaves all as it was.
pub fn note_lost(events: &mut Vec<Event>) -> Result<(), AllocError>
    ensures told { (input : List ℕ) → EntersAll false (system_of input (held_of events.old.items)) (system_of input (held_of events.new.items)) }
    ensures err { OnErr result (events.new.items ≡ events.old.items) }
    ensures kept { IsKeepable (held_of events.old.items) → IsKeepable (held_of events.new.items) }
{
    note(events, Event::Lost)?;
    Ok(())
}
