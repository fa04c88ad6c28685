// The bytes of a file, as the events so far made them.
ghost use Rattle.std.specs.Prelude.{◌≡◌, ℕ, IfOk, OnOk};
ghost use Rattle.host_trait.specs.Disk.{overlaid};
ghost use Rattle.system_memory.specs.MemoryState.{MemoryState, held_of, after_event};

use crate::events::Event;
use host_trait::FileId;
use std::alloc::{AllocError, Global};

// These bytes with others from there on.
fn overlay(alloc: Global, old: &[u8], at: usize, bytes: &[u8]) -> Result<Vec<u8>, AllocError>
    ensures { IfOk result (λ new. new.items ≡ overlaid old.now at bytes.now) }
{
    let mut new = Vec::new(alloc);
    let front = old.get(..at).unwrap_or(old);
    new.extend_from_slice(front)?;
    new.extend_from_slice(bytes)?;
    let behind = at.saturating_add(bytes.len());
    let rest = old.get(behind..).unwrap_or(&[]);
    new.extend_from_slice(rest)?;
    Ok(new)
}

// The bytes of a file after one event more.
fn replay(alloc: Global, bytes: &[u8], event: &Event, file: FileId) -> Result<Vec<u8>, AllocError>
    ensures { IfOk result (λ new. (h : MemoryState) → (h.disk file).seen ≡ bytes.now → ((after_event event.now h).disk file).seen ≡ new.items) }
{
    match event {
        Event::Wrote {
            file: f,
            at: _,
            size: _,
            from: _,
            place,
            bytes: part,
        } => {
            if *f == file {
                overlay(alloc, bytes, *place as usize, part)
            } else {
                bytes.to_vec(alloc)
            }
        }
        _ => bytes.to_vec(alloc),
    }
}

/// The bytes of a file.
pub fn bytes_of(alloc: Global, events: &[Event], file: FileId) -> Result<Vec<u8>, AllocError>
    ensures { IfOk result (λ bytes. bytes.items ≡ ((held_of events.now).disk file).seen) }
{
    let mut bytes = Vec::new(alloc);
    for event in events {
        bytes = replay(alloc, &bytes, event, file)?;
    }
    Ok(bytes)
}
