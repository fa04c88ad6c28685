// What a crash may leave of a file, by making its events again.
ghost use Rattle.std.specs.Prelude.{◌≡◌, ◌+◌, ◌%◌, ◌<◌, ◌≤◌, ℕ, [], ◌∷◌, List, length, max, slice_index, true, IfOk, OnOk};
ghost use Rattle.host_trait.specs.declared.channels.FileId.{FileId};
ghost use Rattle.host_trait.specs.Disk.{FileState, MayLeave, Untouched, overlaid, settled};
ghost use Rattle.host_memory.specs.Replay.{state_step, state_at};
ghost use Rattle.host_memory.specs.Drafts.{IsDraft};

use crate::events::{Event, Noted};
use crate::files::{is_same, overwrite};
use host_trait::FileId;
use std::alloc::{AllocError, Global};

// A file's state: its bytes at the last sync, what a read gives, the ranges that are pending, the newest first, and the
// greatest length that a crash may leave.
#[derive(Drop)]
pub struct Draft {
    pub base: Vec<u8>,
    pub seen: Vec<u8>,
    pub ranges: Vec<(u64, u64)>,
    pub longest: u64,
}

impl Draft {
    ghost use Rattle.host_memory.specs.Drafts.{drafted};

    fn new(alloc: Global) -> Draft
        ensures { IsDraft result (settled []) }
    {
        Draft {
            base: Vec::new(alloc),
            seen: Vec::new(alloc),
            ranges: Vec::new(alloc),
            longest: 0,
        }
    }

    // A range more is pending.
    fn pend(&mut self, at: u64, len: u64) -> Result<(), AllocError>
        ensures base { self.new.base ≡ self.old.base }
        ensures seen { self.new.seen ≡ self.old.seen }
        ensures ranges { OnOk result (self.new.ranges.items ≡ (at, len) ∷ self.old.ranges.items) }
        ensures longest { self.new.longest ≤ max self.old.longest (at + len) }
    {
        self.ranges.insert(0, (at, len))?;
        self.longest = self.longest.max(at.saturating_add(len));
        Ok(())
    }

    // Nothing is pending, and the bytes are these.
    fn settle(&mut self, bytes: &[u8]) -> Result<(), AllocError>
        ensures { OnOk result (IsDraft self.new (settled bytes.now)) }
    {
        self.base.clear();
        self.base.extend_from_slice(bytes)?;
        self.seen.clear();
        self.seen.extend_from_slice(bytes)?;
        self.ranges.clear();
        self.longest = bytes.len() as u64;
        Ok(())
    }

    // A sync that succeeds.
    fn settle_seen(&mut self) -> Result<(), AllocError>
        ensures { OnOk result (IsDraft self.new (settled self.old.seen.items)) }
    {
        self.base.clear();
        self.base.extend_from_slice(&self.seen)?;
        self.ranges.clear();
        self.longest = self.seen.len() as u64;
        Ok(())
    }

    // A write that succeeds.
    fn write(&mut self, at: u64, bytes: &[u8]) -> Result<(), AllocError>
        ensures base { self.new.base ≡ self.old.base }
        ensures seen { OnOk result (self.new.seen.items ≡ overlaid self.old.seen.items at bytes.now) }
        ensures ranges { OnOk result (self.new.ranges.items ≡ (at, length bytes.now) ∷ self.old.ranges.items) }
        ensures longest { self.new.longest ≤ max self.old.longest (at + length bytes.now) }
    {
        let from = (at as usize).min(self.seen.len());
        overwrite(&mut self.seen, from, bytes)?;
        self.pend(at, bytes.len() as u64)?;
        Ok(())
    }

    // One event more.
    fn step(&mut self, file: FileId, event: &Event) -> Result<(), AllocError>
        ensures { OnOk result ((state : FileState) → IsDraft self.old state → IsDraft self.new (state_step file event.now state)) }
    {
        match event {
            Event::Emitted { .. } => Ok(()),
            Event::Wrote {
                file: on,
                at,
                bytes,
            } => {
                if !is_same(*on, file) {
                    return Ok(());
                }
                self.write(*at, bytes)?;
                Ok(())
            }
            Event::Tore { file: on, at, len } => {
                if !is_same(*on, file) {
                    return Ok(());
                }
                self.pend(*at, *len)?;
                Ok(())
            }
            Event::Synced { file: on, ok } => {
                if !is_same(*on, file) || !*ok {
                    return Ok(());
                }
                self.settle_seen()?;
                Ok(())
            }
            Event::Put { file: on, bytes } => {
                if !is_same(*on, file) {
                    return Ok(());
                }
                self.settle(bytes)?;
                Ok(())
            }
        }
    }

    // Whether no pending range has this offset.
    fn is_untouched(&self, i: u64) -> bool
        ensures { Untouched self.now.ranges.items i → result ≡ true }
    {
        for range in self.ranges.as_slice() {
            if range.0 <= i && i - range.0 < range.1 {
                return false;
            }
        }
        true
    }

    // A byte of an outcome: the base's where nothing is pending, else by the seed one of before and after, or any.
    fn byte(&self, i: usize, is_torn: bool, seed: u64) -> u8
        ensures { i < length self.now.base.items → Untouched self.now.ranges.items i → result ≡ slice_index self.now.base.items i }
    {
        let old = self.base.get(i).copied().unwrap_or(0);
        if i < self.base.len() && self.is_untouched(i as u64) {
            return self.base[i];
        }
        let new = self.seen.get(i).copied().unwrap_or(0);
        let mixed = (i as u64).wrapping_mul(31).wrapping_add(seed);
        if !is_torn {
            return (mixed % 256) as u8;
        }
        if mixed % 2 == 0 { old } else { new }
    }

    // The length of an outcome.
    fn size(&self, seed: u64) -> usize
        ensures no_shorter { length self.now.base.items ≤ result }
        ensures no_longer { result ≤ max (length self.now.base.items) self.now.longest }
    {
        let least = self.base.len();
        let most = least.max(self.longest as usize);
        let room = most - least;
        if room == 0 {
            return least;
        }
        least + (seed % room as u64) as usize + (seed / room as u64 % 2) as usize
    }

    // An outcome of a crash in which what is pending is torn, or garbage.
    fn outcome(&self, alloc: Global, is_torn: bool, seed: u64) -> Result<Vec<u8>, AllocError>
        ensures { IfOk result (λ bytes. MayLeave (drafted self.now) bytes.items) }
    {
        let size = self.size(seed);
        let mut bytes = Vec::new(alloc);
        for i in 0..size {
            bytes.push(self.byte(i, is_torn, seed))?;
        }
        Ok(bytes)
    }
}

// The state of a file after the events up to a stamp.
fn draft_of(alloc: Global, events: &[Noted], until: u64, file: FileId) -> Result<Draft, AllocError>
    ensures { IfOk result (λ draft. IsDraft draft (state_at until events.now file)) }
{
    let mut draft = Draft::new(alloc);
    for noted in events {
        if noted.stamp <= until {
            draft.step(file, &noted.event)?;
        }
    }
    Ok(draft)
}

// What a crash at a stamp may leave of a file; `pick` chooses. Of the four ways all that is pending is lost, or kept, or torn,
// or garbage: the first two are contracts, and tests show the others.
pub fn outcome_of(
    alloc: Global,
    events: &[Noted],
    until: u64,
    file: FileId,
    pick: u64,
) -> Result<Vec<u8>, AllocError>
    ensures left { IfOk result (λ bytes. MayLeave (state_at until events.now file) bytes.items) }
    ensures lost { IfOk result (λ bytes. pick % 4 ≡ 0 → bytes.items ≡ (state_at until events.now file).base) }
    ensures kept { IfOk result (λ bytes. pick % 4 ≡ 1 → bytes.items ≡ (state_at until events.now file).seen) }
{
    let draft = draft_of(alloc, events, until, file)?;
    if pick % 4 == 0 {
        return Ok(draft.base);
    }
    if pick % 4 == 1 {
        return Ok(draft.seen);
    }
    let bytes = draft.outcome(alloc, pick % 4 == 2, pick / 4)?;
    Ok(bytes)
}
