ghost use Rattle.std.specs.Prelude.{◌≡◌, ◌<◌, ◌≤◌, ◌+◌, ◌-◌, [], ◌∷◌, ◌++◌, length, drop, nat_lt, slice_get, OnOk};
ghost use Rattle.std.specs.Option.{option_copied};
ghost use Rattle.core_parts.specs.LineEnds.{ends_of};

use crate::emitted_entries::EmittedEntries;
use crate::line_ends::LineEnds;
use base_types::Entry;
use std::alloc::{AllocError, Global};
use std::collections::VecDeque;
use std::marker::Model;

/// The entries of the settled lines, in the order in which they came, of which the first are emitted. An entry that is
/// emitted is for contracts alone, and takes no bytes; how its line ended is counted. Contracts see the entries, how many
/// are emitted, and the spare: how many more fit without memory.
#[derive(Drop)]
pub struct EntryList {
    emitted: EmittedEntries,
    // Those that aren't emitted.
    pending: VecDeque<Entry>,
    // How the lines of all of them ended.
    ends: LineEnds,
}

impl Model for EntryList {
    ghost use Rattle.std.specs.Prelude.{◌≡◌, ◌-◌, ◌++◌, length};
    ghost use Rattle.std.specs.VecDeque.{deque_len, deque_capacity};
    ghost use Rattle.core_parts.specs.Room.{EntriesInRoom, spare_for};
    ghost use Rattle.core_parts.specs.LineEnds.{ends_of};

    ghost Value = { EntriesInRoom };

    ghost view = { λ l. record { entries = l.emitted.entries ++ l.pending.items; emitted = length l.emitted.entries; spare = spare_for (deque_capacity l.pending - deque_len l.pending) l.ends.all } };

    ghost invariant = { λ l. l.ends ≡ ends_of (l.emitted.entries ++ l.pending.items) };
}

impl EntryList {
    /// No entries, none emitted. Takes no memory.
    pub fn new(alloc: Global) -> EntryList
        ensures entries { result.entries ≡ [] }
        ensures emitted { result.emitted ≡ 0 }
    {
        EntryList {
            emitted: EmittedEntries::new(),
            pending: VecDeque::new(alloc),
            ends: LineEnds::new(),
        }
    }

    /// Makes the spare at least `count`. The entries stay as they were, whether there was memory or not. No more than
    /// 2^64 - 1 entries come in all: where there would be more, memory is wanting.
    pub fn reserve(&mut self, count: usize) -> Result<(), AllocError>
        ensures entries { self.new.entries ≡ self.old.entries }
        ensures emitted { self.new.emitted ≡ self.old.emitted }
        ensures ok { OnOk result (count ≤ self.new.spare) }
        ensures spare { self.old.spare ≤ self.new.spare }
    {
        if usize::MAX - self.ends.all < count {
            return Err(AllocError);
        }
        self.pending.reserve(count)
    }

    /// Appends an entry, in room that was made. Takes no memory.
    pub fn push(&mut self, entry: Entry)
        requires { 0 < self.old.spare }
        ensures entries { self.new.entries ≡ self.old.entries ++ entry ∷ [] }
        ensures emitted { self.new.emitted ≡ self.old.emitted }
        ensures spare { self.new.spare + 1 ≡ self.old.spare }
    {
        self.ends = self.ends.with(&entry.what);
        self.pending.push_back_reserved(entry);
    }

    /// Counts the next entry as emitted, and lets it go. Takes no memory, and no room away.
    pub fn emit(&mut self)
        requires { self.old.emitted < length self.old.entries }
        ensures entries { self.new.entries ≡ self.old.entries }
        ensures emitted { self.new.emitted ≡ self.old.emitted + 1 }
        ensures spare { self.old.spare ≤ self.new.spare }
    {
        let Some(entry) = self.pending.pop_front() else {
            unreachable!()
        };
        self.emitted = EmittedEntries::with(&self.emitted, &entry);
    }

    /// The first entry that isn't emitted, none where all are.
    pub fn next(&self) -> Option<&Entry>
        ensures { option_copied result ≡ slice_get self.now.entries self.now.emitted }
    {
        self.pending.front()
    }

    /// Whether an entry isn't emitted.
    pub fn has_next(&self) -> bool
        ensures { result ≡ nat_lt self.now.emitted (length self.now.entries) }
    {
        !self.pending.is_empty()
    }

    /// The entries that aren't emitted, in the order in which they came, in two pieces.
    pub fn pending(&self) -> (&[Entry], &[Entry])
        ensures { result.0.now ++ result.1.now ≡ drop self.now.emitted self.now.entries }
    {
        self.pending.as_slices()
    }

    /// How the lines of all entries ended, emitted or not.
    pub fn ends(&self) -> LineEnds
        ensures { result ≡ ends_of self.now.entries }
    {
        self.ends
    }
}
