ghost use Rattle.std.specs.Prelude.{◌≡◌, ◌<◌, ◌≤◌, ◌==◌, ◌+◌, [], ◌∷◌, length, take, reverse, position, IfOk, OnOk, OnErr};
ghost use Rattle.cell_model.specs.Stacks.{is_of, top, pushed, committed_stack, removed, has_version};

use base_types::{State, UnitNo, Version};
use std::alloc::{AllocError, Global};
use std::marker::Model;

/// The versions of one grain. Contracts see them newest first, with the spare: how many more fit without
/// memory.
#[derive(Drop)]
pub struct Stack {
    // The versions, oldest first.
    entries: Vec<Version>,
    // The state that an empty stack shows, which has no fields.
    none: State,
}

impl Model for Stack {
    ghost use Rattle.std.specs.Prelude.{◌≡◌, ◌-◌, [], reverse, vec_len, vec_capacity};
    ghost use Rattle.version_stack.specs.StackView.{Stacked};

    ghost Value = { Stacked };

    ghost view = { λ s. record { versions = reverse s.entries.items; spare = vec_capacity s.entries - vec_len s.entries } };

    ghost invariant = { λ s. s.none ≡ [] };
}

impl Stack {
    /// The stack of a grain that has this version alone: its last committed one, which is unit 0's with the opening state where
    /// nobody has written the grain.
    pub fn new(alloc: Global, version: Version) -> Result<Stack, AllocError>
        ensures { IfOk result (λ made. made.versions ≡ version ∷ []) }
    {
        let mut entries = Vec::new(alloc);
        entries.push(version)?;
        Ok(Stack {
            entries,
            none: State::new(alloc),
        })
    }

    /// The newest version: its unit and its state. An empty stack shows unit 0 and no fields.
    pub fn top(&self) -> (UnitNo, &State)
        ensures unit { result.0 ≡ (top self.now.versions).unit }
        ensures state { result.1.now ≡ (top self.now.versions).state }
    {
        newest(&self.entries, &self.none)
    }

    /// What `top` would show without the unit's version and all above it. Takes nothing off.
    pub fn top_without(&self, unit: UnitNo) -> (UnitNo, &State)
        ensures unit { result.0 ≡ (top (removed unit self.now.versions)).unit }
        ensures state { result.1.now ≡ (top (removed unit self.now.versions)).state }
    {
        let left = left_without(&self.entries, unit);
        newest(&self.entries[..left], &self.none)
    }

    /// The versions, oldest first.
    pub fn versions(&self) -> &[Version]
        ensures { result.now ≡ reverse self.now.versions }
    {
        self.entries.as_slice()
    }

    /// Whether there is one version alone.
    pub fn is_single(&self) -> bool
        ensures { result ≡ (length self.now.versions == 1) }
    {
        self.entries.len() == 1
    }

    /// Makes the spare at least 1. Without memory the stack stays as it was.
    pub fn reserve(&mut self) -> Result<(), AllocError>
        ensures versions { self.new.versions ≡ self.old.versions }
        ensures ok { OnOk result (0 < self.new.spare) }
        ensures spare { self.old.spare ≤ self.new.spare }
    {
        self.entries.reserve(1)
    }

    /// Puts the unit's new version on top. Takes no memory.
    pub fn push(&mut self, unit: UnitNo, state: State)
        requires { 0 < self.old.spare }
        ensures versions { self.new.versions ≡ pushed self.old.versions unit state }
        ensures spare { self.old.spare ≤ self.new.spare + 1 }
    {
        let done = self.entries.push(Version { unit, state });
        prove!(done.is_ok());
    }

    /// The unit has committed: what stands under its version is dropped. Does nothing where the unit has no
    /// version. Takes no memory.
    pub fn committed(&mut self, unit: UnitNo)
        ensures versions { self.new.versions ≡ committed_stack unit self.old.versions }
        ensures spare { self.old.spare ≤ self.new.spare }
    {
        let Some(above) = newest_of(&self.entries, unit) else {
            return;
        };
        let below = self.entries.len() - 1 - above;
        let _ = self.entries.drain(..below);
    }

    /// The unit has aborted: its version is taken off, with all above it. Answers whether there was one.
    /// Takes no memory.
    pub fn remove_from(&mut self, unit: UnitNo) -> bool
        ensures versions { self.new.versions ≡ removed unit self.old.versions }
        ensures found { result ≡ has_version unit self.old.versions }
        ensures spare { self.old.spare ≤ self.new.spare }
    {
        match oldest_of(&self.entries, unit) {
            Some(at) => {
                self.entries.truncate(at);
                true
            }
            None => false,
        }
    }
}

// The last of the entries: its unit and its state. Without entries unit 0 and the state that is given.
fn newest<'a>(entries: &'a [Version], none: &'a State) -> (UnitNo, &'a State)
    requires { none.now ≡ [] }
    ensures unit { result.0 ≡ (top (reverse entries.now)).unit }
    ensures state { result.1.now ≡ (top (reverse entries.now)).state }
{
    match entries.last() {
        Some(version) => (version.unit, &version.state),
        None => (UnitNo(0), none),
    }
}

// How many entries, from the oldest on, are left without the unit's oldest one and all above it.
fn left_without(entries: &[Version], unit: UnitNo) -> usize
    ensures within { result ≤ length entries.now }
    ensures left { reverse (take result entries.now) ≡ removed unit (reverse entries.now) }
{
    match oldest_of(entries, unit) {
        Some(at) => at,
        None => entries.len(),
    }
}

// How many entries stand above the unit's newest one.
fn newest_of(entries: &[Version], unit: UnitNo) -> Option<usize>
    ensures { result ≡ position (is_of unit) (reverse entries.now) }
{
    entries.iter().rev().position(|x| x.unit == unit)
}

// Where the unit's oldest entry stands.
fn oldest_of(entries: &[Version], unit: UnitNo) -> Option<usize>
    ensures { result ≡ position (is_of unit) entries.now }
{
    entries.iter().position(|x| x.unit == unit)
}
