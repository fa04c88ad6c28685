ghost use Rattle.std.specs.Prelude.{◌≡◌, [], true, Some, None, is_some, IfOk, OnOk, OnErr};
ghost use Rattle.std.specs.Ordering.{eq_by_cmp};
ghost use Rattle.std.specs.Set.{is_member};
ghost use Rattle.std.specs.List.Sorted.{IsStrictlySortedBy};
ghost use Rattle.std.specs.Option.{option_copied};
ghost use Rattle.base_types.specs.Stores.{grain_cmp, state_in, end_in, has_room, later_end, PutsState, PutsEnd, RaisesEnd, KeepsRoom};
ghost use Rattle.base_types.specs.declared.calls.GrainId.{GrainId};

use crate::calls::{GrainId, UnitNo};
use crate::list::TryCopy;
use crate::seats::Seats;
use crate::state::State;
use std::alloc::{AllocError, Global};
use std::collections::BTreeMap;

/// Where a version stands in its grain's file: the offset of its first byte, and its length in bytes.
#[derive(Clone, Copy, Debug, PartialEq, Eq)]
pub struct Place {
    pub offset: u64,
    pub len: u32,
}

/// A state that a unit wrote.
#[derive(Drop)]
pub struct Version {
    pub unit: UnitNo,
    pub state: State,
}

impl Version {
    /// A copy, equal to its source.
    pub fn copy(&self) -> Result<Version, AllocError>
        ensures { IfOk result (λ made. made ≡ self.now) }
    {
        Ok(Version {
            unit: self.unit,
            state: self.state.copy()?,
        })
    }
}

impl TryCopy for Version {
    fn try_copy(&self) -> Result<Version, AllocError> {
        self.copy()
    }
}

/// The grains' states. A grain that isn't there has its type's initial fields.
#[derive(Drop)]
pub struct Store {
    states: BTreeMap<GrainId, State>,
}

impl Store {
    /// No grain. Takes no memory.
    pub fn new(alloc: Global) -> Store
        ensures { (grain : GrainId) → state_in result grain ≡ None }
    {
        Store {
            states: BTreeMap::new(alloc),
        }
    }

    /// The grain's state, none where it isn't there.
    pub fn get(&self, grain: GrainId) -> Option<&State>
        ensures { option_copied result ≡ state_in self.now grain }
    {
        self.states.get(&grain)
    }

    /// The grains that are there, in ascending order, each once.
    pub fn grains(&self, alloc: Global) -> Result<Vec<GrainId>, AllocError>
        ensures listed { IfOk result (λ grains. (grain : GrainId) → is_member (eq_by_cmp grain_cmp) grains.items grain ≡ is_some (state_in self.now grain)) }
        ensures ordered { IfOk result (λ grains. IsStrictlySortedBy grain_cmp grains.items) }
    {
        let mut grains = Vec::with_capacity(alloc, self.states.len())?;
        for grain in self.states.keys() {
            grains.push(*grain)?;
        }
        Ok(grains)
    }

    /// Gives a grain a state. Without memory the store stays as it was.
    pub fn put(&mut self, grain: GrainId, state: State) -> Result<(), AllocError>
        ensures ok { OnOk result (PutsState self.old self.new grain state) }
        ensures kept { OnErr result ((other : GrainId) → state_in self.new other ≡ state_in self.old other) }
    {
        self.states.insert(grain, state)?;
        Ok(())
    }
}

/// Where the places that a log names end, per grain file, in bytes. A file in which none is named isn't there.
/// A grain may have room made for its end before it has one.
#[derive(Drop)]
pub struct Ends {
    ends: Seats<GrainId, u64>,
}

impl Ends {
    /// No file. Takes no memory.
    pub fn new(alloc: Global) -> Ends
        ensures { (grain : GrainId) → end_in result grain ≡ None }
    {
        Ends {
            ends: Seats::new(alloc),
        }
    }

    /// The end in the grain's file, none where no place in it is named.
    pub fn get(&self, grain: GrainId) -> Option<u64>
        ensures { result ≡ end_in self.now grain }
    {
        self.ends.get(grain).copied()
    }

    /// Gives a grain's file an end. Without memory the ends stay as they were.
    pub fn put(&mut self, grain: GrainId, end: u64) -> Result<(), AllocError>
        ensures ok { OnOk result (PutsEnd self.old self.new grain end) }
        ensures kept { OnErr result ((other : GrainId) → end_in self.new other ≡ end_in self.old other) }
        ensures room { KeepsRoom self.old self.new }
    {
        self.ends.put(grain, end)?;
        Ok(())
    }

    /// Makes room for a grain's end, so that `raise` takes no memory. Changes no end, and takes no room away,
    /// whether there was memory or not.
    pub fn room(&mut self, grain: GrainId) -> Result<(), AllocError>
        ensures made { OnOk result (has_room self.new grain ≡ true) }
        ensures same { (other : GrainId) → end_in self.new other ≡ end_in self.old other }
        ensures room { KeepsRoom self.old self.new }
    {
        self.ends.room(grain)?;
        Ok(())
    }

    /// Lets a grain's file end at the greater of the end that it has, if it has one, and this one. Takes no
    /// memory.
    pub fn raise(&mut self, grain: GrainId, end: u64)
        requires { has_room self.old grain ≡ true }
        ensures raised { RaisesEnd self.old self.new grain end }
        ensures room { KeepsRoom self.old self.new }
    {
        let kept = self.ends.get(grain).copied();
        self.ends.replace(grain, later_end(kept, end));
    }
}

// The greater of an end that may be missing and this one.
fn later_end(kept: Option<u64>, end: u64) -> u64
    ensures { result ≡ later_end kept end }
{
    match kept {
        Some(kept) => kept.max(end),
        None => end,
    }
}
