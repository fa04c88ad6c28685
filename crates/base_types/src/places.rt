ghost use Rattle.std.specs.Prelude.{◌≡◌, true, None, IfOk, OnOk, OnErr};
ghost use Rattle.std.specs.Ordering.{eq_by_cmp};
ghost use Rattle.std.specs.Set.{is_member};
ghost use Rattle.std.specs.List.Sorted.{IsStrictlySortedBy};
ghost use Rattle.std.specs.Option.{option_copied};
ghost use Rattle.base_types.specs.Places.{placed_in, has_seat, PutsPlaced, KeepsSeats};
ghost use Rattle.base_types.specs.Stores.{grain_cmp};
ghost use Rattle.base_types.specs.declared.calls.GrainId.{GrainId};

use crate::calls::GrainId;
use crate::known_version::KnownVersion;
use crate::seats::Seats;
use crate::stores::Place;
use std::alloc::{AllocError, Global};

/// Where a version stands in its grain's file, by which program it was written, and whether a unit of the run that goes on wrote it: else
/// the log that was opened names it. Programs have numbers by the order in which they came into force, from 0, that of the program file.
/// Contracts see the version too.
#[derive(Drop)]
pub struct Placed {
    pub place: Place,
    pub program: u32,
    pub is_new: bool,
    pub known: KnownVersion,
}

impl Placed {
    /// The same. Takes no memory.
    pub fn copy(&self) -> Placed
        ensures { result ≡ self.now }
    {
        Placed {
            place: self.place,
            program: self.program,
            is_new: self.is_new,
            known: self.known.same(),
        }
    }
}

/// Where each grain's last version stands. A grain that isn't there has no version in its file. A grain may have room made for its
/// place before it has one.
#[derive(Drop)]
pub struct Places {
    places: Seats<GrainId, Placed>,
}

impl Places {
    /// No grain. Takes no memory.
    pub fn new(alloc: Global) -> Places
        ensures { (grain : GrainId) → placed_in result grain ≡ None }
    {
        Places {
            places: Seats::new(alloc),
        }
    }

    /// Where the grain's last version stands, none where it has none.
    pub fn get(&self, grain: GrainId) -> Option<&Placed>
        ensures { option_copied result ≡ placed_in self.now grain }
    {
        self.places.get(grain)
    }

    /// The grains that have a place or room for one, in ascending order, each once.
    pub fn grains(&self, alloc: Global) -> Result<Vec<GrainId>, AllocError>
        ensures listed { IfOk result (λ grains. (grain : GrainId) → is_member (eq_by_cmp grain_cmp) grains.items grain ≡ has_seat self.now grain) }
        ensures ordered { IfOk result (λ grains. IsStrictlySortedBy grain_cmp grains.items) }
    {
        let grains = self.places.keys(alloc)?;
        Ok(grains)
    }

    /// Gives a grain a last version. Without memory the places stay as they were.
    pub fn put(&mut self, grain: GrainId, placed: Placed) -> Result<(), AllocError>
        ensures ok { OnOk result (PutsPlaced self.old self.new grain placed) }
        ensures kept { OnErr result ((other : GrainId) → placed_in self.new other ≡ placed_in self.old other) }
        ensures room { KeepsSeats self.old self.new }
    {
        self.places.put(grain, placed)?;
        Ok(())
    }

    /// Makes room for a grain's place, so that `replace` takes no memory. Changes no place, and takes no room away, whether there was
    /// memory or not.
    pub fn room(&mut self, grain: GrainId) -> Result<(), AllocError>
        ensures made { OnOk result (has_seat self.new grain ≡ true) }
        ensures same { (other : GrainId) → placed_in self.new other ≡ placed_in self.old other }
        ensures room { KeepsSeats self.old self.new }
    {
        self.places.room(grain)?;
        Ok(())
    }

    /// Gives a grain a last version, in place of the one that it has, if it has one. Takes no memory.
    pub fn replace(&mut self, grain: GrainId, placed: Placed)
        requires { has_seat self.old grain ≡ true }
        ensures replaced { PutsPlaced self.old self.new grain placed }
        ensures room { KeepsSeats self.old self.new }
    {
        self.places.replace(grain, placed);
    }
}
