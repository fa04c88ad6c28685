ghost use Rattle.std.specs.Prelude.{◌≡◌, None, Some, OnOk, OnErr};
ghost use Rattle.base_types.specs.declared.calls.UnitNo.{UnitNo};
ghost use Rattle.base_types.specs.declared.calls.GrainId.{GrainId};
ghost use Rattle.core_parts.specs.States.{handed_in, PutsHanded};

use base_types::{GrainId, State, UnitNo};
use std::alloc::{AllocError, Global};
use std::collections::BTreeMap;

// A unit and a grain. Ordered by unit, then grain.
#[derive(Clone, Copy, Debug, PartialEq, Eq, PartialOrd, Ord)]
struct HandedKey {
    unit: UnitNo,
    grain: GrainId,
}

/// The states that units have written and will hand to the grains with their locks.
#[derive(Drop)]
pub struct HandedStates {
    states: BTreeMap<HandedKey, State>,
}

impl HandedStates {
    /// No unit has a state. Takes no memory.
    pub fn new(alloc: Global) -> HandedStates
        ensures { (unit : UnitNo) (grain : GrainId) → handed_in result unit grain ≡ None }
    {
        HandedStates {
            states: BTreeMap::new(alloc),
        }
    }

    /// Keeps the state that the unit will hand to the grain, in place of the one that is kept, if any. Without memory
    /// all stays as it was.
    pub fn keep(&mut self, unit: UnitNo, grain: GrainId, state: State) -> Result<(), AllocError>
        ensures ok { OnOk result (PutsHanded self.old self.new unit grain (Some state)) }
        ensures kept { OnErr result ((u : UnitNo) (g : GrainId) → handed_in self.new u g ≡ handed_in self.old u g) }
    {
        self.states.insert(HandedKey { unit, grain }, state)?;
        Ok(())
    }

    /// Hands out the state that the unit has for the grain, and keeps it no longer; none where it has none. Takes no
    /// memory.
    pub fn take(&mut self, unit: UnitNo, grain: GrainId) -> Option<State>
        ensures state { result ≡ handed_in self.old unit grain }
        ensures gone { PutsHanded self.old self.new unit grain None }
    {
        self.states.remove(&HandedKey { unit, grain })
    }
}
