ghost use Rattle.std.specs.Prelude.{◌≡◌, true, None, OnOk};
ghost use Rattle.std.specs.Option.{option_copied};
ghost use Rattle.base_types.specs.declared.calls.GrainId.{GrainId};
ghost use Rattle.core_parts.specs.States.{kept_in, is_placed, PutsKept, KeepsPlaced};

use base_types::{GrainId, State};
use std::alloc::{AllocError, Global};
use std::collections::BTreeMap;

/// The last committed state of each grain that has one. A grain may have its place made before it has a state.
#[derive(Drop)]
pub(crate) struct KeptStates {
    // A grain that is there without a state has its place.
    states: BTreeMap<GrainId, Option<State>>,
}

impl KeptStates {
    /// No grain has a state. Takes no memory.
    pub(crate) fn new(alloc: Global) -> KeptStates
        ensures { (grain : GrainId) → kept_in result grain ≡ None }
    {
        KeptStates {
            states: BTreeMap::new(alloc),
        }
    }

    /// Makes a grain's place, so that `put` takes no memory. Changes no state, and takes no place away, whether there
    /// was memory or not.
    pub(crate) fn make_place(&mut self, grain: GrainId) -> Result<(), AllocError>
        ensures made { OnOk result (is_placed self.new grain ≡ true) }
        ensures same { (other : GrainId) → kept_in self.new other ≡ kept_in self.old other }
        ensures places { KeepsPlaced self.old self.new }
    {
        if self.states.contains_key(&grain) {
            return Ok(());
        }
        self.states.insert(grain, None)?;
        Ok(())
    }

    /// Gives a grain that has its place a last state, in place of the one that it has, if any. Takes no memory.
    pub(crate) fn put(&mut self, grain: GrainId, state: State)
        requires { is_placed self.old grain ≡ true }
        ensures put { PutsKept self.old self.new grain state }
        ensures places { KeepsPlaced self.old self.new }
    {
        let done = self.states.insert(grain, Some(state));
        prove!(done.is_ok());
    }

    /// The grain's last state, none where it has none.
    pub(crate) fn get(&self, grain: GrainId) -> Option<&State>
        ensures { option_copied result ≡ kept_in self.now grain }
    {
        let kept = self.states.get(&grain)?;
        kept.as_ref()
    }
}
