ghost use Rattle.std.specs.Prelude.{◌≡◌, true, None, OnOk};
ghost use Rattle.std.specs.Option.{option_copied};
ghost use Rattle.base_types.specs.declared.calls.GrainId.{GrainId};
ghost use Rattle.core_parts.specs.States.{keeps_states, last_in, has_place, PutsLast, KeepsPlaces};

use crate::kept_states::KeptStates;
use crate::known_states::{KnownState, KnownStates};
use base_types::{GrainId, State};
use std::alloc::{AllocError, Global};

/// The last committed state of each grain that has one: kept, or known to contracts alone, where they take no bytes. A grain may have
/// its place made before it has a state.
#[derive(Drop)]
pub struct LastStates {
    kept: Option<KeptStates>,
    known: KnownStates,
}

impl LastStates {
    /// No grain has a state. Takes no memory.
    pub fn new(alloc: Global, keeps: bool) -> LastStates
        ensures none { (grain : GrainId) → last_in result grain ≡ None }
        ensures keeps { keeps_states result ≡ keeps }
    {
        if keeps {
            return LastStates {
                kept: Some(KeptStates::new(alloc)),
                known: KnownStates::new(),
            };
        }
        LastStates {
            kept: None,
            known: KnownStates::new(),
        }
    }

    /// Whether the states are kept.
    pub fn keeps(&self) -> bool
        ensures { result ≡ keeps_states self.now }
    {
        self.kept.is_some()
    }

    /// Makes a grain's place, so that `put` takes no memory. Changes no state, and takes no place away, whether there
    /// was memory or not.
    pub fn make_place(&mut self, grain: GrainId) -> Result<(), AllocError>
        ensures made { OnOk result (has_place self.new grain ≡ true) }
        ensures same { (other : GrainId) → last_in self.new other ≡ last_in self.old other }
        ensures places { KeepsPlaces self.old self.new }
        ensures keeps { keeps_states self.new ≡ keeps_states self.old }
    {
        match &mut self.kept {
            Some(kept) => kept.make_place(grain),
            None => Ok(()),
        }
    }

    /// Gives a grain that has its place a last state, in place of the one that it has, if any. Takes no memory.
    pub fn put(&mut self, grain: GrainId, state: State)
        requires { has_place self.old grain ≡ true }
        ensures put { PutsLast self.old self.new grain state }
        ensures places { KeepsPlaces self.old self.new }
        ensures keeps { keeps_states self.new ≡ keeps_states self.old }
    {
        match &mut self.kept {
            Some(kept) => kept.put(grain, state),
            None => self.known = KnownStates::with(&self.known, &KnownState { grain, state }),
        }
    }

    /// The grain's last state, none where it has none.
    pub fn get(&self, grain: GrainId) -> Option<&State>
        requires { keeps_states self.now ≡ true }
        ensures { option_copied result ≡ last_in self.now grain }
    {
        match &self.kept {
            Some(kept) => kept.get(grain),
            None => None,
        }
    }
}
