ghost use Rattle.std.specs.Prelude.{◌≡◌, List, [], ◌∷◌};
ghost use Rattle.std.specs.Borrow.{ftrue};
ghost use Rattle.core_parts.specs.declared.known_states.KnownState.{KnownState as AKnownState};

use base_types::{GrainId, State};
use std::marker::Model;

/// A state of a grain.
#[derive(Drop)]
pub(crate) struct KnownState {
    pub(crate) grain: GrainId,
    pub(crate) state: State,
}

/// States of grains that contracts know, the newest first. They take no bytes.
#[derive(Drop)]
pub(crate) struct KnownStates {
    pub(crate) ghost states: { List AKnownState },
}

impl Model for KnownStates {
    ghost also_owns = { λ _. ftrue };
}

// A struct with `also_owns` may cross threads only where it is said. This one owns nothing.
unsafe impl Send for KnownStates {}

unsafe impl Sync for KnownStates {}

impl KnownStates {
    /// None. Takes no memory.
    pub(crate) fn new() -> KnownStates
        ensures { result.states ≡ [] }
    {
        KnownStates {}
    }

    /// These and one more, the newest. Takes no memory, and reads nothing of it when it runs.
    pub(crate) fn with(_before: &KnownStates, _state: &KnownState) -> KnownStates
        ensures { result.states ≡ _state.now ∷ _before.now.states }
    {
        KnownStates {}
    }
}
