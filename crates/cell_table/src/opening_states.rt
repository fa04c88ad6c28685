ghost use Rattle.std.specs.Prelude.{◌≡◌, slice_get, IfOk};
ghost use Rattle.std.specs.Option.{option_copied};
ghost use Rattle.base_types.specs.Stores.{state_in};
ghost use Rattle.cell_table.specs.Table.{initial_fields, opening_state, state_or};

use base_types::{GrainId, Places, Shape, State, Store, TypeShape};
use std::alloc::{AllocError, Global};
use std::snapshot::Snapshot;

/// With which states the grains open. A grain that has none here opens with its type's initial fields.
#[derive(Drop)]
pub enum OpeningStates {
    /// With those of the store, for a memory without a limit.
    Stored(Store),
    /// With those of the versions at these places, for contracts alone: each comes with its grain's load. They take no bytes.
    Placed(Snapshot<Places>),
}

/// A copy of the state with which the grain opens. Where contracts alone know it there is none, as where memory is wanting.
pub fn opening_state(
    alloc: Global,
    shape: &Shape,
    opened: &OpeningStates,
    grain: GrainId,
) -> Result<State, AllocError>
    ensures { IfOk result (λ state. state ≡ opening_state shape.now opened.now grain) }
{
    match opened {
        OpeningStates::Stored(store) => stored_state(alloc, shape, store, grain),
        OpeningStates::Placed(_) => Err(AllocError),
    }
}

// A copy of the grain's state in the store, or else of its type's initial fields.
fn stored_state(
    alloc: Global,
    shape: &Shape,
    store: &Store,
    grain: GrainId,
) -> Result<State, AllocError>
    ensures { IfOk result (λ state. state ≡ state_or (state_in store.now grain) (initial_fields (slice_get shape.now.types grain.kind))) }
{
    match store.get(grain) {
        Some(state) => state.copy(),
        None => initial_fields(alloc, shape.types.get(grain.kind as usize)),
    }
}

// A copy of a type's initial fields, none where there is no type.
fn initial_fields(alloc: Global, shape: Option<&TypeShape>) -> Result<State, AllocError>
    ensures { IfOk result (λ state. state ≡ initial_fields (option_copied shape.entry)) }
{
    match shape {
        Some(shape) => shape.initial.copy(),
        None => Ok(State::new(alloc)),
    }
}
