ghost use Rattle.std.specs.Prelude.{◌≡◌, [], IfOk};
ghost use Rattle.cell_table.specs.Table.{used_of};

use activations::Recent;
use base_types::{GrainId, List, Shape, State, Store, Text, TypeShape, UnitNo, Value};
use cell_table::OpeningStates;
use history_core::Opening;
use std::alloc::{AllocError, Global};
use std::num::NonZeroUsize;

// The state of one number.
fn number_state(alloc: Global, number: i64) -> Result<State, AllocError> {
    let mut state = State::new(alloc);
    state.push(Value::Int(number))?;
    Ok(state)
}

fn type_shape(alloc: Global, name: &str, initial: State) -> Result<TypeShape, AllocError> {
    let Some(name) = Text::new(alloc, name)? else {
        return Err(AllocError);
    };
    Ok(TypeShape {
        name,
        initial,
        params: List::new(alloc),
    })
}

fn add_types(alloc: Global, types: &mut List<TypeShape>) -> Result<(), AllocError> {
    types.push(type_shape(alloc, "account", number_state(alloc, 0)?)?)?;
    types.push(type_shape(alloc, "probe", State::new(alloc))?)?;
    Ok(())
}

// Two types: the first has one field, 0 at first, and the second none.
fn shape(alloc: Global) -> Result<Shape, AllocError> {
    let mut types = List::new(alloc);
    match add_types(alloc, &mut types) {
        Ok(()) => Ok(Shape { types }),
        Err(error) => {
            drop(types);
            Err(error)
        }
    }
}

// The grain of the first type with the key 0 has 100.
fn store(alloc: Global) -> Result<Store, AllocError> {
    let state = number_state(alloc, 100)?;
    let mut store = Store::new(alloc);
    match store.put(GrainId { kind: 0, key: 0 }, state) {
        Ok(()) => Ok(store),
        Err(error) => {
            drop(store);
            Err(error)
        }
    }
}

fn shape_and_store(alloc: Global) -> Result<(Shape, Store), AllocError> {
    let shape = shape(alloc)?;
    match store(alloc) {
        Ok(store) => Ok((shape, store)),
        Err(error) => {
            drop(shape);
            Err(error)
        }
    }
}

// None of the grains used last, of which so many stay in memory; none at all where that is 0, so that every grain does.
fn recent(alloc: Global, limit: usize) -> Result<Option<Recent>, AllocError>
    ensures { IfOk result (λ made. used_of made ≡ []) }
{
    let Some(limit) = NonZeroUsize::new(limit) else {
        return Ok(None);
    };
    let recent = Recent::new(alloc, limit)?;
    Ok(Some(recent))
}

/// An opening whose first unit has that number. The grain of the first type with the key 0 has 100. So many of the grains used
/// last stay in memory, and every grain where that is 0.
pub fn opening(alloc: Global, next_unit: u64, limit: usize) -> Result<Opening, AllocError>
    ensures unit { IfOk result (λ made. made.next_unit.0 ≡ next_unit) }
    ensures unused { IfOk result (λ made. used_of made.recent ≡ []) }
{
    let recent = recent(alloc, limit)?;
    match shape_and_store(alloc) {
        Ok((shape, store)) => Ok(Opening {
            shape,
            opened: OpeningStates::Stored(store),
            next_unit: UnitNo(next_unit),
            recent,
            keeps_last: true,
        }),
        Err(error) => {
            drop(recent);
            Err(error)
        }
    }
}
