//! `store`: the grains' states.
//!
//! | A step | does |
//! |---|---|
//! | `put GRAIN NUMBER`, `set GRAIN NUMBER` | gives the grain a state, or a copy of its own with another number |
//! | `get GRAIN` | tells the grain's state |

use crate::cases::{Part, carry, no_step};
use crate::printer::add_state;
use crate::steps::Step;
use base_types::{Store, Value};
use std::alloc::{AllocError, Global};

/// Puts a store through the steps.
pub fn play(alloc: Global, out: &mut String, steps: &str) -> Result<(), AllocError> {
    let mut store = Store::new(alloc);
    carry(&mut store, alloc, out, steps)
}

fn put(store: &mut Store, step: &Step<'_>) -> Result<(), AllocError> {
    let state = step.state(2)?;
    store.put(step.grain(1), state)
}

// Gives the first field of a copy of the grain's state another number, and puts that.
fn set(store: &mut Store, step: &Step<'_>) -> Result<(), AllocError> {
    let Some(state) = store.get(step.grain(1)) else {
        return Ok(());
    };
    let mut state = state.copy()?;
    if state.len() > 0 {
        state.set(0, Value::Int(step.int(2)));
    }
    store.put(step.grain(1), state)
}

impl Part for Store {
    fn step(&mut self, out: &mut String, step: &Step<'_>) -> Result<(), AllocError> {
        match step.word(0) {
            "put" => put(self, step),
            "set" => set(self, step),
            "get" => add_state(out, self.get(step.grain(1))),
            _ => no_step(out),
        }
    }
}
