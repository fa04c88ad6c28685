//! `last`: the last state of each grain.
//!
//! | A step | does |
//! |---|---|
//! | `place GRAIN`, `put GRAIN NUMBER` | makes the grain's place; gives the grain a state, in its place |
//! | `get GRAIN` | tells the grain's last state |

use crate::cases::{Part, carry, no_step};
use crate::printer::add_state;
use crate::steps::Step;
use base_types::GrainId;
use core_parts::LastStates;
use std::alloc::{AllocError, Global};

/// Puts the last states through the steps.
pub fn play(alloc: Global, out: &mut String, steps: &str) -> Result<(), AllocError> {
    let mut last = LastStates::new(alloc, true);
    carry(&mut last, alloc, out, steps)
}

fn put(last: &mut LastStates, step: &Step<'_>) -> Result<(), AllocError> {
    let grain = step.grain(1);
    let state = step.state(2)?;
    last.make_place(grain)?;
    last.put(grain, state);
    Ok(())
}

// The grain's last state, of states that are kept.
fn tell(last: &LastStates, out: &mut String, grain: GrainId) -> Result<(), AllocError> {
    if !last.keeps() {
        return out.push_str("not kept");
    }
    add_state(out, last.get(grain))
}

impl Part for LastStates {
    fn step(&mut self, out: &mut String, step: &Step<'_>) -> Result<(), AllocError> {
        match step.word(0) {
            "place" => self.make_place(step.grain(1)),
            "put" => put(self, step),
            "get" => tell(self, out, step.grain(1)),
            _ => no_step(out),
        }
    }
}
