//! `handed`: the states that units will hand to the grains.
//!
//! | A step | does |
//! |---|---|
//! | `keep UNIT GRAIN NUMBER` | keeps a state |
//! | `take UNIT GRAIN` | hands the state out, and tells it |

use crate::cases::{Part, carry, no_step};
use crate::printer::add_state;
use crate::steps::Step;
use core_parts::HandedStates;
use std::alloc::{AllocError, Global};

/// Puts the handed states through the steps.
pub fn play(alloc: Global, out: &mut String, steps: &str) -> Result<(), AllocError> {
    let mut handed = HandedStates::new(alloc);
    carry(&mut handed, alloc, out, steps)
}

fn keep(handed: &mut HandedStates, step: &Step<'_>) -> Result<(), AllocError> {
    let state = step.state(3)?;
    handed.keep(step.unit(1), step.grain(2), state)
}

fn take(handed: &mut HandedStates, out: &mut String, step: &Step<'_>) -> Result<(), AllocError> {
    let state = handed.take(step.unit(1), step.grain(2));
    add_state(out, state.as_ref())
}

impl Part for HandedStates {
    fn step(&mut self, out: &mut String, step: &Step<'_>) -> Result<(), AllocError> {
        match step.word(0) {
            "keep" => keep(self, step),
            "take" => take(self, out, step),
            _ => no_step(out),
        }
    }
}
