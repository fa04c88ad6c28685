//! `ends`: where the grains' files end.
//!
//! | A step | does |
//! |---|---|
//! | `put GRAIN END`, `room GRAIN` | gives the grain's file an end; makes room for one |
//! | `raise GRAIN END END` | makes room, raises the end to one and then to the other, and tells it after each |
//! | `get GRAIN` | tells the end |

use crate::cases::{Part, carry, no_step};
use crate::steps::Step;
use base_types::Ends;
use std::alloc::{AllocError, Global};

/// Puts ends through the steps.
pub fn play(alloc: Global, out: &mut String, steps: &str) -> Result<(), AllocError> {
    let mut ends = Ends::new(alloc);
    carry(&mut ends, alloc, out, steps)
}

// Raises an end twice in one room.
fn raise(ends: &mut Ends, out: &mut String, step: &Step<'_>) -> Result<(), AllocError> {
    let grain = step.grain(1);
    ends.room(grain)?;
    ends.raise(grain, step.number(2));
    let first = ends.get(grain);
    ends.raise(grain, step.number(3));
    let second = ends.get(grain);
    write!(out, " = {first:?}, {second:?}")
}

fn add_end(out: &mut String, ends: &Ends, step: &Step<'_>) -> Result<(), AllocError> {
    let end = ends.get(step.grain(1));
    write!(out, " = {end:?}")
}

impl Part for Ends {
    fn step(&mut self, out: &mut String, step: &Step<'_>) -> Result<(), AllocError> {
        match step.word(0) {
            "put" => self.put(step.grain(1), step.number(2)),
            "room" => self.room(step.grain(1)),
            "raise" => raise(self, out, step),
            "get" => add_end(out, self, step),
            _ => no_step(out),
        }
    }
}
