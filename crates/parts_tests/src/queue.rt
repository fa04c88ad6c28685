//! `queue`: the units whose decisions grains have to learn.
//!
//! | A step | does |
//! |---|---|
//! | `push UNIT GRAIN UNIT GRAIN UNIT GRAIN` | makes room for three pairs, and appends them |
//! | `has UNIT GRAIN`, `first` | tells whether the pair is there, and which came first |
//! | `remove UNIT GRAIN` | takes the pair off |

use crate::cases::{Part, carry, no_step};
use crate::printer::add_flag;
use crate::steps::Step;
use core_parts::LearnQueue;
use std::alloc::{AllocError, Global};

/// Puts a queue through the steps.
pub fn play(alloc: Global, out: &mut String, steps: &str) -> Result<(), AllocError> {
    let mut queue = LearnQueue::new(alloc);
    carry(&mut queue, alloc, out, steps)
}

fn push_three(queue: &mut LearnQueue, step: &Step<'_>) -> Result<(), AllocError> {
    queue.reserve(3)?;
    queue.push(step.unit(1), step.grain(2));
    queue.push(step.unit(3), step.grain(4));
    queue.push(step.unit(5), step.grain(6));
    Ok(())
}

fn remove(queue: &mut LearnQueue, step: &Step<'_>) -> Result<(), AllocError> {
    queue.remove(step.unit(1), step.grain(2));
    Ok(())
}

fn add_first(out: &mut String, queue: &LearnQueue) -> Result<(), AllocError> {
    let first = queue.first();
    write!(out, " = {first:?}")
}

impl Part for LearnQueue {
    fn step(&mut self, out: &mut String, step: &Step<'_>) -> Result<(), AllocError> {
        match step.word(0) {
            "push" => push_three(self, step),
            "has" => add_flag(out, self.contains(step.unit(1), step.grain(2))),
            "remove" => remove(self, step),
            "first" => add_first(out, self),
            _ => no_step(out),
        }
    }
}
