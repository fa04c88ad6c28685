//! `recent`: which grains were used last, of which there are at most two.
//!
//! | A step | does |
//! |---|---|
//! | `touch GRAIN` | uses the grain, and tells which one is none of them any more for that |
//! | `has GRAIN` | tells whether the grain is one of them |

use crate::cases::{Part, carry, no_step};
use crate::steps::Step;
use activations::Recent;
use std::alloc::{AllocError, Global};
use std::num::NonZeroUsize;

/// Puts the grains that were used last through the steps.
pub fn play(alloc: Global, out: &mut String, steps: &str) -> Result<(), AllocError> {
    let Some(limit) = NonZeroUsize::new(2) else {
        return Ok(());
    };
    let mut recent = Recent::new(alloc, limit)?;
    carry(&mut recent, alloc, out, steps)
}

fn add_touch(out: &mut String, recent: &mut Recent, step: &Step<'_>) -> Result<(), AllocError> {
    match recent.touch(step.grain(1))? {
        Some(left) => {
            let (kind, key) = (left.kind, left.key);
            write!(out, " = {kind}/{key}")
        }
        None => out.push_str(" = none"),
    }
}

fn add_has(out: &mut String, recent: &Recent, step: &Step<'_>) -> Result<(), AllocError> {
    let has = recent.has(step.grain(1));
    write!(out, " = {has}")
}

impl Part for Recent {
    fn step(&mut self, out: &mut String, step: &Step<'_>) -> Result<(), AllocError> {
        match step.word(0) {
            "touch" => add_touch(out, self, step),
            "has" => add_has(out, self, step),
            _ => no_step(out),
        }
    }
}
