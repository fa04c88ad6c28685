//! `dependencies`: the sources of a unit.
//!
//! | A step | does |
//! |---|---|
//! | `add UNIT ..` | adds these sources, one after another |
//! | `list` | tells the sources |
//! | `aborted UNIT ..` | tells the oldest source that is one of these |

use crate::cases::{Part, carry, no_step};
use crate::printer::add_units;
use crate::steps::Step;
use dependency_sets::DepSet;
use std::alloc::{AllocError, Global};

/// Puts the sources of a unit through the steps.
pub fn play(alloc: Global, out: &mut String, steps: &str) -> Result<(), AllocError> {
    let mut set = DepSet::new(alloc)?;
    carry(&mut set, alloc, out, steps)
}

fn add(set: &mut DepSet, step: &Step<'_>) -> Result<(), AllocError> {
    let sources = step.units(1)?;
    for source in sources.as_slice() {
        set.add_source(*source)?;
    }
    Ok(())
}

fn add_aborted(out: &mut String, set: &DepSet, step: &Step<'_>) -> Result<(), AllocError> {
    let aborted = step.units(1)?;
    let oldest = set.first_aborted(&aborted);
    write!(out, " = {oldest:?}")
}

impl Part for DepSet {
    fn step(&mut self, out: &mut String, step: &Step<'_>) -> Result<(), AllocError> {
        match step.word(0) {
            "add" => add(self, step),
            "list" => add_units(out, self.list()),
            "aborted" => add_aborted(out, self, step),
            _ => no_step(out),
        }
    }
}
