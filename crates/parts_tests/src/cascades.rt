//! `cascade`: which units of a batch commit.
//!
//! | A step | does |
//! |---|---|
//! | `unit UNIT SOURCE ..` | one more unit, with its sources |
//! | `failed GRAIN UNIT SOURCE ..` | likewise, but the file of this grain failed, which it wrote |
//! | `aborted UNIT ..` | these units have aborted |
//! | `decide` | tells what becomes of each unit |

use crate::cases::{Part, carry, no_step};
use crate::steps::Step;
use base_types::{GrainId, List, UnitNo};
use cascade_abort::{Decision, Prepared, decide_batch};
use std::alloc::{AllocError, Global};

/// A batch, and the units that are known to have aborted.
#[derive(Drop)]
struct Batch {
    units: List<Prepared>,
    aborted: List<UnitNo>,
}

/// Puts a batch through the steps.
pub fn play(alloc: Global, out: &mut String, steps: &str) -> Result<(), AllocError> {
    let mut batch = Batch {
        units: List::new(alloc),
        aborted: List::new(alloc),
    };
    carry(&mut batch, alloc, out, steps)
}

fn add_unit(batch: &mut Batch, step: &Step<'_>) -> Result<(), AllocError> {
    let deps = step.units(2)?;
    batch.units.push(Prepared {
        unit: step.unit(1),
        failed: None,
        deps,
    })?;
    Ok(())
}

// The file of a grain failed, which the unit wrote.
fn add_failed(batch: &mut Batch, step: &Step<'_>) -> Result<(), AllocError> {
    let deps = step.units(3)?;
    batch.units.push(Prepared {
        unit: step.unit(2),
        failed: Some(step.grain(1)),
        deps,
    })?;
    Ok(())
}

fn set_aborted(batch: &mut Batch, step: &Step<'_>) -> Result<(), AllocError> {
    batch.aborted = step.units(1)?;
    Ok(())
}

// Decides the batch over decisions that are wrong.
fn add_decisions(alloc: Global, out: &mut String, batch: &Batch) -> Result<(), AllocError> {
    let wrong = Decision::Vote {
        grain: GrainId { kind: 1, key: 99 },
    };
    let mut decisions = vec![in alloc; wrong; batch.units.len()]?;
    decide_batch(&batch.units, &batch.aborted, &mut decisions);
    write!(out, " = {decisions:?}")
}

impl Part for Batch {
    fn step(&mut self, out: &mut String, step: &Step<'_>) -> Result<(), AllocError> {
        match step.word(0) {
            "unit" => add_unit(self, step),
            "failed" => add_failed(self, step),
            "aborted" => set_aborted(self, step),
            "decide" => add_decisions(step.alloc, out, self),
            _ => no_step(out),
        }
    }
}
