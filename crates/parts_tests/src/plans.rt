//! `plan`: the work of a batch, grain by grain. The grains are of type 1, and each version has its unit's number as its state.
//!
//! | A step | does |
//! |---|---|
//! | `unit UNIT SOURCE KEY ..` | one more unit, with the unit that it read from, and the keys of the grains that it wrote |
//! | `aborted UNIT ..` | these units have aborted |
//! | `end KEY END` | the grain's file ends there |
//! | `plan` | tells for each file where its versions go, and which |

use crate::cases::{Part, carry, no_step};
use crate::effects::{effect, grain, one_read};
use crate::printer::add_each;
use crate::steps::{Step, state_of};
use base_types::{Ends, GrainId, List, State, UnitNo};
use core_model::Effect;
use prepare_batch::{FileWork, plan};
use std::alloc::{AllocError, Global};
use test_cases::add_grain;

/// What the units of a batch did, the units that are known to have aborted, and where the files end.
#[derive(Drop)]
struct Batch {
    effects: List<Effect>,
    aborted: List<UnitNo>,
    ends: Ends,
}

/// Puts a batch through the steps.
pub fn play(alloc: Global, out: &mut String, steps: &str) -> Result<(), AllocError> {
    let mut batch = Batch {
        effects: List::new(alloc),
        aborted: List::new(alloc),
        ends: Ends::new(alloc),
    };
    carry(&mut batch, alloc, out, steps)
}

// The unit wrote its number to the grains of these keys.
fn writes_of(
    alloc: Global,
    unit: i64,
    keys: &[UnitNo],
) -> Result<List<(GrainId, State)>, AllocError> {
    let mut writes = List::new(alloc);
    for key in keys {
        let key = u32::try_from(key.0).unwrap_or(0);
        writes.push((grain(key), state_of(alloc, unit)?))?;
    }
    Ok(writes)
}

fn effect_of(step: &Step<'_>) -> Result<Effect, AllocError> {
    let keys = step.units(3)?;
    let reads = one_read(step.alloc, 5, State::new(step.alloc), step.unit(2))?;
    let writes = writes_of(step.alloc, step.int(1), keys.as_slice())?;
    Ok(effect(
        step.alloc,
        step.unit(1),
        List::new(step.alloc),
        reads,
        writes,
    ))
}

fn add_unit(batch: &mut Batch, step: &Step<'_>) -> Result<(), AllocError> {
    let effect = effect_of(step)?;
    batch.effects.push(effect)?;
    Ok(())
}

fn set_aborted(batch: &mut Batch, step: &Step<'_>) -> Result<(), AllocError> {
    batch.aborted = step.units(1)?;
    Ok(())
}

fn add_work(out: &mut String, work: &FileWork) -> Result<(), AllocError> {
    out.push_str(" [")?;
    add_grain(out, work.grain)?;
    let at = work.at;
    write!(out, " at {at}:")?;
    add_each(out, work.versions.as_slice())?;
    out.push_str("]")
}

fn add_plan(out: &mut String, alloc: Global, batch: &Batch) -> Result<(), AllocError> {
    let works = plan(alloc, &batch.effects, &batch.aborted, &batch.ends)?;
    out.push_str(" =")?;
    for work in works.as_slice() {
        add_work(out, work)?;
    }
    Ok(())
}

impl Part for Batch {
    fn step(&mut self, out: &mut String, step: &Step<'_>) -> Result<(), AllocError> {
        match step.word(0) {
            "unit" => add_unit(self, step),
            "aborted" => set_aborted(self, step),
            "end" => self.ends.put(grain(step.short(1)), step.number(2)),
            "plan" => add_plan(out, step.alloc, self),
            _ => no_step(out),
        }
    }
}
