//! `same`: what units did, and outcomes, compared with one another.
//!
//! | A step | tells what is the same |
//! |---|---|
//! | `effects ARGUMENT READ ARGUMENT READ` | of two units that called with this argument and read this state |
//! | `copy ARGUMENT READ` | of a unit and its copy |
//! | `outcomes KIND TEXT KIND TEXT` | of two outcomes, and of the first one and its copy: each `fault` or `value` with its text, or `aborted` |

use crate::cases::{Part, carry, no_step};
use crate::effects::{effect, one_read, one_write, outcome_of};
use crate::printer::add_flag;
use crate::steps::{Step, state_of};
use base_types::{List, Outcome, UnitNo, Value};
use core_model::Effect;
use core_parts::Same;
use std::alloc::{AllocError, Global};

/// Compares, and keeps nothing from one step to the next.
#[derive(Clone, Copy)]
struct Comparing;

/// Compares what the steps say.
pub fn play(alloc: Global, out: &mut String, steps: &str) -> Result<(), AllocError> {
    carry(&mut Comparing, alloc, out, steps)
}

fn args_of(alloc: Global, argument: i64) -> Result<List<Value>, AllocError> {
    let mut args = List::new(alloc);
    args.push(Value::Int(argument))?;
    Ok(args)
}

// What unit 5 did: it called with this number, read this state of unit 3, and wrote 9.
fn effect_of(alloc: Global, argument: i64, read: i64) -> Result<Effect, AllocError> {
    let args = args_of(alloc, argument)?;
    let reads = one_read(alloc, 7, state_of(alloc, read)?, UnitNo(3))?;
    let writes = one_write(alloc, 7, state_of(alloc, 9)?)?;
    Ok(effect(alloc, UnitNo(5), args, reads, writes))
}

// Writes what is the same of what two units did, and the other one's number and how much it wrote.
fn add_same(out: &mut String, one: &Effect, other: &Effect) -> Result<(), AllocError> {
    let call = one.call.is_same(&other.call);
    let reads = one.reads.is_same(&other.reads);
    let answers = one.answers.is_same(&other.answers);
    write!(out, " = call {call}, reads {reads}, answers {answers}")?;
    let result = one.result.is_same(&other.result);
    let origin = one.origin.is_same(&other.origin);
    write!(out, ", result {result}, origin {origin}")?;
    let unit = other.unit.0;
    let writes = other.writes.len();
    write!(out, ", unit {unit} with {writes} write")
}

fn add_other(out: &mut String, one: &Effect, step: &Step<'_>) -> Result<(), AllocError> {
    let other = effect_of(step.alloc, step.int(3), step.int(4))?;
    add_same(out, one, &other)
}

fn compare(out: &mut String, step: &Step<'_>) -> Result<(), AllocError> {
    let one = effect_of(step.alloc, step.int(1), step.int(2))?;
    add_other(out, &one, step)
}

fn add_copy(out: &mut String, one: &Effect) -> Result<(), AllocError> {
    let copy = one.copy()?;
    add_same(out, one, &copy)
}

fn compare_copy(out: &mut String, step: &Step<'_>) -> Result<(), AllocError> {
    let one = effect_of(step.alloc, step.int(1), step.int(2))?;
    add_copy(out, &one)
}

fn add_other_outcome(out: &mut String, one: &Outcome, step: &Step<'_>) -> Result<(), AllocError> {
    let other = outcome_of(step.alloc, step.word(3), step.word(4))?;
    add_flag(out, one.is_same(&other))
}

fn add_outcome_copy(out: &mut String, one: &Outcome) -> Result<(), AllocError> {
    let copy = one.copy()?;
    let same = one.is_same(&copy);
    write!(out, ", its copy {same}")
}

fn compare_outcomes(out: &mut String, step: &Step<'_>) -> Result<(), AllocError> {
    let one = outcome_of(step.alloc, step.word(1), step.word(2))?;
    add_other_outcome(out, &one, step)?;
    add_outcome_copy(out, &one)
}

impl Part for Comparing {
    fn step(&mut self, out: &mut String, step: &Step<'_>) -> Result<(), AllocError> {
        match step.word(0) {
            "effects" => compare(out, step),
            "copy" => compare_copy(out, step),
            "outcomes" => compare_outcomes(out, step),
            _ => no_step(out),
        }
    }
}
