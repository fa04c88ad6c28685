//! `copy`: texts, copies of the plain types, and a history.
//!
//! | A step | tells |
//! |---|---|
//! | `text BYTES` | whether a text of so many bytes is taken |
//! | `call GRAIN METHOD NUMBER TEXT` | the copy of a call with two arguments |
//! | `fault TEXT` | the copy of a fault |
//! | `lock LINE UNIT UNIT GRAIN` | the copy of the entry of a line's unit that another unit's lock of the grain aborted |
//! | `write KEY NUMBER` | the copy of a list of one write, of a grain of type 1 |
//! | `units UNIT ..` | the copy of a list of units |
//! | `history` | how many bytes a history of two events takes |

use crate::cases::{Part, carry, no_step};
use crate::effects::{one_write, outcome_of};
use crate::printer::{add_flag, add_known, add_units};
use crate::steps::Step;
use base_types::{Call, Entry, GrainId, List, Settled, State, Text, Value};
use core_model::CoreEvent;
use core_parts::History;
use std::alloc::{AllocError, Global};
use std::mem;
use test_cases::{add_grain, add_values};

/// Copies, and keeps nothing from one step to the next.
#[derive(Clone, Copy)]
struct Copying;

/// Copies what the steps say.
pub fn play(alloc: Global, out: &mut String, steps: &str) -> Result<(), AllocError> {
    carry(&mut Copying, alloc, out, steps)
}

// Whether a text of so many bytes is taken.
fn add_text(out: &mut String, step: &Step<'_>) -> Result<(), AllocError> {
    let mut long = String::new(step.alloc);
    for _ in 0..step.short(1) {
        long.push('a')?;
    }
    let text = Text::new(step.alloc, long.as_str())?;
    add_flag(out, text.is_some())
}

fn call_of(step: &Step<'_>) -> Result<Call, AllocError> {
    let mut args = List::new(step.alloc);
    args.push(Value::Int(step.int(3)))?;
    if let Some(text) = Text::new(step.alloc, step.word(4))? {
        args.push(Value::Text(text))?;
    }
    Ok(Call {
        grain: step.grain(1),
        method: u16::try_from(step.number(2)).unwrap_or(0),
        args,
    })
}

fn add_call(out: &mut String, call: &Call) -> Result<(), AllocError> {
    out.push_str(" = ")?;
    add_grain(out, call.grain)?;
    let method = call.method;
    write!(out, ".{method}")?;
    add_values(out, call.args.as_slice())
}

fn copy_call(out: &mut String, step: &Step<'_>) -> Result<(), AllocError> {
    let call = call_of(step)?;
    let copy = call.copy()?;
    add_call(out, &copy)
}

fn copy_outcome(out: &mut String, step: &Step<'_>) -> Result<(), AllocError> {
    let outcome = outcome_of(step.alloc, step.word(0), step.word(1))?;
    let copy = outcome.copy()?;
    add_known(out, Some(&copy))
}

fn add_entry(out: &mut String, entry: &Entry) -> Result<(), AllocError> {
    let line = entry.line;
    let unit = entry.unit.0;
    let Settled::Lock { by, grain } = &entry.what else {
        return out.push_str(" = no lock");
    };
    let by = by.0;
    write!(out, " = line {line}, unit {unit}, lock of {by} at ")?;
    add_grain(out, *grain)
}

// The copy of an entry that says which unit's lock of which grain aborted a unit.
fn copy_lock(out: &mut String, step: &Step<'_>) -> Result<(), AllocError> {
    let entry = Entry {
        line: step.short(1),
        unit: step.unit(2),
        what: Settled::Lock {
            by: step.unit(3),
            grain: step.grain(4),
        },
    };
    let copy = entry.copy()?;
    add_entry(out, &copy)
}

fn add_writes(out: &mut String, writes: &[(GrainId, State)]) -> Result<(), AllocError> {
    for write in writes {
        out.push_str(" = ")?;
        add_grain(out, write.0)?;
        add_values(out, write.1.as_slice())?;
    }
    Ok(())
}

// The copy of a list of one write.
fn copy_write(out: &mut String, step: &Step<'_>) -> Result<(), AllocError> {
    let writes = one_write(step.alloc, step.short(1), step.state(2)?)?;
    let copy = writes.copy()?;
    add_writes(out, copy.as_slice())
}

fn copy_units(out: &mut String, step: &Step<'_>) -> Result<(), AllocError> {
    let units = step.units(1)?;
    let copy = units.copied()?;
    add_units(out, copy.as_slice())
}

fn add_history(out: &mut String) -> Result<(), AllocError> {
    let mut history = History::new();
    history.note(&CoreEvent::Emitted);
    history.note(&CoreEvent::Halt);
    let bytes = mem::size_of::<History>();
    write!(out, " = {bytes} bytes")
}

impl Part for Copying {
    fn step(&mut self, out: &mut String, step: &Step<'_>) -> Result<(), AllocError> {
        match step.word(0) {
            "text" => add_text(out, step),
            "call" => copy_call(out, step),
            "fault" => copy_outcome(out, step),
            "lock" => copy_lock(out, step),
            "write" => copy_write(out, step),
            "units" => copy_units(out, step),
            "history" => add_history(out),
            _ => no_step(out),
        }
    }
}
