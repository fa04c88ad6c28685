// What a core answers to all questions, added up.
use crate::texts::{add_answer, add_entries, add_last};
use base_types::{Entry, GrainId, Mode, UnitNo};
use core_model::{AskAnswer, CoreAnswer, CoreQuestion};
use history_core::Core;
use std::alloc::AllocError;

// The grains that lists speak of, the last one without a type.
const GRAINS: [GrainId; 5] = [
    GrainId { kind: 0, key: 0 },
    GrainId { kind: 0, key: 1 },
    GrainId { kind: 0, key: 2 },
    GrainId { kind: 1, key: 1 },
    GrainId { kind: 2, key: 0 },
];

// The questions that speak of no unit.
const PLAIN_QUESTIONS: [CoreQuestion; 8] = [
    CoreQuestion::Batch,
    CoreQuestion::NextLearn,
    CoreQuestion::CanTake,
    CoreQuestion::NextLine,
    CoreQuestion::NextSettled,
    CoreQuestion::Halted,
    CoreQuestion::NextWanted,
    CoreQuestion::NextStep,
];

fn add(out: &mut String, core: &Core, question: &CoreQuestion) -> Result<(), AllocError> {
    let answer = core.ask(question)?;
    let added = add_answer(out, &answer);
    drop(answer);
    added?;
    out.push_str(" ")
}

fn is_active(core: &Core, unit: UnitNo) -> Result<bool, AllocError> {
    let question = CoreQuestion::Ask {
        unit,
        grain: GRAINS[0],
        mode: Mode::Read,
    };
    let answer = core.ask(&question)?;
    let is_active = match &answer {
        CoreAnswer::Ask(AskAnswer::NotActive) => false,
        _ => true,
    };
    drop(answer);
    Ok(is_active)
}

fn add_asks(out: &mut String, core: &Core, unit: UnitNo) -> Result<(), AllocError> {
    for grain in GRAINS {
        let mode = Mode::Read;
        add(out, core, &CoreQuestion::Ask { unit, grain, mode })?;
        let mode = Mode::Update;
        add(out, core, &CoreQuestion::Ask { unit, grain, mode })?;
    }
    Ok(())
}

// What is answered of a unit; of one that isn't active the locks only where the whole is wanted.
fn add_unit(out: &mut String, core: &Core, unit: UnitNo, whole: bool) -> Result<(), AllocError> {
    let number = unit.0;
    write!(out, "\n{number}: ")?;
    add(out, core, &CoreQuestion::Outcome { unit })?;
    add(out, core, &CoreQuestion::IsDecided { unit })?;
    if whole || is_active(core, unit)? {
        add_asks(out, core, unit)?;
    }
    Ok(())
}

// The last states, where they are kept.
fn add_grains(out: &mut String, core: &Core) -> Result<(), AllocError> {
    if !core.keeps_last() {
        return Ok(());
    }
    for grain in &GRAINS {
        add_last(out, core.last_state(*grain))?;
        out.push_str(" ")?;
    }
    Ok(())
}

/// What is asked for: what of the units below that number, and whether of all of them what they are answered that ask for
/// locks, or of the active ones alone.
#[derive(Clone, Copy)]
pub struct Wanted {
    pub whole: bool,
    pub below: u64,
}

/// Writes all that is answered: to each question of no unit, the last states, the settled entries, of which these are
/// written, and what is wanted of units.
pub fn survey(
    out: &mut String,
    core: &Core,
    written: &[Entry],
    wanted: Wanted,
) -> Result<(), AllocError> {
    out.clear();
    for question in &PLAIN_QUESTIONS {
        add(out, core, question)?;
        out.push_str("\n")?;
    }
    add_grains(out, core)?;
    out.push_str("\n")?;
    add_entries(out, written, core)?;
    for number in 0..wanted.below {
        add_unit(out, core, UnitNo(number), wanted.whole)?;
    }
    Ok(())
}

/// The sum of a text: from 0 on, for each byte times 2^40 + 435, and the byte added, modulo 2^64.
pub fn sum_of(text: &str) -> u64 {
    let mut total = 0u64;
    for byte in text.as_bytes() {
        total = total
            .wrapping_mul(1099511628211)
            .wrapping_add(u64::from(*byte));
    }
    total
}
