//! What a unit has, of whose grains each type has two fields, which begin with 1 and 2.
//!
//! | A line | does |
//! |---|---|
//! | `read K Y N ..`, `update K Y N ..` | holds the grain of type K and key Y in this mode, which was found with these numbers |
//! | `raise K Y`, `set K Y FIELD N` | makes its lock exclusive; gives a field a number |
//! | `mode K Y` | tells how it is locked, and its working state |
//! | `steps N`, `units N` | takes so many steps, or asks for so many units, and tells how many there were |
//! | `fill N` | holds the grains of type 9 from key 0 on while there is room, at most so many, and tells how many |
//!
//! The first four tell what is held: each grain with its mode, its working state and whether that was written.

use crate::trouble::Trouble;
use base_types::{GrainId, Mode, STATE_LIMIT, State, Value};
use script_holding::{Held, Holding};
use script_tree::{Chars, FieldDecl, Literal, Name};
use std::alloc::{AllocError, Global};
use test_cases::add_values;

fn field_of(alloc: Global, name: &str, number: i64) -> Result<FieldDecl, AllocError> {
    let text = Chars::new(alloc, name)?;
    Ok(FieldDecl {
        name: Name { text, at: 0 },
        initial: Literal::Int(number),
    })
}

fn state_of(alloc: Global, numbers: &[u32]) -> Result<State, AllocError> {
    let mut state = State::new(alloc);
    for number in numbers {
        if state.len() < STATE_LIMIT {
            state.push(Value::Int(i64::from(*number)))?;
        }
    }
    Ok(state)
}

fn numbers_of(alloc: Global, case: &str) -> Result<Vec<u32>, AllocError> {
    let mut numbers = Vec::new(alloc);
    for word in case.split_whitespace() {
        numbers.push(word.parse::<u32>().unwrap_or(0))?;
    }
    Ok(numbers)
}

fn grain_of(numbers: &[u32]) -> GrainId {
    match numbers {
        [kind, key, ..] => GrainId {
            kind: u16::try_from(*kind).unwrap_or(0),
            key: *key,
        },
        _ => GrainId { kind: 0, key: 0 },
    }
}

fn lock(
    alloc: Global,
    holding: &mut Holding,
    mode: Mode,
    numbers: &[u32],
) -> Result<(), AllocError> {
    let fields = [field_of(alloc, "first", 1)?, field_of(alloc, "second", 2)?];
    let found = state_of(alloc, numbers.get(2..).unwrap_or(&[]))?;
    holding.lock(grain_of(numbers), mode, &fields, found)
}

fn set(holding: &mut Holding, numbers: &[u32]) {
    if let [_, _, field, number] = numbers {
        let value = Value::Int(i64::from(*number));
        holding.set_field(grain_of(numbers), *field as usize, value);
    }
}

// How many steps were taken.
fn steps(holding: &mut Holding, most: u32) -> u32 {
    let mut taken: u32 = 0;
    for _ in 0..most {
        if holding.take_step() {
            taken = taken.saturating_add(1);
        }
    }
    taken
}

// How many units were asked for.
fn units(holding: &mut Holding, most: u32) -> u32 {
    let mut asked: u32 = 0;
    for _ in 0..most {
        if holding.ask_unit() {
            asked = asked.saturating_add(1);
        }
    }
    asked
}

// How many grains were held while there was room.
fn fill(alloc: Global, holding: &mut Holding, most: u32) -> Result<u32, AllocError> {
    for key in 0..most {
        if !holding.has_room() {
            return Ok(key);
        }
        lock(alloc, holding, Mode::Read, &[9, key])?;
    }
    Ok(most)
}

fn add_held(out: &mut String, held: &Held) -> Result<(), AllocError> {
    let GrainId { kind, key } = held.grain;
    let mode = held.mode;
    write!(out, "{kind}/{key} {mode:?} ")?;
    add_values(out, held.state.as_slice())?;
    out.push_str(if held.written { " written; " } else { "; " })
}

fn add_all(out: &mut String, held: &[Held]) -> Result<(), AllocError> {
    for one in held {
        add_held(out, one)?;
    }
    Ok(())
}

// Does what changes what is held. Whether the word says so.
fn change(
    alloc: Global,
    holding: &mut Holding,
    word: &str,
    numbers: &[u32],
) -> Result<bool, AllocError> {
    match word {
        "read" => lock(alloc, holding, Mode::Read, numbers)?,
        "update" => lock(alloc, holding, Mode::Update, numbers)?,
        "raise" => holding.raise(grain_of(numbers)),
        "set" => set(holding, numbers),
        _ => return Ok(false),
    }
    Ok(true)
}

fn add_mode(out: &mut String, holding: &Holding, grain: GrainId) -> Result<(), AllocError> {
    let mode = holding.mode_of(grain);
    write!(out, "{mode:?} ")?;
    add_values(out, holding.state_of(grain))
}

fn add_told(
    alloc: Global,
    out: &mut String,
    holding: &mut Holding,
    word: &str,
    numbers: &[u32],
) -> Result<(), AllocError> {
    if change(alloc, holding, word, numbers)? {
        return add_all(out, holding.held());
    }
    if word == "mode" {
        return add_mode(out, holding, grain_of(numbers));
    }
    let most = numbers.first().copied().unwrap_or(0);
    let count = match word {
        "steps" => steps(holding, most),
        "units" => units(holding, most),
        "fill" => fill(alloc, holding, most)?,
        _ => return out.push_str("no such case"),
    };
    write!(out, "{count}")
}

/// What is told of a case of what a unit has.
pub fn told_of_holding(
    alloc: Global,
    holding: &mut Holding,
    word: &str,
    case: &str,
) -> Result<String, Trouble> {
    let numbers = numbers_of(alloc, case)?;
    let mut out = String::new(alloc);
    add_told(alloc, &mut out, holding, word, &numbers)?;
    Ok(out)
}
