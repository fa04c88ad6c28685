use crate::cases::{bytes_of, words_of};
use base_types::{State, Value};
use commit_log::encode_upgrade;
use field_codec::Format;
use log_reading::{EntryFault, Said, read_entry};
use program_file::accept;
use script_check::{Checked, carry_state, compare};
use std::alloc::{AllocError, Global};

// The program of a text in hexadecimal, none where it is no program.
fn program_of(alloc: Global, word: &str) -> Result<Option<Checked>, AllocError> {
    let text = bytes_of(alloc, word)?;
    if text.len() > 262_144 {
        return Ok(None);
    }
    match accept(alloc, text.as_slice()) {
        Ok(checked) => Ok(Some(checked)),
        Err(_) => Ok(None),
    }
}

fn compared(alloc: Global, old: &str, new: &str) -> Result<String, AllocError> {
    let Some(one) = program_of(alloc, old)? else {
        return String::from_str(alloc, " -> no program");
    };
    let Some(other) = program_of(alloc, new)? else {
        return String::from_str(alloc, " -> no program");
    };
    let Ok(end) = u32::try_from(bytes_of(alloc, new)?.len()) else {
        return String::from_str(alloc, " -> no program");
    };
    match compare(&one, &other, end) {
        Ok(()) => String::from_str(alloc, " -> goes on"),
        Err(fault) => {
            let at = fault.at;
            format!(in alloc; " -> refused at {at}")
        }
    }
}

fn add_state(out: &mut String, state: &State) -> Result<(), AllocError> {
    for value in state.as_slice() {
        match value {
            Value::Int(number) => write!(out, " {number}")?,
            Value::Text(text) => {
                let text = text.as_str();
                write!(out, " {text:?}")?;
            }
        }
    }
    Ok(())
}

// The state of a grain of the first type under the next program; none where it has no such state, or the program may not follow.
fn carry_first(
    alloc: Global,
    old: &Checked,
    next: &Checked,
    state: &State,
) -> Result<Option<State>, AllocError> {
    let types = old.program().types.as_slice();
    if types.is_empty() {
        return Ok(None);
    }
    if types[0].fields.len() != state.len() {
        return Ok(None);
    }
    if let Err(_fault) = compare(old, next, 0) {
        return Ok(None);
    }
    Ok(Some(carry_state(alloc, old, next, 0, state)?))
}

// The state of these numbers under the last of the programs.
fn carried(alloc: Global, numbers: &str, programs: &str) -> Result<String, AllocError> {
    let mut state = State::new(alloc);
    for word in numbers.split_whitespace() {
        if state.len() < 16 {
            state.push(Value::Int(word.parse::<i64>().unwrap_or(0)))?;
        }
    }
    let mut last = None;
    for word in programs.split_whitespace() {
        let Some(next) = program_of(alloc, word)? else {
            return String::from_str(alloc, " -> no program");
        };
        if let Some(old) = &last {
            let Some(after) = carry_first(alloc, old, &next, &state)? else {
                return String::from_str(alloc, " -> not carried");
            };
            state = after;
        }
        last = Some(next);
    }
    let mut out = String::from_str(alloc, " ->")?;
    add_state(&mut out, &state)?;
    Ok(out)
}

fn session_of(word: &str) -> u64 {
    word.parse::<u64>().unwrap_or(0)
}

// What a body of a format says under a program, behind a session.
fn entry(
    alloc: Global,
    session: u64,
    old: &str,
    body: &str,
    format: Format,
) -> Result<String, AllocError> {
    let Some(program) = program_of(alloc, old)? else {
        return String::from_str(alloc, " -> no program");
    };
    let shape = program.shape()?;
    let body = bytes_of(alloc, body)?;
    match read_entry(alloc, body.as_slice(), &program, &shape, session, format) {
        Ok((own, Said::Records(records))) => {
            let count = records.len();
            format!(in alloc; " -> session {own}, {count} records")
        }
        Ok((own, Said::Upgrade { text, checked })) => {
            let len = text.len();
            let types = checked.program().types.len();
            format!(in alloc; " -> session {own}, upgrade of {len} bytes, {types} types")
        }
        Err(EntryFault::Damaged { place }) => format!(in alloc; " -> damaged at {place}"),
        Err(EntryFault::Memory) => String::from_str(alloc, " -> no memory"),
    }
}

fn block(alloc: Global, session: u64, word: &str) -> Result<String, AllocError> {
    let text = bytes_of(alloc, word)?;
    let mut out = String::from_str(alloc, " -> ")?;
    if text.len() <= 262_144 {
        let block = encode_upgrade(alloc, text.as_slice(), session)?;
        for byte in block.as_slice() {
            write!(out, "{byte:02x}")?;
        }
    }
    Ok(out)
}

/// What is said behind a line.
pub fn told(alloc: Global, line: &str) -> Result<String, AllocError> {
    let (front, rest) = line.split_once(" : ").unwrap_or((line, ""));
    let (word, numbers) = front.split_once(' ').unwrap_or((front, ""));
    if word == "carry" {
        return carried(alloc, numbers, rest);
    }
    if word == "first" {
        return entry(alloc, 0, numbers, rest, Format::One);
    }
    if word == "entry" {
        let (session, old) = numbers.split_once(' ').unwrap_or((numbers, ""));
        return entry(alloc, session_of(session), old, rest, Format::Two);
    }
    if word == "block" {
        return block(alloc, session_of(numbers), rest);
    }
    if word == "compare" {
        let words = words_of(alloc, numbers)?;
        if let [old, new] = words.as_slice() {
            return compared(alloc, *old, *new);
        }
    }
    String::from_str(alloc, "")
}
