// The fields of a log, read from bytes of a row.
use crate::cases::Case;
use crate::printer::add_call;
use base_types::{Call, Origin, Outcome, State, Value};
use field_codec::{
    CodecFault, Format, Numbers, get_answer, get_call, get_origin, get_result, get_state, get_u16,
    get_u32, get_u64, get_unit, get_value, put, put_call, put_state, put_u16, put_u32, put_u64,
    put_value,
};
use std::alloc::{AllocError, Global};
use test_cases::{add_outcome, add_value, add_values};

// What is read.
#[derive(Drop)]
enum Item {
    Two(u16),
    Four(u32),
    Eight(u64),
    Value(Value),
    State(State),
    Call(Call),
    Origin(Origin),
    Outcome(Outcome),
}

// The item of this kind that stands at a place, and where it ends. None where there is no such kind.
fn item_at(
    alloc: Global,
    kind: &str,
    bytes: &[u8],
    at: usize,
    format: Format,
) -> Result<Option<(Item, usize)>, CodecFault> {
    let (item, end) = match kind {
        "two" => {
            let (number, end) = get_u16(bytes, at)?;
            (Item::Two(number), end)
        }
        "four" => {
            let (number, end) = get_u32(bytes, at)?;
            (Item::Four(number), end)
        }
        "eight" => {
            let (number, end) = get_u64(bytes, at)?;
            (Item::Eight(number), end)
        }
        "unit" => {
            let (number, end) = get_unit(bytes, at, Numbers::Logged)?;
            (Item::Eight(number), end)
        }
        "any-unit" => {
            let (number, end) = get_unit(bytes, at, Numbers::Free)?;
            (Item::Eight(number), end)
        }
        _ => return long_item_at(alloc, kind, bytes, at, format),
    };
    Ok(Some((item, end)))
}

// An item that was read, and where it ends.
type Found = Result<(Item, usize), CodecFault>;

fn value_at(alloc: Global, bytes: &[u8], at: usize, format: Format) -> Found {
    let (value, end) = get_value(alloc, bytes, at, format)?;
    Ok((Item::Value(value), end))
}

fn state_at(alloc: Global, bytes: &[u8], at: usize, format: Format) -> Found {
    let (state, end) = get_state(alloc, bytes, at, format)?;
    Ok((Item::State(state), end))
}

fn call_at(alloc: Global, bytes: &[u8], at: usize, format: Format) -> Found {
    let (call, end) = get_call(alloc, bytes, at, format)?;
    Ok((Item::Call(call), end))
}

fn origin_at(bytes: &[u8], at: usize, numbers: Numbers) -> Found {
    let (origin, end) = get_origin(bytes, at, numbers)?;
    Ok((Item::Origin(origin), end))
}

fn answer_at(alloc: Global, bytes: &[u8], at: usize, format: Format) -> Found {
    let (answer, end) = get_answer(alloc, bytes, at, format)?;
    Ok((Item::Outcome(answer), end))
}

fn result_at(alloc: Global, bytes: &[u8], at: usize, format: Format) -> Found {
    let (outcome, end) = get_result(alloc, bytes, at, format)?;
    Ok((Item::Outcome(outcome), end))
}

fn long_item_at(
    alloc: Global,
    kind: &str,
    bytes: &[u8],
    at: usize,
    format: Format,
) -> Result<Option<(Item, usize)>, CodecFault> {
    let found = match kind {
        "value" => value_at(alloc, bytes, at, format),
        "state" => state_at(alloc, bytes, at, format),
        "call" => call_at(alloc, bytes, at, format),
        "origin" => origin_at(bytes, at, Numbers::Logged),
        "any-origin" => origin_at(bytes, at, Numbers::Free),
        "answer" => answer_at(alloc, bytes, at, format),
        "result" => result_at(alloc, bytes, at, format),
        _ => return Ok(None),
    };
    Ok(Some(found?))
}

fn put_item(into: &mut Vec<u8>, item: &Item) -> Result<(), AllocError> {
    match item {
        Item::Two(number) => put_u16(into, *number),
        Item::Four(number) => put_u32(into, *number),
        Item::Eight(number) => put_u64(into, *number),
        Item::Value(value) => put_value(into, value),
        Item::State(state) => put_state(into, state),
        Item::Call(call) if call.args.len() <= 8 => put_call(into, call),
        Item::Call(_) => Ok(()),
        Item::Origin(origin) => put(into, origin),
        Item::Outcome(outcome) => put(into, outcome),
    }
}

fn add_item(out: &mut String, item: &Item) -> Result<(), AllocError> {
    match item {
        Item::Two(number) => write!(out, "{number}"),
        Item::Four(number) => write!(out, "{number}"),
        Item::Eight(number) => write!(out, "{number}"),
        Item::Value(value) => add_value(out, value),
        Item::State(state) => add_values(out, state.as_slice()),
        Item::Call(call) => add_call(out, call),
        Item::Origin(origin) => write!(out, "{origin:?}"),
        Item::Outcome(outcome) => add_outcome(out, outcome),
    }
}

// Whether the item is spelled by these bytes.
fn is_spelled(alloc: Global, item: &Item, bytes: Option<&[u8]>) -> Result<bool, AllocError> {
    let mut spelled = Vec::new(alloc);
    put_item(&mut spelled, item)?;
    Ok(bytes == Some(spelled.as_slice()))
}

// Writes an item, where it ends, and whether it is spelled otherwise than these bytes.
fn add_found(
    alloc: Global,
    out: &mut String,
    item: &Item,
    end: usize,
    spelling: Option<&[u8]>,
) -> Result<(), AllocError> {
    add_item(out, item)?;
    write!(out, " up to {end}")?;
    if is_spelled(alloc, item, spelling)? {
        return Ok(());
    }
    out.push_str(", spelled otherwise")
}

fn add_fault(out: &mut String, fault: CodecFault) -> Result<(), AllocError> {
    write!(out, "{fault}")
}

/// Writes the item at the place that the case says, where it ends, and whether its spelling is what was read; or its fault.
pub fn add_field(
    alloc: Global,
    out: &mut String,
    case: &Case,
    format: Format,
) -> Result<(), AllocError> {
    let bytes = case.bytes.as_slice();
    let at = usize::try_from(case.number(0)).unwrap_or(0);
    match item_at(alloc, case.word, bytes, at, format) {
        Ok(Some((item, end))) => add_found(alloc, out, &item, end, bytes.get(at..end)),
        Ok(None) => out.push_str("no such case"),
        Err(fault) => add_fault(out, fault),
    }
}
