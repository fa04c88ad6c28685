ghost use Rattle.std.specs.Prelude.{◌≡◌, ◌≤◌, ◌++◌, length, take, is_ok, if◌then◌else◌, IfOk, OnOk};
ghost use Rattle.field_codec.specs.Readers.{times};
ghost use Rattle.field_codec.specs.Fields.{value_at, values_at, exactly_at};
ghost use Rattle.field_codec.specs.Results.{GivesRead, FindsSpelling, Only};
ghost use Rattle.field_codec.specs.Spelling.{spelling_of_value, spelling_of_values, ValueFits, ValuesFit};
ghost use Rattle.field_codec.specs.Formats.{field_limit};
ghost use Rattle.field_codec.specs.declared.formats.Format.TheVariants.{Two};

use crate::faults::CodecFault;
use crate::formats::Format;
use crate::numbers::{get_count, get_u8, get_u64, put_u16, put_u64};
use crate::spelling::{Spelled, append_all, put};
use crate::texts::{append_text, get_text};
use base_types::{List, State, Value};
use std::alloc::{AllocError, Global};

impl Spelled for Value {
    ghost use Rattle.field_codec.specs.Spelling.{spelling_of_value, ValueFits};
    ghost use Rattle.field_codec.specs.declared.formats.Format.TheVariants.{Two};

    ghost may_spell = { λ _. Unit {0} };

    ghost spelling = { spelling_of_value };

    ghost fits = { ValueFits Two };

    fn append(&self, into: &mut Vec<u8>) -> Result<(), AllocError> {
        match self {
            Value::Int(number) => {
                into.push(0)?;
                put_u64(into, number.cast_unsigned())?;
                Ok(())
            }
            Value::Text(text) => {
                into.push(1)?;
                append_text(into, text)?;
                Ok(())
            }
        }
    }
}

/// Appends how many values there are, and each. Without memory some of their bytes may have been appended.
pub fn append_values(into: &mut Vec<u8>, values: &[Value]) -> Result<(), AllocError>
    requires { length values.now ≤ 64 }
    ensures ok { OnOk result (into.new.items ≡ into.old.items ++ spelling_of_values values.now) }
    ensures fits { OnOk result (ValuesFit Two 64 values.now) }
    ensures begins { take (length into.old.items) into.new.items ≡ into.old.items }
{
    put_u16(into, values.len() as u16)?;
    append_all(into, values)?;
    Ok(())
}

impl Spelled for State {
    ghost use Rattle.field_codec.specs.Spelling.{spelling_of_values, ValuesFit};
    ghost use Rattle.field_codec.specs.declared.formats.Format.TheVariants.{Two};

    ghost may_spell = { λ _. Unit {0} };

    ghost spelling = { spelling_of_values };

    ghost fits = { ValuesFit Two 64 };

    fn append(&self, into: &mut Vec<u8>) -> Result<(), AllocError> {
        // Its contract bounds the count.
        let _count = self.len();
        append_values(into, self.as_slice())
    }
}

/// Appends the value. Without memory nothing is appended.
pub fn put_value(into: &mut Vec<u8>, value: &Value) -> Result<(), AllocError>
    ensures { into.new.items ≡ (if is_ok result then into.old.items ++ spelling_of_value value.now else into.old.items) }
{
    put(into, value)
}

/// Appends the state's values. Without memory nothing is appended.
pub fn put_state(into: &mut Vec<u8>, state: &State) -> Result<(), AllocError>
    ensures { into.new.items ≡ (if is_ok result then into.old.items ++ spelling_of_values state.now else into.old.items) }
{
    put(into, state)
}

#[tactic(auto, unfolding(crate::specs::Fields::value_at, crate::specs::Readers::field, crate::specs::Readers::choice, crate::specs::Readers::refused, crate::specs::Readers::whole))]
fn value_there(
    alloc: Global,
    bytes: &[u8],
    at: usize,
    format: Format,
) -> Result<(Value, usize), CodecFault>
    ensures { GivesRead result (value_at format bytes.now at) }
{
    let (tag, after) = get_u8(bytes, at)?;
    if tag == 0 {
        let (number, after) = get_u64(bytes, after)?;
        return Ok((Value::Int(number.cast_signed()), after));
    }
    if tag == 1 {
        let (text, after) = get_text(alloc, bytes, after, format)?;
        return Ok((Value::Text(text), after));
    }
    Err(CodecFault::BadTag {
        place: at,
        byte: tag,
    })
}

/// So many values from a place on, and the place behind the last one.
pub fn get_values(
    alloc: Global,
    bytes: &[u8],
    at: usize,
    count: u16,
    format: Format,
) -> Result<(List<Value>, usize), CodecFault>
    ensures exact { GivesRead result (times (value_at format) count bytes.now at) }
    ensures many { IfOk result (λ x. length x.0 ≡ count) }
{
    let mut values = List::new(alloc);
    let mut place = at;
    for _ in 0..count {
        let (value, after) = value_there(alloc, bytes, place, format)?;
        values.push(value)?;
        place = after;
    }
    Ok((values, place))
}

/// A count of at most `limit`, and so many values.
#[tactic(auto, unfolding(crate::specs::Readers::list_at, crate::specs::Readers::field))]
pub fn values_there(
    alloc: Global,
    bytes: &[u8],
    at: usize,
    limit: u16,
    format: Format,
) -> Result<(List<Value>, usize), CodecFault>
    ensures exact { GivesRead result (values_at format limit bytes.now at) }
    ensures within { IfOk result (λ x. length x.0 ≤ limit) }
{
    let (count, after) = get_count(bytes, at, limit)?;
    let (values, after) = get_values(alloc, bytes, after, count, format)?;
    Ok((values, after))
}

/// A count of at most `limit`, and so many values, which are as many as are wanted. `Unknown` names the count where it is
/// another number.
#[tactic(auto, unfolding(crate::specs::Fields::exactly_at, crate::specs::Readers::field, crate::specs::Readers::choice, crate::specs::Readers::refused))]
pub fn get_exactly(
    alloc: Global,
    bytes: &[u8],
    at: usize,
    limit: u16,
    many: usize,
    format: Format,
) -> Result<(List<Value>, usize), CodecFault>
    ensures exact { GivesRead result (exactly_at format limit many bytes.now at) }
    ensures within { IfOk result (λ x. length x.0 ≤ limit) }
{
    let (count, after) = get_count(bytes, at, limit)?;
    if count as usize == many {
        let (values, after) = get_values(alloc, bytes, after, count, format)?;
        return Ok((values, after));
    }
    Err(CodecFault::Unknown { place: at })
}

/// The value that stands at a place, within the limits of the format, and the place behind it. The fault is the first from left to right.
pub fn get_value(
    alloc: Global,
    bytes: &[u8],
    at: usize,
    format: Format,
) -> Result<(Value, usize), CodecFault>
    ensures found { FindsSpelling spelling_of_value (ValueFits format) bytes.now at result }
    ensures only { Only spelling_of_value (ValueFits format) bytes.now at result }
    ensures exact { GivesRead result (value_at format bytes.now at) }
{
    value_there(alloc, bytes, at, format)
}

#[tactic(auto, using(crate::proofs::Counts::field_limit_within))]
fn state_there(
    alloc: Global,
    bytes: &[u8],
    at: usize,
    format: Format,
) -> Result<(State, usize), CodecFault>
    ensures { GivesRead result (values_at format (field_limit format) bytes.now at) }
{
    let (values, after) = values_there(alloc, bytes, at, format.field_limit(), format)?;
    Ok((State::from_list(values), after))
}

/// The state that stands at a place, within the limits of the format, and the place behind it. The fault is the first from left to right.
pub fn get_state(
    alloc: Global,
    bytes: &[u8],
    at: usize,
    format: Format,
) -> Result<(State, usize), CodecFault>
    ensures found { FindsSpelling spelling_of_values (ValuesFit format (field_limit format)) bytes.now at result }
    ensures only { Only spelling_of_values (ValuesFit format (field_limit format)) bytes.now at result }
    ensures exact { GivesRead result (values_at format (field_limit format) bytes.now at) }
{
    state_there(alloc, bytes, at, format)
}
