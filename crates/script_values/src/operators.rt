ghost use Rattle.std.specs.Prelude.{◌≡◌, ◌++◌};
ghost use Rattle.script_values.specs.Reasons.{number_given};
ghost use Rattle.script_values.specs.Stops.{GivesOrStops, Decides, number_in};
ghost use Rattle.script_values.specs.Values.{with_number, joined_text, truth, prefixed, of_texts, of_kinds, combined};

use crate::numbers::{is_true, of_numbers, prefixed, truth};
use crate::reasons::Reason;
use crate::stops::{Stop, stop_at};
use base_types::{Text, Value};
use script_tree::{BinaryOp, UnaryOp};
use std::alloc::Global;

/// The number in a value, none in a text.
pub fn as_number(value: &Value) -> Option<i64>
    ensures { result ≡ number_in value.now }
{
    match value {
        Value::Int(number) => Some(*number),
        Value::Text(_) => None,
    }
}

/// A number as a value, or the stop of its reason.
fn given(alloc: Global, number: Result<i64, Reason>) -> Result<Value, Stop>
    ensures { GivesOrStops result (number_given number) }
{
    match number {
        Ok(number) => Ok(Value::Int(number)),
        Err(reason) => Err(stop_at(alloc, reason)),
    }
}

/// The value that stands for a truth.
fn truth_value(holds: bool) -> Value
    ensures { result ≡ truth holds }
{
    Value::Int(truth(holds))
}

/// An operator before a value.
pub fn prefixed_value(alloc: Global, op: UnaryOp, value: &Value) -> Result<Value, Stop>
    ensures { GivesOrStops result (with_number value.now (prefixed op)) }
{
    match value {
        Value::Int(number) => given(alloc, prefixed(op, *number)),
        Value::Text(_) => Err(stop_at(alloc, Reason::Kind)),
    }
}

/// Two texts as one, the right one behind the left one.
fn join(alloc: Global, left: &Text, right: &Text) -> Result<Value, Stop>
    ensures { GivesOrStops result (joined_text (left.now ++ right.now)) }
{
    let mut text = String::from_str(alloc, left.as_str())?;
    text.push_str(right.as_str())?;
    match Text::new(alloc, text.as_str())? {
        Some(text) => Ok(Value::Text(text)),
        None => Err(stop_at(alloc, Reason::Length)),
    }
}

/// An operator between two texts.
fn of_texts(alloc: Global, op: BinaryOp, left: &Text, right: &Text) -> Result<Value, Stop>
    ensures { GivesOrStops result (of_texts op left.now right.now) }
{
    match op {
        BinaryOp::Add => join(alloc, left, right),
        BinaryOp::Eq => Ok(truth_value(left.as_str() == right.as_str())),
        BinaryOp::Ne => Ok(truth_value(left.as_str() != right.as_str())),
        BinaryOp::Sub
        | BinaryOp::Mul
        | BinaryOp::Div
        | BinaryOp::Rem
        | BinaryOp::Lt
        | BinaryOp::Le
        | BinaryOp::Gt
        | BinaryOp::Ge
        | BinaryOp::And
        | BinaryOp::Or => Err(stop_at(alloc, Reason::Kind)),
    }
}

/// An operator between a number and a text.
fn of_kinds(alloc: Global, op: BinaryOp) -> Result<Value, Stop>
    ensures { GivesOrStops result (of_kinds op) }
{
    match op {
        BinaryOp::Eq => Ok(truth_value(false)),
        BinaryOp::Ne => Ok(truth_value(true)),
        BinaryOp::Add
        | BinaryOp::Sub
        | BinaryOp::Mul
        | BinaryOp::Div
        | BinaryOp::Rem
        | BinaryOp::Lt
        | BinaryOp::Le
        | BinaryOp::Gt
        | BinaryOp::Ge
        | BinaryOp::And
        | BinaryOp::Or => Err(stop_at(alloc, Reason::Kind)),
    }
}

/// An operator between two values.
pub fn combined(alloc: Global, op: BinaryOp, left: &Value, right: &Value) -> Result<Value, Stop>
    ensures { GivesOrStops result (combined op left.now right.now) }
{
    match (left, right) {
        (Value::Int(left), Value::Int(right)) => given(alloc, of_numbers(op, *left, *right)),
        (Value::Text(left), Value::Text(right)) => of_texts(alloc, op, left, right),
        (Value::Int(_), Value::Text(_)) => of_kinds(alloc, op),
        (Value::Text(_), Value::Int(_)) => of_kinds(alloc, op),
    }
}

/// What the left operand alone decides, none where the right one is to be evaluated.
pub fn decided(alloc: Global, op: BinaryOp, left: &Value) -> Result<Option<Value>, Stop>
    ensures { Decides result op left.now }
{
    match op {
        BinaryOp::And => match left {
            Value::Int(number) => {
                if is_true(*number) {
                    Ok(None)
                } else {
                    Ok(Some(truth_value(false)))
                }
            }
            Value::Text(_) => Err(stop_at(alloc, Reason::Kind)),
        },
        BinaryOp::Or => match left {
            Value::Int(number) => {
                if is_true(*number) {
                    Ok(Some(truth_value(true)))
                } else {
                    Ok(None)
                }
            }
            Value::Text(_) => Err(stop_at(alloc, Reason::Kind)),
        },
        BinaryOp::Add
        | BinaryOp::Sub
        | BinaryOp::Mul
        | BinaryOp::Div
        | BinaryOp::Rem
        | BinaryOp::Lt
        | BinaryOp::Le
        | BinaryOp::Gt
        | BinaryOp::Ge
        | BinaryOp::Eq
        | BinaryOp::Ne => Ok(None),
    }
}
