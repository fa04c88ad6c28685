use base_types::{GrainId, Outcome, Value};
use std::alloc::AllocError;

// The longest text that is written out.
const LONGEST: usize = 40;

// Writes a text between quotes, which are given, or how long it is.
fn add_text(out: &mut String, quote: &str, text: &str) -> Result<(), AllocError> {
    let bytes = text.len();
    if bytes > LONGEST {
        return write!(out, "a text of {bytes} bytes");
    }
    write!(out, "{quote}{text}{quote}")
}

/// Writes a number, or a text in double quotes, a long one as its length.
pub fn add_value(out: &mut String, value: &Value) -> Result<(), AllocError> {
    match value {
        Value::Int(number) => write!(out, "{number}"),
        Value::Text(text) => add_text(out, "\"", text.as_str()),
    }
}

/// Writes `1,2`.
pub fn add_items(out: &mut String, values: &[Value]) -> Result<(), AllocError> {
    let mut between = "";
    for value in values {
        out.push_str(between)?;
        add_value(out, value)?;
        between = ",";
    }
    Ok(())
}

/// Writes `(1, 2)`.
pub fn add_values(out: &mut String, values: &[Value]) -> Result<(), AllocError> {
    out.push_str("(")?;
    let mut between = "";
    for value in values {
        out.push_str(between)?;
        add_value(out, value)?;
        between = ", ";
    }
    out.push_str(")")
}

/// Writes `0/1`: the number of the type, and the key.
pub fn add_grain(out: &mut String, grain: GrainId) -> Result<(), AllocError> {
    let GrainId { kind, key } = grain;
    write!(out, "{kind}/{key}")
}

/// Writes the value, `fault funds`, or `aborted`.
pub fn add_outcome(out: &mut String, outcome: &Outcome) -> Result<(), AllocError> {
    match outcome {
        Outcome::Value(value) => add_value(out, value),
        Outcome::Fault(text) => {
            out.push_str("fault ")?;
            add_text(out, "", text.as_str())
        }
        Outcome::Aborted => out.push_str("aborted"),
    }
}
