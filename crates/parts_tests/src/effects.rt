use base_types::{Call, GrainId, List, Origin, Outcome, State, Text, UnitNo, Value};
use core_model::{Effect, Read};
use std::alloc::{AllocError, Global};

/// The grain of type 1 and this key.
pub fn grain(key: u32) -> GrainId {
    GrainId { kind: 1, key }
}

/// One read, of the grain of this key: this state, which the source wrote.
pub fn one_read(
    alloc: Global,
    key: u32,
    state: State,
    source: UnitNo,
) -> Result<List<Read>, AllocError> {
    let mut reads = List::new(alloc);
    reads.push(Read {
        grain: grain(key),
        state,
        source,
    })?;
    Ok(reads)
}

/// One write, of the grain of this key.
pub fn one_write(
    alloc: Global,
    key: u32,
    state: State,
) -> Result<List<(GrainId, State)>, AllocError> {
    let mut writes = List::new(alloc);
    writes.push((grain(key), state))?;
    Ok(writes)
}

/// What a line's unit did that is aborted, and called method 2 of the grain `1/7` with these arguments.
pub fn effect(
    alloc: Global,
    unit: UnitNo,
    args: List<Value>,
    reads: List<Read>,
    writes: List<(GrainId, State)>,
) -> Effect {
    Effect {
        unit,
        origin: Origin::Line(1),
        call: Call {
            grain: grain(7),
            method: 2,
            args,
        },
        answers: List::new(alloc),
        reads,
        writes,
        result: Outcome::Aborted,
    }
}

/// A fault with this text, the value of it, or aborted.
pub fn outcome_of(alloc: Global, kind: &str, text: &str) -> Result<Outcome, AllocError> {
    let Some(text) = Text::new(alloc, text)? else {
        return Ok(Outcome::Aborted);
    };
    match kind {
        "fault" => Ok(Outcome::Fault(text)),
        "value" => Ok(Outcome::Value(Value::Text(text))),
        _ => Ok(Outcome::Aborted),
    }
}
