use base_types::{Call, Outcome};
use commit_log::{CommitRecord, Written};
use std::alloc::AllocError;
use test_cases::{add_grain, add_outcome, add_values};

/// Adds a call: its grain, the number of its method, and its arguments.
pub fn add_call(out: &mut String, call: &Call) -> Result<(), AllocError> {
    let method = call.method;
    add_grain(out, call.grain)?;
    write!(out, ".{method}")?;
    add_values(out, call.args.as_slice())
}

// The most answers, or writes, that are written out.
const MOST: usize = 4;

fn add_answers(out: &mut String, answers: &[Outcome]) -> Result<(), AllocError> {
    let count = answers.len();
    if count > MOST {
        return write!(out, "; {count} answers");
    }
    for answer in answers {
        out.push_str("; answer ")?;
        add_outcome(out, answer)?;
    }
    Ok(())
}

/// Writes writes, or how many there are where that is more than 4.
pub fn add_writes(out: &mut String, writes: &[Written]) -> Result<(), AllocError> {
    let count = writes.len();
    if count > MOST {
        return write!(out, "; {count} writes");
    }
    for write in writes {
        let offset = write.place.offset;
        let len = write.place.len;
        out.push_str("; write ")?;
        add_grain(out, write.grain)?;
        write!(out, " at {offset} of {len}")?;
    }
    Ok(())
}

/// Writes a record: the unit, its origin and call, its answers, its result and its writes.
pub fn add_record(out: &mut String, record: &CommitRecord) -> Result<(), AllocError> {
    let unit = record.unit.0;
    let origin = record.origin;
    write!(out, "unit {unit} {origin:?} ")?;
    add_call(out, &record.call)?;
    add_answers(out, record.answers.as_slice())?;
    out.push_str("; result ")?;
    add_outcome(out, &record.result)?;
    add_writes(out, record.writes.as_slice())
}

/// Writes bytes in hexadecimal.
pub fn add_bytes(out: &mut String, bytes: &[u8]) -> Result<(), AllocError> {
    for byte in bytes {
        write!(out, "{byte:02x}")?;
    }
    Ok(())
}
