use base_types::{Call, GrainId, Outcome, State, Value};
use script_check::Checked;
use std::alloc::{AllocError, Global};
use test_cases::{add_outcome, add_values};

// The most grains or calls that are written out.
const MOST: usize = 8;

/// Writes `account/1`, or the number of a type that isn't there.
pub fn add_grain(out: &mut String, program: &Checked, grain: GrainId) -> Result<(), AllocError> {
    let kind = grain.kind;
    let key = grain.key;
    match program.program().types.get(usize::from(kind)) {
        Some(of_type) => {
            let name = of_type.name.text.as_str();
            write!(out, "{name}/{key}")
        }
        None => write!(out, "{kind}/{key}"),
    }
}

fn method_name<'a>(program: &'a Checked, call: &Call) -> &'a str {
    let Some(of_type) = program.program().types.get(usize::from(call.grain.kind)) else {
        return "?";
    };
    match of_type.methods.get(usize::from(call.method)) {
        Some(method) => method.name.text.as_str(),
        None => "?",
    }
}

/// Writes `account/1.deposit(5)@2`, with the depth of the first frame.
pub fn add_call(
    out: &mut String,
    program: &Checked,
    call: &Call,
    depth: u16,
) -> Result<(), AllocError> {
    add_grain(out, program, call.grain)?;
    out.push_str(".")?;
    out.push_str(method_name(program, call))?;
    add_values(out, call.args.as_slice())?;
    write!(out, "@{depth}")
}

/// How a unit ended, as a text.
pub fn outcome_text(alloc: Global, outcome: &Outcome) -> Result<String, AllocError> {
    let mut out = String::new(alloc);
    add_outcome(&mut out, outcome)?;
    Ok(out)
}

// Writes what stands before the item of this number of so many, and answers whether the item itself is written.
fn before(out: &mut String, opening: &str, i: usize, count: usize) -> Result<bool, AllocError> {
    if i == 0 {
        out.push_str(opening)?;
    }
    if count <= MOST {
        if i > 0 {
            out.push_str(", ")?;
        }
        return Ok(true);
    }
    if i == 0 {
        write!(out, "{count}, the last ")?;
    }
    Ok(i == count.saturating_sub(1))
}

fn add_states(
    out: &mut String,
    program: &Checked,
    opening: &str,
    states: &[(GrainId, State)],
) -> Result<(), AllocError> {
    for (i, (grain, state)) in states.iter().enumerate() {
        if before(out, opening, i, states.len())? {
            add_grain(out, program, *grain)?;
            add_values(out, state.as_slice())?;
        }
    }
    Ok(())
}

fn add_asked(
    out: &mut String,
    program: &Checked,
    asked: &[(Call, u16)],
    answers: &[Outcome],
) -> Result<(), AllocError> {
    for (i, (call, depth)) in asked.iter().enumerate() {
        if before(out, "; asks ", i, asked.len())? {
            add_call(out, program, call, *depth)?;
            out.push_str(" = ")?;
            add_outcome(out, answers.get(i).unwrap_or(&Outcome::Aborted))?;
        }
    }
    Ok(())
}

/// What a unit did.
#[derive(Drop)]
pub struct Deeds<'a> {
    pub result: &'a Outcome,
    pub asked: &'a [(Call, u16)],
    pub answers: &'a [Outcome],
    pub reads: &'a [(GrainId, State)],
    pub writes: &'a [(GrainId, State)],
}

/// What a unit did, as a line: its result, the units that it asked for with their depths and outcomes, the grains that
/// it read with the states found, in order, and the grains that it wrote with their states, in order.
pub fn line_of(alloc: Global, program: &Checked, deeds: &Deeds) -> Result<String, AllocError> {
    let mut out = String::new(alloc);
    add_outcome(&mut out, deeds.result)?;
    add_asked(&mut out, program, deeds.asked, deeds.answers)?;
    add_states(&mut out, program, "; reads ", deeds.reads)?;
    add_states(&mut out, program, "; writes ", deeds.writes)?;
    Ok(out)
}

/// The items of a list, as a line.
pub fn list_of(alloc: Global, items: &[String]) -> Result<String, AllocError> {
    let mut out = String::new(alloc);
    for (i, item) in items.iter().enumerate() {
        if before(&mut out, "", i, items.len())? {
            out.push_str(item.as_str())?;
        }
    }
    Ok(out)
}
