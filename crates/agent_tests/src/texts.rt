// Events and replies as text.
use base_types::{Call, GrainId, Mode, Origin, Outcome, State, UnitNo};
use core_model::{CoreEvent, CoreReply, Effect, Read};
use std::alloc::AllocError;
use test_cases::{add_items, add_outcome};

// The types of the program, each with its methods.
const TYPES: [(&str, &[&str]); 4] = [
    ("account", &["deposit", "withdraw", "read"]),
    ("atm", &["transfer"]),
    (
        "probe",
        &[
            "spin",
            "needs",
            "lone",
            "calls_lone",
            "inner",
            "outer",
            "aside",
            "split",
        ],
    ),
    (
        "d",
        &[
            "look",
            "mark",
            "alone",
            "fails",
            "looks",
            "marks",
            "nest",
            "raises",
            "bare",
            "twice",
            "tries",
            "needs_too",
            "passes",
            "joins",
        ],
    ),
];

fn add_grain(out: &mut String, grain: GrainId) -> Result<(), AllocError> {
    let name = match TYPES.get(usize::from(grain.kind)) {
        Some(one) => one.0,
        None => "?",
    };
    let key = grain.key;
    write!(out, "{name}/{key}")
}

/// The number of the type with this name.
pub fn kind_named(name: &str) -> Option<u16> {
    for kind in 0..TYPES.len() {
        if TYPES[kind].0 == name {
            return u16::try_from(kind).ok();
        }
    }
    None
}

fn method_name(call: &Call) -> &'static str {
    match TYPES.get(usize::from(call.grain.kind)) {
        Some(one) => one.1.get(usize::from(call.method)).copied().unwrap_or("?"),
        None => "?",
    }
}

fn add_state(out: &mut String, grain: GrainId, state: &State) -> Result<(), AllocError> {
    add_grain(out, grain)?;
    out.push_str("=")?;
    add_items(out, state.as_slice())
}

fn add_call(out: &mut String, call: &Call) -> Result<(), AllocError> {
    add_grain(out, call.grain)?;
    let method = method_name(call);
    write!(out, ".{method}(")?;
    add_items(out, call.args.as_slice())?;
    out.push_str(")")
}

fn add_origin(out: &mut String, origin: Origin) -> Result<(), AllocError> {
    match origin {
        Origin::Line(line) => write!(out, "line {line} begins "),
        Origin::Child {
            parent,
            index,
            depth,
        } => {
            let parent = parent.0;
            write!(out, "{parent} begins child {index} at {depth}: ")
        }
    }
}

fn add_lock(out: &mut String, unit: UnitNo, word: &str, grain: GrainId) -> Result<(), AllocError> {
    let unit = unit.0;
    write!(out, "{unit} {word} ")?;
    add_grain(out, grain)
}

fn add_answers(out: &mut String, answers: &[Outcome]) -> Result<(), AllocError> {
    for answer in answers {
        out.push_str(", hears ")?;
        add_outcome(out, answer)?;
    }
    Ok(())
}

fn add_reads(out: &mut String, reads: &[Read]) -> Result<(), AllocError> {
    for read in reads {
        out.push_str(", finds ")?;
        add_state(out, read.grain, &read.state)?;
        let source = read.source.0;
        write!(out, " of {source}")?;
    }
    Ok(())
}

fn add_writes(out: &mut String, writes: &[(GrainId, State)]) -> Result<(), AllocError> {
    for write in writes {
        out.push_str(", writes ")?;
        add_state(out, write.0, &write.1)?;
    }
    Ok(())
}

fn add_end(out: &mut String, word: &str, effect: &Effect) -> Result<(), AllocError> {
    let unit = effect.unit.0;
    write!(out, "{unit} {word} ")?;
    add_outcome(out, &effect.result)?;
    add_answers(out, effect.answers.as_slice())?;
    add_reads(out, effect.reads.as_slice())?;
    add_writes(out, effect.writes.as_slice())
}

// What the settler or a stop does to a batch or to the run.
fn add_settling(out: &mut String, event: &CoreEvent) -> Result<(), AllocError> {
    match event {
        CoreEvent::Take => out.push_str("takes a batch"),
        CoreEvent::Vote { grain, .. } => {
            out.push_str("votes on ")?;
            add_grain(out, *grain)
        }
        CoreEvent::Decide { .. } => out.push_str("decides"),
        CoreEvent::Sealed { .. } => out.push_str("has sealed"),
        CoreEvent::NotSealed { .. } => out.push_str("has not sealed"),
        CoreEvent::Doubt { .. } => out.push_str("is in doubt"),
        CoreEvent::Learn { unit, grain } => add_lock(out, *unit, "is learnt at", *grain),
        CoreEvent::Halt => out.push_str("stops the run"),
        _ => out.push_str("another event"),
    }
}

/// An event, as text.
pub fn add_event(out: &mut String, event: &CoreEvent) -> Result<(), AllocError> {
    match event {
        CoreEvent::Begin {
            origin,
            call,
            plain,
        } => {
            add_origin(out, *origin)?;
            add_call(out, call)?;
            out.push_str(if *plain { " plainly" } else { "" })
        }
        CoreEvent::Grant { unit, grain, mode } => {
            let word = match mode {
                Mode::Read => "reads",
                Mode::Update => "updates",
            };
            add_lock(out, *unit, word, *grain)
        }
        CoreEvent::Refuse { unit, grain, .. } => add_lock(out, *unit, "dies at", *grain),
        CoreEvent::Release { unit, grain } => add_lock(out, *unit, "frees", *grain),
        CoreEvent::Want { unit, grain } => add_lock(out, *unit, "wants", *grain),
        CoreEvent::Finish { effect, .. } => add_end(out, "finishes", effect),
        CoreEvent::EndPlain { effect, .. } => add_end(out, "ends", effect),
        CoreEvent::Bad { line, why: _why } => write!(out, "line {line} is bad"),
        CoreEvent::Load { grain, unit, state } => {
            out.push_str("loads ")?;
            add_state(out, *grain, state)?;
            let unit = unit.0;
            write!(out, " of {unit}")
        }
        _ => add_settling(out, event),
    }
}

/// What an event was answered, behind its text, to the end of the line.
pub fn add_reply(out: &mut String, reply: &CoreReply) -> Result<(), AllocError> {
    match reply {
        CoreReply::Done | CoreReply::Taken { .. } | CoreReply::Decided { .. } => out.push_str("\n"),
        CoreReply::Began { unit } => {
            let unit = unit.0;
            write!(out, " as {unit}\n")
        }
        CoreReply::Granted { state, source } => {
            out.push_str(": ")?;
            add_items(out, state.as_slice())?;
            let source = source.0;
            write!(out, " of {source}\n")
        }
        _ => out.push_str(": no\n"),
    }
}
