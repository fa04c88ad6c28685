use crate::steps::Step;
use std::alloc::{AllocError, Global};

/// A part of the core, or a plain type, that is put through the steps of a case.
pub trait Part {
    /// Does the step, and writes what is answered, if anything, behind it.
    fn step(&mut self, out: &mut String, step: &Step<'_>) -> Result<(), AllocError>;
}

/// Puts the part through these steps, and writes each with its answer.
pub fn carry<P: Part>(
    part: &mut P,
    alloc: Global,
    out: &mut String,
    steps: &str,
) -> Result<(), AllocError> {
    for text in steps.split(';') {
        carry_step(part, alloc, out, text)?;
    }
    Ok(())
}

fn carry_step<P: Part>(
    part: &mut P,
    alloc: Global,
    out: &mut String,
    text: &str,
) -> Result<(), AllocError> {
    let step = Step::new(alloc, text)?;
    write!(out, ";{text}")?;
    if !step.is_spelled() {
        return out.push_str(" = no such word");
    }
    part.step(out, &step)
}

/// Writes that the part knows no such step.
pub fn no_step(out: &mut String) -> Result<(), AllocError> {
    out.push_str(" = no such step")
}
