use crate::driver::{Driven, drive};
use crate::printer::{Deeds, line_of};
use crate::settings::{Setting, program_of, setting_of};
use crate::trouble::Trouble;
use script_check::Checked;
use script_player::play;
use std::alloc::{AllocError, Global};

// What the plain player does, as a line.
fn played_line(alloc: Global, program: &Checked, setting: &Setting) -> Result<String, AllocError> {
    let played = play(
        alloc,
        program,
        &setting.call,
        setting.depth,
        &setting.store,
        setting.answers.as_slice(),
    )?;
    line_of(
        alloc,
        program,
        &Deeds {
            result: &played.result,
            asked: played.asked.as_slice(),
            answers: setting.answers.as_slice(),
            reads: played.reads.as_slice(),
            writes: played.writes.as_slice(),
        },
    )
}

fn setting_in(alloc: Global, program: &Checked, case: &str) -> Result<Setting, Trouble> {
    let (call, given) = case.split_once(" with ").unwrap_or((case, ""));
    setting_of(alloc, program, call, given)
}

/// What a call does, as a line, by the player and by the machine; or what each says, where they don't say the same.
pub fn done(alloc: Global, program: &Checked, case: &str) -> Result<String, Trouble> {
    let setting = setting_in(alloc, program, case)?;
    let played = played_line(alloc, program, &setting)?;
    let driven = drive(alloc, program, &setting)?;
    agreed(alloc, played, &driven)
}

fn agreed(alloc: Global, played: String, driven: &Driven) -> Result<String, Trouble> {
    let run = driven.line.as_str();
    if played.as_str() == run {
        return Ok(played);
    }
    Ok(format!(in alloc; "the player: {played}; the machine: {run}")?)
}

/// What a machine asks for in a call.
pub fn asked(alloc: Global, program: &Checked, case: &str) -> Result<String, Trouble> {
    let setting = setting_in(alloc, program, case)?;
    let driven = drive(alloc, program, &setting)?;
    Ok(driven.pauses)
}

/// What a body of a method does, which is a transaction on `t/7` and touches no field.
pub fn done_by_body(alloc: Global, body: &str) -> Result<String, Trouble> {
    let text = format!(in alloc; "type t {{ method m() create plain {{ {body} }} }}")?;
    let program = program_of(alloc, text.as_str())?;
    done(alloc, &program, "t/7.m()")
}

/// The value or the fault of an expression.
pub fn done_by_value(alloc: Global, expression: &str) -> Result<String, Trouble> {
    let body = format!(in alloc; "return {expression};")?;
    done_by_body(alloc, body.as_str())
}
