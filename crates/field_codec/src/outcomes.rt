ghost use Rattle.field_codec.specs.Fields.{ended, answer_at, result_at};
ghost use Rattle.field_codec.specs.Results.{GivesRead, FindsSpelling, Only};
ghost use Rattle.field_codec.specs.Spelling.{spelling_of_outcome, AnswerFits, ResultFits};

use crate::faults::CodecFault;
use crate::formats::Format;
use crate::numbers::get_u8;
use crate::spelling::Spelled;
use crate::texts::{append_text, get_text};
use crate::values::get_value;
use base_types::Outcome;
use std::alloc::{AllocError, Global};

impl Spelled for Outcome {
    ghost use Rattle.field_codec.specs.Spelling.{spelling_of_outcome, AnswerFits};
    ghost use Rattle.field_codec.specs.declared.formats.Format.TheVariants.{Two};

    ghost may_spell = { λ _. Unit {0} };

    ghost spelling = { spelling_of_outcome };

    ghost fits = { AnswerFits Two };

    fn append(&self, into: &mut Vec<u8>) -> Result<(), AllocError> {
        match self {
            Outcome::Aborted => {
                into.push(0)?;
                Ok(())
            }
            Outcome::Value(value) => {
                into.push(1)?;
                value.append(into)?;
                Ok(())
            }
            Outcome::Fault(text) => {
                into.push(2)?;
                append_text(into, text)?;
                Ok(())
            }
        }
    }
}

// What stands behind a tag that isn't 0. `place` is the tag's.
#[tactic(auto, unfolding(crate::specs::Readers::field, crate::specs::Readers::choice, crate::specs::Readers::refused, crate::specs::Readers::whole))]
fn get_ended(
    alloc: Global,
    bytes: &[u8],
    at: usize,
    tag: u8,
    place: usize,
    format: Format,
) -> Result<(Outcome, usize), CodecFault>
    ensures { GivesRead result (ended format tag place bytes.now at) }
{
    if tag == 1 {
        let (value, after) = get_value(alloc, bytes, at, format)?;
        return Ok((Outcome::Value(value), after));
    }
    if tag == 2 {
        let (text, after) = get_text(alloc, bytes, at, format)?;
        return Ok((Outcome::Fault(text), after));
    }
    Err(CodecFault::BadTag { place, byte: tag })
}

#[tactic(auto, unfolding(crate::specs::Fields::answer_at, crate::specs::Readers::field, crate::specs::Readers::choice, crate::specs::Readers::whole))]
fn answer_there(
    alloc: Global,
    bytes: &[u8],
    at: usize,
    format: Format,
) -> Result<(Outcome, usize), CodecFault>
    ensures { GivesRead result (answer_at format bytes.now at) }
{
    let (tag, after) = get_u8(bytes, at)?;
    if tag == 0 {
        return Ok((Outcome::Aborted, after));
    }
    let (outcome, after) = get_ended(alloc, bytes, after, tag, at, format)?;
    Ok((outcome, after))
}

/// The answer to a nested call that stands at a place, and the place behind it. The fault is the first from left to right.
pub fn get_answer(
    alloc: Global,
    bytes: &[u8],
    at: usize,
    format: Format,
) -> Result<(Outcome, usize), CodecFault>
    ensures found { FindsSpelling spelling_of_outcome (AnswerFits format) bytes.now at result }
    ensures only { Only spelling_of_outcome (AnswerFits format) bytes.now at result }
    ensures exact { GivesRead result (answer_at format bytes.now at) }
{
    answer_there(alloc, bytes, at, format)
}

#[tactic(auto, unfolding(crate::specs::Fields::result_at, crate::specs::Readers::field))]
fn result_there(
    alloc: Global,
    bytes: &[u8],
    at: usize,
    format: Format,
) -> Result<(Outcome, usize), CodecFault>
    ensures { GivesRead result (result_at format bytes.now at) }
{
    let (tag, after) = get_u8(bytes, at)?;
    let (outcome, after) = get_ended(alloc, bytes, after, tag, at, format)?;
    Ok((outcome, after))
}

/// The result of a unit that stands at a place, which is no abort, and the place behind it. The fault is the first from left
/// to right.
pub fn get_result(
    alloc: Global,
    bytes: &[u8],
    at: usize,
    format: Format,
) -> Result<(Outcome, usize), CodecFault>
    ensures found { FindsSpelling spelling_of_outcome (ResultFits format) bytes.now at result }
    ensures only { Only spelling_of_outcome (ResultFits format) bytes.now at result }
    ensures exact { GivesRead result (result_at format bytes.now at) }
{
    result_there(alloc, bytes, at, format)
}
