ghost use Rattle.std.specs.Prelude.{◌≡◌};
ghost use Rattle.field_codec.specs.Readers.{times};
ghost use Rattle.field_codec.specs.Fields.{answer_at};
ghost use Rattle.field_codec.specs.Results.{GivesRead};
ghost use Rattle.commit_log.specs.Fields.{answers_at, record_in};

use crate::grains::get_call_in;
use crate::records::CommitRecord;
use crate::writes::get_writes;
use base_types::{List, Outcome, Shape, UnitNo};
use field_codec::{
    CodecFault, Format, Numbers, get_answer, get_count, get_origin, get_result, get_unit,
};
use std::alloc::Global;

// So many answers.
fn answers_there(
    alloc: Global,
    bytes: &[u8],
    at: usize,
    count: u16,
    format: Format,
) -> Result<(List<Outcome>, usize), CodecFault>
    ensures { GivesRead result (times (answer_at format) count bytes.now at) }
{
    let mut answers = List::new(alloc);
    let mut place = at;
    for _ in 0..count {
        let (answer, after) = get_answer(alloc, bytes, place, format)?;
        answers.push(answer)?;
        place = after;
    }
    Ok((answers, place))
}

// The answers that stand at a place, at most 64.
#[tactic(auto, unfolding(field_codec::specs::Readers::list_at, field_codec::specs::Readers::field))]
fn get_answers(
    alloc: Global,
    bytes: &[u8],
    at: usize,
    format: Format,
) -> Result<(List<Outcome>, usize), CodecFault>
    ensures { GivesRead result (answers_at format bytes.now at) }
{
    let (count, after) = get_count(bytes, at, 64)?;
    let (answers, after) = answers_there(alloc, bytes, after, count, format)?;
    Ok((answers, after))
}

// The record that stands at a place.
#[tactic(auto, unfolding(crate::specs::Fields::record_in, field_codec::specs::Readers::field, field_codec::specs::Readers::whole))]
fn get_record(
    alloc: Global,
    bytes: &[u8],
    at: usize,
    shape: &Shape,
    numbers: Numbers,
    format: Format,
) -> Result<(CommitRecord, usize), CodecFault>
    ensures { GivesRead result (record_in format numbers shape.now bytes.now at) }
{
    let (unit, after) = get_unit(bytes, at, numbers)?;
    let (origin, after) = get_origin(bytes, after, numbers)?;
    let (call, after) = get_call_in(alloc, bytes, after, shape, format)?;
    let (answers, after) = get_answers(alloc, bytes, after, format)?;
    let (result, after) = get_result(alloc, bytes, after, format)?;
    let (writes, after) = get_writes(alloc, bytes, after, shape)?;
    let unit = UnitNo(unit);
    let record = CommitRecord {
        unit,
        origin,
        call,
        answers,
        result,
        writes,
    };
    Ok((record, after))
}

/// So many records from a place on, and the place behind the last one.
pub fn records_there(
    alloc: Global,
    bytes: &[u8],
    at: usize,
    shape: &Shape,
    numbers: Numbers,
    count: u32,
    format: Format,
) -> Result<(List<CommitRecord>, usize), CodecFault>
    ensures { GivesRead result (times (record_in format numbers shape.now) count bytes.now at) }
{
    let mut records = List::new(alloc);
    let mut place = at;
    for _ in 0..count {
        let (record, after) = get_record(alloc, bytes, place, shape, numbers, format)?;
        records.push(record)?;
        place = after;
    }
    Ok((records, place))
}
