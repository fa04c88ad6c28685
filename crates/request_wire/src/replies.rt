ghost use Rattle.std.specs.Prelude.{◌≡◌, false, [], ◌∷◌, ◌++◌, codes, OnOk, IfOk, string_bytes};
ghost use Rattle.request_wire.specs.Reply.{type_name, grain_text, numbers, carried_data, fault_data, lock_data, vote_data, dependency_data, disk_data, doubt_data, outcome_data, bad_text, bad_data, reply_line, RepliesAreLines};
ghost use Rattle.serde_json.specs.Data.{unsigned, number, string, put};
ghost use Rattle.serde_json.specs.View.{view, members_view};
ghost use Rattle.serde_json.specs.Written.{has_float, compact_text};

use base_types::{BadRequest, Entry, GrainId, List, Outcome, Settled, Shape, UnitNo, Value};
use serde_json::{Map, Value as Json};
use std::alloc::{AllocError, Global};

/// The name of a type, empty where the shape has no type of this number.
fn type_name(shape: &Shape, kind: u16) -> &str
    ensures { result.now ≡ type_name shape.now kind }
{
    match shape.types.get(kind as usize) {
        Some(named) => named.name.as_str(),
        None => "",
    }
}

/// A grain as `type/key`. The type's name is empty where the shape has no type of this number.
pub fn grain_text(alloc: Global, shape: &Shape, grain: GrainId) -> Result<String, AllocError>
    ensures { IfOk result (λ text. string_bytes text ≡ grain_text shape.now grain) }
{
    let name = type_name(shape, grain.kind);
    let key = grain.key;
    format!(in alloc; "{name}/{key}")
}

// The line of a JSON value: its compact text and a line feed.
fn value_line(alloc: Global, value: Json) -> Result<String, AllocError>
    ensures { IfOk result
        (λ text. has_float (view value) ≡ false → string_bytes text ≡ compact_text (view value) ++ 10 ∷ []) }
{
    let mut text = value.to_string(alloc)?;
    text.push('\n')?;
    Ok(text)
}

// The line of a unit that ended with a number, as most do: printed straight, without a tree.
#[tactic(auto, using(crate::proofs::NumberLines::number_lines))]
fn number_line(alloc: Global, line: u32, unit: u64, number: i64) -> Result<String, AllocError>
    ensures { IfOk result (λ text. string_bytes text ≡ compact_text (carried_data line unit (Value.Int number)) ++ 10 ∷ []) }
{
    format!(in alloc; "{{\"n\":{line},\"reply\":{number},\"unit\":{unit}}}\n")
}

// Puts a count under its name.
fn put_count(
    map: &mut Map<String, Json>,
    alloc: Global,
    name: &str,
    count: u64,
) -> Result<(), AllocError>
    ensures { OnOk result (members_view map.new.entries ≡ put name.now (number (unsigned count)) (members_view map.old.entries)) }
{
    serde_json::put(map, alloc, name, Json::from(count))
}

// Puts a text under its name.
fn put_text(
    map: &mut Map<String, Json>,
    alloc: Global,
    name: &str,
    text: &str,
) -> Result<(), AllocError>
    ensures { OnOk result (members_view map.new.entries ≡ put name.now (string text.now) (members_view map.old.entries)) }
{
    let text = Json::try_from_str(alloc, text)?;
    serde_json::put(map, alloc, name, text)?;
    Ok(())
}

// Puts a grain, as `type/key`.
fn put_grain(
    map: &mut Map<String, Json>,
    alloc: Global,
    shape: &Shape,
    grain: GrainId,
) -> Result<(), AllocError>
    ensures { OnOk result (members_view map.new.entries ≡ put (codes "grain") (string (grain_text shape.now grain)) (members_view map.old.entries)) }
{
    let text = grain_text(alloc, shape, grain)?;
    put_text(map, alloc, "grain", text.as_str())
}

// The members that the line of each unit has: its number and the unit's.
fn numbers_of(alloc: Global, line: u32, unit: u64) -> Result<Map<String, Json>, AllocError>
    ensures { IfOk result (λ map. members_view map.entries ≡ numbers line unit) }
{
    let mut map = Map::new(alloc);
    put_count(&mut map, alloc, "unit", unit)?;
    put_count(&mut map, alloc, "n", line as u64)?;
    Ok(map)
}

fn text_reply(alloc: Global, line: u32, unit: u64, text: &str) -> Result<Json, AllocError>
    ensures { IfOk result (λ v. view v ≡ carried_data line unit (Value.Text text.now)) }
{
    let mut map = numbers_of(alloc, line, unit)?;
    put_text(&mut map, alloc, "reply", text)?;
    Ok(Json::Object(map))
}

fn fault_reply(alloc: Global, line: u32, unit: u64, text: &str) -> Result<Json, AllocError>
    ensures { IfOk result (λ v. view v ≡ fault_data line unit text.now) }
{
    let mut map = numbers_of(alloc, line, unit)?;
    put_text(&mut map, alloc, "fault", text)?;
    Ok(Json::Object(map))
}

fn outcome_line(
    alloc: Global,
    line: u32,
    unit: u64,
    outcome: &Outcome,
) -> Result<String, AllocError>
    ensures { IfOk result (λ text. string_bytes text ≡ compact_text (outcome_data line unit outcome.now) ++ 10 ∷ []) }
{
    match outcome {
        Outcome::Value(Value::Int(number)) => number_line(alloc, line, unit, *number),
        Outcome::Value(Value::Text(text)) => {
            value_line(alloc, text_reply(alloc, line, unit, text.as_str())?)
        }
        Outcome::Fault(text) => value_line(alloc, fault_reply(alloc, line, unit, text.as_str())?),
        Outcome::Aborted => value_line(alloc, fault_reply(alloc, line, unit, "aborted")?),
    }
}

fn lock_reply(
    alloc: Global,
    shape: &Shape,
    line: u32,
    unit: u64,
    by: UnitNo,
    grain: GrainId,
) -> Result<Json, AllocError>
    ensures { IfOk result (λ v. view v ≡ lock_data shape.now line unit by grain) }
{
    let mut map = numbers_of(alloc, line, unit)?;
    put_grain(&mut map, alloc, shape, grain)?;
    put_count(&mut map, alloc, "by", by.0)?;
    put_text(&mut map, alloc, "aborted", "lock")?;
    Ok(Json::Object(map))
}

fn vote_reply(
    alloc: Global,
    shape: &Shape,
    line: u32,
    unit: u64,
    grain: GrainId,
) -> Result<Json, AllocError>
    ensures { IfOk result (λ v. view v ≡ vote_data shape.now line unit grain) }
{
    let mut map = numbers_of(alloc, line, unit)?;
    put_grain(&mut map, alloc, shape, grain)?;
    put_text(&mut map, alloc, "aborted", "vote")?;
    Ok(Json::Object(map))
}

fn dependency_reply(alloc: Global, line: u32, unit: u64, on: UnitNo) -> Result<Json, AllocError>
    ensures { IfOk result (λ v. view v ≡ dependency_data line unit on) }
{
    let mut map = numbers_of(alloc, line, unit)?;
    put_count(&mut map, alloc, "on", on.0)?;
    put_text(&mut map, alloc, "aborted", "dependency")?;
    Ok(Json::Object(map))
}

fn disk_reply(alloc: Global, line: u32, unit: u64) -> Result<Json, AllocError>
    ensures { IfOk result (λ v. view v ≡ disk_data line unit) }
{
    let mut map = numbers_of(alloc, line, unit)?;
    put_text(&mut map, alloc, "aborted", "disk")?;
    Ok(Json::Object(map))
}

fn doubt_reply(alloc: Global, line: u32, unit: u64) -> Result<Json, AllocError>
    ensures { IfOk result (λ v. view v ≡ doubt_data line unit) }
{
    let mut map = numbers_of(alloc, line, unit)?;
    serde_json::put(&mut map, alloc, "in_doubt", Json::from(true))?;
    Ok(Json::Object(map))
}

/// The word for a test that a line fails.
fn bad_word(why: BadRequest) -> &'static str
    ensures { result.now ≡ bad_text why }
{
    match why {
        BadRequest::Json => "json",
        BadRequest::Shape => "shape",
        BadRequest::Grain => "grain",
        BadRequest::Method => "method",
        BadRequest::Args => "args",
    }
}

fn bad_reply(alloc: Global, line: u32, why: BadRequest) -> Result<Json, AllocError>
    ensures { IfOk result (λ v. view v ≡ bad_data line why) }
{
    let mut map = Map::new(alloc);
    put_count(&mut map, alloc, "n", line as u64)?;
    put_text(&mut map, alloc, "bad", bad_word(why))?;
    Ok(Json::Object(map))
}

fn entry_line(alloc: Global, entry: &Entry, shape: &Shape) -> Result<String, AllocError>
    ensures { IfOk result (λ text. string_bytes text ≡ reply_line shape.now entry.now) }
{
    let line = entry.line;
    let unit = entry.unit.0;
    match &entry.what {
        Settled::Done(outcome) => outcome_line(alloc, line, unit, outcome),
        Settled::Lock { by, grain } => {
            value_line(alloc, lock_reply(alloc, shape, line, unit, *by, *grain)?)
        }
        Settled::Vote { grain } => value_line(alloc, vote_reply(alloc, shape, line, unit, *grain)?),
        Settled::Dependency { on } => value_line(alloc, dependency_reply(alloc, line, unit, *on)?),
        Settled::Disk => value_line(alloc, disk_reply(alloc, line, unit)?),
        Settled::InDoubt => value_line(alloc, doubt_reply(alloc, line, unit)?),
        Settled::Bad(why) => value_line(alloc, bad_reply(alloc, line, *why)?),
    }
}

/// The line that answers an entry, with its line feed: compact JSON with its keys in byte order.
///
/// A grain is written `type/key`, by the type's name in the shape, or by no name where the shape has no type
/// of that number. An outcome that is an abort, which no settled entry has, is written as the fault
/// `aborted`. The one error is want of memory; what was lent is as before.
pub fn reply_text(alloc: Global, entry: &Entry, shape: &Shape) -> Result<List<u8>, AllocError>
    ensures { IfOk result (λ text. text ≡ reply_line shape.now entry.now) }
{
    let text = entry_line(alloc, entry, shape)?;
    Ok(List::from_vec(text.into_bytes()))
}

/// A law of the reply lines: each is one line, so that a text of them is cut into the entries' texts again.
pub fn replies_are_lines()
    ensures { RepliesAreLines }
{}
