// The lines of the reports, each with its line feed.

ghost use Rattle.std.specs.Prelude.{◌≡◌, false, codes, map, OnOk, IfOk, string_bytes};
ghost use Rattle.script_tree.specs.Programs.{type_tree};
ghost use Rattle.script_check.specs.AcceptedPrograms.{IsAcceptedProgram};
ghost use Rattle.request_wire.specs.Reply.{value_data};
ghost use Rattle.serde_json.specs.Data.{unsigned, number, string, object, member, no_members, put};
ghost use Rattle.serde_json.specs.View.{view, members_view};
ghost use Rattle.serde_json.specs.Written.{has_float};
ghost use Rattle.promise_spec.specs.Reports.{line_of, origin_count, unit_counts, ended_as};
ghost use Rattle.log_audit.specs.Lines.{grain_data, count_data, origin_put, record_data, audit_data, upgrade_data};

use crate::parts::{args_json, call_text, fields_json, fields_of_kind, value_json};
use base_types::{GrainId, Origin, Outcome, Shape, Value};
use commit_log::CommitRecord;
use request_wire::grain_text;
use script_tree::TypeDecl;
use serde_json::{Map, Value as Json, json};
use std::alloc::{AllocError, Global};

// A value as compact JSON, and a line feed.
fn line_text(alloc: Global, value: &Json) -> Result<String, AllocError>
    ensures { IfOk result (λ text. has_float (view value.now) ≡ false → string_bytes text ≡ line_of (view value.now)) }
{
    let mut text = value.to_string(alloc)?;
    text.push('\n')?;
    Ok(text)
}

fn grain_json(alloc: Global, fields: Json, grain: &str) -> Result<Json, AllocError>
    ensures { IfOk result (λ v. view v ≡ object (member (codes "fields") (view fields) (member (codes "grain") (string grain.now) no_members))) }
{
    json!(in alloc; {"fields": fields, "grain": grain})
}

/// A grain with this state.
pub(crate) fn grain_line(
    alloc: Global,
    types: &[TypeDecl],
    shape: &Shape,
    grain: GrainId,
    state: &[Value],
) -> Result<String, AllocError>
    ensures { IfOk result (λ line. string_bytes line ≡ line_of (grain_data shape.now (map type_tree types.now) grain state.now)) }
{
    let fields = fields_json(alloc, fields_of_kind(types, grain.kind), state)?;
    let text = grain_text(alloc, shape, grain)?;
    let value = grain_json(alloc, fields, text.as_str())?;
    line_text(alloc, &value)
}

fn count_json(alloc: Global, count: u64) -> Result<Json, AllocError>
    ensures { IfOk result (λ v. view v ≡ count_data count) }
{
    json!(in alloc; {"count": count})
}

/// The number of entries.
pub(crate) fn count_line(alloc: Global, count: u64) -> Result<String, AllocError>
    ensures { IfOk result (λ line. string_bytes line ≡ line_of (count_data count)) }
{
    let value = count_json(alloc, count)?;
    line_text(alloc, &value)
}

// Puts a count under its name.
fn put_count(
    map: &mut Map<String, Json>,
    alloc: Global,
    name: &str,
    count: u64,
) -> Result<(), AllocError>
    ensures { OnOk result (members_view map.new.entries ≡ put name.now (number (unsigned count)) (members_view map.old.entries)) }
{
    serde_json::put(map, alloc, name, Json::from(count))
}

// Puts the count of an origin under its name.
fn put_origin(map: &mut Map<String, Json>, alloc: Global, origin: Origin) -> Result<(), AllocError>
    ensures { OnOk result (members_view map.new.entries ≡ origin_put origin (members_view map.old.entries)) }
{
    match origin {
        Origin::Line(n) => put_count(map, alloc, "n", n as u64),
        Origin::Child {
            parent,
            index: _index,
            depth: _depth,
        } => put_count(map, alloc, "parent", parent.0),
    }
}

// The members that each unit has: the session of its block, and its number.
fn unit_members(alloc: Global, session: u64, unit: u64) -> Result<Map<String, Json>, AllocError>
    ensures { IfOk result (λ map. members_view map.entries ≡ unit_counts session unit) }
{
    let mut map = Map::new(alloc);
    put_count(&mut map, alloc, "unit", unit)?;
    put_count(&mut map, alloc, "session", session)?;
    Ok(map)
}

// The members of a unit that ended with a value: they have it and the origin too.
fn reply_members(
    alloc: Global,
    origin: Origin,
    session: u64,
    unit: u64,
    value: &Value,
) -> Result<Map<String, Json>, AllocError>
    ensures { IfOk result (λ map. members_view map.entries
        ≡ origin_count origin (member (codes "reply") (value_data value.now) (unit_counts session unit))) }
{
    let mut map = unit_members(alloc, session, unit)?;
    let reply = value_json(alloc, value)?;
    serde_json::put(&mut map, alloc, "reply", reply)?;
    put_origin(&mut map, alloc, origin)?;
    Ok(map)
}

// The members of a unit that ended with a fault: they have it and the origin too.
fn fault_members(
    alloc: Global,
    origin: Origin,
    session: u64,
    unit: u64,
    fault: &str,
) -> Result<Map<String, Json>, AllocError>
    ensures { IfOk result (λ map. members_view map.entries
        ≡ member (codes "fault") (string fault.now) (origin_count origin (unit_counts session unit))) }
{
    let mut map = unit_members(alloc, session, unit)?;
    put_origin(&mut map, alloc, origin)?;
    let fault = Json::try_from_str(alloc, fault)?;
    serde_json::put(&mut map, alloc, "fault", fault)?;
    Ok(map)
}

// The members that tell how a record's unit ended.
fn ended_members(
    alloc: Global,
    session: u64,
    entry: &CommitRecord,
) -> Result<Map<String, Json>, AllocError>
    ensures { IfOk result (λ map. members_view map.entries ≡ ended_as entry.now.origin session entry.now.unit.0 entry.now.result) }
{
    let unit = entry.unit.0;
    match &entry.result {
        Outcome::Value(value) => reply_members(alloc, entry.origin, session, unit, value),
        Outcome::Fault(text) => { fault_members(alloc, entry.origin, session, unit, text.as_str()) }
        Outcome::Aborted => Ok(Map::new(alloc)),
    }
}

fn record_json(
    alloc: Global,
    session: u64,
    entry: &CommitRecord,
    args: Json,
    call: &str,
) -> Result<Json, AllocError>
    ensures { IfOk result (λ v. view v ≡ object (member (codes "args") (view args) (member (codes "call") (string call.now)
        (ended_as entry.now.origin session entry.now.unit.0 entry.now.result)))) }
{
    let mut map = ended_members(alloc, session, entry)?;
    let call = Json::try_from_str(alloc, call)?;
    serde_json::put(&mut map, alloc, "call", call)?;
    serde_json::put(&mut map, alloc, "args", args)?;
    Ok(Json::Object(map))
}

/// A record of the log, in a block of this session.
pub(crate) fn record_line(
    alloc: Global,
    types: &[TypeDecl],
    shape: &Shape,
    session: u64,
    entry: &CommitRecord,
) -> Result<String, AllocError>
    requires { IsAcceptedProgram (map type_tree types.now) }
    ensures { IfOk result (λ line. string_bytes line ≡ line_of (record_data shape.now (map type_tree types.now) session entry.now)) }
{
    let args = args_json(alloc, entry.call.args.as_slice())?;
    let call = call_text(alloc, types, shape, &entry.call)?;
    let value = record_json(alloc, session, entry, args, call.as_str())?;
    line_text(alloc, &value)
}

fn upgrade_json(alloc: Global, session: u64, length: u64) -> Result<Json, AllocError>
    ensures { IfOk result (λ v. view v ≡ upgrade_data session length) }
{
    json!(in alloc; {"session": session, "upgrade": length})
}

/// An upgrade, by the session of its block and the length of its program's text in bytes.
pub(crate) fn upgrade_line(alloc: Global, session: u64, length: u64) -> Result<String, AllocError>
    ensures { IfOk result (λ line. string_bytes line ≡ line_of (upgrade_data session length)) }
{
    let value = upgrade_json(alloc, session, length)?;
    line_text(alloc, &value)
}

fn audit_json(alloc: Global, count: u64, first_bad: Option<u64>) -> Result<Json, AllocError>
    ensures { IfOk result (λ v. view v ≡ audit_data count first_bad) }
{
    json!(in alloc; {"count": count, "first_bad": first_bad})
}

/// What an audit found: the number of entries, and the first unit whose record doesn't replay.
pub(crate) fn audit_line(
    alloc: Global,
    count: u64,
    first_bad: Option<u64>,
) -> Result<String, AllocError>
    ensures { IfOk result (λ line. string_bytes line ≡ line_of (audit_data count first_bad)) }
{
    let value = audit_json(alloc, count, first_bad)?;
    line_text(alloc, &value)
}
