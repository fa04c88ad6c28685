// What the lines are made of.

ghost use Rattle.std.specs.Prelude.{◌≡◌, map, slice_get, IfOk, string_bytes};
ghost use Rattle.script_tree.specs.Programs.{type_tree};
ghost use Rattle.script_check.specs.AcceptedPrograms.{IsAcceptedProgram};
ghost use Rattle.request_wire.specs.Reply.{value_data};
ghost use Rattle.script_meaning.specs.Calls.{numbered};
ghost use Rattle.serde_json.specs.Data.{array, object};
ghost use Rattle.serde_json.specs.View.{view};
ghost use Rattle.promise_spec.specs.Reports.{fields_data, items_of, method_name};
ghost use Rattle.log_audit.specs.Lines.{fields_of_kind, call_named};

use base_types::{Call, Shape, Value};
use request_wire::grain_text;
use script_meaning::target_at;
use script_tree::{FieldDecl, TypeDecl};
use serde_json::{Map, Value as Json};
use std::alloc::{AllocError, Global};

// The name of a method, empty where the program has none of these numbers.
fn method_name(types: &[TypeDecl], kind: u16, method: u16) -> &str
    requires { IsAcceptedProgram (map type_tree types.now) }
    ensures { result.now ≡ method_name (numbered (slice_get (map type_tree types.now) kind) method) }
{
    match target_at(types, kind, method) {
        Some(target) => target.method.name.text.as_str(),
        None => "",
    }
}

/// A call as `type/key.method`.
pub(crate) fn call_text(
    alloc: Global,
    types: &[TypeDecl],
    shape: &Shape,
    call: &Call,
) -> Result<String, AllocError>
    requires { IsAcceptedProgram (map type_tree types.now) }
    ensures { IfOk result (λ text. string_bytes text ≡ call_named shape.now (map type_tree types.now) call.now) }
{
    let grain = grain_text(alloc, shape, call.grain)?;
    let method = method_name(types, call.grain.kind, call.method);
    let grain = grain.as_str();
    format!(in alloc; "{grain}.{method}")
}

/// The fields of the type of this number, none where the program has none.
pub(crate) fn fields_of_kind(types: &[TypeDecl], kind: u16) -> &[FieldDecl]
    ensures { result.now ≡ fields_of_kind (map type_tree types.now) kind }
{
    match types.get(kind as usize) {
        Some(of_type) => of_type.fields.as_slice(),
        None => &[],
    }
}

/// A value as a number or a string.
pub(crate) fn value_json(alloc: Global, value: &Value) -> Result<Json, AllocError>
    ensures { IfOk result (λ v. view v ≡ value_data value.now) }
{
    match value {
        Value::Int(number) => Ok(Json::from(*number)),
        Value::Text(text) => Json::try_from_str(alloc, text.as_str()),
    }
}

/// The fields that have a value, by their names.
pub(crate) fn fields_json(
    alloc: Global,
    fields: &[FieldDecl],
    values: &[Value],
) -> Result<Json, AllocError>
    ensures { IfOk result (λ v. view v ≡ object (fields_data fields.now values.now)) }
{
    let mut map = Map::new(alloc);
    let mut left = fields.len().min(values.len());
    while left > 0 {
        left -= 1;
        let value = value_json(alloc, &values[left])?;
        serde_json::put(&mut map, alloc, fields[left].name.text.as_str(), value)?;
    }
    Ok(Json::Object(map))
}

/// The arguments of a call.
pub(crate) fn args_json(alloc: Global, values: &[Value]) -> Result<Json, AllocError>
    ensures { IfOk result (λ v. view v ≡ array (items_of values.now)) }
{
    let mut items = Vec::new(alloc);
    for value in values {
        items.push(value_json(alloc, value)?)?;
    }
    Ok(Json::Array(items))
}
