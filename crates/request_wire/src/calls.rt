// The call that a request line asks for: its JSON value, its grain, its method and its arguments.
ghost use Rattle.std.specs.Prelude.{◌≡◌, true, Ok, Err, IfOk, IfErr, option_map};
ghost use Rattle.request_wire.specs.Request.{json_of, shape_of, split_at_first, is_digits, number_of, key_of, grain_named, grain_of, value_of_json, values_of, args_of, call_of};
ghost use Rattle.serde_json.specs.View.{view, items_view};

use crate::faults::RequestFault;
use crate::names::Names;
use base_types::{BadRequest, Call, GrainId, List, Text, Value};
use serde_json::Value as Json;
use std::alloc::{AllocError, Global};

/// The JSON value of a line.
fn json_of(alloc: Global, line: &[u8]) -> Result<Option<Json>, AllocError>
    ensures { IfOk result (λ found. option_map view found ≡ json_of line.now) }
{
    match Json::from_slice(alloc, line) {
        Ok(value) => Ok(Some(value)),
        Err(fault) if fault.is_memory() => Err(AllocError),
        Err(_) => Ok(None),
    }
}

/// The arguments and the call, where these are all that the value has.
#[tactic(auto, using(crate::proofs::Shapes::shapes))]
fn shape_of(value: &Json) -> Option<(&Vec<Json>, &str)>
    ensures { option_map (λ shape. (items_view shape.0.now.items, shape.1.now)) result
        ≡ shape_of (view value.now) }
{
    if value.as_object()?.len() != 2 {
        return None;
    }
    let args = value.get("args")?.as_array()?;
    let call = value.get("call")?.as_str()?;
    Some((args, call))
}

/// The parts of a text around its first `/`.
fn around_slash(text: &str) -> Option<(&str, &str)>
    ensures { option_map (λ parts. (parts.0.now, parts.1.now)) result ≡ split_at_first 47 text.now }
{
    text.split_once('/')
}

/// The parts of a text around its first `.`.
fn around_dot(text: &str) -> Option<(&str, &str)>
    ensures { option_map (λ parts. (parts.0.now, parts.1.now)) result ≡ split_at_first 46 text.now }
{
    text.split_once('.')
}

fn is_digits(text: &[u8]) -> bool
    ensures { result ≡ is_digits text.now }
{
    text.iter().all(|byte| byte.is_ascii_digit())
}

#[tactic(auto, using(crate::proofs::Numerals::parsing))]
fn number_of(text: &str) -> Option<u32>
    requires { is_digits text.now ≡ true }
    ensures { result ≡ number_of text.now }
{
    text.parse::<u32>().ok()
}

/// A key: `0`, or digits without a leading zero.
fn key_of(text: &str) -> Option<u32>
    ensures { result ≡ key_of text.now }
{
    let bytes = text.as_bytes();
    if !is_digits(bytes) {
        return None;
    }
    if bytes.len() > 1 && bytes[0] == b'0' {
        return None;
    }
    number_of(text)
}

fn grain_named<N: Names>(names: &N, name: &str, key: &str) -> Option<GrainId>
    ensures { result ≡ grain_named (N.types names.now) name.now key.now }
{
    let kind = names.type_of(name)?;
    let key = key_of(key)?;
    Some(GrainId { kind, key })
}

/// The grain of a call, and the name of its method.
fn grain_of<'a, N: Names>(names: &N, call: &'a str) -> Option<(GrainId, &'a str)>
    ensures { option_map (λ found. (found.0, found.1.now)) result ≡ grain_of (N.types names.now) call.now }
{
    let (name, rest) = around_slash(call)?;
    let (key, method) = around_dot(rest)?;
    let grain = grain_named(names, name, key)?;
    Some((grain, method))
}

/// The argument that a JSON value is.
fn value_of(alloc: Global, arg: &Json) -> Result<Option<Value>, AllocError>
    ensures { IfOk result (λ found. found ≡ value_of_json (view arg.now)) }
{
    if let Some(number) = arg.as_i64() {
        return Ok(Some(Value::Int(number)));
    }
    let Some(text) = arg.as_str() else {
        return Ok(None);
    };
    let Some(text) = Text::new(alloc, text)? else {
        return Ok(None);
    };
    Ok(Some(Value::Text(text)))
}

fn values_of(alloc: Global, args: &Vec<Json>) -> Result<Option<List<Value>>, AllocError>
    ensures { IfOk result (λ found. found ≡ values_of (items_view args.now.items)) }
{
    let mut values = List::new(alloc);
    for arg in args {
        let Some(value) = value_of(alloc, arg)? else {
            return Ok(None);
        };
        values.push(value)?;
    }
    Ok(Some(values))
}

/// The arguments, where there are as many as parameters.
#[tactic(auto, using(crate::proofs::Shapes::items_count_view))]
fn args_of(
    alloc: Global,
    params: usize,
    args: &Vec<Json>,
) -> Result<Option<List<Value>>, AllocError>
    ensures { IfOk result (λ found. found ≡ args_of params (items_view args.now.items)) }
{
    if args.len() != params {
        return Ok(None);
    }
    values_of(alloc, args)
}

/// The call that a line asks for by these names, or the first test that it fails.
pub fn call_of<N: Names>(alloc: Global, line: &[u8], names: &N) -> Result<Call, RequestFault>
    ensures ok { IfOk result (λ call. call_of (N.types names.now) line.now ≡ Ok call) }
    ensures bad { IfErr result (λ fault. (why : BadRequest) → fault ≡ RequestFault.Bad why
        → call_of (N.types names.now) line.now ≡ Err why) }
{
    let Some(value) = json_of(alloc, line)? else {
        return Err(RequestFault::Bad(BadRequest::Json));
    };
    let Some((args, call)) = shape_of(&value) else {
        return Err(RequestFault::Bad(BadRequest::Shape));
    };
    let Some((grain, name)) = grain_of(names, call) else {
        return Err(RequestFault::Bad(BadRequest::Grain));
    };
    let Some((method, params)) = names.method_of(grain.kind, name) else {
        return Err(RequestFault::Bad(BadRequest::Method));
    };
    let Some(args) = args_of(alloc, params, args)? else {
        return Err(RequestFault::Bad(BadRequest::Args));
    };
    Ok(Call {
        grain,
        method,
        args,
    })
}
