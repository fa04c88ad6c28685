ghost use Rattle.std.specs.Prelude.{◌≡◌, ◌≤◌, ◌++◌, length, is_ok, if◌then◌else◌};
ghost use Rattle.field_codec.specs.Fields.{call_at};
ghost use Rattle.field_codec.specs.Results.{GivesRead, FindsSpelling, Only};
ghost use Rattle.field_codec.specs.Spelling.{spelling_of_call, CallFits};

use crate::faults::CodecFault;
use crate::formats::Format;
use crate::numbers::{get_u16, get_u32, put_u16, put_u32};
use crate::spelling::{Spelled, put};
use crate::values::{append_values, values_there};
use base_types::{Call, GrainId};
use std::alloc::{AllocError, Global};

impl Spelled for Call {
    ghost use Rattle.std.specs.Prelude.{◌≤◌, length};
    ghost use Rattle.field_codec.specs.Spelling.{spelling_of_call, CallFits};
    ghost use Rattle.field_codec.specs.declared.formats.Format.TheVariants.{Two};

    ghost may_spell = { λ call. length call.args ≤ 8 };

    ghost spelling = { spelling_of_call };

    ghost fits = { CallFits Two };

    fn append(&self, into: &mut Vec<u8>) -> Result<(), AllocError> {
        put_u16(into, self.grain.kind)?;
        put_u32(into, self.grain.key)?;
        put_u16(into, self.method)?;
        append_values(into, self.args.as_slice())?;
        Ok(())
    }
}

/// Appends the call, which has at most 8 arguments. Without memory nothing is appended.
pub fn put_call(into: &mut Vec<u8>, call: &Call) -> Result<(), AllocError>
    requires { length call.now.args ≤ 8 }
    ensures { into.new.items ≡ (if is_ok result then into.old.items ++ spelling_of_call call.now else into.old.items) }
{
    put(into, call)
}

#[tactic(auto, unfolding(crate::specs::Fields::call_at, crate::specs::Readers::field, crate::specs::Readers::whole))]
fn call_there(
    alloc: Global,
    bytes: &[u8],
    at: usize,
    format: Format,
) -> Result<(Call, usize), CodecFault>
    ensures { GivesRead result (call_at format bytes.now at) }
{
    let (kind, after) = get_u16(bytes, at)?;
    let (key, after) = get_u32(bytes, after)?;
    let (method, after) = get_u16(bytes, after)?;
    let (args, after) = values_there(alloc, bytes, after, 8, format)?;
    let grain = GrainId { kind, key };
    Ok((
        Call {
            grain,
            method,
            args,
        },
        after,
    ))
}

/// The call that stands at a place, and the place behind it. The fault is the first from left to right.
pub fn get_call(
    alloc: Global,
    bytes: &[u8],
    at: usize,
    format: Format,
) -> Result<(Call, usize), CodecFault>
    ensures found { FindsSpelling spelling_of_call (CallFits format) bytes.now at result }
    ensures only { Only spelling_of_call (CallFits format) bytes.now at result }
    ensures exact { GivesRead result (call_at format bytes.now at) }
{
    call_there(alloc, bytes, at, format)
}
