ghost use Rattle.std.specs.Prelude.{◌≡◌};
ghost use Rattle.field_codec.specs.Results.{GivesRead};
ghost use Rattle.commit_log.specs.Bodies.{params_in};
ghost use Rattle.commit_log.specs.Fields.{grain_in, call_in};

use base_types::{Call, GrainId, Shape};
use field_codec::{CodecFault, Format, get_exactly, get_u16, get_u32};
use std::alloc::Global;

/// The grain that stands at a place. `Unknown` names the type's place where the program has no such type.
#[tactic(auto, unfolding(crate::specs::Fields::grain_in, field_codec::specs::Readers::field, field_codec::specs::Readers::choice, field_codec::specs::Readers::refused, field_codec::specs::Readers::whole))]
pub fn get_grain(bytes: &[u8], at: usize, shape: &Shape) -> Result<(GrainId, usize), CodecFault>
    ensures { GivesRead result (grain_in shape.now bytes.now at) }
{
    let (kind, after) = get_u16(bytes, at)?;
    if (kind as usize) < shape.types.len() {
        let (key, after) = get_u32(bytes, after)?;
        return Ok((GrainId { kind, key }, after));
    }
    Err(CodecFault::Unknown { place: at })
}

// The number of parameters of the grain's method.
fn params_in(shape: &Shape, grain: GrainId, method: u16) -> Option<u16>
    ensures { result ≡ params_in shape.now grain.kind method }
{
    match shape.types.get(grain.kind as usize) {
        Some(of_type) => of_type.params.get(method as usize).copied(),
        None => None,
    }
}

/// The call that stands at a place, of one of the program's methods.
#[tactic(auto, unfolding(crate::specs::Fields::call_in, field_codec::specs::Readers::field, field_codec::specs::Readers::when_known, field_codec::specs::Readers::whole))]
pub fn get_call_in(
    alloc: Global,
    bytes: &[u8],
    at: usize,
    shape: &Shape,
    format: Format,
) -> Result<(Call, usize), CodecFault>
    ensures { GivesRead result (call_in format shape.now bytes.now at) }
{
    let (grain, place) = get_grain(bytes, at, shape)?;
    let (method, after) = get_u16(bytes, place)?;
    let Some(params) = params_in(shape, grain, method) else {
        return Err(CodecFault::Unknown { place });
    };
    let (args, after) = get_exactly(alloc, bytes, after, 8, params as usize, format)?;
    Ok((
        Call {
            grain,
            method,
            args,
        },
        after,
    ))
}
