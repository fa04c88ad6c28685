ghost use Rattle.std.specs.Prelude.{◌≡◌};
ghost use Rattle.field_codec.specs.Results.{GivesRead};
ghost use Rattle.commit_log.specs.Orders.{is_above};
ghost use Rattle.commit_log.specs.Fields.{write_in, writes_behind, writes_in};

use crate::grains::get_grain;
use crate::records::Written;
use base_types::{GrainId, List, Place, Shape};
use field_codec::{CodecFault, get_count, get_u32, get_u64};
use std::alloc::Global;

/// Whether the grain is above the one before it, where there is one: grains are ordered by type, then key.
pub fn is_above(last: Option<GrainId>, grain: GrainId) -> bool
    ensures { result ≡ is_above last grain }
{
    match last {
        Some(last) => {
            last.kind < grain.kind || (last.kind == grain.kind && last.key < grain.key)
        }
        None => true,
    }
}

#[tactic(auto, unfolding(crate::specs::Fields::write_in, field_codec::specs::Readers::field, field_codec::specs::Readers::choice, field_codec::specs::Readers::refused, field_codec::specs::Readers::whole))]
fn get_write(
    bytes: &[u8],
    at: usize,
    shape: &Shape,
    last: Option<GrainId>,
) -> Result<(Written, usize), CodecFault>
    ensures { GivesRead result (write_in shape.now last bytes.now at) }
{
    let (grain, after) = get_grain(bytes, at, shape)?;
    if is_above(last, grain) {
        let (offset, after) = get_u64(bytes, after)?;
        let (len, after) = get_u32(bytes, after)?;
        let place = Place { offset, len };
        return Ok((Written { grain, place }, after));
    }
    Err(CodecFault::BadOrder { place: at })
}

/// So many writes behind a grain, in ascending grain order.
pub fn writes_there(
    alloc: Global,
    bytes: &[u8],
    at: usize,
    shape: &Shape,
    behind: Option<GrainId>,
    count: u32,
) -> Result<(List<Written>, usize), CodecFault>
    ensures { GivesRead result (writes_behind shape.now behind count bytes.now at) }
{
    let mut writes = List::new(alloc);
    let mut last = behind;
    let mut place = at;
    for _ in 0..count {
        let (write, after) = get_write(bytes, place, shape, last)?;
        writes.push(write)?;
        last = Some(write.grain);
        place = after;
    }
    Ok((writes, place))
}

/// The writes that stand at a place, at most 64 and in ascending grain order.
#[tactic(auto, unfolding(crate::specs::Fields::writes_in, field_codec::specs::Readers::field))]
pub fn get_writes(
    alloc: Global,
    bytes: &[u8],
    at: usize,
    shape: &Shape,
) -> Result<(List<Written>, usize), CodecFault>
    ensures { GivesRead result (writes_in shape.now bytes.now at) }
{
    let (count, after) = get_count(bytes, at, 64)?;
    let (writes, after) = writes_there(alloc, bytes, after, shape, None, count as u32)?;
    Ok((writes, after))
}
