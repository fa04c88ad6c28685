ghost use Rattle.std.specs.Prelude.{◌≡◌, ◌+◌, ◌*◌, ◌≤◌, ◌++◌, ℕ, length, take, OnOk, IfOk, IfErr, Ok};
ghost use Rattle.std.specs.List.{AllByRecursion};
ghost use Rattle.field_codec.specs.Results.{GivesRead, place_of};
ghost use Rattle.field_codec.specs.declared.formats.Format.TheVariants.{Two};
ghost use Rattle.gate_block.specs.Blocks.{block_at};
ghost use Rattle.commit_log.specs.Spelling.{WriteFits};
ghost use Rattle.commit_log.specs.Checkpoints.{flag_of, spelling_of_piece, IsPieceBody, head_session, is_as, may_be_count, may_be_next, flag_at, tested_at, kept_session_at, saved_in, piece_in, piece_body_in};
ghost use Rattle.commit_log.specs.declared.records.CheckpointPiece.{CheckpointPiece as APiece};

use crate::records::{CheckpointHead, CheckpointPiece, Written};
use crate::writes::writes_there;
use base_types::{GrainId, List, Shape, UnitNo};
use field_codec::{
    CodecFault, Format, Numbers, append_all, get_session, get_u8, get_u32, get_u64, put_u32,
    put_u64,
};
use std::alloc::{AllocError, Global};

// The byte that says whether another piece follows.
fn flag_of(more: bool) -> u8
    ensures { result ≡ flag_of more }
{
    if more { 1 } else { 0 }
}

/// Appends the body of a checkpoint's piece in [`Format::Two`] with these writes, at most 65,536: whether another piece follows, what
/// each piece says, and the writes. Without memory some of its bytes may have been appended; those that were there stay.
pub fn put_piece(
    into: &mut Vec<u8>,
    more: bool,
    head: CheckpointHead,
    writes: &[Written],
) -> Result<(), AllocError>
    requires { length writes.now ≤ 65536 }
    ensures ok { OnOk result (into.new.items ≡ into.old.items ++ spelling_of_piece Two (flag_of more) head.count head.next_unit.0 head.session writes.now) }
    ensures fits { OnOk result (AllByRecursion WriteFits writes.now) }
    ensures begins { take (length into.old.items) into.new.items ≡ into.old.items }
{
    into.push(flag_of(more))?;
    put_u64(into, head.count)?;
    put_u64(into, head.next_unit.0)?;
    put_u64(into, head.session)?;
    put_u32(into, writes.len() as u32)?;
    append_all(into, writes)?;
    Ok(())
}

/// The block of a checkpoint's piece, as it is written behind a header gate that is closed: the open gate, the body's length, and the
/// body, as [`put_piece`] spells it. It has 34 bytes and 18 for each write.
pub fn encode_piece(
    alloc: Global,
    more: bool,
    head: CheckpointHead,
    writes: &[Written],
) -> Result<List<u8>, AllocError>
    requires { length writes.now ≤ 65536 }
    ensures spelled { IfOk result (λ block. block ≡ block_at (spelling_of_piece Two (flag_of more) head.count head.next_unit.0 head.session writes.now)) }
    ensures fits { OnOk result (AllByRecursion WriteFits writes.now) }
    ensures size { length (spelling_of_piece Two (flag_of more) head.count head.next_unit.0 head.session writes.now) ≡ 29 + 18 * length writes.now }
{
    let mut block = Vec::new(alloc);
    block.push(1)?;
    put_u32(&mut block, 29 + 18 * writes.len() as u32)?;
    put_piece(&mut block, more, head, writes)?;
    Ok(List::from_vec(block))
}

// Whether a number is taken as a count.
fn may_be_count(first: Option<CheckpointHead>, number: u64) -> bool
    ensures { result ≡ may_be_count first number }
{
    match first {
        None => number < 9_223_372_036_854_775_808,
        Some(first) => number < 9_223_372_036_854_775_808 && number == first.count,
    }
}

// Whether a number is taken as that of the next unit.
fn may_be_next(first: Option<CheckpointHead>, number: u64) -> bool
    ensures { result ≡ may_be_next first number }
{
    match first {
        None => 0 < number && number < 9_223_372_036_854_775_809,
        Some(first) => {
            0 < number && number < 9_223_372_036_854_775_809 && number == first.next_unit.0
        }
    }
}

// The flag that stands at a place. `BadTag` where it is neither 0 nor 1.
#[tactic(auto, unfolding(crate::specs::Checkpoints::flag_at, field_codec::specs::Readers::field, field_codec::specs::Readers::choice, field_codec::specs::Readers::refused, field_codec::specs::Readers::whole))]
fn get_flag(bytes: &[u8], at: usize) -> Result<(bool, usize), CodecFault>
    ensures { GivesRead result (flag_at bytes.now at) }
{
    let (tag, after) = get_u8(bytes, at)?;
    if tag == 0 {
        return Ok((false, after));
    }
    if tag == 1 {
        return Ok((true, after));
    }
    Err(CodecFault::BadTag {
        place: at,
        byte: tag,
    })
}

// The count that stands at a place.
#[tactic(auto, unfolding(crate::specs::Checkpoints::tested_at, field_codec::specs::Readers::field, field_codec::specs::Readers::choice, field_codec::specs::Readers::refused, field_codec::specs::Readers::whole))]
fn get_count(
    bytes: &[u8],
    at: usize,
    first: Option<CheckpointHead>,
) -> Result<(u64, usize), CodecFault>
    ensures { GivesRead result (tested_at (may_be_count first) bytes.now at) }
{
    let (number, after) = get_u64(bytes, at)?;
    if may_be_count(first, number) {
        return Ok((number, after));
    }
    Err(CodecFault::Unknown { place: at })
}

// The number of the next unit that stands at a place.
#[tactic(auto, unfolding(crate::specs::Checkpoints::tested_at, field_codec::specs::Readers::field, field_codec::specs::Readers::choice, field_codec::specs::Readers::refused, field_codec::specs::Readers::whole))]
fn get_next(
    bytes: &[u8],
    at: usize,
    first: Option<CheckpointHead>,
) -> Result<(u64, usize), CodecFault>
    ensures { GivesRead result (tested_at (may_be_next first) bytes.now at) }
{
    let (number, after) = get_u64(bytes, at)?;
    if may_be_next(first, number) {
        return Ok((number, after));
    }
    Err(CodecFault::Unknown { place: at })
}

// Whether a session is the first piece's, where one stands before.
fn is_first_session(first: Option<CheckpointHead>, session: u64) -> bool
    ensures { result ≡ is_as (head_session first) session }
{
    match first {
        None => true,
        Some(first) => session == first.session,
    }
}

// The session that stands at a place.
#[tactic(auto, unfolding(crate::specs::Checkpoints::kept_session_at, field_codec::specs::Readers::field, field_codec::specs::Readers::choice, field_codec::specs::Readers::refused, field_codec::specs::Readers::whole))]
fn get_kept_session(
    bytes: &[u8],
    at: usize,
    first: Option<CheckpointHead>,
    format: Format,
) -> Result<(u64, usize), CodecFault>
    ensures { GivesRead result (kept_session_at format first bytes.now at) }
{
    let (session, after) = get_session(bytes, at, 0, format, Numbers::Logged)?;
    if is_first_session(first, session) {
        return Ok((session, after));
    }
    Err(CodecFault::Unknown { place: at })
}

// The writes that stand at a place, at most 65,536, on grains above the last one before.
#[tactic(auto, unfolding(crate::specs::Checkpoints::saved_in, field_codec::specs::Readers::count_at, field_codec::specs::Readers::field, field_codec::specs::Readers::choice, field_codec::specs::Readers::refused, field_codec::specs::Readers::whole))]
fn get_saved(
    alloc: Global,
    bytes: &[u8],
    at: usize,
    shape: &Shape,
    last: Option<GrainId>,
) -> Result<(List<Written>, usize), CodecFault>
    ensures { GivesRead result (saved_in shape.now last bytes.now at) }
{
    let (count, after) = get_u32(bytes, at)?;
    if count > 65_536 {
        return Err(CodecFault::Over {
            place: at,
            limit: 65_536,
        });
    }
    let (writes, after) = writes_there(alloc, bytes, after, shape, last, count)?;
    Ok((writes, after))
}

// The piece that stands at a place.
#[tactic(auto, unfolding(crate::specs::Checkpoints::piece_in, field_codec::specs::Readers::field, field_codec::specs::Readers::whole))]
fn get_piece_at(
    alloc: Global,
    bytes: &[u8],
    at: usize,
    shape: &Shape,
    first: Option<CheckpointHead>,
    last: Option<GrainId>,
    format: Format,
) -> Result<(CheckpointPiece, usize), CodecFault>
    ensures { GivesRead result (piece_in format shape.now first last bytes.now at) }
{
    let (more, after) = get_flag(bytes, at)?;
    let (count, after) = get_count(bytes, after, first)?;
    let (next, after) = get_next(bytes, after, first)?;
    let (session, after) = get_kept_session(bytes, after, first, format)?;
    let (writes, after) = get_saved(alloc, bytes, after, shape, last)?;
    let head = CheckpointHead {
        count,
        next_unit: UnitNo(next),
        session,
    };
    Ok((CheckpointPiece { more, head, writes }, after))
}

fn get_whole(
    alloc: Global,
    body: &[u8],
    shape: &Shape,
    first: Option<CheckpointHead>,
    last: Option<GrainId>,
    format: Format,
) -> Result<CheckpointPiece, CodecFault>
    ensures { GivesRead result (piece_body_in format shape.now first last body.now) }
{
    let (piece, end) = get_piece_at(alloc, body, 0, shape, first, last, format)?;
    if end == body.len() {
        return Ok(piece);
    }
    Err(CodecFault::Trailing { place: end })
}

/// The piece of a checkpoint that a block's body in a log of a format is, as [`put_piece`] spells it, but that one of [`Format::One`] has
/// no session and counts as one of session 1, behind what the first piece said and the last grain before, where there are such. The
/// fault is the first from left to right; its place is an offset in the body. `BadTag`: the flag is neither 0 nor 1. `Unknown`: a count
/// or a session is 2 to the 63 or more, a next unit isn't from 1 to 2 to the 63, one of the three isn't the first piece's, or a type
/// isn't the shape's. `Over`: there are more than 65,536 writes. `BadOrder`: a grain isn't above the one
/// before it. `Trailing`: bytes follow the last write.
pub fn get_piece(
    alloc: Global,
    body: &[u8],
    shape: &Shape,
    first: Option<CheckpointHead>,
    last: Option<GrainId>,
    format: Format,
) -> Result<CheckpointPiece, CodecFault>
    // It answers a piece exactly for the bodies of the grammar.
    ensures found { IfOk result (λ piece. IsPieceBody format shape.now first last piece body.now) }
    ensures only { (piece : APiece) → IsPieceBody format shape.now first last piece body.now → GivesRead result (Ok piece) }

    // Else it answers the first fault, which names a place in the body or its end.
    ensures exact { GivesRead result (piece_body_in format shape.now first last body.now) }
    ensures within { IfErr result (λ fault. place_of fault ≤ length body.now) }
{
    get_whole(alloc, body, shape, first, last, format)
}
