ghost use Rattle.std.specs.Prelude.{◌≡◌, ◌≤◌, ℕ, length, IfOk, IfErr, Ok};
ghost use Rattle.field_codec.specs.Results.{GivesRead, place_of};
ghost use Rattle.field_codec.specs.declared.units.Numbers.TheVariants.{Free, Logged};
ghost use Rattle.field_codec.specs.declared.formats.Format.TheVariants.{Two};
ghost use Rattle.field_codec.specs.Spelling.{Stands};
ghost use Rattle.field_codec.specs.Units.{SessionFits};
ghost use Rattle.commit_log.specs.Contents.{IsContentIn, content_in};
ghost use Rattle.commit_log.specs.Sessions.{spelling_with_session, IsSessionBody, front_in, body_with_session};
ghost use Rattle.commit_log.specs.declared.contents.Body.{Body as ABody};

use crate::bodies::records_there;
use crate::records::CommitRecord;
use base_types::{List, Shape};
use field_codec::{CodecFault, Format, Numbers, get_program, get_session, get_u32};
use std::alloc::Global;

/// What a body of a log says: records, at most 64, or the text of the program that comes into force.
#[derive(Drop)]
pub enum Body {
    Records(List<CommitRecord>),
    Upgrade(List<u8>),
}

// What a body says from a place on, and the place behind it.
#[tactic(auto, unfolding(crate::specs::Contents::content_in, field_codec::specs::Readers::field, field_codec::specs::Readers::choice, field_codec::specs::Readers::refused, field_codec::specs::Readers::whole))]
fn get_content(
    alloc: Global,
    body: &[u8],
    at: usize,
    shape: &Shape,
    numbers: Numbers,
    format: Format,
) -> Result<(Body, usize), CodecFault>
    ensures { GivesRead result (content_in format numbers shape.now body.now at) }
{
    let (count, after) = get_u32(body, at)?;
    if count == 4_294_967_295 {
        let (text, end) = get_program(alloc, body, after)?;
        return Ok((Body::Upgrade(text), end));
    }
    if count > 64 {
        return Err(CodecFault::Over {
            place: at,
            limit: 64,
        });
    }
    let (records, end) = records_there(alloc, body, after, shape, numbers, count, format)?;
    Ok((Body::Records(records), end))
}

// A body's session and what the body says, and the place behind it.
#[tactic(auto, unfolding(crate::specs::Sessions::front_in, field_codec::specs::Readers::field, field_codec::specs::Readers::whole))]
fn get_front(
    alloc: Global,
    body: &[u8],
    shape: &Shape,
    session: u64,
    numbers: Numbers,
    format: Format,
) -> Result<((u64, Body), usize), CodecFault>
    ensures { GivesRead result (front_in format numbers shape.now session body.now 0) }
{
    let (session, after) = get_session(body, 0, session, format, numbers)?;
    let (content, end) = get_content(alloc, body, after, shape, numbers, format)?;
    Ok(((session, content), end))
}

fn get_body(
    alloc: Global,
    body: &[u8],
    shape: &Shape,
    session: u64,
) -> Result<(u64, Body), CodecFault>
    ensures { GivesRead result (body_with_session Two Free shape.now session body.now) }
{
    let (said, end) = get_front(alloc, body, shape, session, Numbers::Free, Format::Two)?;
    if end == body.len() {
        return Ok(said);
    }
    Err(CodecFault::Trailing { place: end })
}

/// The session of a block's body and what the body says, as [`crate::encode_upgrade`] and [`crate::encode_block`] write it, under the
/// program's shape and within the limits of [`Format::Two`], where `session` is the greatest of the blocks before. The fault is the
/// first from left to right; its place is an offset in the body. `BadOrder`: the session is below `session`, or a written grain isn't
/// above the one before it. `Over`: there are more than 64 records, or the text has more than 262,144 bytes. `Unknown`: a type, a
/// method or a number of arguments isn't the shape's. `Trailing`: bytes follow. A session, a unit's or a parent's number may be any.
pub fn decode_body(
    alloc: Global,
    body: &[u8],
    shape: &Shape,
    session: u64,
) -> Result<(u64, Body), CodecFault>
    // It answers a session and what a body says exactly for the bodies of the grammar.
    ensures found { IfOk result (λ said. IsSessionBody Two Free shape.now session said.0 said.1 body.now) }
    ensures only { (named : ℕ) (content : ABody) → IsSessionBody Two Free shape.now session named content body.now → GivesRead result (Ok (named, content)) }

    // Else it answers the first fault, which names a place in the body or its end.
    ensures exact { GivesRead result (body_with_session Two Free shape.now session body.now) }
    ensures within { IfErr result (λ fault. place_of fault ≤ length body.now) }
{
    get_body(alloc, body, shape, session)
}

/// The session of a body in a log of a format, what the body says, and the place behind it; bytes may follow. It is read as
/// [`decode_body`] reads it, but for that format's limits, and for the numbers that no log has: a unit's that is 0 or 2 to the 63 or
/// more, and a parent's or a session that is 2 to the 63 or more. Such a number is `Unknown` at its own field, before any fault of a
/// later one. A body of [`Format::One`] names no session: it is one of session 1, whatever was before.
pub fn read_front(
    alloc: Global,
    body: &[u8],
    shape: &Shape,
    session: u64,
    format: Format,
) -> Result<((u64, Body), usize), CodecFault>
    // What is answered stands at the body's begin, and has such numbers alone.
    ensures found { IfOk result (λ said. SessionFits format Logged session said.0.0 × IsContentIn format Logged shape.now said.0.1
        × Stands body.now 0 (spelling_with_session format said.0.0 said.0.1) said.1) }

    // Else it answers the first fault, which names a place in the body or its end.
    ensures exact { GivesRead result (front_in format Logged shape.now session body.now 0) }
    ensures within { IfErr result (λ fault. place_of fault ≤ length body.now) }
{
    get_front(alloc, body, shape, session, Numbers::Logged, format)
}
