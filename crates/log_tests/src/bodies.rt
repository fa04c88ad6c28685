ghost use Rattle.std.specs.Prelude.{IfOk};
ghost use Rattle.gate_block.specs.Blocks.{IsBlockOfBody};
ghost use Rattle.log_tests.specs.Encodable.{IsEncodable};

use crate::printer::add_record;
use base_types::{List, Shape};
use commit_log::{Body, CommitRecord, decode_body, encode_block, encode_upgrade, read_front};
use field_codec::{CodecFault, Format};
use std::alloc::{AllocError, Global};

/// How a body is read: by itself or in a log of a format, behind a session.
#[derive(Clone, Copy, Debug, PartialEq, Eq)]
pub struct Reading {
    pub logged: bool,
    pub format: Format,
    pub session: u64,
}

/// The session of a body, and what the body says.
pub fn said_in(
    alloc: Global,
    body: &[u8],
    shape: &Shape,
    reading: Reading,
) -> Result<(u64, Body), CodecFault>
    ensures { IfOk result (λ said. IsEncodable said.1) }
{
    if reading.logged {
        let (said, end) = read_front(alloc, body, shape, reading.session, reading.format)?;
        if end == body.len() {
            return Ok(said);
        }
        return Err(CodecFault::Trailing { place: end });
    }
    let said = decode_body(alloc, body, shape, reading.session)?;
    Ok(said)
}

/// The block of what a body says in a session.
pub fn block_of(alloc: Global, session: u64, said: &Body) -> Result<List<u8>, AllocError>
    requires { IsEncodable said.now }
    ensures { IfOk result IsBlockOfBody }
{
    match said {
        Body::Records(records) => {
            let block = encode_block(alloc, records, session)?;
            Ok(block)
        }
        Body::Upgrade(text) => {
            let block = encode_upgrade(alloc, text.as_slice(), session)?;
            Ok(block)
        }
    }
}

// What stands behind the session in a body that is spelled, where the format spells none.
fn behind_session(spelled: &[u8], format: Format) -> &[u8] {
    match format {
        Format::One => spelled.get(8..).unwrap_or(&[]),
        Format::Two => spelled,
    }
}

// Whether the block of what was read has this body, behind its length and before a closed gate.
fn is_spelled(
    alloc: Global,
    session: u64,
    said: &Body,
    body: &[u8],
    format: Format,
) -> Result<bool, AllocError>
    requires { IsEncodable said.now }
{
    let block = block_of(alloc, session, said)?;
    let Some((size, rest)) = block.as_slice().split_first_chunk::<4>() else {
        return Ok(false);
    };
    let is_size = usize::try_from(u32::from_le_bytes(*size)) == Ok(rest.len().saturating_sub(1));
    Ok(is_size && behind_session(rest, format).strip_prefix(body) == Some(&[0]))
}

/// Writes a body's session and what the body says, and whether its block has it; or the body's fault.
pub fn add_body(
    alloc: Global,
    out: &mut String,
    body: &[u8],
    shape: &Shape,
    reading: Reading,
) -> Result<(), AllocError> {
    let (session, said) = match said_in(alloc, body, shape, reading) {
        Ok(said) => said,
        Err(fault) => return write!(out, "{fault}"),
    };
    write!(out, "session {session}: ")?;
    add_said(out, &said)?;
    if is_spelled(alloc, session, &said, body, reading.format)? {
        return Ok(());
    }
    out.push_str(", spelled otherwise")
}

fn add_said(out: &mut String, said: &Body) -> Result<(), AllocError> {
    match said {
        Body::Records(records) => add_all(out, records.as_slice()),
        Body::Upgrade(text) => {
            let size = text.len();
            write!(out, "a program of {size} bytes")
        }
    }
}

// Writes these records, or how many there are where that is none or more than 2.
fn add_all(out: &mut String, records: &[CommitRecord]) -> Result<(), AllocError> {
    let count = records.len();
    if count == 0 || count > 2 {
        return write!(out, "{count} records");
    }
    for record in records {
        add_record(out, record)?;
        out.push_str(".")?;
    }
    Ok(())
}
