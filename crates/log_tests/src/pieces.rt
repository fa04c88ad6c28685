use crate::printer::add_writes;
use base_types::Shape;
use commit_log::{CheckpointPiece, get_piece, put_piece};
use field_codec::Format;
use std::alloc::{AllocError, Global};

// Whether the piece is spelled by this body, of which format 1 spells no session.
fn is_spelled(
    alloc: Global,
    piece: &CheckpointPiece,
    body: &[u8],
    format: Format,
) -> Result<bool, AllocError> {
    if piece.writes.len() > 65_536 {
        return Ok(false);
    }
    let mut spelled = Vec::new(alloc);
    put_piece(
        &mut spelled,
        piece.more,
        piece.head,
        piece.writes.as_slice(),
    )?;
    let spelled = spelled.as_slice();
    match format {
        Format::One => Ok(
            body.get(..17) == spelled.get(..17) && body.get(17..) == spelled.get(25..),
        ),
        Format::Two => Ok(body == spelled),
    }
}

/// Writes what the first piece of a checkpoint in a log of a format says, and whether it is spelled so; or its fault.
pub fn add_piece(
    alloc: Global,
    out: &mut String,
    body: &[u8],
    shape: &Shape,
    format: Format,
) -> Result<(), AllocError> {
    let piece = match get_piece(alloc, body, shape, None, None, format) {
        Ok(piece) => piece,
        Err(fault) => return write!(out, "{fault}"),
    };
    let follows = if piece.more { ", more follow" } else { "" };
    let count = piece.head.count;
    let next = piece.head.next_unit.0;
    let session = piece.head.session;
    write!(
        out,
        "{count} records, next unit {next}, session {session}{follows}"
    )?;
    add_writes(out, piece.writes.as_slice())?;
    if is_spelled(alloc, &piece, body, format)? {
        return Ok(());
    }
    out.push_str(", spelled otherwise")
}
