ghost use Rattle.std.specs.Prelude.{◌≡◌, ◌++◌, is_ok, if◌then◌else◌, IfOk, OnOk};
ghost use Rattle.cell_model.specs.Sources.{is_among};
ghost use Rattle.prepare_batch.specs.Work.{reads_from};
ghost use Rattle.prepare_batch.specs.Pieces.{pieces_in, pieces_by, batch_pieces, pieces_by_grain};

use base_types::{GrainId, UnitNo, Version};
use core_model::Effect;
use std::alloc::{AllocError, Global};

/// A version that a unit wrote, with its grain.
#[derive(Drop)]
pub struct Piece {
    pub grain: GrainId,
    pub version: Version,
}

/// What the units of a batch wrote, in batch order, but for units that read from an aborted one.
pub fn batch_pieces(
    alloc: Global,
    batch: &[Effect],
    aborted: &[UnitNo],
) -> Result<Vec<Piece>, AllocError>
    ensures { IfOk result (λ made. made.items ≡ batch_pieces aborted.now batch.now) }
{
    let mut pieces = Vec::new(alloc);
    for effect in batch {
        add_unit(&mut pieces, effect, aborted)?;
    }
    Ok(pieces)
}

// Adds what the unit wrote, unless it read from an aborted one.
fn add_unit(pieces: &mut Vec<Piece>, effect: &Effect, aborted: &[UnitNo]) -> Result<(), AllocError>
    ensures { OnOk result (pieces.new.items ≡ pieces.old.items ++ pieces_by aborted.now effect.now) }
{
    if reads_from(aborted, effect) {
        return Ok(());
    }
    add_writes(pieces, effect)?;
    Ok(())
}

// Adds what the unit wrote.
fn add_writes(pieces: &mut Vec<Piece>, effect: &Effect) -> Result<(), AllocError>
    ensures { OnOk result (pieces.new.items ≡ pieces.old.items ++ pieces_in effect.now) }
{
    for write in effect.writes.as_slice() {
        let version = Version {
            unit: effect.unit,
            state: write.1.copy()?,
        };
        pieces.push(Piece {
            grain: write.0,
            version,
        })?;
    }
    Ok(())
}

// Whether the unit read from one of these.
fn reads_from(units: &[UnitNo], effect: &Effect) -> bool
    ensures { result ≡ reads_from units.now effect.now }
{
    effect
        .reads
        .as_slice()
        .iter()
        .any(|read| is_among(units, read.source))
}

// Whether the unit is one of these.
fn is_among(units: &[UnitNo], unit: UnitNo) -> bool
    ensures { result ≡ is_among units.now unit }
{
    units.iter().any(|other| *other == unit)
}

/// Sorts the pieces by their grains, those of one grain in the order that they had. Without memory they stay in their places.
pub fn sort_by_grain(pieces: &mut Vec<Piece>) -> Result<(), AllocError>
    ensures { pieces.new.items ≡ (if is_ok result then pieces_by_grain pieces.old.items else pieces.old.items) }
{
    pieces.sort_by_key(|piece| piece.grain)?;
    Ok(())
}
