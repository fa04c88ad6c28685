ghost use Rattle.std.specs.Prelude.{◌≡◌, [], IfOk, OnOk};
ghost use Rattle.base_types.specs.Stores.{end_in};
ghost use Rattle.prepare_batch.specs.Work.{ends_by, untouched, work_of};
ghost use Rattle.prepare_batch.specs.Pieces.{first_work, with_piece, with_pieces};
ghost use Rattle.cell_model.specs.Units.{same_grain};

use crate::pieces::{Piece, batch_pieces, sort_by_grain};
use base_types::{Ends, GrainId, List, UnitNo, Version};
use core_model::Effect;
use std::alloc::{AllocError, Global};

/// What goes into one grain's file for a batch: these versions, one behind the other, from this place on.
#[derive(Drop)]
pub struct FileWork {
    pub grain: GrainId,
    /// The file's end, in bytes from its start.
    pub at: u64,
    pub versions: List<Version>,
}

/// The work of a batch: one piece for each grain that was written, ascending. It has what the units wrote
/// there, in batch order, each version once, and goes to the file's end. Units that read from one of the
/// aborted are left out. An error where there is no memory.
pub fn plan(
    alloc: Global,
    batch: &List<Effect>,
    aborted: &List<UnitNo>,
    ends: &Ends,
) -> Result<List<FileWork>, AllocError>
    ensures { IfOk result (λ made. made ≡ work_of (ends_by ends.now) (untouched aborted.now batch.now)) }
{
    let mut pieces = batch_pieces(alloc, batch.as_slice(), aborted.as_slice())?;
    sort_by_grain(&mut pieces)?;
    let works = works_of(alloc, pieces, ends)?;
    Ok(List::from_vec(works))
}

// Puts pieces that follow one another together where they are of one grain.
fn works_of(alloc: Global, pieces: Vec<Piece>, ends: &Ends) -> Result<Vec<FileWork>, AllocError>
    ensures { IfOk result (λ made. made.items ≡ with_pieces (ends_by ends.now) [] pieces.items) }
{
    let mut works = Vec::new(alloc);
    for piece in pieces {
        add_piece(alloc, &mut works, piece, ends)?;
    }
    Ok(works)
}

// Adds the piece to the last grain's work, where it is of that grain, or begins one for its own.
fn add_piece(
    alloc: Global,
    works: &mut Vec<FileWork>,
    piece: Piece,
    ends: &Ends,
) -> Result<(), AllocError>
    ensures { OnOk result (works.new.items ≡ with_piece (ends_by ends.now) works.old.items piece) }
{
    let Some(mut work) = works.pop() else {
        works.push(begin_work(alloc, piece, ends)?)?;
        return Ok(());
    };
    if is_same(work.grain, piece.grain) {
        work.versions.push(piece.version)?;
        works.push(work)?;
        return Ok(());
    }
    works.push(work)?;
    works.push(begin_work(alloc, piece, ends)?)?;
    Ok(())
}

// The work of a grain that has one version so far.
fn begin_work(alloc: Global, piece: Piece, ends: &Ends) -> Result<FileWork, AllocError>
    ensures { IfOk result (λ made. made ≡ first_work (ends_by ends.now) piece) }
{
    let at = ends.get(piece.grain).unwrap_or(0);
    let mut versions = List::new(alloc);
    versions.push(piece.version)?;
    Ok(FileWork {
        grain: piece.grain,
        at,
        versions,
    })
}

// Whether the two are one grain.
fn is_same(a: GrainId, b: GrainId) -> bool
    ensures { result ≡ same_grain a b }
{
    a == b
}
