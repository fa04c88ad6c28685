// Who leaves memory because another grain is used.
ghost use Rattle.std.specs.Prelude.{◌≡◌};
ghost use Rattle.cell_memory.specs.LeavingGrains.{evicted_by};
ghost use Rattle.cell_table.specs.Table.{cells_kept, limit_of, opens_with, used_of};
ghost use Rattle.history_core.specs.Evictions.{these};

use base_types::{GrainId, UnitNo};
use cell_table::CellTable;

// The grain that is none of those used last any more, where there is one, leaves memory if it is idle. Takes no memory.
pub(crate) fn evict_left(cells: &mut CellTable, left: Option<GrainId>, wants: &[(UnitNo, GrainId)])
    ensures evicts { cells_kept cells.new ≡ evicted_by (limit_of cells.old.recent) wants.now (used_of cells.old.recent) (these left) (cells_kept cells.old) }
    ensures recent { cells.new.recent ≡ cells.old.recent }
    ensures opens { opens_with cells.new ≡ opens_with cells.old }
{
    match left {
        Some(grain) => cells.evict(grain, wants),
        None => {}
    }
}
