// A grain learns the decision of a unit that wrote it.
ghost use Rattle.std.specs.Prelude.{◌≡◌, ◌≤◌, true, false, Some};
ghost use Rattle.cell_model.specs.Units.{nobody};
ghost use Rattle.cell_model.specs.Cells.{cell_learned};
ghost use Rattle.core_model.specs.CoreState.{put_grain};
ghost use Rattle.core_model.specs.Tests.{is_committed};
ghost use Rattle.core_model.specs.declared.events.CoreEvent.TheVariants.{Learn};
ghost use Rattle.cell_table.specs.Table.{cell_in, cells_kept, here_in, opens_with};
ghost use Rattle.core_parts.specs.Pairs.{other_pairs};
ghost use Rattle.history_core.specs.Steps.{CanDo, Tells, Does};

use crate::parts::Parts;
use base_types::{GrainId, UnitNo};
use cell_table::CellTable;
use core_model::{CoreReply, Verdict};
use core_parts::LearnQueue;

impl Parts {
    // Whether the grain has the unit's decision to learn, and no stop stands.
    pub(crate) fn can_learn(&self, unit: UnitNo, grain: GrainId) -> bool
        ensures { Tells self.now (Learn unit grain) result }
    {
        self.is_going() && self.learn.contains(unit, grain)
    }

    // The grain learns the decision, and leaves memory if it is idle. Takes no memory.
    pub(crate) fn learn(&mut self, unit: UnitNo, grain: GrainId) -> CoreReply
        requires can { CanDo self.old (Learn unit grain) }
        ensures ok { Does self.old (Learn unit grain) result self.new }
        ensures opens { opens_with self.new.cells ≡ opens_with self.old.cells }
    {
        let committed = is_committed(self.units.verdict(unit));
        learn_in(&mut self.cells, unit, grain, committed);
        self.cells.evict(grain, self.units.wants());
        forget(&mut self.learn, unit, grain);
        CoreReply::Done
    }
}

// The grain learns the unit's decision: one without a cell has no version of it, and of one that isn't in memory nothing is kept.
fn learn_in(cells: &mut CellTable, unit: UnitNo, grain: GrainId, committed: bool)
    requires { unit ≡ nobody → ⊥ }
    ensures learns { here_in cells.old grain ≡ true → cells_kept cells.new
        ≡ put_grain (cells_kept cells.old) grain (Some (cell_learned (cell_in cells.old grain) unit committed)) }
    ensures away { here_in cells.old grain ≡ false → cells_kept cells.new ≡ cells_kept cells.old }
    ensures recent { cells.new.recent ≡ cells.old.recent }
    ensures opens { opens_with cells.new ≡ opens_with cells.old }
{
    if cells.has_cell(grain) {
        cells.learn(unit, grain, committed);
    }
}

// Takes off each pair of this unit and this grain.
fn forget(learn: &mut LearnQueue, unit: UnitNo, grain: GrainId)
    ensures pairs { learn.new.pairs ≡ other_pairs learn.old.pairs unit grain }
    ensures spare { learn.old.spare ≤ learn.new.spare }
{
    while learn.contains(unit, grain) {
        learn.remove(unit, grain);
    }
}

// Whether the verdict is to commit, for good.
pub(crate) fn is_committed(verdict: Verdict) -> bool
    ensures { result ≡ is_committed verdict }
{
    match verdict {
        Verdict::Committed => true,
        Verdict::Open | Verdict::Chosen | Verdict::Condemned | Verdict::Aborted => false,
    }
}
