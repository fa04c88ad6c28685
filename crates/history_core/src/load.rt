// A wanted grain comes into memory.
ghost use Rattle.std.specs.Prelude.{◌≡◌, ◌&&◌, not, List as AList, Some, IfOk, OnErr};
ghost use Rattle.base_types.specs.declared.calls.UnitNo.{UnitNo as AUnit};
ghost use Rattle.base_types.specs.declared.calls.Value.{Value};
ghost use Rattle.core_model.specs.declared.events.CoreEvent.TheVariants.{Load};
ghost use Rattle.core_model.specs.Tests.{first_of_two, is_before, is_wanted};
ghost use Rattle.cell_table.specs.Table.{here_in, opens_with};
ghost use Rattle.unit_table.specs.Table.{wants_in};
ghost use Rattle.history_core.specs.Questions.{wanted_in};
ghost use Rattle.history_core.specs.Steps.{CanDo, KeepsMeaning, Tells, Does};

use crate::evictions::evict_left;
use crate::parts::Parts;
use base_types::{GrainId, State, UnitNo, Version};
use cell_table::is_wanted;
use core_model::CoreReply;
use std::alloc::AllocError;

impl Parts {
    // Whether the grain isn't in memory, somebody waits for it, and no stop stands.
    pub(crate) fn can_load(&self, grain: GrainId) -> bool
        ensures { (unit : AUnit) (state : AList Value) → Tells self.now (Load grain unit state) result }
    {
        self.is_going() && self.may_load(grain)
    }

    // Whether the grain isn't in memory, and somebody waits for it.
    fn may_load(&self, grain: GrainId) -> bool
        ensures { result ≡ (not (here_in self.now.cells grain) && is_wanted (wants_in self.now.units) grain) }
    {
        !self.cells.is_here(grain) && is_wanted(self.units.wants(), grain)
    }

    // The grain comes into memory with that version, and the one that is used no more leaves it, if it is idle.
    pub(crate) fn load(
        &mut self,
        grain: GrainId,
        unit: UnitNo,
        state: &State,
    ) -> Result<CoreReply, AllocError>
        requires can { CanDo self.old (Load grain unit state.now) }
        ensures ok { IfOk result (λ reply. Does self.old (Load grain unit state.now) reply self.new) }
        ensures err { OnErr result (KeepsMeaning self.old self.new) }
        ensures opens { opens_with self.new.cells ≡ opens_with self.old.cells }
    {
        let state = state.copy()?;
        let left = self.cells.load(grain, Version { unit, state })?;
        evict_left(&mut self.cells, left, self.units.wants());
        Ok(CoreReply::Done)
    }

    // The first of the grains that somebody waits for and that aren't in memory. Where memory has no limit there is none.
    pub(crate) fn next_wanted(&self) -> Option<GrainId>
        ensures { result ≡ wanted_in self.now }
    {
        if !self.cells.has_limit() {
            return None;
        }
        let wants = self.units.wants();
        let mut first: Option<GrainId> = None;
        let mut at = wants.len();
        while at > 0 {
            at -= 1;
            let want = &wants[at];
            if !self.cells.is_here(want.1) {
                first = Some(first_of(want.1, first));
            }
        }
        first
    }
}

// The first of this grain and one that may be missing.
fn first_of(grain: GrainId, other: Option<GrainId>) -> GrainId
    ensures { Some result ≡ first_of_two grain other }
{
    match other {
        Some(other) if is_before(other, grain) => other,
        _ => grain,
    }
}

// Whether that grain comes before the other.
fn is_before(one: GrainId, other: GrainId) -> bool
    ensures { result ≡ is_before one other }
{
    one.kind < other.kind || one.kind == other.kind && one.key < other.key
}
