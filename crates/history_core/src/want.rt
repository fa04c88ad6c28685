// A running unit wants a grain to be brought into memory.
ghost use Rattle.std.specs.Prelude.{◌≡◌, ◌&&◌, not, IfOk, OnErr};
ghost use Rattle.std.specs.List.{list_any};
ghost use Rattle.cell_model.specs.Units.{same_unit, same_grain};
ghost use Rattle.core_model.specs.CoreState.{CoreState};
ghost use Rattle.core_model.specs.Events.{can_want};
ghost use Rattle.core_model.specs.declared.events.CoreEvent.TheVariants.{Want};
ghost use Rattle.cell_table.specs.Table.{opens_with};
ghost use Rattle.unit_table.specs.Table.{wants_in};
ghost use Rattle.history_core.specs.KeptParts.{PartsStand};
ghost use Rattle.history_core.specs.Steps.{CanDo, KeepsMeaning, Tells, Does};

use crate::parts::Parts;
use base_types::{GrainId, UnitNo};
use core_model::CoreReply;
use std::alloc::AllocError;

impl Parts {
    // Whether the unit may wait for the grain, and no stop stands.
    pub(crate) fn can_want(&self, unit: UnitNo, grain: GrainId) -> bool
        ensures { Tells self.now (Want unit grain) result }
    {
        self.is_going() && self.may_want(unit, grain)
    }

    // Whether the unit runs, has no lock of the grain and doesn't wait for it yet.
    fn may_want(&self, unit: UnitNo, grain: GrainId) -> bool
        ensures { (w : CoreState) → PartsStand self.now w → result ≡ can_want w unit grain }
    {
        if !self.is_active(unit, grain) {
            return false;
        }
        !self.cells.is_held_by(unit, grain) && !self.wants(unit, grain)
    }

    // Whether the unit waits for the grain.
    fn wants(&self, unit: UnitNo, grain: GrainId) -> bool
        ensures { result ≡ list_any (λ t. same_unit t.0 unit && same_grain t.1 grain) (wants_in self.now.units) }
    {
        self.units
            .wants()
            .iter()
            .any(|want| want.0 == unit && want.1 == grain)
    }

    // The unit waits for the grain.
    pub(crate) fn want(&mut self, unit: UnitNo, grain: GrainId) -> Result<CoreReply, AllocError>
        ensures ok { IfOk result (λ reply. Does self.old (Want unit grain) reply self.new) }
        ensures err { OnErr result (KeepsMeaning self.old self.new) }
        ensures opens { opens_with self.new.cells ≡ opens_with self.old.cells }
    {
        self.units.reserve_want()?;
        self.units.want(unit, grain);
        Ok(CoreReply::Done)
    }
}
