ghost use Rattle.std.specs.Prelude.{◌≡◌, ◌&&◌};
ghost use Rattle.cell_model.specs.Units.{same_unit, same_grain};
ghost use Rattle.core_model.specs.Changes.{without_want, without_wants};

use base_types::{GrainId, UnitNo};

// Keeps the waits of the other units.
pub(crate) fn drop_wants(wants: &mut Vec<(UnitNo, GrainId)>, unit: UnitNo)
    ensures { wants.new.items ≡ without_wants unit wants.old.items }
{
    wants.retain(|want| want.0 != unit);
}

// Keeps the waits but the unit's for the grain.
pub(crate) fn drop_want(wants: &mut Vec<(UnitNo, GrainId)>, unit: UnitNo, grain: GrainId)
    ensures { wants.new.items ≡ without_want unit grain wants.old.items }
{
    wants.retain(|want| !is_wait(want, unit, grain));
}

// Whether the wait is the unit's for the grain.
fn is_wait(want: &(UnitNo, GrainId), unit: UnitNo, grain: GrainId) -> bool
    ensures { result ≡ (same_unit want.now.0 unit && same_grain want.now.1 grain) }
{
    want.0 == unit && want.1 == grain
}
