// Which grains somebody waits for.
ghost use Rattle.std.specs.Prelude.{◌≡◌};
ghost use Rattle.core_model.specs.Tests.{any, is_wanted};
ghost use Rattle.cell_table.specs.Table.{is_other_wait};

use base_types::{GrainId, UnitNo};

/// Whether somebody waits for the grain.
pub fn is_wanted(wants: &[(UnitNo, GrainId)], grain: GrainId) -> bool
    ensures { result ≡ is_wanted wants.now grain }
{
    wants.iter().any(|want| want.1 == grain)
}

/// Whether somebody but this unit waits for the grain.
pub fn is_wanted_by_others(wants: &[(UnitNo, GrainId)], unit: UnitNo, grain: GrainId) -> bool
    ensures { result ≡ any (is_other_wait unit grain) wants.now }
{
    wants.iter().any(|want| want.0 != unit && want.1 == grain)
}
