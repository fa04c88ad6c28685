ghost use Rattle.std.specs.Prelude.{◌≡◌, if◌then◌else◌, true, false, map};
ghost use Rattle.std.specs.Option.{option_copied, option_map};
ghost use Rattle.base_types.specs.Places.{placed_in, has_seat, KeepsSeats};
ghost use Rattle.base_types.specs.declared.calls.GrainId.{GrainId as AGrain};
ghost use Rattle.cell_model.specs.Units.{nobody};
ghost use Rattle.batch_disk.specs.Writers.{voted_by};
ghost use Rattle.batch_disk.specs.Records.{is_version};
ghost use Rattle.batch_disk.specs.MovedPlaces.{version_among, moved_by_write};

use crate::kept_version::KeptVersion;
use base_types::{GrainId, Placed, Places, UnitNo};

// Whether this is the unit's version of the grain.
fn is_version(kept: &KeptVersion, unit: UnitNo, grain: GrainId) -> bool
    ensures { result ≡ is_version unit grain (voted_by kept.now) }
{
    kept.unit.0 == unit.0 && kept.grain.kind == grain.kind && kept.grain.key == grain.key
}

/// A unit's version of a grain, none where it isn't kept.
pub(crate) fn version_among(
    kept: &[KeptVersion],
    unit: UnitNo,
    grain: GrainId,
) -> Option<&KeptVersion>
    ensures { option_map voted_by (option_copied result) ≡ version_among unit grain (map voted_by kept.now) }
{
    for version in kept {
        if is_version(version, unit, grain) {
            return Some(version);
        }
    }
    None
}

/// A grain's last version is this unit's, where it is kept: it was written under the program of this number. Takes no memory.
pub(crate) fn move_place(
    places: &mut Places,
    kept: &[KeptVersion],
    program: u32,
    unit: UnitNo,
    grain: GrainId,
)
    requires { has_seat places.old grain ≡ true }
    ensures moved { (g : AGrain) → placed_in places.new g
        ≡ moved_by_write program (map voted_by kept.now) unit grain g (placed_in places.old g) }
    ensures seats { KeepsSeats places.old places.new }
{
    if let Some(version) = version_among(kept, unit, grain) {
        places.replace(
            grain,
            Placed {
                place: version.place,
                program,
                is_new: true,
                known: version.known.same(),
            },
        );
    }
}

/// Whose a version is that stands at a place: nobody's where the log that was opened names it, else this unit's, whose number stands
/// there.
pub(crate) fn owner_told(placed: &Placed, unit: UnitNo) -> UnitNo
    ensures { result ≡ (if placed.now.is_new then unit else nobody) }
{
    if placed.is_new {
        return unit;
    }
    UnitNo(0)
}
