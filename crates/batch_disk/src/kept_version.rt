ghost use Rattle.std.specs.Prelude.{◌≡◌};
ghost use Rattle.std.proofs.Props.{props};

use base_types::{GrainId, KnownVersion, Place, UnitNo, Version};

/// A version that a vote wrote: of which grain and unit, and where. Contracts see its state too, for which it has no bytes.
#[derive(Drop)]
pub(crate) struct KeptVersion {
    pub(crate) grain: GrainId,
    pub(crate) unit: UnitNo,
    pub(crate) place: Place,
    pub(crate) known: KnownVersion,
    ghost own: { known.version.unit.0 ≡ unit.0 } by { Prim.hlevel props },
}

impl KeptVersion {
    /// This version of a grain, at this place. Takes no memory.
    pub(crate) fn of(grain: GrainId, version: &Version, place: Place) -> KeptVersion
        ensures grain { result.grain ≡ grain }
        ensures unit { result.unit ≡ version.now.unit }
        ensures place { result.place ≡ place }
        ensures known { result.known.version ≡ version.now }
    {
        KeptVersion {
            grain,
            unit: version.unit,
            place,
            known: KnownVersion::of(version),
        }
    }
}
