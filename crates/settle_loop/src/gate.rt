use base_types::{GrainId, UnitNo};

/// A place of a run that a test can wait for.
#[derive(Clone, Copy, Debug, PartialEq, Eq)]
pub enum GatePlace {
    /// A unit has begun.
    Begun {
        unit: UnitNo,
    },
    /// A unit was granted a lock, and found the source's version.
    Granted {
        unit: UnitNo,
        grain: GrainId,
        source: UnitNo,
    },
    /// The block of a batch is made, and is sealed next.
    BeforeGateSync {
        batch: u64,
    },
}

/// What a run reaches on its way. It has no meaning and changes nothing.
pub trait Gate {
    /// The run is at this place.
    fn reach(&self, place: GatePlace);
}
