use base_types::{GrainId, List, UnitNo};

/// A unit of a batch, as it is decided: the lowest grain that it wrote whose file failed, and the sources
/// of its reads that were undecided then.
#[derive(Drop)]
pub struct Prepared {
    pub unit: UnitNo,
    pub failed: Option<GrainId>,
    pub deps: List<UnitNo>,
}

/// What becomes of a unit of a batch.
#[derive(Clone, Copy, Debug, PartialEq, Eq)]
pub enum Decision {
    Commit,
    /// The file of the grain, which the unit wrote, failed.
    Vote { grain: GrainId },
    /// The unit read what the unit `on` wrote, which is aborted or can't commit.
    Dependency { on: UnitNo },
}
