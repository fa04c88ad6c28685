use base_types::{Call, GrainId, List, Origin, Outcome, State, UnitNo};

/// What a unit found when it first locked a grain: the grain's state, and the unit that had written it.
#[derive(Drop)]
pub struct Read {
    pub grain: GrainId,
    pub state: State,
    pub source: UnitNo,
}

/// What a unit did: its call, the outcomes of the units of its own that it asked for, what it read, in order
/// of first lock, what it wrote, in grain order, and how it ended.
#[derive(Drop)]
pub struct Effect {
    pub unit: UnitNo,
    pub origin: Origin,
    pub call: Call,
    pub answers: List<Outcome>,
    pub reads: List<Read>,
    pub writes: List<(GrainId, State)>,
    pub result: Outcome,
}
