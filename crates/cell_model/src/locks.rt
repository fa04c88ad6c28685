use base_types::{Mode, UnitNo};

/// A lock that a unit holds.
#[derive(Clone, Copy, Debug, PartialEq, Eq)]
pub struct Hold {
    pub unit: UnitNo,
    pub mode: Mode,
}

/// What the lock table answers to a unit that asks for a lock.
#[derive(Clone, Copy, Debug, PartialEq, Eq)]
pub enum Ask {
    /// Nobody conflicts, and the unit doesn't have it yet.
    Free,
    /// The unit holds that mode, or holds the grain alone.
    Held,
    /// All who conflict are younger. The oldest of them is named.
    MustWait { holder: UnitNo },
    /// One who conflicts is older. The oldest is named.
    MustDie { holder: UnitNo },
}

/// What a holder found on top of the stack when it first locked the grain: the unit `source` had written it.
#[derive(Clone, Copy, Debug, PartialEq, Eq)]
pub struct Reading {
    pub unit: UnitNo,
    pub source: UnitNo,
}
