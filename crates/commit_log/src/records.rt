use base_types::{Call, GrainId, List, Origin, Outcome, Place, UnitNo};

/// A grain that a unit wrote, and where its version stands in the grain's file.
#[derive(Clone, Copy, Debug, PartialEq, Eq)]
pub struct Written {
    pub grain: GrainId,
    pub place: Place,
}

/// What each piece of a checkpoint says, and all alike: how many records stand before the checkpoint, the number of the next unit, and
/// the greatest session before it, 0 where there is none. A checkpoint of format 1 counts as one of session 1.
#[derive(Clone, Copy, Debug, PartialEq, Eq)]
pub struct CheckpointHead {
    pub count: u64,
    pub next_unit: UnitNo,
    pub session: u64,
}

/// A piece of the checkpoint that a log may begin with, which a block of its own has: whether another piece follows, and the version
/// of each of its grains, in ascending grain order over all pieces. There are at most 65,536.
#[derive(Drop)]
pub struct CheckpointPiece {
    pub more: bool,
    pub head: CheckpointHead,
    pub writes: List<Written>,
}

/// A version that a record or a checkpoint names: whose it is, the number of the program that was in force where it was named, the grain
/// that it is of, and its place in the grain's file. A checkpoint names no unit: the version may be any unit's of a log. Programs have
/// numbers by the order in which they came into force, from 0, that of the program file.
#[derive(Clone, Copy, Debug, PartialEq, Eq)]
pub struct Named {
    pub unit: Option<UnitNo>,
    pub program: u32,
    pub written: Written,
}

/// A committed unit, as the log keeps it: its call, the answers to its nested calls, how it ended, which is no abort, and its
/// writes in ascending grain order. There are at most 64 answers and 64 writes.
#[derive(Drop)]
pub struct CommitRecord {
    pub unit: UnitNo,
    pub origin: Origin,
    pub call: Call,
    pub answers: List<Outcome>,
    pub result: Outcome,
    pub writes: List<Written>,
}
