use crate::effects::Effect;
use base_types::{BadRequest, Call, GrainId, Mode, Origin, Outcome, State, UnitNo};
use cell_model::Ask;

/// An event of the core. One that doesn't apply changes nothing.
#[derive(Drop)]
pub enum CoreEvent {
    /// The next line is no request.
    Bad {
        line: u32,
        why: BadRequest,
    },
    /// A unit begins, for the next line or for a running parent.
    Begin {
        origin: Origin,
        call: Call,
        plain: bool,
    },
    /// A unit locks a grain, or raises its lock.
    Grant {
        unit: UnitNo,
        grain: GrainId,
        mode: Mode,
    },
    /// A unit that asks for a lock is aborted.
    Refuse {
        unit: UnitNo,
        grain: GrainId,
        mode: Mode,
    },
    /// A transaction has run to its end.
    Finish {
        unit: UnitNo,
        effect: Effect,
    },
    /// A plain run has come to its end.
    EndPlain {
        unit: UnitNo,
        effect: Effect,
    },
    /// A plain run that read a snapshot has come to its end; `at` counts the records that it saw.
    EndSnapshot {
        unit: UnitNo,
        at: u64,
        outcome: Outcome,
    },
    /// A unit that has ended gives a lock back, and its new version with it.
    Release {
        unit: UnitNo,
        grain: GrainId,
    },
    /// A batch is taken.
    Take,
    /// Whether the versions of the batch are on disk in the grain's file.
    Vote {
        batch: u64,
        grain: GrainId,
        yes: bool,
    },
    /// The batch is decided.
    Decide {
        batch: u64,
    },
    /// The batch is on disk.
    Sealed {
        batch: u64,
    },
    /// The batch isn't on disk and never will be.
    NotSealed {
        batch: u64,
    },
    /// Nobody knows whether the batch is on disk.
    Doubt {
        batch: u64,
    },
    /// The cell of a grain that the unit wrote learns the unit's decision.
    Learn {
        unit: UnitNo,
        grain: GrainId,
    },
    /// A settled entry is written.
    Emitted,
    /// The run is to stop.
    Halt,
    /// A running unit wants a grain to be brought into memory.
    Want {
        unit: UnitNo,
        grain: GrainId,
    },
    /// A wanted grain comes into memory, with its last committed version.
    Load {
        grain: GrainId,
        unit: UnitNo,
        state: State,
    },
}

/// The reply to an event.
#[derive(Drop)]
pub enum CoreReply {
    /// The event doesn't apply.
    Unapplied,
    Done,
    Began { unit: UnitNo },
    Granted { state: State, source: UnitNo },
    /// The lock can't be had now, or is held.
    NotGranted(Ask),
    /// A version that the unit read is gone.
    Doomed { source: UnitNo },
    /// The unit isn't running, or the grain's type isn't known.
    NotActive,
    /// The grain isn't in memory.
    NotLoaded,
    Taken { batch: u64 },
    Decided { commits: u32 },
}
