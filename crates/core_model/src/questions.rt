use crate::effects::Effect;
use base_types::{Entry, GrainId, List, Mode, Outcome, UnitNo, Version};
use cell_model::Decision;

/// A question to the core.
#[derive(Clone, Copy, Debug, PartialEq, Eq)]
pub enum CoreQuestion {
    Ask {
        unit: UnitNo,
        grain: GrainId,
        mode: Mode,
    },
    Outcome {
        unit: UnitNo,
    },
    Batch,
    NextLearn,
    CanTake,
    NextLine,
    NextSettled,
    Halted,
    NextWanted,
    /// What the settler does next, with all that it needs for it: one look is one state.
    NextStep,
    /// Whether the unit is decided, without its outcome, so that the answer takes no memory.
    IsDecided {
        unit: UnitNo,
    },
}

/// What the core answers to a unit that asks for a lock: the first of these that holds.
#[derive(Clone, Copy, Debug, PartialEq, Eq)]
pub enum AskAnswer {
    /// The unit isn't running, or the grain's type isn't known.
    NotActive,
    /// A version that the unit read was taken off its grain's stack. The oldest such source is named.
    Doomed { source: UnitNo },
    Held,
    MustDie { holder: UnitNo },
    MustWait { holder: UnitNo },
    /// The grain isn't in memory.
    Absent,
    Free,
}

/// A unit's outcome, where it is decided.
#[derive(Drop)]
pub enum KnownOutcome {
    Undecided,
    Decided(Outcome),
}

/// The open batch: its number, its effects in batch order, the sources of their reads that are aborted, the
/// votes so far, and once it is decided one decision for each effect.
#[derive(Drop)]
pub struct BatchView {
    pub batch: u64,
    pub effects: List<Effect>,
    pub aborted: List<UnitNo>,
    pub votes: List<(GrainId, bool)>,
    pub decisions: Option<List<Decision>>,
}

/// What the settler does next: the first of these that there is. After a doubt it is `Write` or `Nothing`. Its event
/// applies, but after a stop, of which who puts `Halt` knows: then only the end of a batch and a written entry do.
#[derive(Drop)]
pub enum SettlerWork {
    /// The open batch isn't decided, and this is the first grain of its plan without a vote: these versions, one for each
    /// unit that wrote the grain and can still commit, in batch order, go to the grain's file.
    Vote {
        batch: u64,
        grain: GrainId,
        versions: List<Version>,
    },
    /// Each grain of the open batch's plan has its vote.
    Decide {
        batch: u64,
    },
    /// The open batch is decided: these units are to commit, in batch order.
    Seal {
        batch: u64,
        effects: List<Effect>,
    },
    /// The grain learns the decision of a unit that wrote it.
    Learn {
        unit: UnitNo,
        grain: GrainId,
    },
    /// The first settled entry that isn't written.
    Write {
        entry: Entry,
    },
    /// The lowest grain that a unit wants and that isn't in memory.
    Load {
        grain: GrainId,
    },
    /// A batch can be taken.
    Take,
    Nothing,
}

/// The answer to a question.
#[derive(Drop)]
pub enum CoreAnswer {
    Ask(AskAnswer),
    Outcome(KnownOutcome),
    Batch(Option<BatchView>),
    NextLearn(Option<(UnitNo, GrainId)>),
    CanTake(bool),
    NextLine(u64),
    NextSettled(Option<Entry>),
    Halted(bool),
    NextWanted(Option<GrainId>),
    NextStep(SettlerWork),
    IsDecided(bool),
}
