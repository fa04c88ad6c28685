/// Where a unit is in its life.
#[derive(Clone, Copy, Debug, PartialEq, Eq)]
pub enum Phase {
    Unborn,
    Running,
    /// A transaction that ran to its end.
    Finished,
    /// A transaction or plain run that was refused a lock.
    Refused,
    /// A plain run that ran to its end.
    Ended,
}

/// What is decided of a unit.
#[derive(Clone, Copy, Debug, PartialEq, Eq)]
pub enum Verdict {
    Open,
    /// To commit, in a decided open batch or in doubt.
    Chosen,
    /// To abort, in a decided open batch.
    Condemned,
    Committed,
    Aborted,
}
