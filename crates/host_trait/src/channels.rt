use base_types::GrainId;
use thiserror::Error;

/// A file of a silo's folder. `slot` is 0 or 1, and names the generation that the file belongs to.
#[derive(Clone, Copy, Debug, PartialEq, Eq, PartialOrd, Ord)]
pub enum FileId {
    /// The text of the program.
    Program { slot: u8 },
    /// The log of committed transactions.
    Manager { slot: u8 },
    /// The versions of one grain.
    Grain { slot: u8, grain: GrainId },
}

/// What a host call is made on. Each channel has a count of faults of its own.
#[derive(Clone, Copy, Debug, PartialEq, Eq, PartialOrd, Ord)]
pub enum Channel {
    Input,
    Output,
    File(FileId),
}

/// A host call failed. The count of its channel has risen.
#[derive(Clone, Copy, Debug, PartialEq, Eq, Error)]
#[error("a host call failed")]
pub struct Failed;
