use host_trait::FileId;
use thiserror::Error;

/// Why no silo was made.
#[derive(Debug, Clone, Copy, PartialEq, Eq, Error)]
pub enum CreateFault {
    /// The folder is a silo. Nothing was written.
    #[error("the folder is a silo")]
    AlreadyASilo,
    /// A call on this file failed. A crash may leave a silo: a new one, or one that a crash could have left before the
    /// call.
    #[error("a call on {file:?} failed")]
    DiskFault { file: FileId },
}

/// Why a silo wasn't opened.
#[derive(Debug, Clone, Copy, PartialEq, Eq, Error)]
pub enum OpenFault {
    /// Neither slot's manager file is a silo's: each is shorter than 16 bytes, or its first byte isn't 1, or the next eight are no
    /// magic.
    #[error("the folder is no silo")]
    NotASilo,
    /// The live slot has format 1, which `migrate` alone reads.
    #[error("the silo has the old format")]
    OldFormat,
    /// The file is damaged at this offset.
    #[error("{file:?} is damaged at {place}")]
    Damaged { file: FileId, place: u64 },
    /// A call on this file failed.
    #[error("a call on {file:?} failed")]
    DiskFault { file: FileId },
    /// The live slot has the greatest generation that there is, and no other can follow. Opening a silo never answers it.
    #[error("the silo has its last generation")]
    LastGeneration,
    /// There was no memory.
    #[error("no memory")]
    Memory,
}
