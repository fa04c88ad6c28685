use host_trait::FileId;
use std::alloc::{AllocError, AllocFailed};
use thiserror::Error;

/// Why a log, or the versions that it names, couldn't be read.
#[derive(Debug, Clone, Copy, PartialEq, Eq, Error)]
pub enum FolderFault {
    /// The file is damaged, at this offset first.
    #[error("{file:?} is damaged at {place}")]
    Damaged { file: FileId, place: u64 },
    /// A call on this file failed, and its count has risen.
    #[error("a call on {file:?} failed")]
    Failed { file: FileId },
    /// There was no memory.
    #[error("no memory")]
    Memory,
}

impl From<AllocError> for FolderFault {
    ghost use Rattle.std.specs.Prelude.{◌≡◌};
    ghost use Rattle.log_reading.specs.declared.faults.FolderFault.{FolderFault};

    ghost from_gives = { λ _ fault. fault ≡ FolderFault.Memory };

    fn from(_: AllocError) -> Self {
        FolderFault::Memory
    }
}

impl<T: Drop> From<AllocFailed<T>> for FolderFault {
    ghost use Rattle.std.specs.Prelude.{◌≡◌};
    ghost use Rattle.log_reading.specs.declared.faults.FolderFault.{FolderFault};

    ghost from_gives = { λ _ fault. fault ≡ FolderFault.Memory };

    fn from(_: AllocFailed<T>) -> Self {
        FolderFault::Memory
    }
}
