use host_trait::Failed;
use std::alloc::AllocError;
use thiserror::Error;

/// Why versions weren't written.
#[derive(Clone, Copy, Debug, PartialEq, Eq, Error)]
pub enum LogFault {
    /// A call on the file failed, and its count has risen. The bytes of the versions' range may be any; all others are as
    /// before.
    #[error("the grain's file couldn't be written")]
    Failed,
    /// There was no memory. Nothing was written.
    #[error("out of memory")]
    Memory,
}

impl From<Failed> for LogFault {
    ghost use Rattle.std.specs.Prelude.{◌≡◌};
    ghost use Rattle.grain_log.specs.declared.faults.LogFault.{LogFault};

    ghost from_gives = { λ _ fault. fault ≡ LogFault.Failed };

    fn from(_: Failed) -> Self {
        LogFault::Failed
    }
}

impl From<AllocError> for LogFault {
    ghost use Rattle.std.specs.Prelude.{◌≡◌};
    ghost use Rattle.grain_log.specs.declared.faults.LogFault.{LogFault};

    ghost from_gives = { λ _ fault. fault ≡ LogFault.Memory };

    fn from(_: AllocError) -> Self {
        LogFault::Memory
    }
}

/// Why a version wasn't read.
#[derive(Clone, Copy, Debug, PartialEq, Eq, Error)]
pub enum VersionFault {
    /// A call on the file failed, and its count has risen.
    #[error("the grain's file couldn't be read")]
    Failed,
    /// The bytes at the place aren't one version of that length with the type's fields. `place` is an offset in the file: the
    /// first field that can't be read, or the first byte behind the version, or the version's offset where the place is longer
    /// than any version, doesn't lie in the file or begins at 2 to the 63 or beyond, or where the program has no such type.
    #[error("the version at {place} is damaged")]
    Damaged { place: u64 },
    /// There was no memory.
    #[error("out of memory")]
    Memory,
}

impl From<Failed> for VersionFault {
    ghost use Rattle.std.specs.Prelude.{◌≡◌};
    ghost use Rattle.grain_log.specs.declared.faults.VersionFault.{VersionFault};

    ghost from_gives = { λ _ fault. fault ≡ VersionFault.Failed };

    fn from(_: Failed) -> Self {
        VersionFault::Failed
    }
}

impl From<AllocError> for VersionFault {
    ghost use Rattle.std.specs.Prelude.{◌≡◌};
    ghost use Rattle.grain_log.specs.declared.faults.VersionFault.{VersionFault};

    ghost from_gives = { λ _ fault. fault ≡ VersionFault.Memory };

    fn from(_: AllocError) -> Self {
        VersionFault::Memory
    }
}
