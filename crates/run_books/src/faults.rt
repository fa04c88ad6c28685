ghost use Rattle.std.specs.Prelude.{◌≡◌};

use host_trait::FileId;
use std::alloc::AllocError;
use thiserror::Error;

/// Why a run ends before each line has its reply.
#[derive(Debug, Drop, Error)]
pub enum RunFault {
    /// A batch was left in doubt, and all that is settled is written.
    #[error("a batch is in doubt")]
    InDoubt,
    /// The output failed.
    #[error("the output failed")]
    WriteFault,
    /// A grain's file failed, where its last version was to be read.
    #[error("a grain's file failed")]
    LoadFault { file: FileId },
    /// No version stands where the log names a grain's last one. It doesn't come over a host that tells.
    #[error("a grain's file is damaged")]
    LoadDamaged { file: FileId, place: u64 },
    /// Memory ran out.
    #[error("no memory")]
    Memory,
}

impl From<AllocError> for RunFault {
    ghost use Rattle.run_books.specs.declared.faults.RunFault.TheVariants.{Memory};

    ghost from_gives = { λ _ fault. fault ≡ Memory };

    fn from(_: AllocError) -> RunFault {
        RunFault::Memory
    }
}
