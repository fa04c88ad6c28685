use host_trait::Failed;
use std::alloc::AllocError;
use thiserror::Error;

/// Why a block couldn't be read.
#[derive(Clone, Copy, Debug, PartialEq, Eq, Error)]
pub enum BlockFault {
    /// A call on the file failed, and its count has risen.
    #[error("the manager file couldn't be read")]
    Failed,
    /// The gate is open, and the length field at `place`, an offset in the file, isn't whole, or the body with the next gate
    /// doesn't fit in the file.
    #[error("the block at {place} isn't whole")]
    BadLength { place: u64 },
    /// Out of memory: no call on the file had failed. That an allocation failed, no contract can say.
    #[error("out of memory")]
    Memory,
}

impl From<Failed> for BlockFault {
    ghost use Rattle.std.specs.Prelude.{◌≡◌};
    ghost use Rattle.gate_block.specs.declared.faults.BlockFault.{BlockFault};

    ghost from_gives = { λ _ fault. fault ≡ BlockFault.Failed };

    fn from(_: Failed) -> Self {
        BlockFault::Failed
    }
}

impl From<AllocError> for BlockFault {
    ghost use Rattle.std.specs.Prelude.{◌≡◌};
    ghost use Rattle.gate_block.specs.declared.faults.BlockFault.{BlockFault};

    ghost from_gives = { λ _ fault. fault ≡ BlockFault.Memory };

    fn from(_: AllocError) -> Self {
        BlockFault::Memory
    }
}
