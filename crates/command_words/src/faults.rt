//! Why words were not read.
use std::alloc::AllocError;
use thiserror::Error;

/// Why words were not read.
#[derive(Debug, Clone, Copy, PartialEq, Eq, Error)]
pub enum WordsFault {
    /// The words say no command.
    #[error("bad use")]
    BadUse,
    /// There was no memory.
    #[error("no memory")]
    Memory,
}

impl From<AllocError> for WordsFault {
    ghost use Rattle.std.specs.Prelude.{◌≡◌};
    ghost use Rattle.command_words.specs.declared.faults.WordsFault.{WordsFault};

    ghost from_gives = { λ _ fault. fault ≡ WordsFault.Memory };

    fn from(_: AllocError) -> Self {
        WordsFault::Memory
    }
}
