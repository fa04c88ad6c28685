use std::alloc::AllocError;
use thiserror::Error;

/// Why no room was made for the next unit.
#[derive(Clone, Copy, Debug, PartialEq, Eq, Error)]
pub enum BeginFault {
    /// The next unit's number would be 2 to the 63 or more.
    #[error("no unit number is left")]
    NoNumber,
    /// Memory ran out.
    #[error("no memory")]
    Memory,
}

impl From<AllocError> for BeginFault {
    ghost use Rattle.std.specs.Prelude.{◌≡◌};
    ghost use Rattle.unit_table.specs.declared.faults.BeginFault.{BeginFault};

    ghost from_gives = { λ _ fault. fault ≡ BeginFault.Memory };

    fn from(_: AllocError) -> Self {
        BeginFault::Memory
    }
}
