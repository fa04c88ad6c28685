ghost use Rattle.std.specs.Prelude.{◌≡◌};

use base_types::BadRequest;
use std::alloc::AllocError;
use thiserror::Error;

/// Why a line gave no call.
#[derive(Debug, Drop, Error)]
pub enum RequestFault {
    /// The line is no request that is carried.
    #[error("the line is no request that is carried")]
    Bad(BadRequest),
    /// Memory ran out. The line may be a request or not.
    #[error("no memory")]
    Memory,
}

impl From<AllocError> for RequestFault {
    ghost use Rattle.request_wire.specs.declared.faults.RequestFault.TheVariants.{Memory};

    ghost from_gives = { λ _ fault. fault ≡ Memory };

    fn from(_: AllocError) -> RequestFault {
        RequestFault::Memory
    }
}
