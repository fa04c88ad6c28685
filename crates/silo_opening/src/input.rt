ghost use Rattle.std.specs.Prelude.{◌≡◌, ◌≤◌, ◌<◌, [], length, IsTrue, IfOk, OnOk, IfErr, vec_len};
ghost use Rattle.host_trait.specs.Faults.{HasCalled};
ghost use Rattle.host_trait.specs.World.{Passes, moment_of};
ghost use Rattle.silo_opening.specs.Counts.{InputFaulted};

use base_types::PROGRAM_LIMIT;
use host_trait::{Failed, Host};
use std::alloc::{AllocError, Global};
use thiserror::Error;

// The most bytes that are pulled at once.
const PIECE: usize = 4096;

/// Why a program's text wasn't read.
#[derive(Debug, Drop, Error)]
pub enum InputFault {
    /// There was no memory.
    #[error("no memory for the input")]
    Memory,
    /// A call on the input failed, and its count has risen.
    #[error("the input couldn't be read")]
    Failed,
    /// More than [`PROGRAM_LIMIT`] bytes stand before the input's end.
    #[error("the input is too long")]
    TooLong,
}

impl From<Failed> for InputFault {
    ghost use Rattle.std.specs.Prelude.{◌≡◌};
    ghost use Rattle.silo_opening.specs.declared.input.InputFault.TheVariants.{Failed};

    ghost from_gives = { λ _ e. e ≡ Failed };

    fn from(_: Failed) -> InputFault {
        InputFault::Failed
    }
}

impl From<AllocError> for InputFault {
    ghost use Rattle.std.specs.Prelude.{◌≡◌};
    ghost use Rattle.silo_opening.specs.declared.input.InputFault.TheVariants.{Memory};

    ghost from_gives = { λ _ e. e ≡ Memory };

    fn from(_: AllocError) -> InputFault {
        InputFault::Memory
    }
}

/// Reads the input to its end. No file is touched.
///
/// # Errors
///
/// `TooLong` where more than [`PROGRAM_LIMIT`] bytes stand before the end, `Failed` where a call on the input failed, and `Memory`. What
/// was pulled by then is gone from the input.
pub fn read_input<H: Host>(alloc: Global, host: &mut H) -> Result<Vec<u8>, InputFault>
    ensures whole { IfOk result (λ bytes. IsTrue H.tells → (H.world host.old).input ≡ bytes.items) }
    ensures end { OnOk result (IsTrue H.tells → (H.world host.new).input ≡ []) }
    ensures within { IfOk result (λ bytes. vec_len bytes ≤ PROGRAM_LIMIT) }
    ensures too_long { IfErr result (λ e. e ≡ InputFault.TooLong
        → IsTrue H.tells → PROGRAM_LIMIT < length (H.world host.old).input) }
    ensures calls { HasCalled InputFaulted result H.is_ready H.faults host.old host.new }
    ensures output { IsTrue H.tells → (H.world host.new).output ≡ (H.world host.old).output }
    ensures disk { IsTrue H.tells → (H.world host.new).disk ≡ (H.world host.old).disk }
    ensures syncs { IsTrue H.tells → (H.world host.new).syncs ≡ (H.world host.old).syncs }
    ensures moments { IsTrue H.tells → Passes (λ m. m ≡ moment_of (H.world host.old))
        (H.world host.old).past (H.world host.new).past }
{
    let mut input = Vec::new(alloc);
    let mut piece = [0u8; PIECE];
    loop {
        let count = host.pull(&mut piece)?;
        if count == 0 {
            return Ok(input);
        }
        if count > PROGRAM_LIMIT - input.len() {
            return Err(InputFault::TooLong);
        }
        input.extend_from_slice(&piece[..count])?;
    }
}
