ghost use Rattle.std.specs.Prelude.{◌≡◌, ℕ, List, Result, Err};
ghost use Rattle.script_values.specs.Reasons.{reason_text};
ghost use Rattle.script_values.specs.Stops.{StopsWith};
ghost use Rattle.script_values.specs.Values.{ValueOrFault};
ghost use Rattle.script_values.specs.declared.stops.Stop.TheVariants.{Memory};

use crate::reasons::{Reason, fault_of};
use base_types::Text;
use std::alloc::{AllocError, AllocFailed, Global};

/// Why there is no value: the fault that ends the unit, or want of memory, which may come in place of any answer.
#[derive(Drop)]
pub enum Stop {
    Fault(Text),
    Memory,
}

impl From<AllocError> for Stop {
    ghost from_gives = { λ _ stop. stop ≡ Memory };

    fn from(_error: AllocError) -> Stop {
        Stop::Memory
    }
}

impl<T: Drop> From<AllocFailed<T>> for Stop {
    ghost from_gives = { λ _ stop. stop ≡ Memory };

    fn from(_error: AllocFailed<T>) -> Stop {
        Stop::Memory
    }
}

/// The stop of this fault.
pub fn stop_at(alloc: Global, reason: Reason) -> Stop
    ensures { (given : ValueOrFault) → given ≡ Err (reason_text reason) → StopsWith result given }
{
    match fault_of(alloc, reason) {
        Ok(text) => Stop::Fault(text),
        Err(_) => Stop::Memory,
    }
}
