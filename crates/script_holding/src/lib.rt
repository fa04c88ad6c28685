//! What a unit has while it runs: the steps that are left, the units that it asked for, and the grains that it
//! holds, with its working states of them.
//!
//! Contracts see a [`Holding`] as the record of `specs/Holding.antt`.
#![tactic(auto)]

mod held_grain;
mod holding;
mod limits;

pub use held_grain::Held;
pub use holding::Holding;
pub use limits::{DEPTH_LIMIT, GRAIN_LIMIT, STEP_LIMIT, UNIT_LIMIT};
pub use script_check::initial_state;
