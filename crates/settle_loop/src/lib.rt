//! The settler: it has the versions of a batch written and votes, has the batch decided and sealed, has grains learn, writes
//! replies, and takes batches.
//!
//! A [`Settler`] goes on by one event a `step`: it looks at the core once, makes the host calls that belong to the first case
//! that applies there, and puts the event that says how they ended. It speaks of the core through `Access` alone, and it alone
//! touches the host. What it knows of the disk it knows by its own calls; what it knows of the core's batches it knows if nobody
//! else makes a settler's events, and nothing that keeps its calls safe rests on that.
#![tactic(auto)]

mod cases;
mod gate;
mod laws;
mod looks;
mod settler;

pub use gate::{Gate, GatePlace};
pub use laws::{a_step_alone_applies, steps_are_journaled};
pub use settler::{Settler, StopCause, Turned};
