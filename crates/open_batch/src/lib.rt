//! The batch that was taken: the plan of its work, its votes and its decisions. Its units are the front of the
//! caller's queue of finished units, and are handed in at each call that needs them.
#![tactic(auto)]

mod batch;
mod decisions;
mod members;
mod outcomes;
mod plan;
mod unit_parts;

pub use batch::OpenBatch;
pub use members::FinishedUnit;
