//! Logs with upgrades among their entries: what they stand for, and what is kept of each grain for that.
//!
//! There are laws alone.
#![tactic(auto)]

mod laws;

pub use laws::{states_are_kept, states_have_their_fields, upgrades_are_serial};
