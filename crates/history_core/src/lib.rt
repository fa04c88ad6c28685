//! The core in code: each of its steps is a step of the model, on what is kept of the model's state.
//!
//! `Parts` is what is kept, and `PartsStand` says for which states it stands. Each event has a file of its own: whether it
//! applies, and what it does. `Core` has the history of its events, for contracts alone; it answers questions, is an object
//! that a turn cell can share, and an access for one who has it alone.
#![tactic(auto)]

mod answers;
mod bad_lines;
mod batch_closing;
mod begin;
mod decide;
mod dispatch;
mod effects;
mod emitted_entries;
mod end_plain;
mod end_snapshot;
mod evictions;
mod finish;
mod grant;
mod halt;
mod laws;
mod learn;
mod load;
mod lock_answers;
mod looks;
mod opening;
mod parts;
mod questions;
mod refuse;
mod release;
mod room;
mod seal;
mod settler;
mod shared_core;
mod steps;
mod stops;
mod take;
mod vote;
mod want;
mod whole_core;

pub use laws::last_states_are_the_last_writers;
pub use opening::Opening;
pub use whole_core::Core;
