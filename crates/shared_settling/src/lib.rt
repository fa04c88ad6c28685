//! The settler of a run whose units are carried by other threads.
//!
//! [`settle_beside`] goes on over any access to the core, while others put events, until they have ended their work and there is
//! nothing to settle. [`settle_rest`] settles what is left over a core that nobody else has any more. What the settler keeps of
//! the run's books it keeps if others put events of lines and units alone, which is known once the history is whole.
#![tactic(auto)]

mod final_loop;
mod laws;
mod shared_loop;
mod steps;

pub use final_loop::settle_rest;
pub use laws::who_rests_has_carried_all;
pub use shared_loop::settle_beside;
