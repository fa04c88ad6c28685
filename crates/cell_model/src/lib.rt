//! The words of one grain's cell, over plain lists: its stack of versions, its locks, the sources that a
//! unit depends on, and the decisions of a batch. The crates that keep these things say in these words
//! what each call does, and the core's model is built from them.
//!
//! There is no code here but types and laws: each public function has an empty body, and its contract is
//! what it is for.
#![tactic(auto)]

mod laws;
mod locks;
mod outcomes;

pub use laws::{
    asking_is_exact, decisions_are_exact, learning_twice_is_once, locks_follow, sources_are_a_set,
    stacks_follow,
};
pub use locks::{Ask, Hold, Reading};
pub use outcomes::{Decision, Prepared};
