//! What the core model says of a state, read off the list of events that applied and their replies: who holds a
//! grain, what a unit read, the batches, who is dead or committed, which reads are gone from their grain's stack, and
//! why an entry was settled or a unit aborted.
//!
//! There is no code here but laws: each public function has an empty body, and its contract ties a history's word
//! to the core model's own.
#![tactic(auto)]

mod laws;

pub use laws::{
    batches_are_taken, causes_are_in_the_history, histories_are_computed, holders_are_granted,
    reads_are_granted, the_dead_are_dead, versions_are_taken_off,
};
