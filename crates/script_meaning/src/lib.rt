//! What a call of the grain language means.
//!
//! `specs/` defines the run of a unit as a tree of what it asks for, and reads that tree in two ways: `play`
//! over a store and the outcomes of its children, `next` over the locks and answers that a unit was given so
//! far; and the laws say how the two go together. `script_player` carries a play out, `script_machine` what is next.
//! The code here is what both need: a grain's first state, and which method a name or a number means.
#![tactic(auto)]

mod first_states;
mod laws;
mod targets;
mod worked_examples;

pub use first_states::initial;
pub use laws::{
    equal_stores_play_alike, faults_are_known, loops_go_on, next_is_missing, next_is_of_types,
    next_is_play, plain_runs_lock_nothing, play_is_again, play_is_next, play_rests_on_reads,
    plays_are_orderly, trails_grow, trails_read_once,
};
pub use targets::{Target, bind_arguments, method_number, target_at, target_named, type_number};
pub use worked_examples::{worked_nexts, worked_plays};
