//! The laws of the core's model: what holds after every list of events that it takes. `docs/CORE.md` tells the proof in plain
//! words.
//!
//! There is no code here: a law is a public function with an empty body, and its contract is what it is for.
#![tactic(auto)]

mod laws;

pub use laws::{
    asking_is_told, batches_are_longest, batches_follow, causes_are_true, children_answer,
    code_may_rely, committed_are_serial, core_is_consistent, entries_are_proper, fate_is_final,
    holders_have_read, lines_are_answered_once, lists_only_grow, memory_is_bounded, plans_are_kept,
    replies_tell, runs_are_computed, runs_without_limit_are_legal, settled_stacks_are_single,
    settler_steps_apply, takes_apply, told_outcomes_are_final,
};
