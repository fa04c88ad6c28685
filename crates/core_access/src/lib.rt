//! How a unit's agent and the settler reach the core, which they may share with others: the trait `Access`.
//!
//! What is known through an access is a `Sight`: the run from which it goes on, all entries that were seen since, and
//! one's own among them. One form serves the thread that has a core alone, and workers that share one in a turn cell: they
//! differ in which events others may put in between. The laws beside the trait say how calls follow one another.
#![tactic(auto)]

mod access;
mod laws;

pub use access::Access;
pub use laws::{
    a_core_alone_is_seen_whole, a_pass_sees_as_an_access, calls_follow_one_another,
    nothing_comes_to_one_alone, others_leave_the_batches, own_entries_are_counted,
    what_was_seen_only_grows, who_is_alone_was_alone,
};
