//! What the core's run gives the settler: which facts hold of what it is shown for its next step.
//!
//! There is no code here but laws. A vote is on a grain that has none yet, and its versions fit the grain's type; what a
//! vote wrote stays what the unit wrote; units to commit can be logged, and are committed where their batch is sealed; an entry
//! can be written as a line, and tells of no unit that is committed only later.
#![tactic(auto)]

mod committed_units;
mod entries;
mod logged_units;
mod votes;

pub use committed_units::{
    doubts_keep_the_chosen, sealed_batches_commit, told_units_are_committed_by_then,
};
pub use entries::shown_entries_are_proper;
pub use logged_units::{plays_write_once, shown_versions_fit, units_to_commit_can_be_logged};
pub use votes::{next_vote_is_new, shown_effects_stay, voted_versions_stay};
