//! Small parts of the core that know nothing of its state: the lists that it keeps beside its units and cells, tests whether two values
//! are one, and the history of its events.
//!
//! The entries of the settled lines, of which those that were written take no bytes, how many lines ended in which way, the decisions that
//! grains have still to learn, each grain's last committed state, kept or known to contracts alone, and the states that finished units
//! will hand to the grains: contracts see lists, and functions of units and grains. `Same` tests whether two values, states, calls,
//! outcomes or reads are one, as the core's model defines it for each: the core compares what a unit says that it did
//! with what it did. `History` is for contracts alone: it takes no bytes, and no call reads it; what each event was answered follows
//! from those before it.
#![tactic(auto)]

mod calls;
mod emitted_entries;
mod entry_list;
mod handed_states;
mod history;
mod kept_states;
mod known_states;
mod last_states;
mod learn_queue;
mod line_ends;
mod lists;
mod values;

pub use entry_list::EntryList;
pub use handed_states::HandedStates;
pub use history::History;
pub use last_states::LastStates;
pub use learn_queue::LearnQueue;
pub use line_ends::LineEnds;
pub use lists::{Same, same_items};
