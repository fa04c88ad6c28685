//! What of a batch goes to the disk: the versions of each grain, which is the vote on it, and then the records of the units to
//! commit, behind a gate.
//!
//! A [`BatchWriter`] knows where the log and the grains' files go on, which programs came into force, and where each grain's last
//! version stands, which it reads back and carries to the program in force, and keeps where the votes of the open batch wrote. Its contracts say what each image has at each moment of a vote and of a seal, and after them. It knows nothing of the core but
//! what a unit did.
#![tactic(auto)]

mod kept_version;
mod laws;
mod moved_places;
mod records;
mod writer;

pub use laws::{
    batches_go_on_the_journal, unsealed_batches_leave_the_journal, writers_know_the_log,
};
pub use records::SealWork;
pub use writer::BatchWriter;
