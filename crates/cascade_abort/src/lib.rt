//! The decisions of a batch: which of its units commit, and why the others can't. A unit that read what an
//! aborted unit wrote, or one that can't commit, can't commit either.
#![tactic(auto)]

mod batch;

pub use batch::decide_batch;
pub use cell_model::{Decision, Prepared};
