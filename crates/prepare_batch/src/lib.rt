//! What a batch has written, grain by grain: one piece of work for each grain's file, with the grain's versions in
//! batch order, at the file's end.
//!
//! `plan` goes through the batch once, sorts what it finds by grains, and puts the versions of one grain together.
#![tactic(auto)]

mod laws;
mod pieces;
mod works;

pub use laws::work_is_the_plan;
pub use works::{FileWork, plan};
