//! The machine that runs a call of the grain language and pauses where it needs a grain or a unit of its own.
//!
//! Between two pauses it carries out statements over the working states that it holds. Contracts say what is
//! left of its run, in the words of `script_meaning`.
#![tactic(auto)]

mod blocks;
mod callees;
mod calls;
mod frames;
mod inputs;
mod locks;
mod machine;
mod open_blocks;
mod runs;
mod starts;
mod statements;
mod writes;

pub use machine::{Input, Machine, Parts, Pause};
