//! That the trait `Access` can be kept by a core whose state grows, and what one that is generic over it says of its calls.
//!
//! `line_core` is the core of a run whose lines are all bad: it has two counts and a mark, and keeps the trait's contract
//! over the model's state. `callers` asks and puts through any access.
#![tactic(auto)]

mod callers;
mod line_core;
#[cfg(test)]
mod tests;

pub use callers::{spoil_next, write_one};
pub use line_core::LineCore;
