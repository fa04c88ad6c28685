//! The versions of one grain's state: the committed one at the bottom, and those of undecided units above
//! it. Contracts see the list of the versions, newest first, and how many more fit without memory.
#![tactic(auto)]

mod stack;

pub use stack::Stack;
