//! The lines of a run, read one at a time as they begin.
//!
//! [`Lines`] gives the line of a place. [`InputLines`] cuts and reads it of an input, [`ListLines`] copies it of a list. Both are
//! plain references and numbers, so that each thread may have a copy of its own, and read on there from where it is.
#![tactic(auto)]

mod input;
mod lines;
mod list;

pub use input::InputLines;
pub use lines::Lines;
pub use list::ListLines;
