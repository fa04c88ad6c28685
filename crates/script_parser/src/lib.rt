//! From the text of a program to its tree.
//!
//! A function here reads one part of the grammar from a `Cursor` and leaves it behind that part, or answers the
//! first fault that it meets.
#![tactic(auto)]

mod methods;
mod programs;
mod statements;
mod types;

pub use programs::{NESTING_LIMIT, parse};
pub use script_lexer::ParseFault;
