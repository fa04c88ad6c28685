//! Reading tokens: names, expressions, and calls.
//!
//! A `Cursor` stands before a token. Each of its methods reads one part of the grammar and leaves the cursor behind
//! it, or answers the first fault that it meets; then the cursor isn't used again.
#![tactic(auto)]

mod calls;
mod cursor;
mod expressions;
mod operators;

pub use cursor::Cursor;
