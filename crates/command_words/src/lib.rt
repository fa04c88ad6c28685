//! The command line of a silo: its words, cut by `clap` and tested here.
//!
//! `word_parts` has the words cut into options and numbers, `numbers` what a number and a list of numbers are, `options` the values
//! that options take, `words` what a command and its options are, and `command_reader` which command the words say.
#![tactic(auto)]

mod command_reader;
mod faults;
mod numbers;
mod options;
mod word_parts;
mod words;

pub use command_reader::read_words;
pub use faults::WordsFault;
pub use words::{CheckNumbers, LoadOptions, RunOptions, Words};
