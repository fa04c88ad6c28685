//! What `load` generates and says: the bank program, the lines that are drawn from a seed, and the summary.
//!
//! `bank` has the program's text, `draws` the numbers that are drawn, `requests` the lines, and `summary` the one line that a load
//! prints. `laws` says what texts these lines are read from.
#![tactic(auto)]

mod bank;
mod draws;
mod laws;
mod requests;
mod summary;

pub use bank::bank_text;
pub use laws::{bank_programs_begin_empty, load_texts_read_as_their_calls};
pub use requests::load_lines;
pub use summary::{load_summary, total_balance};
