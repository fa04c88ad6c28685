//! What the test programs share: the text of a bank program, the numbers of a script's line, and how values are printed.
#![tactic(auto)]

mod bank;
mod numbers;
mod printer;

pub use bank::BANK;
pub use numbers::{Numbers, natural, short, three_numbers};
pub use printer::{add_grain, add_items, add_outcome, add_value, add_values};
