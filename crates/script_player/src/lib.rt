//! A plain player of calls of the grain language: [`play`] carries out what `script_meaning` defines, over a store and the
//! outcomes of the units that the call asks for.
#![tactic(auto)]

mod flows;
mod frames;
mod player;
mod statements;
mod units;

pub use units::{Played, play};
