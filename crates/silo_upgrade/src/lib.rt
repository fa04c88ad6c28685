//! `upgrade`: the program that is the input comes into force in a silo, as the last entry of its log.
//!
//! `faults` says why an upgrade ended before it was done, `input` reads the program, `sealing` puts the block of an upgrade behind the
//! log, and `upgrading` opens the silo, compares both programs and puts these together.
#![tactic(auto)]

mod faults;
mod input;
mod sealing;
mod upgrading;

pub use faults::UpgradeEnd;
pub use upgrading::upgrade;
