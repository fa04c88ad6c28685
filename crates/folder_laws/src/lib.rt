//! That a whole folder stays whole, whatever command is called: a law over the promises of all commands.
#![tactic(auto)]

mod laws;

pub use laws::folders_stay_whole;
