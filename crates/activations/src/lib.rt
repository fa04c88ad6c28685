//! Which grains were used last, of which there are at most so many: what decides which of those that are idle stay in memory.
//! Contracts see the grains, the one used last first.
#![tactic(auto)]

mod recent;

pub use recent::Recent;
