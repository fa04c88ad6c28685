//! Tests of the reports over a host in memory, with folders and texts worked out by hand. There is no code here but tests.
#![tactic(auto)]

#[cfg(test)]
mod folders;
#[cfg(test)]
mod rows;
#[cfg(test)]
mod upgrades;
