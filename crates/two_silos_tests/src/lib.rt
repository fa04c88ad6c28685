//! Tests of two-phase commit between silos: each call of the nodes, the worked lists of events, attacks, and random lists of
//! events against a plain second implementation. There is no code here but tests.
#![tactic(auto)]

#[cfg(test)]
mod events;
#[cfg(test)]
mod nodes;
#[cfg(test)]
mod openings;
#[cfg(test)]
mod plain_model;
#[cfg(test)]
mod random_runs;
