//! Tests of how an input is cut into windows, over the host in memory. There is no code here but tests.
#![tactic(auto)]

#[cfg(test)]
mod cuts;
