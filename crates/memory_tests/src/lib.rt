//! Tests of the host in memory: planned faults, stops, counts, and the images that a crash may leave. There is no code here but tests.
#![tactic(auto)]

#[cfg(test)]
mod calls;
