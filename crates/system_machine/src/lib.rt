//! A system in memory for tests: a folder and two streams, whose calls are recorded, fail where that is wanted, and are forgotten at
//! a crash where they don't last.
//!
//! [`OnMachine`] makes the [system's calls](system_calls::SystemCalls) on a [`Machine`], which stays in the hands of the test.
#![tactic(auto)]

mod machine;

pub use machine::{Fault, HeldFile, Machine, OnMachine, OpenFolder, OpenedFile};
