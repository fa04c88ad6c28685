//! A host in memory, for tests: it tells all that it holds, fails where it is told to, and shows what a crash at any of
//! its calls may leave.
//!
//! A [`MemoryHost`] is data that replays. It keeps each event that changed its output or a file, stamped with the number
//! of the call, so that the files at any earlier call can be made again.
#![tactic(auto)]

mod crash;
mod events;
mod files;
mod host;
mod plan;

pub use host::MemoryHost;
pub use plan::CallKind;
