//! The system's calls in memory, all told.
//!
//! A [`MemorySystem`] keeps the whole of what [`SystemCalls`](system_calls::SystemCalls) says, so that can be kept: one call may move
//! a part of its bytes, be interrupted or be refused, and what is written lasts where the file and the folder's entry were synced.
#![tactic(auto)]

mod events;
mod replay;
mod system;

pub use system::{Fault, MemoryFile, MemoryFolder, MemoryLocked, MemorySystem};
