//! Blocks behind gates. A gate is one byte of a manager file, and it is open exactly where that byte is 1. A block counts
//! from the moment on in which its gate is opened, and never before.
//!
//! [`append_closed`] puts a block behind a closed gate, [`open_gate`] opens it, [`read_block`] reads what is behind one.
#![tactic(auto)]

mod blocks;
mod faults;
mod laws;

pub use blocks::{append_closed, open_gate, read_block};
pub use faults::BlockFault;
pub use laws::written_blocks_are_logged;
