//! The next generation of a silo, in the slot that isn't live: `compact` makes it of what the log stands for, and `migrate` of the log
//! itself, from a silo of format 1.
//!
//! `other_slot` closes and opens the header gate of that slot's manager file, and `manager_file` writes bytes of that file. Of `compact`,
//! `copies` copies each grain's last version into the slot's files, `pieces` writes the checkpoint that names them, and `compaction` opens
//! the silo and puts these together. Of `migrate`, `copied_program` and `copied_files` copy the program's file and the grains' files, `migrated_blocks`
//! writes the log's blocks in format 2, and `migration` opens the silo and puts these together.
#![tactic(auto)]

mod compaction;
mod copied_files;
mod copied_program;
mod copies;
mod faults;
mod manager_file;
mod migrated_blocks;
mod migration;
mod other_slot;
mod pieces;

pub use compaction::compact;
pub use faults::MigrateFault;
pub use migration::migrate;
