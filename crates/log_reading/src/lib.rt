//! What a log and the grains' files hold, as opening reads them: block by block, and then version by version, by grains.
//!
//! [`read_entry`] reads one body behind its session: records of the program in force, or the program that comes into force, and names the
//! first place of it that is damaged. Each block and each version is read once, and versions of a grain that stand one behind the other at once. The definitions say
//! what the bytes stand for, and where they are damaged first.
#![tactic(auto)]

mod bases;
mod blocks;
mod bodies;
mod body_laws;
mod contents;
mod entries;
mod faults;
mod header;
mod latest;
mod laws;
mod log;
mod pieces;
mod placed;
mod versions;

pub use bases::{Base, read_base};
pub use blocks::next_entry;
pub use bodies::{EntryFault, Said, read_entry};
pub use body_laws::{
    first_damage_is_named, later_damage_is_named, records_are_read, upgrades_are_read,
};
pub use contents::{Contents, read_contents};
pub use faults::FolderFault;
pub use latest::read_latest;
pub use laws::{entries_are_read, faults_in_order, latest_states_stand};
pub use log::{ReadLog, read_log};
pub use placed::read_states;
pub use versions::{named_version, read_versions};
