//! The host that the program runs on: the standard streams, and a folder of real files.
//!
//! A [`FolderHost`] stands over the [system's calls](system_calls::SystemCalls) alone, which are the trusted edge. Over any system
//! that tells what it holds, it is a [`Host`](host_trait::Host) that tells, the disk model included: what it holds is what the system
//! does. A call answers Ok only where the system refused nothing in it, and fails only where it did, or where something that is
//! named stands in the way.
//! No other process has the folder, no file gets the number of a standard stream, files are looked for in the folder that was
//! taken and never by its path again, and a file of which a sync failed is asked nothing more. Bytes that an earlier process's
//! failed sync left in the system's memory are read as if they were on the disk.
#![tactic(auto)]

mod claim;
mod file_names;
mod folder;
mod host;
mod kept;
mod pieces;
mod table;
mod windows;

pub use host::FolderHost;
