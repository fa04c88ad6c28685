//! What the program may ask of its surroundings: the next bytes of an input, bytes for an output, and files that a
//! crash may tear, under one clock.
//!
//! A [`Host`] tells what it holds by ghost members, or tells nothing, as a host over real streams and files does. Each
//! of its channels has a count of faults, so that no layer above can answer a fault that wasn't.
#![tactic(auto)]

mod channels;
mod file_names;
mod host;
mod laws;
mod steps;

pub use channels::{Channel, Failed, FileId};
pub use file_names::file_name;
pub use host::Host;
pub use laws::files_crash_apart;
pub use steps::{read_full, write_synced};
