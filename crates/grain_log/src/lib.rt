//! The versions of a grain in its file: one write and one sync for those of a batch, and one read for one of them, or none where its
//! bytes were read before.
//!
//! A version counts only where a record of the log names its place. `docs/FORMATS.md` has the bytes.
#![tactic(auto)]

mod faults;
mod reads;
mod writes;

pub use faults::{LogFault, VersionFault};
pub use reads::{named_in, read_named, read_version};
pub use writes::write_versions;
