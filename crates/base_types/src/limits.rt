//! The limits that several crates keep. Those that one crate alone keeps stand in that crate.

/// The most bytes that a text of the grain language may have.
pub const TEXT_LIMIT: usize = 4096;

/// The most fields that a type may have.
pub const STATE_LIMIT: usize = 64;

/// The most bytes that a program's text may have.
pub const PROGRAM_LIMIT: usize = 262_144;

/// A file's length in bytes is below it.
pub const FILE_LIMIT: u64 = 1 << 63;
