use host_trait::FileId;
use program_file::ProgramFault;
use silo_opening::OpenFault;
use thiserror::Error;

/// Why an upgrade ended before it was done.
#[derive(Clone, Copy, Debug, PartialEq, Eq, Error)]
pub enum UpgradeEnd {
    /// A call on the input failed. Nothing was written.
    #[error("the input couldn't be read")]
    ReadFault,
    /// The input has more than 262,144 bytes. Nothing was written.
    #[error("the input is too long")]
    InputTooLong,
    /// The input is no program. Nothing was written.
    #[error("the input is no program")]
    BadProgram(ProgramFault),
    /// The silo wasn't opened. Nothing was written.
    #[error("the silo wasn't opened")]
    Unopened(OpenFault),
    /// The program's types don't begin with the names of those in force: `at` is the place in the text of the first name that
    /// differs, or the text's length where types are missing. Nothing was written.
    #[error("the types don't go on at {at}")]
    Refused { at: u32 },
    /// A call on this file failed while the upgrade was sealed. A crash may leave the silo with the upgrade, or without it.
    #[error("a call on {file:?} failed")]
    DiskFault { file: FileId },
    /// There was no memory. Nothing was written.
    #[error("no memory")]
    Memory,
}
