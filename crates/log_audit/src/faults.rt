ghost use Rattle.std.specs.Prelude.{◌≡◌};
ghost use Rattle.silo_opening.specs.declared.faults.OpenFault.{OpenFault};
ghost use Rattle.silo_opening.specs.OpenedSilo.{ending_of};
ghost use Rattle.log_audit.specs.Endings.{fault_ending, from_folder};

use host_trait::FileId;
use log_reading::FolderFault;
use silo_opening::OpenFault;
use std::alloc::AllocError;
use thiserror::Error;

/// Why a report wasn't written whole.
#[derive(Debug, Clone, Copy, PartialEq, Eq, Error)]
pub enum ReportFault {
    /// No slot's manager file has 16 bytes or more, a first byte of 1 and a magic behind it.
    #[error("the folder is no silo")]
    NotASilo,
    /// The live slot has format 1, which `migrate` alone reads.
    #[error("the silo has the old format")]
    OldFormat,
    /// The file is damaged at this offset.
    #[error("{file:?} is damaged at {place}")]
    Damaged { file: FileId, place: u64 },
    /// A call on this file failed. A part of the report may be written.
    #[error("a call on {file:?} failed")]
    DiskFault { file: FileId },
    /// A call on the output failed. A part of the report may be written.
    #[error("the output failed")]
    WriteFault,
    /// There was no memory. A part of the report may be written.
    #[error("no memory")]
    Memory,
}

impl From<AllocError> for ReportFault {
    ghost use Rattle.std.specs.Prelude.{◌≡◌};
    ghost use Rattle.log_audit.specs.declared.faults.ReportFault.{ReportFault};

    ghost from_gives = { λ _ fault. fault ≡ ReportFault.Memory };

    fn from(_: AllocError) -> Self {
        ReportFault::Memory
    }
}

/// The fault of a folder that wasn't opened. No opening is refused for its generation.
pub(crate) fn unopened(fault: OpenFault) -> ReportFault
    requires { fault ≡ OpenFault.LastGeneration → ⊥ }
    ensures { fault_ending result ≡ ending_of fault }
{
    match fault {
        OpenFault::NotASilo => ReportFault::NotASilo,
        OpenFault::OldFormat => ReportFault::OldFormat,
        OpenFault::Damaged { file, place } => ReportFault::Damaged { file, place },
        OpenFault::DiskFault { file } => ReportFault::DiskFault { file },
        OpenFault::Memory => ReportFault::Memory,
        OpenFault::LastGeneration => ReportFault::NotASilo,
    }
}

/// The fault of a log that couldn't be read again.
pub(crate) fn unread(fault: FolderFault) -> ReportFault
    ensures { result ≡ from_folder fault }
{
    match fault {
        FolderFault::Damaged { file, place } => ReportFault::Damaged { file, place },
        FolderFault::Failed { file } => ReportFault::DiskFault { file },
        FolderFault::Memory => ReportFault::Memory,
    }
}
