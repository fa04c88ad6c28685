ghost use Rattle.std.specs.Prelude.{◌≡◌};
ghost use Rattle.host_trait.specs.declared.channels.FileId.TheVariants.{Manager};
ghost use Rattle.log_reading.specs.declared.faults.FolderFault.{FolderFault as AFault};
ghost use Rattle.silo_opening.specs.OpenedSilo.{in_folder};

use host_trait::FileId;
use log_reading::FolderFault;
use silo_opening::OpenFault;
use thiserror::Error;

/// Why a silo wasn't brought into format 2.
#[derive(Clone, Copy, Debug, PartialEq, Eq, Error)]
pub enum MigrateFault {
    /// The silo wasn't opened, has its last generation, or wasn't written anew. It never has `OldFormat`.
    #[error("the silo wasn't brought into format 2")]
    Open(OpenFault),
    /// The silo has format 2 already. Nothing was written.
    #[error("the silo has no old format")]
    NotOld,
}

/// The fault of a call on a slot's manager file.
pub(crate) fn manager_fault(slot: u8) -> FolderFault
    ensures { result ≡ AFault.Failed (Manager slot) }
{
    FolderFault::Failed {
        file: FileId::Manager { slot },
    }
}

/// The fault of a file of the folder.
pub(crate) fn folder_fault(fault: FolderFault) -> OpenFault
    ensures { result ≡ in_folder fault }
{
    match fault {
        FolderFault::Damaged { file, place } => OpenFault::Damaged { file, place },
        FolderFault::Failed { file } => OpenFault::DiskFault { file },
        FolderFault::Memory => OpenFault::Memory,
    }
}
