ghost use Rattle.std.specs.Prelude.{◌≡◌, IfOk, string_bytes};
ghost use Rattle.silo_top.specs.Statuses.{status_number, status_text};

use base_types::List;
use host_trait::{FileId, file_name};
use program_file::ProgramFault;
use std::alloc::{AllocError, Global};

/// How a command ended. [`run_silo`](crate::run_silo) says when each comes.
#[derive(Clone, Copy, Debug, PartialEq, Eq)]
pub enum Status {
    /// All was read, carried and written.
    Done,
    /// The words are no command.
    BadUse,
    /// There was no memory, or no number of a unit or of a session below 2 to the 63 is left. What stands by then stays.
    Memory,
    /// The input couldn't be read.
    ReadFault,
    /// The output couldn't be written.
    WriteFault,
    /// A call on this file failed. What is on disk is what a crash may leave there.
    DiskFault { file: FileId },
    /// The folder is no silo.
    NotASilo,
    /// The folder is a silo already.
    AlreadyASilo,
    /// The file is damaged at this offset.
    Damaged { file: FileId, place: u64 },
    /// The input is no program.
    BadProgram { fault: ProgramFault },
    /// The input is longer than the command takes: for `run` a line has more than 65,536 bytes, or is the 4,294,967,296th; for `init` and
    /// `upgrade` the whole has more than 262,144 bytes. `line` is the line's number, and 0 where that has more than 32 bits, or where the
    /// limit is one on the whole input.
    InputTooLong { line: u32 },
    /// No generation follows that of the silo, which is 4,294,967,295, so that it is neither compacted nor migrated.
    LastGeneration,
    /// The types of the program that is the input don't begin with the names of those in force: `at` is the place in its text of the
    /// first name that differs, or the text's length where types are missing.
    UpgradeRefused { at: u32 },
    /// The silo has format 1, which `migrate` alone reads.
    OldFormat,
    /// The silo has format 2 already, so that `migrate` has nothing to do.
    NotOld,
}

impl Status {
    /// The number that the program ends with: 0 for `Done`, and another for each other status.
    pub fn number(&self) -> u8
        ensures { result ≡ status_number self.now }
    {
        match self {
            Status::Done => 0,
            Status::BadUse => 2,
            Status::Memory => 3,
            Status::ReadFault => 4,
            Status::WriteFault => 5,
            Status::DiskFault { .. } => 6,
            Status::NotASilo => 7,
            Status::AlreadyASilo => 8,
            Status::Damaged { .. } => 9,
            Status::BadProgram { .. } => 10,
            Status::InputTooLong { .. } => 11,
            Status::LastGeneration => 12,
            Status::UpgradeRefused { .. } => 13,
            Status::OldFormat => 14,
            Status::NotOld => 15,
        }
    }

    /// What the program says on standard error after `silo: `, without a line feed. An error where there is no memory for it.
    pub fn text(&self, alloc: Global) -> Result<List<u8>, AllocError>
        ensures { IfOk result (λ text. text ≡ status_text self.now) }
    {
        let text = self.words(alloc)?;
        Ok(List::from_vec(text.into_bytes()))
    }

    fn words(&self, alloc: Global) -> Result<String, AllocError>
        ensures { IfOk result (λ text. string_bytes text ≡ status_text self.now) }
    {
        match self {
            Status::Done => String::from_str(alloc, "done"),
            Status::BadUse => String::from_str(alloc, "bad use"),
            Status::Memory => String::from_str(alloc, "no memory"),
            Status::ReadFault => String::from_str(alloc, "read fault"),
            Status::WriteFault => String::from_str(alloc, "write fault"),
            Status::DiskFault { file } => disk_fault_text(alloc, *file),
            Status::NotASilo => String::from_str(alloc, "not a silo"),
            Status::AlreadyASilo => String::from_str(alloc, "already a silo"),
            Status::Damaged { file, place } => damaged_text(alloc, *file, *place),
            Status::BadProgram { fault } => bad_program_text(alloc, *fault),
            Status::InputTooLong { .. } => String::from_str(alloc, "input too long"),
            Status::LastGeneration => String::from_str(alloc, "last generation"),
            Status::UpgradeRefused { at } => upgrade_refused_text(alloc, *at),
            Status::OldFormat => String::from_str(alloc, "old format"),
            Status::NotOld => String::from_str(alloc, "not an old format"),
        }
    }
}

fn disk_fault_text(alloc: Global, file: FileId) -> Result<String, AllocError>
    ensures { IfOk result (λ text. string_bytes text ≡ status_text (Status.DiskFault file)) }
{
    let name = file_name(alloc, file)?;
    format!(in alloc; "disk fault in {name}")
}

fn damaged_text(alloc: Global, file: FileId, place: u64) -> Result<String, AllocError>
    ensures { IfOk result (λ text. string_bytes text ≡ status_text (Status.Damaged file place)) }
{
    let name = file_name(alloc, file)?;
    format!(in alloc; "damaged {name} at {place}")
}

fn bad_program_text(alloc: Global, fault: ProgramFault) -> Result<String, AllocError>
    ensures { IfOk result (λ text. string_bytes text ≡ status_text (Status.BadProgram fault)) }
{
    let place = fault.place().unwrap_or(0);
    format!(in alloc; "bad program at {place}")
}

fn upgrade_refused_text(alloc: Global, at: u32) -> Result<String, AllocError>
    ensures { IfOk result (λ text. string_bytes text ≡ status_text (Status.UpgradeRefused at)) }
{
    format!(in alloc; "upgrade refused at {at}")
}
