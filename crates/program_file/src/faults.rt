use host_trait::Failed;
use script_check::CheckFault;
use script_parser::ParseFault;
use std::alloc::AllocError;
use thiserror::Error;

/// Why a text is no program: it isn't one by the grammar, or something is at fault in its types. Want of memory is told by the
/// inner fault.
#[derive(Clone, Copy, Debug, PartialEq, Eq)]
pub enum ProgramFault {
    /// The text isn't in the grammar.
    Unparsed(ParseFault),
    /// A name in it is at fault.
    Unchecked(CheckFault),
}

/// Why the program file gave no program.
#[derive(Clone, Copy, Debug, PartialEq, Eq, Error)]
pub enum ProgramFileFault {
    /// The file is damaged at this offset: at its length where it is too short for the length field or for the text, at 0 where
    /// the text would be too long, and else 4 bytes behind the place at which the text is no program.
    #[error("the program file is damaged at {place}")]
    Damaged { place: u64 },
    /// A call on the file failed, and its count has risen.
    #[error("the program file couldn't be read")]
    Failed,
    /// There was no memory.
    #[error("no memory")]
    Memory,
}

impl From<Failed> for ProgramFileFault {
    ghost use Rattle.std.specs.Prelude.{◌≡◌};
    ghost use Rattle.program_file.specs.declared.faults.ProgramFileFault.{ProgramFileFault};

    ghost from_gives = { λ _ fault. fault ≡ ProgramFileFault.Failed };

    fn from(_: Failed) -> Self {
        ProgramFileFault::Failed
    }
}

impl From<AllocError> for ProgramFileFault {
    ghost use Rattle.std.specs.Prelude.{◌≡◌};
    ghost use Rattle.program_file.specs.declared.faults.ProgramFileFault.{ProgramFileFault};

    ghost from_gives = { λ _ fault. fault ≡ ProgramFileFault.Memory };

    fn from(_: AllocError) -> Self {
        ProgramFileFault::Memory
    }
}
