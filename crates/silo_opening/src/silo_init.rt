ghost use Rattle.std.specs.Prelude.{◌≡◌, ℕ, List, IsTrue, Result};
ghost use Rattle.host_trait.specs.Faults.{HasCalled};
ghost use Rattle.program_file.specs.Answers.{program_fault_place};
ghost use Rattle.promise_spec.specs.Words.{Manner};
ghost use Rattle.promise_spec.specs.Commands.{MakesSilo};
ghost use Rattle.silo_opening.specs.Counts.{InitFaulted};
ghost use Rattle.silo_opening.specs.Inits.{in_input, in_program, in_creation, ended_with};

use crate::creation::create;
use crate::faults::CreateFault;
use crate::input::{InputFault, read_input};
use host_trait::{FileId, Host};
use program_file::{ProgramFault, accept};
use std::alloc::Global;
use thiserror::Error;

/// Why `init` made no silo.
#[derive(Clone, Copy, Debug, PartialEq, Eq, Error)]
pub enum InitFault {
    /// A call on the input failed. Nothing was written.
    #[error("the input couldn't be read")]
    ReadFault,
    /// The input has more than 262,144 bytes. Nothing was written.
    #[error("the input is too long")]
    InputTooLong,
    /// The input is no program. Nothing was written.
    #[error("the input is no program")]
    BadProgram(ProgramFault),
    /// The folder is a silo. Nothing was written.
    #[error("the folder is a silo")]
    AlreadyASilo,
    /// A call on this file failed.
    #[error("a call on {file:?} failed")]
    DiskFault { file: FileId },
    /// There was no memory. Nothing was written.
    #[error("no memory")]
    Memory,
}

// The fault of an input that wasn't read.
fn input_fault(fault: InputFault) -> InitFault
    ensures { result ≡ in_input fault }
{
    match fault {
        InputFault::Memory => InitFault::Memory,
        InputFault::Failed => InitFault::ReadFault,
        InputFault::TooLong => InitFault::InputTooLong,
    }
}

// The fault of a text that is no program.
fn program_fault(fault: ProgramFault) -> InitFault
    ensures { result ≡ in_program fault (program_fault_place fault) }
{
    match fault.place() {
        Some(_) => InitFault::BadProgram(fault),
        None => InitFault::Memory,
    }
}

// The fault of a silo that wasn't made.
fn creation_fault(fault: CreateFault) -> InitFault
    ensures { result ≡ in_creation fault }
{
    match fault {
        CreateFault::AlreadyASilo => InitFault::AlreadyASilo,
        CreateFault::DiskFault { file } => InitFault::DiskFault { file },
    }
}

/// Reads a program's text from the input, and makes the folder a silo of it with an empty log.
///
/// Nothing is written unless the input was read to its end, is short enough and is a checked program, and the folder is no silo.
///
/// # Errors
///
/// The input's faults come first, then those of the program in it, then those of the folder. Want of memory may come in place of
/// one of the first two.
pub fn init<H: Host>(alloc: Global, host: &mut H) -> Result<(), InitFault>
    // What the command `init` promises, however it ends.
    ensures makes { IsTrue H.tells → (manner : Manner) (asked : List (List ℕ))
        → MakesSilo (ended_with manner asked (H.world host.old) (H.world host.new) (H.faults host.old) (H.faults host.new) result) }

    // A fault is answered exactly where a call on its channel failed: its count rose, and no other changed. With another answer
    // no count has changed.
    ensures calls { HasCalled InitFaulted result H.is_ready H.faults host.old host.new }
{
    let text = match read_input(alloc, host) {
        Ok(text) => text,
        Err(fault) => return Err(input_fault(fault)),
    };
    match accept(alloc, &text) {
        Ok(_) => {}
        Err(fault) => return Err(program_fault(fault)),
    }
    match create(host, &text) {
        Ok(()) => Ok(()),
        Err(fault) => Err(creation_fault(fault)),
    }
}
