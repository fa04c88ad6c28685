// The program file of the live slot, copied into the other one.
ghost use Rattle.std.specs.Prelude.{◌≡◌, ◌-◌, ◌≤◌, ℕ, List, IsTrue, OnOk, IsErrOf, Ok};
ghost use Rattle.host_trait.specs.Faults.{HasCalled};
ghost use Rattle.host_trait.specs.Runs.{RunsOnFile};
ghost use Rattle.host_trait.specs.declared.channels.FileId.{FileId as AFile};
ghost use Rattle.host_trait.specs.declared.channels.FileId.TheVariants.{Program as ProgramFile};
ghost use Rattle.log_reading.specs.declared.faults.FolderFault.{FolderFault as AFault};
ghost use Rattle.log_reading.specs.Counts.{ReadFaulted};
ghost use Rattle.program_file.specs.Files.{text_in_file};
ghost use Rattle.checkpoint.specs.Steps.{MayBeAny};
ghost use Rattle.checkpoint.specs.CopiedProgram.{HasCopiedText};

use host_trait::{Failed, FileId, Host};
use log_reading::FolderFault;
use program_file::{ProgramFileFault, read_text};
use silo_opening::write_program;
use std::alloc::Global;

/// Copies the text of the live slot's program file into the other slot's, its length before it, and syncs that. `Failed` names the file
/// that couldn't be read or written.
pub fn copy_program<H: Host>(alloc: Global, host: &mut H, live: u8) -> Result<(), FolderFault>
    requires slot { live ≤ 1 }
    ensures run { IsTrue H.tells → RunsOnFile (ProgramFile (1 - live)) MayBeAny 1 (H.world host.old) (H.world host.new) }
    ensures copied { OnOk result (IsTrue H.tells → HasCopiedText live (H.world host.old).disk (H.world host.new).disk) }

    // Where the file has a text, it isn't found damaged.
    ensures damaged { (file : AFile) (place : ℕ) → IsErrOf result (AFault.Damaged file place) → IsTrue H.tells → (text : List ℕ)
        → text_in_file ((H.world host.old).disk (ProgramFile live)).seen ≡ Ok text → ⊥ }

    ensures calls { HasCalled ReadFaulted result H.is_ready H.faults host.old host.new }
{
    let from = FileId::Program { slot: live };
    let to = FileId::Program { slot: 1 - live };
    let text = match read_text(alloc, host, live) {
        Ok(text) => text,
        Err(ProgramFileFault::Damaged { place }) => {
            return Err(FolderFault::Damaged { file: from, place });
        }
        Err(ProgramFileFault::Failed) => return Err(FolderFault::Failed { file: from }),
        Err(ProgramFileFault::Memory) => return Err(FolderFault::Memory),
    };
    match write_program(host, 1 - live, &text) {
        Ok(()) => Ok(()),
        Err(Failed) => Err(FolderFault::Failed { file: to }),
    }
}
