ghost use Rattle.std.specs.Prelude.{◌≡◌, ◌≤◌, ℕ, List, IsTrue, Ok, IfOk, IfErr, vec_len};
ghost use Rattle.script_tree.specs.Programs.{program_tree};
ghost use Rattle.program_file.specs.Programs.{program_in};
ghost use Rattle.program_file.specs.Answers.{program_fault_place};
ghost use Rattle.promise_spec.specs.Words.{Manner};
ghost use Rattle.promise_spec.specs.Upgrading.{IsInputRefused};
ghost use Rattle.silo_opening.specs.CommandCalls.{HasCalledAs};
ghost use Rattle.silo_upgrade.specs.Endings.{input_end, program_end, ending_for, upgrade_ending, ended_so};
ghost use Rattle.silo_upgrade.specs.Steps.{HasReadText};

use crate::faults::UpgradeEnd;
use host_trait::Host;
use program_file::{ProgramFault, accept};
use script_check::Checked;
use silo_opening::{InputFault, read_input};
use std::alloc::Global;

// The end for an input that wasn't read.
fn input_end(fault: InputFault) -> UpgradeEnd
    ensures { result ≡ input_end fault }
{
    match fault {
        InputFault::Memory => UpgradeEnd::Memory,
        InputFault::Failed => UpgradeEnd::ReadFault,
        InputFault::TooLong => UpgradeEnd::InputTooLong,
    }
}

// The end for a text that is no program.
fn program_end(fault: ProgramFault) -> UpgradeEnd
    ensures { result ≡ program_end fault (program_fault_place fault) }
{
    match fault.place() {
        Some(_) => UpgradeEnd::BadProgram(fault),
        None => UpgradeEnd::Memory,
    }
}

/// Reads the input to its end: a text, and the program that it is. No file is touched.
pub(crate) fn read_program<H: Host>(
    alloc: Global,
    host: &mut H,
) -> Result<(Vec<u8>, Checked), UpgradeEnd>
    ensures read { IfOk result (λ read. IsTrue H.tells → HasReadText read.0.items (H.world host.old) (H.world host.new)) }
    ensures program { IfOk result (λ read. program_in read.0.items ≡ Ok (program_tree read.1)) }
    ensures small { IfOk result (λ read. vec_len read.0 ≤ 262144) }

    // Where it isn't read, or is no program, that is what the command promises.
    ensures refused { IfErr result (λ e. IsTrue H.tells → (manner : Manner) (asked : List (List ℕ))
        → IsInputRefused (ended_so manner asked (H.world host.old) (H.world host.new) (H.faults host.old) (H.faults host.new) (ending_for e))) }
    ensures calls { HasCalledAs (upgrade_ending result) H.is_ready H.faults host.old host.new }
{
    let text = match read_input(alloc, host) {
        Ok(text) => text,
        Err(fault) => return Err(input_end(fault)),
    };
    match accept(alloc, &text) {
        Ok(checked) => Ok((text, checked)),
        Err(fault) => Err(program_end(fault)),
    }
}
