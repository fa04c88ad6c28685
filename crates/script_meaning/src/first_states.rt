ghost use Rattle.std.specs.Prelude.{◌≡◌, IfOk, slice_get};
ghost use Rattle.script_tree.specs.Programs.{program_tree};
ghost use Rattle.script_check.specs.AcceptedPrograms.{IsAcceptedProgram};
ghost use Rattle.script_meaning.specs.Play.{initial_of};

use base_types::{GrainId, State};
use script_check::initial_state;
use script_tree::Program;
use std::alloc::{AllocError, Global};

/// The state of a grain that was never written: its type's initial fields, or no values where the program has
/// no such type.
pub fn initial(alloc: Global, program: &Program, grain: GrainId) -> Result<State, AllocError>
    requires { IsAcceptedProgram (program_tree program.now) }
    ensures { IfOk result (λ state. state ≡ initial_of (slice_get (program_tree program.now) grain.kind)) }
{
    match program.types.get(grain.kind as usize) {
        Some(of_type) => initial_state(alloc, of_type.fields.as_slice()),
        None => Ok(State::new(alloc)),
    }
}
