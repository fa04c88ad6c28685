ghost use Rattle.std.specs.Prelude.{◌≡◌, IfOk, map};
ghost use Rattle.script_tree.specs.Programs.{program_tree};
ghost use Rattle.program_file.specs.Succession.{shapes_in_turn};

use base_types::{List, Shape};
use script_check::Checked;
use std::alloc::{AllocError, Global};

/// What the files need to know of each of these programs, in their order.
pub fn shapes_in_turn(alloc: Global, programs: &[Checked]) -> Result<List<Shape>, AllocError>
    ensures { IfOk result (λ made. made ≡ shapes_in_turn (map program_tree programs.now)) }
{
    let mut shapes = List::new(alloc);
    for program in programs {
        shapes.push(program.shape()?)?;
    }
    Ok(shapes)
}
