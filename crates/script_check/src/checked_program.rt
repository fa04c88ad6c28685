ghost use Rattle.std.specs.Prelude.{◌≡◌, ◌≢◌, IfOk, IfErr};
ghost use Rattle.script_tree.specs.Programs.{program_tree};
ghost use Rattle.script_tree.specs.Names.{names_in_program, AreInOrder};
ghost use Rattle.script_scopes.specs.FirstFaults.{Answers};
ghost use Rattle.script_check.specs.Programs.{program_fault};
ghost use Rattle.script_check.specs.AcceptedPrograms.{IsAcceptedProgram};
ghost use Rattle.script_check.specs.Mentions.{IsFirstFault, IsLeastPlace};
ghost use Rattle.script_check.specs.Shapes.{type_shapes};

use crate::programs::check_types;
use crate::shapes::shape_of;
use base_types::Shape;
use script_scopes::CheckFault;
use script_tree::Program;
use std::alloc::{AllocError, Global};
use std::marker::Model;

/// A program at which nothing is at fault. Contracts see its tree.
#[derive(Drop)]
pub struct Checked {
    program: Program,
}

impl Model for Checked {
    ghost use Rattle.std.specs.Prelude.{◌≡◌, None};
    ghost use Rattle.std.specs.Coded.{codes};
    ghost use Rattle.script_tree.specs.contracts.expressions.Expr as expression;
    ghost use Rattle.script_tree.specs.contracts.statements.Stmt as statement;
    ghost use Rattle.script_tree.specs.declared.programs.Program.{Program};

    ghost Value = { Program };

    ghost coded = { Prim.hlevel (codes, expression.the_row.coded, statement.the_row.coded) };

    ghost use Rattle.script_tree.specs.Programs.{program_tree};
    ghost use Rattle.script_check.specs.Programs.{program_fault};

    ghost view = { λ c. c.program };

    ghost invariant = { λ c. program_fault (program_tree c.program) ≡ None };
}

/// Whether a syntax tree is a program. Answers the first fault in the order of the text, and at one place
/// the first in the order of the variants of [`CheckFault`].
pub fn check(alloc: Global, program: Program) -> Result<Checked, CheckFault>
    ensures exact { Answers result (program_fault (program_tree program)) }
    ensures kept { IfOk result (λ checked. checked ≡ program) }

    // It goes through exactly where the tree is a program.
    ensures accepted { IfOk result (λ _. IsAcceptedProgram (program_tree program)) }
    ensures refused { IfErr result (λ fault. fault ≢ CheckFault.Memory
        → ¬ IsAcceptedProgram (program_tree program)) }

    // The fault is that of the first name of the text that has one.
    ensures first { IfErr result (λ fault. fault ≢ CheckFault.Memory
        → IsFirstFault (program_tree program) fault) }

    // Where the names stand at rising places, as in each tree that is read from a text, its place is the least.
    ensures least { IfErr result (λ fault. fault ≢ CheckFault.Memory
        → AreInOrder (names_in_program (program_tree program))
        → IsLeastPlace (program_tree program) fault) }
{
    check_types(alloc, program.types.as_slice())?;
    Ok(Checked { program })
}

impl Checked {
    /// The program.
    pub fn program(&self) -> &Program
        ensures same { result.now ≡ self.now }
        ensures checked { IsAcceptedProgram (program_tree self.now) }
    {
        &self.program
    }

    /// What the files and the core need to know of the program: names, initial values and numbers of
    /// parameters, in the order of the text.
    #[tactic(auto, using(crate::proofs::TypeShapes::map_map, crate::proofs::TypeShapes::program_small, crate::proofs::WholePrograms::program_iff))]
    pub fn shape(&self) -> Result<Shape, AllocError>
        ensures { IfOk result (λ shape. shape.types ≡ type_shapes (program_tree self.now)) }
    {
        let alloc = *self.program.types.list.allocator();
        shape_of(alloc, self.program.types.as_slice())
    }
}
