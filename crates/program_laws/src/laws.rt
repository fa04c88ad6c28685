ghost use Rattle.std.specs.Prelude.{◌≡◌, ◌≢◌, ◌↔◌, ℕ, List, Ok, Err, Some, None};
ghost use Rattle.script_tree.specs.Programs.{ProgramTree};
ghost use Rattle.script_lexer.specs.declared.faults.ParseFault.{ParseFault as AParseFault};
ghost use Rattle.script_parser.specs.Programs.{program_of};
ghost use Rattle.script_parser.specs.Grammar.{IsProgram};
ghost use Rattle.script_parser.specs.Refusals.{IsRefusal};
ghost use Rattle.script_scopes.specs.declared.faults.CheckFault.{CheckFault as ACheckFault};
ghost use Rattle.script_scopes.specs.declared.faults.CheckFault.TheVariants as check;
ghost use Rattle.script_check.specs.Programs.{program_fault};
ghost use Rattle.script_check.specs.Mentions.{IsFirstFault};
ghost use Rattle.script_check.specs.AcceptedPrograms.{IsAcceptedProgram};
ghost use Rattle.program_file.specs.Programs.{program_in};

/// A text reads as a tree exactly where it is that program of the grammar, and nothing is at fault in a tree exactly where the
/// checks accept it. So a text is a program, as `init`, `upgrade` and a log take one, exactly where it is both.
pub fn texts_are_programs_by_the_grammar()
    ensures grammar { (text : List ℕ) (types : ProgramTree) → (program_of text ≡ Ok types) ↔ IsProgram text types }
    ensures checks { (types : ProgramTree) → (program_fault types ≡ None) ↔ IsAcceptedProgram types }
    ensures both { (text : List ℕ) (types : ProgramTree) → (program_in text ≡ Ok types) ↔ (IsProgram text types × IsAcceptedProgram types) }
{}

/// A text that reads as no tree is refused for what the grammar says of its fault, and a tree that isn't accepted for the first name in
/// the order of its text that is at fault.
pub fn faults_are_the_languages()
    ensures grammar { (text : List ℕ) (fault : AParseFault) → program_of text ≡ Err fault → IsRefusal text fault }
    ensures checks { (types : ProgramTree) (fault : ACheckFault) → program_fault types ≡ Some fault → fault ≢ check.Memory → IsFirstFault types fault }
{}
