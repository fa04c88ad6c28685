ghost use Rattle.std.specs.Prelude.{◌≤◌, Result, Ok, IfOk, IfErr, length};
ghost use Rattle.script_tree.specs.Programs.{ProgramTree, program_tree};
ghost use Rattle.script_tree.specs.Names.{names_in_program, AreInOrder};
ghost use Rattle.script_lexer.specs.declared.faults.ParseFault.{ParseFault};
ghost use Rattle.script_expressions.specs.TokenReaders.{Makes};
ghost use Rattle.script_parser.specs.Programs.{at_text_end, program_over, program_of};
ghost use Rattle.script_parser.specs.Grammar.{IsProgram};
ghost use Rattle.script_parser.specs.Refusals.{IsRefusal};

use crate::types::types;
use base_types::PROGRAM_LIMIT;
use script_expressions::Cursor;
use script_lexer::{ParseFault, Spanned, tokens_of};
use script_tree::Program;
use std::alloc::Global;

/// The most braces, parentheses and prefix operators that may be open at a place.
pub const NESTING_LIMIT: u8 = 32;

/// The program that a text is. A text that is none is refused with its first place that is wrong, in the order of the
/// text; only want of memory may be answered in place of any other answer.
pub fn parse(alloc: Global, text: &[u8]) -> Result<Program, ParseFault>
    requires { length text.now ≤ PROGRAM_LIMIT }

    // What is accepted is a program of the grammar, and the tree is the text's.
    ensures found { IfOk result (λ program. IsProgram text.now (program_tree program)) }

    // A text of the grammar is accepted, with no other tree.
    ensures only { (tree : ProgramTree) → IsProgram text.now tree → Makes program_tree result
        (let made : Result ProgramTree ParseFault = Ok tree in made) }

    // The names of the tree stand at rising places, in the order of the text.
    ensures placed { IfOk result (λ program. AreInOrder (names_in_program (program_tree program))) }

    // What a refusal says over the grammar alone: where one more may be open, a program begins with the tokens before
    // the one that it names; with that token none begins within the limit. That no token before is too deep is said by
    // `exact` alone.
    ensures refused { IfErr result (λ fault. IsRefusal text.now fault) }

    // Which tree and which fault.
    ensures exact { Makes program_tree result (program_of text.now) }
{
    parsed(alloc, text)
}

fn parsed(alloc: Global, text: &[u8]) -> Result<Program, ParseFault>
    requires { length text.now ≤ PROGRAM_LIMIT }
    ensures { Makes program_tree result (program_of text.now) }
{
    let lexed = tokens_of(alloc, text)?;
    program(alloc, lexed.stop, &lexed.tokens)
}

// The program that the tokens are, up to what ends them.
#[tactic(auto, unfolding(crate::specs::Programs::program_over))]
fn program(alloc: Global, stop: ParseFault, tokens: &[Spanned]) -> Result<Program, ParseFault>
    ensures { Makes program_tree result (program_over stop tokens.now) }
{
    let mut cursor = Cursor { tokens, stop };
    let types = types(alloc, &mut cursor, NESTING_LIMIT)?;
    finish(&cursor)?;
    Ok(Program::new(types))
}

// Nothing follows: the tokens are used up, and they end where the text does.
fn finish(cursor: &Cursor<'_>) -> Result<(), ParseFault>
    ensures { Makes (λ _. tt) result (at_text_end cursor.now.stop cursor.now.tokens.now) }
{
    match cursor.tokens {
        [first, ..] => Err(ParseFault::Unexpected { at: first.at }),
        [] => match cursor.stop {
            ParseFault::Unexpected { at: _ } => Ok(()),
            stop => Err(stop),
        },
    }
}
