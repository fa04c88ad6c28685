ghost use Rattle.std.specs.Prelude.{◌≡◌, ◌<◌, ◌^◌, List, length, IfOk};
ghost use Rattle.script_lexer.specs.Lexer.{lex, lexed};
ghost use Rattle.script_lexer.specs.TokenTexts.{IsLexed};
ghost use Rattle.script_lexer.specs.declared.faults.ParseFault.{ParseFault};
ghost use Rattle.script_lexer.specs.declared.tokens.Spanned.{Spanned};

use crate::faults::ParseFault;
use crate::lexemes::{Lexeme, lexeme_at};
use crate::tokens::Spanned;
use std::alloc::{AllocError, Global};

/// A text's tokens in order, and the fault that is answered where a further token is wanted.
#[derive(Drop)]
pub struct Lexed {
    pub tokens: Vec<Spanned>,
    pub stop: ParseFault,
}

// The tokens of a text up to a place where nothing begins; `stop` is what ends them at the text's end.
fn tokens_from(alloc: Global, stop: ParseFault, text: &str) -> Result<Lexed, AllocError>
    requires { length text.now < 2 ^ 32 }
    ensures { IfOk result (λ found. (found.tokens.items, found.stop) ≡ lex stop 0 0 text.now) }
{
    let mut tokens = Vec::new(alloc);
    let mut at: usize = 0;
    while at < text.len() {
        match lexeme_at(alloc, text, at)? {
            Lexeme::Gap(more) => at += more + 1,
            Lexeme::Whole(token, more) => {
                let place = at as u32;
                tokens.push(Spanned { token, at: place })?;
                at += more + 1;
            }
            Lexeme::Bad => {
                let stop = ParseFault::BadToken { at: at as u32 };
                return Ok(Lexed { tokens, stop });
            }
        }
    }
    Ok(Lexed { tokens, stop })
}

/// The tokens of a text, and the fault that is answered where a further token is wanted: the text's length where
/// the tokens reach its end, and otherwise the first byte at which nothing begins.
pub fn tokens_of(alloc: Global, text: &[u8]) -> Result<Lexed, AllocError>
    requires { length text.now < 2 ^ 32 }

    // The text is blanks, comments and the spellings of the tokens, in order, up to where nothing begins.
    ensures spelled { IfOk result (λ found. IsLexed text.now found.tokens.items found.stop) }

    // No other tokens and no other stop are the text's.
    ensures only { (tokens : List Spanned) (stop : ParseFault) → IsLexed text.now tokens stop
        → IfOk result (λ found. (found.tokens.items ≡ tokens) × (found.stop ≡ stop)) }

    // They are these.
    ensures exact { IfOk result (λ found. (found.tokens.items, found.stop) ≡ lexed text.now) }
{
    lexed_text(alloc, text)
}

#[tactic(auto, unfolding(crate::specs::Lexer::lexed))]
fn lexed_text(alloc: Global, text: &[u8]) -> Result<Lexed, AllocError>
    requires { length text.now < 2 ^ 32 }
    ensures { IfOk result (λ found. (found.tokens.items, found.stop) ≡ lexed text.now) }
{
    match str::from_utf8(text) {
        Ok(whole) => {
            let at = text.len() as u32;
            tokens_from(alloc, ParseFault::Unexpected { at }, whole)
        }
        Err(cut) => {
            let valid = cut.valid_up_to();
            let stop = ParseFault::BadToken { at: valid as u32 };
            match str::from_utf8(&text[..valid]) {
                Ok(front) => tokens_from(alloc, stop, front),
                Err(_) => Ok(Lexed {
                    tokens: Vec::new(alloc),
                    stop,
                }),
            }
        }
    }
}
