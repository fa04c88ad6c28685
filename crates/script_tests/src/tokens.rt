use script_lexer::{Spanned, Token};
use std::alloc::AllocError;

fn add_token(out: &mut String, token: &Token) -> Result<(), AllocError> {
    match token {
        Token::Name(name) => {
            out.push_str("name ")?;
            out.push_str(name.as_str())
        }
        Token::Word(word) => {
            out.push_str("word ")?;
            out.push_str(word.spelling())
        }
        Token::Int(number) => write!(out, "{number}"),
        Token::Text(text) => {
            out.push_str("\"")?;
            out.push_str(text.as_str())?;
            out.push_str("\"")
        }
        Token::Symbol(symbol) => out.push_str(symbol.spelling()),
    }
}

/// Writes `word set at 0, name total at 4, = at 10, ` and so on.
pub fn add_tokens(out: &mut String, tokens: &[Spanned]) -> Result<(), AllocError> {
    for one in tokens {
        add_token(out, &one.token)?;
        let at = one.at;
        write!(out, " at {at}, ")?;
    }
    Ok(())
}
