//! From the bytes of a program to its tokens.
//!
//! `tokens_of` reads a text of UTF-8 from its front. Blanks and comments are passed over, and the tokens end at
//! the text's end or at the first place where nothing begins.
#![tactic(auto)]

mod classes;
mod faults;
mod lexemes;
mod lexer;
mod tokens;

pub use faults::ParseFault;
pub use lexer::{Lexed, tokens_of};
pub use tokens::{Spanned, Symbol, Token, Word};
