//! What stands at a place of a text.
ghost use Rattle.std.specs.Prelude.{◌≡◌, ◌≤◌, ◌<◌, ◌+◌, ◌-◌, ◌^◌, ℕ, length, drop, IfOk, pos, nat_lt, bytes_eq, IsTrue, slice_index, nat_eq, Some, None, if◌then◌else◌};
ghost use Rattle.std.specs.List.{starts_with};
ghost use Rattle.script_lexer.specs.Spellings.{is_letter, is_digit, word_spelling, symbol_spelling, number_from};
ghost use Rattle.script_lexer.specs.Lexemes.{word_named, symbol_at, name_lexeme, closes, text_lexeme, number_lexeme, symbol_lexeme, lexeme, length_behind};

use crate::classes::{
    digits_len, is_blank_byte, is_digit_byte, is_letter_byte, line_len, name_len, skip, text_len,
};
use crate::tokens::{Symbol, Token, Word};
use base_types::TEXT_LIMIT;
use script_tree::Chars;
use std::alloc::{AllocError, Global};

/// What stands at a place, with how many bytes it has after its first: what is passed over, or a token.
#[derive(Drop)]
pub(crate) enum Lexeme {
    Gap(usize),
    Whole(Token, usize),
    Bad,
}

/// The most bytes of a name.
const NAME_LIMIT: usize = 32;

/// The reserved words.
const WORDS: [Word; 13] = [
    Word::Type,
    Word::Field,
    Word::Method,
    Word::Let,
    Word::Set,
    Word::If,
    Word::Else,
    Word::While,
    Word::Return,
    Word::Fail,
    Word::Call,
    Word::Attempt,
    Word::Key,
];

/// The symbols, those of two bytes first.
const SYMBOLS: [Symbol; 22] = [
    Symbol::LessEqual,
    Symbol::GreaterEqual,
    Symbol::Equal,
    Symbol::NotEqual,
    Symbol::And,
    Symbol::Or,
    Symbol::LeftBrace,
    Symbol::RightBrace,
    Symbol::LeftParen,
    Symbol::RightParen,
    Symbol::Semicolon,
    Symbol::Comma,
    Symbol::Dot,
    Symbol::Assign,
    Symbol::Plus,
    Symbol::Minus,
    Symbol::Star,
    Symbol::Slash,
    Symbol::Percent,
    Symbol::Less,
    Symbol::Greater,
    Symbol::Not,
];

fn is_spelled(word: Word, name: &[u8]) -> bool
    ensures { result ≡ bytes_eq (word_spelling word) name.now }
{
    word.spelling().as_bytes() == name
}

fn word_of(name: &[u8]) -> Option<Word>
    ensures { result ≡ word_named name.now }
{
    WORDS.iter().find(|w| is_spelled(**w, name)).map(|w| *w)
}

fn begins(symbol: Symbol, bytes: &[u8]) -> bool
    ensures { result ≡ starts_with nat_eq bytes.now (symbol_spelling symbol) }
{
    bytes.starts_with(symbol.spelling().as_bytes())
}

fn symbol_of(bytes: &[u8]) -> Option<Symbol>
    ensures { result ≡ symbol_at bytes.now }
{
    SYMBOLS.iter().find(|s| begins(**s, bytes)).map(|s| *s)
}

#[tactic(auto, unfolding(crate::specs::Lexemes::symbol_lexeme))]
fn symbol_from(bytes: &[u8]) -> Lexeme
    ensures { result ≡ symbol_lexeme bytes.now }
{
    match symbol_of(bytes) {
        Some(symbol) => Lexeme::Whole(Token::Symbol(symbol), more_bytes(symbol)),
        None => Lexeme::Bad,
    }
}

// How many bytes a symbol has after its first.
fn more_bytes(symbol: Symbol) -> usize
    ensures { result ≡ length (symbol_spelling symbol) - 1 }
{
    symbol.spelling().len() - 1
}

// The number that digits after a number make, where it is below 2 ^ 63.
fn number_of(first: u8, digits: &[u8]) -> Option<i64>
    requires first { first < 10 }
    requires digits { (i : ℕ) → i < length digits.now
        → IsTrue (is_digit (slice_index digits.now i)) }
    ensures { result ≡ (if nat_lt (number_from first digits.now) (2 ^ 63)
        then Some (pos (number_from first digits.now)) else None) }
{
    let mut value = first as u64;
    for d in digits {
        value = value.checked_mul(10)?.checked_add((*d - b'0') as u64)?;
    }
    i64::try_from(value).ok()
}

#[tactic(auto, unfolding(crate::specs::Lexemes::number_lexeme))]
fn number_at(first: u8, rest: &[u8]) -> Lexeme
    requires { IsTrue (is_digit first) }
    ensures { result ≡ number_lexeme first rest.now }
{
    let more = digits_len(rest);
    match number_of(first - b'0', &rest[..more]) {
        Some(number) => Lexeme::Whole(Token::Int(number), more),
        None => Lexeme::Bad,
    }
}

#[tactic(auto, unfolding(crate::specs::Lexemes::name_lexeme))]
fn name_at(alloc: Global, text: &str, at: usize) -> Result<Lexeme, AllocError>
    requires within { at < length text.now }
    requires letter { IsTrue (is_letter (slice_index text.now at)) }
    ensures { IfOk result (λ found.
        found ≡ name_lexeme (slice_index text.now at) (drop (at + 1) text.now)) }
{
    let more = name_len(skip(text.as_bytes(), at + 1));
    if more >= NAME_LIMIT {
        return Ok(Lexeme::Bad);
    }
    let name = &text[at..at + more + 1];
    let token = match word_of(name.as_bytes()) {
        Some(word) => Token::Word(word),
        None => Token::Name(Chars::new(alloc, name)?),
    };
    Ok(Lexeme::Whole(token, more))
}

#[tactic(auto, unfolding(crate::specs::Lexemes::text_lexeme))]
fn text_at(alloc: Global, text: &str, at: usize) -> Result<Lexeme, AllocError>
    requires within { at < length text.now }
    requires quote { slice_index text.now at ≡ 34 }
    ensures { IfOk result (λ found. found ≡ text_lexeme (drop (at + 1) text.now)) }
{
    let bytes = skip(text.as_bytes(), at + 1);
    let len = text_len(bytes);
    if !is_closed(skip(bytes, len)) || len > TEXT_LIMIT {
        return Ok(Lexeme::Bad);
    }
    let inner = Chars::new(alloc, &text[at + 1..at + 1 + len])?;
    Ok(Lexeme::Whole(Token::Text(inner), len + 1))
}

// Whether a quote stands next.
fn is_closed(rest: &[u8]) -> bool
    ensures { result ≡ closes rest.now }
{
    match rest {
        [] => false,
        [first, ..] => *first == b'"',
    }
}

/// What stands at a place of a text.
pub(crate) fn lexeme_at(alloc: Global, text: &str, at: usize) -> Result<Lexeme, AllocError>
    requires { at < length text.now }
    ensures value { IfOk result (λ found.
        found ≡ lexeme (slice_index text.now at) (drop (at + 1) text.now)) }
    ensures within { IfOk result (λ found. at + length_behind found < length text.now) }
{
    any_lexeme_at(alloc, text, at)
}

#[tactic(auto, unfolding(crate::specs::Lexemes::lexeme))]
fn any_lexeme_at(alloc: Global, text: &str, at: usize) -> Result<Lexeme, AllocError>
    requires { at < length text.now }
    ensures { IfOk result (λ found.
        found ≡ lexeme (slice_index text.now at) (drop (at + 1) text.now)) }
{
    let bytes = text.as_bytes();
    let first = bytes[at];
    if is_blank_byte(first) {
        return Ok(Lexeme::Gap(0));
    }
    if first == b'#' {
        return Ok(Lexeme::Gap(line_len(skip(bytes, at + 1))));
    }
    if is_letter_byte(first) {
        return name_at(alloc, text, at);
    }
    if first == b'0' {
        return Ok(Lexeme::Whole(Token::Int(0), 0));
    }
    if is_digit_byte(first) {
        return Ok(number_at(first, skip(bytes, at + 1)));
    }
    if first == b'"' {
        return text_at(alloc, text, at);
    }
    Ok(symbol_from(skip(bytes, at)))
}
