ghost use Rattle.std.specs.Prelude.{◌≡◌};
ghost use Rattle.script_lexer.specs.Spellings.{word_spelling, symbol_spelling};

use script_tree::Chars;

/// A reserved word.
#[derive(Clone, Copy, Debug, PartialEq, Eq)]
pub enum Word {
    Type,
    Field,
    Method,
    Let,
    Set,
    If,
    Else,
    While,
    Return,
    Fail,
    Call,
    Attempt,
    Key,
}

impl Word {
    /// The word's letters.
    pub fn spelling(self) -> &'static str
        ensures { result.now ≡ word_spelling self }
    {
        match self {
            Word::Type => "type",
            Word::Field => "field",
            Word::Method => "method",
            Word::Let => "let",
            Word::Set => "set",
            Word::If => "if",
            Word::Else => "else",
            Word::While => "while",
            Word::Return => "return",
            Word::Fail => "fail",
            Word::Call => "call",
            Word::Attempt => "attempt",
            Word::Key => "key",
        }
    }
}

/// A symbol.
#[derive(Clone, Copy, Debug, PartialEq, Eq)]
pub enum Symbol {
    LeftBrace,
    RightBrace,
    LeftParen,
    RightParen,
    Semicolon,
    Comma,
    Dot,
    Assign,
    Plus,
    Minus,
    Star,
    Slash,
    Percent,
    Less,
    Greater,
    LessEqual,
    GreaterEqual,
    Equal,
    NotEqual,
    And,
    Or,
    Not,
}

impl Symbol {
    /// The symbol's bytes.
    pub fn spelling(self) -> &'static str
        ensures { result.now ≡ symbol_spelling self }
    {
        match self {
            Symbol::LeftBrace => "{",
            Symbol::RightBrace => "}",
            Symbol::LeftParen => "(",
            Symbol::RightParen => ")",
            Symbol::Semicolon => ";",
            Symbol::Comma => ",",
            Symbol::Dot => ".",
            Symbol::Assign => "=",
            Symbol::Plus => "+",
            Symbol::Minus => "-",
            Symbol::Star => "*",
            Symbol::Slash => "/",
            Symbol::Percent => "%",
            Symbol::Less => "<",
            Symbol::Greater => ">",
            Symbol::LessEqual => "<=",
            Symbol::GreaterEqual => ">=",
            Symbol::Equal => "==",
            Symbol::NotEqual => "!=",
            Symbol::And => "&&",
            Symbol::Or => "||",
            Symbol::Not => "!",
        }
    }
}

/// A token: a name that isn't reserved, a reserved word, a whole number from 0, a text, or a symbol.
#[derive(Drop)]
pub enum Token {
    Name(Chars),
    Word(Word),
    Int(i64),
    Text(Chars),
    Symbol(Symbol),
}

/// A token, and the place of its first byte.
#[derive(Drop)]
pub struct Spanned {
    pub token: Token,
    pub at: u32,
}
