ghost use Rattle.std.specs.Prelude.{◌≡◌};
ghost use Rattle.script_expressions.specs.TokenReaders.{GivesPart, TakesToken};
ghost use Rattle.script_expressions.specs.Tokens.{symbol_number, word_number, is_symbol, is_word, refused_token, expected, expected_word, name_at, spelling_at, taken, taken_word};

use script_lexer::{ParseFault, Spanned, Symbol, Token, Word};
use script_tree::{Chars, Name};

/// The tokens that are left, and the fault that is answered where a further one is wanted.
#[derive(Drop)]
pub struct Cursor<'a> {
    pub tokens: &'a [Spanned],
    pub stop: ParseFault,
}

fn number_of_symbol(symbol: Symbol) -> u8
    ensures { result ≡ symbol_number symbol }
{
    match symbol {
        Symbol::LeftBrace => 0,
        Symbol::RightBrace => 1,
        Symbol::LeftParen => 2,
        Symbol::RightParen => 3,
        Symbol::Semicolon => 4,
        Symbol::Comma => 5,
        Symbol::Dot => 6,
        Symbol::Assign => 7,
        Symbol::Plus => 8,
        Symbol::Minus => 9,
        Symbol::Star => 10,
        Symbol::Slash => 11,
        Symbol::Percent => 12,
        Symbol::Less => 13,
        Symbol::Greater => 14,
        Symbol::LessEqual => 15,
        Symbol::GreaterEqual => 16,
        Symbol::Equal => 17,
        Symbol::NotEqual => 18,
        Symbol::And => 19,
        Symbol::Or => 20,
        Symbol::Not => 21,
    }
}

fn number_of_word(word: Word) -> u8
    ensures { result ≡ word_number word }
{
    match word {
        Word::Type => 0,
        Word::Field => 1,
        Word::Method => 2,
        Word::Let => 3,
        Word::Set => 4,
        Word::If => 5,
        Word::Else => 6,
        Word::While => 7,
        Word::Return => 8,
        Word::Fail => 9,
        Word::Call => 10,
        Word::Attempt => 11,
        Word::Key => 12,
    }
}

fn is_the_symbol(symbol: Symbol, token: &Token) -> bool
    ensures { result ≡ is_symbol symbol token.now }
{
    match token {
        Token::Symbol(other) => number_of_symbol(symbol) == number_of_symbol(*other),
        _ => false,
    }
}

fn is_the_word(word: Word, token: &Token) -> bool
    ensures { result ≡ is_word word token.now }
{
    match token {
        Token::Word(other) => number_of_word(word) == number_of_word(*other),
        _ => false,
    }
}

impl<'a> Cursor<'a> {
    /// What is answered where what stands next can't follow.
    pub fn refused(&self) -> ParseFault
        ensures { result ≡ refused_token self.now.stop self.now.tokens.now }
    {
        match self.tokens {
            [] => self.stop,
            [first, ..] => ParseFault::Unexpected { at: first.at },
        }
    }

    /// A symbol that must stand next, and its place.
    #[tactic(auto, unfolding(crate::specs::Tokens::expected))]
    pub fn expect(&mut self, symbol: Symbol) -> Result<u32, ParseFault>
        ensures read { GivesPart (λ at. at) result self.new.tokens.now
            (expected self.old.stop symbol self.old.tokens.now) }
        ensures stop { self.new.stop ≡ self.old.stop }
    {
        let [first, rest @ ..] = self.tokens else {
            return Err(self.stop);
        };
        if !is_the_symbol(symbol, &first.token) {
            return Err(ParseFault::Unexpected { at: first.at });
        }
        self.tokens = rest;
        Ok(first.at)
    }

    /// A reserved word that must stand next, and its place.
    #[tactic(auto, unfolding(crate::specs::Tokens::expected_word))]
    pub fn expect_word(&mut self, word: Word) -> Result<u32, ParseFault>
        ensures read { GivesPart (λ at. at) result self.new.tokens.now
            (expected_word self.old.stop word self.old.tokens.now) }
        ensures stop { self.new.stop ≡ self.old.stop }
    {
        let [first, rest @ ..] = self.tokens else {
            return Err(self.stop);
        };
        if !is_the_word(word, &first.token) {
            return Err(ParseFault::Unexpected { at: first.at });
        }
        self.tokens = rest;
        Ok(first.at)
    }

    /// A name that must stand next.
    #[tactic(auto, unfolding(crate::specs::Tokens::name_at))]
    pub fn name(&mut self) -> Result<Name, ParseFault>
        ensures read { GivesPart (λ name. name) result self.new.tokens.now
            (name_at self.old.stop self.old.tokens.now) }
        ensures stop { self.new.stop ≡ self.old.stop }
    {
        let [first, rest @ ..] = self.tokens else {
            return Err(self.stop);
        };
        match &first.token {
            Token::Name(text) => {
                let text = text.copy()?;
                self.tokens = rest;
                Ok(Name { text, at: first.at })
            }
            _ => Err(ParseFault::Unexpected { at: first.at }),
        }
    }

    /// A text that must stand next.
    #[tactic(auto, unfolding(crate::specs::Tokens::spelling_at))]
    pub fn text(&mut self) -> Result<Chars, ParseFault>
        ensures read { GivesPart (λ text. text) result self.new.tokens.now
            (spelling_at self.old.stop self.old.tokens.now) }
        ensures stop { self.new.stop ≡ self.old.stop }
    {
        let [first, rest @ ..] = self.tokens else {
            return Err(self.stop);
        };
        match &first.token {
            Token::Text(text) => {
                let text = text.copy()?;
                self.tokens = rest;
                Ok(text)
            }
            _ => Err(ParseFault::Unexpected { at: first.at }),
        }
    }

    /// Takes a symbol, where it stands next.
    #[tactic(auto, unfolding(crate::specs::Tokens::taken))]
    pub fn takes(&mut self, symbol: Symbol) -> bool
        ensures taken { TakesToken result self.new.tokens.now self.old.tokens.now
            (taken symbol self.old.tokens.now) }
        ensures stop { self.new.stop ≡ self.old.stop }
    {
        match self.tokens {
            [first, rest @ ..] if is_the_symbol(symbol, &first.token) => {
                self.tokens = rest;
                true
            }
            _ => false,
        }
    }

    /// Takes a reserved word, where it stands next.
    #[tactic(auto, unfolding(crate::specs::Tokens::taken_word))]
    pub fn takes_word(&mut self, word: Word) -> bool
        ensures taken { TakesToken result self.new.tokens.now self.old.tokens.now
            (taken_word word self.old.tokens.now) }
        ensures stop { self.new.stop ≡ self.old.stop }
    {
        match self.tokens {
            [first, rest @ ..] if is_the_word(word, &first.token) => {
                self.tokens = rest;
                true
            }
            _ => false,
        }
    }
}
