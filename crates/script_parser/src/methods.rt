// Methods, read from tokens.
ghost use Rattle.std.specs.Prelude.{◌≡◌, length, bytes_eq};
ghost use Rattle.script_tree.specs.Stmts.{stmt_trees, block_tree};
ghost use Rattle.script_tree.specs.Programs.{method_tree};
ghost use Rattle.script_expressions.specs.TokenReaders.{GivesPart};
ghost use Rattle.script_expressions.specs.Tokens.{name_at};
ghost use Rattle.script_expressions.specs.Calls.{listed};
ghost use Rattle.script_parser.specs.Methods.{option_word, kind_word, option_named, kind_named, option_at, kind_at, params_at, method_at};

use crate::statements::read_block;
use script_expressions::Cursor;
use script_lexer::{ParseFault, Symbol, Token};
use script_tree::{Chars, Items, Method, MethodKind, Name, TxnOption};
use std::alloc::Global;

const OPTIONS: [TxnOption; 6] = [
    TxnOption::Create,
    TxnOption::Join,
    TxnOption::CreateOrJoin,
    TxnOption::Suppress,
    TxnOption::Supported,
    TxnOption::NotAllowed,
];

const KINDS: [MethodKind; 3] = [MethodKind::Read, MethodKind::Update, MethodKind::Plain];

fn word_of_option(option: TxnOption) -> &'static str
    ensures { result.now ≡ option_word option }
{
    match option {
        TxnOption::Create => "create",
        TxnOption::Join => "join",
        TxnOption::CreateOrJoin => "createorjoin",
        TxnOption::Suppress => "suppress",
        TxnOption::Supported => "supported",
        TxnOption::NotAllowed => "notallowed",
    }
}

fn word_of_kind(kind: MethodKind) -> &'static str
    ensures { result.now ≡ kind_word kind }
{
    match kind {
        MethodKind::Read => "read",
        MethodKind::Update => "update",
        MethodKind::Plain => "plain",
    }
}

fn names_option(option: TxnOption, name: &Chars) -> bool
    ensures { result ≡ bytes_eq (option_word option) name.now }
{
    word_of_option(option).as_bytes() == name.as_str().as_bytes()
}

fn names_kind(kind: MethodKind, name: &Chars) -> bool
    ensures { result ≡ bytes_eq (kind_word kind) name.now }
{
    word_of_kind(kind).as_bytes() == name.as_str().as_bytes()
}

fn option_of(name: &Chars) -> Option<TxnOption>
    ensures { result ≡ option_named name.now }
{
    OPTIONS.iter().find(|o| names_option(**o, name)).map(|o| *o)
}

fn kind_of(name: &Chars) -> Option<MethodKind>
    ensures { result ≡ kind_named name.now }
{
    KINDS.iter().find(|k| names_kind(**k, name)).map(|k| *k)
}

// An option's word, and its place.
#[tactic(auto, unfolding(crate::specs::Methods::option_at))]
fn option(cursor: &mut Cursor<'_>) -> Result<(TxnOption, u32), ParseFault>
    ensures read { GivesPart (λ x. (x.0, x.1)) result cursor.new.tokens.now
        (option_at cursor.old.stop cursor.old.tokens.now) }
    ensures stop { cursor.new.stop ≡ cursor.old.stop }
{
    let [first, rest @ ..] = cursor.tokens else {
        return Err(cursor.stop);
    };
    let at = first.at;
    let Token::Name(name) = &first.token else {
        return Err(ParseFault::Unexpected { at });
    };
    match option_of(name) {
        Some(option) => {
            cursor.tokens = rest;
            Ok((option, at))
        }
        None => Err(ParseFault::Unexpected { at }),
    }
}

// A kind's word.
#[tactic(auto, unfolding(crate::specs::Methods::kind_at))]
fn kind(cursor: &mut Cursor<'_>) -> Result<MethodKind, ParseFault>
    ensures read { GivesPart (λ x. x) result cursor.new.tokens.now
        (kind_at cursor.old.stop cursor.old.tokens.now) }
    ensures stop { cursor.new.stop ≡ cursor.old.stop }
{
    let [first, rest @ ..] = cursor.tokens else {
        return Err(cursor.stop);
    };
    let at = first.at;
    let Token::Name(name) = &first.token else {
        return Err(ParseFault::Unexpected { at });
    };
    match kind_of(name) {
        Some(kind) => {
            cursor.tokens = rest;
            Ok(kind)
        }
        None => Err(ParseFault::Unexpected { at }),
    }
}

// Names with commas between them, and the parenthesis behind the last.
#[tactic(auto, unfolding(script_expressions::specs::Calls::listed))]
fn names(alloc: Global, cursor: &mut Cursor<'_>) -> Result<Items<Name>, ParseFault>
    ensures read { GivesPart (λ found. found.list.items) result cursor.new.tokens.now
        (listed cursor.old.stop (name_at cursor.old.stop) (length cursor.old.tokens.now) cursor.old.tokens.now) }
    ensures stop { cursor.new.stop ≡ cursor.old.stop }
{
    let mut found = Items::new(alloc);
    for turn in 0..cursor.tokens.len() {
        let one = cursor.name()?;
        found.push(one)?;
        if cursor.takes(Symbol::RightParen) {
            return Ok(found);
        }
        cursor.expect(Symbol::Comma)?;
    }
    Err(cursor.refused())
}

// The parameters in their parentheses.
#[tactic(auto, unfolding(crate::specs::Methods::params_at))]
fn params(alloc: Global, cursor: &mut Cursor<'_>, depth: u8) -> Result<Items<Name>, ParseFault>
    ensures read { GivesPart (λ found. found.list.items) result cursor.new.tokens.now
        (params_at cursor.old.stop depth cursor.old.tokens.now) }
    ensures stop { cursor.new.stop ≡ cursor.old.stop }
{
    let at = cursor.expect(Symbol::LeftParen)?;
    if depth == 0 {
        return Err(ParseFault::TooDeep { at });
    }
    if cursor.takes(Symbol::RightParen) {
        return Ok(Items::new(alloc));
    }
    names(alloc, cursor)
}

/// A method, behind its first word. As many as `depth` more braces, parentheses and prefix operators may be open.
#[tactic(auto, unfolding(crate::specs::Methods::method_at))]
pub(crate) fn read_method(
    alloc: Global,
    cursor: &mut Cursor<'_>,
    depth: u8,
) -> Result<Method, ParseFault>
    ensures read { GivesPart method_tree result cursor.new.tokens.now
        (method_at cursor.old.stop depth cursor.old.tokens.now) }
    ensures stop { cursor.new.stop ≡ cursor.old.stop }
{
    let name = cursor.name()?;
    let params = params(alloc, cursor, depth)?;
    let (option, option_at) = option(cursor)?;
    let kind = kind(cursor)?;
    let body = read_block(alloc, cursor, depth)?;
    Ok(Method::new(name, params, option, option_at, kind, body))
}
