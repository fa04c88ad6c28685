ghost use Rattle.std.specs.Prelude.{◌≡◌, length, map};
ghost use Rattle.script_tree.specs.Programs.{method_tree, type_tree};
ghost use Rattle.script_expressions.specs.TokenReaders.{GivesPart};
ghost use Rattle.script_lexer.specs.declared.tokens.Word.TheVariants as word;
ghost use Rattle.script_parser.specs.Methods.{method_at};
ghost use Rattle.script_parser.specs.Types.{initial_at, number_at, field_at, repeated, type_at};

use crate::methods::read_method;
use script_expressions::Cursor;
use script_lexer::{ParseFault, Symbol, Token, Word};
use script_tree::{FieldDecl, Items, Literal, Method, TypeDecl};
use std::alloc::Global;

// A number that must stand next, with its sign turned.
#[tactic(auto, unfolding(crate::specs::Types::number_at))]
fn negative(cursor: &mut Cursor<'_>) -> Result<Literal, ParseFault>
    ensures read { GivesPart (λ x. x) result cursor.new.tokens.now
        (number_at cursor.old.stop cursor.old.tokens.now) }
    ensures stop { cursor.new.stop ≡ cursor.old.stop }
{
    let [first, rest @ ..] = cursor.tokens else {
        return Err(cursor.stop);
    };
    match &first.token {
        Token::Int(number) => {
            cursor.tokens = rest;
            Ok(Literal::Int(number.wrapping_neg()))
        }
        _ => Err(ParseFault::Unexpected { at: first.at }),
    }
}

// What a field has at first: a number, which may have a sign, or a text.
#[tactic(auto, unfolding(crate::specs::Types::initial_at))]
fn initial(cursor: &mut Cursor<'_>) -> Result<Literal, ParseFault>
    ensures read { GivesPart (λ x. x) result cursor.new.tokens.now
        (initial_at cursor.old.stop cursor.old.tokens.now) }
    ensures stop { cursor.new.stop ≡ cursor.old.stop }
{
    let [first, rest @ ..] = cursor.tokens else {
        return Err(cursor.stop);
    };
    match &first.token {
        Token::Int(number) => {
            cursor.tokens = rest;
            Ok(Literal::Int(*number))
        }
        Token::Text(text) => {
            let text = text.copy()?;
            cursor.tokens = rest;
            Ok(Literal::Chars(text))
        }
        Token::Symbol(Symbol::Minus) => {
            cursor.tokens = rest;
            negative(cursor)
        }
        _ => Err(ParseFault::Unexpected { at: first.at }),
    }
}

// A field, behind its first word.
#[tactic(auto, unfolding(crate::specs::Types::field_at))]
fn field(cursor: &mut Cursor<'_>) -> Result<FieldDecl, ParseFault>
    ensures read { GivesPart (λ x. x) result cursor.new.tokens.now
        (field_at cursor.old.stop cursor.old.tokens.now) }
    ensures stop { cursor.new.stop ≡ cursor.old.stop }
{
    let name = cursor.name()?;
    cursor.expect(Symbol::Assign)?;
    let initial = initial(cursor)?;
    cursor.expect(Symbol::Semicolon)?;
    Ok(FieldDecl { name, initial })
}

// The fields that stand next.
#[tactic(auto, unfolding(crate::specs::Types::repeated))]
fn fields(alloc: Global, cursor: &mut Cursor<'_>) -> Result<Items<FieldDecl>, ParseFault>
    ensures read { GivesPart (λ found. found.list.items) result cursor.new.tokens.now
        (repeated word.Field (field_at cursor.old.stop) (length cursor.old.tokens.now) cursor.old.tokens.now) }
    ensures stop { cursor.new.stop ≡ cursor.old.stop }
{
    let mut found = Items::new(alloc);
    for turn in 0..cursor.tokens.len() {
        if !cursor.takes_word(Word::Field) {
            return Ok(found);
        }
        let one = field(cursor)?;
        found.push(one)?;
    }
    Ok(found)
}

// The methods that stand next.
#[tactic(auto, unfolding(crate::specs::Types::repeated))]
fn methods(alloc: Global, cursor: &mut Cursor<'_>, depth: u8) -> Result<Items<Method>, ParseFault>
    ensures read { GivesPart (λ found. map method_tree found.list.items) result cursor.new.tokens.now
        (repeated word.Method (method_at cursor.old.stop depth) (length cursor.old.tokens.now) cursor.old.tokens.now) }
    ensures stop { cursor.new.stop ≡ cursor.old.stop }
{
    let mut found = Items::new(alloc);
    for turn in 0..cursor.tokens.len() {
        if !cursor.takes_word(Word::Method) {
            return Ok(found);
        }
        let one = read_method(alloc, cursor, depth)?;
        found.push(one)?;
    }
    Ok(found)
}

// A type, behind its first word. As many as `depth` more braces, parentheses and prefix operators may be open.
#[tactic(auto, unfolding(crate::specs::Types::type_at))]
fn read_type(alloc: Global, cursor: &mut Cursor<'_>, depth: u8) -> Result<TypeDecl, ParseFault>
    ensures read { GivesPart type_tree result cursor.new.tokens.now
        (type_at cursor.old.stop depth cursor.old.tokens.now) }
    ensures stop { cursor.new.stop ≡ cursor.old.stop }
{
    let name = cursor.name()?;
    let at = cursor.expect(Symbol::LeftBrace)?;
    if depth == 0 {
        return Err(ParseFault::TooDeep { at });
    }
    let fields = fields(alloc, cursor)?;
    let methods = methods(alloc, cursor, depth - 1)?;
    cursor.expect(Symbol::RightBrace)?;
    Ok(TypeDecl::new(name, fields, methods))
}

/// The types that stand next.
#[tactic(auto, unfolding(crate::specs::Types::repeated))]
pub(crate) fn types(
    alloc: Global,
    cursor: &mut Cursor<'_>,
    depth: u8,
) -> Result<Items<TypeDecl>, ParseFault>
    ensures read { GivesPart (λ found. map type_tree found.list.items) result cursor.new.tokens.now
        (repeated word.Type (type_at cursor.old.stop depth) (length cursor.old.tokens.now) cursor.old.tokens.now) }
    ensures stop { cursor.new.stop ≡ cursor.old.stop }
{
    let mut found = Items::new(alloc);
    for turn in 0..cursor.tokens.len() {
        if !cursor.takes_word(Word::Type) {
            return Ok(found);
        }
        let one = read_type(alloc, cursor, depth)?;
        found.push(one)?;
    }
    Ok(found)
}
