// Statements and their blocks, read from tokens.
ghost use Rattle.std.specs.Prelude.{◌≡◌, ℕ, length};
ghost use Rattle.script_tree.specs.declared.expressions.Name.{Name as AName};
ghost use Rattle.script_tree.specs.Exprs.{CallTree};
ghost use Rattle.script_tree.specs.Stmts.{Try, block_tree, source_tree, stmt_tree, stmt_trees, else_tree};
ghost use Rattle.script_expressions.specs.TokenReaders.{GivesPart};
ghost use Rattle.script_parser.specs.EndedStatements.{ended_at};
ghost use Rattle.script_parser.specs.Statements.{source_at, let_at, assign_at, set_at, call_statement_at, if_at, else_at, while_at, return_at, fail_at, attempt_from, attempt_at, statement_over, statements, block};

use script_expressions::Cursor;
use script_lexer::{ParseFault, Symbol, Token, Word};
use script_tree::{Items, Name, Source, Stmt};
use std::alloc::Global;

// What a local is given: a call's answer, or an expression's value.
#[tactic(auto, unfolding(crate::specs::Statements::source_at))]
fn source(alloc: Global, cursor: &mut Cursor<'_>, depth: u8) -> Result<Source, ParseFault>
    ensures read { GivesPart source_tree result cursor.new.tokens.now
        (source_at cursor.old.stop depth cursor.old.tokens.now) }
    ensures stop { cursor.new.stop ≡ cursor.old.stop }
{
    if cursor.takes_word(Word::Call) {
        let call = cursor.call(alloc, depth)?;
        return Ok(Source::called(call));
    }
    let value = cursor.expression(alloc, depth)?;
    Ok(Source::computed(value))
}

// The statement, where a semicolon ends it.
fn ended(cursor: &mut Cursor<'_>, statement: Stmt) -> Result<Stmt, ParseFault>
    ensures read { GivesPart stmt_tree result cursor.new.tokens.now
        (ended_at cursor.old.stop (stmt_tree statement) cursor.old.tokens.now) }
    ensures stop { cursor.new.stop ≡ cursor.old.stop }
{
    match cursor.expect(Symbol::Semicolon) {
        Ok(_) => Ok(statement),
        Err(fault) => {
            drop(statement);
            Err(fault)
        }
    }
}

// Each of these stands behind its first word, or its first name.

#[tactic(auto, unfolding(crate::specs::Statements::let_at))]
fn declaration(alloc: Global, cursor: &mut Cursor<'_>, depth: u8) -> Result<Stmt, ParseFault>
    ensures read { GivesPart stmt_tree result cursor.new.tokens.now
        (let_at cursor.old.stop depth cursor.old.tokens.now) }
    ensures stop { cursor.new.stop ≡ cursor.old.stop }
{
    let name = cursor.name()?;
    cursor.expect(Symbol::Assign)?;
    let value = source(alloc, cursor, depth)?;
    ended(cursor, Stmt::bind(name, value))
}

#[tactic(auto, unfolding(crate::specs::Statements::assign_at))]
fn assignment(
    alloc: Global,
    cursor: &mut Cursor<'_>,
    depth: u8,
    name: Name,
) -> Result<Stmt, ParseFault>
    ensures read { GivesPart stmt_tree result cursor.new.tokens.now
        (assign_at cursor.old.stop depth name cursor.old.tokens.now) }
    ensures stop { cursor.new.stop ≡ cursor.old.stop }
{
    cursor.expect(Symbol::Assign)?;
    let value = source(alloc, cursor, depth)?;
    ended(cursor, Stmt::rebind(name, value))
}

#[tactic(auto, unfolding(crate::specs::Statements::set_at))]
fn field_write(alloc: Global, cursor: &mut Cursor<'_>, depth: u8) -> Result<Stmt, ParseFault>
    ensures read { GivesPart stmt_tree result cursor.new.tokens.now
        (set_at cursor.old.stop depth cursor.old.tokens.now) }
    ensures stop { cursor.new.stop ≡ cursor.old.stop }
{
    let name = cursor.name()?;
    cursor.expect(Symbol::Assign)?;
    let value = cursor.expression(alloc, depth)?;
    ended(cursor, Stmt::set_field(name, value))
}

#[tactic(auto, unfolding(crate::specs::Statements::call_statement_at))]
fn call_statement(alloc: Global, cursor: &mut Cursor<'_>, depth: u8) -> Result<Stmt, ParseFault>
    ensures read { GivesPart stmt_tree result cursor.new.tokens.now
        (call_statement_at cursor.old.stop depth cursor.old.tokens.now) }
    ensures stop { cursor.new.stop ≡ cursor.old.stop }
{
    let call = cursor.call(alloc, depth)?;
    ended(cursor, Stmt::perform(call))
}

#[tactic(auto, unfolding(crate::specs::Statements::return_at))]
fn answer(alloc: Global, cursor: &mut Cursor<'_>, depth: u8) -> Result<Stmt, ParseFault>
    ensures read { GivesPart stmt_tree result cursor.new.tokens.now
        (return_at cursor.old.stop depth cursor.old.tokens.now) }
    ensures stop { cursor.new.stop ≡ cursor.old.stop }
{
    let value = cursor.expression(alloc, depth)?;
    ended(cursor, Stmt::give(value))
}

#[tactic(auto, unfolding(crate::specs::Statements::fail_at))]
fn failure(cursor: &mut Cursor<'_>) -> Result<Stmt, ParseFault>
    ensures read { GivesPart stmt_tree result cursor.new.tokens.now
        (fail_at cursor.old.stop cursor.old.tokens.now) }
    ensures stop { cursor.new.stop ≡ cursor.old.stop }
{
    let text = cursor.text()?;
    ended(cursor, Stmt::fail_with(text))
}

#[cycle(block)]
#[tactic(auto, unfolding(crate::specs::Statements::if_at))]
fn choice(alloc: Global, cursor: &mut Cursor<'_>, depth: u8) -> Result<Stmt, ParseFault>
    ensures read { GivesPart stmt_tree result cursor.new.tokens.now
        (if_at cursor.old.stop depth (block cursor.old.stop depth) cursor.old.tokens.now) }
    ensures stop { cursor.new.stop ≡ cursor.old.stop }
{
    let test = cursor.expression(alloc, depth)?;
    let then = read_block(alloc, cursor, depth)?;
    let other = other_block(alloc, cursor, depth)?;
    Ok(Stmt::choose(test, then, other))
}

#[cycle(block)]
#[tactic(auto, unfolding(crate::specs::Statements::else_at))]
fn other_block(
    alloc: Global,
    cursor: &mut Cursor<'_>,
    depth: u8,
) -> Result<Option<Items<Stmt>>, ParseFault>
    ensures read { GivesPart else_tree result cursor.new.tokens.now
        (else_at cursor.old.stop (block cursor.old.stop depth) cursor.old.tokens.now) }
    ensures stop { cursor.new.stop ≡ cursor.old.stop }
{
    if !cursor.takes_word(Word::Else) {
        return Ok(None);
    }
    let other = read_block(alloc, cursor, depth)?;
    Ok(Some(other))
}

#[cycle(block)]
#[tactic(auto, unfolding(crate::specs::Statements::while_at))]
fn repetition(alloc: Global, cursor: &mut Cursor<'_>, depth: u8) -> Result<Stmt, ParseFault>
    ensures read { GivesPart stmt_tree result cursor.new.tokens.now
        (while_at cursor.old.stop depth (block cursor.old.stop depth) cursor.old.tokens.now) }
    ensures stop { cursor.new.stop ≡ cursor.old.stop }
{
    let test = cursor.expression(alloc, depth)?;
    let body = read_block(alloc, cursor, depth)?;
    Ok(Stmt::repeat(test, body))
}

#[cycle(block)]
#[tactic(auto, unfolding(crate::specs::Statements::attempt_at))]
fn attempt(alloc: Global, cursor: &mut Cursor<'_>, depth: u8, at: u32) -> Result<Stmt, ParseFault>
    ensures read { GivesPart stmt_tree result cursor.new.tokens.now
        (attempt_at cursor.old.stop depth (block cursor.old.stop depth) at cursor.old.tokens.now) }
    ensures stop { cursor.new.stop ≡ cursor.old.stop }
{
    let name = cursor.name()?;
    cursor.expect(Symbol::Assign)?;
    cursor.expect_word(Word::Call)?;
    let call = cursor.call(alloc, depth)?;
    match attempt_blocks(alloc, cursor, depth) {
        Ok((then, other)) => Ok(Stmt::attempt(at, name, call, then, other)),
        Err(fault) => {
            drop(name);
            drop(call);
            Err(fault)
        }
    }
}

// The two blocks of an attempt, behind its call: wherever it stands, whatever it calls and whatever gets the answer.
#[cycle(block)]
fn attempt_blocks(
    alloc: Global,
    cursor: &mut Cursor<'_>,
    depth: u8,
) -> Result<(Items<Stmt>, Items<Stmt>), ParseFault>
    ensures read { (at : ℕ) (name : AName) (call : CallTree) → GivesPart
        (λ blocks. Try at name call (block_tree (stmt_trees blocks.0.list.items)) (block_tree (stmt_trees blocks.1.list.items)))
        result cursor.new.tokens.now (attempt_from cursor.old.stop (block cursor.old.stop depth) at name call cursor.old.tokens.now) }
    ensures stop { cursor.new.stop ≡ cursor.old.stop }
{
    let then = read_block(alloc, cursor, depth)?;
    cursor.expect_word(Word::Else)?;
    let other = read_block(alloc, cursor, depth)?;
    Ok((then, other))
}

#[cycle(block)]
#[tactic(auto, unfolding(crate::specs::Statements::statement_over))]
fn statement(alloc: Global, cursor: &mut Cursor<'_>, depth: u8) -> Result<Stmt, ParseFault>
    ensures read { GivesPart stmt_tree result cursor.new.tokens.now
        (statement_over cursor.old.stop depth (block cursor.old.stop depth) cursor.old.tokens.now) }
    ensures stop { cursor.new.stop ≡ cursor.old.stop }
{
    let [first, rest @ ..] = cursor.tokens else {
        return Err(cursor.stop);
    };
    let at = first.at;
    cursor.tokens = rest;
    match &first.token {
        Token::Name(text) => {
            let text = text.copy()?;
            assignment(alloc, cursor, depth, Name { text, at })
        }
        Token::Word(Word::Let) => declaration(alloc, cursor, depth),
        Token::Word(Word::Set) => field_write(alloc, cursor, depth),
        Token::Word(Word::Call) => call_statement(alloc, cursor, depth),
        Token::Word(Word::If) => choice(alloc, cursor, depth),
        Token::Word(Word::While) => repetition(alloc, cursor, depth),
        Token::Word(Word::Return) => answer(alloc, cursor, depth),
        Token::Word(Word::Fail) => failure(cursor),
        Token::Word(Word::Attempt) => attempt(alloc, cursor, depth, at),
        _ => Err(ParseFault::Unexpected { at }),
    }
}

/// A block: statements in braces. As many as `depth` more braces, parentheses and prefix operators may be open.
#[cycle(block)]
#[tactic(auto, unfolding(crate::specs::Statements::block))]
pub(crate) fn read_block(
    alloc: Global,
    cursor: &mut Cursor<'_>,
    depth: u8,
) -> Result<Items<Stmt>, ParseFault>
    ensures read { GivesPart (λ body. stmt_trees body.list.items) result cursor.new.tokens.now
        (block cursor.old.stop depth cursor.old.tokens.now) }
    ensures stop { cursor.new.stop ≡ cursor.old.stop }
{
    let at = cursor.expect(Symbol::LeftBrace)?;
    if depth == 0 {
        return Err(ParseFault::TooDeep { at });
    }
    read_statements(alloc, cursor, depth - 1)
}

// Statements up to a closing brace, and that brace.
#[cycle(block)]
#[tactic(auto, unfolding(crate::specs::Statements::statements))]
fn read_statements(
    alloc: Global,
    cursor: &mut Cursor<'_>,
    depth: u8,
) -> Result<Items<Stmt>, ParseFault>
    ensures read { GivesPart (λ body. stmt_trees body.list.items) result cursor.new.tokens.now
        (statements cursor.old.stop (statement_over cursor.old.stop depth (block cursor.old.stop depth))
        (length cursor.old.tokens.now) cursor.old.tokens.now) }
    ensures stop { cursor.new.stop ≡ cursor.old.stop }
{
    let mut found = Items::new(alloc);
    for turn in 0..cursor.tokens.len() {
        if cursor.takes(Symbol::RightBrace) {
            return Ok(found);
        }
        let one = statement(alloc, cursor, depth)?;
        found.push(one)?;
    }
    Err(cursor.refused())
}
