// What each stage of reading makes of a text, written out.
use crate::printer::{print_call, print_expr, print_program};
use crate::tokens::add_tokens;
use crate::trouble::Trouble;
use base_types::{PROGRAM_LIMIT, TypeShape};
use script_check::{Checked, check};
use script_expressions::Cursor;
use script_lexer::{Lexed, ParseFault, Symbol, tokens_of};
use script_parser::{NESTING_LIMIT, parse};
use script_tree::{CallExpr, Expr, Program};
use std::alloc::{AllocError, Global};
use test_cases::add_values;

fn lexed(alloc: Global, text: &[u8]) -> Result<Lexed, Trouble> {
    if text.len() > PROGRAM_LIMIT {
        return Err(Trouble::Refused("too long", 0));
    }
    Ok(tokens_of(alloc, text)?)
}

fn parsed(alloc: Global, text: &[u8]) -> Result<Program, Trouble> {
    if text.len() > PROGRAM_LIMIT {
        return Err(Trouble::Refused("too long", 0));
    }
    Ok(parse(alloc, text)?)
}

fn checked(alloc: Global, text: &[u8]) -> Result<Checked, Trouble> {
    let program = parsed(alloc, text)?;
    Ok(check(alloc, program)?)
}

fn add_parsed(alloc: Global, out: &mut String, text: &[u8]) -> Result<(), Trouble> {
    parsed(alloc, text)?;
    Ok(out.push_str("accepted")?)
}

// Writes `account(0) 1 1 0`.
fn add_type(out: &mut String, shape: &TypeShape) -> Result<(), AllocError> {
    out.push_str(shape.name.as_str())?;
    add_values(out, shape.initial.as_slice())?;
    for count in shape.params.as_slice() {
        write!(out, " {count}")?;
    }
    Ok(())
}

fn add_types(out: &mut String, shapes: &[TypeShape]) -> Result<(), AllocError> {
    let mut between = "";
    for shape in shapes {
        out.push_str(between)?;
        add_type(out, shape)?;
        between = "; ";
    }
    Ok(())
}

fn add_shape(out: &mut String, program: &Checked) -> Result<(), AllocError> {
    let shape = program.shape()?;
    add_types(out, shape.types.as_slice())
}

// What a word asks of a program that is accepted.
fn add_program(out: &mut String, word: &str, program: &Checked) -> Result<(), AllocError> {
    match word {
        "tree" | "body-tree" => print_program(out, program.program()),
        "shape" => add_shape(out, program),
        _ => out.push_str("accepted"),
    }
}

fn add_checked(alloc: Global, out: &mut String, word: &str, text: &[u8]) -> Result<(), Trouble> {
    let program = checked(alloc, text)?;
    Ok(add_program(out, word, &program)?)
}

fn add_listed(alloc: Global, out: &mut String, text: &[u8]) -> Result<(), Trouble> {
    let lexed = lexed(alloc, text)?;
    add_tokens(out, &lexed.tokens)?;
    Err(Trouble::from(lexed.stop))
}

/// What a cursor reads: an expression, a semicolon and a call, and what can't follow.
#[derive(Drop)]
struct Parts {
    value: Expr,
    call: CallExpr,
    stop: ParseFault,
}

fn value_at(alloc: Global, cursor: &mut Cursor<'_>) -> Result<Expr, ParseFault> {
    let value = cursor.expression(alloc, NESTING_LIMIT)?;
    cursor.expect(Symbol::Semicolon)?;
    Ok(value)
}

fn parts_at(alloc: Global, cursor: &mut Cursor<'_>) -> Result<Parts, ParseFault> {
    let value = value_at(alloc, cursor)?;
    let call = cursor.call(alloc, NESTING_LIMIT)?;
    let stop = cursor.refused();
    Ok(Parts { value, call, stop })
}

fn parts_of(alloc: Global, text: &[u8]) -> Result<Parts, Trouble> {
    let lexed = lexed(alloc, text)?;
    let mut cursor = Cursor {
        tokens: &lexed.tokens,
        stop: lexed.stop,
    };
    Ok(parts_at(alloc, &mut cursor)?)
}

fn add_parts(out: &mut String, parts: &Parts) -> Result<(), Trouble> {
    print_expr(out, &parts.value)?;
    out.push_str("; ")?;
    print_call(out, &parts.call)?;
    out.push_str("; ")?;
    Err(Trouble::from(parts.stop))
}

fn add_cursor(alloc: Global, out: &mut String, text: &[u8]) -> Result<(), Trouble> {
    let parts = parts_of(alloc, text)?;
    add_parts(out, &parts)
}

/// What a text is read as, in the way that the word says.
pub fn add_reading(
    alloc: Global,
    out: &mut String,
    word: &str,
    text: &[u8],
) -> Result<(), Trouble> {
    match word {
        "text" | "body" | "tree" | "body-tree" | "shape" => add_checked(alloc, out, word, text),
        "parse" => add_parsed(alloc, out, text),
        "tokens" => add_listed(alloc, out, text),
        "cursor" => add_cursor(alloc, out, text),
        _ => Ok(out.push_str("no such case")?),
    }
}
