//! A body that the tree's own functions make: it sets a field to one more, and gives `x` the key.

use crate::printer::print_block;
use script_tree::{BinaryOp, Chars, Expr, Items, Literal, Name, Source, Stmt};
use std::alloc::{AllocError, Global};

fn name_of(alloc: Global, text: &str, at: u32) -> Result<Name, AllocError> {
    let text = Chars::new(alloc, text)?;
    Ok(Name { text, at })
}

fn sum_of(alloc: Global, field: &str) -> Result<Expr, AllocError> {
    let before = Expr::variable(name_of(alloc, field, 20)?);
    Expr::joined(alloc, BinaryOp::Add, before, Expr::literal(Literal::Int(1)))
}

// Sets the field to one more than it is.
fn setting_of(alloc: Global, field: &str) -> Result<Stmt, AllocError> {
    let name = name_of(alloc, field, 12)?;
    Ok(Stmt::set_field(name, sum_of(alloc, field)?))
}

// Gives `x` the key.
fn binding_of(alloc: Global) -> Result<Stmt, AllocError> {
    let name = name_of(alloc, "x", 32)?;
    Ok(Stmt::bind(name, Source::computed(Expr::key())))
}

fn fill(alloc: Global, body: &mut Items<Stmt>, field: &str) -> Result<(), AllocError> {
    body.push(setting_of(alloc, field)?)?;
    body.push(binding_of(alloc)?)?;
    Ok(())
}

// Writes a name's copy, its length and its place.
fn add_name(out: &mut String, name: &Name) -> Result<(), AllocError> {
    let copy = name.text.copy()?;
    let text = copy.as_str();
    let bytes = copy.len();
    let at = name.at;
    write!(out, "{text} of {bytes} bytes at {at}")
}

fn add_first(out: &mut String, body: &Items<Stmt>) -> Result<(), AllocError> {
    match body.get(0) {
        Some(Stmt::Set { name, value: _ }) => add_name(out, name),
        _ => out.push_str("no field is set"),
    }
}

/// Writes whether the body is empty, before and behind its statements, how many they are, the statements, and of the name of
/// the first one the bytes and the place.
pub fn add_built(alloc: Global, out: &mut String, field: &str) -> Result<(), AllocError> {
    let mut body = Items::new(alloc);
    let before = body.is_empty();
    fill(alloc, &mut body, field)?;
    let behind = body.is_empty();
    let count = body.len();
    write!(out, "empty: {before}, then {behind}, of {count} statements")?;
    print_block(out, " {", body.as_slice())?;
    out.push_str("; ")?;
    add_first(out, &body)
}
