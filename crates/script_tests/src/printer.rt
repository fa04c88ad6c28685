//! Trees, written as programs: one blank between what stands apart, and parentheses around each operator and its operands.

use script_tree::{
    BinaryOp, CallExpr, Expr, FieldDecl, Literal, Method, MethodKind, Name, Program, Source, Stmt,
    TxnOption, TypeDecl, UnaryOp,
};
use std::alloc::AllocError;

// Writes these parts one behind the other.
fn add(out: &mut String, parts: &[&str]) -> Result<(), AllocError> {
    for part in parts {
        out.push_str(*part)?;
    }
    Ok(())
}

fn sign_of(op: BinaryOp) -> &'static str {
    match op {
        BinaryOp::Add => " + ",
        BinaryOp::Sub => " - ",
        BinaryOp::Mul => " * ",
        BinaryOp::Div => " / ",
        BinaryOp::Rem => " % ",
        BinaryOp::Lt => " < ",
        BinaryOp::Le => " <= ",
        BinaryOp::Gt => " > ",
        BinaryOp::Ge => " >= ",
        BinaryOp::Eq => " == ",
        BinaryOp::Ne => " != ",
        BinaryOp::And => " && ",
        BinaryOp::Or => " || ",
    }
}

fn prefix_of(op: UnaryOp) -> &'static str {
    match op {
        UnaryOp::Minus => "(-",
        UnaryOp::Not => "(!",
    }
}

fn word_of(option: TxnOption) -> &'static str {
    match option {
        TxnOption::Create => ") create ",
        TxnOption::Join => ") join ",
        TxnOption::CreateOrJoin => ") createorjoin ",
        TxnOption::Suppress => ") suppress ",
        TxnOption::Supported => ") supported ",
        TxnOption::NotAllowed => ") notallowed ",
    }
}

fn kind_of(kind: MethodKind) -> &'static str {
    match kind {
        MethodKind::Read => "read {",
        MethodKind::Update => "update {",
        MethodKind::Plain => "plain {",
    }
}

fn print_literal(out: &mut String, literal: &Literal) -> Result<(), AllocError> {
    match literal {
        Literal::Int(number) => write!(out, "{number}"),
        Literal::Chars(text) => add(out, &["\"", text.as_str(), "\""]),
    }
}

/// Writes an expression.
pub fn print_expr(out: &mut String, value: &Expr) -> Result<(), AllocError> {
    match value {
        Expr::Literal(literal) => print_literal(out, literal),
        Expr::Name(name) => add(out, &[name.text.as_str()]),
        Expr::Key => add(out, &["key"]),
        Expr::Unary { op, of } => {
            add(out, &[prefix_of(*op)])?;
            print_expr(out, of)?;
            add(out, &[")"])
        }
        Expr::Binary { op, left, right } => {
            add(out, &["("])?;
            print_expr(out, left)?;
            add(out, &[sign_of(*op)])?;
            print_expr(out, right)?;
            add(out, &[")"])
        }
    }
}

fn print_args(out: &mut String, args: &[Expr]) -> Result<(), AllocError> {
    let mut between = "";
    for arg in args {
        add(out, &[between])?;
        print_expr(out, arg)?;
        between = ", ";
    }
    Ok(())
}

/// Writes a call.
pub fn print_call(out: &mut String, call: &CallExpr) -> Result<(), AllocError> {
    add(out, &["call ", call.target.text.as_str(), "/"])?;
    print_expr(out, &call.place)?;
    add(out, &[".", call.method.text.as_str(), "("])?;
    print_args(out, call.args.as_slice())?;
    add(out, &[")"])
}

fn print_source(out: &mut String, value: &Source) -> Result<(), AllocError> {
    match value {
        Source::Expr(value) => print_expr(out, value),
        Source::Call(call) => print_call(out, call),
    }
}

fn print_given(
    out: &mut String,
    word: &str,
    name: &Name,
    value: &Source,
) -> Result<(), AllocError> {
    add(out, &[word, name.text.as_str(), " = "])?;
    print_source(out, value)?;
    add(out, &[";"])
}

fn print_set(out: &mut String, name: &Name, value: &Expr) -> Result<(), AllocError> {
    add(out, &[" set ", name.text.as_str(), " = "])?;
    print_expr(out, value)?;
    add(out, &[";"])
}

fn print_perform(out: &mut String, call: &CallExpr) -> Result<(), AllocError> {
    add(out, &[" "])?;
    print_call(out, call)?;
    add(out, &[";"])
}

// An expression, between these.
fn print_between(
    out: &mut String,
    front: &str,
    value: &Expr,
    back: &str,
) -> Result<(), AllocError> {
    add(out, &[front])?;
    print_expr(out, value)?;
    add(out, &[back])
}

fn print_tried(out: &mut String, name: &Name, call: &CallExpr) -> Result<(), AllocError> {
    add(out, &[" attempt ", name.text.as_str(), " = "])?;
    print_call(out, call)
}

#[cycle(printing)]
fn print_statement(out: &mut String, statement: &Stmt) -> Result<(), AllocError> {
    match statement {
        Stmt::Let { name, value } => print_given(out, " let ", name, value),
        Stmt::Assign { name, value } => print_given(out, " ", name, value),
        Stmt::Set { name, value } => print_set(out, name, value),
        Stmt::Call { call } => print_perform(out, call),
        Stmt::If { test, then, other } => {
            print_between(out, " if ", test, " ")?;
            print_block(out, "{", then.as_slice())?;
            match other {
                None => Ok(()),
                Some(other) => print_block(out, " else {", other.as_slice()),
            }
        }
        Stmt::While { test, body } => {
            print_between(out, " while ", test, " ")?;
            print_block(out, "{", body.as_slice())
        }
        Stmt::Return { value } => print_between(out, " return ", value, ";"),
        Stmt::Fail { text } => add(out, &[" fail \"", text.as_str(), "\";"]),
        Stmt::Attempt {
            at: _,
            name,
            call,
            then,
            other,
        } => {
            print_tried(out, name, call)?;
            print_block(out, " {", then.as_slice())?;
            print_block(out, " else {", other.as_slice())
        }
    }
}

/// Writes statements in their braces, the first of which is given.
#[cycle(printing)]
pub fn print_block(out: &mut String, opening: &str, body: &[Stmt]) -> Result<(), AllocError> {
    add(out, &[opening])?;
    for statement in body {
        print_statement(out, statement)?;
    }
    add(out, &[" }"])
}

fn print_field(out: &mut String, field: &FieldDecl) -> Result<(), AllocError> {
    add(out, &[" field ", field.name.text.as_str(), " = "])?;
    print_literal(out, &field.initial)?;
    add(out, &[";"])
}

fn print_params(out: &mut String, params: &[Name]) -> Result<(), AllocError> {
    let mut between = "";
    for param in params {
        add(out, &[between, param.text.as_str()])?;
        between = ", ";
    }
    Ok(())
}

fn print_method(out: &mut String, method: &Method) -> Result<(), AllocError> {
    add(out, &[" method ", method.name.text.as_str(), "("])?;
    print_params(out, method.params.as_slice())?;
    add(out, &[word_of(method.option)])?;
    print_block(out, kind_of(method.kind), method.body.as_slice())
}

fn print_type(out: &mut String, of_type: &TypeDecl) -> Result<(), AllocError> {
    add(out, &["type ", of_type.name.text.as_str(), " {"])?;
    for field in of_type.fields.as_slice() {
        print_field(out, field)?;
    }
    for method in of_type.methods.as_slice() {
        print_method(out, method)?;
    }
    add(out, &[" }"])
}

/// Writes a program on one line.
pub fn print_program(out: &mut String, program: &Program) -> Result<(), AllocError> {
    let mut between = "";
    for of_type in program.types.as_slice() {
        add(out, &[between])?;
        print_type(out, of_type)?;
        between = " ";
    }
    Ok(())
}
