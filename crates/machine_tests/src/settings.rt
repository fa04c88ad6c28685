use crate::trouble::Trouble;
use base_types::{Call, GrainId, List, Outcome, STATE_LIMIT, State, Store, Value};
use script_check::{Checked, check, fitted};
use script_parser::parse;
use script_tree::{CallExpr, Chars, Expr, Literal, Program, Stmt, TypeDecl, UnaryOp};
use std::alloc::Global;

/// What a case gives: a call, the depth of its first frame, what the store has, and how the units that the call asks for
/// end, in order.
#[derive(Drop)]
pub struct Setting {
    pub call: Call,
    pub depth: u16,
    pub store: Store,
    pub answers: Vec<Outcome>,
}

/// The tree that a text is, checked or not.
pub fn parsed(alloc: Global, text: &[u8]) -> Result<Program, Trouble> {
    if text.len() > 262144 {
        return Err(Trouble::Case("a text too long"));
    }
    let program = parse(alloc, text).map_err(|_| "no program")?;
    Ok(program)
}

/// The program that a text is.
pub fn program_of(alloc: Global, text: &str) -> Result<Checked, Trouble> {
    let program = parsed(alloc, text.as_bytes())?;
    let checked = check(alloc, program).map_err(|_| "refused")?;
    Ok(checked)
}

// A number, with its sign, or a text.
fn value_of(alloc: Global, expression: &Expr) -> Result<Value, Trouble> {
    match expression {
        Expr::Literal(Literal::Int(number)) => Ok(Value::Int(*number)),
        Expr::Literal(Literal::Chars(text)) => Ok(Value::Text(fitted(alloc, text)?)),
        Expr::Unary {
            op: UnaryOp::Minus,
            of,
        } => negative_of(of),
        _ => Err(Trouble::Case("no value")),
    }
}

fn negative_of(expression: &Expr) -> Result<Value, Trouble> {
    match expression {
        Expr::Literal(Literal::Int(number)) => Ok(Value::Int(number.saturating_neg())),
        _ => Err(Trouble::Case("no number")),
    }
}

fn values_of(alloc: Global, expressions: &[Expr]) -> Result<List<Value>, Trouble> {
    let mut values = List::new(alloc);
    for expression in expressions {
        values.push(value_of(alloc, expression)?)?;
    }
    Ok(values)
}

fn number_of(alloc: Global, expression: &Expr) -> Result<u32, Trouble> {
    let Value::Int(number) = value_of(alloc, expression)? else {
        return Err(Trouble::Case("no number"));
    };
    let number = u32::try_from(number).map_err(|_| "no such number")?;
    Ok(number)
}

// The number of the type of this name.
fn type_number(program: &Checked, name: &Chars) -> Result<u16, Trouble> {
    for (i, one) in program.program().types.as_slice().iter().enumerate() {
        if one.name.text.as_str() == name.as_str() {
            let number = u16::try_from(i).map_err(|_| "too many types")?;
            return Ok(number);
        }
    }
    Err(Trouble::Case("no such type"))
}

// The number of the method of this name.
fn method_number(of_type: &TypeDecl, name: &Chars) -> Result<u16, Trouble> {
    for (i, one) in of_type.methods.as_slice().iter().enumerate() {
        if one.name.text.as_str() == name.as_str() {
            let number = u16::try_from(i).map_err(|_| "too many methods")?;
            return Ok(number);
        }
    }
    Err(Trouble::Case("no such method"))
}

fn grain_of(alloc: Global, program: &Checked, call: &CallExpr) -> Result<GrainId, Trouble> {
    let kind = type_number(program, &call.target.text)?;
    let key = number_of(alloc, &call.place)?;
    Ok(GrainId { kind, key })
}

fn call_of(alloc: Global, program: &Checked, call: &CallExpr) -> Result<Call, Trouble> {
    let grain = grain_of(alloc, program, call)?;
    let of_type = program
        .program()
        .types
        .get(usize::from(grain.kind))
        .ok_or("no type")?;
    let method = method_number(of_type, &call.method.text)?;
    let args = values_of(alloc, call.args.as_slice())?;
    Ok(Call {
        grain,
        method,
        args,
    })
}

impl Setting {
    // Takes up what one statement gives.
    fn add(&mut self, alloc: Global, program: &Checked, given: &Stmt) -> Result<(), Trouble> {
        match given {
            Stmt::Call { call } => self.hold(alloc, program, call),
            Stmt::Return { value } => {
                self.answers.push(Outcome::Value(value_of(alloc, value)?))?;
                Ok(())
            }
            Stmt::Fail { text } => {
                self.answers.push(Outcome::Fault(fitted(alloc, text)?))?;
                Ok(())
            }
            Stmt::Let { .. } => {
                self.answers.push(Outcome::Aborted)?;
                Ok(())
            }
            Stmt::Set { name: _, value } => {
                let depth = number_of(alloc, value)?;
                self.depth = u16::try_from(depth).map_err(|_| "too deep")?;
                Ok(())
            }
            _ => Err(Trouble::Case("no such setting")),
        }
    }

    fn hold(&mut self, alloc: Global, program: &Checked, call: &CallExpr) -> Result<(), Trouble> {
        let grain = grain_of(alloc, program, call)?;
        let values = values_of(alloc, call.args.as_slice())?;
        if values.len() > STATE_LIMIT {
            return Err(Trouble::Case("too many values"));
        }
        self.store.put(grain, State::from_list(values))?;
        Ok(())
    }
}

/// The body of the first method of a program's first type.
pub fn first_body(program: &Program) -> Option<&[Stmt]> {
    let of_type = program.types.get(0)?;
    let method = of_type.methods.get(0)?;
    Some(method.body.as_slice())
}

/// What a case gives, whose call is written as in a program, as `account/1.deposit(5)`. What goes with it is written as
/// statements: `call account/1.holds(100);` for what the store has, `set depth = 2;` for the depth, which is else 1,
/// and for the units that are asked for, in order, `return 5;` for a value, `fail "funds";` for a fault and
/// `let aborted = 1;` for an abort.
pub fn setting_of(
    alloc: Global,
    program: &Checked,
    call: &str,
    given: &str,
) -> Result<Setting, Trouble> {
    let text = format!(in alloc; "type t {{ method m() join plain {{ call {call}; {given} }} }}")?;
    let read = parsed(alloc, text.as_bytes())?;
    let Some([Stmt::Call { call }, given @ ..]) = first_body(&read) else {
        return Err(Trouble::Case("no call"));
    };
    let mut setting = Setting {
        call: call_of(alloc, program, call)?,
        depth: 1,
        store: Store::new(alloc),
        answers: Vec::new(alloc),
    };
    for one in given {
        setting.add(alloc, program, one)?;
    }
    Ok(setting)
}
