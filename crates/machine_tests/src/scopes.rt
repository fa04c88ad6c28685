//! A scope with the fields `total`, `other` and `third`, of which the state has values for the first two, 10 and 20; the key
//! 4294967295; and locals that were given values in this order: `x` 1, `other` 2 and `x` 3.

use crate::settings::{first_body, parsed};
use crate::trouble::Trouble;
use base_types::Value;
use script_tree::{Chars, FieldDecl, Literal, Name, Stmt};
use script_values::{FrameLocals, Scope, Stop, assign, evaluate_all, field_number};
use std::alloc::{AllocError, Global};
use test_cases::add_values;

const FIELDS: [&str; 3] = ["total", "other", "third"];

const LOCALS: [(&str, i64); 3] = [("x", 1), ("other", 2), ("x", 3)];

fn fields_of(alloc: Global) -> Result<Vec<FieldDecl>, AllocError> {
    let mut fields = Vec::new(alloc);
    for field in FIELDS {
        let text = Chars::new(alloc, field)?;
        fields.push(FieldDecl {
            name: Name { text, at: 0 },
            initial: Literal::Int(0),
        })?;
    }
    Ok(fields)
}

fn locals_of(alloc: Global) -> Result<FrameLocals, AllocError> {
    let mut locals = FrameLocals::new(alloc);
    for (local, value) in LOCALS {
        let name = Chars::new(alloc, local)?;
        assign(&mut locals, &name, Value::Int(value))?;
    }
    Ok(locals)
}

/// What is told of a case in the scope.
pub fn told_in_scope(alloc: Global, word: &str, case: &str) -> Result<String, Trouble> {
    let fields = fields_of(alloc)?;
    let locals = locals_of(alloc)?;
    let scope = Scope {
        fields: fields.as_slice(),
        key: 4294967295,
        state: &[Value::Int(10), Value::Int(20)],
        locals: locals.as_slice(),
    };
    match word {
        "scope" => told_values(alloc, case, &scope),
        "field" => {
            let number = field_number(&Chars::new(alloc, case)?, scope.fields);
            Ok(format!(in alloc; "{number:?}")?)
        }
        _ => {
            let count = locals.len();
            Ok(format!(in alloc; "{count}")?)
        }
    }
}

// The values of these expressions, or the fault that there is in their place.
fn told_values(alloc: Global, expressions: &str, scope: &Scope) -> Result<String, Trouble> {
    let text = format!(in alloc;
        "type t {{ method m() join plain {{ call t/0.m({expressions}); }} }}"
    )?;
    let program = parsed(alloc, text.as_bytes())?;
    let Some([Stmt::Call { call }]) = first_body(&program) else {
        return Err(Trouble::Case("no expressions"));
    };
    let mut out = String::new(alloc);
    match evaluate_all(alloc, call.args.as_slice(), scope) {
        Ok(values) => add_values(&mut out, values.as_slice())?,
        Err(Stop::Fault(fault)) => {
            out.push_str("fault ")?;
            out.push_str(fault.as_str())?;
        }
        Err(Stop::Memory) => return Err(Trouble::Memory),
    }
    Ok(out)
}
