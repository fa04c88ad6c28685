ghost use Rattle.std.specs.Prelude.{◌≡◌, [], map};
ghost use Rattle.script_tree.specs.Exprs.{expr_tree};
ghost use Rattle.script_values.specs.Expressions.{value_named, value_in, values_in, between};
ghost use Rattle.script_values.specs.Stops.{GivesOrStops, LeavesOrStops};
ghost use Rattle.script_values.specs.Scopes.{surroundings};

use crate::operators::{combined, decided, prefixed_value};
use crate::reasons::Reason;
use crate::scopes::{Scope, field_number};
use crate::stops::{Stop, stop_at};
use base_types::{List, Value};
use script_check::value_of;
use script_tree::{Chars, Expr};
use std::alloc::Global;

/// What a name stands for: the parameter or local, else the field. It is a call of its own so that an expression in
/// an expression takes less stack.
#[inline(never)]
fn named(alloc: Global, name: &Chars, scope: &Scope) -> Result<Value, Stop>
    ensures { GivesOrStops result (value_named (surroundings scope.now) name.now) }
{
    if let Some(value) = scope.locals.get(name) {
        return Ok(value.copy()?);
    }
    let Some(number) = field_number(name, scope.fields) else {
        return Err(stop_at(alloc, Reason::Unknown));
    };
    match scope.state.get(number) {
        Some(value) => Ok(value.copy()?),
        None => Err(stop_at(alloc, Reason::Unknown)),
    }
}

/// The value of an expression, or the fault that ends the unit. The right operand of `&&` and `||` is evaluated
/// only where the left one doesn't decide; of the other operators both are, and then their kinds are tested.
pub fn evaluate(alloc: Global, expression: &Expr, scope: &Scope) -> Result<Value, Stop>
    ensures { GivesOrStops result (value_in (surroundings scope.now) (expr_tree expression.now)) }
{
    match expression {
        Expr::Literal(literal) => Ok(value_of(alloc, literal)?),
        Expr::Name(name) => named(alloc, &name.text, scope),
        Expr::Key => Ok(Value::Int(i64::from(scope.key))),
        Expr::Unary { op, of } => {
            let value = evaluate(alloc, of, scope)?;
            prefixed_value(alloc, *op, &value)
        }
        Expr::Binary { op, left, right } => {
            let left = evaluate(alloc, left, scope)?;
            if let Some(value) = decided(alloc, *op, &left)? {
                return Ok(value);
            }
            let right = evaluate(alloc, right, scope)?;
            combined(alloc, *op, &left, &right)
        }
    }
}

/// Puts the values of expressions, from left to right, into a list that has none yet, or answers the fault of the first
/// that has one.
#[tactic(auto, using(crate::proofs::Lists::one_more_behind))]
fn push_values(
    alloc: Global,
    values: &mut List<Value>,
    expressions: &[Expr],
    scope: &Scope,
) -> Result<(), Stop>
    requires { values.old ≡ [] }
    ensures { LeavesOrStops result values.new (values_in (surroundings scope.now) (map expr_tree expressions.now)) }
{
    for expression in expressions {
        values.push(evaluate(alloc, expression, scope)?)?;
    }
    Ok(())
}

/// The values of expressions, from left to right, or the fault of the first that has one.
pub fn evaluate_all(alloc: Global, expressions: &[Expr], scope: &Scope) -> Result<List<Value>, Stop>
    ensures { GivesOrStops result (values_in (surroundings scope.now) (map expr_tree expressions.now)) }
{
    let mut values = List::new(alloc);
    push_values(alloc, &mut values, expressions, scope)?;
    Ok(values)
}
