ghost use Rattle.std.specs.Prelude.{◌≡◌, map};
ghost use Rattle.script_tree.specs.Exprs.{call_tree, expr_tree};
ghost use Rattle.script_tree.specs.Stmts.{source_tree, stmt_tree, stmt_trees, block_tree};
ghost use Rattle.script_scopes.specs.FirstFaults.{Answers, Leaves, ◌<|>◌};
ghost use Rattle.script_scopes.specs.Names.{local_fault, assigned_fault, set_fault};
ghost use Rattle.script_scopes.specs.Expressions.{call_fault, expression_fault};
ghost use Rattle.script_scopes.specs.Statements.{source_fault, statement_fault, block_fault, scope_after, with_name};
ghost use Rattle.script_scopes.specs.Settings.{setting_of};

use crate::calls::{check_call, check_expression};
use crate::faults::CheckFault;
use crate::names::{Setting, check_assigned, check_local, check_set};
use crate::names_in_scope::InScope;
use script_tree::{CallExpr, Expr, Name, Source, Stmt};

/// What a local is given is right.
#[tactic(auto, unfolding(crate::specs::Statements::source_fault))]
fn check_source(setting: &Setting, names: &InScope, value: &Source) -> Result<(), CheckFault>
    ensures { Answers result (source_fault (setting_of setting.now) (map (λ n. n.now) names.now.items)
        (source_tree value.now)) }
{
    match value {
        Source::Expr(value) => check_expression(setting, names, value),
        Source::Call(call) => check_call(setting, names, call),
    }
}

/// A `let` is right. Its name is in scope then.
fn check_let<'a>(
    setting: &Setting,
    names: &mut InScope<'a>,
    name: &'a Name,
    value: &Source,
) -> Result<(), CheckFault>
    ensures { Leaves result (local_fault (setting_of setting.now) (map (λ n. n.now) names.old.items) name.entry.now
        <|> source_fault (setting_of setting.now) (map (λ n. n.now) names.old.items) (source_tree value.now))
        (map (λ n. n.now) names.new.items) (with_name (map (λ n. n.now) names.old.items) name.entry.now) }
{
    check_local(setting, names, name)?;
    check_source(setting, names, value)?;
    names.push(&name.text)?;
    Ok(())
}

/// An assignment is right.
fn check_assign(
    setting: &Setting,
    names: &InScope,
    name: &Name,
    value: &Source,
) -> Result<(), CheckFault>
    ensures { Answers result (assigned_fault (map (λ n. n.now) names.now.items) name.now
        <|> source_fault (setting_of setting.now) (map (λ n. n.now) names.now.items) (source_tree value.now)) }
{
    check_assigned(names, name)?;
    check_source(setting, names, value)
}

/// A field's new value is right, and so is the field.
fn check_field(
    setting: &Setting,
    names: &InScope,
    name: &Name,
    value: &Expr,
) -> Result<(), CheckFault>
    ensures { Answers result (set_fault (setting_of setting.now) name.now
        <|> expression_fault (setting_of setting.now) (map (λ n. n.now) names.now.items) (expr_tree value.now)) }
{
    check_set(setting, name)?;
    check_expression(setting, names, value)
}

/// What an `attempt` tries is right. The name for its answer or its fault is in scope then.
fn check_tried<'a>(
    setting: &Setting,
    names: &mut InScope<'a>,
    name: &'a Name,
    call: &CallExpr,
) -> Result<(), CheckFault>
    ensures { Leaves result (local_fault (setting_of setting.now) (map (λ n. n.now) names.old.items) name.entry.now
        <|> call_fault (setting_of setting.now) (map (λ n. n.now) names.old.items) (call_tree call.now))
        (map (λ n. n.now) names.new.items) (with_name (map (λ n. n.now) names.old.items) name.entry.now) }
{
    check_local(setting, names, name)?;
    check_call(setting, names, call)?;
    names.push(&name.text)?;
    Ok(())
}

/// A statement is right. The names in scope are then those behind it.
#[cycle(statement)]
#[tactic(auto, unfolding(crate::specs::Statements::statement_fault))]
fn check_statement<'a>(
    setting: &Setting,
    names: &mut InScope<'a>,
    statement: &'a Stmt,
) -> Result<(), CheckFault>
    ensures { Leaves result (statement_fault (setting_of setting.now)
        (map (λ n. n.now) names.old.items) (stmt_tree statement.now))
        (map (λ n. n.now) names.new.items)
        (scope_after (map (λ n. n.now) names.old.items) (stmt_tree statement.now)) }
{
    match statement {
        Stmt::Let { name, value } => check_let(setting, names, name, value),
        Stmt::Assign { name, value } => check_assign(setting, names, name, value),
        Stmt::Set { name, value } => check_field(setting, names, name, value),
        Stmt::Call { call } => check_call(setting, names, call),
        Stmt::If { test, then, other } => {
            check_expression(setting, names, test)?;
            check_block(setting, names, then.as_slice())?;
            match other {
                None => Ok(()),
                Some(other) => check_block(setting, names, other.as_slice()),
            }
        }
        Stmt::While { test, body } => {
            check_expression(setting, names, test)?;
            check_block(setting, names, body.as_slice())
        }
        Stmt::Return { value } => check_expression(setting, names, value),
        Stmt::Fail { text: _ } => Ok(()),
        Stmt::Attempt {
            at: _,
            name,
            call,
            then,
            other,
        } => {
            let count = names.len();
            check_tried(setting, names, name, call)?;
            check_block(setting, names, then.as_slice())?;
            check_block(setting, names, other.as_slice())?;
            names.truncate(count);
            Ok(())
        }
    }
}

/// The statements of a block are right. The names in scope are then those before it.
#[cycle(statement)]
pub fn check_block<'a>(
    setting: &Setting,
    names: &mut InScope<'a>,
    body: &'a [Stmt],
) -> Result<(), CheckFault>
    ensures { Leaves result (block_fault (setting_of setting.now) (map (λ n. n.now) names.old.items)
        (block_tree (stmt_trees body.now))) (map (λ n. n.now) names.new.items)
        (map (λ n. n.now) names.old.items) }
{
    let outer = names.len();
    for statement in body {
        check_statement(setting, names, statement)?;
    }
    names.truncate(outer);
    Ok(())
}
