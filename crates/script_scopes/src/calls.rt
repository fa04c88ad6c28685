ghost use Rattle.std.specs.Prelude.{◌≡◌, map, bytes_eq, option_map};
ghost use Rattle.std.specs.List.{find};
ghost use Rattle.std.specs.Option.{option_copied};
ghost use Rattle.script_tree.specs.Exprs.{expr_tree, call_tree};
ghost use Rattle.script_tree.specs.Programs.{method_tree, type_tree};
ghost use Rattle.script_scopes.specs.FirstFaults.{Answers};
ghost use Rattle.script_scopes.specs.Expressions.{expression_fault, arguments_fault, type_named, method_named, arity_fault, call_fault};
ghost use Rattle.script_scopes.specs.Settings.{setting_of};

use crate::faults::CheckFault;
use crate::names::{Setting, check_variable, is_same};
use crate::names_in_scope::InScope;
use script_tree::{CallExpr, Chars, Expr, Method, TypeDecl};

fn find_type<'a>(types: &'a [TypeDecl], name: &Chars) -> Option<&'a TypeDecl>
    ensures { option_copied result ≡ find (λ t. bytes_eq t.name.text name.now) types.now }
{
    types.iter().find(|t| is_same(&t.name.text, name))
}

/// The type of this name, the first where there are two.
#[tactic(auto, using(crate::proofs::Lists::find_map))]
fn type_named<'a>(types: &'a [TypeDecl], name: &Chars) -> Option<&'a TypeDecl>
    ensures { option_map type_tree (option_copied result)
        ≡ type_named (map type_tree types.now) name.now }
{
    find_type(types, name)
}

fn find_method<'a>(methods: &'a [Method], name: &Chars) -> Option<&'a Method>
    ensures { option_copied result ≡ find (λ m. bytes_eq m.name.text name.now) methods.now }
{
    methods.iter().find(|m| is_same(&m.name.text, name))
}

/// The method of this name, the first where there are two.
#[tactic(auto, using(crate::proofs::Lists::find_map))]
fn method_named<'a>(methods: &'a [Method], name: &Chars) -> Option<&'a Method>
    ensures { option_map method_tree (option_copied result)
        ≡ method_named (map method_tree methods.now) name.now }
{
    find_method(methods, name)
}

/// Each name of an expression stands for a value.
#[tactic(auto, unfolding(crate::specs::Expressions::expression_fault))]
pub fn check_expression(setting: &Setting, names: &InScope, value: &Expr) -> Result<(), CheckFault>
    ensures { Answers result (expression_fault (setting_of setting.now) (map (λ n. n.now) names.now.items)
        (expr_tree value.now)) }
{
    match value {
        Expr::Literal(_) | Expr::Key => Ok(()),
        Expr::Name(name) => check_variable(setting, names, name),
        Expr::Unary { op: _, of } => check_expression(setting, names, of),
        Expr::Binary { op: _, left, right } => {
            check_expression(setting, names, left)?;
            check_expression(setting, names, right)
        }
    }
}

/// Each name of a call's arguments stands for a value.
fn check_arguments(setting: &Setting, names: &InScope, args: &[Expr]) -> Result<(), CheckFault>
    ensures { Answers result (arguments_fault (setting_of setting.now) (map (λ n. n.now) names.now.items)
        (map expr_tree args.now)) }
{
    for arg in args {
        check_expression(setting, names, arg)?;
    }
    Ok(())
}

/// The method of a call is there, and has as many parameters as the call has arguments.
#[tactic(auto, using(crate::proofs::Lists::map_length))]
fn check_arity(target: &TypeDecl, call: &CallExpr) -> Result<(), CheckFault>
    ensures { Answers result (arity_fault (call_tree call.now)
        (method_named (type_tree target.now).methods call.now.method.text)) }
{
    let Some(method) = method_named(target.methods.as_slice(), &call.method.text) else {
        return Err(CheckFault::UnknownName { at: call.method.at });
    };
    if call.args.len() != method.params.len() {
        return Err(CheckFault::Arity { at: call.method.at });
    }
    Ok(())
}

/// A call names a type and a method of it, with a place and arguments that are right.
#[tactic(auto, unfolding(crate::specs::Expressions::call_fault))]
pub fn check_call(setting: &Setting, names: &InScope, call: &CallExpr) -> Result<(), CheckFault>
    ensures { Answers result (call_fault (setting_of setting.now) (map (λ n. n.now) names.now.items)
        (call_tree call.now)) }
{
    let Some(target) = type_named(setting.types, &call.target.text) else {
        return Err(CheckFault::UnknownName { at: call.target.at });
    };
    check_expression(setting, names, &call.place)?;
    check_arity(target, call)?;
    check_arguments(setting, names, call.args.as_slice())
}
