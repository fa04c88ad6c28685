ghost use Rattle.std.specs.Prelude.{◌≡◌, map, []};
ghost use Rattle.script_tree.specs.Programs.{method_tree, type_tree, program_tree};
ghost use Rattle.script_scopes.specs.FirstFaults.{Answers, Leaves};
ghost use Rattle.script_scopes.specs.Statements.{with_name};
ghost use Rattle.script_check.specs.Programs.{option_fault, transaction_fault, each_fault, declared_fault, field_fault, parameter_fault, parameters_fault, method_fault, field_names, type_fault, program_fault};

use base_types::STATE_LIMIT;
use script_scopes::{CheckFault, InScope, Setting, check_block, check_free, check_room};
use script_tree::{Chars, FieldDecl, Method, MethodKind, Name, TxnOption, TypeDecl};
use std::alloc::Global;

/// The most types that a program may have.
pub const TYPE_LIMIT: usize = 64;

/// The most methods that a type may have.
pub const METHOD_LIMIT: usize = 64;

/// The most parameters that a method may have.
pub const PARAM_LIMIT: usize = 8;

/// A declared name isn't among those before it, and they are below the limit. It stands behind them then.
fn declare<'a>(limit: usize, names: &mut Vec<&'a Chars>, name: &'a Name) -> Result<(), CheckFault>
    ensures { Leaves result (declared_fault limit (map (λ n. n.now) names.old.items) name.entry.now)
        (map (λ n. n.now) names.new.items) (with_name (map (λ n. n.now) names.old.items) name.entry.now) }
{
    check_free(names.as_slice(), name)?;
    check_room(limit, names.as_slice(), name)?;
    names.push(&name.text)?;
    Ok(())
}

/// The fields of a type are right. Puts their names into a list that has none yet.
fn check_fields<'a>(names: &mut Vec<&'a Chars>, fields: &'a [FieldDecl]) -> Result<(), CheckFault>
    requires { names.old.items ≡ [] }
    ensures { Leaves result (each_fault (λ f. f.name) field_fault [] fields.entry.now)
        (map (λ n. n.now) names.new.items) (field_names fields.entry.now) }
{
    for field in fields {
        declare(STATE_LIMIT, names, &field.name)?;
    }
    Ok(())
}

/// A parameter's name is no field's, and right among the parameters. It stands behind them then.
fn check_parameter<'a>(
    fields: &[&Chars],
    names: &mut Vec<&'a Chars>,
    name: &'a Name,
) -> Result<(), CheckFault>
    ensures { Leaves result (parameter_fault (map (λ n. n.now) fields.now) (map (λ n. n.now) names.old.items) name.entry.now)
        (map (λ n. n.now) names.new.items) (with_name (map (λ n. n.now) names.old.items) name.entry.now) }
{
    check_free(fields, name)?;
    declare(PARAM_LIMIT, names, name)
}

/// The parameters of a method are right. Puts their names into a list that has none yet.
fn check_parameters<'a>(
    fields: &[&Chars],
    names: &mut Vec<&'a Chars>,
    params: &'a [Name],
) -> Result<(), CheckFault>
    requires { names.old.items ≡ [] }
    ensures { Leaves result (parameters_fault (map (λ n. n.now) fields.now) params.entry.now)
        (map (λ n. n.now) names.new.items) (map (λ n. n.text) params.entry.now) }
{
    for param in params {
        check_parameter(fields, names, param)?;
    }
    Ok(())
}

/// A method with this option runs in a transaction.
fn check_option(option: TxnOption, at: u32) -> Result<(), CheckFault>
    ensures { Answers result (option_fault option at) }
{
    match option {
        TxnOption::Create | TxnOption::Join | TxnOption::CreateOrJoin => Ok(()),
        TxnOption::Suppress | TxnOption::Supported | TxnOption::NotAllowed => {
            Err(CheckFault::NeedsTransaction { at })
        }
    }
}

/// A method that reads or updates fields runs in a transaction.
fn check_transaction(kind: MethodKind, option: TxnOption, at: u32) -> Result<(), CheckFault>
    ensures { Answers result (transaction_fault kind option at) }
{
    match kind {
        MethodKind::Plain => Ok(()),
        MethodKind::Read | MethodKind::Update => check_option(option, at),
    }
}

/// A method of a type with these fields is right. Its name stands behind the other methods' then.
fn check_method<'a>(
    alloc: Global,
    types: &[TypeDecl],
    fields: &[&Chars],
    names: &mut Vec<&'a Chars>,
    method: &'a Method,
) -> Result<(), CheckFault>
    ensures { Leaves result (method_fault (map type_tree types.now) (map (λ n. n.now) fields.now)
        (map (λ n. n.now) names.old.items) (method_tree method.entry.now))
        (map (λ n. n.now) names.new.items) (with_name (map (λ n. n.now) names.old.items) method.entry.now.name) }
{
    declare(METHOD_LIMIT, names, &method.name)?;
    check_transaction(method.kind, method.option, method.name.at)?;
    let mut params = Vec::new(alloc);
    check_parameters(fields, &mut params, method.params.as_slice())?;
    let mut scope = InScope::of(alloc, params.as_slice())?;
    let setting = Setting {
        types,
        fields,
        kind: method.kind,
    };
    check_block(&setting, &mut scope, method.body.as_slice())?;
    Ok(())
}

/// The methods of a type with these fields are right. Puts their names into a list that has none yet.
fn check_methods<'a>(
    alloc: Global,
    types: &[TypeDecl],
    fields: &[&Chars],
    names: &mut Vec<&'a Chars>,
    methods: &'a [Method],
) -> Result<(), CheckFault>
    requires { names.old.items ≡ [] }
    ensures { Answers result (each_fault (λ m. m.name)
        (method_fault (map type_tree types.now) (map (λ n. n.now) fields.now)) []
        (map method_tree methods.entry.now)) }
{
    for method in methods {
        check_method(alloc, types, fields, names, method)?;
    }
    Ok(())
}

/// A type is right. Its name stands behind the other types' then.
fn check_type<'a>(
    alloc: Global,
    types: &[TypeDecl],
    names: &mut Vec<&'a Chars>,
    of_type: &'a TypeDecl,
) -> Result<(), CheckFault>
    ensures { Leaves result (type_fault (map type_tree types.now) (map (λ n. n.now) names.old.items)
        (type_tree of_type.entry.now))
        (map (λ n. n.now) names.new.items) (with_name (map (λ n. n.now) names.old.items) of_type.entry.now.name) }
{
    declare(TYPE_LIMIT, names, &of_type.name)?;
    let mut fields = Vec::new(alloc);
    check_fields(&mut fields, of_type.fields.as_slice())?;
    let mut methods = Vec::new(alloc);
    check_methods(
        alloc,
        types,
        fields.as_slice(),
        &mut methods,
        of_type.methods.as_slice(),
    )?;
    Ok(())
}

/// Each of these types of a program is right. Puts their names into a list that has none yet.
fn check_each<'a>(
    alloc: Global,
    types: &[TypeDecl],
    names: &mut Vec<&'a Chars>,
    each: &'a [TypeDecl],
) -> Result<(), CheckFault>
    requires { names.old.items ≡ [] }
    ensures { Answers result (each_fault (λ t. t.name) (type_fault (map type_tree types.now)) []
        (map type_tree each.entry.now)) }
{
    for of_type in each {
        check_type(alloc, types, names, of_type)?;
    }
    Ok(())
}

/// The types of a program are right.
#[tactic(auto, unfolding(crate::specs::Programs::program_fault))]
pub fn check_types(alloc: Global, types: &[TypeDecl]) -> Result<(), CheckFault>
    ensures { Answers result (program_fault (map type_tree types.now)) }
{
    let mut names = Vec::new(alloc);
    check_each(alloc, types, &mut names, types)
}
