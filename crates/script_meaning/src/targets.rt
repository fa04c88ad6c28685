ghost use Rattle.std.specs.Prelude.{◌≡◌, ◌≤◌, [], IfOk, IfSome, length, map, slice_get};
ghost use Rattle.std.specs.Option.{option_map, option_copied};
ghost use Rattle.script_tree.specs.Programs.{method_tree, type_tree};
ghost use Rattle.script_check.specs.AcceptedPrograms.{IsAcceptedProgram};
ghost use Rattle.script_meaning.specs.Calls.{bound, type_from, method_from, numbered, method_target};
ghost use Rattle.script_meaning.specs.Targets.{target_of, type_at};

use base_types::{List, Value};
use script_scopes::is_same;
use script_tree::{Chars, Items, Method, Name, TypeDecl};
use script_values::{FrameLocals, Local};
use std::alloc::{AllocError, Global};

/// A method that is called: its type, its number there, and the method.
#[derive(Clone, Copy)]
pub struct Target<'a> {
    pub of_type: &'a TypeDecl,
    pub number: u16,
    pub method: &'a Method,
}

/// The number of the type of this name, the first declared first.
pub fn type_number(types: &[TypeDecl], name: &Chars) -> Option<u16>
    requires { length types.now ≤ 64 }
    ensures { result ≡ type_from 0 name.now (map type_tree types.now) }
{
    for (i, one) in types.iter().enumerate() {
        if is_same(&one.name.text, name) {
            return Some(i as u16);
        }
    }
    None
}

/// The number of the method of this name in its type, the first declared first.
pub fn method_number(methods: &[Method], name: &Chars) -> Option<u16>
    requires { length methods.now ≤ 64 }
    ensures { result ≡ method_from 0 name.now (map method_tree methods.now) }
{
    for (i, one) in methods.iter().enumerate() {
        if is_same(&one.name.text, name) {
            return Some(i as u16);
        }
    }
    None
}

/// The type of this number.
fn type_of(types: &[TypeDecl], kind: u16) -> Option<&TypeDecl>
    ensures { option_copied result ≡ slice_get types.now kind }
{
    types.get(kind as usize)
}

/// The method of these numbers.
pub fn target_at(types: &[TypeDecl], kind: u16, number: u16) -> Option<Target<'_>>
    requires { IsAcceptedProgram (map type_tree types.now) }
    ensures found { option_map target_of result ≡ numbered (type_at types.now kind) number }
    ensures few { IfSome result (λ target. length target.of_type.now.fields.list.items ≤ 64) }
{
    let of_type = type_of(types, kind)?;
    let method = of_type.methods.get(number as usize)?;
    Some(Target {
        of_type,
        number,
        method,
    })
}

/// The method of this name in the type of this number.
pub fn target_named<'a>(types: &'a [TypeDecl], kind: u16, name: &Chars) -> Option<Target<'a>>
    requires { IsAcceptedProgram (map type_tree types.now) }
    ensures found { option_map target_of result ≡ method_target (type_at types.now kind) name.now }
    ensures few { IfSome result (λ target. length target.of_type.now.fields.list.items ≤ 64) }
{
    let of_type = type_of(types, kind)?;
    let number = method_number(of_type.methods.as_slice(), name)?;
    target_at(types, kind, number)
}

/// Puts the parameters with their arguments into locals of which there are none yet.
fn bind_each(
    locals: &mut FrameLocals,
    params: &Items<Name>,
    args: List<Value>,
) -> Result<(), AllocError>
    requires { locals.old.items ≡ [] }
    ensures { IfOk result (λ _. locals.new.items ≡ bound params.now.list.items args) }
{
    for value in args.into_vec() {
        let Some(param) = params.get(locals.len()) else {
            continue;
        };
        let name = param.text.copy()?;
        locals.push(Local { name, value })?;
    }
    Ok(())
}

/// The parameters with their arguments. A parameter without an argument is left out.
pub fn bind_arguments(
    alloc: Global,
    params: &Items<Name>,
    args: List<Value>,
) -> Result<FrameLocals, AllocError>
    ensures { IfOk result (λ locals. locals.items ≡ bound params.now.list.items args) }
{
    let mut locals = FrameLocals::new(alloc);
    bind_each(&mut locals, params, args)?;
    Ok(locals)
}
