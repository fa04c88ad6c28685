ghost use Rattle.std.specs.Prelude.{◌≡◌, map, bytes_eq};
ghost use Rattle.std.specs.List.{list_any};
ghost use Rattle.script_tree.specs.Programs.{type_tree};
ghost use Rattle.script_scopes.specs.FirstFaults.{Answers};
ghost use Rattle.script_scopes.specs.Names.{is_in, taken_fault, room_fault, local_fault, reading_fault, writing_fault, variable_fault, assigned_fault, set_fault};
ghost use Rattle.script_scopes.specs.Settings.{setting_of};

use crate::faults::CheckFault;
use crate::names_in_scope::InScope;
use script_tree::{Chars, MethodKind, Name, TypeDecl};

/// What a method's body may speak of besides its parameters and locals: the program's types, the names of
/// its own type's fields, and what it does with these.
#[derive(Drop)]
pub struct Setting<'a> {
    pub types: &'a [TypeDecl],
    pub fields: &'a [&'a Chars],
    pub kind: MethodKind,
}

/// Whether two names are the same.
pub fn is_same(a: &Chars, b: &Chars) -> bool
    ensures { result ≡ bytes_eq a.now b.now }
{
    a.as_str().as_bytes() == b.as_str().as_bytes()
}

fn has_name(names: &[&Chars], name: &Chars) -> bool
    ensures { result ≡ list_any (λ known. bytes_eq name.now known.now) names.now }
{
    names.iter().any(|known| is_same(name, *known))
}

/// Whether a name stands for something.
#[tactic(auto, using(crate::proofs::Lists::any_map))]
pub fn is_in(names: &[&Chars], name: &Chars) -> bool
    ensures { result ≡ is_in (map (λ n. n.now) names.now) name.now }
{
    has_name(names, name)
}

/// A declared name doesn't stand for something already.
pub fn check_free(names: &[&Chars], name: &Name) -> Result<(), CheckFault>
    ensures { Answers result (taken_fault (map (λ n. n.now) names.now) name.now) }
{
    if is_in(names, &name.text) {
        return Err(CheckFault::TwiceNamed { at: name.at });
    }
    Ok(())
}

/// A declared name is at most the limit, after these.
#[tactic(auto, using(crate::proofs::Lists::map_length))]
pub fn check_room(limit: usize, before: &[&Chars], name: &Name) -> Result<(), CheckFault>
    ensures { Answers result (room_fault limit (map (λ n. n.now) before.now) name.now) }
{
    if limit <= before.len() {
        return Err(CheckFault::TooMany { at: name.at });
    }
    Ok(())
}

/// A local's name is no field's, and no local's or parameter's in scope.
pub fn check_local(setting: &Setting, names: &InScope, name: &Name) -> Result<(), CheckFault>
    ensures { Answers result (local_fault (setting_of setting.now) (map (λ n. n.now) names.now.items)
        name.now) }
{
    check_free(setting.fields, name)?;
    if names.has(&name.text) {
        return Err(CheckFault::TwiceNamed { at: name.at });
    }
    Ok(())
}

/// A method of this kind may read a field.
fn check_reading(kind: MethodKind, at: u32) -> Result<(), CheckFault>
    ensures { Answers result (reading_fault kind at) }
{
    match kind {
        MethodKind::Plain => Err(CheckFault::FieldInPlain { at }),
        MethodKind::Read | MethodKind::Update => Ok(()),
    }
}

/// A method of this kind may set a field.
fn check_writing(kind: MethodKind, at: u32) -> Result<(), CheckFault>
    ensures { Answers result (writing_fault kind at) }
{
    match kind {
        MethodKind::Plain => Err(CheckFault::FieldInPlain { at }),
        MethodKind::Read => Err(CheckFault::SetInRead { at }),
        MethodKind::Update => Ok(()),
    }
}

/// A name in an expression is a local, a parameter, or a field that may be read.
pub fn check_variable(setting: &Setting, names: &InScope, name: &Name) -> Result<(), CheckFault>
    ensures { Answers result (variable_fault (setting_of setting.now)
        (map (λ n. n.now) names.now.items) name.now) }
{
    if names.has(&name.text) {
        return Ok(());
    }
    if is_in(setting.fields, &name.text) {
        return check_reading(setting.kind, name.at);
    }
    Err(CheckFault::UnknownName { at: name.at })
}

/// The name of an assignment is a local or a parameter.
pub fn check_assigned(names: &InScope, name: &Name) -> Result<(), CheckFault>
    ensures { Answers result (assigned_fault (map (λ n. n.now) names.now.items) name.now) }
{
    if names.has(&name.text) {
        return Ok(());
    }
    Err(CheckFault::UnknownName { at: name.at })
}

/// The name of a `set` is a field that may be set.
pub fn check_set(setting: &Setting, name: &Name) -> Result<(), CheckFault>
    ensures { Answers result (set_fault (setting_of setting.now) name.now) }
{
    if is_in(setting.fields, &name.text) {
        return check_writing(setting.kind, name.at);
    }
    Err(CheckFault::UnknownName { at: name.at })
}
