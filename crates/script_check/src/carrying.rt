ghost use Rattle.std.specs.Prelude.{◌≡◌, ◌≤◌, ◌<◌, [], length, map, bytes_eq, IfOk};
ghost use Rattle.std.specs.List.{position};
ghost use Rattle.script_tree.specs.Programs.{program_tree};
ghost use Rattle.script_check.specs.Comparison.{GoesOnFrom, GoOnInTurn};
ghost use Rattle.script_check.specs.Carrying.{kept_value, carried_fields, carried_state, carried_along, fields_of_kind};

use crate::checked_program::Checked;
use crate::shapes::value_of;
use base_types::{State, Value};
use script_scopes::is_same;
use script_tree::{Chars, FieldDecl};
use std::alloc::{AllocError, Global};

// The place of the field of a name, none where no field has it.
fn place_of(fields: &[FieldDecl], name: &Chars) -> Option<usize>
    ensures { result ≡ position (λ f. bytes_eq f.name.text name.now) fields.now }
{
    fields
        .iter()
        .position(|field| is_same(&field.name.text, name))
}

// The value of the old field of the same name, else the new field's initial value.
fn kept_value(
    alloc: Global,
    olds: &[FieldDecl],
    values: &[Value],
    field: &FieldDecl,
) -> Result<Value, AllocError>
    requires { length values.now ≡ length olds.now }
    ensures { IfOk result (λ made. made ≡ kept_value olds.now values.now field.now) }
{
    match place_of(olds, &field.name.text) {
        Some(place) => values[place].copy(),
        None => value_of(alloc, &field.initial),
    }
}

// The values of the new fields, in a state that has none yet.
fn carry_values(
    alloc: Global,
    state: &mut State,
    olds: &[FieldDecl],
    news: &[FieldDecl],
    values: &[Value],
) -> Result<(), AllocError>
    requires empty { state.old ≡ [] }
    requires few { length news.now ≤ 64 }
    requires values { length values.now ≡ length olds.now }
    ensures { IfOk result (λ _. state.new ≡ carried_fields olds.now news.now values.now) }
{
    for field in news {
        state.push(kept_value(alloc, olds, values, field)?)?;
    }
    Ok(())
}

/// The state that a grain of a type has under the program `new`, where it has this one under `old`: each field of the new type, in
/// order, has the value of the old field of that name, or its initial value where the old type has none. The type is one of the old
/// program's, which the new one goes on from, and the state has its number of fields.
pub fn carry_state(
    alloc: Global,
    old: &Checked,
    new: &Checked,
    kind: u16,
    state: &State,
) -> Result<State, AllocError>
    requires follows { GoesOnFrom (program_tree old.now) (program_tree new.now) }
    requires kind { kind < length (program_tree old.now) }
    requires state { length state.now ≡ length (fields_of_kind (program_tree old.now) kind) }
    ensures { IfOk result (λ made. made ≡ carried_state (program_tree old.now) (program_tree new.now) kind state.now) }
{
    let olds = &old.program().types.as_slice()[kind as usize].fields;
    let news = &new.program().types.as_slice()[kind as usize].fields;
    let mut carried = State::new(alloc);
    carry_values(
        alloc,
        &mut carried,
        olds.as_slice(),
        news.as_slice(),
        state.as_slice(),
    )?;
    Ok(carried)
}

/// The state that a grain of a type has in the end, where it has this one under the program `first` and these programs come after it,
/// each of which goes on from the one before: it is carried to each of them in turn, since a field that one of them drops begins anew
/// where a later one has it again.
pub fn carry_along(
    alloc: Global,
    first: &Checked,
    later: &[Checked],
    kind: u16,
    state: State,
) -> Result<State, AllocError>
    requires follow { GoOnInTurn (program_tree first.now) (map program_tree later.now) }
    requires kind { kind < length (program_tree first.now) }
    requires state { length state ≡ length (fields_of_kind (program_tree first.now) kind) }
    ensures { IfOk result (λ made. made ≡ carried_along (program_tree first.now) (map program_tree later.now) kind state) }
{
    let mut last = first;
    let mut current = state;
    for next in later {
        current = carry_state(alloc, last, next, kind, &current)?;
        last = next;
    }
    Ok(current)
}
