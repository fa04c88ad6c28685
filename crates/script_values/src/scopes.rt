ghost use Rattle.std.specs.Prelude.{◌≡◌};
ghost use Rattle.script_values.specs.Expressions.{field_named};

use crate::locals::LocalList;
use base_types::Value;
use script_scopes::is_same;
use script_tree::{Chars, FieldDecl};

/// What an expression is evaluated in: the fields of the frame's type that it may read, its key, its grain's
/// working state, and the frame's parameters and locals.
#[derive(Drop)]
pub struct Scope<'a> {
    pub fields: &'a [FieldDecl],
    pub key: u32,
    pub state: &'a [Value],
    pub locals: &'a LocalList,
}

/// The number of the field of this name, from 0 in the order of the text, none where no field has it.
pub fn field_number(name: &Chars, fields: &[FieldDecl]) -> Option<usize>
    ensures { result ≡ field_named name.now fields.now }
{
    for (i, field) in fields.iter().enumerate() {
        if is_same(&field.name.text, name) {
            return Some(i);
        }
    }
    None
}
