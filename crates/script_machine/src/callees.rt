ghost use Rattle.std.specs.Prelude.{◌≡◌, ◌≤◌, IfSome, length, slice_get, option_map};
ghost use Rattle.std.specs.Option.{option_copied};
ghost use Rattle.script_tree.specs.Programs.{method_tree, type_tree, program_tree};
ghost use Rattle.script_meaning.specs.Calls.{numbered, method_target, type_from};
ghost use Rattle.script_machine.specs.Frames.{fields_of};
ghost use Rattle.script_machine.specs.Callees.{IsFew, IsThere, target_of};

use base_types::GrainId;
use script_check::Checked;
use script_meaning::{method_number, type_number};
use script_tree::{Chars, FieldDecl, Method, TypeDecl};

/// A called method: the grain, the number of the method in the grain's type, the type and the method.
#[derive(Drop)]
pub struct Callee<'a> {
    pub grain: GrainId,
    pub number: u16,
    pub of_type: &'a TypeDecl,
    pub method: &'a Method,
}

/// The type of this number.
fn type_at(checked: &Checked, number: u16) -> Option<&TypeDecl>
    ensures found { option_map type_tree (option_copied result) ≡ slice_get (program_tree checked.now) number }
    ensures few { IfSome (option_copied result) (λ of_type. IsFew (type_tree of_type)) }
{
    checked.program().types.get(usize::from(number))
}

/// The method of this number.
fn method_at(of_type: &TypeDecl, number: u16) -> Option<&Method>
    ensures { option_map method_tree (option_copied result) ≡ slice_get (type_tree of_type.now).methods number }
{
    of_type.methods.get(usize::from(number))
}

/// The fields of the type of this number, none where there is no type.
pub fn fields_at(checked: &Checked, number: u16) -> &[FieldDecl]
    ensures same { result.now ≡ fields_of (slice_get (program_tree checked.now) number) }
    ensures few { length result.now ≤ 64 }
{
    match type_at(checked, number) {
        None => &[],
        Some(of_type) => of_type.fields.as_slice(),
    }
}

/// The method of this number on a grain.
pub fn callee_at<'a>(checked: &'a Checked, grain: GrainId, number: u16) -> Option<Callee<'a>>
    ensures found { option_map target_of result ≡ numbered (slice_get (program_tree checked.now) grain.kind) number }
    ensures there { IfSome result (λ callee. IsThere (program_tree checked.now) callee) }
    ensures grain { IfSome result (λ callee. callee.grain ≡ grain) }
{
    match type_at(checked, grain.kind) {
        None => None,
        Some(of_type) => match method_at(of_type, number) {
            None => None,
            Some(method) => Some(Callee {
                grain,
                number,
                of_type,
                method,
            }),
        },
    }
}

/// The number of the type of this name in a program.
#[tactic(auto, using(crate::proofs::PartCounts::few_types))]
pub fn type_named(checked: &Checked, name: &Chars) -> Option<u16>
    ensures { result ≡ type_from 0 name.now (program_tree checked.now) }
{
    type_number(checked.program().types.as_slice(), name)
}

/// The method of this name on a grain.
pub fn callee_named<'a>(checked: &'a Checked, grain: GrainId, name: &Chars) -> Option<Callee<'a>>
    ensures found { option_map target_of result ≡ method_target (slice_get (program_tree checked.now) grain.kind) name.now }
    ensures there { IfSome result (λ callee. IsThere (program_tree checked.now) callee) }
    ensures grain { IfSome result (λ callee. callee.grain ≡ grain) }
{
    match type_at(checked, grain.kind) {
        None => None,
        Some(of_type) => match method_number(of_type.methods.as_slice(), name) {
            None => None,
            Some(number) => callee_at(checked, grain, number),
        },
    }
}
