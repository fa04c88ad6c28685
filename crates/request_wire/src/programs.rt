ghost use Rattle.std.specs.Prelude.{◌≡◌, ◌≤◌, length, map, option_map};
ghost use Rattle.std.specs.List.{All};
ghost use Rattle.script_tree.specs.Programs.{type_tree, method_tree, program_tree};
ghost use Rattle.script_check.specs.AcceptedPrograms.{IsAcceptedProgram};
ghost use Rattle.request_wire.specs.Names.{names_in, type_names, method_names, named};
ghost use Rattle.request_wire.specs.Request.{type_of, method_of};

use script_tree::{Method, Program, TypeDecl};

/// The number of the type of this name.
fn type_at(types: &[TypeDecl], name: &str) -> Option<u16>
    requires { length types.now ≤ 64 }
    ensures { result ≡ type_of (names_in (map type_tree types.now)) name.now }
{
    for (at, of_type) in types.iter().enumerate() {
        if name == of_type.name.text.as_str() {
            return Some(at as u16);
        }
    }
    None
}

/// The number of the method of this name, and how many parameters it has.
fn method_at(methods: &[Method], name: &str) -> Option<(u16, usize)>
    requires { length (map method_tree methods.now) ≤ 64 }
    ensures { result ≡ option_map (λ m. (m.0, m.1.1)) (named (λ m. m.0) 0 (map method_names (map method_tree methods.now)) name.now) }
{
    for (at, method) in methods.iter().enumerate() {
        if name == method.name.text.as_str() {
            return Some((at as u16, method.params.len()));
        }
    }
    None
}

/// The number of a program's type of this name.
pub fn type_in(program: &Program, name: &str) -> Option<u16>
    requires { IsAcceptedProgram (program_tree program.now) }
    ensures { result ≡ type_of (names_in (program_tree program.now)) name.now }
{
    type_at(program.types.as_slice(), name)
}

/// The number of a method of a program's type, and how many parameters it has.
#[tactic(auto, using(crate::proofs::ProgramNames::named_methods))]
pub fn method_in(program: &Program, kind: u16, name: &str) -> Option<(u16, usize)>
    requires { IsAcceptedProgram (program_tree program.now) }
    ensures { result ≡ method_of (names_in (program_tree program.now)) kind name.now }
{
    match program.types.get(kind as usize) {
        Some(of_type) => method_at(of_type.methods.as_slice(), name),
        None => None,
    }
}
