ghost use Rattle.std.specs.Prelude.{◌≡◌, List};
ghost use Rattle.request_wire.specs.Names.{TypeNames, names_in};
ghost use Rattle.request_wire.specs.Request.{type_of, method_of};
ghost use Rattle.script_tree.specs.Programs.{program_tree};

use crate::programs::{method_in, type_in};
use script_check::Checked;

/// What request lines may name: types and their methods.
pub trait Names {
    /// The types, each with its methods and their numbers of parameters.
    ghost types: { Self → List TypeNames };

    /// The number of the type of this name.
    fn type_of(&self, name: &str) -> Option<u16>
        ensures { result ≡ type_of (types self.now) name.now };

    /// The number of a type's method of this name, and how many parameters it has.
    fn method_of(&self, kind: u16, name: &str) -> Option<(u16, usize)>
        ensures { result ≡ method_of (types self.now) kind name.now };
}

impl Names for Checked {
    ghost types = { λ checked. names_in (program_tree checked) };

    fn type_of(&self, name: &str) -> Option<u16> {
        type_in(self.program(), name)
    }

    fn method_of(&self, kind: u16, name: &str) -> Option<(u16, usize)> {
        method_in(self.program(), kind, name)
    }
}
