ghost use Rattle.std.specs.Prelude.{◌≡◌};
ghost use Rattle.script_scopes.specs.declared.faults.CheckFault.TheVariants.{Memory};

use std::alloc::{AllocError, AllocFailed};
use thiserror::Error;

/// Why a syntax tree isn't a program. Each names the place, in bytes of the text, of the name that is wrong.
#[derive(Clone, Copy, Debug, PartialEq, Eq, Error)]
pub enum CheckFault {
    /// A type, method, local, parameter or field that isn't there.
    #[error("unknown name at {at}")]
    UnknownName { at: u32 },
    /// A second type, field or method of one name, or a local or parameter whose name is a field's or that
    /// of a local or parameter in scope.
    #[error("name declared twice at {at}")]
    TwiceNamed { at: u32 },
    /// A call with more or fewer arguments than the method has parameters.
    #[error("wrong number of arguments at {at}")]
    Arity { at: u32 },
    /// A field that is read or set in a `plain` method.
    #[error("field in a plain method at {at}")]
    FieldInPlain { at: u32 },
    /// A field that is set in a `read` method.
    #[error("field set in a read method at {at}")]
    SetInRead { at: u32 },
    /// The 65th type, the 65th field or method of a type, the 9th parameter of a method.
    #[error("one too many at {at}")]
    TooMany { at: u32 },
    /// A `read` or `update` method whose option may run it outside a transaction.
    #[error("method outside a transaction at {at}")]
    NeedsTransaction { at: u32 },
    /// There was no memory. This may come in place of any other answer.
    #[error("no memory")]
    Memory,
}

impl From<AllocError> for CheckFault {
    ghost from_gives = { λ _ fault. fault ≡ Memory };

    fn from(_error: AllocError) -> CheckFault {
        CheckFault::Memory
    }
}

impl<T: Drop> From<AllocFailed<T>> for CheckFault {
    ghost from_gives = { λ _ fault. fault ≡ Memory };

    fn from(_error: AllocFailed<T>) -> CheckFault {
        CheckFault::Memory
    }
}
