ghost use Rattle.std.specs.Prelude.{◌≡◌};
ghost use Rattle.script_lexer.specs.declared.faults.ParseFault.TheVariants.{Memory};

use std::alloc::{AllocError, AllocFailed};

/// Why a text is no program, with the first place in the order of the text.
#[derive(Clone, Copy, Debug, PartialEq, Eq)]
pub enum ParseFault {
    /// No token, blank or comment begins at this byte; or a name, number or text that is too long, too great
    /// or not closed; or what follows isn't UTF-8.
    BadToken { at: u32 },
    /// This token can't follow; at the end of the text it is the text's length.
    Unexpected { at: u32 },
    /// This token would open one brace, parenthesis or prefix operator too many, or be one operator too many.
    TooDeep { at: u32 },
    /// There wasn't enough memory.
    Memory,
}

impl From<AllocError> for ParseFault {
    ghost from_gives = { λ _ fault. fault ≡ Memory };

    fn from(_error: AllocError) -> ParseFault {
        ParseFault::Memory
    }
}

impl<T: Drop> From<AllocFailed<T>> for ParseFault {
    ghost from_gives = { λ _ fault. fault ≡ Memory };

    fn from(_error: AllocFailed<T>) -> ParseFault {
        ParseFault::Memory
    }
}
