use script_check::CheckFault;
use script_parser::ParseFault;
use std::alloc::AllocError;

/// Why a case tells no more.
#[derive(Clone, Copy)]
pub enum Trouble {
    Memory,
    /// The text is refused at this byte.
    Refused(&'static str, u32),
}

impl From<AllocError> for Trouble {
    fn from(_: AllocError) -> Trouble {
        Trouble::Memory
    }
}

impl From<ParseFault> for Trouble {
    fn from(fault: ParseFault) -> Trouble {
        match fault {
            ParseFault::BadToken { at } => Trouble::Refused("bad token", at),
            ParseFault::Unexpected { at } => Trouble::Refused("unexpected", at),
            ParseFault::TooDeep { at } => Trouble::Refused("too deep", at),
            ParseFault::Memory => Trouble::Memory,
        }
    }
}

impl From<CheckFault> for Trouble {
    fn from(fault: CheckFault) -> Trouble {
        match fault {
            CheckFault::UnknownName { at } => Trouble::Refused("unknown name", at),
            CheckFault::TwiceNamed { at } => Trouble::Refused("twice named", at),
            CheckFault::Arity { at } => Trouble::Refused("wrong number of arguments", at),
            CheckFault::FieldInPlain { at } => Trouble::Refused("field in a plain method", at),
            CheckFault::SetInRead { at } => Trouble::Refused("set in a read method", at),
            CheckFault::TooMany { at } => Trouble::Refused("too many", at),
            CheckFault::NeedsTransaction { at } => Trouble::Refused("needs a transaction", at),
            CheckFault::Memory => Trouble::Memory,
        }
    }
}
