use std::alloc::{AllocError, AllocFailed};

/// Why a case tells nothing.
#[derive(Clone, Copy, Debug)]
pub enum Trouble {
    Memory,
    /// It isn't a case, or the machine and its driver don't agree.
    Case(&'static str),
}

impl From<AllocError> for Trouble {
    fn from(_: AllocError) -> Trouble {
        Trouble::Memory
    }
}

impl<T: Drop> From<AllocFailed<T>> for Trouble {
    fn from(_: AllocFailed<T>) -> Trouble {
        Trouble::Memory
    }
}

impl From<&'static str> for Trouble {
    fn from(why: &'static str) -> Trouble {
        Trouble::Case(why)
    }
}
