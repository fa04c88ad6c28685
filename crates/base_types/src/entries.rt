ghost use Rattle.std.specs.Prelude.{◌≡◌, IfOk};

use crate::calls::{GrainId, Outcome, UnitNo};
use crate::list::TryCopy;
use std::alloc::AllocError;

/// Why a request line isn't carried: the first of the tests, in this order, that it fails.
#[derive(Clone, Copy, Debug, PartialEq, Eq)]
pub enum BadRequest {
    /// The line isn't JSON.
    Json,
    /// The line isn't an object with exactly the keys `args`, an array, and `call`, a string.
    Shape,
    /// The call names no grain of one of the program's types.
    Grain,
    /// The call names no method of the grain's type.
    Method,
    /// The arguments aren't as many numbers and short texts as the method has parameters.
    Args,
}

/// What became of a request line.
#[derive(Drop)]
pub enum Settled {
    /// The unit ended with this outcome, which is no abort.
    Done(Outcome),
    /// Aborted, since the older unit `by` held a lock of the grain in a conflicting mode.
    Lock { by: UnitNo, grain: GrainId },
    /// Aborted, since the file of the grain couldn't be written.
    Vote { grain: GrainId },
    /// Aborted, since the unit read what the unit `on` had written, which aborted.
    Dependency { on: UnitNo },
    /// Aborted, since the manager file couldn't be written.
    Disk,
    /// Nobody knows whether the commit is on disk.
    InDoubt,
    /// The line is no request.
    Bad(BadRequest),
}

impl Settled {
    /// A copy, equal to its source.
    pub fn copy(&self) -> Result<Settled, AllocError>
        ensures { IfOk result (λ made. made ≡ self.now) }
    {
        match self {
            Settled::Done(outcome) => Ok(Settled::Done(outcome.copy()?)),
            Settled::Lock { by, grain } => Ok(Settled::Lock {
                by: *by,
                grain: *grain,
            }),
            Settled::Vote { grain } => Ok(Settled::Vote { grain: *grain }),
            Settled::Dependency { on } => Ok(Settled::Dependency { on: *on }),
            Settled::Disk => Ok(Settled::Disk),
            Settled::InDoubt => Ok(Settled::InDoubt),
            Settled::Bad(cause) => Ok(Settled::Bad(*cause)),
        }
    }
}

/// The answer to one request line: its number from 1, its unit (0 for a bad line), and what became of it.
#[derive(Drop)]
pub struct Entry {
    pub line: u32,
    pub unit: UnitNo,
    pub what: Settled,
}

impl Entry {
    /// A copy, equal to its source.
    pub fn copy(&self) -> Result<Entry, AllocError>
        ensures { IfOk result (λ made. made ≡ self.now) }
    {
        Ok(Entry {
            line: self.line,
            unit: self.unit,
            what: self.what.copy()?,
        })
    }
}

impl TryCopy for Entry {
    fn try_copy(&self) -> Result<Entry, AllocError> {
        self.copy()
    }
}
