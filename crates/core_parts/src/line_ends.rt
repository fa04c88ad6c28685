ghost use Rattle.std.specs.Prelude.{◌≡◌, ◌<◌, ◌+◌, ◌^◌, [], true};
ghost use Rattle.core_parts.specs.LineEnds.{ends_in_value, ends_in_fault, ends_in_abort, ends_of, ends_with, one_more, CountsWithin};

use base_types::{Outcome, Settled};

/// How lines came to their ends: how many there are, and how many of them came to a value, came to a fault, and were
/// aborted. The others are bad, or of a batch in doubt.
#[derive(Clone, Copy, Debug, PartialEq, Eq)]
pub struct LineEnds {
    pub all: usize,
    pub values: usize,
    pub faults: usize,
    pub aborts: usize,
}

impl LineEnds {
    /// No lines.
    pub fn new() -> LineEnds
        ensures { result ≡ ends_of [] }
    {
        LineEnds {
            all: 0,
            values: 0,
            faults: 0,
            aborts: 0,
        }
    }

    /// These with one line more, which ended so.
    pub fn with(self, what: &Settled) -> LineEnds
        requires few { self.all + 1 < 2 ^ 64 }
        requires within { CountsWithin self }
        ensures { result ≡ ends_with self what.now }
    {
        LineEnds {
            all: self.all + 1,
            values: one_more(ends_in_value(what), self.values),
            faults: one_more(ends_in_fault(what), self.faults),
            aborts: one_more(ends_in_abort(what), self.aborts),
        }
    }
}

// One more where the line ended so.
fn one_more(ended: bool, count: usize) -> usize
    requires { count + 1 < 2 ^ 64 }
    ensures { result ≡ one_more ended count }
{
    if ended { count + 1 } else { count }
}

// Whether the line came to a value.
fn ends_in_value(what: &Settled) -> bool
    ensures { result ≡ ends_in_value what.now }
{
    match what {
        Settled::Done(Outcome::Value(_)) => true,
        Settled::Done(Outcome::Fault(_)) => false,
        Settled::Done(Outcome::Aborted) => false,
        Settled::Lock { .. } => false,
        Settled::Vote { .. } => false,
        Settled::Dependency { .. } => false,
        Settled::Disk => false,
        Settled::InDoubt => false,
        Settled::Bad(_) => false,
    }
}

// Whether the line came to a fault.
fn ends_in_fault(what: &Settled) -> bool
    ensures { result ≡ ends_in_fault what.now }
{
    match what {
        Settled::Done(Outcome::Value(_)) => false,
        Settled::Done(Outcome::Fault(_)) => true,
        Settled::Done(Outcome::Aborted) => false,
        Settled::Lock { .. } => false,
        Settled::Vote { .. } => false,
        Settled::Dependency { .. } => false,
        Settled::Disk => false,
        Settled::InDoubt => false,
        Settled::Bad(_) => false,
    }
}

// Whether the line was aborted.
fn ends_in_abort(what: &Settled) -> bool
    ensures { result ≡ ends_in_abort what.now }
{
    match what {
        Settled::Done(Outcome::Value(_)) => false,
        Settled::Done(Outcome::Fault(_)) => false,
        Settled::Done(Outcome::Aborted) => false,
        Settled::Lock { .. } => true,
        Settled::Vote { .. } => true,
        Settled::Dependency { .. } => true,
        Settled::Disk => true,
        Settled::InDoubt => false,
        Settled::Bad(_) => false,
    }
}
