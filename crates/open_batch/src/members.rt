ghost use Rattle.std.specs.Prelude.{◌≡◌};
ghost use Rattle.core_model.specs.Tests.{is_bad, is_good, is_aborted};
ghost use Rattle.open_batch.specs.Members.{is_left_out};
ghost use Rattle.unit_table.specs.Table.{verdict_in};

use core_model::{Effect, Verdict};
use dependency_sets::DepSet;
use unit_table::UnitTable;

/// A finished unit that waits for its batch, or is in the open one: what it did, and the units whose undecided
/// versions it read.
#[derive(Drop)]
pub struct FinishedUnit {
    pub effect: Effect,
    pub deps: DepSet,
}

// Whether one of the unit's sources is aborted, or to abort.
pub fn is_left_out(member: &FinishedUnit, units: &UnitTable) -> bool
    ensures { result ≡ is_left_out (λ u. is_bad (verdict_in units.now u)) member.now }
{
    member
        .deps
        .list()
        .iter()
        .any(|source| is_bad(units.verdict(*source)))
}

// Whether the verdict is to abort, for good or as long as the batch is open.
pub fn is_bad(verdict: Verdict) -> bool
    ensures { result ≡ is_bad verdict }
{
    match verdict {
        Verdict::Condemned | Verdict::Aborted => true,
        Verdict::Open | Verdict::Chosen | Verdict::Committed => false,
    }
}

// Whether the verdict is to commit, for good or as long as the batch is open.
pub fn is_good(verdict: Verdict) -> bool
    ensures { result ≡ is_good verdict }
{
    match verdict {
        Verdict::Chosen | Verdict::Committed => true,
        Verdict::Open | Verdict::Condemned | Verdict::Aborted => false,
    }
}

// Whether the verdict is to abort, for good.
pub fn is_aborted(verdict: Verdict) -> bool
    ensures { result ≡ is_aborted verdict }
{
    match verdict {
        Verdict::Aborted => true,
        Verdict::Open | Verdict::Chosen | Verdict::Condemned | Verdict::Committed => false,
    }
}
