ghost use Rattle.std.specs.Prelude.{◌≡◌, length, filter, zip, Some};
ghost use Rattle.std.specs.List.{list_any};
ghost use Rattle.cell_model.specs.Units.{oldest};
ghost use Rattle.cell_model.specs.Sources.{is_among};
ghost use Rattle.cell_model.specs.Decisions.{is_commit, decision, all_decided};
ghost use Rattle.cell_model.specs.Units.{joined};
ghost use Rattle.cascade_abort.specs.DeadUnits.{has_fallen, dead_by};

use base_types::{List, UnitNo};
use cell_model::{Decision, Prepared};

/// Decides the units of a batch in its order, each into its own place. Takes no memory.
///
/// A unit is dead where its file failed, or where one of its dependencies is among the aborted or is dead
/// and earlier in the batch. A failed file is named before a dead dependency, and of these the oldest.
/// The others commit.
pub fn decide_batch(batch: &List<Prepared>, aborted: &List<UnitNo>, into: &mut [Decision])
    requires { length batch.now ≡ length into.old }
    ensures { into.new ≡ all_decided (is_among aborted.now) batch.now }
{
    decide_all(batch.as_slice(), aborted.as_slice(), into);
}

// Decides the units in their order.
fn decide_all(batch: &[Prepared], aborted: &[UnitNo], into: &mut [Decision])
    requires { length batch.now ≡ length into.old }
    ensures { into.new ≡ all_decided (is_among aborted.now) batch.now }
{
    for (at, prepared) in batch.iter().enumerate() {
        into[at] = decide(prepared, &batch[..at], &into[..at], aborted);
    }
}

// What becomes of a unit, where those before it in its batch have these decisions.
fn decide(
    prepared: &Prepared,
    before: &[Prepared],
    decisions: &[Decision],
    aborted: &[UnitNo],
) -> Decision
    ensures { result ≡ decision (dead_by (is_among aborted.now) before.now decisions.now) prepared.now }
{
    if let Some(grain) = prepared.failed {
        return Decision::Vote { grain };
    }
    match oldest_dead(prepared.deps.as_slice(), before, decisions, aborted) {
        Some(on) => Decision::Dependency { on },
        None => Decision::Commit,
    }
}

// The oldest of the units that are dead.
fn oldest_dead(
    units: &[UnitNo],
    before: &[Prepared],
    decisions: &[Decision],
    aborted: &[UnitNo],
) -> Option<UnitNo>
    ensures { result ≡ oldest (filter (dead_by (is_among aborted.now) before.now decisions.now) units.now) }
{
    let mut found = None;
    for unit in units {
        if is_dead(*unit, before, decisions, aborted) {
            found = Some(older_of(found, *unit));
        }
    }
    found
}

// Whether the unit is among the aborted, or is one before that can't commit.
fn is_dead(unit: UnitNo, before: &[Prepared], decisions: &[Decision], aborted: &[UnitNo]) -> bool
    ensures { result ≡ dead_by (is_among aborted.now) before.now decisions.now unit }
{
    any_fell(unit, before, decisions) || is_in(aborted, unit)
}

// Whether the unit is one of these and can't commit.
fn any_fell(unit: UnitNo, before: &[Prepared], decisions: &[Decision]) -> bool
    ensures { result ≡ list_any (has_fallen unit) (zip before.now decisions.now) }
{
    before
        .iter()
        .zip(decisions)
        .any(|(prepared, decision)| fell(unit, prepared, decision))
}

// Whether the unit is this one, which can't commit.
fn fell(unit: UnitNo, prepared: &Prepared, decision: &Decision) -> bool
    ensures { result ≡ has_fallen unit (prepared.now, decision.now) }
{
    unit == prepared.unit && !commits(decision)
}

// Whether the decision is to commit.
fn commits(decision: &Decision) -> bool
    ensures { result ≡ is_commit decision.now }
{
    match decision {
        Decision::Commit => true,
        Decision::Vote { .. } | Decision::Dependency { .. } => false,
    }
}

// Whether the unit is in the list.
fn is_in(units: &[UnitNo], unit: UnitNo) -> bool
    ensures { result ≡ is_among units.now unit }
{
    units.iter().any(|u| *u == unit)
}

// The older of a unit that may be missing and this one.
fn older_of(found: Option<UnitNo>, unit: UnitNo) -> UnitNo
    ensures { Some result ≡ joined found (Some unit) }
{
    match found {
        Some(other) if other.0 < unit.0 => other,
        _ => unit,
    }
}
