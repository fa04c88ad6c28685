// How a batch closes.
ghost use Rattle.std.specs.Prelude.{◌≡◌, ◌<◌, ◌≤◌, ◌+◌, ◌++◌, List as AList, Some, true, map, drop, length};
ghost use Rattle.base_types.specs.declared.calls.GrainId.{GrainId as AGrain};
ghost use Rattle.core_model.specs.CoreState.{put};
ghost use Rattle.core_model.specs.Changes.{entry_for, told};
ghost use Rattle.core_model.specs.Tests.{is_over, is_final, is_committed, state_written};
ghost use Rattle.cell_table.specs.Table.{opens_with};
ghost use Rattle.core_parts.specs.States.{last_in, has_place, KeepsPlaces};
ghost use Rattle.open_batch.specs.Members.{effect_in};
ghost use Rattle.unit_table.specs.Table.{verdict_in, phase_in};
ghost use Rattle.cell_model.specs.declared.outcomes.Decision.{Decision as ADecision};
ghost use Rattle.history_core.specs.BatchClosing.{IsReadyToClose, Closes, AreClosable, ClosesUnits, OnlyVerdictsChange, decisions_in, verdict_by};
ghost use Rattle.history_core.specs.ClosedUnits.{ArePlaced, state_after};
ghost use Rattle.history_core.specs.Fronts.{ends_as, told_as, pairs_of};

use crate::learn::is_committed;
use crate::parts::Parts;
use crate::refuse::settle;
use base_types::{GrainId, List, Outcome, Settled, State, UnitNo};
use cell_model::Decision;
use core_model::Verdict;
use core_parts::{EntryList, LastStates, LearnQueue};
use open_batch::FinishedUnit;
use unit_table::UnitTable;

/// How a decided batch closes: it is on disk, or never will be, or nobody knows.
#[derive(Clone, Copy)]
pub(crate) enum Closing {
    Sealed,
    NotSealed,
    Doubt,
}

impl Parts {
    // Closes the open batch, which is decided. Takes no memory.
    pub(crate) fn close(&mut self, how: Closing)
        requires { IsReadyToClose self.old }
        ensures closes { (ds : AList ADecision) → decisions_in self.old.batch ≡ Some ds → Closes how ds self.old self.new }
        ensures doubt { self.new.doubt ≡ self.old.doubt }
        ensures opens { opens_with self.new.cells ≡ opens_with self.old.cells }
    {
        let Some(batch) = self.batch.take() else {
            unreachable!()
        };
        let Some(decisions) = batch.decisions() else {
            unreachable!()
        };
        close_all(
            &mut self.units,
            &mut self.entries,
            &mut self.learn,
            &mut self.last,
            &mut self.waiting,
            decisions,
            how,
        );
    }
}

// Closes a batch with these decisions, whose units are the first of those that wait: each has its verdict and its entry,
// its grains have it to learn, and where it is committed the states that it wrote are the last ones. Takes no memory.
pub(crate) fn close_all(
    units: &mut UnitTable,
    entries: &mut EntryList,
    learn: &mut LearnQueue,
    last: &mut LastStates,
    waiting: &mut Vec<FinishedUnit>,
    decisions: &[Decision],
    how: Closing,
)
    requires within { length decisions.now ≤ length waiting.old.items }
    requires closable { AreClosable decisions.now (map effect_in waiting.old.items) units.old entries.old learn.old last.old }
    ensures closes { ClosesUnits how decisions.now (map effect_in waiting.old.items) units.old units.new entries.old entries.new learn.old learn.new
        last.old last.new }
    ensures waiting { waiting.new.items ≡ drop (length decisions.now) waiting.old.items }
{
    for decision in decisions {
        let done = waiting.remove(0);
        close_one(units, entries, learn, last, done, decision, how);
    }
}

// Closes one unit.
fn close_one(
    units: &mut UnitTable,
    entries: &mut EntryList,
    learn: &mut LearnQueue,
    last: &mut LastStates,
    done: FinishedUnit,
    decision: &Decision,
    how: Closing,
)
    requires over { is_over (phase_in units.old done.effect.unit) ≡ true }
    requires entries { 0 < entries.old.spare }
    requires learn { length done.effect.writes ≤ learn.old.spare }
    requires placed { ArePlaced (has_place last.old) done.effect.writes }
    ensures others { OnlyVerdictsChange units.old units.new }
    ensures verdict { verdict_in units.new ≡ put (verdict_in units.old) done.effect.unit (verdict_by how units.old done.effect.unit) }
    ensures entries { entries.new.entries ≡ entries.old.entries ++ entry_for done.effect.origin done.effect.unit
        (told (told_as how done.effect.result) decision.now) }
    ensures emitted { entries.new.emitted ≡ entries.old.emitted }
    ensures spare { entries.old.spare ≤ entries.new.spare + 1 }
    ensures pairs { learn.new.pairs ≡ learn.old.pairs ++ pairs_of (is_final (verdict_by how units.old done.effect.unit)) done.effect.unit
        done.effect.writes }
    ensures room { learn.old.spare ≤ learn.new.spare + length done.effect.writes }
    ensures last { (g : AGrain) → last_in last.new g ≡ state_after (is_committed (verdict_by how units.old done.effect.unit))
        (state_written g done.effect.writes) (last_in last.old g) }
    ensures places { KeepsPlaces last.old last.new }
{
    let effect = done.effect;
    let unit = effect.unit;
    let verdict = ends_as(how, units.verdict(unit));
    units.set_verdict(unit, verdict);
    teach(learn, unit, effect.writes.as_slice(), is_final(verdict));
    settle(
        entries,
        effect.origin,
        unit,
        told(how, effect.result, decision),
    );
    keep(last, effect.writes, is_committed(verdict));
}

// What becomes of a verdict.
fn ends_as(how: Closing, verdict: Verdict) -> Verdict
    ensures { result ≡ ends_as how verdict }
{
    match (how, verdict) {
        (Closing::Sealed, Verdict::Chosen) => Verdict::Committed,
        (Closing::NotSealed, Verdict::Chosen) => Verdict::Aborted,
        (_, Verdict::Condemned) => Verdict::Aborted,
        (_, other) => other,
    }
}

// Whether the verdict is one for good.
fn is_final(verdict: Verdict) -> bool
    ensures { result ≡ is_final verdict }
{
    match verdict {
        Verdict::Committed | Verdict::Aborted => true,
        Verdict::Open | Verdict::Chosen | Verdict::Condemned => false,
    }
}

// What a unit's line is told: its cause, or the answer where it could commit.
fn told(how: Closing, outcome: Outcome, decision: &Decision) -> Settled
    ensures { result ≡ told (told_as how outcome) decision.now }
{
    match decision {
        Decision::Vote { grain } => Settled::Vote { grain: *grain },
        Decision::Dependency { on } => Settled::Dependency { on: *on },
        Decision::Commit => match how {
            Closing::Sealed => Settled::Done(outcome),
            Closing::NotSealed => Settled::Disk,
            Closing::Doubt => Settled::InDoubt,
        },
    }
}

// The grains that the unit wrote have its verdict to learn, where it is one for good.
fn teach(learn: &mut LearnQueue, unit: UnitNo, writes: &[(GrainId, State)], is_final: bool)
    requires { length writes.now ≤ learn.old.spare }
    ensures pairs { learn.new.pairs ≡ learn.old.pairs ++ pairs_of is_final unit writes.now }
    ensures room { learn.old.spare ≤ learn.new.spare + length writes.now }
{
    if !is_final {
        return;
    }
    for write in writes {
        learn.push(unit, write.0);
    }
}

// The states that a committed unit wrote are their grains' last ones: of a grain that it wrote twice the first.
fn keep(last: &mut LastStates, writes: List<(GrainId, State)>, is_committed: bool)
    requires { ArePlaced (has_place last.old) writes }
    ensures last { (g : AGrain) → last_in last.new g ≡ state_after is_committed (state_written g writes) (last_in last.old g) }
    ensures places { KeepsPlaces last.old last.new }
{
    if !is_committed {
        return;
    }
    let mut writes = writes.into_vec();
    while let Some((grain, state)) = writes.pop() {
        last.put(grain, state);
    }
}
