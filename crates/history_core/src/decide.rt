// A batch is decided.
ghost use Rattle.std.specs.Prelude.{◌≡◌, ◌≤◌, ℕ, Option as AnOption, Some, length, map};
ghost use Rattle.base_types.specs.declared.calls.UnitNo.{UnitNo as AUnit};
ghost use Rattle.core_model.specs.Changes.{verdict_of};
ghost use Rattle.core_model.specs.Tests.{is_over};
ghost use Rattle.core_model.specs.declared.events.CoreEvent.TheVariants.{Decide};
ghost use Rattle.cell_table.specs.Table.{opens_with};
ghost use Rattle.unit_table.specs.Table.{units_of, verdict_in, result_in, phase_in};
ghost use Rattle.open_batch.specs.Members.{effect_in};
ghost use Rattle.open_batch.specs.TakenBatch.{TakenBatch, with_decisions, commits_in};
ghost use Rattle.history_core.specs.Decisions.{judged_after, decisions_now, IsUndecided};
ghost use Rattle.history_core.specs.Fronts.{AreOver};
ghost use Rattle.history_core.specs.Batches.{may_decide_in};
ghost use Rattle.history_core.specs.Steps.{CanDo, Tells, Does};

use crate::batch_closing::Closing;
use crate::parts::Parts;
use cell_model::Decision;
use core_model::{CoreReply, Verdict};
use open_batch::{FinishedUnit, OpenBatch};
use unit_table::UnitTable;

impl Parts {
    // Whether that batch is open and undecided, and all its votes are there; no stop stands.
    pub(crate) fn can_decide(&self, number: u64) -> bool
        ensures { Tells self.now (Decide number) result }
    {
        self.is_going() && may_decide(&self.batch, number)
    }

    // The batch is decided; with nothing to commit it closes at once. Takes no memory.
    pub(crate) fn decide(&mut self, number: u64) -> CoreReply
        requires can { CanDo self.old (Decide number) }
        ensures ok { Does self.old (Decide number) result self.new }
        ensures opens { opens_with self.new.cells ≡ opens_with self.old.cells }
    {
        let commits = self.judge();
        if commits > 0 {
            return CoreReply::Decided { commits };
        }
        self.close(Closing::Sealed);
        CoreReply::Decided { commits }
    }

    // Each unit of the batch has its decision, and a verdict by it. Answers how many are to commit.
    fn judge(&mut self) -> u32
        requires { IsUndecided self.old }
        ensures units { (seen : AUnit → AnOption ℕ) → units_of self.new.units seen ≡ units_of self.old.units seen }
        ensures result { result_in self.new.units ≡ result_in self.old.units }
        ensures verdict { (x : TakenBatch) → self.old.batch ≡ Some x
            → verdict_in self.new.units ≡ judged_after (decisions_now self.old x) (map effect_in self.old.waiting.items) (verdict_in self.old.units) }
        ensures batch { (x : TakenBatch) → self.old.batch ≡ Some x → self.new.batch ≡ Some (with_decisions x (decisions_now self.old x)) }
        ensures commits { (x : TakenBatch) → self.old.batch ≡ Some x → result ≡ commits_in (Some (decisions_now self.old x)) }
        ensures cells { self.new.cells ≡ self.old.cells }
        ensures waiting { self.new.waiting ≡ self.old.waiting }
        ensures batches { self.new.batches ≡ self.old.batches }
        ensures doubt { self.new.doubt ≡ self.old.doubt }
        ensures entries { self.new.entries ≡ self.old.entries }
        ensures learn { self.new.learn ≡ self.old.learn }
        ensures last { self.new.last ≡ self.old.last }
        ensures handed { self.new.handed ≡ self.old.handed }
    {
        let Some(batch) = &mut self.batch else {
            unreachable!()
        };
        let size = batch.size();
        batch.decide(&self.waiting[..size], &self.units);
        let Some(decisions) = batch.decisions() else {
            unreachable!()
        };
        judge_all(&mut self.units, decisions, &self.waiting);
        batch.commits()
    }
}

// Gives the first of these units the verdicts by the decisions.
fn judge_all(units: &mut UnitTable, decisions: &[Decision], members: &[FinishedUnit])
    requires within { length decisions.now ≤ length members.now }
    requires over { AreOver (λ u. is_over (phase_in units.old u)) decisions.now (map effect_in members.now) }
    ensures units { (seen : AUnit → AnOption ℕ) → units_of units.new seen ≡ units_of units.old seen }
    ensures result { result_in units.new ≡ result_in units.old }
    ensures verdict { verdict_in units.new ≡ judged_after decisions.now (map effect_in members.now) (verdict_in units.old) }
{
    for at in 0..decisions.len() {
        let verdict = verdict_of(&decisions[at]);
        units.set_verdict(members[at].effect.unit, verdict);
    }
}

// The verdict that a decision makes.
fn verdict_of(decision: &Decision) -> Verdict
    ensures { result ≡ verdict_of decision.now }
{
    match decision {
        Decision::Commit => Verdict::Chosen,
        Decision::Vote { .. } | Decision::Dependency { .. } => Verdict::Condemned,
    }
}

// Whether that batch is open and undecided, and all its votes are there.
fn may_decide(batch: &Option<OpenBatch>, number: u64) -> bool
    ensures { result ≡ may_decide_in batch.now number }
{
    match batch {
        None => false,
        Some(batch) => batch.number() == number && batch.is_open() && batch.is_voted(),
    }
}
