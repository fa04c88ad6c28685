ghost use Rattle.std.specs.Prelude.{◌≡◌, ◌<◌, ◌≤◌, true, None, is_none, length, filter, slice_get, vec_len, IfOk};
ghost use Rattle.std.specs.List.{list_any};
ghost use Rattle.std.specs.Option.{option_copied};
ghost use Rattle.cell_model.specs.Units.{same_grain};
ghost use Rattle.cell_model.specs.Decisions.{is_commit};
ghost use Rattle.core_model.specs.Tests.{is_bad, is_good, is_aborted, is_empty};
ghost use Rattle.open_batch.specs.Members.{decisions_by, versions_by, to_commit_by};
ghost use Rattle.open_batch.specs.TakenBatch.{IsOf, first_batch, with_vote, with_decisions, without_grain, commits_in, view_by};
ghost use Rattle.unit_table.specs.Table.{verdict_in};

use crate::decisions::{against, decide_members};
use crate::members::FinishedUnit;
use crate::outcomes::{aborted_of, effects_of, to_commit_of, versions_of};
use crate::plan::{is_same, plan_of};
use crate::unit_parts::{prepared_of, sources_of};
use base_types::{GrainId, List, UnitNo, Version};
use cell_model::{Decision, Prepared};
use core_model::{BatchView, Effect};
use std::alloc::{AllocError, Global};
use std::marker::Model;
use std::mem;
use unit_table::UnitTable;

/// A batch that was taken and isn't closed: its number, the grains of its plan without a vote, the votes, and
/// once it is decided one decision for each unit. Its units are the front of the caller's queue, the same at
/// each call. A batch has at most 64 units.
///
/// `take` makes the room of all votes and decisions, so that they take no memory.
#[derive(Drop)]
pub struct OpenBatch {
    number: u64,
    size: usize,
    prepared: Vec<Prepared>,
    sources: Vec<UnitNo>,
    unvoted: Vec<GrainId>,
    votes: Vec<(GrainId, bool)>,
    decisions: Vec<Decision>,
    is_decided: bool,
    alloc: Global,
}

impl Model for OpenBatch {
    ghost use Rattle.std.specs.Prelude.{◌≡◌, ◌≤◌, ◌+◌, vec_len, vec_capacity};
    ghost use Rattle.open_batch.specs.TakenBatch.{TakenBatch, decisions_if};

    ghost Value = { TakenBatch };

    ghost view = { λ b. record { number = b.number; size = b.size; prepared = b.prepared.items; sources = b.sources.items; unvoted = b.unvoted.items; votes = b.votes.items; decisions = decisions_if b.is_decided b.decisions.items } };

    // Each grain without a vote has room for it, and each unit for its decision.
    ghost invariant = { λ b. (vec_len b.votes + vec_len b.unvoted ≤ vec_capacity b.votes) × (vec_len b.decisions ≡ b.size) × (b.size ≤ 64) };
}

impl OpenBatch {
    /// The batch of these finished units, at most 64. Its plan are the grains that they wrote, in order, each
    /// once, but for units of which a source is aborted, or to abort.
    pub fn take(
        alloc: Global,
        number: u64,
        members: &[FinishedUnit],
        units: &UnitTable,
    ) -> Result<OpenBatch, AllocError>
        requires { length members.now ≤ 64 }
        ensures { IfOk result (λ made. made ≡ first_batch number (λ u. is_bad (verdict_in units.now u)) members.now) }
    {
        let prepared = prepared_of(alloc, members)?;
        let sources = sources_of(alloc, members)?;
        let unvoted = plan_of(alloc, members, units)?;
        let votes = Vec::with_capacity(alloc, unvoted.len())?;
        let decisions = vec![in alloc; Decision::Commit; members.len()]?;
        Ok(OpenBatch {
            number,
            size: members.len(),
            prepared,
            sources,
            unvoted,
            votes,
            decisions,
            is_decided: false,
            alloc,
        })
    }

    /// The batch's number.
    pub fn number(&self) -> u64
        ensures { result ≡ self.now.number }
    {
        self.number
    }

    /// How many units the batch has.
    pub fn size(&self) -> usize
        ensures size { result ≡ self.now.size }
        ensures most { result ≤ 64 }
    {
        self.size
    }

    /// Whether the batch isn't decided yet.
    pub fn is_open(&self) -> bool
        ensures { result ≡ is_none self.now.decisions }
    {
        !self.is_decided
    }

    /// Whether the grain is in the plan, and has no vote.
    pub fn may_vote(&self, grain: GrainId) -> bool
        ensures { result ≡ list_any (same_grain grain) self.now.unvoted }
    {
        self.unvoted.iter().any(|other| is_same(grain, *other))
    }

    /// Notes whether the grain's versions are on disk, for a grain that may be voted on. Takes no memory.
    pub fn vote(&mut self, grain: GrainId, kept: bool)
        requires { list_any (same_grain grain) self.old.unvoted ≡ true }
        ensures { self.new ≡ with_vote self.old grain kept }
    {
        drop_grain(&mut self.unvoted, grain);
        let done = self.votes.push((grain, kept));
        prove!(done.is_ok());
    }

    /// Whether each grain of the plan has its vote.
    pub fn is_voted(&self) -> bool
        ensures { result ≡ is_empty self.now.unvoted }
    {
        self.unvoted.is_empty()
    }

    /// The first grain of the plan without a vote.
    pub fn next_unvoted(&self) -> Option<GrainId>
        ensures { result ≡ slice_get self.now.unvoted 0 }
    {
        self.unvoted.first().copied()
    }

    /// Decides each unit, by the votes and by what is known of its sources now: a unit can't commit where it
    /// wrote a grain whose file failed, or where one of its sources is aborted, to abort, or can't commit.
    /// Takes no memory.
    pub fn decide(&mut self, members: &[FinishedUnit], units: &UnitTable)
        requires open { self.old.decisions ≡ None }
        requires taken_of { IsOf self.old members.now }
        ensures { self.new ≡ with_decisions self.old (decisions_by (λ u. is_bad (verdict_in units.now u)) self.old.votes members.now) }
    {
        let prepared = mem::replace(&mut self.prepared, Vec::new(self.alloc));
        let sources = mem::replace(&mut self.sources, Vec::new(self.alloc));
        decide_members(
            prepared,
            sources,
            against(&self.votes),
            members,
            units,
            &mut self.decisions,
        );
        self.is_decided = true;
    }

    /// One decision for each unit, once the batch is decided.
    pub fn decisions(&self) -> Option<&[Decision]>
        ensures { option_copied result ≡ self.now.decisions }
    {
        if self.is_decided {
            return Some(self.decisions.as_slice());
        }
        None
    }

    /// How many units are to commit, none as long as the batch isn't decided.
    pub fn commits(&self) -> u32
        ensures { result ≡ commits_in self.now.decisions }
    {
        if self.is_decided {
            return count_commits(&self.decisions);
        }
        0
    }

    /// The grain's versions that go to its file, in batch order: those of the units that wrote it and of which
    /// no source is aborted, or to abort.
    pub fn versions(
        &self,
        members: &[FinishedUnit],
        units: &UnitTable,
        grain: GrainId,
    ) -> Result<List<Version>, AllocError>
        ensures { IfOk result (λ made. made ≡ versions_by (λ u. is_bad (verdict_in units.now u)) grain members.now) }
    {
        versions_of(self.alloc, members, units, grain)
    }

    /// What those units did that are to commit, in batch order.
    pub fn to_commit(
        &self,
        members: &[FinishedUnit],
        units: &UnitTable,
    ) -> Result<List<Effect>, AllocError>
        ensures { IfOk result (λ made. made ≡ to_commit_by (λ u. is_good (verdict_in units.now u)) members.now) }
    {
        to_commit_of(self.alloc, members, units)
    }

    /// All that is shown of the batch.
    pub fn view(&self, members: &[FinishedUnit], units: &UnitTable) -> Result<BatchView, AllocError>
        ensures { IfOk result (λ made. made ≡ view_by (λ u. is_aborted (verdict_in units.now u)) self.now members.now) }
    {
        let effects = effects_of(self.alloc, members)?;
        let aborted = aborted_of(self.alloc, members, units)?;
        let votes = List::from_vec(Vec::from_slice(self.alloc, &self.votes)?);
        let decisions = self.copy_decisions()?;
        Ok(BatchView {
            batch: self.number,
            effects,
            aborted,
            votes,
            decisions,
        })
    }

    // A copy of the decisions, once there are any.
    fn copy_decisions(&self) -> Result<Option<List<Decision>>, AllocError>
        ensures { IfOk result (λ made. made ≡ self.now.decisions) }
    {
        if !self.is_decided {
            return Ok(None);
        }
        let decisions = Vec::from_slice(self.alloc, &self.decisions)?;
        Ok(Some(List::from_vec(decisions)))
    }
}

// Keeps the other grains.
fn drop_grain(grains: &mut Vec<GrainId>, grain: GrainId)
    requires { list_any (same_grain grain) grains.old.items ≡ true }
    ensures items { grains.new.items ≡ without_grain grain grains.old.items }
    ensures fewer { vec_len grains.new < vec_len grains.old }
{
    grains.retain(|other| !is_same(grain, *other));
}

// How many of the decisions are to commit.
fn count_commits(decisions: &[Decision]) -> u32
    requires { length decisions.now ≤ 64 }
    ensures { result ≡ length (filter is_commit decisions.now) }
{
    decisions.iter().filter(|one| commits(one)).count() as u32
}

// Whether the decision is to commit.
fn commits(decision: &Decision) -> bool
    ensures { result ≡ is_commit decision.now }
{
    match decision {
        Decision::Commit => true,
        Decision::Vote { .. } | Decision::Dependency { .. } => false,
    }
}
