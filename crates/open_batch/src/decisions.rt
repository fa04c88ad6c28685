ghost use Rattle.std.specs.Prelude.{◌≡◌, ◌<◌, ◌&&◌, Bool, Some, List as AList, not, map, filter, set, length, vec_len, slice_index_or};
ghost use Rattle.std.specs.List.{list_all};
ghost use Rattle.base_types.specs.declared.calls.UnitNo.{UnitNo as AUnit};
ghost use Rattle.open_batch.specs.declared.members.FinishedUnit.{FinishedUnit as AMember};
ghost use Rattle.cell_model.specs.declared.outcomes.Prepared.{Prepared};
ghost use Rattle.core_model.specs.Tests.{is_bad, has_failed, is_vote_on, failed_in, first_of_two};
ghost use Rattle.open_batch.specs.Members.{unprepared, sources_of, named, with_failed, decisions_by};
ghost use Rattle.unit_table.specs.Table.{verdict_in};

use crate::members::{FinishedUnit, is_bad};
use crate::plan::{is_before, is_same};
use base_types::{GrainId, List, State, UnitNo};
use cascade_abort::decide_batch;
use cell_model::{Decision, Prepared};
use unit_table::UnitTable;

// The votes as far as a unit's decision hangs on them: none where each of them is a yes.
pub fn against(votes: &[(GrainId, bool)]) -> &[(GrainId, bool)]
    ensures { (bad : AUnit → Bool) (members : AList AMember) → decisions_by bad result.now members ≡ decisions_by bad votes.now members }
{
    if are_yes(votes) {
        return &votes[..0];
    }
    votes
}

// Whether each vote is a yes.
fn are_yes(votes: &[(GrainId, bool)]) -> bool
    ensures { result ≡ list_all (λ v. v.1) votes.now }
{
    votes.iter().all(|vote| vote.1)
}

// Decides each unit, by the votes and by what is known of its sources now. Takes no memory.
pub fn decide_members(
    mut prepared: Vec<Prepared>,
    mut sources: Vec<UnitNo>,
    votes: &[(GrainId, bool)],
    members: &[FinishedUnit],
    units: &UnitTable,
    into: &mut [Decision],
)
    requires prepared { prepared.items ≡ map unprepared members.now }
    requires sources { sources.items ≡ sources_of members.now }
    requires room { length members.now ≡ length into.old }
    ensures { into.new ≡ decisions_by (λ u. is_bad (verdict_in units.now u)) votes.now members.now }
{
    keep_bad(&mut sources, units);
    name_failed(&mut prepared, members, votes);
    decide_batch(&List::from_vec(prepared), &List::from_vec(sources), into);
}

// Keeps the sources that are aborted, or to abort.
fn keep_bad(sources: &mut Vec<UnitNo>, units: &UnitTable)
    ensures { sources.new.items ≡ filter (λ u. is_bad (verdict_in units.now u)) sources.old.items }
{
    sources.retain(|source| is_bad(units.verdict(*source)));
}

// Notes with each unit the first grain that it wrote whose file failed.
fn name_failed(prepared: &mut Vec<Prepared>, members: &[FinishedUnit], votes: &[(GrainId, bool)])
    requires { length members.now ≡ vec_len prepared.old }
    ensures { prepared.new.items ≡ named votes.now members.now prepared.old.items }
{
    for at in 0..members.len() {
        let failed = failed_in(members[at].effect.writes.as_slice(), votes);
        name_at(prepared, at, failed);
    }
}

// Notes the grain with one unit.
fn name_at(prepared: &mut Vec<Prepared>, at: usize, failed: Option<GrainId>)
    requires { at < vec_len prepared.old }
    ensures items { (d : Prepared) → prepared.new.items ≡ set prepared.old.items at (with_failed failed (slice_index_or prepared.old.items at d)) }
    ensures len { vec_len prepared.new ≡ vec_len prepared.old }
{
    prepared[at].failed = failed;
}

// The first grain that these writes name whose file failed.
fn failed_in(writes: &[(GrainId, State)], votes: &[(GrainId, bool)]) -> Option<GrainId>
    ensures { result ≡ failed_in votes.now writes.now }
{
    let mut found = None;
    let mut at = writes.len();
    while at > 0 {
        at -= 1;
        let grain = writes[at].0;
        if has_failed(votes, grain) {
            found = Some(first_of(grain, found));
        }
    }
    found
}

// Whether the grain's file failed.
fn has_failed(votes: &[(GrainId, bool)], grain: GrainId) -> bool
    ensures { result ≡ has_failed votes.now grain }
{
    votes.iter().any(|vote| is_against(vote, grain))
}

// Whether the vote is a no on the grain.
fn is_against(vote: &(GrainId, bool), grain: GrainId) -> bool
    ensures { result ≡ (is_vote_on grain vote.now && not vote.now.1) }
{
    is_same(vote.0, grain) && !vote.1
}

// The first of a grain and one that may be missing.
fn first_of(grain: GrainId, found: Option<GrainId>) -> GrainId
    ensures { Some result ≡ first_of_two grain found }
{
    match found {
        Some(other) if is_before(other, grain) => other,
        Some(_) | None => grain,
    }
}
