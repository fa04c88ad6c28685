ghost use Rattle.std.specs.Prelude.{◌≡◌, not, Some};
ghost use Rattle.core_model.specs.CoreState.{same_grain};
ghost use Rattle.core_model.specs.Tests.{first_grain, first_of_two, is_before};
ghost use Rattle.core_access.specs.Sights.{Counts};
ghost use Rattle.script_tree.specs.Programs.{program_tree};
ghost use Rattle.script_machine.specs.declared.machine.Pause.TheVariants.{Done as IsAtEnd};
ghost use Rattle.txn_agent.specs.declared.work.Doing.TheVariants.{Frees as FreesAll};
ghost use Rattle.txn_agent.specs.CoreLink.{KnowsPaused, KnowsDoing};
ghost use Rattle.txn_agent.specs.AgentStep.{HasStepped, all_but};

use crate::agent::Advanced;
use crate::puts::{put_end, put_release};
use crate::work::{Carried, Doing, Work};
use base_types::{GrainId, List, Outcome};
use core_access::Access;
use script_check::Checked;
use std::alloc::{AllocError, Global};

/// Ends a unit whose script is over: finishes a transaction, or ends a plain run. Then its locks are to be given back, of which
/// a plain run has none.
pub fn finish<A: Access>(
    alloc: Global,
    checked: &Checked,
    access: &mut A,
    carried: Carried,
    work: Work,
    outcome: Outcome,
) -> Result<(Doing, Advanced), AllocError>
    requires fit { A.is_fit access.old }
    requires counts { Counts (A.sight access.old) }
    requires paused { KnowsPaused (program_tree checked.now) (A.sight access.old) carried work (IsAtEnd outcome) }
    ensures stepped { HasStepped A.is_fit A.aside A.may_come A.sight (program_tree checked.now) carried work.kids access.old access.new result }
{
    drop(outcome);
    let (effect, held) = work.into_effect(alloc, carried)?;
    let done = put_end(access, carried.plain, carried.unit, effect)?;
    if done {
        return Ok((Doing::Frees { held }, Advanced::Moved));
    }
    Ok((Doing::Stopped, Advanced::Moved))
}

/// Whether a grain comes before another.
fn comes_before(one: GrainId, other: GrainId) -> bool
    ensures { result ≡ is_before one other }
{
    one.kind < other.kind || (one.kind == other.kind && one.key < other.key)
}

/// The first of a grain and the first of others.
fn first_of(grain: GrainId, others: Option<GrainId>) -> GrainId
    ensures { Some result ≡ first_of_two grain others }
{
    match others {
        None => grain,
        Some(other) => {
            if comes_before(other, grain) {
                other
            } else {
                grain
            }
        }
    }
}

/// The first of these grains.
fn lowest(grains: &[GrainId]) -> Option<GrainId>
    ensures { result ≡ first_grain grains.now }
{
    let [first, rest @ ..] = grains else {
        return None;
    };
    Some(first_of(*first, lowest(rest)))
}

/// Whether these are two grains.
fn differs(one: GrainId, other: GrainId) -> bool
    ensures { result ≡ not (same_grain one other) }
{
    one.kind != other.kind || one.key != other.key
}

/// These grains but for one.
fn leave(held: List<GrainId>, grain: GrainId) -> List<GrainId>
    ensures { result ≡ all_but grain held }
{
    let mut grains = held.into_vec();
    grains.retain(|other| differs(*other, grain));
    List::from_vec(grains)
}

/// Gives the first of the unit's locks back; a unit that has none has ended.
pub fn release<A: Access>(
    checked: &Checked,
    access: &mut A,
    carried: Carried,
    held: List<GrainId>,
) -> Result<(Doing, Advanced), AllocError>
    requires fit { A.is_fit access.old }
    requires counts { Counts (A.sight access.old) }
    requires over { KnowsDoing (program_tree checked.now) (A.sight access.old) carried (FreesAll held) }
    ensures stepped { HasStepped A.is_fit A.aside A.may_come A.sight (program_tree checked.now) carried 0 access.old access.new result }
{
    let Some(grain) = lowest(held.as_slice()) else {
        return Ok((Doing::Frees { held }, Advanced::Ended));
    };
    let done = put_release(access, carried.unit, grain)?;
    if done {
        let held = leave(held, grain);
        return Ok((Doing::Frees { held }, Advanced::Moved));
    }
    Ok((Doing::Frees { held }, Advanced::Moved))
}
