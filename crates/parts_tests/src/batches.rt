//! `batch`: a batch of finished units. The grains that they wrote are of type 1, and each has its key as its state.
//!
//! | A step | does |
//! |---|---|
//! | `aborted`, `chosen` | the next unit, from 1 on, is over, and has aborted or is to commit |
//! | `unit UNIT KEY SOURCE ..` | one more finished unit, with the key of the grain that it wrote and its sources |
//! | `units UNIT UNIT KEY SOURCE ..` | likewise each unit from one to another |
//! | `decide` | takes the batch 5 of these, with a no on the first grain of its plan and a yes on the second, and decides it |
//! | `counts`, `decisions`, `view` | tells numbers of the batch, what becomes of each unit, and what is shown of the batch |
//! | `versions KEY` | tells the versions that go to the grain's file |
//! | `to_commit` | tells how many units are to commit by the table |

ghost use Rattle.std.specs.Prelude.{◌≡◌, List as Items};
ghost use Rattle.open_batch.specs.declared.members.FinishedUnit.{FinishedUnit as Finished};
ghost use Rattle.open_batch.specs.TakenBatch.{IsOf};

use crate::cases::{Part, carry, no_step};
use crate::effects::{effect, grain, one_write};
use crate::printer::{add_count, add_versions};
use crate::steps::{Step, state_of};
use crate::units::call;
use base_types::{List, Origin, Outcome, UnitNo};
use core_model::{BatchView, Verdict};
use dependency_sets::DepSet;
use open_batch::{FinishedUnit, OpenBatch};
use std::alloc::{AllocError, Global};
use unit_table::UnitTable;

/// Finished units, what is known of their sources, and the batch that was taken of them.
#[derive(Drop)]
struct Bench {
    units: UnitTable,
    members: Vec<FinishedUnit>,
    batch: Option<OpenBatch>,
}

/// Puts finished units and their batch through the steps.
pub fn play(alloc: Global, out: &mut String, steps: &str) -> Result<(), AllocError> {
    let mut bench = Bench {
        units: UnitTable::new(alloc, UnitNo(1), 2),
        members: Vec::new(alloc),
        batch: None,
    };
    carry(&mut bench, alloc, out, steps)
}

fn deps_of(alloc: Global, sources: &[UnitNo]) -> Result<DepSet, AllocError> {
    let mut deps = DepSet::new(alloc)?;
    for source in sources {
        deps.add_source(*source)?;
    }
    Ok(deps)
}

// The unit, which wrote the grain of this key, and its sources.
fn finished(
    alloc: Global,
    unit: UnitNo,
    key: u32,
    sources: &[UnitNo],
) -> Result<FinishedUnit, AllocError> {
    let deps = deps_of(alloc, sources)?;
    let state = state_of(alloc, i64::from(key))?;
    let writes = one_write(alloc, key, state)?;
    let effect = effect(alloc, unit, List::new(alloc), List::new(alloc), writes);
    Ok(FinishedUnit { effect, deps })
}

fn add_unit(bench: &mut Bench, step: &Step<'_>) -> Result<(), AllocError> {
    let sources = step.units(3)?;
    let member = finished(step.alloc, step.unit(1), step.short(2), sources.as_slice())?;
    bench.members.push(member)?;
    Ok(())
}

// The units from one number up to another.
fn add_many(bench: &mut Bench, step: &Step<'_>) -> Result<(), AllocError> {
    let sources = step.units(4)?;
    let key = step.short(3);
    for unit in step.number(1)..=step.number(2) {
        let member = finished(step.alloc, UnitNo(unit), key, sources.as_slice())?;
        bench.members.push(member)?;
    }
    Ok(())
}

// The next unit of the table, from 1 on, is over with this verdict.
fn add_over(
    bench: &mut Bench,
    out: &mut String,
    alloc: Global,
    verdict: Verdict,
) -> Result<(), AllocError> {
    let origin = Origin::Line(1);
    let Ok(()) = bench.units.reserve_begin(&origin) else {
        return out.push_str(" = no room");
    };
    if bench.units.lines() > 9 {
        return out.push_str(" = ten lines have begun");
    }
    let unit = bench.units.begin(origin, call(alloc), false);
    if !bench.units.is_running(unit) {
        return out.push_str(" = not running");
    }
    let _ = bench.units.finish(unit, Outcome::Aborted);
    if !bench.units.is_over(unit) {
        return out.push_str(" = not over");
    }
    bench.units.set_verdict(unit, verdict);
    Ok(())
}

// Votes on the next grain of the plan, if there is one.
fn vote_next(batch: &mut OpenBatch, kept: bool)
    ensures units { (ms : Items Finished) → IsOf batch.old ms → IsOf batch.new ms }
    ensures decisions { batch.new.decisions ≡ batch.old.decisions }
{
    let Some(grain) = batch.next_unvoted() else {
        return;
    };
    if batch.may_vote(grain) {
        batch.vote(grain, kept);
    }
}

// Takes the batch of these units, with a no on the first grain of its plan and a yes on the second, and
// decides it.
fn decided(
    alloc: Global,
    members: &[FinishedUnit],
    units: &UnitTable,
) -> Result<Option<OpenBatch>, AllocError> {
    if members.len() > 64 {
        return Ok(None);
    }
    let mut batch = OpenBatch::take(alloc, 5, members, units)?;
    vote_next(&mut batch, false);
    vote_next(&mut batch, true);
    batch.decide(members, units);
    Ok(Some(batch))
}

fn take(bench: &mut Bench, alloc: Global) -> Result<(), AllocError> {
    bench.batch = decided(alloc, bench.members.as_slice(), &bench.units)?;
    Ok(())
}

fn add_counts(out: &mut String, batch: &OpenBatch) -> Result<(), AllocError> {
    let number = batch.number();
    let size = batch.size();
    let commits = batch.commits();
    let voted = batch.is_voted();
    let open = batch.is_open();
    write!(
        out,
        " = batch {number} of {size}, {commits} commit, voted {voted}, open {open}"
    )
}

fn add_decisions(out: &mut String, batch: &OpenBatch) -> Result<(), AllocError> {
    let decisions = batch.decisions();
    write!(out, " = {decisions:?}")
}

fn add_shown(out: &mut String, view: &BatchView) -> Result<(), AllocError> {
    let effects = view.effects.len();
    let votes = view.votes.as_slice();
    let aborted = view.aborted.as_slice();
    write!(
        out,
        " = {effects} effects, votes {votes:?}, aborted {aborted:?}"
    )
}

fn add_view(out: &mut String, bench: &Bench, batch: &OpenBatch) -> Result<(), AllocError> {
    let view = batch.view(bench.members.as_slice(), &bench.units)?;
    add_shown(out, &view)
}

fn add_kept(
    out: &mut String,
    bench: &Bench,
    batch: &OpenBatch,
    key: u32,
) -> Result<(), AllocError> {
    let versions = batch.versions(bench.members.as_slice(), &bench.units, grain(key))?;
    add_versions(out, versions.as_slice())
}

fn add_to_commit(out: &mut String, bench: &Bench, batch: &OpenBatch) -> Result<(), AllocError> {
    let effects = batch.to_commit(bench.members.as_slice(), &bench.units)?;
    add_count(out, effects.len())
}

fn look(bench: &Bench, out: &mut String, step: &Step<'_>) -> Result<(), AllocError> {
    let Some(batch) = &bench.batch else {
        return out.push_str(" = no batch");
    };
    match step.word(0) {
        "counts" => add_counts(out, batch),
        "decisions" => add_decisions(out, batch),
        "view" => add_view(out, bench, batch),
        "versions" => add_kept(out, bench, batch, step.short(1)),
        "to_commit" => add_to_commit(out, bench, batch),
        _ => no_step(out),
    }
}

impl Part for Bench {
    fn step(&mut self, out: &mut String, step: &Step<'_>) -> Result<(), AllocError> {
        match step.word(0) {
            "aborted" => add_over(self, out, step.alloc, Verdict::Aborted),
            "chosen" => add_over(self, out, step.alloc, Verdict::Chosen),
            "unit" => add_unit(self, step),
            "units" => add_many(self, step),
            "decide" => take(self, step.alloc),
            _ => look(self, out, step),
        }
    }
}
