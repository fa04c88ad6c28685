ghost use Rattle.std.specs.Prelude.{◌≡◌, ◌||◌, map, position, IfOk, OnOk};
ghost use Rattle.cell_model.specs.Units.{same_grain};
ghost use Rattle.core_model.specs.CoreState.{Write};
ghost use Rattle.core_model.specs.Tests.{is_bad, is_before, with_grain};
ghost use Rattle.open_batch.specs.Members.{grains_by, plan_of, with_grains};
ghost use Rattle.unit_table.specs.Table.{verdict_in};

use crate::members::{FinishedUnit, is_left_out};
use base_types::{GrainId, State};
use std::alloc::{AllocError, Global};
use unit_table::UnitTable;

// The grains that these units wrote, but for units that are left out, in order, each once.
pub fn plan_of(
    alloc: Global,
    members: &[FinishedUnit],
    units: &UnitTable,
) -> Result<Vec<GrainId>, AllocError>
    ensures { IfOk result (λ made. made.items ≡ plan_of (λ u. is_bad (verdict_in units.now u)) members.now) }
{
    let mut plan = Vec::new(alloc);
    let mut at = members.len();
    while at > 0 {
        at -= 1;
        add_unit(&mut plan, &members[at], units)?;
    }
    Ok(plan)
}

// Adds the grains that the unit wrote, where it isn't left out.
fn add_unit(
    plan: &mut Vec<GrainId>,
    member: &FinishedUnit,
    units: &UnitTable,
) -> Result<(), AllocError>
    ensures { OnOk result (plan.new.items ≡ with_grains (grains_by (λ u. is_bad (verdict_in units.now u)) member.now) plan.old.items) }
{
    if is_left_out(member, units) {
        return Ok(());
    }
    add_writes(plan, member.effect.writes.as_slice())?;
    Ok(())
}

// Adds the grains that were written.
fn add_writes(plan: &mut Vec<GrainId>, writes: &[(GrainId, State)]) -> Result<(), AllocError>
    ensures { OnOk result (plan.new.items ≡ with_grains (map (λ (x : Write). x.0) writes.now) plan.old.items) }
{
    let mut at = writes.len();
    while at > 0 {
        at -= 1;
        add_grain(plan, writes[at].0)?;
    }
    Ok(())
}

// Adds the grain in its place, where it isn't there.
fn add_grain(plan: &mut Vec<GrainId>, grain: GrainId) -> Result<(), AllocError>
    ensures { OnOk result (plan.new.items ≡ with_grain plan.old.items grain) }
{
    let Some(at) = place_of(plan, grain) else {
        plan.push(grain)?;
        return Ok(());
    };
    if !is_same(plan[at], grain) {
        plan.insert(at, grain)?;
    }
    Ok(())
}

// Where the first stands that doesn't come before the grain.
fn place_of(plan: &[GrainId], grain: GrainId) -> Option<usize>
    ensures { result ≡ position (λ x. same_grain x grain || is_before grain x) plan.now }
{
    plan.iter()
        .position(|other| is_same(*other, grain) || is_before(grain, *other))
}

// Whether the two are one grain.
pub fn is_same(a: GrainId, b: GrainId) -> bool
    ensures { result ≡ same_grain a b }
{
    a == b
}

// Whether one grain comes before the other: by type, then key.
pub fn is_before(a: GrainId, b: GrainId) -> bool
    ensures { result ≡ is_before a b }
{
    a.kind < b.kind || (a.kind == b.kind && a.key < b.key)
}
