ghost use Rattle.std.specs.Prelude.{◌≡◌, ◌++◌, map, filter, if◌then◌else◌, IfOk, OnOk};
ghost use Rattle.std.specs.Option.{option_copied};
ghost use Rattle.cell_model.specs.Sources.{with_source};
ghost use Rattle.core_model.specs.Tests.{is_bad, is_good, is_aborted, state_written};
ghost use Rattle.core_model.specs.Answers.{as_set};
ghost use Rattle.open_batch.specs.Members.{effect_in, version_by, versions_by, kept_by, to_commit_by, aborted_by};
ghost use Rattle.unit_table.specs.Table.{verdict_in};

use crate::members::{FinishedUnit, is_aborted, is_good, is_left_out};
use crate::plan::is_same;
use crate::unit_parts::sources_of;
use base_types::{GrainId, List, State, UnitNo, Version};
use core_model::Effect;
use dependency_sets::DepSet;
use std::alloc::{AllocError, Global};
use unit_table::UnitTable;

// The grain's versions of these units, in their order, but for units that are left out.
pub fn versions_of(
    alloc: Global,
    members: &[FinishedUnit],
    units: &UnitTable,
    grain: GrainId,
) -> Result<List<Version>, AllocError>
    ensures { IfOk result (λ made. made ≡ versions_by (λ u. is_bad (verdict_in units.now u)) grain members.now) }
{
    let mut versions = List::new(alloc);
    for member in members {
        add_version(&mut versions, member, units, grain)?;
    }
    Ok(versions)
}

// Adds the unit's version of the grain, where it wrote it and isn't left out.
fn add_version(
    versions: &mut List<Version>,
    member: &FinishedUnit,
    units: &UnitTable,
    grain: GrainId,
) -> Result<(), AllocError>
    ensures { OnOk result (versions.new ≡ versions.old ++ version_by (λ u. is_bad (verdict_in units.now u)) grain member.now) }
{
    let Some(state) = written(member.effect.writes.as_slice(), grain) else {
        return Ok(());
    };
    if is_left_out(member, units) {
        return Ok(());
    }
    versions.push(Version {
        unit: member.effect.unit,
        state: state.copy()?,
    })?;
    Ok(())
}

// The state that these writes leave in the grain.
fn written(writes: &[(GrainId, State)], grain: GrainId) -> Option<&State>
    ensures { option_copied result ≡ state_written grain writes.now }
{
    for write in writes {
        if is_same(write.0, grain) {
            return Some(&write.1);
        }
    }
    None
}

// What those of the units did that are to commit.
pub fn to_commit_of(
    alloc: Global,
    members: &[FinishedUnit],
    units: &UnitTable,
) -> Result<List<Effect>, AllocError>
    ensures { IfOk result (λ made. made ≡ to_commit_by (λ u. is_good (verdict_in units.now u)) members.now) }
{
    let mut effects = List::from_vec(Vec::with_capacity(alloc, members.len())?);
    for member in members {
        add_kept(&mut effects, member, units)?;
    }
    Ok(effects)
}

// Adds what the unit did, where it is to commit.
fn add_kept(
    effects: &mut List<Effect>,
    member: &FinishedUnit,
    units: &UnitTable,
) -> Result<(), AllocError>
    ensures { OnOk result (effects.new ≡ effects.old ++ kept_by (λ u. is_good (verdict_in units.now u)) member.now) }
{
    if is_good(units.verdict(member.effect.unit)) {
        effects.push(member.effect.copy()?)?;
    }
    Ok(())
}

// What the units did.
pub fn effects_of(alloc: Global, members: &[FinishedUnit]) -> Result<List<Effect>, AllocError>
    ensures { IfOk result (λ made. made ≡ map effect_in members.now) }
{
    let mut effects = List::new(alloc);
    for member in members {
        effects.push(member.effect.copy()?)?;
    }
    Ok(effects)
}

// The sources of the units that are aborted, in order, each once.
pub fn aborted_of(
    alloc: Global,
    members: &[FinishedUnit],
    units: &UnitTable,
) -> Result<List<UnitNo>, AllocError>
    ensures { IfOk result (λ made. made ≡ aborted_by (λ u. is_aborted (verdict_in units.now u)) members.now) }
{
    let sources = sources_of(alloc, members)?;
    let set = aborted_among(alloc, &sources, units)?;
    set.copy_list()
}

// Those of the units that are aborted.
fn aborted_among(alloc: Global, sources: &[UnitNo], units: &UnitTable) -> Result<DepSet, AllocError>
    ensures { IfOk result (λ made. made.sources ≡ as_set (filter (λ u. is_aborted (verdict_in units.now u)) sources.now)) }
{
    let mut set = DepSet::new(alloc)?;
    let mut at = sources.len();
    while at > 0 {
        at -= 1;
        add_aborted(&mut set, sources[at], units)?;
    }
    Ok(set)
}

// Adds the unit, where it is aborted.
fn add_aborted(set: &mut DepSet, source: UnitNo, units: &UnitTable) -> Result<(), AllocError>
    ensures { OnOk result (set.new.sources ≡ (if is_aborted (verdict_in units.now source) then with_source set.old.sources source else set.old.sources)) }
{
    if is_aborted(units.verdict(source)) {
        set.add_source(source)?;
    }
    Ok(())
}
