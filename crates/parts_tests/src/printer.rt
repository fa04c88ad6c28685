use base_types::{Outcome, State, UnitNo, Version};
use std::alloc::AllocError;
use test_cases::{add_outcome, add_values};

/// Writes ` = true`.
pub fn add_flag(out: &mut String, flag: bool) -> Result<(), AllocError> {
    write!(out, " = {flag}")
}

/// Writes ` = 2`.
pub fn add_count(out: &mut String, count: usize) -> Result<(), AllocError> {
    write!(out, " = {count}")
}

/// Writes ` = 4 (40)`: a unit, and a state.
pub fn add_found(out: &mut String, unit: UnitNo, state: &State) -> Result<(), AllocError> {
    let unit = unit.0;
    write!(out, " = {unit} ")?;
    add_values(out, state.as_slice())
}

/// Writes ` = (40)`, or ` = none`.
pub fn add_state(out: &mut String, state: Option<&State>) -> Result<(), AllocError> {
    let Some(state) = state else {
        return out.push_str(" = none");
    };
    out.push_str(" = ")?;
    add_values(out, state.as_slice())
}

/// Writes ` = 3 5`.
pub fn add_units(out: &mut String, units: &[UnitNo]) -> Result<(), AllocError> {
    out.push_str(" =")?;
    add_numbers(out, units)
}

/// Writes ` 3 5`.
pub fn add_numbers(out: &mut String, units: &[UnitNo]) -> Result<(), AllocError> {
    for unit in units {
        let unit = unit.0;
        write!(out, " {unit}")?;
    }
    Ok(())
}

/// Writes ` = 0(100) 4(40)`.
pub fn add_versions(out: &mut String, versions: &[Version]) -> Result<(), AllocError> {
    out.push_str(" =")?;
    add_each(out, versions)
}

/// Writes ` 0(100) 4(40)`.
pub fn add_each(out: &mut String, versions: &[Version]) -> Result<(), AllocError> {
    for version in versions {
        let unit = version.unit.0;
        write!(out, " {unit}")?;
        add_values(out, version.state.as_slice())?;
    }
    Ok(())
}

/// Writes ` = aborted`, or ` = none`.
pub fn add_known(out: &mut String, outcome: Option<&Outcome>) -> Result<(), AllocError> {
    let Some(outcome) = outcome else {
        return out.push_str(" = none");
    };
    out.push_str(" = ")?;
    add_outcome(out, outcome)
}
