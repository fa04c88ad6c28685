//! `cell`: a cell whose opening state is 100. A mode is `read` or `update`.
//!
//! | A step | does |
//! |---|---|
//! | `ask UNIT MODE` | tells what the unit is answered |
//! | `take UNIT MODE` | grants the lock, which is free, and tells the source and the state that the unit finds |
//! | `over UNIT MODE ABORTED` | likewise, step by step, and this aborted unit's version is taken off first; tells too whether the unit has a lock, and which version is the newest |
//! | `free UNIT` | the unit gives its lock back |
//! | `write UNIT NUMBER` | the unit gives this number and its lock back |
//! | `commit UNIT`, `abort UNIT` | the cell learns the unit's decision |
//! | `versions` | tells the versions, oldest first |
//! | `idle` | tells whether nobody has a lock and there is one version alone |

ghost use Rattle.std.specs.Prelude.{◌≡◌};
ghost use Rattle.cell_model.specs.declared.locks.Ask.TheVariants.{Free};
ghost use Rattle.cell_model.specs.Locks.{ask};

use crate::cases::{Part, carry, no_step};
use crate::printer::{add_flag, add_found, add_versions};
use crate::steps::{Step, state_of};
use base_types::{Mode, UnitNo, Version};
use cell_model::Ask;
use grain_cell::Cell;
use std::alloc::{AllocError, Global};

/// Puts a cell through the steps.
pub fn play(alloc: Global, out: &mut String, steps: &str) -> Result<(), AllocError> {
    let mut cell = Cell::new(
        alloc,
        Version {
            unit: UnitNo(0),
            state: state_of(alloc, 100)?,
        },
    )?;
    carry(&mut cell, alloc, out, steps)
}

fn ask(cell: &Cell, out: &mut String, step: &Step<'_>) -> Result<(), AllocError> {
    let answer = cell.ask(step.unit(1), step.mode(2));
    write!(out, " = {answer:?}")
}

// The unit is granted the lock, which is free.
fn take(cell: &mut Cell, out: &mut String, step: &Step<'_>) -> Result<(), AllocError> {
    let unit = step.unit(1);
    let mode = step.mode(2);
    let Ask::Free = cell.ask(unit, mode) else {
        return out.push_str(" = not free");
    };
    let found = cell.grant(unit, mode)?;
    add_found(out, found.source, &found.state)
}

// The same, step by step, where this aborted unit's version is taken off first.
fn take_over(cell: &mut Cell, out: &mut String, step: &Step<'_>) -> Result<(), AllocError> {
    let unit = step.unit(1);
    let mode = step.mode(2);
    let Ask::Free = cell.ask(unit, mode) else {
        return out.push_str(" = not free");
    };
    lock_over(cell, out, unit, mode, step.unit(3))?;
    let held = cell.is_held_by(unit);
    let top = cell.top_unit().0;
    write!(out, ", held {held}, over {top}")
}

fn lock_over(
    cell: &mut Cell,
    out: &mut String,
    unit: UnitNo,
    mode: Mode,
    aborted: UnitNo,
) -> Result<(), AllocError>
    requires { ask cell.old.cell.holds unit mode ≡ Free }
{
    cell.reserve()?;
    let found = cell.top_over(Some(aborted))?;
    cell.learn(aborted, false);
    cell.lock(unit, mode);
    add_found(out, found.source, &found.state)
}

// The unit, which only read, gives its lock back.
fn give_back(cell: &mut Cell, out: &mut String, step: &Step<'_>) -> Result<(), AllocError> {
    let unit = step.unit(1);
    let Ask::Held = cell.ask(unit, Mode::Read) else {
        return out.push_str(" = not held");
    };
    cell.release(unit, None);
    Ok(())
}

// The unit gives this number and its lock back.
fn write_back(cell: &mut Cell, out: &mut String, step: &Step<'_>) -> Result<(), AllocError> {
    let unit = step.unit(1);
    let state = step.state(2)?;
    let Ask::Held = cell.ask(unit, Mode::Read) else {
        return out.push_str(" = not held");
    };
    let Ask::Held = cell.ask(unit, Mode::Update) else {
        return out.push_str(" = not held alone");
    };
    cell.release(unit, Some(state));
    Ok(())
}

fn learn(cell: &mut Cell, step: &Step<'_>, committed: bool) -> Result<(), AllocError> {
    cell.learn(step.unit(1), committed);
    Ok(())
}

impl Part for Cell {
    fn step(&mut self, out: &mut String, step: &Step<'_>) -> Result<(), AllocError> {
        match step.word(0) {
            "ask" => ask(self, out, step),
            "take" => take(self, out, step),
            "over" => take_over(self, out, step),
            "free" => give_back(self, out, step),
            "write" => write_back(self, out, step),
            "commit" => learn(self, step, true),
            "abort" => learn(self, step, false),
            "versions" => add_versions(out, self.versions()),
            "idle" => add_flag(out, self.is_idle()),
            _ => no_step(out),
        }
    }
}
