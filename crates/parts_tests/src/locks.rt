//! `locks`: the locks of a grain. A mode is `read` or `update`.
//!
//! | A step | does |
//! |---|---|
//! | `take UNIT MODE` | grants the lock, which is free |
//! | `ask UNIT MODE` | tells what the unit is answered |
//! | `look UNIT` | tells whether the unit has a lock, and whether it has the grain alone |
//! | `drop UNIT` | takes the unit's lock back |
//! | `empty` | tells whether nobody has a lock |

use crate::cases::{Part, carry, no_step};
use crate::printer::add_flag;
use crate::steps::Step;
use rw_locks::{Ask, LockTable};
use std::alloc::{AllocError, Global};

/// Puts the locks of a grain through the steps.
pub fn play(alloc: Global, out: &mut String, steps: &str) -> Result<(), AllocError> {
    let mut table = LockTable::new(alloc)?;
    carry(&mut table, alloc, out, steps)
}

// Grants the lock, which is free.
fn take(table: &mut LockTable, out: &mut String, step: &Step<'_>) -> Result<(), AllocError> {
    let unit = step.unit(1);
    let mode = step.mode(2);
    table.reserve()?;
    let Ask::Free = table.ask(unit, mode) else {
        return out.push_str(" = not free");
    };
    table.grant(unit, mode);
    Ok(())
}

fn ask(table: &LockTable, out: &mut String, step: &Step<'_>) -> Result<(), AllocError> {
    let answer = table.ask(step.unit(1), step.mode(2));
    write!(out, " = {answer:?}")
}

fn look(table: &LockTable, out: &mut String, step: &Step<'_>) -> Result<(), AllocError> {
    let held = table.is_held_by(step.unit(1));
    let alone = table.is_held_alone_by(step.unit(1));
    write!(out, " = held {held}, alone {alone}")
}

fn give_back(table: &mut LockTable, step: &Step<'_>) -> Result<(), AllocError> {
    table.drop_lock(step.unit(1));
    Ok(())
}

impl Part for LockTable {
    fn step(&mut self, out: &mut String, step: &Step<'_>) -> Result<(), AllocError> {
        match step.word(0) {
            "take" => take(self, out, step),
            "ask" => ask(self, out, step),
            "look" => look(self, out, step),
            "drop" => give_back(self, step),
            "empty" => add_flag(out, self.is_empty()),
            _ => no_step(out),
        }
    }
}
