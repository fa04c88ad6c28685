//! `table`: the cells of a program of one type, whose field is 100 at first; the store has 40 for its grain `0/1`.
//!
//! | A step | does |
//! |---|---|
//! | `take UNIT GRAIN MODE` | gives the lock, which is free, and tells the source and the state that the unit finds |
//! | `ask UNIT GRAIN MODE` | tells what the unit is answered |
//! | `look UNIT GRAIN` | tells whether the unit has a lock, and whether it has the grain alone |
//! | `free UNIT GRAIN` | the unit gives its lock back |
//! | `top GRAIN` | tells who wrote the newest version |

use crate::cases::{Part, carry, no_step};
use crate::printer::add_found;
use crate::steps::{Step, state_of};
use base_types::{GrainId, List, Shape, Store, Text, TypeShape};
use cell_model::Ask;
use cell_table::{CellTable, OpeningStates};
use std::alloc::{AllocError, Global};

fn shape(alloc: Global) -> Result<Shape, AllocError> {
    let mut types = List::new(alloc);
    if let Some(name) = Text::new(alloc, "counter")? {
        types.push(TypeShape {
            name,
            initial: state_of(alloc, 100)?,
            params: List::new(alloc),
        })?;
    }
    Ok(Shape { types })
}

fn store(alloc: Global) -> Result<Store, AllocError> {
    let mut store = Store::new(alloc);
    store.put(GrainId { kind: 0, key: 1 }, state_of(alloc, 40)?)?;
    Ok(store)
}

/// Puts the cells through the steps.
pub fn play(alloc: Global, out: &mut String, steps: &str) -> Result<(), AllocError> {
    let opened = OpeningStates::Stored(store(alloc)?);
    let mut table = CellTable::new(alloc, shape(alloc)?, opened, None);
    carry(&mut table, alloc, out, steps)
}

// Gives the unit the lock, which is free.
fn take(table: &mut CellTable, out: &mut String, step: &Step<'_>) -> Result<(), AllocError> {
    let unit = step.unit(1);
    let grain = step.grain(2);
    let mode = step.mode(3);
    if !table.is_here(grain) {
        return out.push_str(" = not here");
    }
    table.make_room(grain)?;
    let (_, Ask::Free) = table.is_here_and_ask(unit, grain, mode) else {
        return out.push_str(" = not free");
    };
    let found = table.top_over(grain, None)?;
    table.lock(unit, grain, mode);
    add_found(out, found.source, &found.state)
}

fn ask(table: &CellTable, out: &mut String, step: &Step<'_>) -> Result<(), AllocError> {
    let (_, answer) = table.is_here_and_ask(step.unit(1), step.grain(2), step.mode(3));
    write!(out, " = {answer:?}")
}

fn look(table: &CellTable, out: &mut String, step: &Step<'_>) -> Result<(), AllocError> {
    let held = table.is_held_by(step.unit(1), step.grain(2));
    let alone = table.is_held_alone_by(step.unit(1), step.grain(2));
    write!(out, " = held {held}, alone {alone}")
}

// The unit gives its lock back.
fn give_back(table: &mut CellTable, out: &mut String, step: &Step<'_>) -> Result<(), AllocError> {
    let unit = step.unit(1);
    let grain = step.grain(2);
    if !table.is_held_by(unit, grain) {
        return out.push_str(" = not held");
    }
    table.release(unit, grain, None);
    Ok(())
}

fn add_top(out: &mut String, table: &CellTable, step: &Step<'_>) -> Result<(), AllocError> {
    let top = table.top_unit(step.grain(1)).0;
    write!(out, " = {top}")
}

impl Part for CellTable {
    fn step(&mut self, out: &mut String, step: &Step<'_>) -> Result<(), AllocError> {
        match step.word(0) {
            "take" => take(self, out, step),
            "ask" => ask(self, out, step),
            "look" => look(self, out, step),
            "free" => give_back(self, out, step),
            "top" => add_top(out, self, step),
            _ => no_step(out),
        }
    }
}
