//! `units`: the units of a program of one type, of which the first will have the number 1. All read and want the grain `0/7`.
//!
//! | A step | does |
//! |---|---|
//! | `open UNIT TYPES` | another table, whose first unit will have this number, of a program of so many types |
//! | `line`, `child UNIT` | a line's unit begins, or a child of this running unit; tells its number |
//! | `room` | tells whether room is made for a line's unit |
//! | `many COUNT` | so many lines' units begin and end as plain runs, one after another |
//! | `read UNIT SOURCE` | the unit reads what this one wrote |
//! | `finish UNIT` | the unit finishes; tells its dependencies |
//! | `refuse UNIT`, `end UNIT` | the unit is refused, or ends as a plain run |
//! | `abort UNIT` | the unit, which is over, is decided: it has aborted |
//! | `want UNIT` | the unit waits for the grain |
//! | `bad`, `halt` | a line is bad; the run is to stop |
//! | `running UNIT` | tells how many reads, which children and which sources a running unit has |
//! | `life UNIT` | tells where it is in its life, and what is decided of it |
//! | `kept UNIT` | tells whether it is over, whether it is decided for good, and whether it is kept as a running one |
//! | `result UNIT`, `outcome UNIT` | tells its result, and its outcome once that is decided for good; an outcome that has gone is wanting |
//! | `lines`, `wants` | tells the numbers of lines and types and whether the run is to stop; who waits for which grain |
//! | `shared` | tells that a table may be shared by threads, which is so where this is built |

use crate::cases::{Part, carry, no_step};
use crate::printer::{add_flag, add_known, add_numbers, add_units};
use crate::steps::Step;
use base_types::{Call, GrainId, List, Origin, Outcome, State, UnitNo};
use core_model::{Read, Verdict};
use std::alloc::{AllocError, Global};
use unit_table::UnitTable;

const GRAIN: GrainId = GrainId { kind: 0, key: 7 };

/// Puts the units through the steps.
pub fn play(alloc: Global, out: &mut String, steps: &str) -> Result<(), AllocError> {
    let mut table = UnitTable::new(alloc, UnitNo(1), 1);
    carry(&mut table, alloc, out, steps)
}

/// A call without arguments.
pub fn call(alloc: Global) -> Call {
    Call {
        grain: GRAIN,
        method: 0,
        args: List::new(alloc),
    }
}

fn open(table: &mut UnitTable, step: &Step<'_>) -> Result<(), AllocError> {
    *table = UnitTable::new(step.alloc, step.unit(1), step.number(2));
    Ok(())
}

// The next line's unit begins.
fn begin_line(table: &mut UnitTable, out: &mut String, alloc: Global) -> Result<(), AllocError> {
    let origin = Origin::Line(1);
    let Ok(()) = table.reserve_begin(&origin) else {
        return out.push_str(" = no room");
    };
    if table.lines() > 9 {
        return out.push_str(" = ten lines have begun");
    }
    let unit = table.begin(origin, call(alloc), false).0;
    write!(out, " = {unit}")
}

fn begin_child(table: &mut UnitTable, out: &mut String, step: &Step<'_>) -> Result<(), AllocError> {
    let parent = step.unit(1);
    let origin = Origin::Child {
        parent,
        index: 0,
        depth: 2,
    };
    if !table.is_running(parent) {
        return not_running(out);
    }
    let Ok(()) = table.reserve_begin(&origin) else {
        return out.push_str(" = no room");
    };
    let unit = table.begin(origin, call(step.alloc), false).0;
    write!(out, " = {unit}")
}

// One more line's unit begins, and ends as a plain run.
fn end_next(table: &mut UnitTable, alloc: Global) -> Result<(), AllocError> {
    let origin = Origin::Line(1);
    let Ok(()) = table.reserve_begin(&origin) else {
        return Err(AllocError);
    };
    if table.lines() > 9999 {
        return Err(AllocError);
    }
    let unit = table.begin(origin, call(alloc), true);
    if table.is_running(unit) {
        table.end(unit, Outcome::Aborted);
    }
    Ok(())
}

// So many lines' units begin and end.
fn end_many(table: &mut UnitTable, step: &Step<'_>) -> Result<(), AllocError> {
    for _ in 0..step.number(1) {
        end_next(table, step.alloc)?;
    }
    Ok(())
}

fn make_room(table: &mut UnitTable, out: &mut String) -> Result<(), AllocError> {
    let room = table.reserve_begin(&Origin::Line(1));
    write!(out, " = {room:?}")
}

fn not_running(out: &mut String) -> Result<(), AllocError> {
    out.push_str(" = not running")
}

// The unit reads the grain, which the source wrote.
fn read(table: &mut UnitTable, out: &mut String, step: &Step<'_>) -> Result<(), AllocError> {
    let unit = step.unit(1);
    let source = step.unit(2);
    if !table.is_running(unit) {
        return not_running(out);
    }
    table.reserve_read(unit)?;
    let read = Read {
        grain: GRAIN,
        state: State::new(step.alloc),
        source,
    };
    table.note_read(unit, read, source.0 != 0);
    Ok(())
}

fn finish(table: &mut UnitTable, out: &mut String, unit: UnitNo) -> Result<(), AllocError> {
    if !table.is_running(unit) {
        return not_running(out);
    }
    let deps = table.finish(unit, Outcome::Aborted);
    add_units(out, deps.list())
}

fn refuse(table: &mut UnitTable, out: &mut String, unit: UnitNo) -> Result<(), AllocError> {
    if !table.is_running(unit) {
        return not_running(out);
    }
    table.refuse(unit);
    Ok(())
}

fn end(table: &mut UnitTable, out: &mut String, unit: UnitNo) -> Result<(), AllocError> {
    if !table.is_running(unit) {
        return not_running(out);
    }
    table.end(unit, Outcome::Aborted);
    Ok(())
}

// The unit, which is over, is decided: it has aborted.
fn decide(table: &mut UnitTable, out: &mut String, unit: UnitNo) -> Result<(), AllocError> {
    if !table.is_over(unit) {
        return out.push_str(" = not over");
    }
    table.set_verdict(unit, Verdict::Aborted);
    Ok(())
}

fn want(table: &mut UnitTable, step: &Step<'_>) -> Result<(), AllocError> {
    table.reserve_want()?;
    table.want(step.unit(1), GRAIN);
    Ok(())
}

fn bad_line(table: &mut UnitTable, out: &mut String) -> Result<(), AllocError> {
    if table.lines() > 9 {
        return out.push_str(" = ten lines have begun");
    }
    table.bad_line();
    Ok(())
}

fn halt(table: &mut UnitTable) -> Result<(), AllocError> {
    table.halt();
    Ok(())
}

// Writes what is kept of a running unit: its children, how many reads, and its dependencies.
fn add_running(out: &mut String, table: &UnitTable, unit: UnitNo) -> Result<(), AllocError> {
    if !table.is_running(unit) {
        return not_running(out);
    }
    let reads = table.reads(unit).len();
    write!(out, " = {reads} reads, children")?;
    add_numbers(out, table.kids(unit))?;
    out.push_str(", sources")?;
    add_numbers(out, table.deps(unit))
}

fn add_life(out: &mut String, table: &UnitTable, unit: UnitNo) -> Result<(), AllocError> {
    let phase = table.phase(unit);
    let verdict = table.verdict(unit);
    write!(out, " = {phase:?}, {verdict:?}")
}

fn add_kept(out: &mut String, table: &UnitTable, unit: UnitNo) -> Result<(), AllocError> {
    let over = table.is_over(unit);
    let decided = table.is_decided(unit);
    let running = table.running(unit).is_some();
    write!(out, " = over {over}, decided {decided}, running {running}")
}

fn add_decided(out: &mut String, table: &UnitTable, unit: UnitNo) -> Result<(), AllocError> {
    match table.outcome_copy(unit) {
        Ok(outcome) => add_known(out, outcome.as_ref()),
        Err(AllocError) => out.push_str(" = wanting"),
    }
}

fn add_lines(out: &mut String, table: &UnitTable) -> Result<(), AllocError> {
    let lines = table.lines();
    let kinds = table.kinds();
    let halted = table.is_halted();
    write!(out, " = {lines} lines, {kinds} types, halted {halted}")
}

fn add_wants(out: &mut String, table: &UnitTable) -> Result<(), AllocError> {
    let wants = table.wants();
    write!(out, " = {wants:?}")
}

fn is_shared<T: Send + Sync>(_shared: &T) -> bool {
    true
}

// A look at all units.
fn look_at_all(table: &UnitTable, out: &mut String, step: &Step<'_>) -> Result<(), AllocError> {
    match step.word(0) {
        "lines" => add_lines(out, table),
        "wants" => add_wants(out, table),
        "shared" => add_flag(out, is_shared(table)),
        _ => no_step(out),
    }
}

// A look at one unit, or at all.
fn look(table: &UnitTable, out: &mut String, step: &Step<'_>) -> Result<(), AllocError> {
    let unit = step.unit(1);
    match step.word(0) {
        "running" => add_running(out, table, unit),
        "life" => add_life(out, table, unit),
        "kept" => add_kept(out, table, unit),
        "result" => add_known(out, table.result(unit)),
        "outcome" => add_decided(out, table, unit),
        _ => look_at_all(table, out, step),
    }
}

// What ends a unit or is noted, or a look.
fn ends(table: &mut UnitTable, out: &mut String, step: &Step<'_>) -> Result<(), AllocError> {
    let unit = step.unit(1);
    match step.word(0) {
        "finish" => finish(table, out, unit),
        "refuse" => refuse(table, out, unit),
        "end" => end(table, out, unit),
        "abort" => decide(table, out, unit),
        "want" => want(table, step),
        "bad" => bad_line(table, out),
        "halt" => halt(table),
        _ => look(table, out, step),
    }
}

impl Part for UnitTable {
    fn step(&mut self, out: &mut String, step: &Step<'_>) -> Result<(), AllocError> {
        match step.word(0) {
            "open" => open(self, step),
            "line" => begin_line(self, out, step.alloc),
            "child" => begin_child(self, out, step),
            "room" => make_room(self, out),
            "read" => read(self, out, step),
            "many" => end_many(self, step),
            _ => ends(self, out, step),
        }
    }
}
