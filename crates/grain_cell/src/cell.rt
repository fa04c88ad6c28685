ghost use Rattle.std.specs.Prelude.{◌≡◌, ◌<◌, ◌≤◌, ◌==◌, ◌+◌, ◌-◌, ◌&&◌, Bool, true, [], ◌∷◌, length, reverse, IsSome, IfOk, OnOk, OnErr, vec_len, vec_capacity};
ghost use Rattle.std.specs.List.{list_any};
ghost use Rattle.cell_model.specs.declared.locks.Ask.TheVariants.{Free};
ghost use Rattle.base_types.specs.declared.calls.Mode.TheVariants.{Update};
ghost use Rattle.cell_model.specs.Stacks.{top};
ghost use Rattle.cell_model.specs.Locks.{ask, covers, holds_lock};
ghost use Rattle.cell_model.specs.Cells.{cell_granted, cell_released, cell_learned, learnt, stacked, is_reading_of, with_reading, without_reading};
ghost use Rattle.rw_locks.specs.LockView.{holds_alone};
ghost use Rattle.grain_cell.specs.Room.{needs, was_read, without_aborted};

use base_types::{Mode, State, UnitNo, Version};
use cell_model::{Ask, Reading};
use rw_locks::LockTable;
use std::alloc::{AllocError, Global};
use std::marker::Model;
use version_stack::Stack;

/// What stands of one grain in memory: its versions, its locks, and what each holder read. Contracts see the
/// model's cell, with the spare: how many more locks fit without memory.
#[derive(Drop)]
pub struct Cell {
    stack: Stack,
    locks: LockTable,
    readings: Vec<Reading>,
}

impl Model for Cell {
    ghost use Rattle.std.specs.Prelude.{◌≤◌, ◌-◌, min, vec_len, vec_capacity};
    ghost use Rattle.grain_cell.specs.Room.{CellInRoom, updates};

    ghost Value = { CellInRoom };

    ghost view = { λ c. record { cell = record { stack = c.stack.versions; holds = c.locks.holds; readings = c.readings.items }; spare = min c.stack.spare (min c.locks.spare (vec_capacity c.readings - vec_len c.readings)) } };

    // Each unit that may write has room for its version.
    ghost invariant = { λ c. updates c.locks.holds ≤ c.stack.spare };
}

/// What a unit finds that is granted a lock: the newest version's state, and the unit that wrote it.
#[derive(Drop)]
pub struct Granted {
    pub state: State,
    pub source: UnitNo,
}

impl Cell {
    /// The cell of a grain that comes into memory with this version, its last committed one: unit 0's with the opening state
    /// where nobody has written the grain. Nobody has a lock of it.
    pub fn new(alloc: Global, version: Version) -> Result<Cell, AllocError>
        ensures { IfOk result (λ made. made.cell ≡ record { stack = version ∷ []; holds = []; readings = [] }) }
    {
        let stack = Stack::new(alloc, version)?;
        let locks = LockTable::new(alloc)?;
        Ok(Cell {
            stack,
            locks,
            readings: Vec::new(alloc),
        })
    }

    /// The answer to a unit that asks for the grain's lock in that mode.
    pub fn ask(&self, unit: UnitNo, mode: Mode) -> Ask
        ensures { result ≡ ask self.now.cell.holds unit mode }
    {
        self.locks.ask(unit, mode)
    }

    /// Whether the unit has a lock of the grain, in any mode.
    pub fn is_held_by(&self, unit: UnitNo) -> bool
        ensures { result ≡ holds_lock unit self.now.cell.holds }
    {
        self.locks.is_held_by(unit)
    }

    /// Whether the unit has the grain alone.
    pub fn is_held_alone_by(&self, unit: UnitNo) -> bool
        ensures { result ≡ holds_alone unit self.now.cell.holds }
    {
        self.locks.is_held_alone_by(unit)
    }

    /// Whether nobody has a lock of the grain, and it has one version alone.
    pub fn is_idle(&self) -> bool
        ensures { result ≡ ((length self.now.cell.holds == 0) && (length self.now.cell.stack == 1)) }
    {
        self.locks.is_empty() && self.stack.is_single()
    }

    /// The unit that wrote the newest version, 0 where that is the opening state.
    pub fn top_unit(&self) -> UnitNo
        ensures { result ≡ (top self.now.cell.stack).unit }
    {
        self.stack.top().0
    }

    /// The versions, oldest first. Whoever grants a lock first takes off those of decided aborted units, by
    /// `learn` of the oldest of their writers (`learning_cleans`).
    pub fn versions(&self) -> &[Version]
        ensures { result.now ≡ reverse self.now.cell.stack }
    {
        self.stack.versions()
    }

    /// What a unit would find that is granted a lock once this aborted unit's version, where one is named, is
    /// taken off with all above it. Changes nothing.
    pub fn top_over(&self, aborted: Option<UnitNo>) -> Result<Granted, AllocError>
        ensures { IfOk result (λ found. record { unit = found.source; state = found.state } ≡ top (without_aborted aborted self.now.cell.stack)) }
    {
        match aborted {
            None => {
                let (source, state) = self.stack.top();
                found_at(source, state)
            }
            Some(unit) => {
                let (source, state) = self.stack.top_without(unit);
                found_at(source, state)
            }
        }
    }

    /// Makes the spare at least 1, which is the room of a `lock` and of its `release`. The cell stands for the
    /// same, whether there was memory or not.
    pub fn reserve(&mut self) -> Result<(), AllocError>
        ensures same { self.new.cell ≡ self.old.cell }
        ensures ok { OnOk result (0 < self.new.spare) }
        ensures spare { self.old.spare ≤ self.new.spare }
    {
        self.stack.reserve()?;
        self.locks.reserve()?;
        self.readings.reserve(1)
    }

    /// Gives the unit the lock. At its first lock of the grain the newest version is what it reads. Takes no
    /// memory.
    pub fn lock(&mut self, unit: UnitNo, mode: Mode)
        requires free { ask self.old.cell.holds unit mode ≡ Free }
        requires room { 0 < self.old.spare }
        ensures locks { self.new.cell ≡ cell_granted self.old.cell unit mode }
        ensures spare { self.old.spare ≤ self.new.spare + 1 }
    {
        let (source, _) = self.stack.top();
        self.locks.grant(unit, mode);
        add_reading(&mut self.readings, unit, source);
    }

    /// Gives the unit the lock, and answers the newest version. At the unit's first lock of the grain that
    /// is what it reads. Makes the room of its `release`. Without memory the cell stays as it was.
    ///
    /// Where versions of aborted units are to be taken off first, a grant goes step by step, so that want of
    /// memory leaves the stack as it was: `reserve`, `top_over`, `learn`, `lock`.
    pub fn grant(&mut self, unit: UnitNo, mode: Mode) -> Result<Granted, AllocError>
        requires { ask self.old.cell.holds unit mode ≡ Free }
        ensures locks { OnOk result (self.new.cell ≡ cell_granted self.old.cell unit mode) }
        ensures finds { IfOk result (λ found. record { unit = found.source; state = found.state } ≡ top self.old.cell.stack) }
        ensures kept { OnErr result (self.new.cell ≡ self.old.cell) }
    {
        self.reserve()?;
        let found = self.top_over(None)?;
        self.lock(unit, mode);
        Ok(found)
    }

    /// Gives the unit's new state, if it has one, and its lock back. The state goes on top, unless the
    /// version that the unit read was taken off since. Takes no memory.
    pub fn release(&mut self, unit: UnitNo, new: Option<State>)
        requires holds { holds_lock unit self.old.cell.holds ≡ true }
        requires writes { IsSome new → list_any (covers unit Update) self.old.cell.holds ≡ true }
        ensures { self.new.cell ≡ cell_released self.old.cell unit new }
    {
        self.locks.drop_lock(unit);
        put_new(&mut self.stack, &self.readings, unit, new);
        drop_reading(&mut self.readings, unit);
    }

    /// The unit's decision is known. Where it has committed, what stands under its version goes; where it
    /// has aborted, its version goes with all above it. Learning it twice is learning it once. Takes no
    /// memory, and leaves the room.
    pub fn learn(&mut self, unit: UnitNo, committed: bool)
        ensures learns { self.new.cell ≡ cell_learned self.old.cell unit committed }
        ensures spare { self.old.spare ≤ self.new.spare }
    {
        settle(&mut self.stack, unit, committed);
    }
}

// What a unit finds where the newest version is that unit's, with that state.
fn found_at(source: UnitNo, state: &State) -> Result<Granted, AllocError>
    ensures { IfOk result (λ found. (found.source ≡ source) × (found.state ≡ state.now)) }
{
    let state = state.copy()?;
    Ok(Granted { state, source })
}

// Drops from the stack what the decision of the unit takes off.
fn settle(stack: &mut Stack, unit: UnitNo, committed: bool)
    ensures versions { stack.new.versions ≡ learnt committed unit stack.old.versions }
    ensures spare { stack.old.spare ≤ stack.new.spare }
{
    if committed {
        stack.committed(unit);
        return;
    }
    stack.remove_from(unit);
}

// Puts the unit's new state on the stack, where what it read is still on top.
fn put_new(stack: &mut Stack, readings: &[Reading], unit: UnitNo, new: Option<State>)
    requires { needs new ≤ stack.old.spare }
    ensures versions { stack.new.versions ≡ stacked readings.now stack.old.versions unit new }
    ensures spare { stack.old.spare ≤ stack.new.spare + needs new }
{
    let Some(state) = new else {
        return;
    };
    let (top, _) = stack.top();
    if has_read(readings, unit, top) {
        stack.push(unit, state);
    }
}

// Whether the unit read that source.
fn has_read(readings: &[Reading], unit: UnitNo, source: UnitNo) -> bool
    ensures { result ≡ list_any (was_read unit source) readings.now }
{
    readings
        .iter()
        .any(|reading| reading.unit == unit && reading.source == source)
}

// Notes what the unit read, where it has no reading of the grain.
fn add_reading(readings: &mut Vec<Reading>, unit: UnitNo, source: UnitNo)
    requires { vec_len readings.old < vec_capacity readings.old }
    ensures items { readings.new.items ≡ with_reading readings.old.items unit source }
    ensures spare { vec_capacity readings.old - vec_len readings.old ≤ (vec_capacity readings.new - vec_len readings.new) + 1 }
{
    if has_reading(readings, unit) {
        return;
    }
    let done = readings.push(Reading { unit, source });
    prove!(done.is_ok());
}

// Whether the unit has a reading of the grain.
fn has_reading(readings: &[Reading], unit: UnitNo) -> bool
    ensures { result ≡ list_any (is_reading_of unit) readings.now }
{
    readings.iter().any(|reading| reading.unit == unit)
}

// Keeps the readings of the other units.
fn drop_reading(readings: &mut Vec<Reading>, unit: UnitNo)
    ensures { readings.new.items ≡ without_reading readings.old.items unit }
{
    readings.retain(|reading| reading.unit != unit);
}
