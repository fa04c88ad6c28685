ghost use Rattle.std.specs.Prelude.{◌≡◌, ◌<◌, ◌≤◌, ◌==◌, ◌+◌, [], length, vec_len, vec_capacity, IsOk, IfOk, OnOk};
ghost use Rattle.std.specs.List.{list_any};
ghost use Rattle.cell_model.specs.Units.{joined};
ghost use Rattle.rw_locks.specs.LockView.{holds_alone};
ghost use Rattle.cell_model.specs.declared.locks.Ask.TheVariants.{Free};
ghost use Rattle.cell_model.specs.Units.{oldest};
ghost use Rattle.cell_model.specs.Locks.{is_update, covers, conflicts, rivals, ask, granted, dropped, holds_lock};

use base_types::{Mode, UnitNo};
use cell_model::{Ask, Hold};
use std::alloc::{AllocError, Global};
use std::marker::Model;

/// The locks of one grain. Contracts see the holds in the order in which they were granted, with the
/// spare: how many more fit without memory.
#[derive(Drop)]
pub struct LockTable {
    holds: Vec<Hold>,
}

impl Model for LockTable {
    ghost use Rattle.std.specs.Prelude.{◌-◌, vec_len, vec_capacity};
    ghost use Rattle.rw_locks.specs.LockView.{Locked};

    ghost Value = { Locked };

    ghost view = { λ t. record { holds = t.holds.items; spare = vec_capacity t.holds - vec_len t.holds } };
}

impl LockTable {
    /// A table without locks. Takes no memory.
    pub fn new(alloc: Global) -> Result<LockTable, AllocError>
        ensures made { IsOk result }
        ensures none { IfOk result (λ made. made.holds ≡ []) }
    {
        Ok(LockTable {
            holds: Vec::new(alloc),
        })
    }

    /// The answer to a unit that asks for a lock in that mode.
    ///
    /// `Held` where it holds that mode or the grain alone. A holder other than the unit conflicts where one
    /// of the two modes is `Update`: `Free` where none does, else the oldest who does is named, by
    /// `MustDie` where that one is older than the unit and by `MustWait` where it is younger.
    pub fn ask(&self, unit: UnitNo, mode: Mode) -> Ask
        ensures { result ≡ ask self.now.holds unit mode }
    {
        if has_lock(&self.holds, unit, mode) {
            return Ask::Held;
        }
        match oldest_rival(&self.holds, unit, mode) {
            None => Ask::Free,
            Some(holder) if holder.0 < unit.0 => Ask::MustDie { holder },
            Some(holder) => Ask::MustWait { holder },
        }
    }

    /// Whether nobody has a lock.
    pub fn is_empty(&self) -> bool
        ensures { result ≡ (length self.now.holds == 0) }
    {
        self.holds.is_empty()
    }

    /// Whether the unit has a lock, in any mode.
    pub fn is_held_by(&self, unit: UnitNo) -> bool
        ensures { result ≡ holds_lock unit self.now.holds }
    {
        self.holds.iter().any(|hold| hold.unit == unit)
    }

    /// Whether the unit has the grain alone.
    pub fn is_held_alone_by(&self, unit: UnitNo) -> bool
        ensures { result ≡ holds_alone unit self.now.holds }
    {
        self.holds
            .iter()
            .any(|hold| hold.unit == unit && is_for_one(hold.mode))
    }

    /// Makes the spare at least 1. Without memory the table stays as it was.
    pub fn reserve(&mut self) -> Result<(), AllocError>
        ensures holds { self.new.holds ≡ self.old.holds }
        ensures ok { OnOk result (0 < self.new.spare) }
        ensures spare { self.old.spare ≤ self.new.spare }
    {
        self.holds.reserve(1)
    }

    /// Gives the unit the lock, in place of one that it had. Takes no memory.
    pub fn grant(&mut self, unit: UnitNo, mode: Mode)
        requires free { ask self.old.holds unit mode ≡ Free }
        requires room { 0 < self.old.spare }
        ensures holds { self.new.holds ≡ granted self.old.holds unit mode }
        ensures spare { self.old.spare ≤ self.new.spare + 1 }
    {
        drop_holds(&mut self.holds, unit);
        let done = self.holds.push(Hold { unit, mode });
        prove!(done.is_ok());
    }

    /// Takes the unit's lock back, where it has one. Takes no memory.
    pub fn drop_lock(&mut self, unit: UnitNo)
        ensures holds { self.new.holds ≡ dropped self.old.holds unit }
        ensures spare { self.old.spare ≤ self.new.spare }
    {
        drop_holds(&mut self.holds, unit);
    }
}

// Keeps the locks of the other units.
fn drop_holds(holds: &mut Vec<Hold>, unit: UnitNo)
    ensures items { holds.new.items ≡ dropped holds.old.items unit }
    ensures len { vec_len holds.new ≤ vec_len holds.old }
    ensures capacity { vec_capacity holds.new ≡ vec_capacity holds.old }
{
    holds.retain(|hold| hold.unit != unit);
}

// Whether the mode is for one unit alone.
fn is_for_one(mode: Mode) -> bool
    ensures { result ≡ is_update mode }
{
    match mode {
        Mode::Read => false,
        Mode::Update => true,
    }
}

// Whether the lock is the unit's, in that mode or for it alone.
fn serves(hold: &Hold, unit: UnitNo, mode: Mode) -> bool
    ensures { result ≡ covers unit mode hold.now }
{
    hold.unit == unit && (is_for_one(hold.mode) || !is_for_one(mode))
}

// Whether another unit has the lock, and one of the two modes is for one unit alone.
fn clashes(hold: &Hold, unit: UnitNo, mode: Mode) -> bool
    ensures { result ≡ conflicts unit mode hold.now }
{
    hold.unit != unit && (is_for_one(mode) || is_for_one(hold.mode))
}

// Whether the unit has what it asks for.
fn has_lock(holds: &[Hold], unit: UnitNo, mode: Mode) -> bool
    ensures { result ≡ list_any (covers unit mode) holds.now }
{
    holds.iter().any(|hold| serves(hold, unit, mode))
}

// The oldest of the holders who conflict.
fn oldest_rival(holds: &[Hold], unit: UnitNo, mode: Mode) -> Option<UnitNo>
    ensures { result ≡ oldest (rivals unit mode holds.now) }
{
    let mut found = None;
    for hold in holds {
        if clashes(hold, unit, mode) {
            found = Some(older_of(found, hold.unit));
        }
    }
    found
}

// The older of a unit that may be missing and this one.
fn older_of(found: Option<UnitNo>, unit: UnitNo) -> UnitNo
    ensures { Some result ≡ joined found (Some unit) }
{
    match found {
        Some(other) if other.0 < unit.0 => other,
        _ => unit,
    }
}
