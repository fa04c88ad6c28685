ghost use Rattle.std.specs.Prelude.{◌≡◌, ◌+ℤ◌, Some, OnOk, IfSome, FitsSigned, if◌then◌else◌};
ghost use Rattle.std.specs.BTreeMap.{get};
ghost use Rattle.base_types.specs.Stores.{grain_cmp};
ghost use Rattle.silo_nodes.specs.Packets.{GrainId, same_grain};
ghost use Rattle.silo_nodes.specs.LogCache.{settled_cell, settled, ShiftsFit, allows, all_allow, held_cell, held, or_cell, opening_in};
ghost use mir.Syntax.{w64};

use crate::packets::Shift;
use base_types::GrainId;
use std::alloc::AllocError;
use std::collections::BTreeMap;

/// What is kept of a grain: its balance, and whether an undecided transaction moves it.
#[derive(Clone, Copy)]
pub struct Cell {
    pub balance: i64,
    pub busy: bool,
}

// The cell after a decision of one shift of it.
fn after(cell: Cell, delta: i64, commit: bool) -> Cell
    requires room { FitsSigned w64 (cell.balance +ℤ delta) }
    ensures { Some result ≡ settled_cell commit delta (Some cell) }
{
    let balance = if commit {
        cell.balance + delta
    } else {
        cell.balance
    };
    Cell {
        balance,
        busy: false,
    }
}

/// Settles one shift of a decided transaction.
pub fn settle_one(cells: &mut BTreeMap<GrainId, Cell>, shift: Shift, commit: bool)
    requires room { IfSome (get grain_cmp cells.old shift.grain) (λ c. FitsSigned w64 (c.balance +ℤ shift.delta)) }
    ensures { (grain : GrainId) → get grain_cmp cells.new grain ≡
        (if same_grain shift.grain grain then settled_cell commit shift.delta (get grain_cmp cells.old grain) else get grain_cmp cells.old grain) }
{
    if let Some(cell) = cells.get_mut(&shift.grain) {
        *cell = after(*cell, shift.delta, commit);
    }
}

/// Settles all shifts of a decided transaction.
pub fn settle(cells: &mut BTreeMap<GrainId, Cell>, shifts: &[Shift], commit: bool)
    requires room { ShiftsFit shifts.now (get grain_cmp cells.old) }
    ensures { (grain : GrainId) → get grain_cmp cells.new grain ≡ settled commit shifts.now grain (get grain_cmp cells.old grain) }
{
    for shift in shifts {
        settle_one(cells, *shift, commit);
    }
}

// Whether nothing is against a shift of the cell.
fn cell_allows(cell: Option<Cell>, delta: i64) -> bool
    ensures { result ≡ allows cell delta }
{
    match cell {
        None => false,
        Some(cell) if cell.busy => false,
        Some(cell) => match cell.balance.checked_add(delta) {
            None => false,
            Some(balance) => balance >= 0,
        },
    }
}

/// Whether nothing is against any of the shifts.
pub fn allow(cells: &BTreeMap<GrainId, Cell>, shifts: &[Shift]) -> bool
    ensures { result ≡ all_allow (get grain_cmp cells.now) shifts.now }
{
    for shift in shifts {
        if !cell_allows(cells.get(&shift.grain).copied(), shift.delta) {
            return false;
        }
    }
    true
}

// Keeps one grain busy.
fn hold_one(cells: &mut BTreeMap<GrainId, Cell>, grain: GrainId)
    ensures { (other : GrainId) → get grain_cmp cells.new other ≡
        (if same_grain grain other then held_cell (get grain_cmp cells.old other) else get grain_cmp cells.old other) }
{
    if let Some(cell) = cells.get_mut(&grain) {
        cell.busy = true;
    }
}

/// Keeps the grains of these shifts busy.
pub fn hold(cells: &mut BTreeMap<GrainId, Cell>, shifts: &[Shift])
    ensures { (grain : GrainId) → get grain_cmp cells.new grain ≡ held shifts.now grain (get grain_cmp cells.old grain) }
{
    for shift in shifts {
        hold_one(cells, shift.grain);
    }
}

// Gives a grain its opening balance, where it has none yet.
fn open(cells: &mut BTreeMap<GrainId, Cell>, entry: (GrainId, i64)) -> Result<(), AllocError>
    ensures { OnOk result ((other : GrainId)
        → get grain_cmp cells.new other ≡
        (if same_grain entry.0 other then or_cell (get grain_cmp cells.old other) (Some entry.1) else get grain_cmp cells.old other)) }
{
    if cells.get(&entry.0).is_some() {
        return Ok(());
    }
    cells.insert(
        entry.0,
        Cell {
            balance: entry.1,
            busy: false,
        },
    )?;
    Ok(())
}

/// Gives these grains their opening balances, each where it has none yet.
pub fn open_all(
    cells: &mut BTreeMap<GrainId, Cell>,
    opening: &[(GrainId, i64)],
) -> Result<(), AllocError>
    ensures { OnOk result ((grain : GrainId)
        → get grain_cmp cells.new grain ≡ or_cell (get grain_cmp cells.old grain) (opening_in opening.now grain)) }
{
    for entry in opening {
        open(cells, *entry)?;
    }
    Ok(())
}
