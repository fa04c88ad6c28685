ghost use Rattle.std.specs.Prelude.{◌≡◌, ◌<◌, ◌≤◌, ◌+◌, ◌∷◌, [], Some, None, true, false, reverse, if◌then◌else◌, is_some, IfOk, OnOk, OnErr, IsSome, MatchOption};
ghost use Rattle.std.specs.Option.{option_copied};
ghost use Rattle.std.specs.List.{list_any};
ghost use Rattle.base_types.specs.declared.calls.Mode.TheVariants.{Update};
ghost use Rattle.cell_model.specs.declared.locks.Ask.TheVariants.{Free};
ghost use Rattle.cell_model.specs.Stacks.{top};
ghost use Rattle.cell_model.specs.Locks.{ask, covers, holds_lock};
ghost use Rattle.cell_model.specs.Cells.{cell_granted, cell_released, cell_learned};
ghost use Rattle.core_model.specs.Changes.{without_wants};
ghost use Rattle.core_model.specs.CoreState.{put_grain};
ghost use Rattle.rw_locks.specs.LockView.{holds_alone};
ghost use Rattle.grain_cell.specs.Room.{without_aborted};
ghost use Rattle.cell_memory.specs.LeavingGrains.{evicted_by, wanted_of};
ghost use Rattle.cell_memory.specs.SpareMemory.{has_space_for};
ghost use Rattle.cell_table.specs.Table.{cell_in, cells_kept, has_cell, here_in, kept_by, leaves_where, left_after, limit_of, opening_state, opens_with, spare_in, used_after, used_of};

use crate::opening_states::{OpeningStates, opening_state};
use crate::wanted_grains::{is_wanted, is_wanted_by_others};
use activations::Recent;
use base_types::{GrainId, Mode, Shape, State, UnitNo, Version};
use cell_model::Ask;
use grain_cell::{Cell, Granted};
use std::alloc::{AllocError, Global};
use std::collections::BTreeMap;

/// The cells of the grains in memory, with the grains that were used last, where memory has a limit, and with what each grain
/// opens with.
#[derive(Drop)]
pub struct CellTable {
    cells: BTreeMap<GrainId, Cell>,
    recent: Option<Recent>,
    shape: Shape,
    opened: OpeningStates,
    alloc: Global,
}

impl CellTable {
    /// Each grain has the state with which it opens, and nobody has a lock. No grain was used yet, and none is in memory; where no
    /// grains used last are given, memory has no limit, and every grain is in it. Takes no memory.
    pub fn new(
        alloc: Global,
        shape: Shape,
        opened: OpeningStates,
        recent: Option<Recent>,
    ) -> CellTable
        ensures cells { cells_kept result ≡ (λ g. kept_by None recent (opening_state shape opened g)) }
        ensures recent { result.recent ≡ recent }
        ensures opens { opens_with result ≡ record { states = opening_state shape opened; limit = limit_of recent } }
    {
        CellTable {
            cells: BTreeMap::new(alloc),
            recent,
            shape,
            opened,
            alloc,
        }
    }

    /// Whether the grain is in memory, as `is_here` answers, and what its locks answer to a unit that asks, by one look at its cell.
    pub fn is_here_and_ask(&self, unit: UnitNo, grain: GrainId, mode: Mode) -> (bool, Ask)
        ensures { result ≡ (here_in self.now grain, ask (cell_in self.now grain).holds unit mode) }
    {
        match self.cells.get(&grain) {
            Some(cell) => (true, cell.ask(unit, mode)),
            None => (self.recent.is_none(), Ask::Free),
        }
    }

    /// Whether the unit has a lock of the grain, in any mode.
    pub fn is_held_by(&self, unit: UnitNo, grain: GrainId) -> bool
        ensures { result ≡ holds_lock unit (cell_in self.now grain).holds }
    {
        match self.cells.get(&grain) {
            Some(cell) => cell.is_held_by(unit),
            None => false,
        }
    }

    /// Whether the unit has the grain alone.
    pub fn is_held_alone_by(&self, unit: UnitNo, grain: GrainId) -> bool
        ensures { result ≡ holds_alone unit (cell_in self.now grain).holds }
    {
        match self.cells.get(&grain) {
            Some(cell) => cell.is_held_alone_by(unit),
            None => false,
        }
    }

    /// The unit that wrote the grain's newest version, 0 where that is the opening state.
    pub fn top_unit(&self, grain: GrainId) -> UnitNo
        ensures { result ≡ (top (cell_in self.now grain).stack).unit }
    {
        match self.cells.get(&grain) {
            Some(cell) => cell.top_unit(),
            None => UnitNo(0),
        }
    }

    /// Whether memory has a limit.
    pub fn has_limit(&self) -> bool
        ensures { result ≡ is_some self.now.recent }
    {
        self.recent.is_some()
    }

    /// Whether memory has no limit, or fewer grains were used than stay in it, whoever uses them.
    pub fn has_space(&self) -> bool
        ensures { result ≡ has_space_for (limit_of self.now.recent) (used_of self.now.recent) }
    {
        match &self.recent {
            Some(recent) => recent.has_space(),
            None => true,
        }
    }

    /// Whether the grain is in memory.
    pub fn is_here(&self, grain: GrainId) -> bool
        ensures { result ≡ here_in self.now grain }
    {
        self.recent.is_none() || self.cells.contains_key(&grain)
    }

    /// Whether the grain has a cell. Where memory has no limit it is made with the room of the grain's first lock.
    pub fn has_cell(&self, grain: GrainId) -> bool
        ensures { result ≡ has_cell self.now grain }
    {
        self.cells.contains_key(&grain)
    }

    /// The versions of a grain that has a cell, oldest first.
    pub fn versions(&self, grain: GrainId) -> &[Version]
        requires { has_cell self.now grain ≡ true }
        ensures { result.now ≡ reverse (cell_in self.now grain).stack }
    {
        match self.cells.get(&grain) {
            Some(cell) => cell.versions(),
            None => &[],
        }
    }

    /// The grain's cell, none where it has none.
    pub fn cell(&self, grain: GrainId) -> Option<&Cell>
        ensures { MatchOption (option_copied result) (has_cell self.now grain ≡ false) (λ made. made.cell ≡ cell_in self.now grain) }
    {
        self.cells.get(&grain)
    }

    /// Makes the cell of a grain in memory, where it has none, and the room of one more lock of it. Every grain stands for what it
    /// did, whether there was memory or not.
    pub fn make_room(&mut self, grain: GrainId) -> Result<(), AllocError>
        requires { here_in self.old grain ≡ true }
        ensures kept { cells_kept self.new ≡ cells_kept self.old }
        ensures made { OnOk result (has_cell self.new grain ≡ true) }
        ensures room { OnOk result (0 < spare_in self.new grain) }
        ensures recent { self.new.recent ≡ self.old.recent }
        ensures opens { opens_with self.new ≡ opens_with self.old }
    {
        self.make_cell(grain)?;
        self.reserve(grain)
    }

    // Makes the cell of a grain in memory, where it has none.
    fn make_cell(&mut self, grain: GrainId) -> Result<(), AllocError>
        requires { here_in self.old grain ≡ true }
        ensures kept { cells_kept self.new ≡ cells_kept self.old }
        ensures made { OnOk result (has_cell self.new grain ≡ true) }
        ensures recent { self.new.recent ≡ self.old.recent }
        ensures opens { opens_with self.new ≡ opens_with self.old }
    {
        if self.cells.contains_key(&grain) {
            return Ok(());
        }
        let state = opening_state(self.alloc, &self.shape, &self.opened, grain)?;
        let unit = UnitNo(0);
        let cell = Cell::new(self.alloc, Version { unit, state })?;
        self.cells.insert(grain, cell)?;
        Ok(())
    }

    // Makes room for one more lock of a grain that has a cell.
    fn reserve(&mut self, grain: GrainId) -> Result<(), AllocError>
        requires { has_cell self.old grain ≡ true }
        ensures kept { cells_kept self.new ≡ cells_kept self.old }
        ensures made { has_cell self.new grain ≡ true }
        ensures room { OnOk result (0 < spare_in self.new grain) }
        ensures recent { self.new.recent ≡ self.old.recent }
        ensures opens { opens_with self.new ≡ opens_with self.old }
    {
        match self.cells.get_mut(&grain) {
            Some(cell) => cell.reserve(),
            None => Err(AllocError),
        }
    }

    /// What a unit would find that is granted a lock of the grain, which has a cell, once this aborted unit's
    /// version, where one is named, is taken off with all above it.
    pub fn top_over(&self, grain: GrainId, aborted: Option<UnitNo>) -> Result<Granted, AllocError>
        requires { has_cell self.now grain ≡ true }
        ensures { IfOk result (λ found. record { unit = found.source; state = found.state } ≡ top (without_aborted aborted (cell_in self.now grain).stack)) }
    {
        match self.cells.get(&grain) {
            Some(cell) => cell.top_over(aborted),
            None => Err(AllocError),
        }
    }

    /// Gives the unit a lock that is free, in room that was made. Takes no memory.
    pub fn lock(&mut self, unit: UnitNo, grain: GrainId, mode: Mode)
        requires free { ask (cell_in self.old grain).holds unit mode ≡ Free }
        requires room { 0 < spare_in self.old grain }
        ensures locks { cells_kept self.new ≡ put_grain (cells_kept self.old) grain (Some (cell_granted (cell_in self.old grain) unit mode)) }
        ensures recent { self.new.recent ≡ self.old.recent }
        ensures opens { opens_with self.new ≡ opens_with self.old }
    {
        if let Some(cell) = self.cells.get_mut(&grain) {
            cell.lock(unit, mode);
        }
    }

    /// The unit gives its new state of the grain, if it has one, and its lock back. Takes no memory.
    pub fn release(&mut self, unit: UnitNo, grain: GrainId, new: Option<State>)
        requires holds { holds_lock unit (cell_in self.old grain).holds ≡ true }
        requires writes { IsSome new → list_any (covers unit Update) (cell_in self.old grain).holds ≡ true }
        ensures releases { cells_kept self.new ≡ put_grain (cells_kept self.old) grain (Some (cell_released (cell_in self.old grain) unit new)) }
        ensures recent { self.new.recent ≡ self.old.recent }
        ensures opens { opens_with self.new ≡ opens_with self.old }
    {
        if let Some(cell) = self.cells.get_mut(&grain) {
            cell.release(unit, new);
        }
    }

    /// A grain that has a cell learns the unit's decision. Takes no memory, and leaves the room.
    pub fn learn(&mut self, unit: UnitNo, grain: GrainId, committed: bool)
        requires { has_cell self.old grain ≡ true }
        ensures learns { cells_kept self.new ≡ put_grain (cells_kept self.old) grain (Some (cell_learned (cell_in self.old grain) unit committed)) }
        ensures recent { self.new.recent ≡ self.old.recent }
        ensures spare { spare_in self.old grain ≤ spare_in self.new grain }
        ensures opens { opens_with self.new ≡ opens_with self.old }
    {
        if let Some(cell) = self.cells.get_mut(&grain) {
            cell.learn(unit, committed);
        }
    }

    /// Brings a grain that isn't in memory into it with this version, its last committed one, and uses it. Answers which grain is
    /// none of those used last any more for that, if one is. Without memory all stays as it was.
    pub fn load(&mut self, grain: GrainId, version: Version) -> Result<Option<GrainId>, AllocError>
        requires { here_in self.old grain ≡ false }
        ensures loads { OnOk result (cells_kept self.new
            ≡ put_grain (cells_kept self.old) grain (Some (record { stack = version ∷ []; holds = []; readings = [] }))) }
        ensures used { OnOk result (self.new.recent ≡ used_after grain self.old.recent) }
        ensures left { IfOk result (λ left. left ≡ left_after grain self.old.recent) }
        ensures kept { OnErr result (cells_kept self.new ≡ cells_kept self.old) }
        ensures unused { OnErr result (self.new.recent ≡ self.old.recent) }
        ensures opens { opens_with self.new ≡ opens_with self.old }
    {
        let cell = Cell::new(self.alloc, version)?;
        self.cells.insert(grain, cell)?;
        match self.touch(grain) {
            Ok(left) => Ok(left),
            Err(error) => {
                self.cells.remove(&grain);
                Err(error)
            }
        }
    }

    /// The grain is used: it comes first of those used last, where memory has a limit. Answers which grain is none of them any more
    /// for that, if one is: it may be evicted. Without memory all stays as it was.
    pub fn touch(&mut self, grain: GrainId) -> Result<Option<GrainId>, AllocError>
        ensures cells { self.new.cells ≡ self.old.cells }
        ensures kept { cells_kept self.new ≡ cells_kept self.old }
        ensures used { OnOk result (self.new.recent ≡ used_after grain self.old.recent) }
        ensures left { IfOk result (λ left. left ≡ left_after grain self.old.recent) }
        ensures unused { OnErr result (self.new.recent ≡ self.old.recent) }
        ensures opens { opens_with self.new ≡ opens_with self.old }
    {
        match &mut self.recent {
            Some(recent) => recent.touch(grain),
            None => Ok(None),
        }
    }

    /// The grain leaves memory, where it has a limit, the grain is none of those used last, nobody has a lock of it or waits for it,
    /// and it has one version alone. Takes no memory.
    pub fn evict(&mut self, grain: GrainId, wants: &[(UnitNo, GrainId)])
        ensures evicts { cells_kept self.new ≡ evicted_by (limit_of self.old.recent) wants.now (used_of self.old.recent) (grain ∷ []) (cells_kept self.old) }
        ensures recent { self.new.recent ≡ self.old.recent }
        ensures opens { opens_with self.new ≡ opens_with self.old }
    {
        if self.has_limit() {
            self.evict_unless(grain, is_wanted(wants, grain));
        }
    }

    /// Each grain that the unit waits for leaves memory, as where its waits were gone. Takes no memory.
    pub fn evict_wanted(&mut self, unit: UnitNo, wants: &[(UnitNo, GrainId)])
        ensures evicts { cells_kept self.new
            ≡ evicted_by (limit_of self.old.recent) (without_wants unit wants.now) (used_of self.old.recent) (wanted_of unit wants.now) (cells_kept self.old) }
        ensures recent { self.new.recent ≡ self.old.recent }
        ensures opens { opens_with self.new ≡ opens_with self.old }
    {
        if !self.has_limit() {
            return;
        }
        for want in wants {
            if want.0 == unit {
                self.evict_unless(want.1, is_wanted_by_others(wants, unit, want.1));
            }
        }
    }

    // The grain leaves memory where it may, and nobody waits for it.
    fn evict_unless(&mut self, grain: GrainId, wanted: bool)
        ensures evicts { cells_kept self.new ≡ (if leaves_where self.old.recent wanted grain (cells_kept self.old grain)
            then put_grain (cells_kept self.old) grain None else cells_kept self.old) }
        ensures recent { self.new.recent ≡ self.old.recent }
        ensures opens { opens_with self.new ≡ opens_with self.old }
    {
        if self.leaves(grain, wanted) {
            self.cells.remove(&grain);
        }
    }

    // Whether the grain leaves memory: memory has a limit, the grain is in it and none of those used last, nobody has a lock of it
    // or waits for it, and it has one version alone.
    fn leaves(&self, grain: GrainId, wanted: bool) -> bool
        ensures { result ≡ leaves_where self.now.recent wanted grain (cells_kept self.now grain) }
    {
        let Some(recent) = &self.recent else {
            return false;
        };
        if recent.has(grain) {
            return false;
        }
        let Some(cell) = self.cells.get(&grain) else {
            return false;
        };
        cell.is_idle() && !wanted
    }
}
