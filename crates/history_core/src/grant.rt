// A unit locks a grain, or raises its lock.
ghost use Rattle.std.specs.Prelude.{◌≡◌, ◌<◌, Some, true, false, not, find, map, IfOk, OnOk, OnErr};
ghost use Rattle.base_types.specs.declared.stores.Version.{Version as AVersion};
ghost use Rattle.cell_model.specs.declared.locks.Ask.TheVariants.{Free};
ghost use Rattle.cell_model.specs.Locks.{ask, holds_lock};
ghost use Rattle.cell_model.specs.Stacks.{top};
ghost use Rattle.cell_model.specs.Cells.{cell_granted};
ghost use Rattle.core_model.specs.CoreState.{put_grain};
ghost use Rattle.core_model.specs.Tests.{is_aborted};
ghost use Rattle.core_model.specs.Events as events;
ghost use Rattle.core_model.specs.Events.{is_free_answer};
ghost use Rattle.core_model.specs.declared.events.CoreEvent.TheVariants.{Grant};
ghost use Rattle.core_model.specs.declared.events.CoreReply.TheVariants as replies;
ghost use Rattle.cell_table.specs.Table.{cell_in, cells_kept, has_cell, opens_with, spare_in};
ghost use Rattle.unit_table.specs.Table.{verdict_in};
ghost use Rattle.grain_cell.specs.Room.{without_aborted};
ghost use Rattle.history_core.specs.Grants.{Cleans, cell_without, is_sure_in};
ghost use Rattle.history_core.specs.Steps.{CanDo, KeepsMeaning, Tells, Does, Refuses};

use crate::evictions::evict_left;
use crate::parts::Parts;
use base_types::{GrainId, Mode, UnitNo, Version};
use cell_model::Ask;
use cell_table::CellTable;
use core_model::{AskAnswer, CoreReply, Read, Verdict};
use grain_cell::Granted;
use std::alloc::AllocError;
use unit_table::UnitTable;

impl Parts {
    // Whether the lock can be had, and no stop stands.
    pub(crate) fn can_grant(&self, unit: UnitNo, grain: GrainId, mode: Mode) -> bool
        ensures { Tells self.now (Grant unit grain mode) result }
    {
        self.is_going() && is_free(self.ask(unit, grain, mode))
    }

    // Why the unit doesn't get the lock.
    pub(crate) fn not_granted(&self, unit: UnitNo, grain: GrainId, mode: Mode) -> CoreReply
        ensures { Refuses self.now (Grant unit grain mode) result }
    {
        if !self.is_going() {
            return CoreReply::Unapplied;
        }
        not_granted(self.ask(unit, grain, mode))
    }

    // The unit locks the grain, or raises its lock: first all room and all copies, then what is aborted goes off the stack, then
    // the lock is given. At its first lock the grain is used, and the one that is used no more leaves memory, if it is idle.
    pub(crate) fn grant(
        &mut self,
        unit: UnitNo,
        grain: GrainId,
        mode: Mode,
    ) -> Result<CoreReply, AllocError>
        requires can { CanDo self.old (Grant unit grain mode) }
        ensures ok { IfOk result (λ reply. Does self.old (Grant unit grain mode) reply self.new) }
        ensures err { OnErr result (KeepsMeaning self.old self.new) }
        ensures opens { opens_with self.new.cells ≡ opens_with self.old.cells }
    {
        self.cells.make_room(grain)?;
        let Some(cell) = self.cells.cell(grain) else {
            return Err(AllocError);
        };
        let aborted = first_aborted(&self.units, cell.versions());
        let found = cell.top_over(aborted)?;
        if cell.is_held_by(unit) {
            lock_over(&mut self.cells, unit, grain, mode, aborted);
            return Ok(CoreReply::Granted {
                state: found.state,
                source: found.source,
            });
        }
        self.lock_first(unit, grain, mode, aborted, &found)?;
        Ok(CoreReply::Granted {
            state: found.state,
            source: found.source,
        })
    }

    // The unit's first lock of a grain that has a cell, with room for it: what was found there is read, and the grain is used.
    fn lock_first(
        &mut self,
        unit: UnitNo,
        grain: GrainId,
        mode: Mode,
        aborted: Option<UnitNo>,
        found: &Granted,
    ) -> Result<(), AllocError>
        requires can { CanDo self.old (Grant unit grain mode) }
        requires cell { has_cell self.old.cells grain ≡ true }
        requires room { 0 < spare_in self.old.cells grain }
        requires first { holds_lock unit (cell_in self.old.cells grain).holds ≡ false }
        requires cleans { Cleans self.old grain aborted }
        requires newest { record { unit = found.now.source; state = found.now.state } ≡ top (without_aborted aborted (cell_in self.old.cells grain).stack) }
        ensures ok { OnOk result (Does self.old (Grant unit grain mode) (replies.Granted found.now.state found.now.source) self.new) }
        ensures err { OnErr result (KeepsMeaning self.old self.new) }
        ensures opens { opens_with self.new.cells ≡ opens_with self.old.cells }
    {
        self.units.reserve_read(unit)?;
        let read = Read {
            grain,
            state: found.state.copy()?,
            source: found.source,
        };
        let left = self.cells.touch(grain)?;
        let depends = !self.is_sure(found.source);
        lock_over(&mut self.cells, unit, grain, mode, aborted);
        self.units.note_read(unit, read, depends);
        evict_left(&mut self.cells, left, self.units.wants());
        Ok(())
    }

    // Whether the unit is nobody or committed.
    fn is_sure(&self, unit: UnitNo) -> bool
        ensures { result ≡ is_sure_in self.now unit }
    {
        if unit.0 == 0 {
            return true;
        }
        match self.units.verdict(unit) {
            Verdict::Committed => true,
            Verdict::Open | Verdict::Chosen | Verdict::Condemned | Verdict::Aborted => false,
        }
    }
}

// The first of these versions' units that is aborted.
fn first_aborted(units: &UnitTable, versions: &[Version]) -> Option<UnitNo>
    ensures { result ≡ find (λ u. is_aborted (verdict_in units.now u)) (map (λ (v : AVersion). v.unit) versions.now) }
{
    for version in versions {
        if is_aborted(units, version.unit) {
            return Some(version.unit);
        }
    }
    None
}

// Whether the unit is aborted.
fn is_aborted(units: &UnitTable, unit: UnitNo) -> bool
    ensures { result ≡ is_aborted (verdict_in units.now unit) }
{
    match units.verdict(unit) {
        Verdict::Aborted => true,
        Verdict::Open | Verdict::Chosen | Verdict::Condemned | Verdict::Committed => false,
    }
}

// Takes the aborted unit's version, where one is named, and all above it off the grain's stack, and gives the lock.
// Takes no memory.
fn lock_over(
    cells: &mut CellTable,
    unit: UnitNo,
    grain: GrainId,
    mode: Mode,
    aborted: Option<UnitNo>,
)
    requires cell { has_cell cells.old grain ≡ true }
    requires free { ask (cell_in cells.old grain).holds unit mode ≡ Free }
    requires room { 0 < spare_in cells.old grain }
    ensures locks { cells_kept cells.new
        ≡ put_grain (cells_kept cells.old) grain (Some (cell_granted (cell_without (cell_in cells.old grain) aborted) unit mode)) }
    ensures recent { cells.new.recent ≡ cells.old.recent }
    ensures opens { opens_with cells.new ≡ opens_with cells.old }
{
    match aborted {
        None => cells.lock(unit, grain, mode),
        Some(gone) => {
            cells.learn(gone, grain, false);
            cells.lock(unit, grain, mode);
        }
    }
}

// Whether the answer is that the lock can be had.
fn is_free(answer: AskAnswer) -> bool
    ensures { result ≡ is_free_answer answer }
{
    match answer {
        AskAnswer::Free => true,
        AskAnswer::NotActive
        | AskAnswer::Doomed { .. }
        | AskAnswer::Held
        | AskAnswer::MustDie { .. }
        | AskAnswer::MustWait { .. }
        | AskAnswer::Absent => false,
    }
}

// The reply to a grant, where the lock can't be had.
fn not_granted(answer: AskAnswer) -> CoreReply
    ensures { result ≡ events.not_granted answer }
{
    match answer {
        AskAnswer::Free => CoreReply::Unapplied,
        AskAnswer::NotActive => CoreReply::NotActive,
        AskAnswer::Doomed { source } => CoreReply::Doomed { source },
        AskAnswer::Held => CoreReply::NotGranted(Ask::Held),
        AskAnswer::MustDie { holder } => CoreReply::NotGranted(Ask::MustDie { holder }),
        AskAnswer::MustWait { holder } => CoreReply::NotGranted(Ask::MustWait { holder }),
        AskAnswer::Absent => CoreReply::NotLoaded,
    }
}
