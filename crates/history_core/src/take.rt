// A batch is taken.
ghost use Rattle.std.specs.Prelude.{◌≡◌, ◌≤◌, nat_lt, length, map, take, None, not, IfOk, OnOk, OnErr};
ghost use Rattle.std.specs.List.{list_all};
ghost use Rattle.cell_model.specs.Locks.{holds_lock};
ghost use Rattle.core_model.specs.CoreState.{CoreState};
ghost use Rattle.core_model.specs.declared.effects.Read.{Read as ARead};
ghost use Rattle.core_model.specs.declared.events.CoreEvent.TheVariants.{Take};
ghost use Rattle.core_model.specs.Events.{batch_size};
ghost use Rattle.cell_table.specs.Table.{cell_in, opens_with};
ghost use Rattle.core_parts.specs.States.{last_in, has_place, KeepsPlaces};
ghost use Rattle.open_batch.specs.Members.{effect_in};
ghost use Rattle.history_core.specs.KeptParts.{PartsStand, writes_in, AllPlaced};
ghost use Rattle.history_core.specs.ClosedUnits.{ArePlaced};
ghost use Rattle.history_core.specs.UnitsWithoutLocks.{front_by};
ghost use Rattle.history_core.specs.Steps.{CanDo, KeepsMeaning, Tells, Does};
ghost use Rattle.base_types.specs.declared.calls.GrainId.{GrainId as AGrain};

use crate::parts::Parts;
use base_types::{GrainId, State, UnitNo};
use cell_table::CellTable;
use core_model::{CoreReply, Read};
use core_parts::LastStates;
use open_batch::{FinishedUnit, OpenBatch};
use std::alloc::AllocError;

impl Parts {
    // Whether no batch is open, the first finished undecided unit holds no lock, and no stop stands.
    pub(crate) fn can_take(&self) -> bool
        ensures { Tells self.now Take result }
    {
        self.is_going() && self.batch.is_none() && self.has_free_front()
    }

    // Whether a batch would have a unit: the first of the finished units that no batch has yet holds no lock.
    fn has_free_front(&self) -> bool
        ensures { (w : CoreState) → PartsStand self.now w → result ≡ nat_lt 0 (batch_size w) }
    {
        match self.waiting.first() {
            None => false,
            Some(member) => is_free(
                &self.cells,
                member.effect.unit,
                member.effect.reads.as_slice(),
            ),
        }
    }

    // How many units a batch would have: the longest prefix, of at most 64, of the finished units that no batch has
    // yet and that hold no lock.
    pub(crate) fn batch_size(&self) -> usize
        ensures size { (w : CoreState) → PartsStand self.now w → result ≡ batch_size w }
        ensures most { result ≤ 64 }
        ensures within { result ≤ length self.now.waiting.items }
    {
        self.free_front(first_64(&self.waiting))
    }

    // How many of these units, from the first on, hold no lock.
    fn free_front(&self, members: &[FinishedUnit]) -> usize
        ensures front { result ≡ front_by self.now (map effect_in members.now) }
        ensures most { result ≤ length members.now }
    {
        let mut size = 0;
        for member in members {
            if !is_free(
                &self.cells,
                member.effect.unit,
                member.effect.reads.as_slice(),
            ) {
                return size;
            }
            size += 1;
        }
        size
    }

    // The batch is opened, with all the room that it will need.
    pub(crate) fn take(&mut self) -> Result<CoreReply, AllocError>
        requires can { CanDo self.old Take }
        ensures ok { IfOk result (λ reply. Does self.old Take reply self.new) }
        ensures err { OnErr result (KeepsMeaning self.old self.new) }
        ensures opens { opens_with self.new.cells ≡ opens_with self.old.cells }
    {
        let size = self.batch_size();
        self.prepare_take(size)?;
        let Some(number) = self.batches.checked_add(1) else {
            return Err(AllocError);
        };
        let alloc = *self.waiting.allocator();
        let batch = OpenBatch::take(alloc, number, &self.waiting[..size], &self.units)?;
        self.batches = number;
        self.batch = Some(batch);
        Ok(CoreReply::Taken { batch: number })
    }

    // Makes the room of the batch's entries, of what the grains will have to learn of it, and of the states that it
    // leaves.
    fn prepare_take(&mut self, size: usize) -> Result<(), AllocError>
        requires within { size ≤ length self.old.waiting.items }
        ensures keeps { self.old.batch ≡ None → KeepsMeaning self.old self.new }
        ensures entries { OnOk result (size ≤ self.new.entries.spare) }
        ensures learn { OnOk result (writes_in (take size self.old.waiting.items) ≤ self.new.learn.spare) }
        ensures places { OnOk result (AllPlaced (has_place self.new.last) (take size self.old.waiting.items)) }
        ensures units { self.new.units ≡ self.old.units }
        ensures cells { self.new.cells ≡ self.old.cells }
        ensures waiting { self.new.waiting ≡ self.old.waiting }
        ensures batches { self.new.batches ≡ self.old.batches }
        ensures batch { self.new.batch ≡ self.old.batch }
    {
        self.entries.reserve(size)?;
        let count = count_writes(&self.waiting[..size])?;
        self.learn.reserve(count)?;
        place_all(&mut self.last, &self.waiting[..size])
    }
}

// Whether the unit holds none of the grains that it read.
fn is_free(cells: &CellTable, unit: UnitNo, reads: &[Read]) -> bool
    ensures { result ≡ list_all (λ (r : ARead). not (holds_lock unit (cell_in cells.now r.grain).holds)) reads.now }
{
    for read in reads {
        if cells.is_held_by(unit, read.grain) {
            return false;
        }
    }
    true
}

// The first 64 at most.
fn first_64(members: &[FinishedUnit]) -> &[FinishedUnit]
    ensures { result.now ≡ take 64 members.now }
{
    if members.len() < 64 {
        return members;
    }
    &members[..64]
}

// How many grains these units wrote.
fn count_writes(members: &[FinishedUnit]) -> Result<usize, AllocError>
    ensures { IfOk result (λ count. count ≡ writes_in members.now) }
{
    let mut count: usize = 0;
    for member in members {
        let Some(more) = count.checked_add(member.effect.writes.len()) else {
            return Err(AllocError);
        };
        count = more;
    }
    Ok(count)
}

// Makes the places of the grains that these units wrote.
fn place_all(last: &mut LastStates, members: &[FinishedUnit]) -> Result<(), AllocError>
    ensures placed { OnOk result (AllPlaced (has_place last.new) members.now) }
    ensures same { (g : AGrain) → last_in last.new g ≡ last_in last.old g }
    ensures places { KeepsPlaces last.old last.new }
{
    for member in members {
        place(last, member.effect.writes.as_slice())?;
    }
    Ok(())
}

// Makes the places of the written grains.
fn place(last: &mut LastStates, writes: &[(GrainId, State)]) -> Result<(), AllocError>
    ensures placed { OnOk result (ArePlaced (has_place last.new) writes.now) }
    ensures same { (g : AGrain) → last_in last.new g ≡ last_in last.old g }
    ensures places { KeepsPlaces last.old last.new }
{
    for write in writes {
        last.make_place(write.0)?;
    }
    Ok(())
}
