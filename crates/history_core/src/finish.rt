// A transaction has run to its end.
ghost use Rattle.std.specs.Prelude.{◌≡◌, ◌<◌, ◌&&◌, true, not, ℕ, vec_len, vec_capacity, IfOk, IfErr, OnOk, OnErr};
ghost use Rattle.base_types.specs.declared.calls.UnitNo.{UnitNo};
ghost use Rattle.base_types.specs.declared.calls.GrainId.{GrainId};
ghost use Rattle.core_model.specs.declared.events.CoreEvent.TheVariants.{Finish};
ghost use Rattle.core_model.specs.Tests.{is_running};
ghost use Rattle.std.specs.List.{list_all};
ghost use Rattle.rw_locks.specs.LockView.{holds_alone};
ghost use Rattle.cell_table.specs.Table.{cell_in, opens_with};
ghost use Rattle.core_parts.specs.States.{handed_in};
ghost use Rattle.unit_table.specs.Table.{known_in, phase_in};
ghost use Rattle.unit_table.specs.KnownUnits.{known_running};
ghost use Rattle.history_core.specs.Effects.{finishes_as};
ghost use Rattle.history_core.specs.HandedWrites.{cleared, with_writes};
ghost use Rattle.history_core.specs.Steps.{CanDo, KeepsMeaning, Tells, Does};

use crate::parts::Parts;
use base_types::{GrainId, Outcome, State, UnitNo};
use cell_table::CellTable;
use core_model::{CoreEvent, CoreReply, Effect, Read};
use core_parts::{HandedStates, same_items};
use open_batch::FinishedUnit;
use std::alloc::AllocError;
use unit_table::RunningUnit;

impl Parts {
    // Whether that is the effect of a running transaction, and no stop stands.
    pub(crate) fn can_finish(&self, unit: UnitNo, effect: &Effect) -> bool
        ensures { Tells self.now (Finish unit effect.now) result }
    {
        self.is_going() && self.has_finished(unit, effect)
    }

    // Whether that is the effect of a running transaction.
    fn has_finished(&self, unit: UnitNo, effect: &Effect) -> bool
        ensures { result ≡ finishes_as self.now unit effect.now (known_in self.now.units unit) }
    {
        match self.units.running(unit) {
            None => false,
            Some(running) => self.finishes(unit, running, effect),
        }
    }

    // Whether that is the effect of a unit that runs, and a transaction.
    fn finishes(&self, unit: UnitNo, running: &RunningUnit, effect: &Effect) -> bool
        ensures { result ≡ finishes_as self.now unit effect.now (known_running running.now) }
    {
        !running.plain
            && self.is_of_call(unit, running, effect)
            && same_items(effect.reads.as_slice(), running.reads.as_slice())
            && holds_all_alone(&self.cells, unit, effect.writes.as_slice())
    }

    // The transaction takes the last place in the finish order, and what it wrote is kept until its locks are given back. What it
    // waited for leaves memory where it is idle.
    pub(crate) fn finish(
        &mut self,
        unit: UnitNo,
        effect: Effect,
    ) -> Result<CoreReply, (AllocError, CoreEvent)>
        requires can { CanDo self.old (Finish unit effect) }
        ensures ok { IfOk result (λ reply. Does self.old (Finish unit effect) reply self.new) }
        ensures back { IfErr result (λ e. e.1 ≡ Finish unit effect) }
        ensures err { OnErr result (KeepsMeaning self.old self.new) }
        ensures opens { opens_with self.new.cells ≡ opens_with self.old.cells }
    {
        match self.prepare_finish(unit, &effect) {
            Err(error) => Err((error, CoreEvent::Finish { unit, effect })),
            Ok(outcome) => {
                self.cells.evict_wanted(unit, self.units.wants());
                let deps = self.units.finish(unit, outcome);
                self.waiting.push_reserved(FinishedUnit { effect, deps });
                Ok(CoreReply::Done)
            }
        }
    }

    // Makes the room of a finished unit, the copies of what it wrote, and one of its result.
    fn prepare_finish(&mut self, unit: UnitNo, effect: &Effect) -> Result<Outcome, AllocError>
        ensures copied { IfOk result (λ made. made ≡ effect.now.result) }
        ensures room { OnOk result (vec_len self.new.waiting < vec_capacity self.new.waiting) }
        ensures waiting { self.new.waiting.items ≡ self.old.waiting.items }
        ensures handed { OnOk result (handed_in self.new.handed ≡ with_writes (cleared (handed_in self.old.handed) unit effect.now.reads) unit
            effect.now.writes) }
        ensures others { (x : UnitNo) (g : GrainId) → (x ≡ unit → ⊥) → handed_in self.new.handed x g ≡ handed_in self.old.handed x g }
        ensures rest { self.new ≡ record self.old { waiting = self.new.waiting; handed = self.new.handed } }
    {
        self.waiting.reserve(1)?;
        clear(&mut self.handed, unit, effect.reads.as_slice());
        hand(&mut self.handed, unit, effect.writes.as_slice())?;
        let outcome = effect.result.copy()?;
        Ok(outcome)
    }
}

// Whether the unit has each written grain alone.
fn holds_all_alone(cells: &CellTable, unit: UnitNo, writes: &[(GrainId, State)]) -> bool
    ensures { result ≡ list_all (λ x. holds_alone unit (cell_in cells.now x.0).holds) writes.now }
{
    for write in writes {
        if !cells.is_held_alone_by(unit, write.0) {
            return false;
        }
    }
    true
}

// Lets go what is kept of the unit for the grains that it read.
fn clear(handed: &mut HandedStates, unit: UnitNo, reads: &[Read])
    ensures cleared { handed_in handed.new ≡ cleared (handed_in handed.old) unit reads.now }
    ensures others { (x : UnitNo) (g : GrainId) → (x ≡ unit → ⊥) → handed_in handed.new x g ≡ handed_in handed.old x g }
{
    for read in reads {
        drop(handed.take(unit, read.grain));
    }
}

// Keeps copies of what the unit wrote.
fn hand(
    handed: &mut HandedStates,
    unit: UnitNo,
    writes: &[(GrainId, State)],
) -> Result<(), AllocError>
    ensures handed { OnOk result (handed_in handed.new ≡ with_writes (handed_in handed.old) unit writes.now) }
    ensures others { (x : UnitNo) (g : GrainId) → (x ≡ unit → ⊥) → handed_in handed.new x g ≡ handed_in handed.old x g }
{
    let mut at = writes.len();
    while at > 0 {
        at -= 1;
        let write = &writes[at];
        let state = write.1.copy()?;
        handed.keep(unit, write.0, state)?;
    }
    Ok(())
}
