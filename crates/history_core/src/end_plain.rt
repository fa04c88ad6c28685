// A plain run has come to its end.
ghost use Rattle.std.specs.Prelude.{◌≡◌, ◌<◌, ◌≤◌, ℕ, List as AList, Option as AnOption, true, IfOk, IfErr, OnOk, OnErr};
ghost use Rattle.base_types.specs.declared.calls.Outcome.{Outcome as AnOutcome};
ghost use Rattle.core_model.specs.CoreState.{CoreState};
ghost use Rattle.core_model.specs.Changes.{after_end, swept};
ghost use Rattle.core_model.specs.declared.events.CoreEvent.{CoreEvent as AnEvent};
ghost use Rattle.core_model.specs.declared.events.CoreEvent.TheVariants.{EndPlain};
ghost use Rattle.core_model.specs.Tests.{is_running};
ghost use Rattle.unit_table.specs.KnownUnits.{known_running};
ghost use Rattle.history_core.specs.Effects.{ends_as_plain};
ghost use Rattle.history_core.specs.Evictions.{EndsAs};
ghost use Rattle.cell_table.specs.Table.{opens_with};
ghost use Rattle.unit_table.specs.Table.{known_in, phase_in};
ghost use Rattle.history_core.specs.KeptParts.{PartsStand, IsCoreReached, owed_in};
ghost use Rattle.history_core.specs.Steps.{CanDo, KeepsMeaning, Tells, Does};

use crate::parts::Parts;
use crate::refuse::settle;
use crate::room::owed;
use base_types::{Outcome, Settled, UnitNo};
use core_model::{CoreEvent, CoreReply, Effect};
use std::alloc::AllocError;
use unit_table::RunningUnit;

impl Parts {
    // Whether that is the effect of a running plain run, and no stop stands.
    pub(crate) fn can_end_plain(&self, unit: UnitNo, effect: &Effect) -> bool
        ensures { Tells self.now (EndPlain unit effect.now) result }
    {
        self.is_going() && self.has_ended(unit, effect)
    }

    // Whether that is the effect of a running plain run, without reads and writes.
    fn has_ended(&self, unit: UnitNo, effect: &Effect) -> bool
        ensures { result ≡ ends_as_plain self.now unit effect.now (known_in self.now.units unit) }
    {
        match self.units.running(unit) {
            None => false,
            Some(running) => self.ends(unit, running, effect),
        }
    }

    // Whether that is the effect of a unit that runs, and a plain run.
    fn ends(&self, unit: UnitNo, running: &RunningUnit, effect: &Effect) -> bool
        ensures { result ≡ ends_as_plain self.now unit effect.now (known_running running.now) }
    {
        running.plain
            && self.is_of_call(unit, running, effect)
            && effect.reads.is_empty()
            && effect.writes.is_empty()
    }

    // The plain run has ended, and its line is settled.
    pub(crate) fn end_plain(
        &mut self,
        unit: UnitNo,
        effect: Effect,
    ) -> Result<CoreReply, (AllocError, CoreEvent)>
        requires can { CanDo self.old (EndPlain unit effect) }
        ensures ok { IfOk result (λ reply. Does self.old (EndPlain unit effect) reply self.new) }
        ensures back { IfErr result (λ e. e.1 ≡ EndPlain unit effect) }
        ensures err { OnErr result (KeepsMeaning self.old self.new) }
        ensures opens { opens_with self.new.cells ≡ opens_with self.old.cells }
    {
        match self.prepare_end(&effect.result) {
            Err(error) => Err((error, CoreEvent::EndPlain { unit, effect })),
            Ok(kept) => {
                self.end(unit, effect.result, kept);
                Ok(CoreReply::Done)
            }
        }
    }

    // Makes the room of one entry, and a copy of the result.
    pub(crate) fn prepare_end(&mut self, outcome: &Outcome) -> Result<Outcome, AllocError>
        ensures copied { IfOk result (λ made. made ≡ outcome.now) }
        ensures room { OnOk result (owed_in self.new.batch < self.new.entries.spare) }
        ensures keeps { KeepsMeaning self.old self.new }
        ensures units { self.new.units ≡ self.old.units }
        ensures opens { opens_with self.new.cells ≡ opens_with self.old.cells }
    {
        let room = owed(&self.batch) + 1;
        self.entries.reserve(room)?;
        outcome.copy()
    }

    // The running unit has ended with that result, its line is settled, and what it waited for leaves memory where it is idle.
    // Takes no memory.
    pub(crate) fn end(&mut self, unit: UnitNo, told: Outcome, kept: Outcome)
        requires runs { is_running (phase_in self.old.units unit) ≡ true }
        requires room { owed_in self.old.batch < self.old.entries.spare }
        requires same { kept ≡ told }
        ensures ended { (w : CoreState) → PartsStand self.old w → IsCoreReached w → (e : AnEvent) (answers : AList AnOutcome) (at : AnOption ℕ)
            → EndsAs w e unit answers told at → PartsStand self.new (swept (after_end w unit answers told at)) }
        ensures opens { opens_with self.new.cells ≡ opens_with self.old.cells }
    {
        let origin = self.origin(unit);
        settle(&mut self.entries, origin, unit, Settled::Done(told));
        self.cells.evict_wanted(unit, self.units.wants());
        self.units.end(unit, kept);
    }
}
