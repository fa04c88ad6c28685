// Events, one for all: whether one applies, what it does, and the step.
ghost use Rattle.std.specs.Prelude.{◌≡◌, IfOk, IfErr};
ghost use Rattle.cell_table.specs.Table.{opens_with};
ghost use Rattle.history_core.specs.KeptParts.{StandsForReached};
ghost use Rattle.history_core.specs.Steps.{CanDo, Tells, Does, Takes, Refuses, LeavesMeaning, with_event};

use crate::parts::Parts;
use core_model::{CoreEvent, CoreReply};
use std::alloc::AllocError;

impl Parts {
    /// Carries an event. One that doesn't apply changes nothing. Where there is no memory the event comes back.
    pub(crate) fn step(&mut self, event: CoreEvent) -> Result<CoreReply, (AllocError, CoreEvent)>
        requires kept { StandsForReached self.old }
        ensures ok { IfOk result (λ reply. Takes self.old event reply self.new) }
        ensures err { IfErr result (λ e. (e.1 ≡ event) × LeavesMeaning self.old event self.new) }
        ensures opens { opens_with self.new.cells ≡ opens_with self.old.cells }
    {
        if !self.applies(&event) {
            return Ok(self.let_go(event));
        }
        self.apply(event)
    }

    // Lets an event go that doesn't apply, and answers the reply to it.
    fn let_go(&self, event: CoreEvent) -> CoreReply
        ensures { Refuses self.now event result }
    {
        match event {
            CoreEvent::Grant { unit, grain, mode } => {
                drop(event);
                self.not_granted(unit, grain, mode)
            }
            _ => {
                drop(event);
                CoreReply::Unapplied
            }
        }
    }

    // Whether the event applies.
    fn applies(&self, event: &CoreEvent) -> bool
        ensures { Tells self.now event.now result }
    {
        match event {
            CoreEvent::Bad { line, .. } => self.can_bad(*line),
            CoreEvent::Begin { origin, .. } => self.can_begin(origin),
            CoreEvent::Grant { unit, grain, mode } => self.can_grant(*unit, *grain, *mode),
            CoreEvent::Refuse { unit, grain, mode } => self.can_refuse(*unit, *grain, *mode),
            CoreEvent::Finish { unit, effect } => self.can_finish(*unit, effect),
            CoreEvent::EndPlain { unit, effect } => self.can_end_plain(*unit, effect),
            CoreEvent::EndSnapshot { unit, outcome, .. } => self.can_end_snapshot(*unit, outcome),
            CoreEvent::Release { unit, grain } => self.can_release(*unit, *grain),
            CoreEvent::Take => self.can_take(),
            CoreEvent::Vote { batch, grain, .. } => self.can_vote(*batch, *grain),
            CoreEvent::Decide { batch } => self.can_decide(*batch),
            CoreEvent::Sealed { batch } => self.can_seal(*batch),
            CoreEvent::NotSealed { batch } => self.can_seal(*batch),
            CoreEvent::Doubt { batch } => self.can_seal(*batch),
            CoreEvent::Learn { unit, grain } => self.can_learn(*unit, *grain),
            CoreEvent::Emitted => self.can_emit(),
            CoreEvent::Halt => self.can_halt(),
            CoreEvent::Want { unit, grain } => self.can_want(*unit, *grain),
            CoreEvent::Load { grain, .. } => self.can_load(*grain),
        }
    }

    // Carries an event that applies.
    fn apply(&mut self, event: CoreEvent) -> Result<CoreReply, (AllocError, CoreEvent)>
        requires can { CanDo self.old event }
        ensures ok { IfOk result (λ reply. Does self.old event reply self.new) }
        ensures err { IfErr result (λ e. (e.1 ≡ event) × LeavesMeaning self.old event self.new) }
        ensures opens { opens_with self.new.cells ≡ opens_with self.old.cells }
    {
        match event {
            CoreEvent::Bad { line, why } => {
                let done = self.bad(line, why);
                back(done, event)
            }
            CoreEvent::Begin {
                origin,
                call,
                plain,
            } => self.begin(origin, call, plain),
            CoreEvent::Grant { unit, grain, mode } => {
                let done = self.grant(unit, grain, mode);
                back(done, event)
            }
            CoreEvent::Refuse { unit, grain, mode } => {
                let done = self.refuse(unit, grain, mode);
                back(done, event)
            }
            CoreEvent::Finish { unit, effect } => self.finish(unit, effect),
            CoreEvent::EndPlain { unit, effect } => self.end_plain(unit, effect),
            CoreEvent::EndSnapshot { unit, at, outcome } => self.end_snapshot(unit, at, outcome),
            CoreEvent::Release { unit, grain } => Ok(self.release(unit, grain)),
            CoreEvent::Take => {
                let done = self.take();
                back(done, event)
            }
            CoreEvent::Vote { batch, grain, yes } => Ok(self.vote(batch, grain, yes)),
            CoreEvent::Decide { batch } => Ok(self.decide(batch)),
            CoreEvent::Sealed { batch } => Ok(self.seal(batch)),
            CoreEvent::NotSealed { batch } => Ok(self.not_seal(batch)),
            CoreEvent::Doubt { batch } => Ok(self.doubt(batch)),
            CoreEvent::Learn { unit, grain } => Ok(self.learn(unit, grain)),
            CoreEvent::Emitted => Ok(self.emit()),
            CoreEvent::Halt => Ok(self.halt()),
            CoreEvent::Want { unit, grain } => {
                let done = self.want(unit, grain);
                back(done, event)
            }
            CoreEvent::Load { grain, unit, state } => {
                let done = self.load(grain, unit, &state);
                back(done, CoreEvent::Load { grain, unit, state })
            }
        }
    }
}

// The answer of a call, with the event that comes back where there is no memory.
fn back(
    done: Result<CoreReply, AllocError>,
    event: CoreEvent,
) -> Result<CoreReply, (AllocError, CoreEvent)>
    ensures { result ≡ with_event done event }
{
    match done {
        Ok(reply) => {
            drop(event);
            Ok(reply)
        }
        Err(error) => Err((error, event)),
    }
}
