ghost use Rattle.std.specs.Prelude.{◌≡◌, ⊤};
ghost use Rattle.core_access.specs.PassSights.{sight_of, all_come};
ghost use Rattle.history_core.specs.Cores.{run_of};
ghost use Rattle.turn_cell.specs.Passes.{IsPassOf, pass_view};

use crate::deeds::{Deed, Planned, event_of};
use crate::event_texts::Told;
use core_access::Access;
use core_model::{CoreAnswer, CoreEvent, CoreQuestion, CoreReply};
use history_core::Core;
use std::alloc::{AllocError, Global};
use std::marker::PhantomData;
use std::sync::Wait;
use turn_cell::{Pass, TurnCell, TurnObject};

/// A core that two share, from the side of one of them. Before looks and events of that one come those that are planned of the
/// other. Each event is told as a line of text.
pub struct SharedCore<'a, R: Wait> {
    pub rt: &'a R,
    pub alloc: Global,
    pub cell: &'a TurnCell<Core>,
    pub pass: Pass<Core>,
    pub other: Pass<Core>,
    pub plan: &'a [Planned],
    /// How many looks and events there were so far.
    pub looks: u32,
    pub events: u32,
    pub told: Told,
}

impl<'a, R: Wait> SharedCore<'a, R> {
    // The other puts this event.
    fn let_other(&mut self, deed: Deed)
        requires other { IsPassOf self.old.cell.now self.old.other }
        ensures cell { self.new.cell ≡ self.old.cell }
        ensures pass { self.new.pass ≡ self.old.pass }
        ensures other { IsPassOf self.new.cell.now self.new.other }
    {
        let _named: PhantomData<(CoreQuestion, CoreAnswer)> = PhantomData;
        self.told.tell("another: ");
        let Ok(event) = event_of(self.alloc, deed) else {
            self.told.tell("no memory\n");
            return;
        };
        self.told.tell_event(&event);
        let put = self.cell.put(self.rt, &mut self.other, event);
        match &put {
            Ok(reply) => self.told.tell_reply(reply),
            Err(_) => self.told.tell(": no memory\n"),
        }
        drop(put);
    }

    // The other puts what is planned before this look or event.
    fn let_others(&mut self, before_look: bool, at: u32)
        requires other { IsPassOf self.old.cell.now self.old.other }
        ensures cell { self.new.cell ≡ self.old.cell }
        ensures pass { self.new.pass ≡ self.old.pass }
        ensures other { IsPassOf self.new.cell.now self.new.other }
    {
        let _named: PhantomData<(CoreQuestion, CoreAnswer)> = PhantomData;
        let plan = self.plan;
        for planned in plan {
            if planned.before_look == before_look && planned.at == at {
                self.let_other(planned.deed);
            }
        }
    }
}

impl<'a, R: Wait> Access for SharedCore<'a, R> {
    ghost is_fit = { λ a. IsPassOf a.cell.now a.pass × IsPassOf a.cell.now a.other };

    ghost sight = { λ a. sight_of run_of (pass_view a.pass) };

    ghost may_come = { all_come };

    ghost Aside = { ⊤ };

    ghost aside = { λ a. tt };

    fn put(&mut self, event: CoreEvent) -> Result<CoreReply, (AllocError, CoreEvent)> {
        let _named: PhantomData<(CoreQuestion, CoreAnswer)> = PhantomData;
        self.events = self.events.wrapping_add(1);
        self.let_others(false, self.events);
        self.told.tell_event(&event);
        match self.cell.put(self.rt, &mut self.pass, event) {
            Ok(reply) => {
                self.told.tell_reply(&reply);
                Ok(reply)
            }
            Err(refused) => Err(refused),
        }
    }

    fn see(&mut self, question: &CoreQuestion) -> Result<CoreAnswer, AllocError> {
        let _named: PhantomData<(CoreQuestion, CoreAnswer)> = PhantomData;
        self.looks = self.looks.wrapping_add(1);
        self.let_others(true, self.looks);
        self.cell.see(self.rt, &mut self.pass, question)
    }
}
