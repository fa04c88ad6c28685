ghost use Rattle.turn_cell.specs.Passes.{IsPassOf, pass_view};
ghost use Rattle.core_access.specs.PassSights.{sight_of, all_come};
ghost use Rattle.history_core.specs.Cores.{run_of};
ghost use Rattle.silo_workers.specs.PassFrame.{PassAside, aside_of};

use core_access::Access;
use core_model::{CoreAnswer, CoreEvent, CoreQuestion, CoreReply};
use history_core::Core;
use std::alloc::AllocError;
use std::sync::Wait;
use turn_cell::{Pass, TurnCell, TurnObject};

/// A core in a turn cell, by a pass. Any event may come from others in between. A call waits for the turn.
pub struct Reach<'a, R: Wait> {
    pub rt: &'a R,
    pub cell: &'a TurnCell<Core>,
    pub pass: Pass<Core>,
}

impl<'a, R: Wait> Access for Reach<'a, R> {
    ghost is_fit = { λ a. IsPassOf a.cell.now a.pass };

    ghost sight = { λ a. sight_of run_of (pass_view a.pass) };

    ghost may_come = { all_come };

    ghost Aside = { PassAside };

    ghost aside = { λ a. aside_of a.cell.now a.pass.id (pass_view a.pass) };

    fn put(&mut self, event: CoreEvent) -> Result<CoreReply, (AllocError, CoreEvent)> {
        self.cell.put(self.rt, &mut self.pass, event)
    }

    fn see(&mut self, question: &CoreQuestion) -> Result<CoreAnswer, AllocError> {
        self.cell.see(self.rt, &mut self.pass, question)
    }
}
