// A core as the object of a turn cell, and as the access of one who has it alone.
ghost use Rattle.std.specs.Prelude.{◌≡◌, [], ◌∷◌, true, ⊤};
ghost use Rattle.core_model.specs.Answers.{answer_to};
ghost use Rattle.core_model.specs.Laws.{extended};
ghost use Rattle.core_model.specs.LegalRuns.{Run, ends};
ghost use Rattle.core_access.specs.Histories.{reply_in};
ghost use Rattle.core_access.specs.OneHolder.{own_sight, none_comes};
ghost use Rattle.core_access.specs.CallsWithoutMemory.{is_spared, is_plain};
ghost use Rattle.history_core.specs.Cores.{run_of, some_core};

use crate::whole_core::Core;
use core_access::Access;
use core_model::{CoreAnswer, CoreEvent, CoreQuestion, CoreReply};
use std::alloc::AllocError;
use turn_cell::TurnObject;

impl TurnObject for Core {
    type Event = CoreEvent;

    type Reply = CoreReply;

    type Question = CoreQuestion;

    type Answer = CoreAnswer;

    ghost State = { Run };

    ghost state = { run_of };

    ghost after = { λ r e. extended r (e ∷ []) };

    ghost reply = { reply_in };

    ghost answer = { λ r q. answer_to (ends r) q };

    ghost spares = { λ r e. is_spared r e ≡ true };

    ghost tells = { λ r q. is_plain q ≡ true };

    ghost some_object = { some_core };

    fn step(&mut self, event: CoreEvent) -> Result<CoreReply, (AllocError, CoreEvent)> {
        Core::step(self, event)
    }

    fn ask(&self, question: &CoreQuestion) -> Result<CoreAnswer, AllocError> {
        Core::ask(self, question)
    }
}

impl Access for Core {
    ghost is_fit = { λ c. ⊤ };

    ghost sight = { λ c. own_sight (run_of c) };

    ghost may_come = { none_comes };

    ghost Aside = { ⊤ };

    ghost aside = { λ c. tt };

    fn put(&mut self, event: CoreEvent) -> Result<CoreReply, (AllocError, CoreEvent)> {
        Core::step(self, event)
    }

    fn see(&mut self, question: &CoreQuestion) -> Result<CoreAnswer, AllocError> {
        Core::ask(self, question)
    }
}
