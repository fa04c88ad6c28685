ghost use Rattle.std.specs.Prelude.{◌≡◌, true, IfOk, ⊤};
ghost use Rattle.core_access.specs.OneHolder.{none_comes, own_sight};
ghost use Rattle.core_access.specs.SettlerEvents.{is_settling};
ghost use Rattle.core_access.specs.Sights.{Tells};
ghost use Rattle.history_core.specs.Cores.{run_of};

use crate::event_texts::Told;
use core_access::Access;
use core_model::{CoreAnswer, CoreEvent, CoreQuestion, CoreReply};
use history_core::Core;
use std::alloc::AllocError;

/// A core that one has alone. Each event that is put into it is told as a line of text.
#[derive(Drop)]
pub struct ToldCore {
    pub core: Core,
    pub told: Told,
}

impl Access for ToldCore {
    ghost is_fit = { λ c. ⊤ };

    ghost sight = { λ c. own_sight (run_of c.core) };

    ghost may_come = { none_comes };

    ghost Aside = { ⊤ };

    ghost aside = { λ c. tt };

    fn put(&mut self, event: CoreEvent) -> Result<CoreReply, (AllocError, CoreEvent)> {
        self.told.tell_event(&event);
        match Access::put(&mut self.core, event) {
            Ok(reply) => {
                self.told.tell_reply(&reply);
                Ok(reply)
            }
            Err(refused) => Err(refused),
        }
    }

    fn see(&mut self, question: &CoreQuestion) -> Result<CoreAnswer, AllocError> {
        Access::see(&mut self.core, question)
    }
}
