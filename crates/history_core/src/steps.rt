// The step of a core.
ghost use Rattle.std.specs.Prelude.{◌≡◌, ◌∷◌, [], true, IfOk, IfErr};
ghost use Rattle.core_model.specs.LegalRuns.{ends};
ghost use Rattle.core_model.specs.Laws.{extended};
ghost use Rattle.core_model.specs.Events.{reply_to};
ghost use Rattle.history_core.specs.LockAnswers.{FitsLine, FitsEvent};
ghost use Rattle.history_core.specs.Steps.{takes_memory};
ghost use Rattle.history_core.specs.Cores.{run_of, HasFewNumbers};

use crate::whole_core::Core;
use base_types::Origin;
use core_model::{CoreEvent, CoreReply};
use core_parts::History;
use std::alloc::AllocError;

impl Core {
    /// Carries an event: the run has one event more, and the reply is the model's. One that doesn't apply changes nothing
    /// but the run's events.
    ///
    /// Where there is no memory the event comes back and nothing has changed. That is never so of an event whose room
    /// earlier ones made: a release, a vote, a decision, the three answers of a seal, what a grain learns, a written entry,
    /// and a halt.
    ///
    /// No unit has a number of 2^63 or more: where the next unit's would be that, memory is wanting.
    pub fn step(&mut self, event: CoreEvent) -> Result<CoreReply, (AllocError, CoreEvent)>
        ensures taken { IfOk result (λ reply. (run_of self.new ≡ extended (run_of self.old) (event ∷ [])) × (reply ≡ reply_to (ends (run_of self.old)) event)) }
        ensures refused { IfErr result (λ e. (run_of self.new ≡ run_of self.old) × (e.1 ≡ event) × (takes_memory event ≡ true)) }
        ensures few { HasFewNumbers (ends (run_of self.new)) }
    {
        fits_event(&event);
        let after = History::with(&self.history, &event);
        match self.parts.step(event) {
            Ok(reply) => {
                self.history = after;
                Ok(reply)
            }
            Err(refused) => Err(refused),
        }
    }
}

// The number of a line has 32 bits.
fn fits_event(event: &CoreEvent)
    ensures { FitsEvent event.now }
{
    match event {
        CoreEvent::Bad { line, .. } => {
            let line = *line;
            prove!(u64::from(line) < 4_294_967_296);
        }
        CoreEvent::Begin { origin, .. } => fits_line(origin),
        _ => {}
    }
}

// The number of a unit's line has 32 bits.
pub(crate) fn fits_line(origin: &Origin)
    ensures { FitsLine origin.now }
{
    match *origin {
        Origin::Line(line) => prove!(u64::from(line) < 4_294_967_296),
        Origin::Child { .. } => {}
    }
}
