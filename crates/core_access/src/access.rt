ghost use Rattle.std.specs.Prelude.{◌≡◌, Bool, false, IfOk, IfErr};
ghost use Rattle.core_model.specs.Answers.{answer_to};
ghost use Rattle.core_model.specs.declared.events.CoreEvent.{CoreEvent as AnEvent};
ghost use Rattle.core_model.specs.LegalRuns.{ends};
ghost use Rattle.core_access.specs.FitAccess.{StaysFit};
ghost use Rattle.core_access.specs.Sights.{Sight, run_seen, IsHistory, Looks, Tells};
ghost use Rattle.core_access.specs.CallsWithoutMemory.{is_spared, is_plain};

use core_model::{CoreAnswer, CoreEvent, CoreQuestion, CoreReply};
use std::alloc::AllocError;

/// The core, from the side of one who puts events into it and asks it, while others may do so too.
///
/// Between two calls, and before the event or the answer of one, events of others may have come. What they are can't be
/// known before all have given back what they share; so what a caller knows of the core it knows if nobody else interfered
/// (`IsAlone`), and nothing that keeps a call safe may rest on it.
pub trait Access {
    /// It may be used.
    ghost is_fit: { Self → Type 0 };

    /// What is known through it.
    ghost sight: { Self → Sight };

    /// Which events others may put: none where nobody else has the core.
    ghost may_come: { AnEvent → Bool };

    /// What it has besides.
    ghost Aside: { Type 0 };

    /// No call changes that.
    ghost aside: { Self → Aside };

    /// Puts an event, and answers the core's reply at the event's own place. The event and its reply are one more of one's
    /// own entries.
    ///
    /// Where there is no memory the event comes back and wasn't put. That is never so of an event that applies and has need of
    /// no room, or of such as earlier ones made: a stop, a release, a vote, a decision, the three answers of a seal, what a
    /// grain learns, and an entry that is written.
    fn put(&mut self, event: CoreEvent) -> Result<CoreReply, (AllocError, CoreEvent)>
        requires fit { is_fit self.old }
        ensures kept { StaysFit (is_fit self.new) (aside self.old) (aside self.new) }
        ensures legal { IsHistory (sight self.new) }
        ensures put { IfOk result (λ r. Tells may_come (sight self.old) event r (sight self.new)) }
        ensures refused { IfErr result (λ e. (e.1 ≡ event) × Looks may_come (sight self.old) (sight self.new)) }
        ensures unspared { IfErr result (λ _. is_spared (run_seen (sight self.new)) event ≡ false) };

    /// Asks, and answers from the state behind all that was seen by then. One answer is of one state.
    ///
    /// Where there is no memory for the answer there is none. That is never so of one that is a few numbers.
    fn see(&mut self, question: &CoreQuestion) -> Result<CoreAnswer, AllocError>
        requires fit { is_fit self.old }
        ensures kept { StaysFit (is_fit self.new) (aside self.old) (aside self.new) }
        ensures legal { IsHistory (sight self.new) }
        ensures looked { Looks may_come (sight self.old) (sight self.new) }
        ensures answer { IfOk result (λ a. a ≡ answer_to (ends (run_seen (sight self.new))) question.now) }
        ensures untold { IfErr result (λ _. is_plain question.now ≡ false) };
}
