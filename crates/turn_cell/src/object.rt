// What can stand in a turn cell.
ghost use Rattle.std.specs.Prelude.{◌≡◌, IfOk, IfErr};

use std::alloc::AllocError;

/// An object whose states and replies follow from its events.
///
/// The laws speak of a meaning, `State`, and not of the object's own value, so a meaning may hold functions.
pub trait TurnObject: Drop {
    /// What can be put to the object.
    type Event;

    /// What an event is answered.
    type Reply;

    /// What the object can be asked.
    type Question;

    /// What a question is answered.
    type Answer;

    /// What an object means.
    ghost State: { Type 0 };

    /// The meaning of an object.
    ghost state: { Self → State };

    /// The state after an event.
    ghost after: { State → Self.Event → State };

    /// What a state replies to an event.
    ghost reply: { State → Self.Event → Self.Reply };

    /// What a state answers to a question.
    ghost answer: { State → Self.Question → Self.Answer };

    /// The events that a state takes without memory.
    ghost spares: { State → Self.Event → Type 0 };

    /// The questions that a state answers without memory.
    ghost tells: { State → Self.Question → Type 0 };

    /// Any object: the opening in the view of a pass that was joined into another.
    ghost some_object: { Self };

    /// Takes an event. Where there is no memory the event comes back, and the state is as before.
    fn step(&mut self, event: Self::Event) -> Result<Self::Reply, (AllocError, Self::Event)>
        ensures taken { IfOk result (λ r. (state self.new ≡ after (state self.old) event) × (r ≡ reply (state self.old) event)) }
        ensures refused { IfErr result (λ e. (state self.new ≡ state self.old) × (e.1 ≡ event) × (spares (state self.old) event → ⊥)) };

    /// Answers a question, where there is memory for it.
    fn ask(&self, question: &Self::Question) -> Result<Self::Answer, AllocError>
        ensures told { IfOk result (λ a. a ≡ answer (state self.now) question.now) }
        ensures refused { IfErr result (λ _. tells (state self.now) question.now → ⊥) };
}
