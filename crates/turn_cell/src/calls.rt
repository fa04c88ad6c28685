// Calls and questions, each under the turn.
ghost use Rattle.std.specs.Prelude.{◌≡◌, IfOk, IfErr};

use crate::cell::{Pass, TurnCell};
use crate::object::TurnObject;
use std::alloc::AllocError;
use std::snapshot::Snapshot;
use std::sync::Wait;

// From this word on, which is that of 2 to the 62 events, no event is put.
const FULL: u64 = 1 << 63;

impl<T: TurnObject> TurnCell<T> {
    ghost use Rattle.turn_cell.specs.Passes.{IsPassOf, IsSameSeat, pass_view, state_seen, Adds, Sees};

    /// Puts an event, and answers the reply at its own step of the history.
    ///
    /// It waits for the turn, and for ever where the history has 2 to the 62 events. Where the object has no memory the event comes back, and no entry is made.
    pub fn put<R: Wait>(
        &self,
        rt: &R,
        pass: &mut Pass<T>,
        event: T::Event,
    ) -> Result<T::Reply, (AllocError, T::Event)>
        requires { IsPassOf self.now pass.old }
        ensures own { IsPassOf self.now pass.new }
        ensures same { IsSameSeat pass.old pass.new }
        ensures call { IfOk result (λ r. Adds T.state T.after T.reply (pass_view pass.old) event r (pass_view pass.new)) }
        ensures refused { IfErr result (λ e. (e.1 ≡ event) × Sees T.state T.after T.reply (pass_view pass.old) (pass_view pass.new)) }
        ensures unspared { IfErr result (λ _. T.spares (state_seen T.state T.after T.reply (pass_view pass.new)) event → ⊥) }
    {
        let (word, mut object) = self.take_turn(rt, pass, FULL);
        let asked = Snapshot::of(&event);
        match object.step(event) {
            Ok(reply) => {
                self.publish(pass, word, object, asked, Snapshot::of(&reply));
                Ok(reply)
            }
            Err(refused) => {
                self.release(pass, word, object);
                Err(refused)
            }
        }
    }

    /// Asks, and answers from the state at its own step of the history. It waits for the turn.
    pub fn see<R: Wait>(
        &self,
        rt: &R,
        pass: &mut Pass<T>,
        question: &T::Question,
    ) -> Result<T::Answer, AllocError>
        requires { IsPassOf self.now pass.old }
        ensures own { IsPassOf self.now pass.new }
        ensures same { IsSameSeat pass.old pass.new }
        ensures seen { Sees T.state T.after T.reply (pass_view pass.old) (pass_view pass.new) }
        ensures answer { IfOk result (λ a. a ≡ T.answer (state_seen T.state T.after T.reply (pass_view pass.new)) question.now) }
        ensures untold { IfErr result (λ _. T.tells (state_seen T.state T.after T.reply (pass_view pass.new)) question.now → ⊥) }
    {
        let (word, object) = self.take_turn(rt, pass, u64::MAX);
        let answer = object.ask(question);
        self.release(pass, word, object);
        answer
    }

    /// As `put`, with a pass that moves through.
    pub fn call<R: Wait>(
        &self,
        rt: &R,
        mut pass: Pass<T>,
        event: T::Event,
    ) -> (Pass<T>, Result<T::Reply, (AllocError, T::Event)>)
        requires { IsPassOf self.now pass }
        ensures own { IsPassOf self.now result.0 }
        ensures same { IsSameSeat pass result.0 }
        ensures call { IfOk result.1 (λ r. Adds T.state T.after T.reply (pass_view pass) event r (pass_view result.0)) }
        ensures refused { IfErr result.1 (λ e. (e.1 ≡ event) × Sees T.state T.after T.reply (pass_view pass) (pass_view result.0)) }
        ensures unspared { IfErr result.1 (λ _. T.spares (state_seen T.state T.after T.reply (pass_view result.0)) event → ⊥) }
    {
        let answer = self.put(rt, &mut pass, event);
        (pass, answer)
    }

    /// As `see`, with a pass that moves through.
    pub fn look<R: Wait>(
        &self,
        rt: &R,
        mut pass: Pass<T>,
        question: &T::Question,
    ) -> (Pass<T>, Result<T::Answer, AllocError>)
        requires { IsPassOf self.now pass }
        ensures own { IsPassOf self.now result.0 }
        ensures same { IsSameSeat pass result.0 }
        ensures seen { Sees T.state T.after T.reply (pass_view pass) (pass_view result.0) }
        ensures answer { IfOk result.1 (λ a. a ≡ T.answer (state_seen T.state T.after T.reply (pass_view result.0)) question.now) }
        ensures untold { IfErr result.1 (λ _. T.tells (state_seen T.state T.after T.reply (pass_view result.0)) question.now → ⊥) }
    {
        let answer = self.see(rt, &mut pass, question);
        (pass, answer)
    }
}
