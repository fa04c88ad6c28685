// What a core answers.
ghost use Rattle.std.specs.Prelude.{◌≡◌, ◌||◌, false, is_some, slice_get, IfOk, OnErr};
ghost use Rattle.std.specs.Option.{option_copied};
ghost use Rattle.core_access.specs.CallsWithoutMemory.{is_plain};
ghost use Rattle.core_model.specs.Answers.{answer_to};
ghost use Rattle.core_model.specs.LegalRuns.{ends};
ghost use Rattle.core_model.specs.Settler.{has_step, settler_step};
ghost use Rattle.core_model.specs.Tests.{ask_answer, is_decided};
ghost use Rattle.core_model.specs.Events.{applies};
ghost use Rattle.core_model.specs.declared.events.CoreEvent.TheVariants.{Take};
ghost use Rattle.history_core.specs.Cores.{run_of};

use crate::whole_core::Core;
use base_types::{Entry, GrainId, Mode, UnitNo};
use core_model::{AskAnswer, CoreAnswer, CoreQuestion};
use std::alloc::AllocError;

impl Core {
    /// Answers a question, from the state after all events. An answer is a copy, and takes memory only where it isn't a
    /// few numbers. No answer looks at units that are over, at events, at written entries, or at grains that nobody asks
    /// for. The outcome of a unit whose result has gone is told where it is an abort; else it is answered as where memory is
    /// wanting. A result stays while the unit's parent runs, and while fewer than 4,096 units have begun since.
    pub fn ask(&self, question: &CoreQuestion) -> Result<CoreAnswer, AllocError>
        ensures told { IfOk result (λ answer. answer ≡ answer_to (ends (run_of self.now)) question.now) }
        ensures untold { OnErr result (is_plain question.now ≡ false) }
    {
        self.parts.answer(question)
    }

    /// What a unit is answered that asks for the grain's lock.
    pub fn ask_lock(&self, unit: UnitNo, grain: GrainId, mode: Mode) -> AskAnswer
        ensures { result ≡ ask_answer (ends (run_of self.now)) unit grain mode }
    {
        self.parts.ask(unit, grain, mode)
    }

    /// Whether the unit is decided.
    pub fn is_decided(&self, unit: UnitNo) -> bool
        ensures { result ≡ is_decided (ends (run_of self.now)) unit }
    {
        self.parts.units.is_decided(unit)
    }

    /// Whether a batch can be taken.
    pub fn can_take(&self) -> bool
        ensures { result ≡ applies (ends (run_of self.now)) Take }
    {
        self.parts.can_take()
    }

    /// Whether the settler has a step. Nothing is copied for it.
    pub fn has_settler_step(&self) -> bool
        ensures { result ≡ has_step (settler_step (ends (run_of self.now))) }
    {
        self.parts.has_work()
    }

    /// The first settled entry that isn't written yet, `None` where all are.
    pub fn next_settled(&self) -> Option<&Entry>
        ensures { option_copied result ≡ slice_get (ends (run_of self.now)).manager.settled (ends (run_of self.now)).manager.emitted }
    {
        self.parts.entries.next()
    }

    /// Whether the run is to stop, or a batch is in doubt.
    pub fn is_halted(&self) -> bool
        ensures { result ≡ ((ends (run_of self.now)).units.halt || is_some (ends (run_of self.now)).manager.doubt) }
    {
        self.parts.is_stopped()
    }
}
