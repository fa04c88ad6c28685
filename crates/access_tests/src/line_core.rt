ghost use Rattle.std.specs.Prelude.{◌≡◌, [], ◌∷◌, true, false, ⊤, IfOk, IfErr, if◌then◌else◌};
ghost use Rattle.core_model.specs.Answers.{answer_to};
ghost use Rattle.core_model.specs.declared.events.CoreReply.TheVariants.{Done, Unapplied};
ghost use Rattle.core_model.specs.Laws.{extended};
ghost use Rattle.core_model.specs.LegalRuns.{ends};
ghost use Rattle.core_access.specs.Histories.{reply_in};
ghost use Rattle.core_access.specs.CallsWithoutMemory.{is_spared, is_plain};
ghost use Rattle.core_access.specs.OneHolder.{own_sight, none_comes};
ghost use Rattle.access_tests.specs.Lines.{line_run, is_carried, applies_to, counted, counted_if, shown_by, IsFit};

use core_access::Access;
use core_model::{AskAnswer, CoreAnswer, CoreEvent, CoreQuestion, CoreReply, KnownOutcome};
use core_parts::History;
use std::alloc::AllocError;

/// A core that takes bad lines, written entries and a stop, and never finds memory for another event.
#[derive(Drop)]
pub struct LineCore {
    lines: u32,
    written: u32,
    halted: bool,
    history: History,
}

// Lets an event go.
fn let_go(_event: CoreEvent) {}

// Whether the core takes events of this kind.
fn is_carried(event: &CoreEvent) -> bool
    ensures { result ≡ is_carried event.now }
{
    match event {
        CoreEvent::Bad { .. } => true,
        CoreEvent::Emitted => true,
        CoreEvent::Halt => true,
        _ => false,
    }
}

// The reply to an event that applies, or doesn't.
fn reply(applies: bool) -> CoreReply
    ensures { result ≡ (if applies then Done else Unapplied) }
{
    if applies {
        CoreReply::Done
    } else {
        CoreReply::Unapplied
    }
}

impl LineCore {
    /// No event yet. Takes no memory.
    pub fn new() -> LineCore
        ensures empty { result.history.events ≡ [] }
        ensures fit { IsFit result }
    {
        LineCore {
            lines: 0,
            written: 0,
            halted: false,
            history: History::new(),
        }
    }

    // Whether an event applies.
    fn applies(&self, event: &CoreEvent) -> bool
        ensures { result ≡ applies_to self.now event.now }
    {
        match event {
            CoreEvent::Bad { line, why: _ } => !self.halted
                && *line as u64 == self.lines as u64 + 1,
            CoreEvent::Emitted => self.written < self.lines,
            CoreEvent::Halt => !self.halted,
            _ => false,
        }
    }

    // Counts an event that applies.
    fn count(&mut self, event: &CoreEvent)
        requires { applies_to self.old event.now ≡ true }
        ensures { self.new ≡ counted self.old event.now }
    {
        match event {
            CoreEvent::Bad { line, why: _ } => self.lines = *line,
            CoreEvent::Emitted => self.written += 1,
            CoreEvent::Halt => self.halted = true,
            _ => {}
        }
    }

    // Counts an event where it applies, and says whether it does.
    fn count_if(&mut self, event: &CoreEvent) -> bool
        ensures applies { result ≡ applies_to self.old event.now }
        ensures counted { self.new ≡ counted_if (applies_to self.old event.now) self.old event.now }
    {
        if !self.applies(event) {
            return false;
        }
        self.count(event);
        true
    }

    // Takes an event, as the model's core does. Where it is of another kind it comes back, and nothing changed.
    fn carry(&mut self, event: CoreEvent) -> Result<CoreReply, (AllocError, CoreEvent)>
        requires { IsFit self.old }
        ensures fit { IsFit self.new }
        ensures taken { IfOk result (λ r. (line_run self.new ≡ extended (line_run self.old) (event ∷ [])) × (r ≡ reply_in (line_run self.old) event)) }
        ensures refused { IfErr result (λ e. (line_run self.new ≡ line_run self.old) × (e.1 ≡ event)) }
        ensures unspared { IfErr result (λ _. is_spared (line_run self.old) event ≡ false) }
    {
        if !is_carried(&event) {
            return Err((AllocError, event));
        }
        let applies = self.count_if(&event);
        self.history.note(&event);
        let_go(event);
        Ok(reply(applies))
    }

    // What the counts answer.
    fn shown(&self, question: &CoreQuestion) -> Option<CoreAnswer>
        ensures { result ≡ shown_by self.now.lines self.now.halted question.now }
    {
        match question {
            CoreQuestion::Ask { .. } => Some(CoreAnswer::Ask(AskAnswer::NotActive)),
            CoreQuestion::Outcome { .. } => Some(CoreAnswer::Outcome(KnownOutcome::Undecided)),
            CoreQuestion::Batch => Some(CoreAnswer::Batch(None)),
            CoreQuestion::NextLearn => Some(CoreAnswer::NextLearn(None)),
            CoreQuestion::CanTake => Some(CoreAnswer::CanTake(false)),
            CoreQuestion::NextLine => Some(CoreAnswer::NextLine(self.lines as u64 + 1)),
            CoreQuestion::NextSettled => None,
            CoreQuestion::Halted => Some(CoreAnswer::Halted(self.halted)),
            CoreQuestion::NextWanted => Some(CoreAnswer::NextWanted(None)),
            CoreQuestion::NextStep => None,
            CoreQuestion::IsDecided { .. } => Some(CoreAnswer::IsDecided(false)),
        }
    }

    // Answers from the counts, or not at all.
    fn answer(&self, question: &CoreQuestion) -> Result<CoreAnswer, AllocError>
        requires { IsFit self.now }
        ensures told { IfOk result (λ a. a ≡ answer_to (ends (line_run self.now)) question.now) }
        ensures untold { IfErr result (λ _. is_plain question.now ≡ false) }
    {
        match self.shown(question) {
            Some(answer) => Ok(answer),
            None => Err(AllocError),
        }
    }
}

/// One who has such a core alone.
impl Access for LineCore {
    ghost is_fit = { IsFit };

    ghost sight = { λ c. own_sight (line_run c) };

    ghost may_come = { none_comes };

    ghost Aside = { ⊤ };

    ghost aside = { λ c. tt };

    fn put(&mut self, event: CoreEvent) -> Result<CoreReply, (AllocError, CoreEvent)> {
        self.carry(event)
    }

    fn see(&mut self, question: &CoreQuestion) -> Result<CoreAnswer, AllocError> {
        self.answer(question)
    }
}
