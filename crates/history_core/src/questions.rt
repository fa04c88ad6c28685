// What is answered to a question.
ghost use Rattle.std.specs.Prelude.{◌≡◌, ◌<◌, ◌^◌, ◌||◌, false, is_some, option_map, slice_get, IfOk, OnErr};
ghost use Rattle.core_model.specs.CoreState.{CoreState};
ghost use Rattle.core_model.specs.Answers.{known, view};
ghost use Rattle.core_access.specs.CallsWithoutMemory.{is_plain};
ghost use Rattle.unit_table.specs.Table.{lines_in};
ghost use Rattle.history_core.specs.KeptParts.{PartsStand, StandsForReached, members_in};
ghost use Rattle.history_core.specs.Questions.{AnswersQuestion};

use crate::parts::Parts;
use crate::room::owed;
use base_types::{Entry, Outcome};
use core_model::{BatchView, CoreAnswer, CoreQuestion, KnownOutcome};
use core_parts::EntryList;
use open_batch::FinishedUnit;
use std::alloc::AllocError;

impl Parts {
    // What is answered. Memory is taken for an outcome, a batch, an entry and what the settler does next.
    pub(crate) fn answer(&self, question: &CoreQuestion) -> Result<CoreAnswer, AllocError>
        requires kept { StandsForReached self.now }
        requires few { lines_in self.now.units < 2 ^ 32 }
        ensures told { IfOk result (λ a. AnswersQuestion self.now question.now a) }
        ensures untold { OnErr result (is_plain question.now ≡ false) }
    {
        match question {
            CoreQuestion::Ask { unit, grain, mode } => {
                Ok(CoreAnswer::Ask(self.ask(*unit, *grain, *mode)))
            }
            CoreQuestion::Outcome { unit } => {
                let outcome = self.units.outcome_copy(*unit)?;
                Ok(CoreAnswer::Outcome(known(outcome)))
            }
            CoreQuestion::Batch => {
                let batch = self.batch_view()?;
                Ok(CoreAnswer::Batch(batch))
            }
            CoreQuestion::NextLearn => Ok(CoreAnswer::NextLearn(self.learn.first())),
            CoreQuestion::CanTake => Ok(CoreAnswer::CanTake(self.can_take())),
            CoreQuestion::NextLine => Ok(CoreAnswer::NextLine(self.units.lines() + 1)),
            CoreQuestion::NextSettled => {
                let entry = next_entry(&self.entries)?;
                Ok(CoreAnswer::NextSettled(entry))
            }
            CoreQuestion::Halted => Ok(CoreAnswer::Halted(self.is_stopped())),
            CoreQuestion::NextWanted => Ok(CoreAnswer::NextWanted(self.next_wanted())),
            CoreQuestion::NextStep => {
                let work = self.next_work()?;
                Ok(CoreAnswer::NextStep(work))
            }
            CoreQuestion::IsDecided { unit } => {
                Ok(CoreAnswer::IsDecided(self.units.is_decided(*unit)))
            }
        }
    }

    // All that is shown of the open batch, where there is one.
    fn batch_view(&self) -> Result<Option<BatchView>, AllocError>
        requires { StandsForReached self.now }
        ensures { IfOk result (λ shown. (w : CoreState) → PartsStand self.now w → shown ≡ option_map (view w) w.manager.batch) }
    {
        match &self.batch {
            None => Ok(None),
            Some(batch) => {
                let shown = batch.view(self.members(), &self.units)?;
                Ok(Some(shown))
            }
        }
    }

    // The units of the open batch.
    pub(crate) fn members(&self) -> &[FinishedUnit]
        requires { StandsForReached self.now }
        ensures { result.now ≡ members_in self.now }
    {
        let size = owed(&self.batch);
        &self.waiting[..size]
    }

    // Whether the run is to stop, or a batch is in doubt.
    pub(crate) fn is_stopped(&self) -> bool
        ensures { (w : CoreState) → PartsStand self.now w → result ≡ (w.units.halt || is_some w.manager.doubt) }
    {
        self.units.is_halted() || self.doubt
    }
}

// An outcome, where it is known.
fn known(outcome: Option<Outcome>) -> KnownOutcome
    ensures { result ≡ known outcome }
{
    match outcome {
        None => KnownOutcome::Undecided,
        Some(outcome) => KnownOutcome::Decided(outcome),
    }
}

// The first settled entry that isn't written.
fn next_entry(entries: &EntryList) -> Result<Option<Entry>, AllocError>
    ensures { IfOk result (λ entry. entry ≡ slice_get entries.now.entries entries.now.emitted) }
{
    match entries.next() {
        None => Ok(None),
        Some(entry) => {
            let entry = entry.copy()?;
            Ok(Some(entry))
        }
    }
}
