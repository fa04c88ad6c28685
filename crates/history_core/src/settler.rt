// What the settler does next.
ghost use Rattle.std.specs.Prelude.{◌≡◌, Some, IfOk};
ghost use Rattle.core_model.specs.CoreState.{CoreState};
ghost use Rattle.core_model.specs.Settler.{has_step, last_step, later_step, settler_step, take_step};
ghost use Rattle.history_core.specs.KeptParts.{PartsStand, IsCoreReached, StandsForReached};
ghost use Rattle.history_core.specs.Questions.{rest_step, ShowsStep};

use crate::parts::Parts;
use core_model::SettlerWork;
use open_batch::OpenBatch;
use std::alloc::AllocError;

impl Parts {
    // Whether the settler has a step. Takes no memory.
    pub(crate) fn has_work(&self) -> bool
        ensures { (w : CoreState) → PartsStand self.now w → IsCoreReached w → result ≡ has_step (settler_step w) }
    {
        if self.batch.is_some() {
            return true;
        }
        if self.entries.has_next() {
            return true;
        }
        if self.doubt {
            return false;
        }
        if self.learn.first().is_some() {
            return true;
        }
        !self.units.is_halted() && (self.next_wanted().is_some() || self.can_take())
    }

    // What the settler does next, with all that it needs for it. Each version is copied for its vote, each effect for its
    // seal and each entry for its writing, and nothing else.
    pub(crate) fn next_work(&self) -> Result<SettlerWork, AllocError>
        requires { StandsForReached self.now }
        ensures { IfOk result (ShowsStep self.now settler_step) }
    {
        match &self.batch {
            None => self.later_work(),
            Some(batch) => self.batch_work(batch),
        }
    }

    // An open batch comes first: its votes, then its decision, then its seal.
    fn batch_work(&self, batch: &OpenBatch) -> Result<SettlerWork, AllocError>
        requires kept { StandsForReached self.now }
        requires open { self.now.batch ≡ Some batch.now }
        ensures { IfOk result (ShowsStep self.now settler_step) }
    {
        let number = batch.number();
        if !batch.is_open() {
            let effects = batch.to_commit(self.members(), &self.units)?;
            return Ok(SettlerWork::Seal {
                batch: number,
                effects,
            });
        }
        match batch.next_unvoted() {
            None => Ok(SettlerWork::Decide { batch: number }),
            Some(grain) => {
                let versions = batch.versions(self.members(), &self.units, grain)?;
                Ok(SettlerWork::Vote {
                    batch: number,
                    grain,
                    versions,
                })
            }
        }
    }

    // Behind the open batch comes what is to learn, what is to write, what is wanted, and what is to take; after a doubt entries
    // alone are written.
    fn later_work(&self) -> Result<SettlerWork, AllocError>
        ensures { IfOk result (ShowsStep self.now later_step) }
    {
        if self.doubt {
            return self.last_work(false);
        }
        match self.learn.first() {
            None => self.last_work(true),
            Some((unit, grain)) => Ok(SettlerWork::Learn { unit, grain }),
        }
    }

    // What is to write comes before what is wanted and a batch that can be taken, where these may be.
    fn last_work(&self, may: bool) -> Result<SettlerWork, AllocError>
        ensures { IfOk result (ShowsStep self.now (λ w. last_step w may)) }
    {
        match self.entries.next() {
            None => Ok(self.rest_work(may)),
            Some(entry) => {
                let entry = entry.copy()?;
                Ok(SettlerWork::Write { entry })
            }
        }
    }

    // What is wanted comes into memory before a batch is taken, where these may be and the run isn't to stop.
    fn rest_work(&self, may: bool) -> SettlerWork
        ensures { ShowsStep self.now (rest_step may) result }
    {
        if !may {
            return SettlerWork::Nothing;
        }
        if self.units.is_halted() {
            return SettlerWork::Nothing;
        }
        match self.next_wanted() {
            Some(grain) => SettlerWork::Load { grain },
            None => self.take_work(),
        }
    }

    // A batch, where one can be taken.
    fn take_work(&self) -> SettlerWork
        ensures { ShowsStep self.now take_step result }
    {
        if self.can_take() {
            SettlerWork::Take
        } else {
            SettlerWork::Nothing
        }
    }
}
