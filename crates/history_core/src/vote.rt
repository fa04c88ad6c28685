// Whether the versions of the batch are on disk in the grain's file.
ghost use Rattle.std.specs.Prelude.{◌≡◌, Bool};
ghost use Rattle.core_model.specs.declared.events.CoreEvent.TheVariants.{Vote};
ghost use Rattle.cell_table.specs.Table.{opens_with};
ghost use Rattle.history_core.specs.Batches.{may_vote_in};
ghost use Rattle.history_core.specs.Steps.{CanDo, Tells, Does};

use crate::parts::Parts;
use base_types::GrainId;
use core_model::CoreReply;
use open_batch::OpenBatch;

impl Parts {
    // Whether that batch is open and undecided, and planned work on that grain has no vote; no stop stands.
    pub(crate) fn can_vote(&self, number: u64, grain: GrainId) -> bool
        ensures { (kept : Bool) → Tells self.now (Vote number grain kept) result }
    {
        self.is_going() && may_vote(&self.batch, number, grain)
    }

    // Keeps the vote. Takes no memory.
    pub(crate) fn vote(&mut self, number: u64, grain: GrainId, kept: bool) -> CoreReply
        requires can { CanDo self.old (Vote number grain kept) }
        ensures ok { Does self.old (Vote number grain kept) result self.new }
        ensures opens { opens_with self.new.cells ≡ opens_with self.old.cells }
    {
        match &mut self.batch {
            None => unreachable!(),
            Some(batch) => batch.vote(grain, kept),
        }
        CoreReply::Done
    }
}

// Whether that batch is open and undecided, and planned work on that grain has no vote.
fn may_vote(batch: &Option<OpenBatch>, number: u64, grain: GrainId) -> bool
    ensures { result ≡ may_vote_in batch.now number grain }
{
    match batch {
        None => false,
        Some(batch) => batch.number() == number && batch.is_open() && batch.may_vote(grain),
    }
}
