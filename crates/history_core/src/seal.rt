// What became of the block of a decided batch.
ghost use Rattle.std.specs.Prelude.{◌≡◌};
ghost use Rattle.core_model.specs.declared.events.CoreEvent.TheVariants.{Sealed, NotSealed, Doubt};
ghost use Rattle.cell_table.specs.Table.{opens_with};
ghost use Rattle.history_core.specs.Batches.{is_judged_in};
ghost use Rattle.history_core.specs.Steps.{CanDo, Tells, Does};

use crate::batch_closing::Closing;
use crate::parts::Parts;
use core_model::CoreReply;
use open_batch::OpenBatch;

impl Parts {
    // Whether that batch is open and decided, and no batch is in doubt.
    pub(crate) fn can_seal(&self, number: u64) -> bool
        ensures sealed { Tells self.now (Sealed number) result }
        ensures not_sealed { Tells self.now (NotSealed number) result }
        ensures doubt { Tells self.now (Doubt number) result }
    {
        self.is_known() && is_judged(&self.batch, number)
    }

    // The batch is on disk: who was to commit is committed. Takes no memory.
    pub(crate) fn seal(&mut self, number: u64) -> CoreReply
        requires can { CanDo self.old (Sealed number) }
        ensures ok { Does self.old (Sealed number) result self.new }
        ensures opens { opens_with self.new.cells ≡ opens_with self.old.cells }
    {
        self.close(Closing::Sealed);
        CoreReply::Done
    }

    // The batch isn't on disk and never will be: all of it is aborted. Takes no memory.
    pub(crate) fn not_seal(&mut self, number: u64) -> CoreReply
        requires can { CanDo self.old (NotSealed number) }
        ensures ok { Does self.old (NotSealed number) result self.new }
        ensures opens { opens_with self.new.cells ≡ opens_with self.old.cells }
    {
        self.close(Closing::NotSealed);
        CoreReply::Done
    }

    // Nobody knows whether the batch is on disk: who was to commit stays undecided. Takes no memory.
    pub(crate) fn doubt(&mut self, number: u64) -> CoreReply
        requires can { CanDo self.old (Doubt number) }
        ensures ok { Does self.old (Doubt number) result self.new }
        ensures opens { opens_with self.new.cells ≡ opens_with self.old.cells }
    {
        self.close(Closing::Doubt);
        self.doubt = true;
        CoreReply::Done
    }
}

// Whether that batch is open and decided.
fn is_judged(batch: &Option<OpenBatch>, number: u64) -> bool
    ensures { result ≡ is_judged_in batch.now number }
{
    match batch {
        None => false,
        Some(batch) => batch.number() == number && !batch.is_open(),
    }
}
