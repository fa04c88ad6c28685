// The room that the open batch was promised.
ghost use Rattle.std.specs.Prelude.{◌≡◌, ◌≤◌};
ghost use Rattle.history_core.specs.KeptParts.{owed_in};

use open_batch::OpenBatch;

// How many entries the open batch may still need.
pub(crate) fn owed(batch: &Option<OpenBatch>) -> usize
    ensures size { result ≡ owed_in batch.now }
    ensures most { result ≤ 64 }
{
    match batch {
        Some(batch) => batch.size(),
        None => 0,
    }
}
