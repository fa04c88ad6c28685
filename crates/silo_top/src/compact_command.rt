ghost use Rattle.std.specs.Prelude.{◌≡◌, IsTrue};
ghost use Rattle.promise_spec.specs.Words as command;
ghost use Rattle.promise_spec.specs.Compaction.{Compacts};
ghost use Rattle.promise_spec.specs.Endings.{BadUse};
ghost use Rattle.checkpoint.specs.Endings.{compact_ending};
ghost use Rattle.silo_top.specs.CallAnswers.{shown};
ghost use Rattle.silo_opening.specs.CommandCalls.{HasCalledAs};
ghost use Rattle.silo_top.specs.Statuses.{status_ending};

use crate::run_command::open_status;
use crate::status::Status;
use host_trait::Host;
use silo_opening::OpenFault;
use std::alloc::Global;

/// The status of a call that ended so.
fn compact_status(ended: Result<(), OpenFault>) -> Status
    ensures { status_ending result ≡ compact_ending ended }
{
    match ended {
        Ok(()) => Status::Done,
        Err(fault) => open_status(fault),
    }
}

/// Writes the next generation of the silo into its other slot.
pub(crate) fn compact<H: Host>(alloc: Global, host: &mut H) -> Status
    ensures compacts { IsTrue H.tells → Compacts
        (shown (H.world host.old) (H.world host.new) (H.faults host.old) (H.faults host.new) result command.Compact) }
    ensures calls { HasCalledAs (status_ending result) H.is_ready H.faults host.old host.new }
    ensures good { status_ending result ≡ BadUse → ⊥ }
{
    compact_status(checkpoint::compact(alloc, host))
}
