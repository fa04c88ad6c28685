ghost use Rattle.std.specs.Prelude.{◌≡◌, IsTrue};
ghost use Rattle.promise_spec.specs.Words as command;
ghost use Rattle.promise_spec.specs.Migration.{Migrates};
ghost use Rattle.promise_spec.specs.Endings.{BadUse};
ghost use Rattle.checkpoint.specs.Endings.{migrate_ending};
ghost use Rattle.silo_top.specs.CallAnswers.{shown};
ghost use Rattle.silo_opening.specs.CommandCalls.{HasCalledAs};
ghost use Rattle.silo_top.specs.Statuses.{status_ending};

use crate::run_command::open_status;
use crate::status::Status;
use checkpoint::MigrateFault;
use host_trait::Host;
use std::alloc::Global;

/// The status of a call that ended so.
fn migrate_status(ended: Result<(), MigrateFault>) -> Status
    ensures { status_ending result ≡ migrate_ending ended }
{
    match ended {
        Ok(()) => Status::Done,
        Err(MigrateFault::Open(fault)) => open_status(fault),
        Err(MigrateFault::NotOld) => Status::NotOld,
    }
}

/// Writes the silo, which has format 1, into its other slot as one of format 2.
pub(crate) fn migrate<H: Host>(alloc: Global, host: &mut H) -> Status
    ensures migrates { IsTrue H.tells → Migrates
        (shown (H.world host.old) (H.world host.new) (H.faults host.old) (H.faults host.new) result command.Migrate) }
    ensures calls { HasCalledAs (status_ending result) H.is_ready H.faults host.old host.new }
    ensures good { status_ending result ≡ BadUse → ⊥ }
{
    migrate_status(checkpoint::migrate(alloc, host))
}
