ghost use Rattle.std.specs.Prelude.{◌≡◌, IsTrue};
ghost use Rattle.promise_spec.specs.Words as command;
ghost use Rattle.promise_spec.specs.Endings.{BadUse};
ghost use Rattle.promise_spec.specs.Upgrading.{UpgradesSilo};
ghost use Rattle.silo_upgrade.specs.Endings.{ending_for};
ghost use Rattle.silo_top.specs.CallAnswers.{shown};
ghost use Rattle.silo_opening.specs.CommandCalls.{HasCalledAs};
ghost use Rattle.silo_top.specs.Statuses.{status_ending};

use crate::run_command::open_status;
use crate::status::Status;
use host_trait::Host;
use silo_upgrade::UpgradeEnd;
use std::alloc::Global;

/// The status of an upgrade that ended so before it was done.
fn upgrade_status(end: UpgradeEnd) -> Status
    ensures { status_ending result ≡ ending_for end }
{
    match end {
        UpgradeEnd::ReadFault => Status::ReadFault,
        UpgradeEnd::InputTooLong => Status::InputTooLong { line: 0 },
        UpgradeEnd::BadProgram(fault) => Status::BadProgram { fault },
        UpgradeEnd::Unopened(fault) => open_status(fault),
        UpgradeEnd::Refused { at } => Status::UpgradeRefused { at },
        UpgradeEnd::DiskFault { file } => Status::DiskFault { file },
        UpgradeEnd::Memory => Status::Memory,
    }
}

/// Brings the program that is the input into force in the silo.
pub(crate) fn upgrade<H: Host>(alloc: Global, host: &mut H) -> Status
    ensures upgrades { IsTrue H.tells → UpgradesSilo
        (shown (H.world host.old) (H.world host.new) (H.faults host.old) (H.faults host.new) result command.Upgrade) }
    ensures calls { HasCalledAs (status_ending result) H.is_ready H.faults host.old host.new }
    ensures good { status_ending result ≡ BadUse → ⊥ }
{
    match silo_upgrade::upgrade(alloc, host) {
        Ok(()) => Status::Done,
        Err(end) => upgrade_status(end),
    }
}
