ghost use Rattle.std.specs.Prelude.{◌≡◌, IsTrue};
ghost use Rattle.promise_spec.specs.Words as command;
ghost use Rattle.promise_spec.specs.Commands.{Reports, ShowsStates, Audits};
ghost use Rattle.promise_spec.specs.Endings.{BadUse};
ghost use Rattle.log_audit.specs.Endings.{report_ending};
ghost use Rattle.silo_top.specs.CallAnswers.{shown};
ghost use Rattle.silo_opening.specs.CommandCalls.{HasCalledAs};
ghost use Rattle.silo_top.specs.Statuses.{status_ending};

use crate::status::Status;
use host_trait::Host;
use log_audit::ReportFault;
use std::alloc::Global;

/// The status of a report that ended so.
fn report_status(ended: Result<(), ReportFault>) -> Status
    ensures { status_ending result ≡ report_ending ended }
{
    match ended {
        Ok(()) => Status::Done,
        Err(ReportFault::NotASilo) => Status::NotASilo,
        Err(ReportFault::OldFormat) => Status::OldFormat,
        Err(ReportFault::Damaged { file, place }) => Status::Damaged { file, place },
        Err(ReportFault::DiskFault { file }) => Status::DiskFault { file },
        Err(ReportFault::WriteFault) => Status::WriteFault,
        Err(ReportFault::Memory) => Status::Memory,
    }
}

/// Writes the state of each grain that the log names.
pub(crate) fn show<H: Host>(alloc: Global, host: &mut H) -> Status
    ensures reports { IsTrue H.tells → ShowsStates
        (shown (H.world host.old) (H.world host.new) (H.faults host.old) (H.faults host.new) result command.Show) }
    ensures calls { HasCalledAs (status_ending result) H.is_ready H.faults host.old host.new }
    ensures good { status_ending result ≡ BadUse → ⊥ }
{
    report_status(log_audit::show(alloc, host))
}

/// Writes each record of the log.
pub(crate) fn history<H: Host>(alloc: Global, host: &mut H) -> Status
    ensures reports { IsTrue H.tells → Reports
        (shown (H.world host.old) (H.world host.new) (H.faults host.old) (H.faults host.new) result command.History) }
    ensures calls { HasCalledAs (status_ending result) H.is_ready H.faults host.old host.new }
    ensures good { status_ending result ≡ BadUse → ⊥ }
{
    report_status(log_audit::history(alloc, host))
}

/// Plays the log again, and writes the first unit whose record isn't what that gives.
pub(crate) fn audit<H: Host>(alloc: Global, host: &mut H) -> Status
    ensures audits { IsTrue H.tells → Audits
        (shown (H.world host.old) (H.world host.new) (H.faults host.old) (H.faults host.new) result command.Audit) }
    ensures calls { HasCalledAs (status_ending result) H.is_ready H.faults host.old host.new }
    ensures good { status_ending result ≡ BadUse → ⊥ }
{
    report_status(log_audit::print_audit(alloc, host))
}
