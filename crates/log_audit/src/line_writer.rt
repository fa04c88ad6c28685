// How a line is written.

ghost use Rattle.std.specs.Prelude.{IsTrue, is_ok};
ghost use Rattle.silo_opening.specs.CommandCalls.{HasCalledAs};
ghost use Rattle.log_audit.specs.Endings.{report_ending, MayEnd};
ghost use Rattle.log_audit.specs.ReportOutput.{PutsPart};

use crate::faults::ReportFault;
use host_trait::{Failed, Host};

/// Adds a line to the output. After `WriteFault` a first part of it was added, maybe none or all.
pub(crate) fn write_line<H: Host>(host: &mut H, line: &[u8]) -> Result<(), ReportFault>
    ensures puts { IsTrue H.tells → PutsPart line.now (is_ok result) (H.world host.old) (H.world host.new) }
    ensures ended { MayEnd (report_ending result) }
    ensures calls { HasCalledAs (report_ending result) H.is_ready H.faults host.old host.new }
{
    match host.emit(line) {
        Ok(()) => Ok(()),
        Err(Failed) => Err(ReportFault::WriteFault),
    }
}
