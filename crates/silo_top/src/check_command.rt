ghost use Rattle.std.specs.Prelude.{◌≡◌, IsTrue};
ghost use Rattle.promise_spec.specs.Words as command;
ghost use Rattle.promise_spec.specs.Checks.{Checks};
ghost use Rattle.promise_spec.specs.Endings.{BadUse};
ghost use Rattle.silo_top.specs.CallAnswers.{shown};
ghost use Rattle.silo_opening.specs.CommandCalls.{HasCalledAs};
ghost use Rattle.silo_top.specs.Statuses.{status_ending};

use crate::status::Status;
use host_trait::{Failed, Host};
use std::alloc::{AllocError, Global};

/// Runs two-phase commit between silos, with so many starts drawn from this seed, and prints how it ended. The folder isn't used.
pub(crate) fn check<H: Host>(alloc: Global, host: &mut H, starts: u32, seed: u64) -> Status
    ensures checks { IsTrue H.tells → Checks starts seed
        (shown (H.world host.old) (H.world host.new) (H.faults host.old) (H.faults host.new) result (command.Check starts seed)) }
    ensures calls { HasCalledAs (status_ending result) H.is_ready H.faults host.old host.new }
    ensures good { status_ending result ≡ BadUse → ⊥ }
{
    let summary = match two_silos::check(starts, seed, alloc) {
        Ok(summary) => summary,
        Err(AllocError) => return Status::Memory,
    };
    let line = match summary.line(alloc) {
        Ok(line) => line,
        Err(AllocError) => return Status::Memory,
    };
    match host.emit(line.as_bytes()) {
        Ok(()) => Status::Done,
        Err(Failed) => Status::WriteFault,
    }
}
