// Calls through any access.
ghost use Rattle.std.specs.Prelude.{◌≡◌, false, IfOk, OnErr};
ghost use Rattle.core_model.specs.Events.{applies};
ghost use Rattle.core_model.specs.declared.events.CoreEvent.TheVariants.{Emitted};
ghost use Rattle.core_model.specs.LegalRuns.{ends};
ghost use Rattle.core_access.specs.FitAccess.{StaysFit};
ghost use Rattle.core_access.specs.Sights.{run_seen, Looks, Tells};
ghost use Rattle.access_tests.specs.Calls.{SpoilsNext};

use base_types::BadRequest;
use core_access::Access;
use core_model::{CoreAnswer, CoreEvent, CoreQuestion, CoreReply};
use std::alloc::AllocError;

// The fault beside an event, which is let go.
fn fault_of(refused: (AllocError, CoreEvent)) -> AllocError {
    refused.0
}

/// Looks for the next line's number and puts that this line is bad. Another may have put that line in between, and then the
/// event doesn't apply. Want of memory also where the number is beyond those of lines.
pub fn spoil_next<A: Access>(access: &mut A) -> Result<CoreReply, AllocError>
    requires { A.is_fit access.old }
    ensures kept { StaysFit (A.is_fit access.new) (A.aside access.old) (A.aside access.new) }
    ensures put { IfOk result (λ r. SpoilsNext A.may_come (A.sight access.old) r (A.sight access.new)) }
    ensures unput { OnErr result (Looks A.may_come (A.sight access.old) (A.sight access.new)) }
{
    let line = match access.see(&CoreQuestion::NextLine)? {
        CoreAnswer::NextLine(line) => line,
        _ => unreachable!(),
    };
    if line > u32::MAX as u64 {
        return Err(AllocError);
    }
    let event = CoreEvent::Bad {
        line: line as u32,
        why: BadRequest::Json,
    };
    match access.put(event) {
        Ok(reply) => Ok(reply),
        Err(refused) => Err(fault_of(refused)),
    }
}

/// Puts that an entry is written. Where there is one, that takes no memory.
pub fn write_one<A: Access>(access: &mut A) -> Result<CoreReply, AllocError>
    requires { A.is_fit access.old }
    ensures kept { StaysFit (A.is_fit access.new) (A.aside access.old) (A.aside access.new) }
    ensures put { IfOk result (λ r. Tells A.may_come (A.sight access.old) Emitted r (A.sight access.new)) }
    ensures spared { OnErr result (applies (ends (run_seen (A.sight access.new))) Emitted ≡ false) }
{
    match access.put(CoreEvent::Emitted) {
        Ok(reply) => Ok(reply),
        Err(refused) => Err(fault_of(refused)),
    }
}
