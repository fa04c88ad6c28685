ghost use Rattle.std.specs.Prelude.{◌≡◌, IfOk};
ghost use Rattle.core_model.specs.Settler.{settler_step, Rests};
ghost use Rattle.core_access.specs.FitAccess.{StaysFit};
ghost use Rattle.core_access.specs.Sights.{run_seen};
ghost use Rattle.settle_loop.specs.SettlerStep.{state_shown};
ghost use Rattle.run_books.specs.SharedSteps.{SeesOn};
ghost use Rattle.shared_settling.specs.SharedSettler.{EndsAmong, HasToStop, MayStop, EndsOthers, LeavesStopped, LeavesBeside};
ghost use Rattle.run_books.specs.Stages.{side_of, IsSafe, StaysSafe};

use crate::steps::settle_once;
use base_types::Shape;
use core_access::Access;
use core_model::CoreEvent;
use host_trait::Host;
use run_books::RunFault;
use settle_loop::{Gate, Settler};
use std::sync::Wait;
use worker_signals::Signals;

/// Puts a stop, which the others see when they look. It takes no memory where it applies, and elsewhere a stop or a doubt stands
/// already: so one of them stands afterwards, and no more is written.
fn stop<A: Access>(access: &mut A, signals: &Signals)
    requires fit { A.is_fit access.old }
    ensures kept { StaysFit (A.is_fit access.new) (A.aside access.old) (A.aside access.new) }
    ensures stops { MayStop A.may_come (A.sight access.old) (A.sight access.new) }
    ensures stopped { HasToStop (run_seen (A.sight access.new)) }
{
    // Where there is no memory for it the stop doesn't apply, so another one or a doubt stands.
    drop(access.put(CoreEvent::Halt));
    signals.write_no_more();
    signals.changed();
}

/// Ends the others behind a fault: by a stop, unless it is a doubt, by which they end as well.
fn end_others<A: Access>(access: &mut A, signals: &Signals, fault: &RunFault)
    requires fit { A.is_fit access.old }
    ensures kept { StaysFit (A.is_fit access.new) (A.aside access.old) (A.aside access.new) }
    ensures ends { EndsOthers A.may_come fault.now (A.sight access.old) (A.sight access.new) }
{
    match fault {
        RunFault::InDoubt => {
            signals.write_no_more();
            signals.changed();
        }
        RunFault::WriteFault => stop(access, signals),
        RunFault::Memory => stop(access, signals),
        RunFault::LoadFault { .. } => stop(access, signals),
        RunFault::LoadDamaged { .. } => stop(access, signals),
    }
}

/// Settles what others do, who have the core too, until they have ended their work and nothing is left to do.
///
/// After each step the others are told. Where there is nothing to do it sleeps until a worker waits or ends, but no longer than
/// `Signals` does: what others finish meanwhile comes into one batch. Where the output fails, a grain's last version isn't read or memory
/// runs out, here or at a worker, a stop is put, unless one or a doubt stands already: so however it failed, one of them stands, and the
/// others end by it.
///
/// # Errors
///
/// - `InDoubt`: a batch was left in doubt, and all that is settled is written.
/// - `WriteFault`: the output failed.
/// - `LoadFault`: a grain's file failed, where its last version was to be read.
/// - `LoadDamaged`: no version stands where the log names a grain's last one. It doesn't come over a host that tells.
/// - `Memory`: memory ran out, here or at a worker.
pub fn settle_beside<A: Access, H: Host, G: Gate, R: Wait>(
    rt: &R,
    shape: &Shape,
    settler: &mut Settler,
    access: &mut A,
    host: &mut H,
    gate: &G,
    signals: &Signals,
) -> Result<(), RunFault>
    requires fit { A.is_fit access.old }
    requires safe { IsSafe H.tells settler.old.writer (H.world host.old) }
    ensures kept { StaysFit (A.is_fit access.new) (A.aside access.old) (A.aside access.new) }

    // What it put: the settler's events, and a stop last, perhaps, where it failed.
    ensures sees { SeesOn (A.sight access.old) (A.sight access.new) }
    ensures own { EndsAmong A.may_come (A.sight access.old) (A.sight access.new) result }

    // However it failed, a stop or a doubt stands behind the last that it saw, so the others end by it. An answer of doubt says
    // that one stands, unless the settler knew of one before any did.
    ensures stopped { LeavesStopped settler.old (A.sight access.old) (A.sight access.new) result }

    // Where all is well the last that it saw left it nothing to do.
    ensures rests { IfOk result (λ _. settler_step (state_shown (A.sight access.new)) ≡ Rests) }

    // The run's books, once it is known that others put events of lines and units alone, and what it leaves beside them.
    ensures leaves { LeavesBeside H.tells shape.now (side_of H.world H.faults settler.old host.old)
        (side_of H.world H.faults settler.new host.new) result (A.sight access.old) (A.sight access.new) }

    ensures safe { StaysSafe H.tells H.is_ready H.world settler.new.writer host.old host.new }
{
    for _ in rt.forever() {
        let called = signals.called();
        let working = signals.working();
        signals.write(settler.written());
        if signals.has_failed() {
            stop(access, signals);
            return Err(RunFault::Memory);
        }
        match settle_once(shape, settler, access, host, gate) {
            Ok(true) => signals.changed(),
            Ok(false) => {
                if working == 0 {
                    return Ok(());
                }
                signals.rest(rt, called);
            }
            Err(fault) => {
                end_others(access, signals, &fault);
                return Err(fault);
            }
        }
    }
    unreachable!()
}
