ghost use Rattle.std.specs.Prelude.{◌≡◌, true, false, IfOk, IfErr};
ghost use Rattle.core_model.specs.Settler.{settler_step, Rests};
ghost use Rattle.core_access.specs.FitAccess.{StaysFit};
ghost use Rattle.core_access.specs.Sights.{run_seen};
ghost use Rattle.settle_loop.specs.SettlerStep.{state_shown};
ghost use Rattle.run_books.specs.declared.faults.RunFault.TheVariants.{InDoubt};
ghost use Rattle.shared_settling.specs.SharedSettler.{SettlesAmong, KnowsTruly, LeavesBeside};
ghost use Rattle.run_books.specs.Stages.{side_of, IsSafe, StaysSafe};

use base_types::Shape;
use core_access::Access;
use host_trait::Host;
use run_books::RunFault;
use settle_loop::{Gate, Settler, StopCause, Turned};

/// The settler goes on by one step. Answers whether it had something to do.
///
/// A settler that knows of a doubt, and has nothing left to write, stops by it.
pub(crate) fn settle_once<A: Access, H: Host, G: Gate>(
    shape: &Shape,
    settler: &mut Settler,
    access: &mut A,
    host: &mut H,
    gate: &G,
) -> Result<bool, RunFault>
    requires fit { A.is_fit access.old }
    requires safe { IsSafe H.tells settler.old.writer (H.world host.old) }
    ensures kept { StaysFit (A.is_fit access.new) (A.aside access.old) (A.aside access.new) }
    ensures own { SettlesAmong (A.sight access.old) (A.sight access.new) }
    ensures leaves { LeavesBeside H.tells shape.now (side_of H.world H.faults settler.old host.old)
        (side_of H.world H.faults settler.new host.new) result (A.sight access.old) (A.sight access.new) }
    ensures rests { IfOk result (λ more. more ≡ false → (settler_step (state_shown (A.sight access.new)) ≡ Rests) × (settler.new.doubted ≡ false)) }
    ensures knows { KnowsTruly settler.old (run_seen (A.sight access.old)) → KnowsTruly settler.new (run_seen (A.sight access.new)) }
    ensures doubted { IfErr result (λ fault. fault ≡ InDoubt → settler.new.doubted ≡ true) }
    ensures safe { StaysSafe H.tells H.is_ready H.world settler.new.writer host.old host.new }
{
    match settler.step(shape, access, host, gate)? {
        Turned::Stepped => Ok(true),
        Turned::Nothing => {
            if settler.doubted() {
                return Err(RunFault::InDoubt);
            }
            Ok(false)
        }
        Turned::Stop(StopCause::InDoubt) => Err(RunFault::InDoubt),
        Turned::Stop(StopCause::WriteFault) => Err(RunFault::WriteFault),
        Turned::Stop(StopCause::LoadFault { file }) => Err(RunFault::LoadFault { file }),
        Turned::Stop(StopCause::LoadDamaged { file, place }) => {
            Err(RunFault::LoadDamaged { file, place })
        }
    }
}
