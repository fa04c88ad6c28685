ghost use Rattle.std.specs.Prelude.{◌≡◌, false, IfOk};
ghost use Rattle.core_model.specs.LegalRuns.{ends};
ghost use Rattle.core_model.specs.Settler.{settler_step, Rests};
ghost use Rattle.core_access.specs.OneHolder.{own_sight};
ghost use Rattle.history_core.specs.Cores.{run_of};
ghost use Rattle.promise_spec.specs.UnitRule.{Basis, KeepsUnitRule};
ghost use Rattle.run_books.specs.Beginnings.{Outset};
ghost use Rattle.run_books.specs.RecordFrame.{TurnsBeside};
ghost use Rattle.run_books.specs.Books.{Books};
ghost use Rattle.run_books.specs.Records.{KeepsBooks};
ghost use Rattle.run_books.specs.BooksSteps.{AreEven};
ghost use Rattle.shared_settling.specs.SharedSettler.{SettlesAmong, CanSettleRest, SettledAmong};
ghost use Rattle.run_books.specs.Stages.{stage_of, IsSafe, StaysSafe};

use crate::steps::settle_once;
use base_types::Shape;
use history_core::Core;
use host_trait::Host;
use run_books::RunFault;
use settle_loop::{Gate, Settler};

/// Settles over a core that nobody else has, until nothing is left to do.
///
/// # Errors
///
/// - `InDoubt`: a batch was left in doubt, and all that is settled is written.
/// - `WriteFault`: the output failed.
/// - `LoadFault`: a grain's file failed, where its last version was to be read.
/// - `LoadDamaged`: no version stands where the log names a grain's last one. It doesn't come over a host that tells.
/// - `Memory`: memory ran out. So is told what hasn't ended by 2 to the 64 less one steps.
pub fn settle_rest<H: Host, G: Gate>(
    shape: &Shape,
    core: &mut Core,
    settler: &mut Settler,
    host: &mut H,
    gate: &G,
) -> Result<(), RunFault>
    requires safe { IsSafe H.tells settler.old.writer (H.world host.old) }

    // Events of the settler's alone were put, so the unit rule stays.
    ensures own { SettlesAmong (own_sight (run_of core.old)) (own_sight (run_of core.new)) }
    ensures units { (basis : Basis) → KeepsUnitRule basis (run_of core.old) → KeepsUnitRule basis (run_of core.new) }

    ensures rests { IfOk result (λ _. settler_step (ends (run_of core.new)) ≡ Rests) }
    ensures sure { IfOk result (λ _. settler.new.doubted ≡ false) }

    // The run's books.
    ensures books { (o : Outset) (b : Books) → CanSettleRest o shape.now (run_of core.old)
        → AreEven settler.old.quiet b (ends (run_of core.old))
        → KeepsBooks H.tells o b (stage_of H.world H.faults (run_of core.old) settler.old host.old)
        → SettledAmong H.tells o b (stage_of H.world H.faults (run_of core.old) settler.old host.old)
        (stage_of H.world H.faults (run_of core.new) settler.new host.new) result }

    // And what it leaves beside that.
    ensures beside { TurnsBeside H.tells
        (stage_of H.world H.faults (run_of core.old) settler.old host.old)
        (stage_of H.world H.faults (run_of core.new) settler.new host.new) result }

    ensures safe { StaysSafe H.tells H.is_ready H.world settler.new.writer host.old host.new }
{
    for _step in 0..usize::MAX {
        if !settle_once(shape, settler, core, host, gate)? {
            return Ok(());
        }
    }
    Err(RunFault::Memory)
}
