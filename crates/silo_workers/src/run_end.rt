// How a run with workers ends.
ghost use Rattle.core_access.specs.OneHolder.{own_sight};
ghost use Rattle.history_core.specs.Cores.{run_of};
ghost use Rattle.run_books.specs.Beginnings.{Outset};
ghost use Rattle.run_books.specs.RecordFrame.{TurnsBeside};
ghost use Rattle.run_books.specs.Books.{Books};
ghost use Rattle.run_books.specs.Records.{RecordGoesOn};
ghost use Rattle.silo_workers.specs.RunEnd.{HasGathered};
ghost use Rattle.run_books.specs.Stages.{Stage, stage_of, IsSafe, StaysSafe};

use crate::crowd::Gathered;
use crate::work::WorkEnd;
use base_types::Shape;
use history_core::Core;
use host_trait::Host;
use run_books::RunFault;
use settle_loop::{Gate, Settler};
use shared_settling::settle_rest;

/// Settles what is left over the closed core, where workers and settling ended well.
pub(crate) fn end_run<H: Host, G: Gate>(
    shape: &Shape,
    core: &mut Core,
    settler: &mut Settler,
    host: &mut H,
    gate: &G,
    gathered: Gathered,
) -> Result<(), RunFault>
    requires safe { IsSafe H.tells settler.old.writer (H.world host.old) }
    ensures record_kept { (o : Outset) (b : Books) (s : Stage)
        → HasGathered H.tells o b shape.now s (stage_of H.world H.faults (run_of core.old) settler.old host.old) gathered.end gathered.settled
        → RecordGoesOn H.tells o b s (stage_of H.world H.faults (run_of core.new) settler.new host.new) result }
    ensures beside { (s : Stage)
        → TurnsBeside H.tells s (stage_of H.world H.faults (run_of core.old) settler.old host.old) gathered.settled
        → TurnsBeside H.tells s (stage_of H.world H.faults (run_of core.new) settler.new host.new) result }
    ensures safe { StaysSafe H.tells H.is_ready H.world settler.new.writer host.old host.new }
{
    let Gathered {
        started: _started,
        end,
        settled,
    } = gathered;
    match settled {
        Err(fault) => Err(fault),
        Ok(()) => match end {
            WorkEnd::Idle => Err(RunFault::Memory),
            WorkEnd::Lacking => Err(RunFault::Memory),
            WorkEnd::Through => {
                core.show_few();
                settle_rest(shape, core, settler, host, gate)
            }
        },
    }
}
