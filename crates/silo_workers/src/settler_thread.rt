// What the calling thread does with its pass.
ghost use Rattle.std.specs.Prelude.{◌≡◌};
ghost use Rattle.core_access.specs.PassSights.{sight_of};
ghost use Rattle.history_core.specs.Cores.{run_of};
ghost use Rattle.turn_cell.specs.Passes.{IsPassOf, pass_view};
ghost use Rattle.worker_rules.specs.JoinedPasses.{Returns};
ghost use Rattle.silo_workers.specs.SettlerThread.{SettlesBeside};
ghost use Rattle.run_books.specs.Stages.{side_of, IsSafe, StaysSafe};

use crate::reach::Reach;
use crate::team::Team;
use base_types::Shape;
use core_model::{CoreAnswer, CoreQuestion};
use history_core::Core;
use host_trait::Host;
use run_books::RunFault;
use run_lines::Lines;
use settle_loop::{Gate, Settler};
use shared_settling::settle_beside;
use std::marker::PhantomData;
use std::sync::Wait;
use turn_cell::{Pass, TurnObject};

/// Settles by a pass beside workers, until they have ended their work. The pass comes back however that ended.
pub(crate) fn settle_by_pass<R: Wait, H: Host, G: Gate, L: Lines>(
    team: &Team<R, G, L>,
    pass: Pass<Core>,
    shape: &Shape,
    settler: &mut Settler,
    host: &mut H,
) -> (Pass<Core>, Result<(), RunFault>)
    requires own { IsPassOf team.now.cell pass }
    requires safe { IsSafe H.tells settler.old.writer (H.world host.old) }
    ensures own { IsPassOf team.now.cell result.0 }
    ensures returns { Returns run_of
        (SettlesBeside H.tells shape.now (side_of H.world H.faults settler.old host.old)
        (side_of H.world H.faults settler.new host.new) result.1 (sight_of run_of (pass_view pass)))
        (pass_view pass) (pass_view result.0) }
    ensures safe { StaysSafe H.tells H.is_ready H.world settler.new.writer host.old host.new }
{
    let _named: PhantomData<(CoreQuestion, CoreAnswer)> = PhantomData;
    let mut reach = Reach {
        rt: team.rt,
        cell: &team.cell,
        pass,
    };
    let settled = settle_beside(
        team.rt,
        shape,
        settler,
        &mut reach,
        host,
        team.gate,
        &team.signals,
    );
    let Reach {
        rt: _rt,
        cell: _cell,
        pass,
    } = reach;
    (pass, settled)
}
