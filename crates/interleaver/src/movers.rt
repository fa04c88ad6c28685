ghost use Rattle.std.specs.Prelude.{◌≡◌, false, get_or, if◌then◌else◌, is_some, length, IfOk};
ghost use Rattle.core_model.specs.LockAnswers.{IsGoing};
ghost use Rattle.core_model.specs.LegalRuns.{ends};
ghost use Rattle.core_model.specs.Settler.{has_step, settler_step};
ghost use Rattle.core_access.specs.OneHolder.{none_comes, own_sight};
ghost use Rattle.history_core.specs.Cores.{run_of};
ghost use Rattle.script_tree.specs.Programs.{program_tree};
ghost use Rattle.unit_carrier.specs.CarriedUnits.{AreCarried, AreFreed, as_carried, units_carried};
ghost use Rattle.interleaver.specs.Flights.{IsNextMover, MovesWithin};

use history_core::Core;
use script_check::Checked;
use settle_loop::Settler;
use std::alloc::{AllocError, Global};
use unit_carrier::{Agents, Found};

/// Whose move it is.
#[derive(Clone, Copy)]
pub(crate) enum NextMover {
    /// The unit at this index among those that are carried.
    Unit(usize),
    Settler,
    /// Nobody can move.
    Nobody,
}

/// The pick at an index, 0 behind the end of the list.
pub(crate) fn pick_at(picks: &[u32], index: usize) -> usize
    ensures { result ≡ get_or picks.now index 0 }
{
    match picks.get(index) {
        Some(pick) => *pick as usize,
        None => 0,
    }
}

/// Whether the settler has a step, as a number.
fn settler_moves(core: &Core) -> usize
    ensures { result ≡ (if has_step (settler_step (ends (run_of core.now))) then 1 else 0) }
{
    if core.has_settler_step() {
        return 1;
    }
    0
}

/// The mover at a pick, which counts the movers round and round: the units that can move, and after them the settler where it
/// has a step. After a doubt the settler alone moves. The first `front` units are over and have given back all their locks.
pub(crate) fn next_mover(
    alloc: Global,
    checked: &Checked,
    core: &mut Core,
    agents: &mut Agents,
    front: usize,
    settler: &Settler,
    pick: usize,
) -> Result<NextMover, AllocError>
    requires carried { AreCarried (program_tree checked.now) none_comes (own_sight (run_of core.old)) agents.old.list.items }
    requires freed { AreFreed front agents.old.list.items }
    ensures same { run_of core.new ≡ run_of core.old }
    ensures carried { IfOk result (λ _. AreCarried (program_tree checked.now) none_comes (own_sight (run_of core.new)) agents.new.list.items) }
    ensures units { IfOk result (λ _. as_carried agents.new.list.items ≡ as_carried agents.old.list.items) }
    ensures within { IfOk result (λ mover. MovesWithin mover (length agents.new.list.items)) }
    ensures freed { IfOk result (λ _. AreFreed front agents.new.list.items) }
    ensures mover { settler.now.doubted ≡ is_some (ends (run_of core.old)).manager.doubt → (ends (run_of core.old)).units.halt ≡ false
        → IfOk result (λ mover. IsNextMover (program_tree checked.now) (run_of core.old) (units_carried agents.old.list.items) pick mover) }
{
    if settler.doubted() {
        if settler_moves(core) == 0 {
            return Ok(NextMover::Nobody);
        }
        return Ok(NextMover::Settler);
    }
    let units = match agents.find(alloc, checked, core, front, pick)? {
        Found::At(index) => return Ok(NextMover::Unit(index)),
        Found::Few(units) => units,
    };
    let movers = units.saturating_add(settler_moves(core));
    if movers == 0 {
        return Ok(NextMover::Nobody);
    }
    let place = pick % movers;
    if place >= units {
        return Ok(NextMover::Settler);
    }
    match agents.find(alloc, checked, core, front, place)? {
        Found::At(index) => Ok(NextMover::Unit(index)),
        Found::Few(_) => Ok(NextMover::Settler),
    }
}
