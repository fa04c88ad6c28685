// The units in flight, and which of them are still to be looked at.
ghost use Rattle.std.specs.Prelude.{◌≡◌, true, filter, count_by};
ghost use Rattle.std.specs.List.{list_all};
ghost use Rattle.core_access.specs.OneHolder.{none_comes, own_sight};
ghost use Rattle.core_model.specs.LegalRuns.{ends};
ghost use Rattle.history_core.specs.Cores.{run_of};
ghost use Rattle.promise_spec.specs.TurnRule.{is_line};
ghost use Rattle.txn_agent.specs.declared.agent.Agent.{Agent as AnAgent};
ghost use Rattle.script_tree.specs.Programs.{ProgramTree};
ghost use Rattle.unit_carrier.specs.CarriedUnits.{AreCarried, AreFreed, units_carried};
ghost use Rattle.interleaver.specs.Flights.{flown_unless, is_flown, is_open_line};
ghost use Rattle.interleaver.specs.LastLook.{IsLooked, IsNow, NothingSince};

use history_core::Core;
use settle_loop::Settler;
use txn_agent::Agent;
use unit_carrier::Agents;

/// Whether the unit is to be looked at still: it has an event left, or is a line's and isn't settled.
fn is_flown(core: &Core, agent: &Agent) -> bool
    ensures { result ≡ is_flown (ends (run_of core.now)) agent.now }
{
    !agent.has_freed_all() || (agent.is_line() && !core.is_decided(agent.unit()))
}

/// Whether each of the units is to be looked at still.
#[tactic(auto, using(std::proofs::lemmas::List::Sums::count_by_more_yes, std::proofs::lemmas::List::Sums::count_by_more_no))]
fn flown_in(agents: &Agents, core: &Core) -> usize
    ensures { result ≡ count_by (is_flown (ends (run_of core.now))) agents.now.list.items }
{
    let mut found = 0usize;
    for agent in agents.list.as_slice() {
        if is_flown(core, agent) {
            found += 1;
        }
    }
    found
}

/// Drops the units that are no more to be looked at. Where there is none, no unit is touched.
fn drop_settled(agents: &mut Agents, core: &Core)
    ensures { agents.new.list.items ≡ filter (is_flown (ends (run_of core.now))) agents.old.list.items }
{
    if flown_in(agents, core) == agents.list.len() {
        return;
    }
    agents.list.retain(|agent| is_flown(core, agent));
}

/// Whether the unit is a line's that isn't decided.
fn is_open_line(core: &Core, agent: &Agent) -> bool
    ensures { result ≡ is_open_line (ends (run_of core.now)) agent.now }
{
    agent.is_line() && !core.is_decided(agent.unit())
}

/// Whether each of the units is a line's that isn't decided.
fn are_open(agents: &Agents, core: &Core) -> bool
    ensures { result ≡ list_all (is_open_line (ends (run_of core.now))) agents.now.list.items }
{
    agents.list.iter().all(|agent| is_open_line(core, agent))
}

/// Whether so many entries are settled, and nothing is in doubt.
fn is_still(looked: Option<usize>, core: &Core) -> bool
    ensures { result ≡ true → NothingSince looked (run_of core.now) }
{
    match looked {
        None => false,
        Some(settled) => settled == core.settled_count() && !core.is_halted(),
    }
}

/// How many entries are settled, where nothing is in doubt.
fn looked_now(core: &Core) -> Option<usize>
    ensures { IsNow result (run_of core.now) }
{
    if core.is_halted() {
        return None;
    }
    Some(core.settled_count())
}

/// Drops the units that are no more to be looked at. After a doubt it drops none: the settler alone moves then. It looks at none
/// where all of them were lines' that weren't decided, and nothing was settled since.
pub(crate) fn drop_unless_doubted(
    agents: &mut Agents,
    front: &mut usize,
    looked: &mut Option<usize>,
    core: &Core,
    settler: &Settler,
)
    requires carried { (types : ProgramTree) × AreCarried types none_comes (own_sight (run_of core.now)) agents.old.list.items }
    requires looked { IsLooked looked.old (run_of core.now) (units_carried agents.old.list.items) }
    requires freed { AreFreed front.old agents.old.list.items }
    ensures flown { agents.new.list.items ≡ flown_unless settler.now.doubted (ends (run_of core.now)) agents.old.list.items }
    ensures looked { IsLooked looked.new (run_of core.now) (units_carried agents.new.list.items) }
    ensures freed { AreFreed front.new agents.new.list.items }
{
    if settler.doubted() {
        return;
    }
    if is_still(*looked, core) {
        return;
    }
    if are_open(agents, core) {
        *looked = looked_now(core);
        return;
    }
    drop_settled(agents, core);
    *front = 0;
    *looked = None;
}

/// How many of the units are lines'.
#[tactic(auto, using(std::proofs::lemmas::List::Sums::count_by_more_yes, std::proofs::lemmas::List::Sums::count_by_more_no))]
pub(crate) fn lines_in(agents: &Agents) -> usize
    ensures { result ≡ count_by (λ (a : AnAgent). is_line a.carried.origin) agents.now.list.items }
{
    let mut found = 0usize;
    for agent in agents.list.as_slice() {
        if agent.is_line() {
            found += 1;
        }
    }
    found
}
