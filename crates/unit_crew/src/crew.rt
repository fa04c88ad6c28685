ghost use Rattle.std.specs.Prelude.{◌≡◌, ◌<◌, ◌≤◌, IfOk, length, filter, count_by, not};
ghost use Rattle.core_access.specs.FitAccess.{StaysFit};
ghost use Rattle.core_access.specs.Sights.{Looks};
ghost use Rattle.script_tree.specs.Programs.{ProgramTree, program_tree};
ghost use Rattle.txn_agent.specs.declared.agent.Agent.{Agent as AnAgent};
ghost use Rattle.txn_agent.specs.AgentStep.{has_freed_all, is_freeing};
ghost use Rattle.unit_crew.specs.Crews.{IsCrew, HasTypes, WorksOn};

use crate::looks::was_aborted;
use base_types::Origin;
use core_access::Access;
use script_check::Checked;
use settle_loop::{Gate, GatePlace};
use std::alloc::{AllocError, Global};
use txn_agent::Advanced;
use unit_carrier::Agents;
use worker_signals::{Signals, Stand};

/// How many events a unit makes at most before a stop is looked for.
const MOST_STEPS: usize = 64;

/// What a step of a unit came to.
#[derive(Clone, Copy)]
enum Stepped {
    Moved,
    /// The grain for whose lock the unit asks isn't in memory.
    LacksGrain,
    Stays,
}

/// The unit of the agent at this index goes on by at most one event; a child that it begins is carried too.
fn step<A: Access, G: Gate>(
    alloc: Global,
    checked: &Checked,
    access: &mut A,
    agents: &mut Agents,
    gate: &G,
    index: usize,
) -> Result<Stepped, AllocError>
    requires fit { A.is_fit access.old }
    requires within { index < length agents.old.list.items }
    requires crew { IsCrew (program_tree checked.now) (A.sight access.old) agents.old.list.items }
    ensures kept { StaysFit (A.is_fit access.new) (A.aside access.old) (A.aside access.new) }
    ensures works { WorksOn (HasTypes (program_tree checked.now)) (A.sight access.old) (A.sight access.new) }
    ensures crew { IfOk result (λ _. IsCrew (program_tree checked.now) (A.sight access.new) agents.new.list.items) }
    ensures more { IfOk result (λ _. length agents.old.list.items ≤ length agents.new.list.items) }
{
    let agent = &mut agents.list[index];
    let unit = agent.unit();
    let children = agent.children();
    match agent.advance(alloc, checked, access)? {
        Advanced::Began { child, call, depth } => {
            let origin = Origin::Child {
                parent: unit,
                index: children,
                depth,
            };
            agents.carry(alloc, checked, child, origin, call, false)?;
            gate.reach(GatePlace::Begun { unit: child });
            Ok(Stepped::Moved)
        }
        Advanced::Granted { grain, source } => {
            gate.reach(GatePlace::Granted {
                unit,
                grain,
                source,
            });
            Ok(Stepped::Moved)
        }
        Advanced::Moved => Ok(Stepped::Moved),
        Advanced::Waits { holder: _holder } => Ok(Stepped::Stays),
        Advanced::WaitsLoad { grain: _grain } => Ok(Stepped::LacksGrain),
        Advanced::WaitsFor { child: _child } => Ok(Stepped::Stays),
        Advanced::Ended => Ok(Stepped::Stays),
    }
}

/// The unit of the agent at this index wishes for the grain of the lock for which its script asks, where that isn't in memory. Answers
/// whether the wish was done.
fn wish<A: Access>(access: &mut A, agents: &Agents, index: usize) -> Result<bool, AllocError>
    requires fit { A.is_fit access.old }
    requires within { index < length agents.now.list.items }
    ensures kept { StaysFit (A.is_fit access.new) (A.aside access.old) (A.aside access.new) }
    ensures works { (types : ProgramTree) → IsCrew types (A.sight access.old) agents.now.list.items
        → WorksOn (HasTypes types) (A.sight access.old) (A.sight access.new) }
    ensures crew { (types : ProgramTree) → IsCrew types (A.sight access.old) agents.now.list.items
        → IsCrew types (A.sight access.new) agents.now.list.items }
{
    let wished = agents.list[index].want(access)?;
    Ok(wished)
}

/// Tells the others that something was put, where it was, and answers whether it was.
fn tell_others(signals: &Signals, put: bool) -> bool
    ensures { result ≡ put }
{
    if put {
        signals.changed();
    }
    put
}

/// The unit of the agent at this index goes on as far as it can, by at most so many events; where the run is halted, only to
/// give back locks. Answers whether it moved, of which the others are told.
fn go_far<A: Access, G: Gate>(
    alloc: Global,
    checked: &Checked,
    access: &mut A,
    agents: &mut Agents,
    gate: &G,
    signals: &Signals,
    halted: bool,
    index: usize,
) -> Result<bool, AllocError>
    requires fit { A.is_fit access.old }
    requires within { index < length agents.old.list.items }
    requires crew { IsCrew (program_tree checked.now) (A.sight access.old) agents.old.list.items }
    ensures kept { StaysFit (A.is_fit access.new) (A.aside access.old) (A.aside access.new) }
    ensures works { WorksOn (HasTypes (program_tree checked.now)) (A.sight access.old) (A.sight access.new) }
    ensures crew { IfOk result (λ _. IsCrew (program_tree checked.now) (A.sight access.new) agents.new.list.items) }
    ensures more { IfOk result (λ _. length agents.old.list.items ≤ length agents.new.list.items) }
{
    if halted && !agents.list[index].is_freeing() {
        return Ok(false);
    }
    for count in 0..MOST_STEPS {
        match step(alloc, checked, access, agents, gate, index)? {
            Stepped::Moved => {}
            Stepped::Stays => return Ok(tell_others(signals, count > 0)),
            Stepped::LacksGrain => {
                let wished = wish(access, agents, index)?;
                return Ok(tell_others(signals, count > 0 || wished));
            }
        }
    }
    signals.changed();
    Ok(true)
}

/// Each unit goes on as far as it can. Answers whether one moved.
fn go_each<A: Access, G: Gate>(
    alloc: Global,
    checked: &Checked,
    access: &mut A,
    agents: &mut Agents,
    gate: &G,
    signals: &Signals,
    halted: bool,
) -> Result<bool, AllocError>
    requires fit { A.is_fit access.old }
    requires crew { IsCrew (program_tree checked.now) (A.sight access.old) agents.old.list.items }
    ensures kept { StaysFit (A.is_fit access.new) (A.aside access.old) (A.aside access.new) }
    ensures works { WorksOn (HasTypes (program_tree checked.now)) (A.sight access.old) (A.sight access.new) }
    ensures crew { IfOk result (λ _. IsCrew (program_tree checked.now) (A.sight access.new) agents.new.list.items) }
{
    let mut moved = false;
    for index in 0..agents.list.len() {
        let went = go_far(alloc, checked, access, agents, gate, signals, halted, index)?;
        moved = moved | went;
    }
    Ok(moved)
}

/// Tells of the line that it died by a lock, where its unit was aborted and has none left.
fn tell_death<A: Access>(access: &mut A, agents: &Agents, signals: &Signals, stand: &Stand)
    requires fit { A.is_fit access.old }
    ensures kept { StaysFit (A.is_fit access.new) (A.aside access.old) (A.aside access.new) }
    ensures looked { Looks A.may_come (A.sight access.old) (A.sight access.new) }
{
    if let Some(first) = agents.list.first() {
        if first.is_line() && first.has_freed_all() && was_aborted(access, first.unit()) {
            signals.meet(stand);
        }
    }
}

/// Each unit goes on as far as it can, and where the line died by a lock, the others are told. Answers whether a unit moved.
pub(crate) fn go_on<A: Access, G: Gate>(
    alloc: Global,
    checked: &Checked,
    access: &mut A,
    agents: &mut Agents,
    gate: &G,
    signals: &Signals,
    stand: &Stand,
    halted: bool,
) -> Result<bool, AllocError>
    requires fit { A.is_fit access.old }
    requires crew { IsCrew (program_tree checked.now) (A.sight access.old) agents.old.list.items }
    ensures kept { StaysFit (A.is_fit access.new) (A.aside access.old) (A.aside access.new) }
    ensures works { WorksOn (HasTypes (program_tree checked.now)) (A.sight access.old) (A.sight access.new) }
    ensures crew { IfOk result (λ _. IsCrew (program_tree checked.now) (A.sight access.new) agents.new.list.items) }
{
    let moved = go_each(alloc, checked, access, agents, gate, signals, halted)?;
    tell_death(access, agents, signals, stand);
    Ok(moved)
}

/// Drops the agents whose units have given back all their locks.
pub(crate) fn drop_freed(agents: &mut Agents)
    ensures { agents.new.list.items ≡ filter (λ (a : AnAgent). not (has_freed_all a.doing)) agents.old.list.items }
{
    agents.list.retain(|agent| !agent.has_freed_all());
}

/// How many of the units are over.
#[tactic(auto, using(std::proofs::lemmas::List::Sums::count_by_more_yes, std::proofs::lemmas::List::Sums::count_by_more_no))]
pub(crate) fn freeing_in(agents: &Agents) -> usize
    ensures { result ≡ count_by (λ (a : AnAgent). is_freeing a.doing) agents.now.list.items }
{
    let mut found = 0usize;
    for agent in agents.list.as_slice() {
        if agent.is_freeing() {
            found += 1;
        }
    }
    found
}
