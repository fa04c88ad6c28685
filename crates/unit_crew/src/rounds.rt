ghost use Rattle.std.specs.Prelude.{◌≡◌, ◌⊎◌, ◌+◌, ◌≤◌, [], IfOk, OnErr, length, ◌<◌};
ghost use Rattle.core_model.specs.LegalRuns.{ends};
ghost use Rattle.core_access.specs.FitAccess.{StaysFit};
ghost use Rattle.core_access.specs.Sights.{Counts, IsHistory, Looks, run_seen};
ghost use Rattle.promise_spec.specs.UnitRule.{Basis};
ghost use Rattle.script_tree.specs.Programs.{program_tree};
ghost use Rattle.turn_cell.specs.History.{StartsWith};
ghost use Rattle.worker_rules.specs.UnitOwnership.{KeepsPromise};
ghost use Rattle.worker_rules.specs.Work.{OnlyWorks};
ghost use Rattle.unit_crew.specs.Crews.{IsBasisOf, IsCrew, WorksOn};
ghost use Rattle.unit_crew.specs.Rounds.{IsOverAt};
ghost use Rattle.unit_crew.specs.FinishedUnits.{AreThrough, IsHalted, IsPastLine, Showed};

use crate::crew::{drop_freed, freeing_in, go_on};
use crate::lines::begin_next;
use crate::looks::is_halted;
use core_access::Access;
use run_lines::Lines;
use script_check::Checked;
use settle_loop::Gate;
use std::alloc::{AllocError, Global};
use std::sync::Wait;
use unit_carrier::Agents;
use worker_signals::{Signals, Stand};

/// What a round came to.
#[derive(Clone, Copy)]
pub(crate) enum Round {
    /// No unit has an event left, and no line is left or the run is halted.
    Over,
    /// An event was put.
    Moved,
    /// No unit can go on.
    Stayed,
    /// No unit is left, and no line may begin yet.
    Ahead,
}

/// Each unit goes on as far as it can; where none is left, the next line begins, unless what is written is too far behind.
fn go_round<A: Access, L: Lines, G: Gate>(
    alloc: Global,
    checked: &Checked,
    lines: &mut L,
    before: u64,
    access: &mut A,
    agents: &mut Agents,
    gate: &G,
    signals: &Signals,
    stand: &mut Stand,
) -> Result<Round, AllocError>
    requires fit { A.is_fit access.old }
    requires before { before ≤ (ends (A.sight access.old).first).units.lines }
    requires crew { IsCrew (program_tree checked.now) (A.sight access.old) agents.old.list.items }
    ensures kept { StaysFit (A.is_fit access.new) (A.aside access.old) (A.aside access.new) }
    ensures same { L.lines lines.new ≡ L.lines lines.old }
    ensures works { WorksOn (IsBasisOf (program_tree checked.now) before (L.lines lines.old)) (A.sight access.old) (A.sight access.new) }
    ensures crew { IfOk result (λ _. IsCrew (program_tree checked.now) (A.sight access.new) agents.new.list.items) }
    ensures over { IfOk result (λ round. IsOverAt (before + length (L.lines lines.old)) (A.sight access.new) round) }
{
    let halted = is_halted(access)?;
    let moved = go_on(alloc, checked, access, agents, gate, signals, stand, halted)?;
    drop_freed(agents);
    if halted {
        if freeing_in(agents) == 0 {
            return Ok(Round::Over);
        }
    } else if agents.list.is_empty() {
        signals.end_line(stand);
        if !signals.may_begin(stand) {
            return Ok(Round::Ahead);
        }
        if begin_next(
            alloc, checked, lines, before, access, agents, gate, signals, stand,
        )? {
            return Ok(Round::Moved);
        }
        return Ok(Round::Over);
    }
    if moved {
        return Ok(Round::Moved);
    }
    Ok(Round::Stayed)
}

/// Goes round until it is over. A round in which no unit can go on waits for others' moves, and one that is ahead for what is
/// written.
fn go_rounds<A: Access, L: Lines, G: Gate, R: Wait>(
    rt: &R,
    alloc: Global,
    checked: &Checked,
    lines: &mut L,
    before: u64,
    access: &mut A,
    gate: &G,
    signals: &Signals,
    stand: &mut Stand,
) -> Result<(), AllocError>
    requires fit { A.is_fit access.old }
    requires before { before ≤ (ends (A.sight access.old).first).units.lines }
    requires crew { IsCrew (program_tree checked.now) (A.sight access.old) [] }
    ensures kept { StaysFit (A.is_fit access.new) (A.aside access.old) (A.aside access.new) }
    ensures same { L.lines lines.new ≡ L.lines lines.old }
    ensures works { WorksOn (IsBasisOf (program_tree checked.now) before (L.lines lines.old)) (A.sight access.old) (A.sight access.new) }
    ensures shown { IfOk result (λ _. Showed IsHalted (A.sight access.new) ⊎ Showed (IsPastLine (before + length (L.lines lines.old))) (A.sight access.new)) }
    ensures through { IfOk result (λ _. AreThrough (A.sight access.new)) }
{
    let mut agents = Agents::new(alloc);
    for _ in rt.forever() {
        let seen = signals.seen();
        let room = signals.room();
        match go_round(
            alloc,
            checked,
            lines,
            before,
            access,
            &mut agents,
            gate,
            signals,
            stand,
        )? {
            Round::Over => return Ok(()),
            Round::Moved => {}
            Round::Stayed => signals.wait(rt, seen, stand),
            Round::Ahead => signals.keep_back(rt, room, stand),
        }
    }
    unreachable!()
}

/// Waits until a stop or a doubt is seen. It takes no memory.
fn wait_for_stop<A: Access, R: Wait>(rt: &R, access: &mut A, signals: &Signals, stand: &mut Stand)
    requires fit { A.is_fit access.old }
    ensures kept { StaysFit (A.is_fit access.new) (A.aside access.old) (A.aside access.new) }
    ensures legal { IsHistory (A.sight access.new) }
    ensures looked { Looks A.may_come (A.sight access.old) (A.sight access.new) }
    ensures halted { IsHalted (run_seen (A.sight access.new)) }
{
    for _ in rt.forever() {
        let seen = signals.seen();
        match is_halted(access) {
            Ok(true) => return,
            Ok(false) => signals.wait(rt, seen, stand),
            Err(AllocError) => unreachable!(),
        }
    }
    unreachable!()
}

/// Carries lines of a run, one at a time and with all units that it begins, until no line is left, or it is seen that the run
/// halts, and no unit that began here has an event left. Others may carry lines too, by accesses of their own: each takes the
/// next one that is left, behind the `before` that the run has from earlier.
///
/// Where each unit waits for a lock or a child, or too many lines have begun that aren't written, it waits by the signals; by
/// these it tells others when a unit has gone on. The places of the gate are reached behind the calls that came to them.
///
/// # Errors
///
/// Want of memory alone. The signals are told of it, by which the one who settles puts a stop; the answer comes once a stop or a
/// doubt is seen. What was put by then stands.
pub fn carry_lines<A: Access, L: Lines, G: Gate, R: Wait>(
    rt: &R,
    alloc: Global,
    checked: &Checked,
    lines: &mut L,
    before: u64,
    access: &mut A,
    gate: &G,
    signals: &Signals,
) -> Result<(), AllocError>
    requires fit { A.is_fit access.old }
    requires above { 0 < (A.sight access.old).first.base }
    requires before { before ≤ (ends (A.sight access.old).first).units.lines }
    requires fresh { (A.sight access.old).mine ≡ [] }
    ensures kept { StaysFit (A.is_fit access.new) (A.aside access.old) (A.aside access.new) }
    ensures same { L.lines lines.new ≡ L.lines lines.old }

    // More was seen, of one history.
    ensures first { (A.sight access.new).first ≡ (A.sight access.old).first }
    ensures number { (A.sight access.new).number ≡ (A.sight access.old).number }
    ensures seen { StartsWith (A.sight access.new).seen (A.sight access.old).seen }
    ensures legal { IsHistory (A.sight access.new) }

    // What was put, where memory was wanting too.
    ensures counts { Counts (A.sight access.new) }
    ensures works { OnlyWorks (A.sight access.new).mine }
    ensures promise { (b : Basis) → IsBasisOf (program_tree checked.now) before (L.lines lines.old) b → KeepsPromise b (A.sight access.new) }

    // How it ended.
    ensures shown { IfOk result (λ _. Showed IsHalted (A.sight access.new) ⊎ Showed (IsPastLine (before + length (L.lines lines.old))) (A.sight access.new)) }
    ensures through { IfOk result (λ _. AreThrough (A.sight access.new)) }
    ensures halted { OnErr result (Showed IsHalted (A.sight access.new)) }
{
    let mut stand = Stand::new();
    match go_rounds(
        rt, alloc, checked, lines, before, access, gate, signals, &mut stand,
    ) {
        Ok(()) => {
            signals.leave(&mut stand);
            is_halted(access)?;
            Ok(())
        }
        Err(fault) => {
            signals.leave(&mut stand);
            signals.fail();
            wait_for_stop(rt, access, signals, &mut stand);
            Err(fault)
        }
    }
}
