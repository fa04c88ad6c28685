ghost use Rattle.std.specs.Prelude.{◌≡◌, ◌+◌, ◌≤◌, false, IfOk, length};
ghost use Rattle.core_model.specs.LegalRuns.{ends};
ghost use Rattle.core_access.specs.FitAccess.{StaysFit};
ghost use Rattle.core_access.specs.Sights.{run_seen};
ghost use Rattle.script_tree.specs.Programs.{program_tree};
ghost use Rattle.unit_crew.specs.Crews.{IsBasisOf, IsCrew, WorksOn};
ghost use Rattle.unit_crew.specs.FinishedUnits.{IsPastLine};

use crate::looks::next_line;
use core_access::Access;
use run_lines::Lines;
use script_check::Checked;
use settle_loop::{Gate, GatePlace};
use std::alloc::{AllocError, Global};
use unit_carrier::{Agents, start_line};
use worker_signals::{Signals, Stand};

/// Begins the next line of the run, where one is left; a unit that begins is carried. Answers whether a line was left. Where
/// another took it first, its event doesn't apply.
pub(crate) fn begin_next<A: Access, L: Lines, G: Gate>(
    alloc: Global,
    checked: &Checked,
    lines: &mut L,
    before: u64,
    access: &mut A,
    agents: &mut Agents,
    gate: &G,
    signals: &Signals,
    stand: &mut Stand,
) -> Result<bool, AllocError>
    requires fit { A.is_fit access.old }
    requires before { before ≤ (ends (A.sight access.old).first).units.lines }
    requires crew { IsCrew (program_tree checked.now) (A.sight access.old) agents.old.list.items }
    ensures kept { StaysFit (A.is_fit access.new) (A.aside access.old) (A.aside access.new) }
    ensures same { L.lines lines.new ≡ L.lines lines.old }
    ensures works { WorksOn (IsBasisOf (program_tree checked.now) before (L.lines lines.old)) (A.sight access.old) (A.sight access.new) }
    ensures crew { IfOk result (λ _. IsCrew (program_tree checked.now) (A.sight access.new) agents.new.list.items) }
    ensures past { IfOk result (λ left. left ≡ false → IsPastLine (before + length (L.lines lines.old)) (run_seen (A.sight access.new))) }
    ensures none { IfOk result (λ left. left ≡ false → agents.new.list.items ≡ agents.old.list.items) }
{
    let next = next_line(access)?;
    signals.come_to(next);
    let place = next.saturating_sub(1).saturating_sub(before);
    match lines.line_at(alloc, place as usize)? {
        None => Ok(false),
        Some(line) => {
            let began = start_line(alloc, checked, access, agents, &line)?;
            drop(line);
            match began {
                None => Ok(true),
                Some(unit) => {
                    signals.carry(stand, next);
                    gate.reach(GatePlace::Begun { unit });
                    Ok(true)
                }
            }
        }
    }
}
