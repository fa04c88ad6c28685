// What a worker does with its pass.
ghost use Rattle.std.specs.Prelude.{◌≡◌};
ghost use Rattle.script_tree.specs.Programs.{program_tree};
ghost use Rattle.silo_workers.specs.WorkerPasses.{BringsBack, IsFreshPass, both_ends};

use crate::reach::Reach;
use core_model::{CoreAnswer, CoreQuestion};
use history_core::Core;
use run_lines::Lines;
use script_check::Checked;
use settle_loop::Gate;
use std::alloc::{AllocError, Global};
use std::marker::PhantomData;
use std::sync::Wait;
use std::sync::atomic::{AtomicBool, Ordering};
use turn_cell::{Pass, TurnCell, TurnObject};
use unit_crew::carry_lines;
use worker_signals::Signals;

/// How work ended, of one worker or of several.
#[derive(Clone, Copy, Debug, PartialEq, Eq)]
pub enum WorkEnd {
    /// Nothing was put.
    Idle,
    /// No unit that began has an event left, and no line is left, or the run halts.
    Through,
    /// Memory ran out.
    Lacking,
}

/// Two workers' ends as one.
pub(crate) fn both(one: WorkEnd, other: WorkEnd) -> WorkEnd
    ensures { result ≡ both_ends one other }
{
    match one {
        WorkEnd::Idle => other,
        WorkEnd::Lacking => WorkEnd::Lacking,
        WorkEnd::Through => match other {
            WorkEnd::Idle => WorkEnd::Through,
            WorkEnd::Through => WorkEnd::Through,
            WorkEnd::Lacking => WorkEnd::Lacking,
        },
    }
}

/// Carries lines by a pass of the cell, which comes back however that ended: those that are left behind the `before` that the run
/// has from earlier, one at a time, with all units that they begin (`carry_lines` of `unit_crew`).
pub fn carry<R: Wait, L: Lines + Copy, G: Gate>(
    rt: &R,
    alloc: Global,
    checked: &Checked,
    lines: L,
    before: u64,
    cell: &TurnCell<Core>,
    pass: Pass<Core>,
    gate: &G,
    signals: &Signals,
) -> (Pass<Core>, WorkEnd)
    requires fresh { IsFreshPass cell.now before pass }
    ensures back { BringsBack (program_tree checked.now) before (L.lines lines) result.1 pass result.0 }
{
    let _named: PhantomData<(CoreQuestion, CoreAnswer)> = PhantomData;
    let mut lines = lines;
    let mut reach = Reach { rt, cell, pass };
    let carried = carry_lines(
        rt, alloc, checked, &mut lines, before, &mut reach, gate, signals,
    );
    let Reach {
        rt: _rt,
        cell: _cell,
        pass,
    } = reach;
    match carried {
        Ok(()) => (pass, WorkEnd::Through),
        Err(AllocError) => (pass, WorkEnd::Lacking),
    }
}

/// A worker's work: it carries lines, unless its thread could not be started.
pub(crate) fn work<R: Wait, L: Lines + Copy, G: Gate>(
    rt: &R,
    alloc: Global,
    checked: &Checked,
    lines: L,
    before: u64,
    unstarted: &AtomicBool,
    cell: &TurnCell<Core>,
    pass: Pass<Core>,
    gate: &G,
    signals: &Signals,
) -> (Pass<Core>, WorkEnd)
    requires fresh { IsFreshPass cell.now before pass }
    ensures back { BringsBack (program_tree checked.now) before (L.lines lines) result.1 pass result.0 }
{
    let _named: PhantomData<(CoreQuestion, CoreAnswer)> = PhantomData;
    if unstarted.load(Ordering::SeqCst) {
        signals.end();
        return (pass, WorkEnd::Idle);
    }
    let worked = carry(rt, alloc, checked, lines, before, cell, pass, gate, signals);
    signals.end();
    worked
}
