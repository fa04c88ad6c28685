// The threads.
ghost use Rattle.std.specs.Thread.{IsSync};
ghost use Rattle.std.specs.Prelude.{◌≡◌, ◌+◌, ◌≤◌, [], false, length};
ghost use Rattle.core_access.specs.PassSights.{sight_of};
ghost use Rattle.history_core.specs.Cores.{run_of};
ghost use Rattle.script_tree.specs.Programs.{program_tree};
ghost use Rattle.turn_cell.specs.Hands.{first_hand};
ghost use Rattle.turn_cell.specs.Passes.{pass_view, view};
ghost use Rattle.unit_crew.specs.Crews.{IsBasisOf};
ghost use Rattle.worker_rules.specs.JoinedPasses.{sight_by};
ghost use Rattle.silo_workers.specs.SettlerThread.{HasSettled};
ghost use Rattle.silo_workers.specs.WorkerPasses.{HasWorked, IsFreshPass, BringsBack, BringsTogether, IsGathered, both_ends};
ghost use Rattle.run_books.specs.Stages.{side_of, IsSafe, StaysSafe};

use crate::settler_thread::settle_by_pass;
use crate::team::Team;
use crate::work::{WorkEnd, both, work};
use base_types::Shape;
use core_model::{CoreAnswer, CoreQuestion};
use history_core::Core;
use host_trait::Host;
use run_books::RunFault;
use run_lines::Lines;
use script_check::Checked;
use settle_loop::{Gate, Settler};
use std::marker::PhantomData;
use std::mem::replace;
use std::snapshot::Snapshot;
use std::sync::Wait;
use std::sync::atomic::{AtomicBool, Ordering};
use std::thread;
use std::thread::{Promise, Scope, Threads};
use turn_cell::{Pass, TurnObject};

/// How the threads ended: whether one was started, how the work ended, and how settling did.
#[derive(Drop)]
pub(crate) struct Gathered {
    pub(crate) started: bool,
    pub(crate) end: WorkEnd,
    pub(crate) settled: Result<(), RunFault>,
}

impl Gathered {
    // With one worker's end more.
    fn and(self, end: WorkEnd) -> Gathered
        ensures { result ≡ record self { end = both_ends end self.end } }
    {
        Gathered {
            started: self.started,
            end: both(end, self.end),
            settled: self.settled,
        }
    }
}

// The pass that a worker took comes back, with what is known of it.
#[derive(Drop)]
pub(crate) struct ComesBack<'a, L> {
    checked: &'a Checked,
    lines: &'a L,
    before: u64,
    was: Snapshot<Pass<Core>>,
}

impl<'a, L: Lines> Promise<(Pass<Core>, WorkEnd)> for ComesBack<'a, L> {
    ghost kept_by = { λ p r. BringsBack (program_tree p.checked.now) p.before (L.lines p.lines.now) r.1 p.was.value r.0 };
}

// The calling thread settles where a worker was started; where none was, there is nothing to settle.
fn settle_for<R: Wait, H: Host, G: Gate, L: Lines>(
    team: &Team<R, G, L>,
    pass: Pass<Core>,
    shape: &Shape,
    settler: &mut Settler,
    host: &mut H,
    started: bool,
) -> (Pass<Core>, Gathered)
    requires fresh { IsFreshPass team.now.cell team.now.before pass }
    requires safe { IsSafe H.tells settler.old.writer (H.world host.old) }
    ensures together { BringsTogether team.now.cell
        (HasSettled result.1.started H.tells shape.now (side_of H.world H.faults settler.old host.old)
        (side_of H.world H.faults settler.new host.new) result.1.settled (sight_of run_of (pass_view pass)))
        (program_tree team.now.checked.now) team.now.before (L.lines team.now.lines.now) result.1.end pass result.0 }
    ensures none { result.1.started ≡ false → (settler.new ≡ settler.old) × (host.new ≡ host.old) }
    ensures safe { StaysSafe H.tells H.is_ready H.world settler.new.writer host.old host.new }
{
    let _named: PhantomData<(CoreQuestion, CoreAnswer)> = PhantomData;
    if !started {
        let gathered = Gathered {
            started,
            end: WorkEnd::Idle,
            settled: Ok(()),
        };
        return (pass, gathered);
    }
    let (pass, settled) = settle_by_pass(team, pass, shape, settler, host);
    let gathered = Gathered {
        started,
        end: WorkEnd::Idle,
        settled,
    };
    (pass, gathered)
}

// A worker carries for each of the flags, and the calling thread settles, where one was started. Their passes come back into its
// own. A worker whose thread could not be started finds its flag set, and gives its pass back at once.
fn crowd<'s, E, R: Threads + Wait + Sync, H: Host, G: Gate + Sync, L: Lines + Copy + Sync>(
    scope: &Scope<'s, E>,
    team: &'s Team<'s, R, G, L>,
    flags: &'s [AtomicBool],
    pass: Pass<Core>,
    shape: &Shape,
    settler: &mut Settler,
    host: &mut H,
    started: bool,
) -> (Pass<Core>, Gathered)
    requires shared { IsSync R.row × IsSync G.row × IsSync L.row }
    requires fresh { IsFreshPass team.now.cell team.now.before pass }
    requires safe { IsSafe H.tells settler.old.writer (H.world host.old) }
    ensures together { BringsTogether team.now.cell
        (HasSettled result.1.started H.tells shape.now (side_of H.world H.faults settler.old host.old)
        (side_of H.world H.faults settler.new host.new) result.1.settled (sight_of run_of (pass_view pass)))
        (program_tree team.now.checked.now) team.now.before (L.lines team.now.lines.now) result.1.end pass result.0 }
    ensures none { result.1.started ≡ false → (settler.new ≡ settler.old) × (host.new ≡ host.old) }
    ensures safe { StaysSafe H.tells H.is_ready H.world settler.new.writer host.old host.new }
{
    let named: PhantomData<(CoreQuestion, CoreAnswer)> = PhantomData;
    let Some((flag, rest)) = flags.split_first() else {
        return settle_for(team, pass, shape, settler, host, started);
    };
    let (rt, alloc, checked, lines) = (team.rt, team.alloc, team.checked, team.lines);
    let (before, cell, gate, signals) = (team.before, &team.cell, team.gate, &team.signals);
    let (pass, other) = cell.split(pass);
    let promise = ComesBack {
        checked,
        lines,
        before,
        was: Snapshot::of(&other),
    };
    signals.begin();
    let job = move || -> (Pass<Core>, WorkEnd)
        requires { IsFreshPass cell.now before other }
        ensures { BringsBack (program_tree checked.entry.now) before (L.lines lines.entry.now) result.1 other result.0 }
    {
        let _named = named;
        work(
            rt, alloc, checked, *lines, before, flag, cell, other, gate, signals,
        )
    };
    match scope.spawn_with(promise, job) {
        Ok(handle) => {
            let (pass, gathered) = crowd(scope, team, rest, pass, shape, settler, host, true);
            let (other, end) = handle.join(rt);
            (cell.join(pass, other), gathered.and(end))
        }
        Err(refused) => {
            flag.store(true, Ordering::SeqCst);
            let (other, end) = (refused.value)();
            let (pass, gathered) = crowd(scope, team, rest, pass, shape, settler, host, started);
            (cell.join(pass, other), gathered.and(end))
        }
    }
}

// As `crowd`, in a scope of its own.
fn in_scope<R: Threads + Wait + Sync, H: Host, G: Gate + Sync, L: Lines + Copy + Sync>(
    team: &Team<R, G, L>,
    flags: &[AtomicBool],
    pass: Pass<Core>,
    shape: &Shape,
    settler: Settler,
    host: &mut H,
) -> (Pass<Core>, Gathered, Settler)
    requires fresh { IsFreshPass team.now.cell team.now.before pass }
    requires safe { IsSafe H.tells settler.writer (H.world host.old) }
    ensures together { BringsTogether team.now.cell
        (HasSettled result.1.started H.tells shape.now (side_of H.world H.faults settler host.old)
        (side_of H.world H.faults result.2 host.new) result.1.settled (sight_of run_of (pass_view pass)))
        (program_tree team.now.checked.now) team.now.before (L.lines team.now.lines.now) result.1.end pass result.0 }
    ensures none { result.1.started ≡ false → (result.2 ≡ settler) × (host.new ≡ host.old) }
    ensures safe { StaysSafe H.tells H.is_ready H.world result.2.writer host.old host.new }
{
    let named: PhantomData<(CoreQuestion, CoreAnswer)> = PhantomData;
    let (pass, gathered, settler, _host) = thread::scope(
        thread::scope_env(),
        team.rt,
        move |scope| -> (Pass<Core>, Gathered, Settler, &mut H)
            requires shared { IsSync R.row × IsSync G.row × IsSync L.row }
            requires fresh { IsFreshPass team.now.cell team.now.before pass }
            requires safe { IsSafe H.tells settler.writer (H.world host.now) }
            ensures together { BringsTogether team.entry.now.cell
                (HasSettled result.1.started H.tells shape.entry.now (side_of H.world H.faults settler host.entry.now)
                (side_of H.world H.faults result.2 result.3.now) result.1.settled (sight_of run_of (pass_view pass)))
                (program_tree team.entry.now.checked.now) team.entry.now.before (L.lines team.entry.now.lines.now) result.1.end pass result.0 }
            ensures none { result.1.started ≡ false → (result.2 ≡ settler) × (result.3.now ≡ host.entry.now) }
            ensures safe { StaysSafe H.tells H.is_ready H.world result.2.writer host.entry.now result.3.now }
            ensures host { result.3.ghost_name ≡ host.entry.ghost_name }
        {
            let _named = named;
            let mut settler = settler;
            let (pass, gathered) = crowd(
                scope,
                team,
                flags,
                pass,
                shape,
                &mut settler,
                host,
                false,
            );
            (pass, gathered, settler, host)
        },
    );
    (pass, gathered, settler)
}

/// So many workers carry, 16 at most, while the calling thread settles; and the cell is closed. The blank stands in for the settler
/// meanwhile.
pub(crate) fn gather<R: Threads + Wait + Sync, H: Host, G: Gate + Sync, L: Lines + Copy + Sync>(
    team: Team<R, G, L>,
    workers: usize,
    pass: Pass<Core>,
    shape: &Shape,
    settler: &mut Settler,
    blank: Settler,
    host: &mut H,
) -> (Core, Gathered)
    requires few { workers ≤ 16 }
    requires first { pass_view pass ≡ view (pass_view pass).first [] false first_hand }
    requires fresh { IsFreshPass team.cell team.before pass }
    requires safe { IsSafe H.tells settler.old.writer (H.world host.old) }
    ensures closed { IsGathered result.1.end (team.entry.before + length (L.lines team.entry.lines.now))
        (HasSettled result.1.started H.tells shape.now (side_of H.world H.faults settler.old host.old)
        (side_of H.world H.faults settler.new host.new) result.1.settled (sight_by (run_of (pass_view pass).first) [] [] []))
        (HasWorked (IsBasisOf (program_tree team.entry.checked.now) team.entry.before (L.lines team.entry.lines.now)) result.1.end)
        (run_of (pass_view pass).first) (run_of result.0) }
    ensures none { result.1.started ≡ false → (settler.new ≡ settler.old) × (host.new ≡ host.old) }
    ensures safe { StaysSafe H.tells H.is_ready H.world settler.new.writer host.old host.new }
{
    let _named: PhantomData<(CoreQuestion, CoreAnswer)> = PhantomData;
    let all = [
        AtomicBool::new(false),
        AtomicBool::new(false),
        AtomicBool::new(false),
        AtomicBool::new(false),
        AtomicBool::new(false),
        AtomicBool::new(false),
        AtomicBool::new(false),
        AtomicBool::new(false),
        AtomicBool::new(false),
        AtomicBool::new(false),
        AtomicBool::new(false),
        AtomicBool::new(false),
        AtomicBool::new(false),
        AtomicBool::new(false),
        AtomicBool::new(false),
        AtomicBool::new(false),
    ];
    let flags = &all.as_slice()[..workers];
    let own = replace(settler, blank);
    let (pass, gathered, own) = in_scope(&team, flags, pass, shape, own, host);
    *settler = own;
    let Team {
        rt: _rt,
        alloc: _alloc,
        checked: _checked,
        lines: _lines,
        before: _before,
        cell,
        gate: _gate,
        signals: _signals,
    } = team;
    (cell.close(pass), gathered)
}
