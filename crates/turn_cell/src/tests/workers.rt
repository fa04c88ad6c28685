// Threads that call one cell, each by a pass of its own.
ghost use Rattle.std.specs.Prelude.{⊤};
ghost use Rattle.std.specs.Thread.{IsSync};
ghost use Rattle.turn_cell.specs.Passes.{IsPassOf, pass_view};
ghost use Rattle.turn_cell.specs.PassContracts.{Continues, Gathers};

use super::tally::{Add, Tally};
use crate::{Pass, TurnCell, TurnObject};
use std::snapshot::Snapshot;
use std::sync::Wait;
use std::thread;
use std::thread::{Promise, Threads, join};

// Adds 1 so many times, and says whether each reply was above the one before.
pub fn add_ones<R: Wait>(
    rt: &R,
    cell: &TurnCell<Tally>,
    mut pass: Pass<Tally>,
    times: u64,
) -> (Pass<Tally>, bool)
    requires { IsPassOf cell.now pass }
    ensures own { IsPassOf cell.now result.0 }
    ensures carried { Continues (λ _. ⊤) (pass_view pass) (pass_view result.0) }
{
    let mut last = 0;
    for _ in 0..times {
        match cell.put(rt, &mut pass, Add(1)) {
            Ok(reply) if reply > last => last = reply,
            _ => return (pass, false),
        }
    }
    (pass, true)
}

// So many threads add, the calling one among them, and their passes come back into its own.
pub fn crowd<R: Threads + Wait + Sync>(
    rt: &R,
    cell: &TurnCell<Tally>,
    pass: Pass<Tally>,
    times: u64,
    threads: u32,
) -> (Pass<Tally>, bool)
    requires { IsPassOf cell.now pass }
    ensures own { IsPassOf cell.now result.0 }
    ensures carried { Gathers (λ _. ⊤) (pass_view pass) (pass_view result.0) }
{
    if threads <= 1 {
        return add_ones(rt, cell, pass, times);
    }
    let fewer = threads - 1;
    let (pass, other) = cell.split(pass);
    let (other, mine) = join(
        rt,
        move || -> (Pass<Tally>, bool)
            requires { IsPassOf cell.now other }
            ensures own { IsPassOf cell.entry.now result.0 }
            ensures carried { Continues (λ _. ⊤) (pass_view other) (pass_view result.0) }
        { add_ones(rt, cell, other, times) },
        move || -> (Pass<Tally>, bool)
            requires { IsSync R.row × IsPassOf cell.now pass }
            ensures own { IsPassOf cell.entry.now result.0 }
            ensures carried { Gathers (λ _. ⊤) (pass_view pass) (pass_view result.0) }
        { crowd(rt, cell, pass, times, fewer) },
    );
    (cell.join(mine.0, other.0), mine.1 && other.1)
}

// The pass that a thread took comes back.
#[derive(Drop)]
pub struct ComesBack {
    was: Snapshot<Pass<Tally>>,
}

impl Promise<(Pass<Tally>, bool)> for ComesBack {
    ghost kept_by = { λ p r. IsPassOf p.was.value.table_id r.0 × Continues (λ _. ⊤) (pass_view p.was.value) (pass_view r.0) };
}

// A thread adds beside the calling one. Where none can be started, its closure comes back and is called here.
pub fn beside<R: Threads + Wait + Sync>(
    rt: &R,
    cell: &TurnCell<Tally>,
    pass: Pass<Tally>,
    other: Pass<Tally>,
    times: u64,
) -> (Pass<Tally>, Pass<Tally>, bool)
    requires { IsPassOf cell.now pass × IsPassOf cell.now other }
    ensures own { IsPassOf cell.now result.0 × IsPassOf cell.now result.1 }
    ensures carried { Continues (λ _. ⊤) (pass_view pass) (pass_view result.0) × Continues (λ _. ⊤) (pass_view other) (pass_view result.1) }
{
    thread::scope(
        thread::scope_env(),
        rt,
        move |scope| -> (Pass<Tally>, Pass<Tally>, bool)
            requires { IsPassOf cell.now pass × IsPassOf cell.now other }
            ensures own { IsPassOf cell.entry.now result.0 × IsPassOf cell.entry.now result.1 }
            ensures carried { Continues (λ _. ⊤) (pass_view pass) (pass_view result.0) × Continues (λ _. ⊤) (pass_view other) (pass_view result.1) }
        {
            let promise = ComesBack {
                was: Snapshot::of(&other),
            };
            let job = move || -> (Pass<Tally>, bool)
                requires { IsPassOf cell.now other }
                ensures own { IsPassOf cell.entry.now result.0 }
                ensures carried { Continues (λ _. ⊤) (pass_view other) (pass_view result.0) }
            { add_ones(rt, cell, other, times) };
            match scope.spawn_with(promise, job) {
                Ok(handle) => {
                    let (pass, rose) = add_ones(rt, cell, pass, times);
                    let (other, other_rose) = handle.join(rt);
                    (pass, other, rose && other_rose)
                }
                Err(refused) => {
                    let (other, other_rose) = (refused.value)();
                    let (pass, rose) = add_ones(rt, cell, pass, times);
                    (pass, other, rose && other_rose)
                }
            }
        },
    )
}

fn may_share<C: Sync>(_cell: &C) {}

fn may_move<P: Send>(_pass: &P) {}

// Any cell may be shared, and its passes may move, where the object may move.
pub fn may_cross<T: TurnObject + Send>(cell: &TurnCell<T>, pass: &Pass<T>) {
    may_share(cell);
    may_move(cell);
    may_move(pass);
}
