ghost use Rattle.std.specs.Prelude.{◌≡◌, ◌+◌, ◌%◌, ◌^◌, ◌≤ℤ◌, pos, neg_ℤ, string_bytes, IfOk, OnOk};
ghost use Rattle.two_silos.specs.World.{balance_in};
ghost use Rattle.two_silos.specs.GeneratedEvents.{account, times, pass, nudge_all, finish, checked};
ghost use Rattle.two_silos.specs.Summaries.{or_zero, sum_from, waiting, summary_of, line_of};

use crate::course::Course;
use crate::draws::account;
use crate::events::WorldEvent;
use crate::world::World;
use std::alloc::{AllocError, Global};

/// What a check sums up.
#[derive(Clone, Copy, Debug, PartialEq, Eq)]
pub struct Summary {
    /// The starts that are neither committed nor pending.
    pub aborted: u64,
    /// The coordinator's commits.
    pub committed: u64,
    /// The starts.
    pub requests: u64,
    /// The sum of all balances.
    pub total: i128,
    /// The pending transactions, and at each participant the prepared ones that it doesn't know to be decided.
    pub undecided: u128,
}

impl Summary {
    /// The line that tells it, with its line feed.
    pub fn line(&self, alloc: Global) -> Result<String, AllocError>
        ensures { IfOk result (λ text. string_bytes text ≡ line_of self.now) }
    {
        let Summary {
            aborted,
            committed,
            requests,
            total,
            undecided,
        } = *self;
        format!(in alloc;
            "{{\"aborted\":{aborted},\"committed\":{committed},\"requests\":{requests},\"total\":{total},\"undecided\":{undecided}}}\n"
        )
    }
}

/// Runs a coordinator and two participants with 64 accounts through so many generated starts, each with eight events
/// after it, then nudges all and delivers what is sent in four passes. Makes no file call and reads nothing. Where nothing is
/// undecided at the end, the sum of all balances is the opening's, 64000.
pub fn check(starts: u32, seed: u64, alloc: Global) -> Result<Summary, AllocError>
    ensures money { IfOk result (λ summary. summary.undecided ≡ 0 → summary.total ≡ pos 64000) }
    ensures summary { IfOk result (λ summary. summary ≡ summary_of starts (checked starts seed)) }
{
    let mut course = Course::new(seed, alloc)?;
    for _ in 0..starts {
        course.round(alloc)?;
    }
    finish(&mut course.world)?;
    Ok(summary_of(starts, &course.world))
}

// All are nudged, and what is sent is delivered in four passes.
fn finish(world: &mut World) -> Result<(), AllocError>
    ensures { OnOk result (world.new ≡ finish world.old) }
{
    let mut from = world.packets();
    nudge_all(world)?;
    for _ in 0..4u32 {
        from = pass(world, from)?;
    }
    Ok(())
}

// All are nudged.
fn nudge_all(world: &mut World) -> Result<(), AllocError>
    ensures { OnOk result (world.new ≡ nudge_all world.old) }
{
    world.step(WorldEvent::NudgeCoordinator)?;
    world.step(WorldEvent::Nudge { node: 0 })?;
    world.step(WorldEvent::Nudge { node: 1 })?;
    Ok(())
}

// Delivers the packets from a number on that were sent by now, and answers the number of the next one.
fn pass(world: &mut World, from: u64) -> Result<u64, AllocError>
    ensures { IfOk result (λ next. (next, world.new) ≡ pass (from, world.old)) }
{
    let sent = world.packets();
    for at in from..sent {
        world.step(WorldEvent::Deliver { packet: at as u32 })?;
    }
    Ok(sent)
}

// The summary of a world.
fn summary_of(starts: u32, world: &World) -> Summary
    ensures { result ≡ summary_of starts world.now }
{
    let committed = world.commits().len() as u64;
    let pending = world.pending();
    let requests = starts as u64;
    Summary {
        aborted: requests.saturating_sub(committed).saturating_sub(pending),
        committed,
        requests,
        total: total(world),
        undecided: pending as u128 + (world.waiting(0) as u128 + world.waiting(1) as u128),
    }
}

// The sum of the balances of accounts 0 to 63.
fn total(world: &World) -> i128
    ensures { result ≡ sum_from world.now 0 64 }
{
    let mut sum = 0;
    for key in 0..64u32 {
        sum += balance(world, key);
    }
    sum
}

// An account's balance, 0 where it isn't there.
fn balance(world: &World, key: u32) -> i128
    ensures low { neg_ℤ (pos (2 ^ 63)) ≤ℤ result }
    ensures high { result ≤ℤ pos (2 ^ 63) }
    ensures value { result ≡ or_zero (balance_in world.now.nodes (key % 2) (account key)) }
{
    match world.balance((key % 2) as u8, account(key)) {
        Some(balance) => balance as i128,
        None => 0,
    }
}
