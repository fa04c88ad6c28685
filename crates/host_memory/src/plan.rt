// Which calls are to fail, and the clock that counts all calls.
ghost use Rattle.std.specs.Prelude.{◌≡◌, ◌+◌, ◌-◌, ◌*◌, ◌^◌, ◌≤◌, ◌==◌, ◌||◌, [], ◌∷◌, ◌++◌, ℕ, List, map, min, if◌then◌else◌, OnOk, OnErr};
ghost use Rattle.std.specs.List.{list_any};
ghost use Rattle.host_trait.specs.World.{Asked};
ghost use Rattle.host_memory.specs.Plans.{same_kind, same_channel, is_of, is_due, counted};
ghost use Rattle.host_memory.specs.declared.plan.Turn.{Turn};

use crate::files::is_same;
use host_trait::Channel;
use std::alloc::{AllocError, Global};

/// What a host is asked for. [`ready`](host_trait::Host::ready) is none of these.
#[derive(Clone, Copy, Debug, PartialEq, Eq)]
pub enum CallKind {
    Pull,
    Emit,
    Length,
    Read,
    Write,
    Sync,
}

// A call that is to fail: the one of this kind on this channel that comes after so many others, counted from 1.
#[derive(Drop)]
pub struct Planned {
    pub what: CallKind,
    pub channel: Channel,
    pub left: u64,
}

// How a call goes: as it should, or it fails as planned, or it fails and changes nothing, since the host has stopped.
#[derive(Clone, Copy, Debug, PartialEq, Eq)]
pub enum Turn {
    Goes,
    Fails,
    Stopped,
}

/// How many calls were made and may still be made, and which of them are to fail.
#[derive(Drop)]
pub struct Plan {
    pub calls: u64,
    pub left: u64,
    // The call of any kind that is to fail comes as this one from now, counted from 1; 0 where none is to.
    pub ahead: u64,
    pub faults: Vec<Planned>,
    ghost in_time: { calls + left ≤ 2 ^ 62 },
}

// The number of calls at which a host stops by itself.
pub const LAST_CALL: u64 = 1 << 62;

fn is_same_kind(a: CallKind, b: CallKind) -> bool
    ensures { result ≡ same_kind a b }
{
    match (a, b) {
        (CallKind::Pull, CallKind::Pull) => true,
        (CallKind::Emit, CallKind::Emit) => true,
        (CallKind::Length, CallKind::Length) => true,
        (CallKind::Read, CallKind::Read) => true,
        (CallKind::Write, CallKind::Write) => true,
        (CallKind::Sync, CallKind::Sync) => true,
        _ => false,
    }
}

fn is_same_channel(a: Channel, b: Channel) -> bool
    ensures { result ≡ same_channel a b }
{
    match (a, b) {
        (Channel::Input, Channel::Input) => true,
        (Channel::Output, Channel::Output) => true,
        (Channel::File(a), Channel::File(b)) => is_same(a, b),
        _ => false,
    }
}

// Counts one call towards the one that is to fail, and answers whether it is that.
fn count_one(left: &mut u64) -> bool
    ensures due { result ≡ (left.old == 1) }
    ensures after { left.new ≡ left.old - 1 }
{
    let before = *left;
    *left = before.saturating_sub(1);
    before == 1
}

impl Planned {
    fn is_of(&self, what: CallKind, channel: Channel) -> bool
        ensures { result ≡ is_of what channel self.now }
    {
        is_same_kind(self.what, what) && is_same_channel(self.channel, channel)
    }

    // Counts a call, and answers whether it is the one that is to fail.
    fn count(&mut self, what: CallKind, channel: Channel) -> bool
        ensures due { result ≡ is_due what channel self.old }
        ensures after { self.new ≡ counted what channel self.old }
    {
        if !self.is_of(what, channel) {
            return false;
        }
        count_one(&mut self.left)
    }
}

// Counts one call, and answers whether it is one that is to fail.
fn count_down(faults: &mut Vec<Planned>, what: CallKind, channel: Channel) -> bool
    ensures due { result ≡ list_any (is_due what channel) faults.old.items }
    ensures after { faults.new.items ≡ map (counted what channel) faults.old.items }
{
    let mut due = false;
    for i in 0..faults.len() {
        if faults[i].count(what, channel) {
            due = true;
        }
    }
    due
}

impl Plan {
    ghost use Rattle.host_memory.specs.Plans.{CallsAfter, is_failing};
    ghost use Rattle.host_memory.specs.declared.events.Noted.{Noted};
    ghost use Rattle.host_memory.specs.Replay.{AreBy, world_of};

    /// No call was made, and none is to fail.
    pub fn new(alloc: Global) -> Plan
        ensures calls { result.calls ≡ 0 }
        ensures left { result.left ≡ 2 ^ 62 }
        ensures ahead { result.ahead ≡ 0 }
        ensures faults { result.faults.items ≡ [] }
    {
        Plan {
            calls: 0,
            left: LAST_CALL,
            ahead: 0,
            faults: Vec::new(alloc),
        }
    }

    // Sets how many calls are left before the stop.
    pub fn stop_after(&mut self, calls: u64)
        ensures calls { self.new.calls ≡ self.old.calls }
        ensures left { self.new.left ≡ min calls (2 ^ 62 - self.old.calls) }
        ensures ahead { self.new.ahead ≡ self.old.ahead }
        ensures faults { self.new.faults ≡ self.old.faults }
    {
        self.left = calls.min(LAST_CALL - self.calls);
    }

    // Sets which call of any kind is to fail.
    pub fn fail_call(&mut self, nth: u64)
        ensures calls { self.new.calls ≡ self.old.calls }
        ensures left { self.new.left ≡ self.old.left }
        ensures ahead { self.new.ahead ≡ nth }
        ensures faults { self.new.faults ≡ self.old.faults }
    {
        self.ahead = nth;
    }

    // Adds a call that is to fail. Without memory all stays as it was.
    pub fn fail_on(&mut self, what: CallKind, channel: Channel, nth: u64) -> Result<(), AllocError>
        ensures calls { self.new.calls ≡ self.old.calls }
        ensures left { self.new.left ≡ self.old.left }
        ensures ahead { self.new.ahead ≡ self.old.ahead }
        ensures ok { OnOk result (self.new.faults.items ≡ self.old.faults.items ++ (record { what = what; channel = channel; left = nth }) ∷ []) }
        ensures err { OnErr result (self.new.faults.items ≡ self.old.faults.items) }
    {
        self.faults.push(Planned {
            what,
            channel,
            left: nth,
        })?;
        Ok(())
    }

    // Counts one call, and answers how it goes. After the stop nothing is counted.
    pub fn turn(&mut self, what: CallKind, channel: Channel) -> Turn
        ensures ticks { CallsAfter result self.old.calls self.new.calls }
        ensures named { result ≡ (if self.old.left == 0 then Turn.Stopped else
            (if (self.old.ahead == 1) || list_any (is_due what channel) self.old.faults.items then Turn.Fails else Turn.Goes)) }
        ensures fails { is_failing result ≡ ((self.old.left == 0) || ((self.old.ahead == 1) || list_any (is_due what channel) self.old.faults.items)) }
        ensures count { self.new.calls ≡ (if self.old.left == 0 then self.old.calls else self.old.calls + 1) }
        ensures left { self.new.left ≡ self.old.left - 1 }
        ensures ahead { self.new.ahead ≡ (if self.old.left == 0 then self.old.ahead else self.old.ahead - 1) }
        ensures faults { self.new.faults.items ≡ (if self.old.left == 0 then self.old.faults.items else map (counted what channel) self.old.faults.items) }
        ensures clock { (events : List Noted) → AreBy (2 * self.old.calls + 1) events → AreBy (2 * self.new.calls + 1) events }
        ensures told { (input : List ℕ) (events : List Noted) → AreBy (2 * self.old.calls + 1) events
            → Asked (world_of input events self.old.calls) (world_of input events self.new.calls) }
    {
        if self.left == 0 {
            return Turn::Stopped;
        }
        self.left -= 1;
        self.calls += 1;
        let is_next = count_one(&mut self.ahead);
        let is_due = count_down(&mut self.faults, what, channel);
        if is_next || is_due {
            return Turn::Fails;
        }
        Turn::Goes
    }
}
