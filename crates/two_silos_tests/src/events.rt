// Worlds of two participants, event by event, worked out by hand.
use crate::openings::{PAYMENT, TWICE, account, openings, parts};
use crate::plain_model::Move;
use silo_nodes::NodeEntry;
use std::alloc::{AllocError, Global};
use std::test::Fail;
use two_silos::{Summary, World, WorldEvent, check};

// An event of a row. `Pay` starts a payment of 3 from account 0 of participant 0 to account 1 of participant 1, and `Twice` one
// with a grain twice.
#[derive(Clone, Copy)]
enum Step {
    Pay,
    Twice,
    Deliver(u32),
    NudgeCoordinator,
    Nudge(u8),
    RestartCoordinator,
    Restart(u8),
}

use Step::{Deliver, Nudge, NudgeCoordinator, Pay, Restart, RestartCoordinator, Twice};

// Events of a world of two participants, and what is seen of it then: packets, commits, pending ones, the balances of account
// 0 of participant 0 and of account 1 of participant 1, and the logs of both in letters: 'p' prepared, 'c' done as committed,
// 'a' as aborted.
struct Row {
    name: &'static str,
    steps: &'static [Step],
    packets: u64,
    commits: usize,
    pending: u64,
    paying: i64,
    paid: i64,
    first: &'static str,
    second: &'static str,
}

const ROWS: [Row; 9] = [
    Row {
        name: "a coordinator that restarts before it decides",
        steps: &[
            Pay,
            Deliver(0),
            Deliver(1),
            Deliver(2),
            RestartCoordinator,
            Deliver(3),
            Nudge(0),
            Deliver(5),
            Deliver(4),
            Deliver(6),
            Deliver(0),
        ],
        packets: 7,
        commits: 0,
        pending: 0,
        paying: 10,
        paid: 10,
        first: "pa",
        second: "pa",
    },
    Row {
        name: "a payment, with one packet twice",
        steps: &[
            Pay,
            Deliver(0),
            Deliver(1),
            Deliver(2),
            Deliver(3),
            Deliver(4),
            Deliver(4),
            Deliver(5),
        ],
        packets: 6,
        commits: 1,
        pending: 0,
        paying: 7,
        paid: 13,
        first: "pc",
        second: "pc",
    },
    Row {
        name: "prepared at one node, restarts, a late vote, a repeated decision",
        steps: &[
            Pay,
            Deliver(0),
            RestartCoordinator,
            Restart(0),
            Deliver(2),
            Deliver(3),
            Deliver(3),
            Deliver(1),
            Deliver(4),
            Deliver(5),
            Deliver(0),
            Deliver(2),
        ],
        packets: 7,
        commits: 0,
        pending: 0,
        paying: 10,
        paid: 10,
        first: "pa",
        second: "pa",
    },
    Row {
        name: "two transactions on one grain",
        steps: &[
            Pay,
            Pay,
            Deliver(0),
            Deliver(2),
            Deliver(5),
            Deliver(6),
            Deliver(1),
            Deliver(4),
            Deliver(8),
            Deliver(9),
            Deliver(10),
            Deliver(3),
            Deliver(11),
            Deliver(12),
        ],
        packets: 13,
        commits: 1,
        pending: 0,
        paying: 7,
        paid: 13,
        first: "pc",
        second: "pcpa",
    },
    Row {
        name: "a decision before its request",
        steps: &[
            Pay,
            Pay,
            Deliver(0),
            Deliver(2),
            Deliver(5),
            Deliver(7),
            Deliver(3),
        ],
        packets: 9,
        commits: 0,
        pending: 1,
        paying: 10,
        paid: 10,
        first: "p",
        second: "p",
    },
    Row {
        name: "a nudge for the votes that are left",
        steps: &[Pay, Deliver(0), Deliver(2), NudgeCoordinator, Deliver(3)],
        packets: 5,
        commits: 0,
        pending: 1,
        paying: 10,
        paid: 10,
        first: "p",
        second: "p",
    },
    Row {
        name: "a commit is told after a restart",
        steps: &[
            Pay,
            Deliver(0),
            Deliver(1),
            Deliver(2),
            Deliver(3),
            RestartCoordinator,
            Nudge(1),
            Deliver(6),
            Deliver(7),
        ],
        packets: 8,
        commits: 1,
        pending: 0,
        paying: 10,
        paid: 13,
        first: "p",
        second: "pc",
    },
    Row {
        name: "numbers of nothing that is there",
        steps: &[
            Deliver(0),
            Pay,
            Deliver(2),
            Deliver(4294967295),
            Nudge(2),
            Nudge(255),
            Restart(255),
        ],
        packets: 2,
        commits: 0,
        pending: 1,
        paying: 10,
        paid: 10,
        first: "",
        second: "",
    },
    Row {
        name: "a grain twice in one list",
        steps: &[Twice],
        packets: 0,
        commits: 0,
        pending: 0,
        paying: 10,
        paid: 10,
        first: "",
        second: "",
    },
];

fn event(step: Step, alloc: Global) -> Result<WorldEvent, AllocError> {
    match step {
        Pay => start(&PAYMENT, alloc),
        Twice => start(&TWICE, alloc),
        Deliver(packet) => Ok(WorldEvent::Deliver { packet }),
        NudgeCoordinator => Ok(WorldEvent::NudgeCoordinator),
        Nudge(node) => Ok(WorldEvent::Nudge { node }),
        RestartCoordinator => Ok(WorldEvent::RestartCoordinator),
        Restart(node) => Ok(WorldEvent::Restart { node }),
    }
}

fn start(moves: &[Move], alloc: Global) -> Result<WorldEvent, AllocError> {
    let parts = parts(moves, 2, alloc)?;
    Ok(WorldEvent::Start { parts })
}

fn happen(world: &mut World, steps: &[Step], alloc: Global) -> Result<(), AllocError> {
    for step in steps {
        world.step(event(*step, alloc)?)?;
    }
    Ok(())
}

fn letter(entry: &NodeEntry) -> u8 {
    match entry {
        NodeEntry::Prepared { .. } => b'p',
        NodeEntry::Done { commit, .. } => { if *commit { b'c' } else { b'a' } }
    }
}

// Whether the participant is there, with a log of these letters.
fn has_log(world: &World, node: u8, letters: &[u8]) -> bool {
    let Some(log) = world.log(node) else {
        return false;
    };
    let mut at = 0usize;
    for entry in log {
        if letters.get(at).copied() != Some(letter(entry)) {
            return false;
        }
        at = at.wrapping_add(1);
    }
    at == letters.len()
}

fn is_seen(world: &World, row: &Row) -> bool {
    world.packets() == row.packets
        && world.commits().len() == row.commits
        && world.pending() == row.pending
        && world.balance(0, account(0)) == Some(row.paying)
        && world.balance(1, account(1)) == Some(row.paid)
        && has_log(world, 0, row.first.as_bytes())
        && has_log(world, 1, row.second.as_bytes())
}

// Whether there is no third participant, and no account 3.
fn has_no_more(world: &World) -> bool {
    world.log(2).is_none()
        && world.balance(2, account(0)).is_none()
        && world.balance(0, account(3)).is_none()
}

// Whether the row leads where it should.
fn leads(row: &Row, alloc: Global) -> Result<bool, AllocError> {
    let openings = openings(2, alloc)?;
    let mut world = World::new(openings, alloc)?;
    happen(&mut world, row.steps, alloc)?;
    Ok(is_seen(&world, row) && has_no_more(&world))
}

#[test]
fn lists_of_events_lead_where_they_should(rt: HostRuntime) -> Result<(), Fail> {
    for row in &ROWS {
        assert!(rt; leads(row, rt.alloc())?, "{}", row.name);
    }
    Ok(())
}

// Whether each of so many starts is committed or aborted, and the money is all there.
fn is_whole(summary: &Summary, starts: u64) -> bool {
    summary.requests == starts
        && summary.total == 64000
        && summary.undecided == 0
        && summary.aborted.checked_add(summary.committed) == Some(starts)
}

#[test]
fn checks_sum_up_as_published(rt: HostRuntime) -> Result<(), Fail> {
    let alloc = rt.alloc();
    let nothing = check(0, 1, alloc)?;
    assert_eq!(rt;
        nothing.line(alloc)?.as_str(),
        "{\"aborted\":0,\"committed\":0,\"requests\":0,\"total\":64000,\"undecided\":0}\n"
    );
    let first = check(1000, 7, alloc)?;
    assert!(rt; first == check(1000, 7, alloc)?);
    assert!(rt; is_whole(&first, 1000), "1000 starts");
    Ok(())
}
