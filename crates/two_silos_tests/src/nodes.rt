// A coordinator and a participant by themselves, act by act, worked out by hand.
ghost use Rattle.std.specs.Prelude.{IfOk};
ghost use Rattle.silo_nodes.specs.Participants.{IsApart};

use crate::openings::{PAYMENT, account, participant, parts, request};
use base_types::{GrainId, List};
use silo_nodes::{Coordinator, Packet, Participant, TxnId};
use std::alloc::{AllocError, Global};
use std::test::Fail;

fn letter(packet: &Packet) -> (u8, u8) {
    match packet {
        Packet::Prepare { to, .. } => (b'p', *to),
        Packet::Vote { from, yes, .. } => (if *yes { b'y' } else { b'n' }, *from),
        Packet::Decision { to, commit, .. } => (if *commit { b'c' } else { b'a' }, *to),
        Packet::Ask { from, .. } => (b'q', *from),
    }
}

// Whether the packets are these in letters, each with its node: 'p' a request, 'y' and 'n' votes, 'c' and 'a' decisions, 'q' a
// question.
fn are(packets: &[Packet], letters: &[u8]) -> bool {
    let mut at = 0usize;
    for packet in packets {
        let (letter, node) = letter(packet);
        if letters.get(at).copied() != Some(letter) {
            return false;
        }
        if letters.get(at.wrapping_add(1)).copied() != Some(node.wrapping_add(b'0')) {
            return false;
        }
        at = at.wrapping_add(2);
    }
    at == letters.len()
}

// What a coordinator does: `Open` is a new one in its place, `Start` starts a payment at so many of its participants, `Hears`
// asks for the replies to a vote and hears it then, and the next three receive a packet.
#[derive(Clone, Copy)]
enum Act {
    Open,
    Start(u8),
    Hears(TxnId, u8, bool),
    Vote(TxnId, u8, bool),
    Question(TxnId, u8),
    Decision(TxnId, u8, bool),
    Nudge,
    Restart,
}

use Act::{Decision, Hears, Nudge, Open, Question, Restart, Start, Vote};

// An act of a coordinator, the packets that it sends, and what is seen of it then.
struct Row {
    name: &'static str,
    act: Act,
    sent: &'static str,
    commits: usize,
    pending: u64,
    epoch: u64,
    number: u64,
}

const FIRST: TxnId = TxnId {
    epoch: 0,
    number: 1,
};

const SECOND: TxnId = TxnId {
    epoch: 0,
    number: 2,
};

const RESTARTED: TxnId = TxnId {
    epoch: 1,
    number: 1,
};

const UNKNOWN: TxnId = TxnId {
    epoch: 7,
    number: 7,
};

const LAST: TxnId = TxnId {
    epoch: 4294967295,
    number: 4294967295,
};

const ROWS: [Row; 19] = [
    Row {
        name: "a start",
        act: Start(2),
        sent: "p0p1",
        commits: 0,
        pending: 1,
        epoch: 0,
        number: 1,
    },
    Row {
        name: "the first yes",
        act: Vote(FIRST, 0, true),
        sent: "",
        commits: 0,
        pending: 1,
        epoch: 0,
        number: 1,
    },
    Row {
        name: "a question of a pending one",
        act: Question(FIRST, 1),
        sent: "",
        commits: 0,
        pending: 1,
        epoch: 0,
        number: 1,
    },
    Row {
        name: "the last yes",
        act: Vote(FIRST, 1, true),
        sent: "c0c1",
        commits: 1,
        pending: 0,
        epoch: 0,
        number: 1,
    },
    Row {
        name: "a late yes",
        act: Vote(FIRST, 1, true),
        sent: "c1",
        commits: 1,
        pending: 0,
        epoch: 0,
        number: 1,
    },
    Row {
        name: "a late no",
        act: Vote(FIRST, 1, false),
        sent: "",
        commits: 1,
        pending: 0,
        epoch: 0,
        number: 1,
    },
    Row {
        name: "a question of a commit",
        act: Question(FIRST, 0),
        sent: "c0",
        commits: 1,
        pending: 0,
        epoch: 0,
        number: 1,
    },
    Row {
        name: "a yes of an unknown one",
        act: Vote(UNKNOWN, 1, true),
        sent: "a1",
        commits: 1,
        pending: 0,
        epoch: 0,
        number: 1,
    },
    Row {
        name: "a packet for participants",
        act: Decision(FIRST, 0, true),
        sent: "",
        commits: 1,
        pending: 0,
        epoch: 0,
        number: 1,
    },
    Row {
        name: "nothing to remind of",
        act: Nudge,
        sent: "",
        commits: 1,
        pending: 0,
        epoch: 0,
        number: 1,
    },
    Row {
        name: "another coordinator",
        act: Open,
        sent: "",
        commits: 0,
        pending: 0,
        epoch: 0,
        number: 0,
    },
    Row {
        name: "one without parts commits at once",
        act: Start(0),
        sent: "",
        commits: 1,
        pending: 0,
        epoch: 0,
        number: 1,
    },
    Row {
        name: "a third coordinator",
        act: Open,
        sent: "",
        commits: 0,
        pending: 0,
        epoch: 0,
        number: 0,
    },
    Row {
        name: "its start",
        act: Start(2),
        sent: "p0p1",
        commits: 0,
        pending: 1,
        epoch: 0,
        number: 1,
    },
    Row {
        name: "a yes of participant 1",
        act: Hears(FIRST, 1, true),
        sent: "",
        commits: 0,
        pending: 1,
        epoch: 0,
        number: 1,
    },
    Row {
        name: "the other one is reminded",
        act: Nudge,
        sent: "p0",
        commits: 0,
        pending: 1,
        epoch: 0,
        number: 1,
    },
    Row {
        name: "a restart",
        act: Restart,
        sent: "",
        commits: 0,
        pending: 0,
        epoch: 1,
        number: 0,
    },
    Row {
        name: "a start after it",
        act: Start(2),
        sent: "p0p1",
        commits: 0,
        pending: 1,
        epoch: 1,
        number: 1,
    },
    Row {
        name: "a no ends it",
        act: Vote(RESTARTED, 0, false),
        sent: "a0a1",
        commits: 0,
        pending: 0,
        epoch: 1,
        number: 1,
    },
];

// A start, where there is a number for it.
fn start(
    coordinator: &mut Coordinator,
    nodes: u8,
    alloc: Global,
) -> Result<List<Packet>, AllocError> {
    let parts = parts(&PAYMENT, nodes, alloc)?;
    if parts.len() > 8 || coordinator.number() >= 4294967295 {
        return Ok(List::new(alloc));
    }
    coordinator.start(parts)
}

// A restart, where there is an epoch for it.
fn restart(coordinator: &mut Coordinator) {
    if coordinator.epoch() < 4294967295 {
        coordinator.restart();
    }
}

fn hears(coordinator: &mut Coordinator, vote: &Packet) -> Result<List<Packet>, AllocError> {
    let sent = coordinator.replies(vote)?;
    coordinator.hear(vote)?;
    Ok(sent)
}

fn acts(
    coordinator: &mut Coordinator,
    act: Act,
    alloc: Global,
) -> Result<List<Packet>, AllocError> {
    match act {
        Open => *coordinator = Coordinator::new(alloc),
        Restart => restart(coordinator),
        Start(nodes) => return start(coordinator, nodes, alloc),
        Nudge => return coordinator.nudge(),
        Hears(txn, from, yes) => return hears(coordinator, &Packet::Vote { txn, from, yes }),
        Vote(txn, from, yes) => return coordinator.receive(&Packet::Vote { txn, from, yes }),
        Question(txn, from) => return coordinator.receive(&Packet::Ask { txn, from }),
        Decision(txn, to, commit) => {
            return coordinator.receive(&Packet::Decision { txn, to, commit });
        }
    }
    Ok(List::new(alloc))
}

// Whether the coordinator does as the row says.
fn does(coordinator: &mut Coordinator, row: &Row, alloc: Global) -> Result<bool, AllocError> {
    let sent = acts(coordinator, row.act, alloc)?;
    Ok(
        are(sent.as_slice(), row.sent.as_bytes())
            && coordinator.commits().len() == row.commits
            && coordinator.pending() == row.pending
            && coordinator.epoch() == row.epoch
            && coordinator.number() == row.number,
    )
}

#[test]
fn a_coordinator_does_as_the_rows_say(rt: HostRuntime) -> Result<(), Fail> {
    let mut coordinator = Coordinator::new(rt.alloc());
    for row in &ROWS {
        assert!(rt; does(&mut coordinator, row, rt.alloc())?, "{}", row.name);
    }
    Ok(())
}

// What a participant gets: a request for itself or another one, or a decision.
#[derive(Clone, Copy)]
enum Got {
    Request(TxnId, u32, i64),
    Other(TxnId, u32, i64),
    Decided(TxnId, bool),
}

use Got::{Decided, Other, Request};

// What participant 0 gets, the packets that it sends, and what is seen of it then: the lines of its log and the balance of
// account 0.
struct Get {
    name: &'static str,
    got: Got,
    sent: &'static str,
    lines: usize,
    balance: i64,
}

const GETS: [Get; 15] = [
    Get {
        name: "a request",
        got: Request(FIRST, 0, -3),
        sent: "y0",
        lines: 1,
        balance: 10,
    },
    Get {
        name: "again",
        got: Request(FIRST, 0, -3),
        sent: "y0",
        lines: 1,
        balance: 10,
    },
    Get {
        name: "of the same grain",
        got: Request(SECOND, 0, 1),
        sent: "n0",
        lines: 1,
        balance: 10,
    },
    Get {
        name: "of no grain",
        got: Request(SECOND, 4294967295, 1),
        sent: "n0",
        lines: 1,
        balance: 10,
    },
    Get {
        name: "below nothing",
        got: Request(SECOND, 1, -11),
        sent: "n0",
        lines: 1,
        balance: 10,
    },
    Get {
        name: "beyond all",
        got: Request(SECOND, 1, 9223372036854775807),
        sent: "n0",
        lines: 1,
        balance: 10,
    },
    Get {
        name: "for another one",
        got: Other(SECOND, 1, 1),
        sent: "",
        lines: 1,
        balance: 10,
    },
    Get {
        name: "of an unknown one",
        got: Decided(SECOND, true),
        sent: "",
        lines: 1,
        balance: 10,
    },
    Get {
        name: "a commit",
        got: Decided(FIRST, true),
        sent: "",
        lines: 2,
        balance: 7,
    },
    Get {
        name: "a repeated one",
        got: Decided(FIRST, false),
        sent: "",
        lines: 2,
        balance: 7,
    },
    Get {
        name: "a late request",
        got: Request(FIRST, 0, -3),
        sent: "",
        lines: 2,
        balance: 7,
    },
    Get {
        name: "the last numbers",
        got: Request(LAST, 0, 9223372036854775800),
        sent: "y0",
        lines: 3,
        balance: 7,
    },
    Get {
        name: "and an abort",
        got: Decided(LAST, false),
        sent: "",
        lines: 4,
        balance: 7,
    },
    Get {
        name: "down to nothing",
        got: Request(RESTARTED, 0, -7),
        sent: "y0",
        lines: 5,
        balance: 7,
    },
    Get {
        name: "and a commit",
        got: Decided(RESTARTED, true),
        sent: "",
        lines: 6,
        balance: 0,
    },
];

fn packet(got: Got, alloc: Global) -> Result<Packet, AllocError>
    ensures { IfOk result (λ made. IsApart made) }
{
    match got {
        Request(txn, key, delta) => request(txn, 0, account(key), delta, alloc),
        Other(txn, key, delta) => request(txn, 1, account(key), delta, alloc),
        Decided(txn, commit) => Ok(Packet::Decision { txn, to: 0, commit }),
    }
}

// Whether the participant does as the row says.
fn gets(node: &mut Participant, row: &Get, alloc: Global) -> Result<bool, AllocError> {
    let packet = packet(row.got, alloc)?;
    let sent = node.receive(&packet)?;
    Ok(
        are(sent.as_slice(), row.sent.as_bytes())
            && node.log().len() == row.lines
            && node.balance(account(0)) == Some(row.balance),
    )
}

#[test]
fn a_participant_votes_and_logs(rt: HostRuntime) -> Result<(), Fail> {
    let mut node = participant(0, rt.alloc())?;
    for row in &GETS {
        assert!(rt; gets(&mut node, row, rt.alloc())?, "{}", row.name);
    }
    assert!(rt; node.balance(GrainId { kind: 1, key: 0 }).is_none());
    Ok(())
}

// Whether participant 1 answers a request, learns it, and waits for its decision then. A copy of the request stays as it was.
fn waits(node: &mut Participant, alloc: Global) -> Result<bool, AllocError> {
    let asked = packet(Other(FIRST, 0, 5), alloc)?;
    let copy = asked.copy()?;
    let sent = node.answers(&asked)?;
    node.learn(&asked)?;
    let (letter, to) = letter(&copy);
    Ok(sent.len() == 1 && node.undecided().len() == 1 && letter == b'p' && to == 1)
}

fn asks(node: &Participant) -> Result<bool, AllocError> {
    let sent = node.nudge()?;
    Ok(are(sent.as_slice(), b"q1"))
}

#[test]
fn a_participant_asks_for_what_it_waits_for(rt: HostRuntime) -> Result<(), Fail> {
    let mut node = participant(1, rt.alloc())?;
    assert!(rt; waits(&mut node, rt.alloc())?);
    assert!(rt; asks(&node)?);
    Ok(())
}
