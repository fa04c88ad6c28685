ghost use Rattle.std.specs.Prelude.{◌≡◌, ◌≤◌, [], length, IfOk};
ghost use Rattle.two_silos.specs.World.{IsOpening};
ghost use Rattle.silo_nodes.specs.Participants.{IsApart};
ghost use Rattle.two_silos_tests.specs.Openings.{three};

use crate::plain_model::Move;
use base_types::{GrainId, List};
use silo_nodes::{Packet, Participant, Shift, TxnId};
use std::alloc::{AllocError, Global};

const TXN: TxnId = TxnId {
    epoch: 0,
    number: 1,
};

// A payment of 3 from account 0 of participant 0 to account 1 of participant 1, whose account 0 is moved by nothing.
pub const PAYMENT: [Move; 3] = [
    Move {
        txn: TXN,
        node: 0,
        key: 0,
        delta: -3,
    },
    Move {
        txn: TXN,
        node: 1,
        key: 0,
        delta: 0,
    },
    Move {
        txn: TXN,
        node: 1,
        key: 1,
        delta: 3,
    },
];

// The same payment, with account 1 of participant 1 twice.
pub const TWICE: [Move; 3] = [
    Move {
        txn: TXN,
        node: 0,
        key: 0,
        delta: -3,
    },
    Move {
        txn: TXN,
        node: 1,
        key: 1,
        delta: 0,
    },
    Move {
        txn: TXN,
        node: 1,
        key: 1,
        delta: 3,
    },
];

// The accounts 0 to 2 of 10, at each of so many participants.
pub fn openings(nodes: u8, alloc: Global) -> Result<List<List<(GrainId, i64)>>, AllocError>
    requires few { nodes ≤ 8 }
    ensures few { IfOk result (λ made. length made ≤ 8) }
    ensures balances { IfOk result (λ made. IsOpening made) }
{
    let mut made = Vec::new(alloc);
    for _ in 0..nodes {
        made.push(accounts(alloc)?)?;
    }
    Ok(List::from_vec(made))
}

// The accounts 0 to 2 of 10.
pub fn accounts(alloc: Global) -> Result<List<(GrainId, i64)>, AllocError>
    ensures { IfOk result (λ made. made ≡ three) }
{
    let mut made = Vec::new(alloc);
    made.push((account(0), 10))?;
    made.push((account(1), 10))?;
    made.push((account(2), 10))?;
    Ok(List::from_vec(made))
}

// Account k.
pub fn account(key: u32) -> GrainId
    ensures { result ≡ record { kind = 0; key = key } }
{
    GrainId { kind: 0, key }
}

// A participant with the accounts 0 to 2 of 10.
pub fn participant(number: u8, alloc: Global) -> Result<Participant, AllocError>
    ensures { IfOk result (λ made. made ≡ record { number = number; opening = three; log = [] }) }
{
    let balances = accounts(alloc)?;
    Participant::new(number, balances, alloc)
}

// A request to move one account.
pub fn request(
    txn: TxnId,
    to: u8,
    grain: GrainId,
    delta: i64,
    alloc: Global,
) -> Result<Packet, AllocError>
    ensures { IfOk result (λ made. IsApart made) }
{
    let mut shifts = Vec::new(alloc);
    shifts.push(Shift { grain, delta })?;
    Ok(Packet::Prepare {
        txn,
        to,
        shifts: List::from_vec(shifts),
    })
}

// The shifts of one participant.
fn shifts(moves: &[Move], node: u8, alloc: Global) -> Result<List<Shift>, AllocError> {
    let mut made = Vec::new(alloc);
    for one in moves {
        if one.node == node {
            made.push(Shift {
                grain: account(one.key),
                delta: one.delta,
            })?;
        }
    }
    Ok(List::from_vec(made))
}

// These moves as a list of shifts for each participant.
pub fn parts(moves: &[Move], nodes: u8, alloc: Global) -> Result<List<List<Shift>>, AllocError> {
    let mut made = Vec::new(alloc);
    for node in 0..nodes {
        made.push(shifts(moves, node, alloc)?)?;
    }
    Ok(List::from_vec(made))
}
