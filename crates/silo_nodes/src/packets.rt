ghost use Rattle.std.specs.Prelude.{◌≡◌, IfOk};
ghost use Rattle.silo_nodes.specs.Packets.{same_txn};

use base_types::{GrainId, List};
use std::alloc::AllocError;

/// The number of a transaction: the coordinator's epoch, from 0, and its place in that epoch, from 1.
#[derive(Clone, Copy, Debug, PartialEq, Eq, PartialOrd, Ord)]
pub struct TxnId {
    pub epoch: u64,
    pub number: u64,
}

// Whether the two are one transaction.
pub fn is_same(a: TxnId, b: TxnId) -> bool
    ensures { result ≡ same_txn a b }
{
    a.epoch == b.epoch && a.number == b.number
}

/// By how much a transaction moves one grain's balance. Lists of shifts have ascending, different grains.
#[derive(Clone, Copy, Debug, PartialEq, Eq)]
pub struct Shift {
    pub grain: GrainId,
    pub delta: i64,
}

/// What goes over the link: the coordinator's requests and decisions, the participants' votes and questions.
#[derive(Drop)]
pub enum Packet {
    Prepare {
        txn: TxnId,
        to: u8,
        shifts: List<Shift>,
    },
    Vote {
        txn: TxnId,
        from: u8,
        yes: bool,
    },
    Decision {
        txn: TxnId,
        to: u8,
        commit: bool,
    },
    Ask {
        txn: TxnId,
        from: u8,
    },
}

impl Packet {
    /// A copy, equal to its source.
    pub fn copy(&self) -> Result<Packet, AllocError>
        ensures { IfOk result (λ made. made ≡ self.now) }
    {
        match self {
            Packet::Prepare { txn, to, shifts } => Ok(Packet::Prepare {
                txn: *txn,
                to: *to,
                shifts: shifts.copied()?,
            }),
            Packet::Vote { txn, from, yes } => Ok(Packet::Vote {
                txn: *txn,
                from: *from,
                yes: *yes,
            }),
            Packet::Decision { txn, to, commit } => Ok(Packet::Decision {
                txn: *txn,
                to: *to,
                commit: *commit,
            }),
            Packet::Ask { txn, from } => Ok(Packet::Ask {
                txn: *txn,
                from: *from,
            }),
        }
    }
}

/// What a participant logs: a transaction that it said yes to, and that one is decided.
#[derive(Drop)]
pub enum NodeEntry {
    Prepared { txn: TxnId, shifts: List<Shift> },
    Done { txn: TxnId, commit: bool },
}
