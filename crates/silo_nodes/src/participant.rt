ghost use Rattle.std.specs.Prelude.{◌≡◌, ◌<◌, ◌++◌, ℤ, List, [], map, Some, true, IfOk, OnOk, OnErr, slice_get};
ghost use Rattle.silo_nodes.specs.LogCache.{entry_shifts, decided_at, prepared_at, vote_at, opening_in};
ghost use Rattle.silo_nodes.specs.Packets.{is_apart, GrainId, Ask};
ghost use Rattle.silo_nodes.specs.Node.{is_balance, vote_on};
ghost use Rattle.silo_nodes.specs.Orders.{MarksDone};
ghost use Rattle.silo_nodes.specs.Logs.{balance, undecided, others};
ghost use Rattle.silo_nodes.specs.Participants.{IsApart, learned, answers, questions};

use crate::cells::{Cell, allow, hold, open_all, settle};
use crate::packets::{NodeEntry, Packet, Shift, TxnId, is_same};
use base_types::{GrainId, List};
use std::alloc::{AllocError, Global};
use std::collections::BTreeMap;
use std::marker::Model;

/// What is kept of a prepared transaction: where its entry stands in the log, and whether it is done.
#[derive(Clone, Copy)]
pub struct Known {
    pub at: usize,
    pub done: bool,
}

/// A participant: its log, and beside it what the log tells of transactions and grains, so that no packet walks
/// the log.
#[derive(Drop)]
pub struct Participant {
    number: u8,
    opening: List<(GrainId, i64)>,
    log: Vec<NodeEntry>,
    known: BTreeMap<TxnId, Known>,
    undecided: Vec<TxnId>,
    cells: BTreeMap<GrainId, Cell>,
    alloc: Global,
}

impl Model for Participant {
    ghost use Rattle.std.specs.BTreeMap.{get};
    ghost use Rattle.base_types.specs.Stores.{grain_cmp};
    ghost use Rattle.silo_nodes.specs.LogCache.{Node, FollowsLog, opening_in};
    ghost use Rattle.silo_nodes.specs.Orders.{txn_cmp};

    ghost Value = { Node };

    ghost view = { λ p. record { number = p.number; opening = p.opening; log = p.log.items } };

    ghost invariant = { λ p. FollowsLog (opening_in p.opening) p.log.items (get txn_cmp p.known) p.undecided.items (get grain_cmp p.cells) };
}

impl Participant {
    /// A participant with these opening balances and an empty log. None of them is negative; grains are ascending
    /// and different.
    pub fn new(
        number: u8,
        opening: List<(GrainId, i64)>,
        alloc: Global,
    ) -> Result<Participant, AllocError>
        requires balances { (grain : GrainId) (balance : ℤ) → opening_in opening grain ≡ Some balance → is_balance balance ≡ true }
        ensures made { IfOk result (λ made. made ≡ record { number = number; opening = opening; log = [] }) }
    {
        let mut cells = BTreeMap::new(alloc);
        open_all(&mut cells, opening.as_slice())?;
        Ok(Participant {
            number,
            opening,
            log: Vec::new(alloc),
            known: BTreeMap::new(alloc),
            undecided: Vec::new(alloc),
            cells,
            alloc,
        })
    }

    /// The log, from which all else is computed.
    pub fn log(&self) -> &[NodeEntry]
        ensures { result.now ≡ self.now.log }
    {
        self.log.as_slice()
    }

    /// A grain's balance, none exactly where the grain isn't there.
    pub fn balance(&self, grain: GrainId) -> Option<i64>
        ensures { result ≡ balance (opening_in self.now.opening) self.now.log grain }
    {
        match self.cells.get(&grain) {
            Some(cell) => Some(cell.balance),
            None => None,
        }
    }

    /// The transactions that are prepared and not decided, in log order.
    pub fn undecided(&self) -> &[TxnId]
        ensures { result.now ≡ undecided self.now.log self.now.log }
    {
        self.undecided.as_slice()
    }

    /// What a packet makes it send: its vote on a request, and nothing else.
    pub fn answers(&self, packet: &Packet) -> Result<List<Packet>, AllocError>
        ensures { IfOk result (λ sent. sent ≡ answers self.now packet.now) }
    {
        match packet {
            Packet::Prepare { txn, to, shifts } if *to == self.number => self.votes(*txn, shifts),
            Packet::Prepare { .. }
            | Packet::Decision { .. }
            | Packet::Vote { .. }
            | Packet::Ask { .. } => Ok(List::new(self.alloc)),
        }
    }

    /// A packet comes; one for another receiver is ignored. Without memory nothing changes.
    pub fn learn(&mut self, packet: &Packet) -> Result<(), AllocError>
        requires apart { IsApart packet.now }
        ensures ok { OnOk result (self.new ≡ learned self.old packet.now) }
        ensures kept { OnErr result (self.new ≡ self.old) }
    {
        match packet {
            Packet::Prepare { txn, to, shifts } if *to == self.number => self.prepare(*txn, shifts),
            Packet::Decision { txn, to, commit } if *to == self.number => {
                self.decide(*txn, *commit)
            }
            Packet::Prepare { .. }
            | Packet::Decision { .. }
            | Packet::Vote { .. }
            | Packet::Ask { .. } => Ok(()),
        }
    }

    /// A packet comes: `answers`, then `learn`. Without memory nothing changes.
    pub fn receive(&mut self, packet: &Packet) -> Result<List<Packet>, AllocError>
        requires apart { IsApart packet.now }
        ensures node { OnOk result (self.new ≡ learned self.old packet.now) }
        ensures sent { IfOk result (λ sent. sent ≡ answers self.old packet.now) }
        ensures kept { OnErr result (self.new ≡ self.old) }
    {
        let sent = self.answers(packet)?;
        self.learn(packet)?;
        Ok(sent)
    }

    /// What a nudge sends: a question for each prepared transaction that isn't decided, in log order.
    pub fn nudge(&self) -> Result<List<Packet>, AllocError>
        ensures { IfOk result (λ sent. sent ≡ questions self.now) }
    {
        let mut sent = Vec::new(self.alloc);
        ask_each(&mut sent, self.number, self.undecided.as_slice())?;
        Ok(List::from_vec(sent))
    }

    // The packet that votes on a request, none where the transaction is done.
    fn votes(&self, txn: TxnId, shifts: &List<Shift>) -> Result<List<Packet>, AllocError>
        ensures { IfOk result (λ sent. sent ≡ vote_on (opening_in self.now.opening) self.now.log self.now.number txn shifts.now) }
    {
        match self.vote(txn, shifts) {
            None => Ok(List::new(self.alloc)),
            Some(yes) => {
                let sent = vec![in self.alloc;
                    Packet::Vote {
                        txn,
                        from: self.number,
                        yes,
                    },
                ]?;
                Ok(List::from_vec(sent))
            }
        }
    }

    // The vote on a request, none where the transaction is done.
    fn vote(&self, txn: TxnId, shifts: &List<Shift>) -> Option<bool>
        ensures { result ≡ vote_at self.now txn shifts.now }
    {
        if let Some(known) = self.known.get(&txn).copied() {
            return if known.done { None } else { Some(true) };
        }
        Some(allow(&self.cells, shifts.as_slice()))
    }

    // A request to prepare comes. Without memory nothing changes.
    fn prepare(&mut self, txn: TxnId, shifts: &List<Shift>) -> Result<(), AllocError>
        requires apart { is_apart shifts.now ≡ true }
        ensures node { OnOk result (self.new ≡ prepared_at self.old txn shifts.now) }
        ensures kept { OnErr result (self.new ≡ self.old) }
    {
        if self.known.get(&txn).is_some() {
            return Ok(());
        }
        if !allow(&self.cells, shifts.as_slice()) {
            return Ok(());
        }
        let shifts = shifts.copied()?;
        self.log.reserve(1)?;
        self.undecided.reserve(1)?;
        let at = self.log.len();
        self.known.insert(txn, Known { at, done: false })?;
        hold(&mut self.cells, shifts.as_slice());
        let listed = self.undecided.push(txn);
        prove!(listed.is_ok());
        let pushed = self.log.push(NodeEntry::Prepared { txn, shifts });
        prove!(pushed.is_ok());
        Ok(())
    }

    // A decision comes. Without memory nothing changes.
    fn decide(&mut self, txn: TxnId, commit: bool) -> Result<(), AllocError>
        ensures ok { OnOk result (self.new ≡ decided_at self.old txn commit) }
        ensures kept { OnErr result (self.new ≡ self.old) }
    {
        let Some(known) = self.known.get(&txn).copied() else {
            return Ok(());
        };
        if known.done {
            return Ok(());
        }
        self.log.reserve(1)?;
        settle(&mut self.cells, shifts_at(&self.log, known.at), commit);
        mark_done(&mut self.known, txn);
        drop_txn(&mut self.undecided, txn);
        let pushed = self.log.push(NodeEntry::Done { txn, commit });
        prove!(pushed.is_ok());
        Ok(())
    }
}

// Appends the questions about these transactions.
fn ask_each(sent: &mut Vec<Packet>, from: u8, txns: &[TxnId]) -> Result<(), AllocError>
    ensures { OnOk result (sent.new.items ≡ sent.old.items ++ map (λ t. Ask t from) txns.now) }
{
    for txn in txns {
        sent.push(Packet::Ask { txn: *txn, from })?;
    }
    Ok(())
}

// The shifts of an entry of the log.
fn shifts_at(log: &[NodeEntry], at: usize) -> &[Shift]
    ensures { result.now ≡ entry_shifts (slice_get log.now at) }
{
    match log.get(at) {
        Some(NodeEntry::Prepared { shifts, .. }) => shifts.as_slice(),
        Some(NodeEntry::Done { .. }) | None => &[],
    }
}

// A transaction is done.
fn mark_done(known: &mut BTreeMap<TxnId, Known>, txn: TxnId)
    ensures { MarksDone known.old known.new txn }
{
    if let Some(found) = known.get_mut(&txn) {
        found.done = true;
    }
}

// Takes the transaction from the undecided ones.
fn drop_txn(undecided: &mut Vec<TxnId>, txn: TxnId)
    ensures { undecided.new.items ≡ others txn undecided.old.items }
{
    undecided.retain(|one| !is_same(*one, txn));
}
