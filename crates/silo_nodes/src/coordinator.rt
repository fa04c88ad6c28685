ghost use Rattle.std.specs.Prelude.{◌≡◌, ◌≤◌, ◌<◌, ◌+◌, ◌++◌, ◌∷◌, ◌||◌, ◌==◌, [], filter, length, if◌then◌else◌, IfOk, OnOk, OnErr};
ghost use Rattle.std.specs.List.{list_any};
ghost use Rattle.std.specs.Option.{option_copied};
ghost use Rattle.silo_nodes.specs.Coordinators.{idle, next_of, parts_from, prepare_each, decide_each, begun, find, is_commit, without, is_unanimous, with_yes, agreed, with_decision, voted, vote_replies, ask_replies, heard, replies, is_late, reminders, restarted};

use crate::packets::{Packet, Shift, TxnId};
use crate::parts::{
    Part, Pending, agree, close, decide_each, find, has_all, parts_of, prepare_each, remind_all,
};
use base_types::List;
use std::alloc::{AllocError, Global};
use std::collections::BTreeMap;
use std::marker::Model;

/// The coordinator: its log, which is its epoch and its commits, what it computes from it, and what it waits
/// for.
#[derive(Drop)]
pub struct Coordinator {
    epoch: u64,
    number: u64,
    commits: Vec<TxnId>,
    places: BTreeMap<TxnId, usize>,
    pending: Vec<Pending>,
    alloc: Global,
}

impl Model for Coordinator {
    ghost use Rattle.std.specs.BTreeMap.{get};
    ghost use Rattle.silo_nodes.specs.Orders.{txn_cmp, IsPlaced};
    ghost use Rattle.silo_nodes.specs.Coordinators.{Coordination};

    ghost Value = { Coordination };

    ghost view = { λ c. record { epoch = c.epoch; number = c.number; commits = c.commits.items; pending = c.pending.items } };

    ghost invariant = { λ c. IsPlaced c.commits.items (get txn_cmp c.places) };
}

impl Coordinator {
    /// A coordinator that has begun nothing. Takes no memory.
    pub fn new(alloc: Global) -> Coordinator
        ensures { result ≡ idle }
    {
        Coordinator {
            epoch: 0,
            number: 0,
            commits: Vec::new(alloc),
            places: BTreeMap::new(alloc),
            pending: Vec::new(alloc),
            alloc,
        }
    }

    /// The commits in the order in which they were decided.
    pub fn commits(&self) -> &[TxnId]
        ensures { result.now ≡ self.now.commits }
    {
        self.commits.as_slice()
    }

    /// How many transactions wait for votes.
    pub fn pending(&self) -> u64
        ensures { result ≡ length self.now.pending }
    {
        self.pending.len() as u64
    }

    /// The epoch, from 0.
    pub fn epoch(&self) -> u64
        ensures { result ≡ self.now.epoch }
    {
        self.epoch
    }

    /// The last number that was taken in this epoch, 0 where none was.
    pub fn number(&self) -> u64
        ensures { result ≡ self.now.number }
    {
        self.number
    }

    /// The requests that a transaction of these parts sends when it begins.
    pub fn requests(&self, parts: &[Part]) -> Result<List<Packet>, AllocError>
        requires fits { self.now.number + 1 ≤ 4294967295 }
        ensures { IfOk result (λ sent. sent ≡ prepare_each (next_of self.now) parts.now) }
    {
        let txn = TxnId {
            epoch: self.epoch,
            number: self.number + 1,
        };
        let mut sent = Vec::new(self.alloc);
        prepare_each(&mut sent, txn, parts)?;
        Ok(List::from_vec(sent))
    }

    /// Begins a transaction of these parts. Without memory nothing changes.
    pub fn begin(&mut self, parts: List<Part>) -> Result<(), AllocError>
        requires fits { self.old.number + 1 ≤ 4294967295 }
        ensures ok { OnOk result (self.new ≡ begun self.old parts) }
        ensures kept { OnErr result (self.new ≡ self.old) }
    {
        let txn = TxnId {
            epoch: self.epoch,
            number: self.number + 1,
        };
        if parts.is_empty() {
            self.add_commit(txn)?;
            self.number += 1;
            return Ok(());
        }
        self.pending.push(Pending {
            txn,
            parts,
            yes: List::new(self.alloc),
        })?;
        self.number += 1;
        Ok(())
    }

    /// A transaction begins, with one list of shifts a participant: `requests`, then `begin`. Without memory nothing
    /// changes.
    pub fn start(&mut self, parts: List<List<Shift>>) -> Result<List<Packet>, AllocError>
        requires few { length parts ≤ 8 }
        requires fits { self.old.number + 1 ≤ 4294967295 }
        ensures node { OnOk result (self.new ≡ begun self.old (parts_from 0 parts)) }
        ensures sent { IfOk result (λ sent. sent ≡ prepare_each (next_of self.old) (parts_from 0 parts)) }
        ensures kept { OnErr result (self.new ≡ self.old) }
    {
        let parts = parts_of(parts.as_slice(), self.alloc)?;
        let sent = self.requests(parts.as_slice())?;
        self.begin(parts)?;
        Ok(sent)
    }

    /// A packet comes: `replies`, then `hear`. Without memory nothing changes.
    pub fn receive(&mut self, packet: &Packet) -> Result<List<Packet>, AllocError>
        ensures node { OnOk result (self.new ≡ heard self.old packet.now) }
        ensures sent { IfOk result (λ sent. sent ≡ replies self.old packet.now) }
        ensures kept { OnErr result (self.new ≡ self.old) }
    {
        let sent = self.replies(packet)?;
        self.hear(packet)?;
        Ok(sent)
    }

    /// What a packet makes it send.
    pub fn replies(&self, packet: &Packet) -> Result<List<Packet>, AllocError>
        ensures { IfOk result (λ sent. sent ≡ replies self.now packet.now) }
    {
        match packet {
            Packet::Vote { txn, from, yes } => self.vote_replies(*txn, *from, *yes),
            Packet::Ask { txn, from } => self.ask_replies(*txn, *from),
            Packet::Prepare { .. } | Packet::Decision { .. } => Ok(List::new(self.alloc)),
        }
    }

    /// A packet comes. Without memory nothing changes.
    pub fn hear(&mut self, packet: &Packet) -> Result<(), AllocError>
        ensures ok { OnOk result (self.new ≡ heard self.old packet.now) }
        ensures kept { OnErr result (self.new ≡ self.old) }
    {
        match packet {
            Packet::Vote { txn, from, yes } => self.vote(*txn, *from, *yes),
            Packet::Ask { .. } | Packet::Prepare { .. } | Packet::Decision { .. } => Ok(()),
        }
    }

    /// What a nudge sends: the request again, to each participant of each pending transaction that hasn't said
    /// yes.
    pub fn nudge(&self) -> Result<List<Packet>, AllocError>
        ensures { IfOk result (λ sent. sent ≡ reminders self.now.pending) }
    {
        let mut sent = Vec::new(self.alloc);
        remind_all(&mut sent, &self.pending)?;
        Ok(List::from_vec(sent))
    }

    /// It stops and begins again: what is pending is lost, the epoch rises.
    pub fn restart(&mut self)
        requires fits { self.old.epoch < 4294967295 }
        ensures { self.new ≡ restarted self.old }
    {
        self.epoch += 1;
        self.number = 0;
        self.pending.clear();
    }

    // The transaction is a commit. Without memory nothing changes.
    fn add_commit(&mut self, txn: TxnId) -> Result<(), AllocError>
        ensures ok { OnOk result (self.new ≡ record self.old { commits = self.old.commits ++ txn ∷ [] }) }
        ensures kept { OnErr result (self.new ≡ self.old) }
    {
        self.commits.reserve(1)?;
        let at = self.commits.len();
        self.places.insert(txn, at)?;
        let pushed = self.commits.push(txn);
        prove!(pushed.is_ok());
        Ok(())
    }

    // Whether the transaction is a commit.
    fn is_commit(&self, txn: TxnId) -> bool
        ensures { result ≡ is_commit self.now.commits txn }
    {
        self.places.contains_key(&txn)
    }

    // The decision for one participant.
    fn decision(&self, txn: TxnId, to: u8) -> Result<List<Packet>, AllocError>
        ensures { IfOk result (λ sent. sent ≡ ask_replies self.now txn to None) }
    {
        let commit = self.is_commit(txn);
        let sent = vec![in self.alloc; Packet::Decision { txn, to, commit }]?;
        Ok(List::from_vec(sent))
    }

    // What a question makes it send.
    fn ask_replies(&self, txn: TxnId, from: u8) -> Result<List<Packet>, AllocError>
        ensures { IfOk result (λ sent. sent ≡ ask_replies self.now txn from (find txn self.now.pending)) }
    {
        match find(&self.pending, txn) {
            None => self.decision(txn, from),
            Some(_) => Ok(List::new(self.alloc)),
        }
    }

    // What a vote makes it send.
    fn vote_replies(&self, txn: TxnId, from: u8, yes: bool) -> Result<List<Packet>, AllocError>
        ensures { IfOk result (λ sent. sent ≡ vote_replies self.now txn from yes (find txn self.now.pending)) }
    {
        match find(&self.pending, txn) {
            None if yes => self.decision(txn, from),
            None => Ok(List::new(self.alloc)),
            Some(pending) if !yes => self.decide_all(txn, false, pending),
            Some(pending) if has_all(pending, from) => self.decide_all(txn, true, pending),
            Some(_) => Ok(List::new(self.alloc)),
        }
    }

    // The decision for all participants of a transaction.
    fn decide_all(
        &self,
        txn: TxnId,
        commit: bool,
        pending: &Pending,
    ) -> Result<List<Packet>, AllocError>
        ensures { IfOk result (λ sent. sent ≡ decide_each txn commit pending.now.parts) }
    {
        let mut sent = Vec::new(self.alloc);
        decide_each(&mut sent, txn, commit, pending.parts.as_slice())?;
        Ok(List::from_vec(sent))
    }

    // A vote comes. Without memory nothing changes.
    fn vote(&mut self, txn: TxnId, from: u8, yes: bool) -> Result<(), AllocError>
        ensures ok { OnOk result (self.new ≡ voted self.old txn from yes (find txn self.old.pending)) }
        ensures kept { OnErr result (self.new ≡ self.old) }
    {
        let last = match find(&self.pending, txn) {
            None => return Ok(()),
            Some(pending) => has_all(pending, from),
        };
        if !yes {
            close(&mut self.pending, txn);
            return Ok(());
        }
        if last {
            self.add_commit(txn)?;
            close(&mut self.pending, txn);
            return Ok(());
        }
        agree(&mut self.pending, txn, from)
    }
}
