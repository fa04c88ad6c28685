use silo_nodes::{NodeEntry, TxnId};
use std::alloc::{AllocError, Global};

// By how much a started transaction moves an account of a participant.
#[derive(Clone, Copy)]
pub struct Move {
    pub txn: TxnId,
    pub node: u8,
    pub key: u32,
    pub delta: i64,
}

// A line of a participant's log: 'p' prepared, 'c' done as committed, 'a' as aborted.
#[derive(Clone, Copy)]
struct Line {
    node: u8,
    txn: TxnId,
    what: char,
}

// A packet, to or from that participant: 'p' a request, 'y' and 'n' votes, 'c' and 'a' decisions, 'q' a question.
#[derive(Clone, Copy)]
struct Wire {
    what: char,
    txn: TxnId,
    node: u8,
}

// The same rules a second time, plainly: all moves, votes, lines and packets stand in one list each, and each question is
// answered by a walk over them.
#[derive(Drop)]
pub struct Plain {
    nodes: u8,
    opening: i64,
    epoch: u64,
    number: u64,
    moves: Vec<Move>,
    waiting: Vec<TxnId>,
    votes: Vec<Wire>,
    commits: Vec<TxnId>,
    lines: Vec<Line>,
    packets: Vec<Wire>,
}

impl Plain {
    /// So many nodes, each grain of which has this balance.
    pub fn new(nodes: u8, opening: i64, alloc: Global) -> Plain {
        Plain {
            nodes,
            opening,
            epoch: 0,
            number: 0,
            moves: Vec::new(alloc),
            waiting: Vec::new(alloc),
            votes: Vec::new(alloc),
            commits: Vec::new(alloc),
            lines: Vec::new(alloc),
            packets: Vec::new(alloc),
        }
    }

    /// How many packets are under way.
    pub fn packets(&self) -> u64 {
        self.packets.len() as u64
    }

    /// How many transactions wait for votes.
    pub fn pending(&self) -> u64 {
        self.waiting.len() as u64
    }

    /// What committed, in its order.
    pub fn commits(&self) -> &[TxnId] {
        self.commits.as_slice()
    }

    // The number that the next start takes.
    pub fn next(&self) -> TxnId {
        TxnId {
            epoch: self.epoch,
            number: self.number.wrapping_add(1),
        }
    }

    /// A grain's balance by the commits that its node has heard of.
    pub fn balance(&self, node: u8, key: u32) -> i64 {
        let mut sum = self.opening;
        for one in self.moves.as_slice() {
            if one.node == node && one.key == key && self.has_line(node, one.txn, 'c') {
                sum = sum.wrapping_add(one.delta);
            }
        }
        sum
    }

    // Whether the participant's log is this.
    pub fn has_log(&self, node: u8, log: &[NodeEntry]) -> bool {
        let mut at = 0usize;
        for line in self.lines.as_slice() {
            if line.node != node {
                continue;
            }
            if !is_line(log.get(at), line) {
                return false;
            }
            at = at.wrapping_add(1);
        }
        at == log.len()
    }

    /// The coordinator begins a transaction of these moves.
    pub fn start(&mut self, moves: &[Move]) -> Result<(), AllocError> {
        let txn = self.next();
        self.number = txn.number;
        for one in moves {
            self.moves.push(*one)?;
        }
        if moves.is_empty() {
            self.commits.push(txn)?;
            return Ok(());
        }
        self.waiting.push(txn)?;
        self.send_all(txn, 'p')
    }

    /// The packet at this place arrives.
    pub fn deliver(&mut self, at: usize) -> Result<(), AllocError> {
        let Some(packet) = self.packets.get(at).copied() else {
            return Ok(());
        };
        if packet.what == 'p' {
            return self.request(packet);
        }
        if packet.what == 'c' || packet.what == 'a' {
            return self.decision(packet);
        }
        if packet.what == 'q' {
            return self.question(packet);
        }
        self.vote(packet)
    }

    /// The coordinator asks again for the votes that it waits for.
    pub fn nudge_coordinator(&mut self) -> Result<(), AllocError> {
        for at in 0..self.waiting.len() {
            if let Some(txn) = self.waiting.get(at).copied() {
                self.remind(txn)?;
            }
        }
        Ok(())
    }

    /// A node asks again for the decisions that it waits for.
    pub fn nudge(&mut self, node: u8) -> Result<(), AllocError> {
        for at in 0..self.lines.len() {
            if let Some(line) = self.lines.get(at).copied() {
                self.ask(node, line)?;
            }
        }
        Ok(())
    }

    /// The coordinator begins anew, and knows what it has logged alone.
    pub fn restart_coordinator(&mut self) {
        self.epoch = self.epoch.wrapping_add(1);
        self.number = 0;
        self.waiting.clear();
    }

    // Asks for the decision of a prepared transaction that isn't done.
    fn ask(&mut self, node: u8, line: Line) -> Result<(), AllocError> {
        if line.node == node && line.what == 'p' && !self.is_done(node, line.txn) {
            self.send('q', line.txn, node)?;
        }
        Ok(())
    }

    fn has_line(&self, node: u8, txn: TxnId, what: char) -> bool {
        for line in self.lines.as_slice() {
            if line.node == node && line.txn == txn && line.what == what {
                return true;
            }
        }
        false
    }

    fn is_done(&self, node: u8, txn: TxnId) -> bool {
        self.has_line(node, txn, 'c') || self.has_line(node, txn, 'a')
    }

    fn takes_part(&self, node: u8, txn: TxnId) -> bool {
        for one in self.moves.as_slice() {
            if one.node == node && one.txn == txn {
                return true;
            }
        }
        false
    }

    fn has_voted(&self, node: u8, txn: TxnId) -> bool {
        for vote in self.votes.as_slice() {
            if vote.node == node && vote.txn == txn {
                return true;
            }
        }
        false
    }

    // Whether an undecided transaction moves the account.
    fn is_busy(&self, node: u8, key: u32) -> bool {
        for one in self.moves.as_slice() {
            if one.node == node
                && one.key == key
                && self.has_line(node, one.txn, 'p')
                && !self.is_done(node, one.txn)
            {
                return true;
            }
        }
        false
    }

    fn can_move(&self, one: &Move) -> bool {
        match self.balance(one.node, one.key).checked_add(one.delta) {
            Some(after) => after >= 0 && !self.is_busy(one.node, one.key),
            None => false,
        }
    }

    fn can_prepare(&self, node: u8, txn: TxnId) -> bool {
        for one in self.moves.as_slice() {
            if one.node == node && one.txn == txn && !self.can_move(one) {
                return false;
            }
        }
        true
    }

    fn send(&mut self, what: char, txn: TxnId, node: u8) -> Result<(), AllocError> {
        self.packets.push(Wire { what, txn, node })?;
        Ok(())
    }

    fn send_all(&mut self, txn: TxnId, what: char) -> Result<(), AllocError> {
        for node in 0..self.nodes {
            if self.takes_part(node, txn) {
                self.send(what, txn, node)?;
            }
        }
        Ok(())
    }

    fn remind(&mut self, txn: TxnId) -> Result<(), AllocError> {
        for node in 0..self.nodes {
            if self.takes_part(node, txn) && !self.has_voted(node, txn) {
                self.send('p', txn, node)?;
            }
        }
        Ok(())
    }

    fn request(&mut self, packet: Wire) -> Result<(), AllocError> {
        let Wire { txn, node, .. } = packet;
        if self.is_done(node, txn) {
            return Ok(());
        }
        if self.has_line(node, txn, 'p') {
            return self.send('y', txn, node);
        }
        if !self.can_prepare(node, txn) {
            return self.send('n', txn, node);
        }
        let what = 'p';
        self.lines.push(Line { node, txn, what })?;
        self.send('y', txn, node)
    }

    fn decision(&mut self, packet: Wire) -> Result<(), AllocError> {
        let Wire { what, txn, node } = packet;
        if self.has_line(node, txn, 'p') && !self.is_done(node, txn) {
            self.lines.push(Line { node, txn, what })?;
        }
        Ok(())
    }

    // The decision for one participant.
    fn answer(&mut self, packet: Wire) -> Result<(), AllocError> {
        let is_commit = is_among(self.commits.as_slice(), packet.txn);
        self.send(if is_commit { 'c' } else { 'a' }, packet.txn, packet.node)
    }

    fn question(&mut self, packet: Wire) -> Result<(), AllocError> {
        if is_among(self.waiting.as_slice(), packet.txn) {
            return Ok(());
        }
        self.answer(packet)
    }

    fn vote(&mut self, packet: Wire) -> Result<(), AllocError> {
        let txn = packet.txn;
        let is_waiting = is_among(self.waiting.as_slice(), txn);
        if packet.what == 'n' {
            if is_waiting {
                self.waiting.retain(|one| *one != txn);
                self.send_all(txn, 'a')?;
            }
            return Ok(());
        }
        if !is_waiting {
            return self.answer(packet);
        }
        self.votes.push(packet)?;
        if self.all_voted(txn) {
            self.waiting.retain(|one| *one != txn);
            self.commits.push(txn)?;
            self.send_all(txn, 'c')?;
        }
        Ok(())
    }

    fn all_voted(&self, txn: TxnId) -> bool {
        for node in 0..self.nodes {
            if self.takes_part(node, txn) && !self.has_voted(node, txn) {
                return false;
            }
        }
        true
    }
}

fn is_among(list: &[TxnId], txn: TxnId) -> bool {
    for one in list {
        if *one == txn {
            return true;
        }
    }
    false
}

// Whether the entry is that line.
fn is_line(entry: Option<&NodeEntry>, line: &Line) -> bool {
    match entry {
        Some(NodeEntry::Prepared { txn, .. }) => *txn == line.txn && line.what == 'p',
        Some(NodeEntry::Done { txn, commit }) => {
            *txn == line.txn && line.what == (if *commit { 'c' } else { 'a' })
        }
        None => false,
    }
}
