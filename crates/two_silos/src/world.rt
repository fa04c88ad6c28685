ghost use Rattle.std.specs.Prelude.{◌≡◌, ◌≤◌, ◌<◌, List, length, IfOk, OnOk, OnErr, IfSome, IfNone};
ghost use Rattle.two_silos.specs.World.{Start, Deliver, NudgeCoordinator, Nudge, RestartCoordinator, IsOpening, begin, step, receiver_of, balance_in, log_at};
ghost use Rattle.two_silos.specs.Summaries.{waiting};

use crate::events::WorldEvent;
use crate::link::{begin, hand, send, tell};
use crate::openings::nodes_of;
use crate::parts::are_parts;
use base_types::{GrainId, List};
use silo_nodes::{Coordinator, NodeEntry, Packet, Participant, Shift, TxnId, parts_of};
use std::alloc::{AllocError, Global};
use std::marker::Model;

/// The world: a coordinator, its participants, and all packets that were ever sent, numbered from 0. It is always one
/// that some list of events leads to.
#[derive(Drop)]
pub struct World {
    coordinator: Coordinator,
    nodes: Vec<Participant>,
    packets: Vec<Packet>,
    alloc: Global,
}

impl Model for World {
    ghost use Rattle.two_silos.specs.World.{World as WorldState, IsReachedWorld};

    ghost Value = { WorldState };

    ghost view = { λ w. record { coordinator = w.coordinator; nodes = w.nodes.items; packets = w.packets.items } };

    ghost invariant = { λ w. IsReachedWorld (record { coordinator = w.coordinator; nodes = w.nodes.items; packets = w.packets.items }) };
}

impl World {
    /// A new world, with one list of opening balances a participant: 1 to 8 lists, no balance negative.
    pub fn new(openings: List<List<(GrainId, i64)>>, alloc: Global) -> Result<World, AllocError>
        requires few { length openings ≤ 8 }
        requires balances { IsOpening openings }
        ensures { IfOk result (λ made. made ≡ begin openings) }
    {
        let nodes = nodes_of(openings.as_slice(), alloc)?;
        Ok(World {
            coordinator: Coordinator::new(alloc),
            nodes,
            packets: Vec::new(alloc),
            alloc,
        })
    }

    /// How many packets were sent, at most 4294967296.
    pub fn packets(&self) -> u64
        ensures count { result ≡ length self.now.packets }
        ensures limit { result ≤ 4294967296 }
    {
        self.packets.len() as u64
    }

    /// The coordinator's commits in their order.
    pub fn commits(&self) -> &[TxnId]
        ensures { result.now ≡ self.now.coordinator.commits }
    {
        self.coordinator.commits()
    }

    /// How many transactions wait for votes.
    pub fn pending(&self) -> u64
        ensures { result ≡ length self.now.coordinator.pending }
    {
        self.coordinator.pending()
    }

    /// A participant's log, none exactly where it isn't there.
    pub fn log(&self, node: u8) -> Option<&[NodeEntry]>
        ensures some { IfSome result (λ log. (node < length self.now.nodes) × (log.now ≡ log_at self.now.nodes node)) }
        ensures none { IfNone result (length self.now.nodes ≤ node) }
    {
        match self.nodes.get(node as usize) {
            Some(node) => Some(node.log()),
            None => None,
        }
    }

    /// How many prepared transactions without a decision a participant has, 0 where it isn't there.
    pub fn waiting(&self, node: u8) -> u64
        ensures { result ≡ waiting self.now node }
    {
        match self.nodes.get(node as usize) {
            Some(node) => node.undecided().len() as u64,
            None => 0,
        }
    }

    /// A grain's balance, none exactly where the participant or the grain isn't there.
    pub fn balance(&self, node: u8, grain: GrainId) -> Option<i64>
        ensures { result ≡ balance_in self.now.nodes node grain }
    {
        match self.nodes.get(node as usize) {
            Some(node) => node.balance(grain),
            None => None,
        }
    }

    /// An event happens. Without memory nothing changes.
    pub fn step(&mut self, event: WorldEvent) -> Result<(), AllocError>
        ensures ok { OnOk result (self.new ≡ step self.old event) }
        ensures kept { OnErr result (self.new ≡ self.old) }
    {
        match event {
            WorldEvent::Start { parts } => self.start(parts.as_slice()),
            WorldEvent::Deliver { packet } => self.deliver(packet),
            WorldEvent::NudgeCoordinator => self.nudge_coordinator(),
            WorldEvent::Nudge { node } => self.nudge(node),
            WorldEvent::RestartCoordinator => {
                self.restart_coordinator();
                Ok(())
            }
            WorldEvent::Restart { .. } => Ok(()),
        }
    }

    // A transaction begins, where its lists are those of participants.
    fn start(&mut self, lists: &[List<Shift>]) -> Result<(), AllocError>
        ensures ok { OnOk result (self.new ≡ step self.old (Start lists.now)) }
        ensures kept { OnErr result (self.new ≡ self.old) }
    {
        if lists.len() > 8 {
            return Ok(());
        }
        let parts = parts_of(lists, self.alloc)?;
        if !are_parts(&self.nodes, parts.as_slice()) {
            return Ok(());
        }
        begin(&mut self.coordinator, &mut self.packets, parts)
    }

    // A packet is handed to its receiver.
    fn deliver(&mut self, number: u32) -> Result<(), AllocError>
        ensures ok { OnOk result (self.new ≡ step self.old (Deliver number)) }
        ensures kept { OnErr result (self.new ≡ self.old) }
    {
        let Some(sent) = self.packets.get(number as usize) else {
            return Ok(());
        };
        let packet = sent.copy()?;
        let Some(to) = receiver(&packet) else {
            return tell(&mut self.coordinator, &mut self.packets, &packet);
        };
        if to as usize >= self.nodes.len() {
            return Ok(());
        }
        hand(&mut self.nodes[to as usize], &mut self.packets, &packet)
    }

    // The coordinator is nudged.
    fn nudge_coordinator(&mut self) -> Result<(), AllocError>
        ensures ok { OnOk result (self.new ≡ step self.old NudgeCoordinator) }
        ensures kept { OnErr result (self.new ≡ self.old) }
    {
        let sent = self.coordinator.nudge()?;
        send(&mut self.packets, sent)
    }

    // A participant is nudged.
    fn nudge(&mut self, number: u8) -> Result<(), AllocError>
        ensures ok { OnOk result (self.new ≡ step self.old (Nudge number)) }
        ensures kept { OnErr result (self.new ≡ self.old) }
    {
        let Some(node) = self.nodes.get(number as usize) else {
            return Ok(());
        };
        let sent = node.nudge()?;
        send(&mut self.packets, sent)
    }

    // The coordinator begins again, where an epoch is left.
    fn restart_coordinator(&mut self)
        ensures { self.new ≡ step self.old RestartCoordinator }
    {
        if self.coordinator.epoch() < 4294967295 {
            self.coordinator.restart();
        }
    }
}

// The participant that a packet is for, none where it is for the coordinator.
fn receiver(packet: &Packet) -> Option<u8>
    ensures { result ≡ receiver_of packet.now }
{
    match packet {
        Packet::Prepare { to, .. } => Some(*to),
        Packet::Decision { to, .. } => Some(*to),
        Packet::Vote { .. } | Packet::Ask { .. } => None,
    }
}
