ghost use Rattle.std.specs.Prelude.{◌≡◌, ◌≤◌, ◌+◌, ◌++◌, length, OnOk, OnErr, vec_len, vec_capacity};
ghost use Rattle.silo_nodes.specs.Participants.{IsApart};
ghost use Rattle.two_silos.specs.Links.{has_room, sent_on, HasHeard, Handed, Begun};

use base_types::List;
use silo_nodes::{Coordinator, Packet, Part, Participant};
use std::alloc::AllocError;

// How many packets there may be: they are numbered from 0 to 4294967295.
const PACKETS: u64 = 4294967296;

// The last number of a transaction.
const LAST: u64 = 4294967295;

// Whether these packets may be sent.
fn has_room(packets: &[Packet], sent: &List<Packet>) -> bool
    ensures { result ≡ has_room packets.now sent.now }
{
    match packets.len().checked_add(sent.len()) {
        Some(count) => count as u64 <= PACKETS,
        None => false,
    }
}

// Appends packets for which there is room.
fn append(packets: &mut Vec<Packet>, sent: List<Packet>)
    requires room { vec_len packets.old + length sent ≤ vec_capacity packets.old }
    ensures { packets.new.items ≡ packets.old.items ++ sent }
{
    let mut more = sent.into_vec();
    let moved = packets.append(&mut more);
    prove!(moved.is_ok());
}

/// Sends packets, where no number is too great. Without memory nothing changes.
pub fn send(packets: &mut Vec<Packet>, sent: List<Packet>) -> Result<(), AllocError>
    ensures ok { OnOk result (packets.new.items ≡ sent_on packets.old.items sent) }
    ensures kept { OnErr result (packets.new.items ≡ packets.old.items) }
{
    if !has_room(packets, &sent) {
        return Ok(());
    }
    packets.reserve(sent.len())?;
    append(packets, sent);
    Ok(())
}

/// Hands a packet to the coordinator. Without memory nothing changes.
pub fn tell(
    coordinator: &mut Coordinator,
    packets: &mut Vec<Packet>,
    packet: &Packet,
) -> Result<(), AllocError>
    ensures ok { OnOk result (HasHeard coordinator.old packets.old.items packet.now coordinator.new packets.new.items) }
    ensures kept { OnErr result ((coordinator.new ≡ coordinator.old) × (packets.new.items ≡ packets.old.items)) }
{
    let sent = coordinator.replies(packet)?;
    if !has_room(packets, &sent) {
        return Ok(());
    }
    packets.reserve(sent.len())?;
    coordinator.hear(packet)?;
    append(packets, sent);
    Ok(())
}

/// Hands a packet to a participant. Without memory nothing changes.
pub fn hand(
    node: &mut Participant,
    packets: &mut Vec<Packet>,
    packet: &Packet,
) -> Result<(), AllocError>
    requires apart { IsApart packet.now }
    ensures ok { OnOk result (Handed node.old packets.old.items packet.now node.new packets.new.items) }
    ensures kept { OnErr result ((node.new ≡ node.old) × (packets.new.items ≡ packets.old.items)) }
{
    let sent = node.answers(packet)?;
    if !has_room(packets, &sent) {
        return Ok(());
    }
    packets.reserve(sent.len())?;
    node.learn(packet)?;
    append(packets, sent);
    Ok(())
}

/// Begins a transaction of these parts. Without memory nothing changes.
pub fn begin(
    coordinator: &mut Coordinator,
    packets: &mut Vec<Packet>,
    parts: List<Part>,
) -> Result<(), AllocError>
    ensures ok { OnOk result (Begun coordinator.old packets.old.items parts coordinator.new packets.new.items) }
    ensures kept { OnErr result ((coordinator.new ≡ coordinator.old) × (packets.new.items ≡ packets.old.items)) }
{
    if coordinator.number() >= LAST {
        return Ok(());
    }
    let sent = coordinator.requests(parts.as_slice())?;
    if !has_room(packets, &sent) {
        return Ok(());
    }
    packets.reserve(sent.len())?;
    coordinator.begin(parts)?;
    append(packets, sent);
    Ok(())
}
