ghost use Rattle.std.specs.Prelude.{◌≡◌, ◌<◌, ◌≤◌, ◌++◌, ◌∷◌, [], ◌==◌, filter, length, position, if◌then◌else◌, IfOk, OnOk, OnErr};
ghost use Rattle.std.specs.List.{list_any};
ghost use Rattle.std.specs.Option.{option_copied};
ghost use Rattle.silo_nodes.specs.Packets.{Prepare, same_txn};
ghost use Rattle.silo_nodes.specs.Coordinators.{parts_from, part_of, prepare_each, decide_each, find, without, is_unanimous, with_yes, agreed, is_late, reminders};

use crate::packets::{Packet, Shift, TxnId, is_same};
use base_types::List;
use std::alloc::{AllocError, Global};

/// What a transaction moves at one participant: at least one shift.
#[derive(Drop)]
pub struct Part {
    pub node: u8,
    pub shifts: List<Shift>,
}

/// A transaction that isn't decided: its parts by ascending node, and who said yes, each once.
#[derive(Drop)]
pub struct Pending {
    pub txn: TxnId,
    pub parts: List<Part>,
    pub yes: List<u8>,
}

/// The parts of a transaction that has one list of shifts a node: of the nodes that have shifts.
pub fn parts_of(lists: &[List<Shift>], alloc: Global) -> Result<List<Part>, AllocError>
    requires few { length lists.now ≤ 8 }
    ensures { IfOk result (λ parts. parts ≡ parts_from 0 lists.now) }
{
    let mut parts = Vec::new(alloc);
    add_parts(&mut parts, lists)?;
    Ok(List::from_vec(parts))
}

// Appends the parts of the nodes that have shifts.
fn add_parts(parts: &mut Vec<Part>, lists: &[List<Shift>]) -> Result<(), AllocError>
    requires few { length lists.now ≤ 8 }
    ensures { OnOk result (parts.new.items ≡ parts.old.items ++ parts_from 0 lists.now) }
{
    for (at, shifts) in lists.iter().enumerate() {
        add_part(parts, at as u8, shifts)?;
    }
    Ok(())
}

// Appends the part of a node, where it has shifts.
fn add_part(parts: &mut Vec<Part>, node: u8, shifts: &List<Shift>) -> Result<(), AllocError>
    ensures { OnOk result (parts.new.items ≡ parts.old.items ++ part_of node shifts.now) }
{
    if shifts.is_empty() {
        return Ok(());
    }
    let shifts = shifts.copied()?;
    parts.push(Part { node, shifts })?;
    Ok(())
}

/// Appends the requests to these participants.
pub fn prepare_each(sent: &mut Vec<Packet>, txn: TxnId, parts: &[Part]) -> Result<(), AllocError>
    ensures { OnOk result (sent.new.items ≡ sent.old.items ++ prepare_each txn parts.now) }
{
    for part in parts {
        request(sent, txn, part)?;
    }
    Ok(())
}

/// Appends the decision to these participants.
pub fn decide_each(
    sent: &mut Vec<Packet>,
    txn: TxnId,
    commit: bool,
    parts: &[Part],
) -> Result<(), AllocError>
    ensures { OnOk result (sent.new.items ≡ sent.old.items ++ decide_each txn commit parts.now) }
{
    for part in parts {
        let to = part.node;
        sent.push(Packet::Decision { txn, to, commit })?;
    }
    Ok(())
}

/// Appends the requests that a nudge sends: to each participant of each pending transaction that hasn't said yes.
pub fn remind_all(sent: &mut Vec<Packet>, pending: &[Pending]) -> Result<(), AllocError>
    ensures { OnOk result (sent.new.items ≡ sent.old.items ++ reminders pending.now) }
{
    for one in pending {
        remind(sent, one.txn, one.yes.as_slice(), one.parts.as_slice())?;
    }
    Ok(())
}

// Appends the requests to the participants that haven't said yes.
fn remind(sent: &mut Vec<Packet>, txn: TxnId, said: &[u8], parts: &[Part]) -> Result<(), AllocError>
    ensures { OnOk result (sent.new.items ≡ sent.old.items ++ prepare_each txn (filter (is_late said.now) parts.now)) }
{
    for part in parts {
        remind_one(sent, txn, said, part)?;
    }
    Ok(())
}

// Appends the request to one participant, where it hasn't said yes.
fn remind_one(
    sent: &mut Vec<Packet>,
    txn: TxnId,
    said: &[u8],
    part: &Part,
) -> Result<(), AllocError>
    ensures { OnOk result (sent.new.items ≡ sent.old.items ++ (if is_late said.now part.now then Prepare txn part.now.node part.now.shifts ∷ [] else [])) }
{
    if has_said(said, part.node) {
        return Ok(());
    }
    request(sent, txn, part)
}

// Appends the request to one participant.
fn request(sent: &mut Vec<Packet>, txn: TxnId, part: &Part) -> Result<(), AllocError>
    ensures { OnOk result (sent.new.items ≡ sent.old.items ++ Prepare txn part.now.node part.now.shifts ∷ []) }
{
    let shifts = part.shifts.copied()?;
    let to = part.node;
    sent.push(Packet::Prepare { txn, to, shifts })?;
    Ok(())
}

// Whether the participant is among those who said yes.
fn has_said(said: &[u8], node: u8) -> bool
    ensures { result ≡ list_any (λ n. n == node) said.now }
{
    said.iter().any(|one| *one == node)
}

/// The pending transaction of that name, none where it isn't pending.
pub fn find(pending: &[Pending], txn: TxnId) -> Option<&Pending>
    ensures { option_copied result ≡ find txn pending.now }
{
    for one in pending {
        if is_same(one.txn, txn) {
            return Some(one);
        }
    }
    None
}

/// Whether each participant has said yes, where one more does.
pub fn has_all(pending: &Pending, from: u8) -> bool
    ensures { result ≡ is_unanimous pending.now.parts (from ∷ pending.now.yes) }
{
    for part in pending.parts.as_slice() {
        if !has_now(pending.yes.as_slice(), from, part.node) {
            return false;
        }
    }
    true
}

// Whether the participant is the one who says yes now, or among those who said it.
fn has_now(said: &[u8], from: u8, node: u8) -> bool
    ensures { result ≡ list_any (λ n. n == node) (from ∷ said.now) }
{
    from == node || has_said(said, node)
}

/// Takes the transaction from the pending ones.
pub fn close(pending: &mut Vec<Pending>, txn: TxnId)
    ensures { pending.new.items ≡ without txn pending.old.items }
{
    pending.retain(|one| !is_same(one.txn, txn));
}

/// Keeps a yes of the transaction. Without memory nothing changes.
pub fn agree(pending: &mut Vec<Pending>, txn: TxnId, from: u8) -> Result<(), AllocError>
    ensures ok { OnOk result (pending.new.items ≡ agreed txn from pending.old.items) }
    ensures kept { OnErr result (pending.new.items ≡ pending.old.items) }
{
    let Some(at) = place_of(pending, txn) else {
        return Ok(());
    };
    add_yes(&mut pending[at].yes, from)
}

// Where the transaction stands among the pending ones.
fn place_of(pending: &[Pending], txn: TxnId) -> Option<usize>
    ensures { result ≡ position (λ p. same_txn p.txn txn) pending.now }
{
    pending.iter().position(|one| is_same(one.txn, txn))
}

// Keeps a yes, once. Without memory nothing changes.
fn add_yes(said: &mut List<u8>, from: u8) -> Result<(), AllocError>
    ensures ok { OnOk result (said.new ≡ with_yes from said.old) }
    ensures kept { OnErr result (said.new ≡ said.old) }
{
    if has_said(said.as_slice(), from) {
        return Ok(());
    }
    said.push(from)?;
    Ok(())
}
