ghost use Rattle.std.specs.Prelude.{◌≡◌, ◌++◌, ◌%◌, ◌<◌, ◌==◌, ◌∷◌, [], if◌then◌else◌, IfOk, OnOk, FitsSigned, neg_ℤ};
ghost use Rattle.two_silos.specs.World.{WorldEvent};
ghost use Rattle.two_silos.specs.GeneratedEvents.{next_number, drawn, account, accounts, bank, other_than, payment, shifts_at, pay, picked};
ghost use mir.Syntax.{w64};

use crate::events::WorldEvent;
use base_types::{GrainId, List};
use silo_nodes::Shift;
use std::alloc::{AllocError, Global};

/// The generator's number after one more draw.
pub fn next_number(number: u64) -> u64
    ensures { result ≡ next_number number }
{
    ((number as u128 * 6364136223846793005 + 1442695040888963407) % 18446744073709551616) as u64
}

/// What is drawn with that number.
pub fn drawn(number: u64) -> u64
    ensures { result ≡ drawn number }
{
    number / 2147483648 / 4
}

/// Account k.
pub fn account(key: u32) -> GrainId
    ensures { result ≡ account key }
{
    GrainId { kind: 0, key }
}

/// The opening balances: account k, of 1000, at participant k mod 2, for k from 0 to 63.
pub fn bank(alloc: Global) -> Result<List<List<(GrainId, i64)>>, AllocError>
    ensures { IfOk result (λ made. made ≡ bank) }
{
    let openings = vec![in alloc; accounts(0, alloc)?, accounts(1, alloc)?]?;
    Ok(List::from_vec(openings))
}

// The opening balances of one participant.
fn accounts(first: u32, alloc: Global) -> Result<List<(GrainId, i64)>, AllocError>
    requires few { first < 2 }
    ensures { IfOk result (λ made. made ≡ accounts first 32) }
{
    let mut made = Vec::new(alloc);
    for at in 0..32u32 {
        made.push((account(first + 2 * at), 1000))?;
    }
    Ok(List::from_vec(made))
}

/// The account that is paid: another than the one that pays.
pub fn other_than(from: u64, to: u64) -> u64
    requires few { from < 64 }
    ensures { result ≡ other_than from to }
{
    if to == from { (from + 1) % 64 } else { to }
}

/// The start of a payment from one account to another.
pub fn pay(from: u32, to: u32, amount: i64, alloc: Global) -> Result<WorldEvent, AllocError>
    requires fits { FitsSigned w64 (neg_ℤ amount) }
    ensures { IfOk result (λ event. event ≡ pay from to amount) }
{
    let shifts = payment(from, to, amount);
    let first = shifts_at(0, &shifts, alloc)?;
    let second = shifts_at(1, &shifts, alloc)?;
    let parts = vec![in alloc; first, second]?;
    Ok(WorldEvent::Start {
        parts: List::from_vec(parts),
    })
}

// The shifts of a payment, by account.
fn payment(from: u32, to: u32, amount: i64) -> [Shift; 2]
    requires fits { FitsSigned w64 (neg_ℤ amount) }
    ensures { result ≡ payment from to amount }
{
    let paying = Shift {
        grain: account(from),
        delta: -amount,
    };
    let paid = Shift {
        grain: account(to),
        delta: amount,
    };
    if from < to {
        [paying, paid]
    } else {
        [paid, paying]
    }
}

// The shifts of one participant.
fn shifts_at(node: u32, shifts: &[Shift], alloc: Global) -> Result<List<Shift>, AllocError>
    ensures { IfOk result (λ made. made ≡ shifts_at node shifts.now) }
{
    let mut made = Vec::new(alloc);
    for shift in shifts {
        add_at(&mut made, node, *shift)?;
    }
    Ok(List::from_vec(made))
}

// Appends the shift, where it is of that participant.
fn add_at(made: &mut Vec<Shift>, node: u32, shift: Shift) -> Result<(), AllocError>
    ensures { OnOk result (made.new.items ≡ made.old.items ++ (if (shift.grain.key % 2) == node then shift ∷ [] else [])) }
{
    if shift.grain.key % 2 != node {
        return Ok(());
    }
    made.push(shift)?;
    Ok(())
}

/// The event that a draw from 0 to 63 picks, none for a delivery.
pub fn picked(draw: u64) -> Option<WorldEvent>
    ensures { result ≡ picked draw }
{
    match draw {
        0 => Some(WorldEvent::RestartCoordinator),
        1 => Some(WorldEvent::Restart { node: 0 }),
        2 => Some(WorldEvent::Restart { node: 1 }),
        3..=6 => Some(WorldEvent::NudgeCoordinator),
        7..=10 => Some(WorldEvent::Nudge { node: 0 }),
        11..=14 => Some(WorldEvent::Nudge { node: 1 }),
        _ => None,
    }
}
