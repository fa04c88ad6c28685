ghost use Rattle.std.specs.Prelude.{◌≡◌, ◌≤◌, ◌<◌, ◌+◌, ◌++◌, [], ◌∷◌, Ok, IfOk};
ghost use Rattle.promise_spec.specs.Loads.{account, atm, first_method, transfer_by, transfers_after, deposits_from, load_calls};
ghost use Rattle.bank_load.specs.Requests.{numbered_from};

use crate::draws::{drawn, next_number};
use base_types::{Call, GrainId, List, Value};
use request_wire::Line;
use std::alloc::{AllocError, Global};

/// How many accounts there are, into each of which the first lines deposit.
const ACCOUNTS: u32 = 64;

/// A deposit of 1000 into an account.
fn deposit(alloc: Global, key: u32) -> Result<Call, AllocError>
    ensures { IfOk result (λ call. call ≡ first_method (account key) (1000 ∷ [])) }
{
    let mut args = List::new(alloc);
    args.push(Value::Int(1000))?;
    Ok(Call {
        grain: GrainId { kind: 0, key },
        method: 0,
        args,
    })
}

/// A transfer between two accounts.
fn transfer(alloc: Global, from: u32, to: u32, amount: u32) -> Result<Call, AllocError>
    ensures { IfOk result (λ call. call ≡ first_method atm (from ∷ to ∷ amount ∷ [])) }
{
    let mut args = List::new(alloc);
    args.push(Value::Int(i64::from(from)))?;
    args.push(Value::Int(i64::from(to)))?;
    args.push(Value::Int(i64::from(amount)))?;
    Ok(Call {
        grain: GrainId { kind: 1, key: 0 },
        method: 0,
        args,
    })
}

/// The transfer of which this number gives the first account, and the two after it the second one and the amount.
fn transfer_by(alloc: Global, x: u64) -> Result<Call, AllocError>
    ensures { IfOk result (λ call. call ≡ transfer_by x) }
{
    let y = next_number(x);
    let z = next_number(y);
    transfer(
        alloc,
        drawn(x, ACCOUNTS),
        drawn(y, ACCOUNTS),
        drawn(z, 100) + 1,
    )
}

/// The deposits, as the first lines.
fn deposit_lines(alloc: Global) -> Result<List<Line>, AllocError>
    ensures { IfOk result (λ lines. lines ≡ numbered_from 0 (deposits_from 0 64)) }
{
    let mut lines = List::new(alloc);
    for key in 0..ACCOUNTS {
        let call = deposit(alloc, key)?;
        lines.push(Line {
            number: key + 1,
            what: Ok(call),
        })?;
    }
    Ok(lines)
}

/// Appends so many transfers, of the numbers after `seed`, as the lines behind the deposits.
fn push_transfers(
    alloc: Global,
    lines: &mut List<Line>,
    transfers: u32,
    seed: u64,
) -> Result<(), AllocError>
    requires { transfers ≤ 100000 }
    ensures { IfOk result (λ _. lines.new ≡ lines.old ++ numbered_from 64 (transfers_after seed transfers)) }
{
    let mut x = seed;
    for done in 0..transfers {
        x = next_number(x);
        let call = transfer_by(alloc, x)?;
        lines.push(Line {
            number: done + 65,
            what: Ok(call),
        })?;
        x = next_number(next_number(x));
    }
    Ok(())
}

/// The lines of a load: a deposit into each of 64 accounts, and so many transfers between them, at most 100,000, drawn from the seed on.
/// An error where there is no memory.
#[tactic(auto, using(crate::proofs::Numbering::load_numbered))]
pub fn load_lines(alloc: Global, transfers: u32, seed: u64) -> Result<List<Line>, AllocError>
    requires { transfers ≤ 100000 }
    ensures { IfOk result (λ lines. lines ≡ numbered_from 0 (load_calls transfers seed)) }
{
    let mut lines = deposit_lines(alloc)?;
    push_transfers(alloc, &mut lines, transfers, seed)?;
    Ok(lines)
}
