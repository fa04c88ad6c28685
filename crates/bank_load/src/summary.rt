ghost use Rattle.std.specs.Prelude.{◌≡◌, true, ◌^◌, ◌≤ℤ◌, pos, neg_ℤ, IfOk, string_bytes};
ghost use Rattle.core_model.specs.LegalRuns.{ends};
ghost use Rattle.history_core.specs.ClosedUnits.{last_state};
ghost use Rattle.history_core.specs.Cores.{run_of};
ghost use Rattle.promise_spec.specs.Loads.{account, balance_in};
ghost use Rattle.bank_load.specs.Summaries.{said_line, summary_line, kept_balance, total_kept};

use base_types::{GrainId, List, State, Value};
use history_core::Core;
use std::alloc::{AllocError, Global};

/// The balance of an account, 0 where no committed unit wrote one.
fn balance(core: &Core, key: u32) -> i128
    requires keeps { core.now.keeps ≡ true }
    ensures low { neg_ℤ (pos (2 ^ 63)) ≤ℤ result }
    ensures high { result ≤ℤ pos (2 ^ 63) }
    ensures value { result ≡ kept_balance (last_state (ends (run_of core.now)) (account key)) }
{
    match core.last_state(GrainId { kind: 0, key }) {
        Some(state) => first_number(state),
        None => 0,
    }
}

/// The number that a state has first, or 0.
fn first_number(state: &State) -> i128
    ensures low { neg_ℤ (pos (2 ^ 63)) ≤ℤ result }
    ensures high { result ≤ℤ pos (2 ^ 63) }
    ensures value { result ≡ balance_in state.now }
{
    match state.get(0) {
        Some(Value::Int(number)) => *number as i128,
        Some(Value::Text(_)) => 0,
        None => 0,
    }
}

/// The sum of the balances of the 64 accounts, as the last committed units left them, in a core that keeps the last states.
pub fn total_balance(core: &Core) -> i128
    requires keeps { core.now.keeps ≡ true }
    ensures { result ≡ total_kept (ends (run_of core.now)) 64 }
{
    let mut total = 0;
    for key in 0..64u32 {
        total += balance(core, key);
    }
    total
}

/// The text of a summary.
fn summary_text(
    alloc: Global,
    aborted: usize,
    committed: usize,
    faulted: usize,
    requests: usize,
    total: i128,
) -> Result<String, AllocError>
    ensures { IfOk result (λ text. string_bytes text ≡ said_line aborted committed faulted requests total) }
{
    format!(in alloc;
        "{{\"aborted\":{aborted},\"committed\":{committed},\"faulted\":{faulted},\"requests\":{requests},\"total\":{total}}}\n"
    )
}

/// The one line that a load prints, with its line feed: how its lines ended, how many there are (`requests`), and the sum of the
/// balances. An error where there is no memory.
pub fn load_summary(
    alloc: Global,
    core: &Core,
    requests: usize,
    total: i128,
) -> Result<List<u8>, AllocError>
    ensures { IfOk result (λ text. text ≡ summary_line (ends (run_of core.now)).manager.settled requests total) }
{
    let ended = core.line_ends();
    let text = summary_text(
        alloc,
        ended.aborts,
        ended.values,
        ended.faults,
        requests,
        total,
    )?;
    Ok(List::from_vec(text.into_bytes()))
}
