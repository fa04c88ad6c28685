ghost use Rattle.std.specs.Prelude.{◌≡◌, ◌≤◌, ◌<◌, ◌+◌, ◌++◌, ◌∷◌, [], List, length, take, drop, vec_capacity, vec_len};
ghost use Rattle.base_types.specs.declared.calls.Value.{Value as GrainValue};
ghost use Rattle.script_meaning.specs.Play.{insert, is_below, writes_of, states_set};

use base_types::{GrainId, List, Outcome, State};
use script_holding::{Held, Holding};

/// Whether a grain comes before another: by type, then key.
fn is_below(one: GrainId, other: GrainId) -> bool
    ensures { result ≡ is_below one other }
{
    one.kind < other.kind || (one.kind == other.kind && one.key < other.key)
}

/// Where a grain stands in an ascending list.
fn place(writes: &[(GrainId, State)], grain: GrainId) -> usize
    ensures within { result ≤ length writes.now }
    ensures split { (state : List GrainValue) → insert (grain, state) writes.now ≡ take result writes.now ++ (grain, state) ∷ drop result writes.now }
{
    for (i, one) in writes.iter().enumerate() {
        if is_below(grain, one.0) {
            return i;
        }
    }
    writes.len()
}

/// One more grain in an ascending list. Takes no memory.
fn insert(writes: &mut Vec<(GrainId, State)>, grain: GrainId, state: State)
    requires { vec_len writes.old < vec_capacity writes.old }
    ensures items { writes.new.items ≡ insert (grain, state) writes.old.items }
    ensures len { vec_len writes.new ≡ vec_len writes.old + 1 }
    ensures capacity { vec_capacity writes.old ≤ vec_capacity writes.new }
{
    let at = place(writes.as_slice(), grain);
    let done = writes.insert(at, (grain, state));
    prove!(done.is_ok());
}

/// The grains that were set, ascending, with their working states. Takes no memory where there is room for them.
#[tactic(auto, using(crate::proofs::Orders::onto_push, crate::proofs::Orders::onto_none))]
fn ascending(mut held: Vec<Held>, mut writes: Vec<(GrainId, State)>) -> List<(GrainId, State)>
    requires none { writes.items ≡ [] }
    requires room { length held.items ≤ vec_capacity writes }
    ensures { result ≡ states_set held.items }
{
    while let Some(one) = held.pop() {
        if one.written {
            insert(&mut writes, one.grain, one.state);
        }
    }
    List::from_vec(writes)
}

/// What a unit that ended so has set: nothing, unless it ended with a value. Takes no memory where there is room.
pub fn written_by(
    outcome: &Outcome,
    has: Holding,
    writes: Vec<(GrainId, State)>,
) -> List<(GrainId, State)>
    requires none { writes.items ≡ [] }
    requires room { length has.held ≤ vec_capacity writes }
    ensures { result ≡ writes_of outcome.now has }
{
    match outcome {
        Outcome::Value(_) => ascending(has.into_held(), writes),
        Outcome::Fault(_) | Outcome::Aborted => List::from_vec(writes),
    }
}
