ghost use Rattle.std.specs.Prelude.{◌≡◌, ◌<◌, ◌≤◌, ◌+◌, ◌-◌, [], ◌∷◌, ◌++◌, position, slice_get, OnOk, IfSome};
ghost use Rattle.std.specs.List.{count_by};
ghost use Rattle.std.specs.VecDeque.{deque_len, deque_capacity};
ghost use Rattle.core_parts.specs.Pairs.{is_pair, has_pair, without_first, other_pairs};

use base_types::{GrainId, UnitNo};
use std::alloc::{AllocError, Global};
use std::collections::VecDeque;
use std::marker::Model;

/// The units that are decided, each with a grain that has the decision to learn, in the order in which they came.
/// Contracts see the pairs, and the spare: how many more fit without memory.
#[derive(Drop)]
pub struct LearnQueue {
    pairs: VecDeque<(UnitNo, GrainId)>,
}

impl Model for LearnQueue {
    ghost use Rattle.std.specs.Prelude.{◌-◌};
    ghost use Rattle.std.specs.VecDeque.{deque_len, deque_capacity};
    ghost use Rattle.core_parts.specs.Room.{PairsInRoom};

    ghost Value = { PairsInRoom };

    ghost view = { λ q. record { pairs = q.pairs.items; spare = deque_capacity q.pairs - deque_len q.pairs } };
}

impl LearnQueue {
    /// No pairs. Takes no memory.
    pub fn new(alloc: Global) -> LearnQueue
        ensures { result.pairs ≡ [] }
    {
        LearnQueue {
            pairs: VecDeque::new(alloc),
        }
    }

    /// Makes the spare at least `count`. The pairs stay as they were, whether there was memory or not.
    pub fn reserve(&mut self, count: usize) -> Result<(), AllocError>
        ensures pairs { self.new.pairs ≡ self.old.pairs }
        ensures ok { OnOk result (count ≤ self.new.spare) }
        ensures spare { self.old.spare ≤ self.new.spare }
    {
        self.pairs.reserve(count)
    }

    /// Appends a pair, in room that was made. Takes no memory.
    pub fn push(&mut self, unit: UnitNo, grain: GrainId)
        requires { 0 < self.old.spare }
        ensures pairs { self.new.pairs ≡ self.old.pairs ++ (unit, grain) ∷ [] }
        ensures spare { self.new.spare + 1 ≡ self.old.spare }
    {
        self.pairs.push_back_reserved((unit, grain));
    }

    /// The pair that came first, none where there is none.
    pub fn first(&self) -> Option<(UnitNo, GrainId)>
        ensures { result ≡ slice_get self.now.pairs 0 }
    {
        self.pairs.front().copied()
    }

    /// Whether the grain has the unit's decision to learn. Looks at the pairs up to this one.
    pub fn contains(&self, unit: UnitNo, grain: GrainId) -> bool
        ensures { result ≡ has_pair self.now.pairs unit grain }
    {
        self.pairs.iter().any(|pair| is_pair(pair, unit, grain))
    }

    /// Takes off the first pair of this unit and this grain, if there is one: where it is there once, all others stay.
    /// Takes no memory, and no room away. Looks at the pairs up to this one, and moves those before it or those behind
    /// it, whichever are fewer.
    pub fn remove(&mut self, unit: UnitNo, grain: GrainId)
        ensures first { self.new.pairs ≡ without_first self.old.pairs unit grain }
        ensures once { count_by (is_pair unit grain) self.old.pairs ≤ 1 → self.new.pairs ≡ other_pairs self.old.pairs unit grain }
        ensures spare { self.old.spare ≤ self.new.spare }
    {
        if let Some(at) = place_of(&self.pairs, unit, grain) {
            self.pairs.remove(at);
        }
    }
}

// Where the first pair of this unit and this grain stands.
fn place_of(pairs: &VecDeque<(UnitNo, GrainId)>, unit: UnitNo, grain: GrainId) -> Option<usize>
    ensures place { result ≡ position (is_pair unit grain) pairs.now.items }
    ensures within { IfSome result (λ at. at < deque_len pairs.now) }
{
    pairs.iter().position(|pair| is_pair(pair, unit, grain))
}

// Whether the pair is of this unit and this grain.
fn is_pair(pair: &(UnitNo, GrainId), unit: UnitNo, grain: GrainId) -> bool
    ensures { result ≡ is_pair unit grain pair.now }
{
    pair.0 == unit && pair.1 == grain
}
