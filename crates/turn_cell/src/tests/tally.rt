// A number, and the list of what was added to it.
ghost use Rattle.std.specs.Prelude.{◌≡◌, ℕ, ◌+◌, ◌%◌, ◌^◌, List, [], ◌∷◌, ◌++◌};

use crate::TurnObject;
use std::alloc::{AllocError, Global};
use std::marker::Model;

/// An object that adds up the numbers that are put, as long as it has room.
#[derive(Drop)]
pub struct Tally {
    number: u64,
    added: Vec<u64>,
    room: usize,
}

impl Model for Tally {
    ghost Value = { ℕ × List ℕ };

    ghost view = { λ t. (t.number, t.added.items) };
}

/// The event that adds this number.
#[derive(Drop, Clone, Copy, PartialEq)]
pub struct Add(pub u64);

impl Tally {
    // A tally at 0, which takes so many events.
    pub fn new(alloc: Global, room: usize) -> Tally
        ensures { result ≡ (0, []) }
    {
        Tally {
            number: 0,
            added: Vec::new(alloc),
            room,
        }
    }

    /// The sum.
    pub fn number(&self) -> u64
        ensures { result ≡ self.now.0 }
    {
        self.number
    }

    /// How many events it took.
    pub fn count(&self) -> usize {
        self.added.len()
    }
}

impl TurnObject for Tally {
    type Event = Add;

    type Reply = u64;

    type Question = ();

    type Answer = u64;

    ghost State = { ℕ × List ℕ };

    ghost state = { λ t. t };

    ghost after = { λ s e. ((s.0 + e.0) % 2 ^ 64, s.1 ++ e.0 ∷ []) };

    ghost reply = { λ s e. (s.0 + e.0) % 2 ^ 64 };

    ghost answer = { λ s q. s.0 };

    ghost spares = { λ s e. ⊥ };

    ghost tells = { λ s q. Unit {0} };

    ghost some_object = { (0, []) };

    fn step(&mut self, event: Add) -> Result<u64, (AllocError, Add)> {
        if self.added.len() >= self.room || self.added.push(event.0).is_err() {
            return Err((AllocError, event));
        }
        self.number = self.number.wrapping_add(event.0);
        Ok(self.number)
    }

    fn ask(&self, _question: &()) -> Result<u64, AllocError> {
        Ok(self.number)
    }
}
