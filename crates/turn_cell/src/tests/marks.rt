// Numbers that were marked. To the laws it is the function that says how often each number was.
ghost use Rattle.std.specs.Prelude.{◌≡◌, ℕ, ◌+◌, ◌==◌, List, [], length, cond, count_by};

use crate::TurnObject;
use std::alloc::{AllocError, Global};
use std::marker::Model;

/// An object that keeps the numbers that are put.
#[derive(Drop)]
pub struct Marks {
    marked: Vec<u64>,
}

impl Model for Marks {
    ghost Value = { List ℕ };

    ghost view = { λ m. m.marked.items };
}

impl Marks {
    /// No numbers.
    pub fn new(alloc: Global) -> Marks
        ensures { result ≡ [] }
    {
        Marks {
            marked: Vec::new(alloc),
        }
    }

    /// How many it has.
    pub fn count(&self) -> usize
        ensures { result ≡ length self.now }
    {
        self.marked.len()
    }

    // How often the number was marked.
    fn times(&self, number: u64) -> usize
        ensures { result ≡ count_by (λ x. x == number) self.now }
    {
        self.marked.iter().filter(|x| **x == number).count()
    }
}

impl TurnObject for Marks {
    type Event = u64;

    type Reply = usize;

    type Question = u64;

    type Answer = usize;

    ghost State = { ℕ → ℕ };

    ghost state = { λ m n. count_by (λ x. x == n) m };

    ghost after = { λ s e n. s n + cond (e == n) 1 0 };

    ghost reply = { λ s e. s e + 1 };

    ghost answer = { λ s q. s q };

    ghost spares = { λ s e. ⊥ };

    ghost tells = { λ s q. Unit {0} };

    ghost some_object = { [] };

    fn step(&mut self, event: u64) -> Result<usize, (AllocError, u64)> {
        if self.marked.push(event).is_err() {
            return Err((AllocError, event));
        }
        Ok(self.times(event))
    }

    fn ask(&self, question: &u64) -> Result<usize, AllocError> {
        Ok(self.times(*question))
    }
}
