//! An object that threads share under one turn.
//!
//! A thread calls the object by a pass. All calls stand in one legal history: each reply is that of the state which the entries before it leave. A pass knows how much of the history it has seen, and which entries are its own.
#![tactic(auto)]

mod calls;
mod cell;
mod object;
mod place;
mod steps;
#[cfg(test)]
mod tests;
mod turn;
mod view;

pub use cell::{Pass, TurnCell, Turnstile};
pub use object::TurnObject;
pub use place::Place;
pub use steps::{OneHistory, Rejoining, Splitting};
pub use view::{Entry, Hand, Kept, View};
