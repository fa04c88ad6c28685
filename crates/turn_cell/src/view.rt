// What a pass knows. No value of these types is made.
use std::collections::LinkedList;

/// One event of the history, with its reply and the number of the pass that put it.
pub struct Entry<E, R> {
    /// The number of the pass.
    pub by: LinkedList<u64>,
    /// What was put.
    pub event: E,
    /// What it was answered.
    pub reply: R,
}

/// What a pass keeps of another that was joined into it.
pub struct Kept<E, R> {
    /// The number of the other pass.
    pub number: LinkedList<u64>,
    /// All entries of that number.
    pub mine: LinkedList<Entry<E, R>>,
}

/// What a pass knows of numbers and of entries.
pub struct Hand<E, R> {
    /// Whether calls can be made: false once the pass was joined into another.
    pub live: bool,
    /// The number of the pass. No other pass of the cell has it.
    pub number: LinkedList<u64>,
    /// How many passes were split off from this one.
    pub splits: u64,
    /// The entries of this pass, in order.
    pub mine: LinkedList<Entry<E, R>>,
    /// The numbers of the passes that were split off from this one, or from one that was joined into it.
    pub split_off: LinkedList<LinkedList<u64>>,
    /// What is kept of the passes that were joined into this one, or into one that was joined into it.
    pub joined: LinkedList<Kept<E, R>>,
}

/// What a pass knows.
pub struct View<T, E, R> {
    /// The object as the cell was made with it.
    pub first: T,
    /// The history, as far as the pass has seen it.
    pub seen: LinkedList<Entry<E, R>>,
    /// What a pass that was joined into this one had seen, until the next load.
    pub told: LinkedList<Entry<E, R>>,
    /// Whether the pass has the turn.
    pub holds: bool,
    /// Its number and its entries.
    pub hand: Hand<E, R>,
}
