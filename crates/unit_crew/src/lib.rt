//! What one worker of a run does: it carries units, one line's and its children at a time, over a core that others may share.
//!
//! [`carry_lines`] is the whole of it. What a worker knows of its units is `IsCrew`, which rests on nothing that others do; that
//! its units are through it knows if nobody else made an event of them (`AreThrough`), and what it promises of its own events is
//! `KeepsPromise`. `laws` says how that stays until all have given back what they share.
#![tactic(auto)]

mod crew;
mod laws;
mod lines;
mod looks;
mod rounds;

pub use laws::what_is_through_stays;
pub use rounds::carry_lines;
