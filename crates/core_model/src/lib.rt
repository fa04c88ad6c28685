//! The transactional core as a pure model: its state, what each event does and answers, and the words in which its laws are
//! told (`core_laws` has these). `docs/CORE.md` tells the model in plain words.
//!
//! There is no code here but types and their copies.
#![tactic(auto)]

mod copies;
mod effects;
mod events;
mod phases;
mod questions;

pub use effects::{Effect, Read};
pub use events::{CoreEvent, CoreReply};
pub use phases::{Phase, Verdict};
pub use questions::{AskAnswer, BatchView, CoreAnswer, CoreQuestion, KnownOutcome, SettlerWork};
