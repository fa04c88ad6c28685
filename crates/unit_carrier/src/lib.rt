//! The units that a run on one thread carries: how a line's unit and a child come among them, who of them can move, and their
//! steps.
//!
//! [`Agents`] are carried units in number order. What is known of them is `AreCarried`, over a core that nobody else puts events
//! into (`HasCoreAlone`); `laws` says what leaves that so. Who shares a core keeps its own knowledge of the units that it carries, and
//! begins a line by `start_line`.
#![tactic(auto)]

mod agents;
mod laws;
mod line_start;
mod moves;

pub use agents::{Agents, Found, Went};
pub use laws::others_leave_the_carried;
pub use line_start::{begin_line, start_line};
