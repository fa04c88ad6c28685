//! The nodes of two-phase commit between silos: packets, the coordinator, and the participants. Each is a
//! state machine with a log, and keeps beside it what its log tells, so that no packet walks the log. The
//! rules are told in `docs/TWO-SILOS.md`.
#![tactic(auto)]

mod cells;
mod coordinator;
mod packets;
mod participant;
mod parts;

pub use coordinator::Coordinator;
pub use packets::{NodeEntry, Packet, Shift, TxnId};
pub use participant::Participant;
pub use parts::{Part, Pending, parts_of};
