//! Commit records: the units that a batch commits, as the blocks of the log spell them, and the sealing of a block.
//!
//! [`encode_block`] spells a batch's block and [`encode_upgrade`] that of an upgrade, each with its session, and [`decode_body`] reads a
//! body back, whichever it says, by the tables of `docs/FORMATS.md`; [`read_front`] reads one in a log of either format, and leaves what
//! follows. [`encode_piece`] spells a block of the checkpoint that a log may begin with, and [`get_piece`] reads its body.
//! [`seal`] puts a block behind the closed gate of a slot's log and opens that gate.
#![tactic(auto)]

mod bodies;
mod contents;
mod encoding;
mod gate;
mod grains;
mod laws;
mod pieces;
mod records;
mod upgrades;
mod writes;

pub use contents::{Body, decode_body, read_front};
pub use encoding::encode_block;
pub use gate::{Sealing, seal};
pub use laws::{
    bodies_are_apart, bodies_migrate, first_deposit_is_spelled, readings_agree,
    small_upgrade_is_spelled, spellings_are_apart,
};
pub use pieces::{encode_piece, get_piece, put_piece};
pub use records::{CheckpointHead, CheckpointPiece, CommitRecord, Named, Written};
pub use upgrades::encode_upgrade;
pub use writes::is_above;
