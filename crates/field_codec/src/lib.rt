//! The fields that a silo's files are made of. Each value has one spelling; `docs/FORMATS.md` has the tables.
//!
//! The `put_` calls append a spelling, and the `get_` calls read one from a place on: they answer the value and the
//! place behind it, or the first fault from left to right.
#![tactic(auto)]

mod calls;
mod faults;
mod formats;
mod laws;
mod numbers;
mod origins;
mod outcomes;
mod spelling;
mod texts;
mod units;
mod values;
mod versions;

pub use calls::{get_call, put_call};
pub use faults::CodecFault;
pub use formats::Format;
pub use laws::{first_version_is_spelled, spellings_are_apart};
pub use numbers::{get_count, get_u8, get_u16, get_u32, get_u64, put_u16, put_u32, put_u64};
pub use origins::get_origin;
pub use outcomes::{get_answer, get_result};
pub use spelling::{Spelled, append_all, put};
pub use texts::get_program;
pub use units::{Numbers, get_session, get_unit};
pub use values::{get_exactly, get_state, get_value, put_state, put_value};
