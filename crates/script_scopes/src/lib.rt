//! The names in a method's body: which stand for something, where, and what each may be used for.
//!
//! Contracts see what is at fault as the first fault of a piece of text, by the definitions in `specs/`; the
//! law that nothing is at fault exactly in the bodies that are right stands in `proofs/`, for the crate above.
#![tactic(auto)]

mod calls;
mod faults;
mod names;
mod names_in_scope;
mod places;
mod statements;

pub use faults::CheckFault;
pub use names::{Setting, check_free, check_room, is_same};
pub use names_in_scope::InScope;
pub use places::NamePlaces;
pub use statements::check_block;
