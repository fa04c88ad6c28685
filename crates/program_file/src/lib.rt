//! The program file: which texts are programs, and the program that the file has, or the first place at which it is damaged.
//!
//! What stands here of programs that come into force one after the other is the shape of each, and what a state means under the last
//! that was written under an earlier one ([`ProgramsInTurn`]).
//!
//! `docs/FORMATS.md` has the bytes, and `docs/LANGUAGE.md` the language.
#![tactic(auto)]

mod faults;
mod program;
mod programs_in_turn;
mod shapes;
mod text;

pub use faults::{ProgramFault, ProgramFileFault};
pub use program::{accept, read_program};
pub use programs_in_turn::{NumberedVersion, ProgramsInTurn};
pub use shapes::shapes_in_turn;
pub use text::read_text;
