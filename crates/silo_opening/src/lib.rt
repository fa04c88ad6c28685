//! Makes a silo of any program, and opens one of either format. `docs/FORMATS.md` has the bytes.
#![tactic(auto)]

mod creation;
mod faults;
mod headers;
mod input;
mod latest;
mod opened_silo;
mod placed_states;
mod silo_init;

pub use creation::{create, write_program};
pub use faults::{CreateFault, OpenFault};
pub use input::{InputFault, read_input};
pub use latest::latest_versions;
pub use opened_silo::{Opened, open_silo, open_silo_in};
pub use placed_states::states;
pub use silo_init::{InitFault, init};
