//! The commands of a silo: [`run_alone`] does all that a call does on one thread, and [`run_silo`] adds the workers.
//!
//! `asked_command` says which command the words ask for, `run_start` makes a core and a settler of an opened silo, `line_execution` carries
//! lines over them, on one thread or by workers, `run_windows` does so with the next window of an input, `run_command` opens a silo and
//! serves an input window by window, `load_command` makes a silo and carries drawn lines, `report_commands` tells of a folder,
//! `check_command` runs commits between silos, `compact_command` writes a silo's next generation, `migrate_command` writes a silo of
//! format 1 as one of format 2, `upgrade_command` brings a program into force, and `commands` puts these together. What a call promises
//! is told in the words of `promise_spec`.
#![tactic(auto)]

mod asked_command;
mod check_command;
mod commands;
mod compact_command;
mod line_execution;
mod load_command;
mod migrate_command;
mod report_commands;
mod run_command;
mod run_start;
mod run_windows;
mod status;
mod upgrade_command;

pub use commands::{ByWorkers, run_alone, run_silo};
pub use settle_loop::{Gate, GatePlace};
pub use status::Status;
