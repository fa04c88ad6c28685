//! All that is known of each unit, by its number: of one that runs its call, its children and what it read, of
//! one that is over its phase, its verdict and its result. The result of a decided unit goes once more than 4,096 units have
//! begun since and all before it are decided. What else the model knows of a unit that is over is for contracts alone, and
//! takes no bytes.
#![tactic(auto)]

mod entry;
mod faults;
mod gone_results;
mod looks;
mod table;
mod unit_begins;
mod unit_ends;
mod unit_reads;
mod waits;

pub use entry::RunningUnit;
pub use faults::BeginFault;
pub use table::UnitTable;
