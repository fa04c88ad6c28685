//! What commands show is enough for what they promise: laws alone, in public functions with empty bodies. What `open_silo` answers is
//! what a run owes of its opening, and what a load shows is what its promise asks.
#![tactic(auto)]

mod load_promise;
mod opened_folders;
mod totals;

pub use load_promise::shown_loads_keep;
pub use opened_folders::opened_folders_open;
pub use totals::totals_are_kept;
