//! The cells of the grains in memory, in one ordered map, and which grains were used last. Where memory has a limit, a cell comes
//! with a load, and goes where its grain is idle and wasn't used lately. Where it has none, a grain without a cell stands for the
//! cell of one that nobody has written, so a cell is made only where a lock is given. Contracts see the model's cell of each grain.
#![tactic(auto)]

mod opening_states;
mod table;
mod wanted_grains;

pub use opening_states::OpeningStates;
pub use table::CellTable;
pub use wanted_grains::is_wanted;
