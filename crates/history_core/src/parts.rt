use cell_table::CellTable;
use core_parts::{EntryList, HandedStates, LastStates, LearnQueue};
use open_batch::{FinishedUnit, OpenBatch};
use unit_table::UnitTable;

/// What the core keeps.
#[derive(Drop)]
pub struct Parts {
    pub units: UnitTable,
    pub cells: CellTable,
    /// The finished units that stand in no closed batch, in the finish order.
    pub waiting: Vec<FinishedUnit>,
    /// How many batches were taken.
    pub batches: u64,
    pub batch: Option<OpenBatch>,
    /// Whether nobody knows of a batch whether it is on disk.
    pub doubt: bool,
    pub entries: EntryList,
    pub learn: LearnQueue,
    pub last: LastStates,
    pub handed: HandedStates,
}
