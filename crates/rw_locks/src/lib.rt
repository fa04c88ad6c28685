//! The locks of one grain, shared by readers or held by one unit alone. A unit that asks for a lock in
//! conflict with older holders dies, and one in conflict with younger holders alone waits for them.
#![tactic(auto)]

mod table;

pub use cell_model::{Ask, Hold};
pub use table::LockTable;
