//! The books of a run: what is settled, in order, with its records and its entries; what the settler and the host's counts say of
//! that; and what each image that a crash may leave keeps of it.
//!
//! There is no code here but laws. A step of the settler keeps the books, over a core alone and over one that others share, and so
//! does an event of others. What a record of a run says at its end is what a whole run has to show.
#![tactic(auto)]

mod faults;
mod laws;
mod more_lines;
mod shared_steps;

pub use faults::RunFault;
pub use laws::{
    loads_by_places_are_true, recorded_loads_are_true, records_show, runs_end_so,
    unvoted_files_stay,
};
pub use more_lines::records_go_on_over_more_lines;
pub use shared_steps::{
    calls_see_on, none_stops, others_keep_the_books, relied_on_before, shared_steps_keep_the_books,
};
