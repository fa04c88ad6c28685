//! What is kept of the cells where memory has a limit: an event changes one cell at most, and the grains that it touches are all
//! that may leave memory behind it; while memory has space for one grain more, none has left it. Laws alone, about the model: there is
//! no code here.
#![tactic(auto)]

mod laws;

pub use laws::{
    absent_grains_are_not_kept, ended_units_change_one_cell, grants_change_one_cell,
    local_sweeps_are_sweeps, none_leaves_spare_memory,
};
