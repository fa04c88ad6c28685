//! What a run's loop of turns keeps, and what tells it that nothing is left to do.
//!
//! There is no code but public functions with empty bodies, whose contracts are laws of the unit rule and the turn rule:
//! `next_event` says that a run which keeps a rule keeps it with one more event that does, `frames` what others' events leave
//! a unit, `links` what who carries a unit may put, `carried_units` that the movers are among the units that are carried,
//! `run_ends` that without a mover each line has its entry, `windows` when a line can begin within a window of the input, and
//! `turn_loop` what one turn keeps.
#![tactic(auto)]

mod carried_units;
mod frames;
mod links;
mod next_event;
mod run_ends;
mod turn_loop;
mod windows;

pub use carried_units::{carried_units_stay, carried_units_tell};
pub use frames::others_leave_a_unit;
pub use links::{freed_locks_are_due, links_stay, what_is_asked_for_is_due};
pub use next_event::rules_go_on;
pub use run_ends::{runs_are_counted, without_a_mover_all_is_settled};
pub use turn_loop::{
    turns_begin_and_end, turns_go_on_by_lines, turns_go_on_by_movers, turns_go_on_by_wishes,
};
pub use windows::turns_stay_in_a_window;
