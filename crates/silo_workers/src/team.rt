use history_core::Core;
use script_check::Checked;
use std::alloc::Global;
use turn_cell::TurnCell;
use worker_signals::Signals;

/// What all threads of a run have: the core in its cell, what they carry, and how they wake each other.
pub(crate) struct Team<'a, R, G, L> {
    pub(crate) rt: &'a R,
    pub(crate) alloc: Global,
    pub(crate) checked: &'a Checked,
    pub(crate) lines: &'a L,
    /// How many lines the core had taken before these.
    pub(crate) before: u64,
    pub(crate) cell: TurnCell<Core>,
    pub(crate) gate: &'a G,
    pub(crate) signals: Signals,
}
