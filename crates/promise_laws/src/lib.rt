//! What follows from the causes clause of a run's promise: where its records are those of the core's committed units,
//! and the core's events keep the unit rule, the other clauses that speak of no disk hold too.
//!
//! There is no code but public functions with empty bodies, whose contracts are these laws. `Legality` says which of a
//! run's events are the core model's legal ones. `serial_runs` and `families` speak of the records, which are serial and come
//! from the lines, call by call; `causes` of the aborts, `replies` of what the entries say, and `calm_runs` of runs in which no
//! fault is counted, or one line at a time is in flight; `unit_answers` of what units got, `proper_entries` of entries as lines, `batches`
//! of logs that end where a batch does, and `loads` of loads, beside runs. `Obligations` is what a run has to show, and `shown_runs`
//! says that it is enough for the whole promise; `answered_runs` parts it in two, and `whole_folders` has what a run's loop carries, from
//! which it follows; `windows` how a run goes on from one window of its input to the next. `Journals` of `promise_spec` is what was settled and what each moment keeps of it, and `steps` says how a journal goes on call
//! by call, and that the crash clause follows. `folders` says that each call leaves a sound folder, at each moment too
//! (`SoundMoments`); `compaction` and `migration` what a slot has that is written anew.
#![tactic(auto)]

mod answered_runs;
mod batches;
mod calm_runs;
mod causes;
mod compaction;
mod families;
mod folders;
mod loads;
mod migration;
mod proper_entries;
mod replies;
mod serial_runs;
mod shown_runs;
mod steps;
mod unit_answers;
mod whole_folders;
mod windows;

pub use answered_runs::{answered_runs_open, answered_runs_promise, shown_runs_answer_and_last};
pub use batches::{batches_stay_whole, moments_end_batches, records_are_whole_batches};
pub use calm_runs::{calm_runs_are_undisturbed, single_runs_meet_no_lock};
pub use causes::explained_aborts_have_causes;
pub use compaction::{
    closed_slots_stay_below, compacting_keeps_the_log, rewritten_folders_are_sound,
};
pub use families::explained_runs_are_families;
pub use folders::{
    crashes_leave_sound_folders, folders_keep_their_program, folders_stay_sound,
    fresh_silos_have_an_empty_log, made_folders_are_sound, rewriting_keeps_the_program,
};
pub use loads::{loads_count_each_line, loads_follow_runs};
pub use migration::migrated_files_are_logs;
pub use proper_entries::settled_entries_are_proper;
pub use replies::explained_replies_are_true;
pub use serial_runs::{explained_entries_have_causes, explained_runs_are_serial, runs_are_legal};
pub use shown_runs::{shown_runs_keep, shown_runs_promise};
pub use steps::{
    clocks_arrive, doubted_journals_are_told, doubts_have_an_image, journals_are_told,
    journals_back_entries, journals_doubt, journals_go_on, journals_survive,
    settled_folders_have_one_log, whole_journals_are_cut,
};
pub use unit_answers::units_got_what_the_core_shows;
pub use whole_folders::{carried_runs_promise, kept_journals_last, read_folders_open};
pub use windows::windows_go_on;
