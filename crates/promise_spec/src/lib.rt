//! What a run of a silo promises, as definitions that contracts cite. There is no code but public functions with
//! empty bodies, whose contracts are laws about the definitions. `docs/DEFINITIONS.md` reads them in plain words.
//!
//! In reading order: `Programs`, `Records`, `Entries`, `SerialExecution`, `Versions`, `Blocks`, `Logs`, `Prefixes`, `Images`, `Moments` (what a log is, stands for and may
//! look like after a crash), `Lines`, `Windows`, `Outputs`, `Kinds` (what is asked, how it is cut, and what is answered), `Cores`, `UnitAnswers`, `UnitRule`,
//! `TurnRule`, `Causes`, `Family` (what the core's events are, and where records come from), `Openings` (what a folder
//! reads as), `Words`, `Endings`, `Courses`, `Refusals`; the clauses `Orders`, `Replies` and `Crashes`, which `Headline`
//! says alone; and the others, `Batches`, `Explanation`, `Exits` and `Promise`. `Reports`, `Commands`, `Loads`, `Checks`,
//! `EitherSlot`, `Compaction`, `Migration` and `Upgrading` have the other commands, and `Calls` the whole program.
//!
//! `laws` has what follows from the definitions alone, `checkpoints` what of a log's beginning, and `folders` that a sound folder is
//! whole. `promise_laws` has what
//! follows from the clauses, and what a run's loop carries; `promise_examples` shows runs that keep the promise, and runs
//! that don't.
#![tactic(auto)]

mod checkpoints;
mod folders;
mod laws;

pub use checkpoints::{checkpoints_stand_for_logs, one_slot_is_live, written_checkpoints_are_logs};
pub use folders::sound_folders_are_whole;
pub use laws::{
    chains_compare, checked_programs_have_plain_names, done_runs_count_syncs, folders_are_read,
    grown_logs_go_on, one_entry, one_log, one_output, prefixes_are_an_order, programs_are_read,
    promises_keep_the_headline, sealed_batches_grow_a_log, sealed_upgrades_grow_a_log,
    sessions_are_read, standings_are_folds, unheld_grains_are_initial, words_are_read,
    words_say_one_command,
};
