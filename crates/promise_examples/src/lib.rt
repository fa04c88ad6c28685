//! Runs that keep the promise of `promise_spec`, and runs that don't. There is no code but public functions with
//! empty bodies, whose contracts are what is shown.
//!
//! `Examples` has a silo of accounts and lists of core events, `Transfers` a silo of a bank; `StillRuns`, `EmptyRuns`, `DepositRuns`,
//! `DoubtRuns` and `VoteRuns` say what a run of each kind shows, and which course it took. `WrittenRun`,
//! `WrittenDoubt`, `WrittenUnbegun`, `WrittenVote` and `WrittenRefusal` have such runs and a refusal, `WrittenBatch` a run with a
//! batch of two, and `WrittenUnbrought` one that ends since a grain's file can't be read, written out with the host's calls that
//! `HostCalls` tells of. `WrittenInit` has calls of `init`, and the answer to words that say nothing, and `WrittenCheck` a call of
//! `check`. `Readings` has folders, each with a small damage.
#![tactic(auto)]

mod examples;
mod windows;
mod wrong_runs;

pub use examples::{
    a_batch_is_written_out, a_check_is_written_out, a_doubt_is_written_out,
    a_failed_init_is_written_out, a_refusal_is_written_out, a_refused_init_is_written_out,
    a_run_is_written_out, a_run_shows_enough, a_second_init_is_written_out, a_vote_is_written_out,
    an_init_is_written_out, an_unbegun_doubt_is_written_out, an_unbrought_grain_is_written_out,
    bad_use_is_written_out, deposit_runs_keep, deposits_are_serial, deposits_keep_the_rules,
    doubt_runs_keep, empty_runs_keep, first_deposit_reads, folders_read_so, formats_are_told_apart,
    grains_are_brought_so, loads_draw_and_sum, reports_tell_the_first_deposit,
    the_bank_is_a_program, torn_folders_have_no_log, transfers_read, vote_runs_keep,
    votes_keep_the_rules,
};
pub use windows::windows_are_counted_so;
pub use wrong_runs::{
    aborted_units_have_no_record, aborts_have_causes, any_folder_is_served_truly,
    bad_use_is_said_by_words, batches_are_small, batches_are_whole, calm_runs_sync_once,
    checks_tell_their_world, cut_lines_are_replies, endings_are_true, grains_are_brought_truly,
    inits_make_their_input, lines_are_answered_once, lines_begin_in_whole_windows,
    loads_tell_their_summary, logs_are_not_lost, nothing_stands_behind_the_log, other_files_stay,
    records_come_from_lines, refusals_are_true, replies_are_serial, replies_come_after_records,
    reports_tell_the_folder, syncs_are_bounded, the_block_in_doubt_is_the_batchs,
    the_opening_log_is_the_disks, told_replies_are_written, words_are_answered,
};
