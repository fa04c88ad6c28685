ghost use Rattle.std.specs.Prelude.{◌≡◌, ◌≢◌, ◌<◌, ℕ, true, false, List, [], ◌∷◌, ◌++◌, codes, length, None, pos, take, drop, map, slice_get, Some, Err};
ghost use Rattle.base_types.specs.declared.calls.Value.{Value};
ghost use Rattle.base_types.specs.declared.calls.Value.TheVariants.{Int};
ghost use Rattle.core_model.specs.CoreState.{Member};
ghost use Rattle.field_codec.specs.Spelling.{spelling_of_version};
ghost use Rattle.gate_block.specs.Blocks.{block_of};
ghost use Rattle.request_wire.specs.Reply.{reply_line};
ghost use Rattle.promise_spec.specs.Programs.{Program, IsChecked, shape_in, program_in};
ghost use Rattle.promise_spec.specs.SerialExecution.{IsSerial};
ghost use Rattle.promise_spec.specs.Blocks.{Records, body_of, AreKept};
ghost use Rattle.field_codec.specs.declared.formats.Format.TheVariants.{One, Two};
ghost use Rattle.promise_spec.specs.Logs.{IsMagic, IsLog};
ghost use Rattle.promise_spec.specs.Courses.{Observed, lines, moments, seen_at_entry, core_run, core_end};
ghost use Rattle.promise_spec.specs.Promise.{Keeps, IsSoundFolder, Promises};
ghost use Rattle.promise_laws.specs.Obligations.{Shows};
ghost use Rattle.promise_spec.specs.Openings.{NoSilo, OtherFormat, DamagedAt, Reads, reading_in, opened_as};
ghost use Rattle.promise_spec.specs.Words.{plain_manner, Command, Say};
ghost use Rattle.promise_examples.specs.HostCalls.{IsHosted};
ghost use Rattle.promise_examples.specs.WrittenRun.{opened, sealing, written_run, written_steps};
ghost use Rattle.promise_examples.specs.WrittenDoubt.{pair_manner, told, doubting, doubted, doubted_steps};
ghost use Rattle.promise_examples.specs.WrittenUnbegun.{unbegun, unbegun_course, unbegun_steps};
ghost use Rattle.promise_examples.specs.WrittenVote.{reading_manner, failing, vote_told, voted, voted_steps};
ghost use Rattle.promise_examples.specs.WrittenBatch.{both_commits, both_block, batch_course, batched_steps, batched};
ghost use Rattle.promise_examples.specs.WrittenUnbrought.{unbrought, unbrought_course, unbrought_steps};
ghost use Rattle.promise_spec.specs.Explanation.{IsUnloaded};
ghost use Rattle.promise_spec.specs.Batches.{EndsABatch};
ghost use Rattle.promise_examples.specs.WrittenRefusal.{refused, refused_steps};
ghost use Rattle.promise_examples.specs.WrittenCheck.{check_words, check_line, check_call, check_steps};
ghost use Rattle.promise_spec.specs.Checks.{Checks};
ghost use Rattle.two_silos.specs.GeneratedEvents.{checked};
ghost use Rattle.two_silos.specs.Summaries.{summary_of, line_of};
ghost use Rattle.promise_examples.specs.WrittenInit.{init_words, made, made_steps, made_again, again_steps, cut_text, cut_fault, unmade, unmade_steps, halted, halted_steps, other_words, unused};
ghost use Rattle.promise_spec.specs.Commands.{MakesSilo};
ghost use Rattle.promise_spec.specs.Calls.{Serves};
ghost use Rattle.host_trait.specs.declared.channels.Channel.TheVariants.{File};
ghost use Rattle.host_trait.specs.Faults.{Rose};
ghost use Rattle.promise_examples.specs.EmptyRuns.{IsEmptyRun, empty_course};
ghost use Rattle.promise_examples.specs.DoubtRuns.{IsDoubtRun, doubt_course};
ghost use Rattle.script_meaning.specs.WorkedExamples.{bank, at, int, call};
ghost use Rattle.promise_examples.specs.Transfers.{bank_program, paid_in, moved, balance, version_of_source, version_of_target, transfer_body, bank_folder, bank_log};
ghost use Rattle.promise_spec.specs.Loads.{load_calls, transfers_after, summary_text, bank_text};
ghost use Rattle.request_wire.specs.Names.{names_in};
ghost use Rattle.bank_load.specs.Banks.{bank_names};
ghost use Rattle.promise_examples.specs.VoteRuns.{IsVoteRun, vote_course};
ghost use Rattle.promise_examples.specs.DepositRuns.{IsDepositRun, deposit_course};
ghost use Rattle.host_trait.specs.World.{Moment, Image, IsImage};
ghost use Rattle.host_trait.specs.declared.channels.FileId.{FileId};
ghost use Rattle.host_trait.specs.declared.channels.FileId.TheVariants.{Grain};
ghost use Rattle.gate_block.specs.Log.{LogsUpTo};
ghost use Rattle.log_reading.specs.Blocks.{header_damage};
ghost use Rattle.silo_spec.specs.Creation.{IsNewIfSilo};
ghost use Rattle.silo_spec.specs.Slots.{IsLive};
ghost use Rattle.silo_spec.specs.Silos.{manager, program_file, IsSilo, IsNewSilo};
ghost use Rattle.promise_laws.specs.MigratedFiles.{migrated_file};
ghost use Rattle.promise_examples.specs.Readings.{changed, folder_of, program_folder, log_folder, log_changed, grain_folder, program_with, two_writes, same_account, version_by, two_folder, old_manager_bytes};
ghost use Rattle.promise_spec.specs.Reports.{show_text, history_text, audit_text};
ghost use Rattle.field_codec.specs.Examples.{first_version};
ghost use Rattle.promise_examples.specs.Examples.{account_log, accounts, account_program, program_bytes, account_1, account_2, bringing, unit_no, deposit_call, first_commit, next_commit, grain_bytes, block_bytes, manager_bytes, folder, torn_folder, deposit, first_entry, deposit_events, conflict_events, conflict_entries, account_run, account_basis, AskDeposits, vote_events, vote_entries, AskBoth};
ghost use Rattle.base_types.specs.declared.calls.Mode.TheVariants as mode;
ghost use Rattle.core_model.specs.declared.events.CoreEvent.TheVariants as event;
ghost use Rattle.core_model.specs.Events.{applies};
ghost use Rattle.core_model.specs.LegalRuns.{begins, ends};
ghost use Rattle.core_model.specs.SerialOrder.{AllLoadsTrue};
ghost use Rattle.promise_spec.specs.Cores.{state_before};
ghost use Rattle.promise_spec.specs.Lines.{IsLineCall};
ghost use Rattle.promise_spec.specs.UnitRule.{KeepsUnitRule};
ghost use Rattle.promise_spec.specs.TurnRule.{KeepsTurnRule};
ghost use Rattle.promise_spec.specs.Entries.{new_silo, Log, standing_of};
ghost use Rattle.promise_spec.specs.Versions.{IsKept};

/// The first deposit in its bytes: 19 of the version and 97 of the manager file spell its record, in session 1. The folder's log is
/// that record, which stands for 5 in `account/1`; with the block's gate closed the log is empty. The reply is a line.
pub fn first_deposit_reads()
    ensures version { spelling_of_version first_version ≡ grain_bytes }
    ensures block { block_of (body_of Two (Records 1 (first_commit ∷ []))) ≡ block_bytes }
    ensures size { length (manager_bytes 1) ≡ 97 }
    ensures log { IsLog 0 (folder 1 grain_bytes) (account_log (first_commit ∷ [])) }
    ensures closed { IsLog 0 (folder 0 grain_bytes) (account_log []) }
    ensures stands { (standing_of (account_log (first_commit ∷ []))).states account_1 ≡ Int (pos 5) ∷ [] }
    ensures reply { reply_line (shape_in account_program) first_entry ≡ codes "{\"n\":1,\"reply\":5,\"unit\":1}\n" }
{}

/// What the reports print of the first deposit.
pub fn reports_tell_the_first_deposit()
    ensures show { show_text (account_1 ∷ []) (account_log (first_commit ∷ []))
        ≡ codes "{\"fields\":{\"balance\":5},\"grain\":\"account/1\"}\n{\"count\":1}\n" }
    ensures history { history_text (1 ∷ []) (account_log (first_commit ∷ []))
        ≡ codes "{\"args\":[5],\"call\":\"account/1.deposit\",\"n\":1,\"reply\":5,\"session\":1,\"unit\":1}\n" }
    ensures audit { audit_text (account_log (first_commit ∷ [])) None ≡ codes "{\"count\":1,\"first_bad\":null}\n" }
{}

/// A folder whose open block is cut has no log, and one whose grain file is cut within a version doesn't keep the record.
pub fn torn_folders_have_no_log()
    ensures block { (log : Log) → IsLog 0 (torn_folder 80) log → ⊥ }
    ensures version { (states : List (List Value))
        → IsKept Two 0 (shape_in account_program) (folder 1 (take 10 grain_bytes)) (record { logged = deposit; states = states }) → ⊥ }
{}

/// A deposit of 5 and one of 4 that leaves 9 are serial, and not where the second leaves 4.
pub fn deposits_are_serial()
    ensures serial { IsSerial accounts (new_silo account_program).states (first_commit ∷ next_commit 4 9 ∷ []) }
    ensures unseen { IsSerial accounts (new_silo account_program).states (first_commit ∷ next_commit 4 4 ∷ []) → ⊥ }
{}

/// A transfer of 30 between two accounts, of which the first had 100: its record is spelled so, and its two versions. The
/// folder's blocks are the deposit's record and that, each version stands at its place, and the log stands for 70 and 30. The
/// two are serial, and not where the second account is left with 31, or where the transfer stands first.
pub fn transfers_read()
    ensures source { spelling_of_version (balance 2 70) ≡ version_of_source }
    ensures target { spelling_of_version (balance 2 30) ≡ version_of_target }
    ensures body { body_of Two (Records 1 (moved 70 30 ∷ [])) ≡ transfer_body }
    ensures live { IsLive IsMagic 0 bank_folder }
    ensures header { header_damage (bank_folder manager) ≡ None }
    ensures stand { LogsUpTo (map (body_of Two) (Records 1 (paid_in ∷ []) ∷ Records 1 (moved 70 30 ∷ []) ∷ [])) 213 (bank_folder manager) }
    ensures kept { AreKept Two 0 bank_folder bank_program (bank_log (paid_in ∷ moved 70 30 ∷ [])).entries }
    ensures one { (standing_of (bank_log (paid_in ∷ moved 70 30 ∷ []))).states (at 0 1) ≡ int 70 ∷ [] }
    ensures other { (standing_of (bank_log (paid_in ∷ moved 70 30 ∷ []))).states (at 0 2) ≡ int 30 ∷ [] }
    ensures serial { IsSerial bank (new_silo bank_program).states (paid_in ∷ moved 70 30 ∷ []) }
    ensures unseen { IsSerial bank (new_silo bank_program).states (paid_in ∷ moved 70 31 ∷ []) → ⊥ }
    ensures early { IsSerial bank (new_silo bank_program).states (moved 70 30 ∷ paid_in ∷ []) → ⊥ }
{}

/// The promise can be kept: a run of which no line may begin, as its input is empty, can't be read or begins with a line that is too
/// long, keeps all six clauses, over any log.
pub fn empty_runs_keep()
    ensures { (p : Program) (r : Observed) (opening : Log) → IsEmptyRun p r opening → Keeps p r (empty_course r opening) }
{}

/// A grain is brought into memory as the log has it. Over the log of the first deposit that is nobody's version, with a balance of 5: one
/// of 0 isn't true, nor is 5 as the version of the unit that made it, which isn't of this run. Before it was brought no lock of the grain
/// can be had, and without a wish it isn't brought.
pub fn grains_are_brought_so()
    ensures logged { AllLoadsTrue (bringing 0 5).opening (begins (bringing 0 5)) (bringing 0 5).events }
    ensures other { AllLoadsTrue (bringing 0 0).opening (begins (bringing 0 0)) (bringing 0 0).events → ⊥ }
    ensures own { AllLoadsTrue (bringing 1 5).opening (begins (bringing 1 5)) (bringing 1 5).events → ⊥ }
    ensures locked { applies (state_before (bringing 0 5) 2) (event.Grant (unit_no 2) account_1 mode.Update) ≡ false }
    ensures had { applies (state_before (bringing 0 5) 3) (event.Grant (unit_no 2) account_1 mode.Update) ≡ true }
    ensures unwished { applies (state_before (bringing 0 5) 1) (event.Load account_1 (unit_no 0) (Int (pos 5) ∷ [])) ≡ false }
{}

/// Two runs of the core keep both rules: one deposit at width 1, and two at width 2, of which the second meets the first
/// one's lock and dies, and the first is left in doubt; in each the grain is wanted and brought into memory before its first lock. With
/// other picks, or at width 1, the second list keeps no turns.
pub fn deposits_keep_the_rules()
    ensures one_unit { (lines : List (List ℕ)) → IsLineCall accounts lines 1 deposit_call → KeepsUnitRule (account_basis lines) (account_run deposit_events) }
    ensures one_turn { KeepsTurnRule accounts true 1 1 [] (account_run deposit_events) }
    ensures two_unit { (lines : List (List ℕ)) → AskDeposits lines → KeepsUnitRule (account_basis lines) (account_run conflict_events) }
    ensures two_turn { KeepsTurnRule accounts true 2 2 (0 ∷ 1 ∷ 1 ∷ []) (account_run conflict_events) }
    ensures settled { (ends (account_run conflict_events)).manager.settled ≡ conflict_entries }
    ensures picks { KeepsTurnRule accounts true 2 2 [] (account_run conflict_events) → ⊥ }
    ensures width { KeepsTurnRule accounts true 2 1 (0 ∷ 1 ∷ 1 ∷ []) (account_run conflict_events) → ⊥ }
{}

/// A run of one deposit keeps all six clauses: it opens an empty log, seals the deposit's record and replies.
pub fn deposit_runs_keep()
    ensures { (r : Observed) (opened : Moment) (sealing : List Moment) → IsDepositRun r opened sealing
        → Keeps account_program r (deposit_course opened sealing r) }
{}

/// And so does a run of two lines of which the second meets the first one's lock, and the first is left in doubt.
pub fn doubt_runs_keep()
    ensures { (r : Observed) (opened : Moment) (told doubting : List Moment) → IsDoubtRun r opened told doubting
        → Keeps account_program r (doubt_course opened told doubting r) }
{}

/// A third run keeps both rules: a deposit, and a read of what it left before it is logged. The deposit's file can't be
/// written, so the deposit is aborted for its vote and the read for what it depends on.
pub fn votes_keep_the_rules()
    ensures unit { (lines : List (List ℕ)) → AskBoth lines → KeepsUnitRule (account_basis lines) (account_run vote_events) }
    ensures turn { KeepsTurnRule accounts true 2 2 [] (account_run vote_events) }
    ensures settled { (ends (account_run vote_events)).manager.settled ≡ vote_entries }
{}

/// And it keeps all six clauses, where its lines are told so and no image ever has a record of them.
pub fn vote_runs_keep()
    ensures { (r : Observed) (opened : Moment) (failing told : List Moment) → IsVoteRun r opened failing told
        → Keeps account_program r (vote_course opened failing told r) }
{}

/// What a load draws from the seed 7, after its 64 deposits, and what it would print of the run of one deposit.
pub fn loads_draw_and_sum()
    ensures drawn { transfers_after 7 2 ≡ call (at 1 0) 0 (int 30 ∷ int 63 ∷ int 54 ∷ []) ∷ call (at 1 0) 0 (int 17 ∷ int 41 ∷ int 20 ∷ []) ∷ [] }
    ensures many { length (load_calls 2 7) ≡ 66 }
    ensures last { slice_get (load_calls 2 7) 63 ≡ Some (call (at 0 63) 0 (int 1000 ∷ [])) }
    ensures summed { (r : Observed) (opened : Moment) (sealing : List Moment) → length (lines r) ≡ 1
        → summary_text r (deposit_course opened sealing r) ≡ codes "{\"aborted\":0,\"committed\":1,\"faulted\":0,\"requests\":1,\"total\":5}\n" }
{}

/// A run of one deposit is written out whole: the program is a checked one, the folder is a new silo's and sound, what the run
/// shows keeps the promise, and a host's calls lead from its begin to its end, each as the host's own contract says.
pub fn a_run_is_written_out()
    ensures checked { IsChecked account_program }
    ensures sound { IsSoundFolder written_run.old }
    ensures run { IsDepositRun written_run opened sealing }
    ensures kept { Keeps account_program written_run (deposit_course opened sealing written_run) }
    ensures promised { Promises plain_manner written_run }
    ensures hosted { IsHosted written_run written_steps }
{}

/// And so is a run of two deposits at once, of which the second meets the first one's lock, and the first is left in doubt.
pub fn a_doubt_is_written_out()
    ensures sound { IsSoundFolder doubted.old }
    ensures run { IsDoubtRun doubted opened told doubting }
    ensures kept { Keeps account_program doubted (doubt_course opened told doubting doubted) }
    ensures promised { Promises pair_manner doubted }
    ensures hosted { IsHosted doubted doubted_steps }
{}

/// And so is that run where the write of the gate fails and never began, as a host may answer: no image has a record at any moment, and
/// the deposit's line is told to be in doubt all the same. It shows what a run has to show.
pub fn an_unbegun_doubt_is_written_out()
    ensures none { (m : Moment) (image : Image) → Member m (moments unbegun unbegun_course) → IsImage m.disk image
        → IsLog 0 image (account_log []) }
    ensures shown { Shows account_program unbegun unbegun_course }
    ensures kept { Keeps account_program unbegun unbegun_course }
    ensures promised { Promises pair_manner unbegun }
    ensures hosted { IsHosted unbegun unbegun_steps }
{}

/// And so is a run of a deposit whose version can't be written, and of a read of what it left.
pub fn a_vote_is_written_out()
    ensures sound { IsSoundFolder voted.old }
    ensures run { IsVoteRun voted opened failing vote_told }
    ensures kept { Keeps account_program voted (vote_course opened failing vote_told voted) }
    ensures promised { Promises reading_manner voted }
    ensures hosted { IsHosted voted voted_steps }
{}

/// And so is a run of two deposits at once, of which the second finds what the first left: one block has the records of
/// both. A log with the first alone doesn't end where a batch does.
pub fn a_batch_is_written_out()
    ensures sound { IsSoundFolder batched.old }
    ensures block { block_of (body_of Two (Records 1 both_commits)) ≡ both_block }
    ensures whole { EndsABatch (core_end account_program batch_course) (account_log []) (account_log both_commits) }
    ensures cut { EndsABatch (core_end account_program batch_course) (account_log []) (account_log (first_commit ∷ [])) → ⊥ }
    ensures shown { Shows account_program batched batch_course }
    ensures kept { Keeps account_program batched batch_course }
    ensures promised { Promises reading_manner batched }
    ensures hosted { IsHosted batched batched_steps }
{}

/// And so is a run of one deposit more, over the folder that the first run left, in which the account's file can't be read. The line
/// begins, its unit wants the grain, and no version is brought into memory: the run ends with that file's fault, answers nothing, and
/// leaves each image as it was.
pub fn an_unbrought_grain_is_written_out()
    ensures sound { IsSoundFolder unbrought.old }
    ensures follows { (file : FileId) → unbrought.old.disk file ≡ written_run.new.disk file }
    ensures wanted { IsUnloaded (core_run account_program unbrought_course) account_1 }
    ensures shown { Shows account_program unbrought unbrought_course }
    ensures kept { Keeps account_program unbrought unbrought_course }
    ensures promised { Promises plain_manner unbrought }
    ensures hosted { IsHosted unbrought unbrought_steps }
{}

/// The other three show what a run has to show too: a deposit, a batch in doubt and a vote of no.
pub fn a_run_shows_enough()
    ensures deposit { Shows account_program written_run (deposit_course opened sealing written_run) }
    ensures doubt { Shows account_program doubted (doubt_course opened told doubting doubted) }
    ensures vote { Shows account_program voted (vote_course opened failing vote_told voted) }
{}

/// What folders like that of the first deposit read as when they are opened: its log, or an empty one where the block's
/// gate is closed; and where a byte or a file is another, which file is damaged, and at which place of the tables in
/// `docs/FORMATS.md`.
pub fn folders_read_so()
    ensures logged { opened_as (folder 1 grain_bytes) ≡ Reads 0 (account_log (first_commit ∷ [])) }
    ensures closed { opened_as (folder 0 grain_bytes) ≡ Reads 0 (account_log []) }

    // no silo: the manager file is too short, or has another header gate or magic
    ensures short { opened_as (log_folder (take 15 (manager_bytes 1))) ≡ NoSilo }
    ensures header_gate { (byte : ℕ) → byte ≢ 1 → opened_as (log_changed 0 byte) ≡ NoSilo }
    ensures other_magic { (name : List ℕ) → length name ≡ 8 → (IsMagic name → ⊥)
        → opened_as (log_folder (1 ∷ (name ++ drop 9 (manager_bytes 1)))) ≡ NoSilo }

    // a header that has another byte than 0 in front of the first gate, or another than 0 and 1 before it, which comes before any block
    ensures header_byte { (byte : ℕ) → 1 < byte → opened_as (log_changed 13 byte) ≡ DamagedAt manager 13 }
    ensures next_header_byte { (byte : ℕ) → byte ≢ 0 → opened_as (log_changed 14 byte) ≡ DamagedAt manager 14 }
    ensures header_first { opened_as (log_folder (changed 14 1 (take 80 (manager_bytes 1)))) ≡ DamagedAt manager 14 }

    // a block that isn't whole
    ensures torn { opened_as (torn_folder 80) ≡ DamagedAt manager 16 }
    ensures cut { opened_as (torn_folder 16) ≡ DamagedAt manager 16 }

    // a body: its session, 2 to the 63; the count of its records; the unit's number, 0 or 2 to the 63; the origin's tag; the call's type, method and count
    // of arguments, another one or one above 8; an argument's tag; the result's tag, and that of its value; a write's type; a
    // second write on the same grain; a body that is a byte too short, or too long
    ensures great_session { opened_as (log_changed 27 128) ≡ DamagedAt manager 20 }
    ensures count { opened_as (log_changed 28 65) ≡ DamagedAt manager 28 }
    ensures unit { opened_as (log_changed 32 0) ≡ DamagedAt manager 32 }
    ensures great_unit { opened_as (log_changed 39 128) ≡ DamagedAt manager 32 }
    ensures origin { opened_as (log_changed 40 2) ≡ DamagedAt manager 40 }
    ensures called_type { opened_as (log_changed 45 1) ≡ DamagedAt manager 45 }
    ensures method { opened_as (log_changed 51 2) ≡ DamagedAt manager 51 }
    ensures params { opened_as (log_changed 53 2) ≡ DamagedAt manager 53 }
    ensures arguments { opened_as (log_changed 53 9) ≡ DamagedAt manager 53 }
    ensures argument { opened_as (log_changed 55 2) ≡ DamagedAt manager 55 }
    ensures outcome { opened_as (log_changed 66 0) ≡ DamagedAt manager 66 }
    ensures value { opened_as (log_changed 67 2) ≡ DamagedAt manager 67 }
    ensures written_type { opened_as (log_changed 78 1) ≡ DamagedAt manager 78 }
    ensures order { opened_as (log_folder two_writes) ≡ DamagedAt manager 96 }
    ensures less { opened_as (log_changed 16 75) ≡ DamagedAt manager 92 }
    ensures trailing { opened_as (log_folder (changed 16 77 (manager_bytes 1) ++ 0 ∷ [])) ≡ DamagedAt manager 96 }

    // two blocks, of which the second is damaged, or both are; or the second's session is lower, which comes before what stands behind it
    ensures second_block { opened_as (log_folder (changed 109 65 same_account)) ≡ DamagedAt manager 109 }
    ensures first_block { opened_as (log_folder (changed 32 0 (changed 109 65 same_account))) ≡ DamagedAt manager 32 }
    ensures lower_session { opened_as (log_folder (changed 101 0 same_account)) ≡ DamagedAt manager 101 }
    ensures session_first { opened_as (log_folder (changed 101 0 (changed 109 65 same_account))) ≡ DamagedAt manager 101 }

    // a version: it's cut, it's another unit's, it has another count of fields, or another tag
    ensures version_cut { opened_as (grain_folder (take 10 grain_bytes)) ≡ DamagedAt (Grain 0 account_1) 0 }
    ensures other_unit { opened_as (grain_folder (version_by 2)) ≡ DamagedAt (Grain 0 account_1) 0 }
    ensures fields { opened_as (grain_folder (changed 8 2 grain_bytes)) ≡ DamagedAt (Grain 0 account_1) 8 }
    ensures tag { opened_as (grain_folder (changed 10 2 grain_bytes)) ≡ DamagedAt (Grain 0 account_1) 10 }

    // two versions of one grain, of which the second is damaged, or both are
    ensures second_cut { opened_as (folder_of program_bytes same_account (version_by 1 ++ take 10 (version_by 2)))
        ≡ DamagedAt (Grain 0 account_1) 19 }
    ensures second_tag { opened_as (folder_of program_bytes same_account (version_by 1 ++ changed 10 2 (version_by 2)))
        ≡ DamagedAt (Grain 0 account_1) 29 }
    ensures first_version { opened_as (folder_of program_bytes same_account (changed 10 2 (version_by 1)))
        ≡ DamagedAt (Grain 0 account_1) 10 }

    // versions of two grains: where both are damaged the lower grain is named, though its record is the later one
    ensures lower_grain { opened_as (two_folder (changed 10 2 (version_by 2)) (take 10 (version_by 1)))
        ≡ DamagedAt (Grain 0 account_1) 10 }
    ensures upper_grain { opened_as (two_folder (version_by 2) (changed 10 2 (version_by 1)))
        ≡ DamagedAt (Grain 0 account_2) 10 }

    // the program file: it's too short for its length field, or for its text, or the text would be too long
    ensures program_short { opened_as (program_folder (take 3 program_bytes)) ≡ DamagedAt program_file 3 }
    ensures program_cut { opened_as (program_folder (take 100 program_bytes)) ≡ DamagedAt program_file 100 }
    ensures program_less { opened_as (program_folder (changed 0 180 program_bytes)) ≡ DamagedAt program_file 183 }
    ensures program_long { opened_as (program_folder (1 ∷ 0 ∷ 4 ∷ 0 ∷ [])) ≡ DamagedAt program_file 0 }

    // its text is no program, at the places that `docs/LANGUAGE.md` has: 5, 20, 8 and 16
    ensures bad_token { opened_as (program_folder (program_with (codes "type A { }"))) ≡ DamagedAt program_file 9 }
    ensures unexpected { opened_as (program_folder (program_with (codes "type a { field x = 01; }")))
        ≡ DamagedAt program_file 24 }
    ensures ended { opened_as (program_folder (program_with (codes "type a {"))) ≡ DamagedAt program_file 12 }
    ensures twice { opened_as (program_folder (program_with (codes "type a { } type a { }")))
        ≡ DamagedAt program_file 20 }

    // several files: that the folder is no silo comes first, then the program file, the manager file and the grains' files
    ensures silo_first { opened_as (folder_of (take 3 program_bytes) (take 15 (manager_bytes 1)) grain_bytes) ≡ NoSilo }
    ensures program_first { opened_as (folder_of (take 3 program_bytes) (take 80 (manager_bytes 1)) (take 10 grain_bytes))
        ≡ DamagedAt program_file 3 }
    ensures program_before_header { opened_as (folder_of (take 3 program_bytes) (changed 13 255 (manager_bytes 1)) grain_bytes)
        ≡ DamagedAt program_file 3 }
    ensures block_first { opened_as (folder_of program_bytes (take 80 (manager_bytes 1)) (take 10 grain_bytes))
        ≡ DamagedAt manager 16 }
{}

/// The first deposit's folder in format 1, whose manager file has 89 bytes: it is one of another format than the commands read, and in its
/// own it reads as the same log. A folder of format 2 is another's there. Written in format 2 its body says the same, in session 1.
pub fn formats_are_told_apart()
    ensures old { opened_as (log_folder old_manager_bytes) ≡ OtherFormat }
    ensures new { reading_in One (folder 1 grain_bytes) ≡ OtherFormat }
    ensures read { reading_in One (log_folder old_manager_bytes) ≡ Reads 0 (account_log (first_commit ∷ [])) }
    ensures migrated { migrated_file 0 old_manager_bytes [] ≡ manager_bytes 1 }
{}

/// A refusal is written out: the first deposit's block is cut, and the run answers that the manager file is damaged at the
/// block's length field.
pub fn a_refusal_is_written_out()
    ensures reads { opened_as (seen_at_entry refused) ≡ DamagedAt manager 16 }
    ensures promised { Promises plain_manner refused }
    ensures hosted { IsHosted refused refused_steps }
{}

/// A call of `init` over an empty folder is written out: it makes a silo of the text, with whose disk the run of one deposit
/// that is written out begins.
pub fn an_init_is_written_out()
    ensures hosted { IsHosted made made_steps }
    ensures made { MakesSilo made }
    ensures sound { IsSoundFolder made.new }
    ensures follows { (file : FileId) → made.new.disk file ≡ written_run.old.disk file }
    ensures served { Serves init_words (λ c. made) }
{}

/// And so is a second call over the folder that this left, which is called a silo already and stays as it was.
pub fn a_second_init_is_written_out()
    ensures follows { made_again.old.disk ≡ made.new.disk }
    ensures hosted { IsHosted made_again again_steps }
    ensures made { MakesSilo made_again }
    ensures served { Serves init_words (λ c. made_again) }
{}

/// And one whose input is no program: it ends with the text's first fault, and writes nothing.
pub fn a_refused_init_is_written_out()
    ensures fault { program_in cut_text ≡ Err cut_fault }
    ensures hosted { IsHosted unmade unmade_steps }
    ensures made { MakesSilo unmade }
    ensures served { Serves init_words (λ c. unmade) }
{}

/// And one whose last sync fails: it ends with the fault of the manager file, whose count rises. A crash then leaves the new
/// silo, or no silo, and may leave either.
pub fn a_failed_init_is_written_out()
    ensures hosted { IsHosted halted halted_steps }
    ensures made { MakesSilo halted }
    ensures rose { Rose (halted.faults_before (File manager)) (halted.faults_after (File manager)) }
    ensures images { (image : Image) → IsImage halted.new.disk image → IsNewIfSilo IsMagic account_program.text image }
    ensures opened { (image : Image) × IsImage halted.new.disk image × IsNewSilo account_program.text image }
    ensures shut { (image : Image) × IsImage halted.new.disk image × (IsSilo IsMagic (image manager) → ⊥) }
    ensures served { Serves init_words (λ c. halted) }
{}

/// And the answer to words that say no command, as `init` with a word too many: bad use, and the host is as it was.
pub fn bad_use_is_written_out()
    ensures hosted { IsHosted unused [] }
    ensures silent { (c : Command) → Say (λ g. true) other_words c → ⊥ }
    ensures served { Serves other_words (λ c. unused) }
    ensures any { (words : List (List ℕ)) → ((c : Command) → Say (λ g. true) words c → ⊥)
        → Serves words (λ c. unused) }
{}

/// And a call of `check` without a start, over an empty folder: it prints that 64 accounts have 64000, and leaves all else.
pub fn a_check_is_written_out()
    ensures line { line_of (summary_of 0 (checked 0 1)) ≡ check_line }
    ensures hosted { IsHosted check_call check_steps }
    ensures checks { Checks 0 1 check_call }
    ensures served { Serves check_words (λ c. check_call) }
{}

/// The bank program of a load is a checked one, and its types and methods are numbered as a load's calls have them: the type
/// 0 is `account`, whose method 0 is `deposit`, and the type 1 is `atm`, whose method 0 is `transfer`.
pub fn the_bank_is_a_program()
    ensures checked { (p : Program) × IsChecked p × (p.text ≡ bank_text) }
    ensures named { (p : Program) → IsChecked p → p.text ≡ bank_text → names_in p.types ≡ bank_names }
{}
