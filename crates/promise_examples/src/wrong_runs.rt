ghost use Rattle.std.specs.Prelude.{◌≡◌, ◌≢◌, ◌⊎◌, ◌+◌, ◌-◌, ◌%◌, ◌^◌, ◌<◌, ◌≤◌, ◌++◌, ◌∷◌, [], ℕ, Bool, true, false, List, length, Some, None, Ok, Err, take, slice_index};
ghost use Rattle.base_types.specs.declared.calls.Call.{Call};
ghost use Rattle.base_types.specs.declared.calls.GrainId.{GrainId};
ghost use Rattle.base_types.specs.declared.calls.Origin.TheVariants.{Line, Child};
ghost use Rattle.base_types.specs.declared.calls.Outcome.{Outcome};
ghost use Rattle.base_types.specs.declared.calls.UnitNo.{UnitNo};
ghost use Rattle.base_types.specs.declared.entries.Entry.{Entry};
ghost use Rattle.base_types.specs.declared.entries.Settled.TheVariants as settled;
ghost use Rattle.commit_log.specs.declared.records.CommitRecord.{CommitRecord};
ghost use Rattle.core_model.specs.declared.effects.Effect.{Effect};
ghost use Rattle.core_model.specs.declared.events.CoreEvent.{CoreEvent};
ghost use Rattle.core_model.specs.declared.events.CoreEvent.TheVariants as event;
ghost use Rattle.core_model.specs.Events.{applies, run};
ghost use Rattle.core_model.specs.LegalRuns.{begins};
ghost use Rattle.core_model.specs.SerialOrder.{committed, chosen, IsUnwritten};
ghost use Rattle.core_model.specs.Tests.{is_before, is_wanted, state_written};
ghost use Rattle.core_model.specs.WantedGrains.{next_wanted};
ghost use Rattle.core_model.specs.declared.phases.Verdict.TheVariants as verdict;
ghost use Rattle.core_model.specs.CoreState.{Member, Mode, Value, CoreState};
ghost use Rattle.gate_block.specs.Log.{LogsUpTo, gate_of};
ghost use Rattle.host_trait.specs.declared.channels.Channel.{Channel};
ghost use Rattle.host_trait.specs.declared.channels.Channel.TheVariants.{Input, Output, File};
ghost use Rattle.host_trait.specs.declared.channels.FileId.{FileId};
ghost use Rattle.host_trait.specs.declared.channels.FileId.TheVariants as file;
ghost use Rattle.host_trait.specs.World.{Image, IsImage, Moment, moment_of, last_of};
ghost use Rattle.request_wire.specs.Lines.{lines_of};
ghost use Rattle.request_wire.specs.Reply.{reply_line};
ghost use Rattle.script_meaning.specs.Play.{IsTransaction};
ghost use Rattle.silo_spec.specs.Silos.{manager, program_file, IsSilo, HasProgram};
ghost use Rattle.silo_spec.specs.Slots.{IsLive};
ghost use Rattle.silo_spec.specs.OpenedDisks.{opening_syncs, opened_disk};
ghost use Rattle.promise_spec.specs.Programs.{Program, ProgramFault, IsChecked, shape_in, program_in};
ghost use Rattle.promise_spec.specs.Entries.{Log, standing_of, grown, records_of};
ghost use Rattle.promise_spec.specs.Images.{IsSound};
ghost use Rattle.promise_spec.specs.Openings.{DamagedAt, Reads, program_in_file, sessions_read, opened_as};
ghost use Rattle.promise_spec.specs.Words.{Command, Manner};
ghost use Rattle.promise_spec.specs.Refusals.{IsUnopened, IsNamedIn};
ghost use Rattle.promise_spec.specs.Records.{Commit, States, AreRecordsOf};
ghost use Rattle.promise_spec.specs.SerialExecution.{played};
ghost use Rattle.field_codec.specs.declared.formats.Format.TheVariants.{One, Two};
ghost use Rattle.commit_log.specs.declared.contents.Body.TheVariants as body;
ghost use Rattle.commit_log.specs.Sessions.{spelling_with_session};
ghost use Rattle.promise_spec.specs.Logs.{IsFormat, IsMagic, IsLog, IsPrefix, StandsUpTo};
ghost use Rattle.promise_spec.specs.Moments.{IsImageOf};
ghost use Rattle.promise_spec.specs.Lines.{IsLineCall};
ghost use Rattle.promise_spec.specs.Windows.{window_lines, first_bad, told_number, before_bad, whole_windows};
ghost use Rattle.promise_spec.specs.UnitAnswers.{got_from};
ghost use Rattle.promise_spec.specs.TurnRule.{lock_asked, movers, next_wish, passed, units_of};
ghost use Rattle.promise_spec.specs.Cores.{AppliesAt, applied_from, how_many, state_before};
ghost use Rattle.promise_spec.specs.Causes.{RunHasDoubt, NoneRose, is_vote_of, is_unsealed, syncs_of, most_syncs_of};
ghost use Rattle.promise_examples.specs.AliveUnits.{IsAlive};
ghost use Rattle.promise_spec.specs.Family.{states_after};
ghost use Rattle.promise_spec.specs.Endings as ending;
ghost use Rattle.promise_spec.specs.Courses.{Observed, Course, order, moments, seen_at_entry, lines, core_run, core_end};
ghost use Rattle.promise_spec.specs.Replies.{IsEntryOf};
ghost use Rattle.promise_spec.specs.Crashes.{Acknowledges, IsAside};
ghost use Rattle.promise_spec.specs.Batches.{kept_by};
ghost use Rattle.promise_spec.specs.Exits.{HasBlock};
ghost use Rattle.promise_spec.specs.Promise.{Keeps, KeepsAnywhere, Promises};
ghost use Rattle.promise_spec.specs.Reports.{history_text};
ghost use Rattle.promise_spec.specs.Commands.{MakesSilo, IsReported, Reports};
ghost use Rattle.promise_spec.specs.Calls.{Understands, Serves, AnswersAs, MayGoOn};
ghost use Rattle.promise_spec.specs.Loads.{KeepsLoad, summary_text};
ghost use Rattle.promise_spec.specs.Checks.{Checks};
ghost use Rattle.two_silos.specs.GeneratedEvents.{checked};
ghost use Rattle.two_silos.specs.Summaries.{summary_of, line_of};
ghost use Rattle.promise_spec.specs.Prefixes.{IsPrefixOf};

/// The opening log is the disk's: no run can take another for it, as one that answers from an old log again would, or one
/// that opens or closes a gate of a batch left in doubt before the log is synced.
pub fn the_opening_log_is_the_disks()
    ensures entry { (p : Program) (r : Observed) (c : Course) (log : Log) → Keeps p r c
        → IsLog c.live (seen_at_entry r) log → c.opening ≡ log }
    ensures synced { (p : Program) (r : Observed) (c : Course) (image : Image) (log : Log) → Keeps p r c
        → IsImage (last_of (moment_of r.old) c.early).disk image → IsLog c.live image log → c.opening ≡ log }
{}

/// No run keeps the promise that at some moment may leave a log without all that it opened with, as where an earlier gate is
/// closed for a moment, or that leaves a folder that is no silo.
pub fn logs_are_not_lost()
    ensures shorter { (p : Program) (r : Observed) (c : Course) (image : Image) (log : Log) → Keeps p r c
        → IsImageOf (moments r c) image → IsLog c.live image log → (IsPrefixOf c.opening log → ⊥) → ⊥ }
    ensures closed { (p : Program) (r : Observed) (c : Course) (image : Image) → Keeps p r c
        → IsImage r.new.disk image → (IsLive IsMagic c.live image → ⊥) → ⊥ }
{}

/// No run keeps the promise that at some moment may leave a part of a batch: a log with more records behind the opening log than
/// some first batches have units to commit, and fewer than these have with the next batch; so none that may leave one record
/// where the first batch has two.
pub fn batches_are_whole()
    ensures part { (p : Program) (r : Observed) (c : Course) (image : Image) (more : List Commit) (n : ℕ) → Keeps p r c
        → IsImageOf (moments r c) image → IsLog c.live image (grown c.opening more)
        → length (kept_by (core_end p c) n) < length more → length more < length (kept_by (core_end p c) (n + 1)) → ⊥ }
    ensures one { (p : Program) (r : Observed) (c : Course) (image : Image) (l : Commit) → Keeps p r c
        → IsImageOf (moments r c) image → IsLog c.live image (grown c.opening (l ∷ []))
        → 2 ≤ length (kept_by (core_end p c) 1) → ⊥ }
{}

/// No run or load keeps its promise that is done, or whose input is too long, with no count risen, and asks for more syncs than the
/// opening's, one for each vote, and two for each batch on disk; or for fewer. Where a line is too long and none may begin it asks for the
/// opening's alone.
pub fn calm_runs_sync_once()
    ensures more { (p : Program) (r : Observed) (c : Course) → Keeps p r c → NoneRose r.faults_before r.faults_after → ending.CountsSyncs r.ending
        → r.old.syncs + syncs_of (seen_at_entry r) (core_run p c) < r.new.syncs → ⊥ }
    ensures fewer { (p : Program) (r : Observed) (c : Course) → Keeps p r c → NoneRose r.faults_before r.faults_after → ending.CountsSyncs r.ending
        → r.new.syncs < r.old.syncs + syncs_of (seen_at_entry r) (core_run p c) → ⊥ }
    ensures long { (p : Program) (r : Observed) (c : Course) (line : ℕ) → Keeps p r c → NoneRose r.faults_before r.faults_after
        → r.ending ≡ ending.InputTooLong line → c.allowed ≡ 0 → r.new.syncs ≢ r.old.syncs + opening_syncs (seen_at_entry r) → ⊥ }
    ensures load { (p : Program) (n seed : ℕ) (r : Observed) (c : Course) → KeepsLoad p n seed r c → NoneRose r.faults_before r.faults_after
        → r.ending ≡ ending.Done → r.new.syncs ≢ r.old.syncs + syncs_of (seen_at_entry r) (core_run p c) → ⊥ }
{}

/// Whatever fails, and however it ends: no run or load keeps its promise that asks for more syncs than the opening's, one for each
/// vote, and two for each batch that was to be on disk, over any folder; nor a call that doesn't open its folder and asks for more
/// than the opening's.
pub fn syncs_are_bounded()
    ensures run { (p : Program) (r : Observed) (c : Course) → Keeps p r c → r.old.syncs + most_syncs_of (seen_at_entry r) (core_run p c) < r.new.syncs → ⊥ }
    ensures anywhere { (p : Program) (r : Observed) (c : Course) → KeepsAnywhere p r c
        → r.old.syncs + most_syncs_of (seen_at_entry r) (core_run p c) < r.new.syncs → ⊥ }
    ensures load { (p : Program) (r : Observed) (c : Course) (n seed : ℕ) → KeepsLoad p n seed r c
        → r.old.syncs + most_syncs_of (seen_at_entry r) (core_run p c) < r.new.syncs → ⊥ }
    ensures unopened { (r : Observed) → IsUnopened r → r.old.syncs + opening_syncs (seen_at_entry r) < r.new.syncs → ⊥ }
{}

/// No run or load keeps the promise in which no batch failed to be sealed and that leaves anything behind the log's closed gate in
/// an image, though the live manager file read as no longer than this at the entry; as one that wrote 8 bytes more would.
pub fn nothing_stands_behind_the_log()
    ensures run { (p : Program) (r : Observed) (c : Course) (image : Image) → Keeps p r c → how_many is_unsealed (core_run p c) ≡ 0 → IsImage r.new.disk image
        → length (seen_at_entry r (file.Manager c.live)) ≤ gate_of (image (file.Manager c.live)) + 1
        → gate_of (image (file.Manager c.live)) + 1 < length (image (file.Manager c.live)) → ⊥ }
    ensures load { (p : Program) (r : Observed) (c : Course) (image : Image) (n seed : ℕ) → KeepsLoad p n seed r c
        → how_many is_unsealed (core_run p c) ≡ 0 → IsImage r.new.disk image
        → length (seen_at_entry r (file.Manager c.live)) ≤ gate_of (image (file.Manager c.live)) + 1
        → gate_of (image (file.Manager c.live)) + 1 < length (image (file.Manager c.live)) → ⊥ }
{}

/// Over any folder that opens, sound or not: no run keeps the promise that writes a grain's file on which no event votes, that
/// answers a line twice, or that names a lock as the cause of an abort where the core refused the unit no lock.
pub fn any_folder_is_served_truly()
    ensures unvoted { (p : Program) (r : Observed) (c : Course) (g : GrainId) (m : Moment) → KeepsAnywhere p r c → how_many (is_vote_of g) (core_run p c) ≡ 0
        → Member m (moments r c) → m.disk (file.Grain c.live g) ≢ r.old.disk (file.Grain c.live g) → ⊥ }
    ensures twice { (p : Program) (r : Observed) (c : Course) (front between back : List Entry) (d e : Entry) → KeepsAnywhere p r c
        → c.entries ≡ front ++ (d ∷ (between ++ (e ∷ back))) → d.line ≡ e.line → ⊥ }
    ensures lock { (p : Program) (r : Observed) (c : Course) (e : Entry) (by : UnitNo) (grain : GrainId) → KeepsAnywhere p r c
        → Member e c.entries → e.what ≡ settled.Lock by grain
        → ((at : ℕ) (mode : Mode) → AppliesAt (core_run p c) at (event.Refuse e.unit grain mode) → ⊥) → ⊥ }
{}

/// No run keeps the promise that changes the program file or a file that isn't of the first slot, or that may leave another
/// header before the first gate.
pub fn other_files_stay()
    ensures aside { (p : Program) (r : Observed) (c : Course) (m : Moment) (f : FileId) → Keeps p r c → Member m (moments r c)
        → IsAside c.live f → m.disk f ≢ opened_disk r.old.disk f → ⊥ }
    ensures header { (p : Program) (r : Observed) (c : Course) (m : Moment) (image : Image) → Keeps p r c → Member m (moments r c)
        → IsImage m.disk image → take 15 (image (file.Manager c.live)) ≢ take 15 (seen_at_entry r (file.Manager c.live)) → ⊥ }
{}

/// No run keeps the promise that writes a reply before its record is in every image.
pub fn replies_come_after_records()
    ensures { (p : Program) (r : Observed) (c : Course) (m : Moment) (image : Image) (more : List ℕ) → Keeps p r c
        → Member m (moments r c) → IsImage m.disk image → IsLog c.live image c.opening
        → m.output ≡ r.old.output ++ more → Member 10 more
        → ((e : Entry) → Member e c.entries → (l : Commit) × Member l c.added × Acknowledges e l × (Member l (records_of c.opening) → ⊥)) → ⊥ }
{}

/// No run keeps the promise that tells the core of more replies than it wrote; so none, on one thread, that takes a batch
/// while an entry is settled that it never writes.
pub fn told_replies_are_written()
    ensures told { (p : Program) (r : Observed) (c : Course) → Keeps p r c → length c.entries < (core_end p c).manager.emitted → ⊥ }
    ensures taken { (p : Program) (r : Observed) (c : Course) (at : ℕ) → Keeps p r c → r.manner.threaded ≡ false → AppliesAt (core_run p c) at event.Take
        → length c.entries < length (state_before (core_run p c) at).manager.settled → ⊥ }
{}

/// No run keeps the promise whose output ends within a line that is no settled entry's.
pub fn cut_lines_are_replies()
    ensures { (p : Program) (r : Observed) (c : Course) → Keeps p r c → c.rest ≢ []
        → ((e : Entry) → Member e (core_end p c).manager.settled → IsPrefix c.rest (reply_line (shape_in p) e) → ⊥) → ⊥ }
{}

/// No run keeps the promise that answers a line twice.
pub fn lines_are_answered_once()
    ensures { (p : Program) (r : Observed) (c : Course) (front between back : List Entry) (d e : Entry) → Keeps p r c
        → c.entries ≡ front ++ (d ∷ (between ++ (e ∷ back))) → d.line ≡ e.line → ⊥ }
{}

/// No run keeps the promise that names a unit aborted whose record it added, or refused where some image has its record.
pub fn aborted_units_have_no_record()
    ensures lock { (p : Program) (r : Observed) (c : Course) (e : Entry) (l : Commit) (by : UnitNo) (grain : GrainId) → Keeps p r c
        → Member e c.entries → e.what ≡ settled.Lock by grain → Member l c.added → l.logged.unit ≡ e.unit → ⊥ }
    ensures doubt { (p : Program) (r : Observed) (c : Course) (e : Entry) (l : Commit) (image : Image) (log : Log) → Keeps p r c
        → Member e c.entries → e.what ≡ settled.Disk → IsImage r.new.disk image → IsLog c.live image log → Member l (records_of log)
        → (Member l (records_of c.opening) → ⊥) → l.logged.unit ≡ e.unit → ⊥ }
{}

/// No run keeps the promise that is left with a batch in doubt, and has no block of the records of its units behind the blocks
/// of the log, as where other records stand there, the block stands elsewhere, or its session is below one of the log's.
pub fn the_block_in_doubt_is_the_batchs()
    ensures { (p : Program) (r : Observed) (c : Course) (image : Image) → Keeps p r c → RunHasDoubt (core_run p c) → IsImage r.new.disk image
        → ((gate reached session : ℕ) (batch : List Commit) (before : Log) (bodies : List (List ℕ)) → AreRecordsOf (chosen (core_end p c)) batch
        → StandsUpTo Two c.live image before bodies gate reached → reached ≤ session → HasBlock c.live gate session batch image → ⊥) → ⊥ }
{}

/// No run keeps the promise that adds a record of a line that isn't there, or of a child for which its parent's play doesn't
/// ask, or that begins a line with another call than it asks for.
pub fn records_come_from_lines()
    ensures line { (p : Program) (r : Observed) (c : Course) (l : Commit) (n : ℕ) → Keeps p r c
        → Member l c.added → l.logged.origin ≡ Line n → length (lines r) < n → ⊥ }
    ensures child { (p : Program) (r : Observed) (c : Course) (l parent : Commit) (index depth : ℕ) → Keeps p r c
        → Member l c.added → Member parent c.added → l.logged.origin ≡ Child parent.logged.unit index depth
        → ((states : States) → (played p.types states parent.logged).asked ≡ []) → ⊥ }
    ensures call { (p : Program) (r : Observed) (c : Course) (at n : ℕ) (call other : Call) (plain : Bool) → Keeps p r c
        → AppliesAt (core_run p c) at (event.Begin (Line n) call plain) → IsLineCall p.types (lines r) n other → call ≢ other → ⊥ }
{}

/// No run keeps the promise that replies with another outcome than the one-thread store gives at the record's place, or whose
/// records stand in another order than the core's units finished.
pub fn replies_are_serial()
    ensures total { (p : Program) (r : Observed) (c : Course) (e : Entry) (l : Commit) (front back : List Commit) (outcome : Outcome) → Keeps p r c
        → Member e c.entries → e.what ≡ settled.Done outcome → c.added ≡ front ++ (l ∷ back) → IsEntryOf e l → IsTransaction p.types l.logged.call
        → (played p.types (states_after (standing_of c.opening).states front) l.logged).result ≢ outcome → ⊥ }
    ensures order { (p : Program) (r : Observed) (c : Course) (first : Effect) (later : List Effect) (l : Commit) (more : List Commit) → Keeps p r c
        → committed (core_end p c) ≡ first ∷ later → c.added ≡ l ∷ more → l.logged.unit ≢ first.unit → ⊥ }
{}

/// No run keeps the promise that names a lock as the cause of an abort where the core refused the unit no lock, or blames a
/// unit that isn't dead at any event, as one that died only afterwards.
pub fn aborts_have_causes()
    ensures lock { (p : Program) (r : Observed) (c : Course) (e : Entry) (by : UnitNo) (grain : GrainId) → Keeps p r c
        → Member e c.entries → e.what ≡ settled.Lock by grain
        → ((at : ℕ) (mode : Mode) → AppliesAt (core_run p c) at (event.Refuse e.unit grain mode) → ⊥) → ⊥ }
    ensures dead { (p : Program) (r : Observed) (c : Course) (e : Entry) (on : UnitNo) → Keeps p r c
        → Member e c.entries → e.what ≡ settled.Dependency on
        → ((before later : List CoreEvent) (event : CoreEvent) → c.events ≡ before ++ (event ∷ later)
        → IsAlive (run (begins (core_run p c)) before) event on) → ⊥ }
{}

/// No run keeps the promise that ends with a fault of a grain's file that no state of the run wanted and lacked, as the lowest such; that
/// is another slot's, or comes after a doubt; or of a manager file without a doubt; or as done after a doubt, or as done without having
/// opened the folder; and none that read its input to the end may say that it hasn't opened the folder, as one that calls a
/// grain file's fault a refusal would.
pub fn endings_are_true()
    ensures grain { (p : Program) (r : Observed) (c : Course) (slot : ℕ) (grain : GrainId) → Keeps p r c
        → r.ending ≡ ending.DiskFault (file.Grain slot grain)
        → ((at : ℕ) → at ≤ length c.events → next_wanted (state_before (core_run p c) at) ≢ Some grain) → ⊥ }
    ensures slot { (p : Program) (r : Observed) (c : Course) (slot : ℕ) (grain : GrainId) → Keeps p r c
        → r.ending ≡ ending.DiskFault (file.Grain slot grain) → slot ≢ c.live → ⊥ }
    ensures in_doubt { (p : Program) (r : Observed) (c : Course) (slot : ℕ) (grain : GrainId) → Keeps p r c
        → r.ending ≡ ending.DiskFault (file.Grain slot grain) → RunHasDoubt (core_run p c) → ⊥ }
    ensures manager { (p : Program) (r : Observed) (c : Course) (slot : ℕ) → Keeps p r c
        → r.ending ≡ ending.DiskFault (file.Manager slot) → (RunHasDoubt (core_run p c) → ⊥) → ⊥ }
    ensures doubt { (p : Program) (r : Observed) (c : Course) → Keeps p r c → RunHasDoubt (core_run p c) → r.ending ≡ ending.Done → ⊥ }
    ensures unopened { (r : Observed) → IsUnopened r → r.ending ≡ ending.Done → ⊥ }
    ensures read { (r : Observed) → IsUnopened r → r.old.input ≢ [] → r.new.input ≡ [] → ⊥ }
{}

/// Over any folder, sound or not: no run keeps the promise that calls a folder damaged at another place than the first one, or
/// one that isn't damaged, or no silo what reads as one; that opens one that is damaged or no silo, that calls its words bad use,
/// or that blames a grain's file for not seeing that the folder is no silo, or one that no record names, before any input is read; nor
/// one that is done and hasn't read its input to the end, or has told a line nothing; that has opened the folder, as the input shows that
/// it read, and ends with a grain file's fault of another slot; that writes something and ends as none does that opened its folder;
/// that ends as reading failed or a line is too long and says nothing of the windows before, or something of that window; that tells
/// another line's number, or a line where none is too long, or is done where one is. None calls a silo of format 2 old, or opens one of
/// format 1.
pub fn refusals_are_true()
    ensures place { (m : Manner) (r : Observed) (f : FileId) (place : ℕ) → Promises m r → r.ending ≡ ending.Damaged f place
        → opened_as (seen_at_entry r) ≢ DamagedAt f place → ⊥ }
    ensures sound { (m : Manner) (r : Observed) (live : ℕ) (f : FileId) (place : ℕ) → Promises m r → IsSound live (seen_at_entry r)
        → r.ending ≡ ending.Damaged f place → ⊥ }
    ensures silo { (m : Manner) (r : Observed) (live : ℕ) → Promises m r → IsLive IsMagic live (seen_at_entry r) → r.ending ≡ ending.NotASilo → ⊥ }
    ensures opened { (m : Manner) (r : Observed) → Promises m r → ((live : ℕ) → IsLive IsMagic live (seen_at_entry r) → ⊥) → r.ending ≡ ending.Done → ⊥ }
    ensures called_old { (m : Manner) (r : Observed) (live : ℕ) → Promises m r → IsLive IsMagic live (seen_at_entry r)
        → IsSilo (IsFormat Two) (seen_at_entry r (file.Manager live)) → r.ending ≡ ending.OldFormat → ⊥ }
    ensures opened_old { (m : Manner) (r : Observed) (live : ℕ) → Promises m r → IsLive IsMagic live (seen_at_entry r)
        → IsSilo (IsFormat One) (seen_at_entry r (file.Manager live)) → r.ending ≡ ending.Done → ⊥ }
    ensures carried { (m : Manner) (r : Observed) (f : FileId) (place : ℕ) → Promises m r → opened_as (seen_at_entry r) ≡ DamagedAt f place
        → r.new.input ≢ r.old.input → ⊥ }
    ensures bad_use { (m : Manner) (r : Observed) → Promises m r → r.ending ≡ ending.BadUse → ⊥ }
    ensures blamed { (m : Manner) (r : Observed) (slot : ℕ) (grain : GrainId) → Promises m r → ((live : ℕ) → IsLive IsMagic live (seen_at_entry r) → ⊥)
        → r.ending ≡ ending.DiskFault (file.Grain slot grain) → ⊥ }
    ensures unnamed { (m : Manner) (r : Observed) (slot : ℕ) (grain : GrainId) → Promises m r → (IsNamedIn Two slot (seen_at_entry r) grain → ⊥)
        → r.new.input ≡ r.old.input → r.ending ≡ ending.DiskFault (file.Grain slot grain) → ⊥ }
    ensures behind { (m : Manner) (r : Observed) (last grain : GrainId) (live place slot : ℕ) → Promises m r
        → opened_as (seen_at_entry r) ≡ DamagedAt (file.Grain live last) place → is_before last grain ≡ true
        → r.ending ≡ ending.DiskFault (file.Grain slot grain) → ⊥ }
    ensures unread { (m : Manner) (r : Observed) → Promises m r → r.ending ≡ ending.Done → r.new.input ≢ [] → ⊥ }
    ensures unanswered { (m : Manner) (r : Observed) → Promises m r → r.ending ≡ ending.Done → 1 ≤ length (lines_of r.old.input)
        → r.new.output ≡ r.old.output → ⊥ }
    ensures grain { (m : Manner) (r : Observed) (slot : ℕ) (grain : GrainId) → Promises m r → r.new.input ≢ r.old.input
        → ((live : ℕ) (log : Log) → opened_as (seen_at_entry r) ≡ Reads live log → slot ≢ live)
        → r.ending ≡ ending.DiskFault (file.Grain slot grain) → ⊥ }
    ensures said { (m : Manner) (r : Observed) → Promises m r → (ending.IsCarried r.ending → ⊥) → r.new.output ≢ r.old.output → ⊥ }

    // a window that was read whole before reading failed, and one that wasn't
    ensures forgotten { (m : Manner) (r : Observed) (front : List ℕ) → Promises m r → r.ending ≡ ending.ReadFault
        → r.old.input ≡ front ++ r.new.input → 1 ≤ whole_windows front → r.new.output ≡ r.old.output → ⊥ }
    ensures early { (m : Manner) (r : Observed) (front : List ℕ) → Promises m r → r.ending ≡ ending.ReadFault
        → r.old.input ≡ front ++ r.new.input → whole_windows front ≡ 0 → r.new.output ≢ r.old.output → ⊥ }

    // the windows before that of a line that is too long, and its own; which line is told, where there is none, and where it's passed
    ensures before_bad { (m : Manner) (r : Observed) (told number : ℕ) → Promises m r → r.ending ≡ ending.InputTooLong told
        → first_bad 0 (lines_of r.old.input) ≡ Some number → 1 ≤ before_bad number → r.new.output ≡ r.old.output → ⊥ }
    ensures in_bad { (m : Manner) (r : Observed) (told number : ℕ) → Promises m r → r.ending ≡ ending.InputTooLong told
        → first_bad 0 (lines_of r.old.input) ≡ Some number → before_bad number ≡ 0 → r.new.output ≢ r.old.output → ⊥ }
    ensures number { (m : Manner) (r : Observed) (told number : ℕ) → Promises m r → r.ending ≡ ending.InputTooLong told
        → first_bad 0 (lines_of r.old.input) ≡ Some number → told ≢ told_number number → ⊥ }
    ensures no_bad { (m : Manner) (r : Observed) (told : ℕ) → Promises m r → r.ending ≡ ending.InputTooLong told
        → first_bad 0 (lines_of r.old.input) ≡ None → ⊥ }
    ensures passed { (m : Manner) (r : Observed) (number : ℕ) → Promises m r → r.ending ≡ ending.Done
        → first_bad 0 (lines_of r.old.input) ≡ Some number → ⊥ }
{}

/// No call keeps what the program promises that answers words that say nothing otherwise than as bad use, but for want of
/// memory, or that changes the host then; or that answers bad use to words that say a command.
pub fn words_are_answered()
    ensures other { (words : List (List ℕ)) (shown : Command → Observed) (c : Command) → Serves words shown
        → ((d : Command) → Understands words d → ⊥) → (shown c).ending ≢ ending.BadUse → (shown c).ending ≢ ending.Memory → ⊥ }
    ensures changed { (words : List (List ℕ)) (shown : Command → Observed) (c : Command) → Serves words shown
        → ((d : Command) → Understands words d → ⊥) → (shown c).new ≢ (shown c).old → ⊥ }
    ensures said { (words : List (List ℕ)) (shown : Command → Observed) (c : Command) → Serves words shown
        → Understands words c → (shown c).ending ≡ ending.BadUse → ⊥ }
{}

/// Over any host, one that tells nothing of what it holds too: no answer is right that calls words bad use that say a command,
/// that answers other words otherwise, but for want of memory, or lets a count of faults rise for them, or that ends with a file's fault though its count,
/// below its last value, is what it was; that names anything else though a call on the input or the output failed; that has made a
/// silo, or reported one, though any call failed; or that names one fault though a call on another channel failed, where it carries
/// no lines.
pub fn bad_use_is_said_by_words()
    ensures said { (words : List (List ℕ)) (e : ending.Ending) (old new : Channel → ℕ) (c : Command)
        → AnswersAs words e old new → Understands words c → e ≡ ending.BadUse → ⊥ }
    ensures other { (words : List (List ℕ)) (e : ending.Ending) (old new : Channel → ℕ)
        → AnswersAs words e old new → ((c : Command) → Understands words c → ⊥) → e ≢ ending.BadUse → e ≢ ending.Memory → ⊥ }
    ensures used { (words : List (List ℕ)) (e : ending.Ending) (old new : Channel → ℕ) (channel : Channel)
        → AnswersAs words e old new → ((c : Command) → Understands words c → ⊥) → new channel ≢ old channel → ⊥ }
    ensures fault { (words : List (List ℕ)) (e : ending.Ending) (old new : Channel → ℕ) (f : FileId)
        → AnswersAs words e old new → e ≡ ending.DiskFault f → old (File f) < 2 ^ 64 - 1 → new (File f) ≡ old (File f) → ⊥ }
    ensures input { (words : List (List ℕ)) (e : ending.Ending) (old new : Channel → ℕ)
        → AnswersAs words e old new → e ≢ ending.ReadFault → new Input ≢ old Input → ⊥ }
    ensures output { (words : List (List ℕ)) (e : ending.Ending) (old new : Channel → ℕ)
        → AnswersAs words e old new → e ≢ ending.WriteFault → new Output ≢ old Output → ⊥ }
    ensures made { (words : List (List ℕ)) (e : ending.Ending) (old new : Channel → ℕ) (c : Command) (channel : Channel)
        → AnswersAs words e old new → Understands words c → ((f : ending.Ending) → MayGoOn c f → ⊥) → e ≡ ending.Done
        → new channel ≢ old channel → ⊥ }
    ensures named { (words : List (List ℕ)) (e : ending.Ending) (old new : Channel → ℕ) (c : Command) (f : FileId) (channel : Channel)
        → AnswersAs words e old new → Understands words c → ((g : ending.Ending) → MayGoOn c g → ⊥) → e ≡ ending.DiskFault f
        → channel ≢ File f → new channel ≢ old channel → ⊥ }
{}

/// No run keeps the promise in which a line begins whose window wasn't read whole before reading failed, or that is bad or behind a bad
/// one, or stands in the window of one that is too long; that has an entry of a line that may not begin, or has none of one that may
/// where all is done, reading failed or a line is too long; in which anything happens, is answered or recorded where no line may begin; or, on
/// one thread, in which a window's first line begins while anybody can move, as a unit of the window before that holds a lock, or wants
/// its grain in memory.
pub fn lines_begin_in_whole_windows()
    ensures fault { (p : Program) (r : Observed) (c : Course) (front : List ℕ) → Keeps p r c → r.ending ≡ ending.ReadFault
        → r.old.input ≡ front ++ r.new.input → whole_windows front < (core_end p c).units.lines → ⊥ }
    ensures bad { (p : Program) (r : Observed) (c : Course) (number : ℕ) → Keeps p r c → first_bad 0 (lines r) ≡ Some number
        → number ≤ (core_end p c).units.lines → ⊥ }
    ensures long { (p : Program) (r : Observed) (c : Course) (told number : ℕ) → Keeps p r c → r.ending ≡ ending.InputTooLong told
        → first_bad 0 (lines r) ≡ Some number → before_bad number < (core_end p c).units.lines → ⊥ }
    ensures entry { (p : Program) (r : Observed) (c : Course) (e : Entry) → KeepsAnywhere p r c → Member e c.entries → c.allowed < e.line → ⊥ }
    ensures unanswered { (p : Program) (r : Observed) (c : Course) (n : ℕ) → KeepsAnywhere p r c → ending.IsAllWritten r.ending → 1 ≤ n
        → n ≤ c.allowed → ((e : Entry) → Member e c.entries → e.line ≢ n) → ⊥ }
    ensures none { (p : Program) (r : Observed) (c : Course) (at : ℕ) (e : CoreEvent) → Keeps p r c → c.allowed ≡ 0
        → AppliesAt (core_run p c) at e → ⊥ }
    ensures no_entry { (p : Program) (r : Observed) (c : Course) (e : Entry) → Keeps p r c → c.allowed ≡ 0 → Member e c.entries → ⊥ }
    ensures record { (p : Program) (r : Observed) (c : Course) (l : Commit) → Keeps p r c → c.allowed ≡ 0 → Member l c.added → ⊥ }
    ensures seam { (p : Program) (r : Observed) (c : Course) (at n : ℕ) (call : Call) (plain : Bool) → KeepsAnywhere p r c → r.windowed ≡ true
        → r.manner.threaded ≡ false → AppliesAt (core_run p c) at (event.Begin (Line (n + 1)) call plain) → n % window_lines ≡ 0
        → movers p.types (core_run p c) (state_before (core_run p c) at) (got_from (begins (core_run p c)) (take at c.events)) ≢ [] → ⊥ }
    ensures wanted { (p : Program) (r : Observed) (c : Course) (at n : ℕ) (call : Call) (plain : Bool) (u : UnitNo) → KeepsAnywhere p r c
        → r.windowed ≡ true → r.manner.threaded ≡ false → AppliesAt (core_run p c) at (event.Begin (Line (n + 1)) call plain) → n % window_lines ≡ 0
        → next_wish (state_before (core_run p c) at) (units_of (core_run p c) (state_before (core_run p c) at))
        (lock_asked p.types (state_before (core_run p c) at) (got_from (begins (core_run p c)) (take at c.events)))
        (passed (applied_from (begins (core_run p c)) (take at c.events))) ≡ Some u → ⊥ }
{}

/// Over any folder that opens, sound or not: no run keeps the promise that brings a grain into memory with another state than the
/// opening log's where none of its committed units wrote the grain, with another state than the unit wrote whose version it says it is,
/// or with an older version than another of its committed units wrote; on one thread, before the lowest wanted grain; or in which a unit
/// wants another grain than that for whose lock its script asks, or, on one thread, wants it out of turn, as before a lower unit that waits
/// for its own, or twice in one pass. And nothing is brought that nobody wants.
pub fn grains_are_brought_truly()
    ensures opening { (p : Program) (r : Observed) (c : Course) (at : ℕ) (g : GrainId) (u : UnitNo) (state : List Value) → KeepsAnywhere p r c
        → AppliesAt (core_run p c) at (event.Load g u state) → IsUnwritten (state_before (core_run p c) at) g
        → state ≢ (standing_of c.opening).states g → ⊥ }
    ensures torn { (p : Program) (r : Observed) (c : Course) (at : ℕ) (g : GrainId) (u : UnitNo) (state wrote : List Value) → KeepsAnywhere p r c
        → AppliesAt (core_run p c) at (event.Load g u state) → (state_before (core_run p c) at).manager.verdict u ≡ verdict.Committed
        → state_written g ((state_before (core_run p c) at).manager.writes u) ≡ Some wrote → state ≢ wrote → ⊥ }
    ensures stale { (p : Program) (r : Observed) (c : Course) (at : ℕ) (g : GrainId) (u later : UnitNo) (state wrote : List Value) → KeepsAnywhere p r c
        → AppliesAt (core_run p c) at (event.Load g u state) → (state_before (core_run p c) at).manager.verdict later ≡ verdict.Committed
        → state_written g ((state_before (core_run p c) at).manager.writes later) ≡ Some wrote
        → (state_before (core_run p c) at).manager.place u < (state_before (core_run p c) at).manager.place later → ⊥ }
    ensures early { (p : Program) (r : Observed) (c : Course) (at : ℕ) (g : GrainId) (u : UnitNo) (state : List Value) → KeepsAnywhere p r c
        → r.manner.threaded ≡ false → AppliesAt (core_run p c) at (event.Load g u state)
        → next_wanted (state_before (core_run p c) at) ≢ Some g → ⊥ }
    ensures wish { (p : Program) (r : Observed) (c : Course) (at : ℕ) (u : UnitNo) (g : GrainId) → KeepsAnywhere p r c
        → AppliesAt (core_run p c) at (event.Want u g)
        → ((mode : Mode) → lock_asked p.types (state_before (core_run p c) at) (got_from (begins (core_run p c)) (take at c.events)) u ≢ Some (g, mode)) → ⊥ }
    ensures turn { (p : Program) (r : Observed) (c : Course) (at : ℕ) (u : UnitNo) (g : GrainId) → KeepsAnywhere p r c
        → r.manner.threaded ≡ false → AppliesAt (core_run p c) at (event.Want u g)
        → next_wish (state_before (core_run p c) at) (units_of (core_run p c) (state_before (core_run p c) at))
        (lock_asked p.types (state_before (core_run p c) at) (got_from (begins (core_run p c)) (take at c.events)))
        (passed (applied_from (begins (core_run p c)) (take at c.events))) ≢ Some u → ⊥ }
    ensures unwanted { (w : CoreState) (g : GrainId) (u : UnitNo) (state : List Value) → is_wanted w.units.wants g ≡ false
        → applies w (event.Load g u state) ≡ false }
{}

/// No report of a folder prints the text of another log than the one that it reads as, or a history with other sessions than its blocks', or may leave what couldn't stand there
/// before, or prints while a crash may take back what it tells.
pub fn reports_tell_the_folder()
    ensures text { (text : Log → List ℕ) (r : Observed) (live : ℕ) (log : Log) → IsUnopened r ⊎ IsReported text r → r.ending ≡ ending.Done
        → IsLog live (seen_at_entry r) log → r.new.output ≢ r.old.output ++ text log → ⊥ }
    ensures sessions { (r : Observed) (live : ℕ) (log : Log) (p : Program) → Reports r → r.ending ≡ ending.Done
        → IsLog live (seen_at_entry r) log → program_in_file (seen_at_entry r (file.Program live)) ≡ Ok p
        → r.new.output ≢ r.old.output ++ history_text (sessions_read Two p (seen_at_entry r (file.Manager live))) log → ⊥ }
    ensures changed { (text : Log → List ℕ) (r : Observed) (image : Image) → IsUnopened r ⊎ IsReported text r
        → IsImage r.new.disk image → (IsImage r.old.disk image → ⊥) → ⊥ }
    ensures taken { (text : Log → List ℕ) (r : Observed) (image : Image) → IsUnopened r ⊎ IsReported text r → IsImage r.new.disk image
        → r.new.output ≢ r.old.output
        → ((live : ℕ) → IsLive IsMagic live (seen_at_entry r) → image (file.Manager live) ≢ seen_at_entry r (file.Manager live)) → ⊥ }
{}

/// No `init` makes a silo of another program than its input, or of a text that is no program, or in place of a silo; refuses a
/// checked program, or names another fault than the first; or calls a folder a silo already that reads as none, or of which a crash
/// may yet take back what a manager file reads.
pub fn inits_make_their_input()
    ensures program { (r : Observed) (image : Image) → MakesSilo r → r.ending ≡ ending.Done → IsImage r.new.disk image
        → (HasProgram r.old.input (image program_file) → ⊥) → ⊥ }
    ensures text { (r : Observed) (fault : ProgramFault) → MakesSilo r → r.ending ≡ ending.Done → program_in r.old.input ≡ Err fault → ⊥ }
    ensures again { (r : Observed) (slot : ℕ) → MakesSilo r → r.ending ≡ ending.Done → slot ≤ 1 → IsSilo IsMagic (seen_at_entry r (file.Manager slot)) → ⊥ }
    ensures refused { (r : Observed) (p : Program) (fault : ProgramFault) → MakesSilo r → IsChecked p → r.old.input ≡ p.text
        → r.ending ≡ ending.BadProgram fault → ⊥ }
    ensures fault { (r : Observed) (fault other : ProgramFault) → MakesSilo r → program_in r.old.input ≡ Err fault
        → r.ending ≡ ending.BadProgram other → fault ≢ other → ⊥ }
    ensures empty { (r : Observed) → MakesSilo r → r.ending ≡ ending.AlreadyASilo → ((live : ℕ) → IsLive IsMagic live (seen_at_entry r) → ⊥) → ⊥ }
    ensures taken { (r : Observed) (image : Image) (slot : ℕ) → MakesSilo r → r.ending ≡ ending.AlreadyASilo → IsImage r.new.disk image → slot ≤ 1
        → seen_at_entry r (file.Manager slot) ≢ [] → image (file.Manager slot) ≢ seen_at_entry r (file.Manager slot) → ⊥ }
{}

/// No load keeps what is promised of it that is done and prints anything but its summary, that prints where memory was
/// wanting, or while some image lacks the order, or that is done after a doubt, or ends with a fault of the output then.
pub fn loads_tell_their_summary()
    ensures text { (p : Program) (n seed : ℕ) (r : Observed) (c : Course) → KeepsLoad p n seed r c → r.ending ≡ ending.Done
        → r.new.output ≢ r.old.output ++ summary_text r c → ⊥ }
    ensures early { (p : Program) (n seed : ℕ) (r : Observed) (c : Course) → KeepsLoad p n seed r c → r.ending ≡ ending.Memory
        → r.new.output ≢ r.old.output → ⊥ }
    ensures doubt { (p : Program) (n seed : ℕ) (r : Observed) (c : Course) → KeepsLoad p n seed r c → RunHasDoubt (core_run p c)
        → r.ending ≡ ending.Done → ⊥ }
    ensures fault { (p : Program) (n seed : ℕ) (r : Observed) (c : Course) → KeepsLoad p n seed r c → RunHasDoubt (core_run p c)
        → r.ending ≡ ending.WriteFault → ⊥ }
    ensures soon { (p : Program) (n seed : ℕ) (r : Observed) (c : Course) (m : Moment) (image : Image) → KeepsLoad p n seed r c
        → Member m (moments r c) → IsImage m.disk image → (IsLog c.live image (order c) → ⊥) → m.output ≢ r.old.output → ⊥ }
{}

/// No check keeps its promise that is done and prints anything but the line of its world, as one that prints nothing, or the line of
/// other starts; that prints where memory was wanting; that reads input, changes a file, asks for a sync or makes a second call; that
/// ends in another way; or that ends with a write fault though the output's count, below its last value, is what it was.
pub fn checks_tell_their_world()
    ensures text { (n seed : ℕ) (r : Observed) → Checks n seed r → r.ending ≡ ending.Done
        → r.new.output ≢ r.old.output ++ line_of (summary_of n (checked n seed)) → ⊥ }
    ensures early { (n seed : ℕ) (r : Observed) → Checks n seed r → r.ending ≡ ending.Memory → r.new.output ≢ r.old.output → ⊥ }
    ensures read { (n seed : ℕ) (r : Observed) → Checks n seed r → r.new.input ≢ r.old.input → ⊥ }
    ensures changed { (n seed : ℕ) (r : Observed) (f : FileId) → Checks n seed r → r.new.disk f ≢ r.old.disk f → ⊥ }
    ensures synced { (n seed : ℕ) (r : Observed) → Checks n seed r → r.new.syncs ≢ r.old.syncs → ⊥ }
    ensures second { (n seed : ℕ) (r : Observed) (m k : Moment) (more : List Moment) → Checks n seed r → r.new.past ≡ r.old.past ++ (m ∷ k ∷ more) → ⊥ }
    ensures other { (n seed : ℕ) (r : Observed) → Checks n seed r → r.ending ≢ ending.Done → r.ending ≢ ending.Memory
        → r.ending ≢ ending.WriteFault → ⊥ }
    ensures fault { (n seed : ℕ) (r : Observed) → Checks n seed r → r.ending ≡ ending.WriteFault → r.faults_before Output < 2 ^ 64 - 1
        → r.faults_after Output ≡ r.faults_before Output → ⊥ }
{}

/// A live manager file with a block of 65 records has no log, where it begins with a new silo.
pub fn batches_are_small()
    ensures { (live : ℕ) (image : Image) (session : ℕ) (records : List CommitRecord) (gate : ℕ) (log : Log)
        → slice_index (image (file.Manager live)) 13 ≡ 0 → length records ≡ 65
        → LogsUpTo (spelling_with_session Two session (body.Records records) ∷ []) gate (image (file.Manager live)) → IsLog live image log → ⊥ }
{}
