ghost use Rattle.std.specs.Prelude.{◌≡◌, ◌<◌, ◌++◌, Bool, true, false, not, List, Some, None};
ghost use Rattle.base_types.specs.declared.calls.UnitNo.{UnitNo};
ghost use Rattle.base_types.specs.declared.calls.Outcome.{Outcome};
ghost use Rattle.base_types.specs.declared.entries.Entry.{Entry};
ghost use Rattle.base_types.specs.declared.entries.Settled.TheVariants.{Dependency};
ghost use Rattle.core_model.specs.declared.events.CoreEvent.{CoreEvent};
ghost use Rattle.core_model.specs.declared.effects.Effect.{Effect};
ghost use Rattle.core_model.specs.LegalRuns.{Run, IsLegal, begins, ends};
ghost use Rattle.core_model.specs.SerialOrder.{AllLoadsTrue, AllPlay, IsSerialOrder, committed, chosen};
ghost use Rattle.core_model.specs.Consistency.{IsConsistent, EffectsArePlays, PlainRunsArePlays};
ghost use Rattle.core_model.specs.CoreState.{Member};
ghost use Rattle.core_model.specs.Causes.{IsCaused, GoneIsRemoved};
ghost use Rattle.core_model.specs.DeadUnits.{IsDead, DeadEitherWay};
ghost use Rattle.core_model.specs.Replies.{says_no, OnlyExtends};
ghost use Rattle.core_model.specs.Tests.{ask_answer, outcome_of};
ghost use Rattle.core_model.specs.CoreState.{GrainId, Mode, Batch, Decision, CoreState};
ghost use Rattle.core_model.specs.LockAnswers.{AskExactly, AskedLocks, GrantApplies, SettledStacksAreSingle, TakeApplies, TakesBatch};
ghost use Rattle.core_model.specs.ComputedRuns.{RunsAreComputed};
ghost use Rattle.core_model.specs.Settler.{settler_step, step_of, to_commit, work_in};
ghost use Rattle.core_model.specs.Steps.{IsPlan, ShowsVersions, StepApplies, TellsDecided};
ghost use Rattle.core_model.specs.declared.events.CoreEvent.TheVariants.{Take};
ghost use Rattle.core_model.specs.Events.{applies, batch_size, reply_to, step};
ghost use Rattle.core_model.specs.Memory.{MemoryIsBounded};
ghost use Rattle.core_model.specs.Batches.{BatchesFollow};
ghost use Rattle.core_model.specs.Lines.{EntriesAreOnce};
ghost use Rattle.core_model.specs.ProperEntries.{HasUnitOf, IsProperEntry, MaySettle, NeverAborts};
ghost use Rattle.core_model.specs.ToldOutcomes.{LinesAreTold, ToldIsFinal};
ghost use Rattle.core_model.specs.LoadlessLaws.{HoldsWithoutLoads};
ghost use Rattle.core_model.specs.Holders.{HoldersHaveRead, RunnersKeepLocks};
ghost use Rattle.core_model.specs.Laws.{IsLongestFreePrefix, NoLockIsHeldUntilCommit, ChildrenAreKnown, AnswersAreOutcomes, extended};

/// Whatever events come, in whatever order, the committed units in the order in which they finished are serial
/// from the opening store. They stay so with the units to commit of the batch that is open or in doubt after them.
pub fn committed_are_serial()
    ensures committed { (plays : Effect → Bool) (r : Run) → IsLegal plays r → IsSerialOrder plays r.opening (committed (ends r)) }
    ensures chosen { (plays : Effect → Bool) (r : Run) → IsLegal plays r → IsSerialOrder plays r.opening (committed (ends r) ++ chosen (ends r)) }
{}

/// The core invariant: nine facts hold after every legal run. The effects of finished units and of plain runs are plays whatever was
/// loaded.
pub fn core_is_consistent()
    ensures facts { (plays : Effect → Bool) (r : Run) → IsLegal plays r → IsConsistent plays r.opening (ends r) }
    ensures effects { (plays : Effect → Bool) (r : Run) → AllPlay plays r.events → EffectsArePlays plays (ends r) }
    ensures plain { (plays : Effect → Bool) (r : Run) → AllPlay plays r.events → PlainRunsArePlays plays (ends r) }
{}

/// Whatever was loaded, a batch is the longest prefix, of at most 64, of the finished undecided units that hold no lock. So no lock is held
/// until commit.
pub fn batches_are_longest()
    ensures longest { (r : Run) → 0 < r.base → IsLongestFreePrefix (ends r) (batch_size (ends r)) }
    ensures no_lock { (r : Run) → 0 < r.base → NoLockIsHeldUntilCommit (ends r) }
{}

/// Whatever comes later and whatever is loaded, a dead unit stays dead, and an outcome that is known stays. A unit is dead by its sources
/// exactly where it is dead by its dependencies.
pub fn fate_is_final()
    ensures dead { (r : Run) (more : List CoreEvent) → 0 < r.base → (u : UnitNo) → IsDead (ends r) u → IsDead (ends (extended r more)) u }
    ensures known { (r : Run) (more : List CoreEvent) → 0 < r.base → (u : UnitNo) (o : Outcome) → outcome_of (ends r) u ≡ Some o
        → outcome_of (ends (extended r more)) u ≡ Some o }
    ensures either_way { (plays : Effect → Bool) (r : Run) → IsLegal plays r → DeadEitherWay (ends r) }
{}

/// Whatever was loaded, a child is known by its parent and its index, is younger, and finishes first. What a unit's play was answered are its
/// children's outcomes.
pub fn children_answer()
    ensures known { (r : Run) → 0 < r.base → ChildrenAreKnown (ends r) }
    ensures answers { (r : Run) → 0 < r.base → AnswersAreOutcomes (ends r) }
{}

/// Each settled entry was settled by an event of the run, with the cause that it names: the oldest older holder in a
/// conflicting mode, the oldest source that is gone, the first grain whose file failed and only then the oldest dead
/// dependency, a block that isn't on disk, or one of which nobody knows.
pub fn causes_are_true()
    ensures caused { (plays : Effect → Bool) (r : Run) → IsLegal plays r → (x : Entry) → Member x (ends r).manager.settled → IsCaused r x }
    ensures gone { (plays : Effect → Bool) (r : Run) → IsLegal plays r → GoneIsRemoved (ends r) }
{}

/// Whatever was loaded, where memory has a limit a grain in memory was used lately, and so many are no more than the limit, or it
/// isn't idle.
pub fn memory_is_bounded()
    ensures { (r : Run) → 0 < r.base → MemoryIsBounded (ends r) }
{}

/// The batches that were taken follow one another in the finish order. Each has one decision for each unit once it is
/// decided, and each grain that a unit to commit wrote has a vote of yes.
pub fn batches_follow()
    ensures { (plays : Effect → Bool) (r : Run) → IsLegal plays r → BatchesFollow (ends r) }
{}

/// Whatever was loaded, each line is answered once: where it is bad, or its unit was refused, came to its end as a plain run, or stands in a
/// closed batch. The entries of finished units stand in the finish order.
pub fn lines_are_answered_once()
    ensures { (r : Run) → 0 < r.base → EntriesAreOnce (ends r) }
{}

/// Whatever was loaded, a unit has at most one lock of a grain, and with it what it read there; it has read what it wrote. While it runs it
/// keeps its locks.
pub fn holders_have_read()
    ensures read { (r : Run) → 0 < r.base → HoldersHaveRead (ends r) }
    ensures keep { (r : Run) (more : List CoreEvent) → 0 < r.base → RunnersKeepLocks (ends r) (ends (extended r more)) }
{}

/// A reply says no exactly where the event doesn't apply, and then nothing changes.
pub fn replies_tell()
    ensures told { (w : CoreState) (e : CoreEvent) → says_no (reply_to w e) ≡ not (applies w e) }
    ensures unchanged { (w : CoreState) (e : CoreEvent) → applies w e ≡ false → step w e ≡ w }
{}

/// The finish order, the closed batches and the settled list only grow at their end.
pub fn lists_only_grow()
    ensures { (r : Run) (more : List CoreEvent) → OnlyExtends (ends r) (ends (extended r more)) }
{}

/// The event of the settler's step applies, but after a stop that it isn't allowed after. What is shown tells the step: for a
/// vote with the versions that the batch's units wrote there, for a seal with the effects of the units to commit. Whether a
/// unit is decided is answered as its outcome is.
pub fn settler_steps_apply()
    ensures applies { (r : Run) (e : CoreEvent) → StepApplies (ends r) e }
    ensures shown { (r : Run) → step_of (work_in (ends r) (settler_step (ends r))) ≡ settler_step (ends r) }
    ensures versions { (w : CoreState) (b : Batch) (g : GrainId) → ShowsVersions w b g }
    ensures effects { (r : Run) → 0 < r.base → (b : Batch) (ds : List Decision) → (ends r).manager.batch ≡ Some b
        → b.decisions ≡ Some ds → to_commit (ends r) (Some b) ≡ chosen (ends r) }
    ensures is_decided { (w : CoreState) (u : UnitNo) → TellsDecided w u }
{}

/// The plan of a batch has the grains that its units wrote, but for units that read from one that is aborted, or to abort;
/// it is made where the batch is taken, and is still that until the batch is decided.
pub fn plans_are_kept()
    ensures taken { (w : CoreState) → applies w Take ≡ true → (b : Batch) → (step w Take).manager.batch ≡ Some b → IsPlan (step w Take) b }
    ensures stays { (plays : Effect → Bool) (r : Run) → IsLegal plays r → (b : Batch) → (ends r).manager.batch ≡ Some b → b.decisions ≡ None
        → IsPlan (ends r) b }
{}

/// A unit that asks for a lock is answered exactly: that it isn't active; or the oldest source whose version, read by the
/// unit, was taken off; or what the grain's locks say; or that the grain isn't in memory. What an answer says of the locks and
/// of memory is so in every state. A grant applies exactly where the answer is that the lock can be had, and no stop stands.
pub fn asking_is_told()
    ensures asked { (plays : Effect → Bool) (r : Run) → IsLegal plays r → (u : UnitNo) (g : GrainId) (mode : Mode)
        → AskExactly (ends r) u g mode (ask_answer (ends r) u g mode) }
    ensures locks { (w : CoreState) (u : UnitNo) (g : GrainId) (mode : Mode) → AskedLocks w u g mode (ask_answer w u g mode) }
    ensures granted { (w : CoreState) (u : UnitNo) (g : GrainId) (mode : Mode) → GrantApplies w u g mode }
{}

/// A take applies exactly where no batch is open, no stop stands, and the first of the finished undecided units holds no
/// lock. The batch that it opens is the longest prefix of them that `batches_are_longest` tells.
pub fn takes_apply()
    ensures applies { (w : CoreState) → TakeApplies w }
    ensures opens { (w : CoreState) → applies w Take ≡ true → (b : Batch) × TakesBatch w (step w Take) b }
{}

/// Where every grain has learnt what there is to learn, the stack of a grain whose writers are all decided is its last
/// committed version alone.
pub fn settled_stacks_are_single()
    ensures { (plays : Effect → Bool) (r : Run) → IsLegal plays r → SettledStacksAreSingle r.opening (ends r) }
{}

/// Where memory has no limit no load applies: every list of events is a legal run, as far as its effects are plays.
pub fn runs_without_limit_are_legal()
    ensures loads { (r : Run) → r.capacity ≡ None → AllLoadsTrue r.opening (begins r) r.events }
    ensures legal { (plays : Effect → Bool) (r : Run) → 0 < r.base → r.capacity ≡ None → AllPlay plays r.events → IsLegal plays r }
{}

/// These runs come to what is said of them. Each event of the table applies in one of them.
pub fn runs_are_computed()
    ensures { RunsAreComputed }
{}

/// Settled entries are proper, where no play ends in an abort: the line is one that was taken, the unit is one of the run's,
/// or nobody's of a bad line, a result is no abort, and what a cause names is in range. All of it but for what a dependency names
/// holds whatever was loaded.
pub fn entries_are_proper()
    ensures unit { (r : Run) → 0 < r.base → (x : Entry) → Member x (ends r).manager.settled → HasUnitOf r.base (ends r) x.unit x.what }
    ensures words { (plays : Effect → Bool) (r : Run) → 0 < r.base → AllPlay plays r.events → NeverAborts plays → (x : Entry)
        → Member x (ends r).manager.settled → ((on : UnitNo) → x.what ≡ Dependency on → ⊥) → MaySettle (ends r) x.unit x.what }
    ensures whole { (plays : Effect → Bool) (r : Run) → IsLegal plays r → NeverAborts plays → (x : Entry) → Member x (ends r).manager.settled
        → IsProperEntry r.base (ends r) x }
{}

/// Whatever was loaded, an outcome that was told is the unit's for good, and the unit's children are decided, as those of each unit are
/// that came to its end. Unless a batch is in doubt, a line's unit is decided exactly where it has its entry.
pub fn told_outcomes_are_final()
    ensures told { (r : Run) → 0 < r.base → ToldIsFinal (ends r) }
    ensures lines { (r : Run) → 0 < r.base → (ends r).manager.doubt ≡ None → LinesAreTold (ends r) }
{}

/// What code may rely on holds after every list of events, whatever was loaded: the closed batches and the open one, that who is
/// judged is of that one once it is decided, no locks in them, exclusive holders and what holders have read, which grains are in
/// memory, children and their outcomes, and the entries.
pub fn code_may_rely()
    ensures { (r : Run) → 0 < r.base → HoldsWithoutLoads (ends r) }
{}
