ghost use Rattle.std.specs.Prelude.{◌≡◌, ◌↔◌, ℕ, Bool, true, Some};
ghost use Rattle.core_model.specs.declared.effects.Effect.{Effect};
ghost use Rattle.core_model.specs.declared.effects.Read.{Read};
ghost use Rattle.core_model.specs.declared.phases.Phase.TheVariants.{Running, Finished};
ghost use Rattle.core_model.specs.declared.phases.Verdict.TheVariants.{Committed, Aborted};
ghost use Rattle.core_model.specs.CoreState.{UnitNo, GrainId, Entry, Settled, Batch, Member};
ghost use Rattle.core_model.specs.Tests.{is_running, is_gone, members};
ghost use Rattle.core_model.specs.Lines.{HasBegunFor};
ghost use Rattle.core_model.specs.DeadUnits.{IsDead};
ghost use Rattle.core_model.specs.LegalRuns.{Run, IsLegal, ends};
ghost use Rattle.core_history.specs.Histories.{history_of};
ghost use Rattle.core_history.specs.Units.{finish_order, runs, BeganFor, held, reads_in, writes_in, result_in};
ghost use Rattle.core_history.specs.Batches.{batches_in, InBatch};
ghost use Rattle.core_history.specs.Fates.{IsDeadIn, IsCommittedIn};
ghost use Rattle.core_history.specs.Dependencies.{IsDependency};
ghost use Rattle.core_history.specs.GoneVersions.{IsDecidedDead, IsGone};
ghost use Rattle.core_history.specs.Causes.{IsCausedIn, IsAbortedIn};
ghost use Rattle.core_history.specs.States.{mode_of, batches_of};
ghost use Rattle.core_history.specs.ComputedHistories.{HistoriesAreRead};

/// A unit holds what it was granted last and hasn't released. The finish order is that of the finishes, a unit runs
/// exactly where it has begun and hasn't ended, and began for the line that its begin names.
pub fn holders_are_granted()
    ensures holders { (r : Run) (u : UnitNo) (g : GrainId) → mode_of u ((ends r).cells.holds g) ≡ held u g (history_of r) }
    ensures order { (r : Run) → (ends r).manager.order ≡ finish_order (history_of r) }
    ensures running { (r : Run) (u : UnitNo) → is_running ((ends r).units.phase u) ≡ runs u (history_of r) }
    ensures lines { (r : Run) (u : UnitNo) (n : ℕ) → HasBegunFor (ends r) u n ↔ BeganFor (history_of r) u n }
{}

/// A unit's reads are what its first grants showed, its writes and its result what it finished with, and its
/// dependencies the sources that weren't committed at those grants.
pub fn reads_are_granted()
    ensures reads { (r : Run) (u : UnitNo) → (ends r).units.reads u ≡ reads_in u (history_of r) }
    ensures writes { (r : Run) (u : UnitNo) → (ends r).manager.writes u ≡ writes_in u (history_of r) }
    ensures result { (r : Run) (u : UnitNo) → (ends r).units.phase u ≡ Finished → result_in u (history_of r) ≡ Some ((ends r).manager.result u) }
    ensures dependencies { (plays : Effect → Bool) (r : Run) → IsLegal plays r → (u d : UnitNo)
        → Member d ((ends r).units.deps u) ↔ IsDependency (history_of r) u d }
{}

/// The batches of the history are those of the state: the closed ones, then the open one, whose units are those of the
/// batch of its number.
pub fn batches_are_taken()
    ensures taken { (r : Run) → batches_of (ends r) ≡ batches_in (history_of r) }
    ensures in_open { (r : Run) (b : Batch) → (ends r).manager.batch ≡ Some b → (u : UnitNo)
        → Member u (members (ends r) b) ↔ InBatch (history_of r) b.number u }
{}

/// Who is dead is dead by the history, and who is committed committed by it.
pub fn the_dead_are_dead()
    ensures dead { (plays : Effect → Bool) (r : Run) → IsLegal plays r → (u : UnitNo) → IsDead (ends r) u ↔ IsDeadIn (history_of r) u }
    ensures committed { (plays : Effect → Bool) (r : Run) → IsLegal plays r → (u : UnitNo)
        → ((ends r).manager.verdict u ≡ Committed) ↔ IsCommittedIn (history_of r) u }
{}

/// Who is aborted after its finish is dead by the history and had a batch that has ended; and what a running unit read is
/// no longer on top of its grain's stack exactly where the history says that it's gone.
pub fn versions_are_taken_off()
    ensures decided { (plays : Effect → Bool) (r : Run) → IsLegal plays r → (u : UnitNo)
        → (((ends r).units.phase u ≡ Finished) × ((ends r).manager.verdict u ≡ Aborted)) ↔ IsDecidedDead (history_of r) u }
    ensures gone { (plays : Effect → Bool) (r : Run) → IsLegal plays r → (u : UnitNo) (x : Read) → (ends r).units.phase u ≡ Running
        → Member x ((ends r).units.reads u) → (is_gone (ends r) x ≡ true) ↔ IsGone (history_of r) x }
{}

/// Each settled entry was settled by an event of the history, with the cause that it names, and has its unit's line; and
/// each aborted unit was aborted so, a child too.
pub fn causes_are_in_the_history()
    ensures entries { (plays : Effect → Bool) (r : Run) → IsLegal plays r → (x : Entry) → Member x (ends r).manager.settled → IsCausedIn (history_of r) x }
    ensures units { (plays : Effect → Bool) (r : Run) → IsLegal plays r → (u : UnitNo) → (ends r).manager.verdict u ≡ Aborted
        → (why : Settled) × IsAbortedIn (history_of r) u why }
{}

/// The histories of the core model's computed runs tell what is said of them.
pub fn histories_are_computed()
    ensures { HistoriesAreRead }
{}
