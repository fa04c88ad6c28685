ghost use Rattle.std.specs.Prelude.{◌<◌, ℕ, List};
ghost use Rattle.host_trait.specs.World as host;
ghost use Rattle.host_trait.specs.World.{Moment, Passes};
ghost use Rattle.core_model.specs.CoreState.{CoreState};
ghost use Rattle.promise_spec.specs.Journals.{Settlement, AllLog, IsSealing, commits_of};
ghost use Rattle.core_model.specs.declared.events.CoreEvent.{CoreEvent};
ghost use Rattle.core_model.specs.Events.{step};
ghost use Rattle.core_model.specs.Laws.{extended};
ghost use Rattle.core_model.specs.LegalRuns.{Run, ends};
ghost use Rattle.promise_spec.specs.Explanation.{AreAdded};
ghost use Rattle.promise_spec.specs.Records.{Commit};
ghost use Rattle.promise_spec.specs.Entries.{Log, grown};
ghost use Rattle.promise_spec.specs.UnitRule.{Basis, KeepsUnitRule};
ghost use Rattle.promise_spec.specs.Batches.{EndsABatch};
ghost use Rattle.promise_laws.specs.Closings.{AllEnd};

/// A log that ends where a batch does, as a run has closed them so far, ends so too when further events have come. So what was
/// gathered at earlier moments holds at the end.
pub fn batches_stay_whole()
    ensures step { (s : Basis) (r : Run) (e : CoreEvent) (opening log : Log) → 0 < r.base
        → KeepsUnitRule s r → EndsABatch (ends r) opening log → EndsABatch (step (ends r) e) opening log }
    ensures run { (s : Basis) (r : Run) (more : List CoreEvent) (opening log : Log) → 0 < r.base
        → KeepsUnitRule s (extended r more) → EndsABatch (ends r) opening log → EndsABatch (ends (extended r more)) opening log }
    ensures moments { (live : ℕ) (s : Basis) (r : Run) (more : List CoreEvent) (opening : Log) (old new : List Moment)
        → 0 < r.base → KeepsUnitRule s (extended r more) → Passes (AllEnd live (ends r) opening) old new
        → Passes (AllEnd live (ends (extended r more)) opening) old new }
{}

/// What a run adds, the records of its committed units, and with them those of a batch in doubt where an image has it, ends
/// where a batch does.
pub fn records_are_whole_batches()
    ensures { (s : Basis) (r : Run) (opening : Log) (more : List Commit) → 0 < r.base
        → KeepsUnitRule s r → AreAdded (ends r) more → EndsABatch (ends r) opening (grown opening more) }
{}

/// At the moments of a step: where each image has one log that ends so, and while a batch is sealed, where both logs do.
pub fn moments_end_batches()
    ensures logged { (live : ℕ) (w : CoreState) (opening log : Log) (m : Moment) → AllLog live log m.disk → EndsABatch w opening log → AllEnd live w opening m }
    ensures sealing { (live : ℕ) (w : CoreState) (opening before : Log) (batch : List Settlement) (mid : host.World) (m : Moment)
        → IsSealing live before batch mid m
        → EndsABatch w opening before → EndsABatch w opening (grown before (commits_of batch)) → AllEnd live w opening m }
{}
