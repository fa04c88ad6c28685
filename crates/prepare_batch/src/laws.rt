ghost use Rattle.std.specs.Prelude.{◌≡◌, Bool, None, Some, map, ℕ, List};
ghost use Rattle.core_model.specs.declared.effects.Effect.{Effect};
ghost use Rattle.core_model.specs.CoreState.{GrainId, Batch};
ghost use Rattle.core_model.specs.Answers.{view};
ghost use Rattle.core_model.specs.LegalRuns.{Run, IsLegal, ends};
ghost use Rattle.core_model.specs.Steps.{AreAscending};
ghost use Rattle.prepare_batch.specs.Work.{work_of, untouched};
ghost use Rattle.prepare_batch.specs.CoreWork.{PlaysWriteOnce, core_work};

/// The work of a batch has each grain once, ascending. Of what the core shows of its open batch, as long as that isn't
/// decided, it is the core's plan, and for each grain the versions that the core shows for the grain's vote; where plays
/// write each grain once.
pub fn work_is_the_plan()
    ensures ascending { (at : GrainId → ℕ) (effects : List Effect) → AreAscending (map (λ x. x.grain) (work_of at effects)) }
    ensures planned { (plays : Effect → Bool) (r : Run) → IsLegal plays r → PlaysWriteOnce plays → (b : Batch) → (ends r).manager.batch ≡ Some b
        → b.decisions ≡ None
        → (at : GrainId → ℕ) → work_of at (untouched (view (ends r) b).aborted (view (ends r) b).effects) ≡ core_work at (ends r) b }
{}
