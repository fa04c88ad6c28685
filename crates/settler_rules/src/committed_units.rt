ghost use Rattle.std.specs.Prelude.{◌≡◌, ◌<◌, ◌++◌, ℕ, List, [], ◌∷◌, true, false, Some};
ghost use Rattle.base_types.specs.declared.entries.Entry.{Entry};
ghost use Rattle.core_model.specs.CoreState.{UnitNo, Member};
ghost use Rattle.core_model.specs.Events.{applies};
ghost use Rattle.core_model.specs.Laws.{extended};
ghost use Rattle.core_model.specs.LegalRuns.{Run, ends};
ghost use Rattle.core_model.specs.SerialOrder.{committed, chosen};
ghost use Rattle.core_model.specs.Settler.{to_commit};
ghost use Rattle.core_model.specs.declared.events.CoreEvent.{CoreEvent};
ghost use Rattle.core_model.specs.declared.events.CoreEvent.TheVariants.{Sealed, Doubt};
ghost use Rattle.core_model.specs.declared.phases.Verdict.TheVariants.{Committed};
ghost use Rattle.promise_spec.specs.Causes.{is_sealed};
ghost use Rattle.promise_spec.specs.Crashes.{HasOutcome};
ghost use Rattle.settler_rules.specs.CommittedUnits.{IsToldOf, KeepsDoubt};

/// Where a batch is sealed, its units to commit, as they are shown, come behind the committed ones; no other event changes what
/// is committed.
pub fn sealed_batches_commit()
    ensures sealed { (r : Run) → 0 < r.base → (n : ℕ) → applies (ends r) (Sealed n) ≡ true
        → committed (ends (extended r (Sealed n ∷ []))) ≡ committed (ends r) ++ to_commit (ends r) (ends r).manager.batch }
    ensures others { (r : Run) → 0 < r.base → (e : CoreEvent) → is_sealed e ≡ false
        → committed (ends (extended r (e ∷ []))) ≡ committed (ends r) }
{}

/// Where a batch is left in doubt, its units to commit, as they were shown, are those of the doubt, and stay those whatever comes;
/// and nothing is committed any more.
pub fn doubts_keep_the_chosen()
    ensures doubted { (r : Run) → 0 < r.base → (n : ℕ) → applies (ends r) (Doubt n) ≡ true
        → chosen (ends (extended r (Doubt n ∷ []))) ≡ to_commit (ends r) (ends r).manager.batch }
    ensures stays { (r : Run) (more : List CoreEvent) (begins : ℕ) → (ends r).manager.doubt ≡ Some begins
        → KeepsDoubt (ends r) (ends (extended r more)) }
{}

/// Once an entry with an outcome is settled, its unit and that unit's children are committed by then, or never: no such unit is
/// committed later. So a record that the entry acknowledges is that of a batch that is sealed.
pub fn told_units_are_committed_by_then()
    ensures { (r : Run) (more : List CoreEvent) → 0 < r.base
        → (x : Entry) → Member x (ends r).manager.settled → HasOutcome x.what → (u : UnitNo) → IsToldOf (ends (extended r more)) x u
        → (ends (extended r more)).manager.verdict u ≡ Committed → (ends r).manager.verdict u ≡ Committed }
{}
