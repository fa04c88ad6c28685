ghost use Rattle.std.specs.Prelude.{◌<◌};
ghost use Rattle.core_model.specs.LegalRuns.{Run, begins, ends};
ghost use Rattle.promise_spec.specs.UnitAnswers.{got_from};
ghost use Rattle.promise_spec.specs.UnitRule.{Basis, KeepsUnitRule};
ghost use Rattle.promise_laws.specs.UnitAnswers.{Traced};

/// What each unit got in a run that keeps the unit rule is what the core shows of it: nothing before it begins, its reads with
/// their states, and its children in their order; and its script asked for each thing after those before it.
pub fn units_got_what_the_core_shows()
    ensures { (s : Basis) (r : Run) → 0 < r.base → KeepsUnitRule s r → Traced s.types (ends r) (got_from (begins r) r.events) }
{}
