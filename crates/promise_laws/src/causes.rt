ghost use Rattle.std.specs.Prelude.{◌<◌};
ghost use Rattle.core_model.specs.SerialOrder.{AllLoadsTrue};
ghost use Rattle.core_model.specs.LegalRuns.{Run, begins};
ghost use Rattle.promise_spec.specs.UnitRule.{Basis, KeepsUnitRule};
ghost use Rattle.promise_spec.specs.Causes.{AreCaused};

/// Where a run keeps the unit rule and each load is true, each entry that it settles has its cause, and so has each unit that ended aborted,
/// a child too: an event of the run aborted it.
pub fn explained_aborts_have_causes()
    ensures { (s : Basis) (r : Run) → 0 < r.base → AllLoadsTrue r.opening (begins r) r.events → KeepsUnitRule s r → AreCaused r }
{}
