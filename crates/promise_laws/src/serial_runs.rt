ghost use Rattle.std.specs.Prelude.{◌≡◌, ◌↔◌, ◌<◌, true};
ghost use Rattle.base_types.specs.declared.entries.Entry.{Entry};
ghost use Rattle.core_model.specs.declared.effects.Effect.{Effect};
ghost use Rattle.core_model.specs.CoreState.{Member};
ghost use Rattle.core_model.specs.Causes.{IsCaused};
ghost use Rattle.core_model.specs.SerialOrder.{AllLoadsTrue, AllPlay};
ghost use Rattle.core_model.specs.LegalRuns.{Run, IsLegal, begins, ends};
ghost use Rattle.script_tree.specs.Programs.{ProgramTree};
ghost use Rattle.promise_spec.specs.Programs.{Program};
ghost use Rattle.promise_spec.specs.SerialExecution.{IsSerial};
ghost use Rattle.promise_spec.specs.UnitRule.{Basis, IsPlayOf, KeepsUnitRule};
ghost use Rattle.promise_spec.specs.Courses.{Observed, Course};
ghost use Rattle.promise_spec.specs.Entries.{standing_of};
ghost use Rattle.promise_spec.specs.Explanation.{IsExplained};
ghost use Rattle.promise_laws.specs.Legality.{is_play, applied_run};

/// Where a run keeps the unit rule and each load is true, the events that applied are a legal run of the core with the same end.
/// So the core's laws speak of it. Their effects are plays whatever was loaded.
pub fn runs_are_legal()
    ensures tests { (types : ProgramTree) (e : Effect) → (is_play types e ≡ true) ↔ IsPlayOf types e }
    ensures ends_alike { (r : Run) → ends (applied_run r) ≡ ends r }
    ensures plays { (s : Basis) (r : Run) → KeepsUnitRule s r → AllPlay (is_play s.types) (applied_run r).events }
    ensures legal { (s : Basis) (r : Run) → 0 < r.base → AllLoadsTrue r.opening (begins r) r.events → KeepsUnitRule s r
        → IsLegal (is_play s.types) (applied_run r) }
{}

/// What the causes clause explains is serial: where the records are those of the core's committed units, or of these and
/// of the batch in doubt, and the events keep the unit rule, the records are serial from what the opening log stands
/// for. This is the core's own law, carried from its effects to the records.
pub fn explained_runs_are_serial()
    ensures { (p : Program) (r : Observed) (c : Course) → 0 < c.opening.base.next → IsExplained p r c
        → IsSerial p.types (standing_of c.opening).states c.added }
{}

/// Where a run keeps the unit rule and each load is true, each entry that it settles has its cause at an event of the run.
pub fn explained_entries_have_causes()
    ensures { (s : Basis) (r : Run) → 0 < r.base → AllLoadsTrue r.opening (begins r) r.events → KeepsUnitRule s r
        → (x : Entry) → Member x (ends r).manager.settled → IsCaused r x }
{}
