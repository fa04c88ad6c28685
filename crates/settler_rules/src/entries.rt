ghost use Rattle.std.specs.Prelude.{◌≡◌, ◌<◌, length};
ghost use Rattle.base_types.specs.declared.entries.Entry.{Entry};
ghost use Rattle.core_model.specs.CoreState.{Member};
ghost use Rattle.core_model.specs.LegalRuns.{Run, ends};
ghost use Rattle.core_model.specs.Settler.{settler_step, work_in};
ghost use Rattle.core_model.specs.declared.questions.SettlerWork.TheVariants.{Write};
ghost use Rattle.promise_spec.specs.Outputs.{IsProper};
ghost use Rattle.promise_spec.specs.UnitRule.{Basis, KeepsUnitRule};
ghost use Rattle.settler_rules.specs.Entries.{IsEntryInRange};
ghost use Rattle.settler_rules.specs.LoggedUnits.{shape_with};

/// Each entry that the core settles, and so the one that is shown for the next step, can be written as a line, where its parts
/// are what their types can hold: line and unit are in range, a result is no abort, and each grain is of the program's types.
pub fn shown_entries_are_proper()
    ensures settled { (s : Basis) (r : Run) → 0 < r.base → KeepsUnitRule s r → r.kinds ≡ length s.types
        → (x : Entry) → Member x (ends r).manager.settled → IsEntryInRange x → IsProper (shape_with s.types) x }
    ensures shown { (r : Run) (x : Entry) → work_in (ends r) (settler_step (ends r)) ≡ Write x → Member x (ends r).manager.settled }
{}
