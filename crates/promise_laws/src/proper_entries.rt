ghost use Rattle.std.specs.Prelude.{◌<◌, ◌≤◌, ◌^◌, length};
ghost use Rattle.std.specs.List.{AllByRecursion};
ghost use Rattle.base_types.specs.declared.shapes.Shape.{Shape};
ghost use Rattle.core_model.specs.SerialOrder.{AllLoadsTrue};
ghost use Rattle.core_model.specs.LegalRuns.{Run, begins, ends};
ghost use Rattle.promise_spec.specs.Cores.{applied_in};
ghost use Rattle.promise_spec.specs.Outputs.{IsProper};
ghost use Rattle.promise_spec.specs.UnitRule.{Basis, KeepsUnitRule};
ghost use Rattle.promise_laws.specs.ProperEvents.{IsEventIn};

/// Each entry that a run settles can be written as a line, where its events carry results within the limits and grains of the
/// program and each load is true: lines and units are in range, no outcome is an abort, and each grain that is named is the program's.
pub fn settled_entries_are_proper()
    ensures { (s : Basis) (shape : Shape) (r : Run) → 0 < r.base → AllLoadsTrue r.opening (begins r) r.events → KeepsUnitRule s r
        → length s.lines < 2 ^ 32 → (ends r).units.next ≤ 2 ^ 64 → AllByRecursion (IsEventIn shape) (applied_in r)
        → AllByRecursion (IsProper shape) (ends r).manager.settled }
{}
