ghost use Rattle.std.specs.Prelude.{◌≡◌, ◌<◌, ℕ, Bool, false, List, [], None};
ghost use Rattle.core_model.specs.LegalRuns.{Run, ends};
ghost use Rattle.script_tree.specs.Programs.{ProgramTree};
ghost use Rattle.promise_spec.specs.UnitAnswers.{got_in};
ghost use Rattle.promise_spec.specs.TurnRule.{KeepsTurnRule};
ghost use Rattle.turn_rules.specs.NextEvent.{movers_in, line_has_place, NobodyWaitsForLoad};
ghost use Rattle.turn_rules.specs.RunCounts.{IsCounted};
ghost use Rattle.turn_rules.specs.QuietRun.{HasRun};

/// Whatever was loaded, units are numbered without a gap, what a unit got has its children, and each line that was taken has
/// its unit or its entry.
pub fn runs_are_counted()
    ensures { (r : Run) → 0 < r.base → IsCounted r.base (ends r) (got_in r) }
{}

/// Where no mover is left, nobody waits for a grain to be brought into memory, no line has a place, and there is no doubt and no stop, each unit that began is settled and holds
/// no lock, no batch is open, all that is settled is written, and each line has its entry. No run that keeps the turn rule
/// is stopped.
pub fn without_a_mover_all_is_settled()
    ensures all { (types : ProgramTree) (r : Run) (width lines : ℕ) → 0 < r.base → (ends r).manager.doubt ≡ None
        → (ends r).units.halt ≡ false → NobodyWaitsForLoad types r → movers_in types r ≡ [] → 0 < width → line_has_place width lines r ≡ false
        → HasRun lines (ends r) }
    ensures unstopped { (types : ProgramTree) (windowed : Bool) (lines width : ℕ) (picks : List ℕ) (r : Run) → KeepsTurnRule types windowed lines width picks r
        → (ends r).units.halt ≡ false }
{}
