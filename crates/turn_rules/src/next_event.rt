ghost use Rattle.std.specs.Prelude.{◌≡◌, ◌++◌, ℕ, Bool, List};
ghost use Rattle.core_model.specs.declared.events.CoreEvent.{CoreEvent};
ghost use Rattle.core_model.specs.CoreState.{UnitNo};
ghost use Rattle.core_model.specs.Events.{step};
ghost use Rattle.core_model.specs.LegalRuns.{Run, ends};
ghost use Rattle.script_tree.specs.Programs.{ProgramTree};
ghost use Rattle.promise_spec.specs.UnitAnswers.{got_in};
ghost use Rattle.promise_spec.specs.UnitRule.{Basis, KeepsUnitRule};
ghost use Rattle.promise_spec.specs.TurnRule.{KeepsTurnRule};
ghost use Rattle.turn_rules.specs.NextEvent.{with_event, got_next, MayCome, IsNext};

/// A run that keeps the unit rule keeps it with one more event that does, where that applies; so does one that keeps the
/// turn rule. Its last state is one step on, and each unit got what the event gives it besides.
pub fn rules_go_on()
    ensures unit_rule { (s : Basis) (r : Run) (e : CoreEvent) → KeepsUnitRule s r → MayCome s r e → KeepsUnitRule s (with_event r e) }
    ensures turn_rule { (types : ProgramTree) (windowed : Bool) (lines width : ℕ) (picks : List ℕ) (r : Run) (e : CoreEvent)
        → KeepsTurnRule types windowed lines width picks r
        → IsNext types windowed lines width picks r e → KeepsTurnRule types windowed lines width picks (with_event r e) }
    ensures state { (r : Run) (e : CoreEvent) → ends (with_event r e) ≡ step (ends r) e }
    ensures got { (r : Run) (e : CoreEvent) (u : UnitNo) → got_in (with_event r e) u ≡ got_in r u ++ got_next (ends r) e u }
{}
