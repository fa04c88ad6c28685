ghost use Rattle.std.specs.Prelude.{◌≡◌, ◌↔◌, ◌+◌, ◌%◌, ◌≤◌, ℕ, Bool, true, false, List, []};
ghost use Rattle.core_model.specs.declared.events.CoreEvent.{CoreEvent};
ghost use Rattle.core_model.specs.LegalRuns.{Run, ends};
ghost use Rattle.script_tree.specs.Programs.{ProgramTree};
ghost use Rattle.promise_spec.specs.TurnRule.{KeepsTurnRule, and_wish, line_can_begin};
ghost use Rattle.promise_spec.specs.Windows.{window_lines};
ghost use Rattle.turn_rules.specs.NextEvent.{with_event, IsNext, NobodyGoes, line_has_place, movers_in, wish_in};
ghost use Rattle.turn_rules.specs.Windows.{InWindow};

/// Within a window of the input a line can begin where it has a place, whoever can move: so the loop that carries the window's lines
/// has no window to look at. Each turn stays within it. A window begins where one ended
/// and nobody can move or wants a grain, if at most 4,096 lines
/// are left of those that may begin; so does the first one, in a run without events. An input without windows is one; and of one window the
/// rule is that without windows.
pub fn turns_stay_in_a_window()
    ensures tests { (types : ProgramTree) (windowed : Bool) (width lines : ℕ) (r : Run) → InWindow types windowed lines r
        → line_can_begin windowed width lines r (ends r) (and_wish (wish_in types r) (movers_in types r)) ≡ line_has_place width lines r }
    ensures stays { (types : ProgramTree) (windowed : Bool) (lines width : ℕ) (picks : List ℕ) (r : Run) (e : CoreEvent)
        → InWindow types windowed lines r → IsNext types windowed lines width picks r e → InWindow types windowed lines (with_event r e) }
    ensures begins { (types : ProgramTree) (lines : ℕ) (r : Run) → (ends r).units.lines % window_lines ≡ 0
        → lines ≤ (ends r).units.lines + window_lines → NobodyGoes types r → InWindow types true lines r }
    ensures first { (types : ProgramTree) (windowed : Bool) (lines : ℕ) (r : Run) → r.events ≡ []
        → (windowed ≡ true → lines ≤ window_lines) → InWindow types windowed lines r }
    ensures one { (types : ProgramTree) (lines width : ℕ) (picks : List ℕ) (r : Run) → lines ≤ window_lines
        → KeepsTurnRule types true lines width picks r ↔ KeepsTurnRule types false lines width picks r }
    ensures plain { (types : ProgramTree) (lines : ℕ) (r : Run) → InWindow types false lines r }
{}
