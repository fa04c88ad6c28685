ghost use Rattle.std.specs.Prelude.{◌≡◌, ◌≤◌, ◌&&◌, ◌++◌, ℕ, nat_lt, is_none, Bool, true, false, List, length};
ghost use Rattle.core_model.specs.CoreState.{CoreState};
ghost use Rattle.core_model.specs.LegalRuns.{Run, ends};
ghost use Rattle.promise_spec.specs.UnitRule.{Basis, KeepsUnitRule};
ghost use Rattle.promise_spec.specs.TurnRule.{Mover, KeepsTurnRule, at_seam, in_flight, line_can_begin};
ghost use Rattle.promise_laws.specs.MoreLines.{with_lines};

/// A run of which whole windows of the input were carried keeps both rules over the lines so far and any further ones: so its record
/// goes on with the next window. No more lines have begun than were asked. And where the input has no windows, a line begins where one
/// is left, fewer than the width are in flight, and there is no doubt, whoever can move.
pub fn windows_go_on()
    ensures units { (s : Basis) (more : List (List ℕ)) (r : Run) → KeepsUnitRule s r → KeepsUnitRule (with_lines s more) r }
    ensures few { (s : Basis) (r : Run) → KeepsUnitRule s r → (ends r).units.lines ≤ length s.lines }
    ensures turns { (s : Basis) (more : List (List ℕ)) (windowed : Bool) (width : ℕ) (picks : List ℕ) (r : Run) → KeepsUnitRule s r
        → at_seam windowed (length s.lines) ≡ true → KeepsTurnRule s.types windowed (length s.lines) width picks r
        → KeepsTurnRule s.types windowed (length (s.lines ++ more)) width picks r }
    ensures plain { (width lines : ℕ) (r : Run) (w : CoreState) (ms : List Mover)
        → line_can_begin false width lines r w ms ≡ (is_none w.manager.doubt && (nat_lt (in_flight r w) width && nat_lt w.units.lines lines)) }
{}
