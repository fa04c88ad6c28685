ghost use Rattle.std.specs.Prelude.{◌≡◌, ◌++◌, ℕ, List, [], ◌∷◌};
ghost use Rattle.base_types.specs.Lists.{Member};
ghost use Rattle.core_model.specs.declared.events.CoreEvent.{CoreEvent};
ghost use Rattle.core_model.specs.declared.events.CoreReply.{CoreReply};
ghost use Rattle.core_model.specs.declared.events.CoreReply.TheVariants.{Began};
ghost use Rattle.core_model.specs.CoreState.{UnitNo};
ghost use Rattle.core_model.specs.LegalRuns.{Run};
ghost use Rattle.turn_cell.specs.History.{entry, entries_of};
ghost use Rattle.promise_spec.specs.UnitRule.{Basis, KeepsUnitRule};
ghost use Rattle.turn_rules.specs.NextEvent.{MayCome};
ghost use Rattle.worker_rules.specs.SharedHistories.{Told, run_after, IsTrue, OwnsUnits, IsDueBehind, Promised, AllPromise, IsRuled};

/// In a true history no two entries begin one unit.
pub fn numbers_are_given_once()
    ensures { (first : Run) (log : List Told) (e f : Told) (u : UnitNo) → IsTrue first log → Member e log → Member f log → e.reply ≡ Began u
        → f.reply ≡ Began u → e ≡ f }
{}

/// Where each who puts events promises of its own that they are of units which it began, and that each is due at its place if
/// no other puts events of these units, each event of the whole history is due at its place. So a run that keeps the unit
/// rule keeps it behind the whole history.
pub fn promises_keep_the_rule()
    ensures ruled { (s : Basis) (first : Run) (log : List Told) → IsTrue first log → AllPromise (MayCome s) first log → IsRuled (MayCome s) first log }
    ensures rule { (s : Basis) (first : Run) (log : List Told) → IsTrue first log → AllPromise (MayCome s) first log → KeepsUnitRule s first
        → KeepsUnitRule s (run_after first log) }
{}

/// The promise of one pass: it holds where nothing was put, and stays as more of the history is seen. It goes on by one more
/// entry that is due at its place, if so, and whose units the pass began.
pub fn promises_go_on()
    ensures none { (s : Basis) (first : Run) (number : List ℕ) (seen : List Told) → Promised (MayCome s) first number seen [] }
    ensures sees { (s : Basis) (first : Run) (number : List ℕ) (seen more mine : List Told) → Promised (MayCome s) first number seen mine
        → Promised (MayCome s) first number (seen ++ more) mine }
    ensures adds { (s : Basis) (first : Run) (number : List ℕ) (seen more mine : List Told) (e : CoreEvent) (r : CoreReply)
        → Promised (MayCome s) first number seen mine
        → (entries_of number (seen ++ more) ≡ mine → IsDueBehind (MayCome s) first number (seen ++ more) (entry number e r))
        → OwnsUnits (mine ++ (entry number e r ∷ []))
        → Promised (MayCome s) first number ((seen ++ more) ++ (entry number e r ∷ [])) (mine ++ (entry number e r ∷ [])) }
{}
