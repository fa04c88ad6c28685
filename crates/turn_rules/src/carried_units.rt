ghost use Rattle.std.specs.Prelude.{◌≡◌, ◌++◌, ℕ, Bool, true, false, List, [], ◌∷◌, length, filter, ◌<◌};
ghost use Rattle.base_types.specs.declared.calls.Origin.{Origin};
ghost use Rattle.core_model.specs.declared.events.CoreEvent.{CoreEvent};
ghost use Rattle.core_model.specs.declared.events.CoreEvent.TheVariants.{Begin};
ghost use Rattle.core_model.specs.CoreState.{UnitNo, Call};
ghost use Rattle.core_model.specs.Changes.{new_unit};
ghost use Rattle.core_model.specs.Events.{applies};
ghost use Rattle.core_model.specs.LegalRuns.{Run, ends};
ghost use Rattle.script_tree.specs.Programs.{ProgramTree};
ghost use Rattle.promise_spec.specs.TurnRule.{in_flight};
ghost use Rattle.turn_rules.specs.NextEvent.{with_event, is_begin, movers_in, line_has_place};
ghost use Rattle.turn_rules.specs.CarriedUnits.{is_flying, is_kept, AreKept, movers_of, can_begin_by};

/// Where a run's loop carries all units that are to be looked at, in number order, the movers are those among them, and so
/// are the lines in flight; and whether a line has a place is told by them.
pub fn carried_units_tell()
    ensures movers { (types : ProgramTree) (r : Run) (units : List UnitNo) → AreKept r units → movers_in types r ≡ movers_of types r units }
    ensures flying { (r : Run) (units : List UnitNo) → AreKept r units → in_flight r (ends r) ≡ length (filter (is_flying (ends r)) units) }
    ensures begins { (width lines : ℕ) (r : Run) (units : List UnitNo) → AreKept r units
        → line_has_place width lines r ≡ can_begin_by width lines r units }
{}

/// The units that are carried stay all that are to be looked at, by each event by which no unit begins, by one by which a
/// unit does, if it comes last, and where any are dropped that are no more to be looked at.
pub fn carried_units_stay()
    ensures on { (r : Run) (e : CoreEvent) (units : List UnitNo) → 0 < r.base → is_begin e ≡ false
        → AreKept r units → AreKept (with_event r e) units }
    ensures begun { (r : Run) (origin : Origin) (call : Call) (plain : Bool) (units : List UnitNo) → 0 < r.base
        → applies (ends r) (Begin origin call plain) ≡ true → AreKept r units
        → AreKept (with_event r (Begin origin call plain)) (units ++ (new_unit (ends r) ∷ [])) }
    ensures dropped { (r : Run) (units : List UnitNo) (stays : UnitNo → Bool) → ((u : UnitNo) → is_kept (ends r) u ≡ true → stays u ≡ true)
        → AreKept r units → AreKept r (filter stays units) }
{}
