ghost use Rattle.std.specs.Prelude.{◌≡◌, false, List, Some, ◌<◌};
ghost use Rattle.core_model.specs.declared.events.CoreEvent.{CoreEvent};
ghost use Rattle.core_model.specs.CoreState.{UnitNo, Outcome};
ghost use Rattle.core_model.specs.Tests.{outcome_of};
ghost use Rattle.core_model.specs.LegalRuns.{Run, ends};
ghost use Rattle.script_tree.specs.Programs.{ProgramTree};
ghost use Rattle.script_meaning.specs.Play.{Want};
ghost use Rattle.script_meaning.specs.Trails.{Given};
ghost use Rattle.promise_spec.specs.Cores.{HasBegun};
ghost use Rattle.promise_spec.specs.UnitAnswers.{given_by, got_in, wanted_by};
ghost use Rattle.turn_rules.specs.NextEvent.{with_event, is_own};
ghost use Rattle.turn_rules.specs.UnitFrame.{IsStill};

/// An event that isn't a unit's own, also a load, leaves the unit's phase, call, origin, children, reads and locks, where it
/// has begun, and what it got and was given. An outcome that is known stays, by whatever event. So what the unit's script
/// wants stays wanted.
pub fn others_leave_a_unit()
    ensures still { (r : Run) (e : CoreEvent) (u : UnitNo) → 0 < r.base → is_own u e ≡ false → HasBegun (ends r) u
        → IsStill u (ends r) (ends (with_event r e)) }
    ensures got { (r : Run) (e : CoreEvent) (u : UnitNo) → is_own u e ≡ false → got_in (with_event r e) u ≡ got_in r u }
    ensures known { (r : Run) (e : CoreEvent) (u : UnitNo) (o : Outcome) → 0 < r.base → outcome_of (ends r) u ≡ Some o
        → outcome_of (ends (with_event r e)) u ≡ Some o }
    ensures given { (r : Run) (e : CoreEvent) (u : UnitNo) (trail : List Given) → 0 < r.base → is_own u e ≡ false
        → given_by (ends r) (got_in r u) ≡ Some trail → given_by (ends (with_event r e)) (got_in (with_event r e) u) ≡ Some trail }
    ensures wants { (types : ProgramTree) (r : Run) (e : CoreEvent) (u : UnitNo) (x : Want) → 0 < r.base
        → is_own u e ≡ false → HasBegun (ends r) u → wanted_by types (ends r) u (got_in r u) ≡ Some x
        → wanted_by types (ends (with_event r e)) u (got_in (with_event r e) u) ≡ Some x }
{}
