ghost use Rattle.std.specs.Prelude.{◌≡◌, ◌++◌, ℕ, false, List, [], ◌∷◌, Some, ◌<◌};
ghost use Rattle.base_types.specs.declared.calls.Mode.{Mode};
ghost use Rattle.base_types.specs.declared.calls.Mode.TheVariants.{Update};
ghost use Rattle.base_types.specs.declared.calls.Origin.TheVariants.{Child};
ghost use Rattle.core_model.specs.declared.effects.Effect.{Effect};
ghost use Rattle.core_model.specs.declared.events.CoreEvent.{CoreEvent};
ghost use Rattle.core_model.specs.declared.events.CoreEvent.TheVariants.{Begin, Grant, Refuse, Finish, EndPlain, Release};
ghost use Rattle.core_model.specs.CoreState.{UnitNo, GrainId, Call, Outcome};
ghost use Rattle.core_model.specs.Tests.{outcome_of};
ghost use Rattle.core_model.specs.LegalRuns.{Run, ends};
ghost use Rattle.script_meaning.specs.Play.{WantLock, WantRaise, WantUnit, Over};
ghost use Rattle.script_meaning.specs.Trails.{Given, GivenOutcome};
ghost use Rattle.promise_spec.specs.UnitAnswers.{got_in};
ghost use Rattle.promise_spec.specs.UnitRule.{Basis, IsDue, IsPlayOf};
ghost use Rattle.turn_rules.specs.NextEvent.{with_event, is_own};
ghost use Rattle.turn_rules.specs.Links.{AsksFor, HasTrail, IsAwaiting, IsFreeing};

/// Where a unit runs and this is what it was given, what its script asks for next is due: a lock, its refusal, a child, or
/// its end with the whole effect of its call.
pub fn what_is_asked_for_is_due()
    ensures lock { (s : Basis) (r : Run) (u : UnitNo) (trail : List Given) (g : GrainId) (mode : Mode) → AsksFor s.types r u trail (WantLock g mode)
        → IsDue s (ends r) (got_in r) (Grant u g mode) × IsDue s (ends r) (got_in r) (Refuse u g mode) }
    ensures raise { (s : Basis) (r : Run) (u : UnitNo) (trail : List Given) (g : GrainId) → AsksFor s.types r u trail (WantRaise g)
        → IsDue s (ends r) (got_in r) (Grant u g Update) × IsDue s (ends r) (got_in r) (Refuse u g Update) }
    ensures child { (s : Basis) (r : Run) (u : UnitNo) (trail : List Given) (index depth : ℕ) (call : Call)
        → AsksFor s.types r u trail (WantUnit call depth) → IsDue s (ends r) (got_in r) (Begin (Child u index depth) call false) }
    ensures end { (s : Basis) (r : Run) (u : UnitNo) (trail : List Given) (e : Effect) → AsksFor s.types r u trail (Over e.result)
        → IsPlayOf s.types e → IsDue s (ends r) (got_in r) (Finish u e) × IsDue s (ends r) (got_in r) (EndPlain u e) }
{}

/// Where a unit is over, the first of its locks in ascending order may go.
pub fn freed_locks_are_due()
    ensures { (s : Basis) (r : Run) (u : UnitNo) (g : GrainId) (rest : List GrainId) → IsFreeing r u (g ∷ rest)
        → IsDue s (ends r) (got_in r) (Release u g) }
{}

/// Others' events leave what a running unit was given, the child that it waits for, and the locks that an ended one has
/// left. Where the child is decided, its outcome was given too.
pub fn links_stay()
    ensures given { (r : Run) (e : CoreEvent) (u : UnitNo) (trail : List Given) → 0 < r.base → is_own u e ≡ false
        → HasTrail r u trail → HasTrail (with_event r e) u trail }
    ensures awaiting { (r : Run) (e : CoreEvent) (u child : UnitNo) (call : Call) (depth : ℕ) (trail : List Given) → 0 < r.base
        → is_own u e ≡ false → IsAwaiting r u child call depth trail → IsAwaiting (with_event r e) u child call depth trail }
    ensures freeing { (r : Run) (e : CoreEvent) (u : UnitNo) (held : List GrainId) → 0 < r.base → is_own u e ≡ false
        → IsFreeing r u held → IsFreeing (with_event r e) u held }
    ensures heard { (r : Run) (u child : UnitNo) (call : Call) (depth : ℕ) (trail : List Given) (o : Outcome)
        → IsAwaiting r u child call depth trail → outcome_of (ends r) child ≡ Some o
        → HasTrail r u (trail ++ (GivenOutcome call depth o ∷ [])) }
{}
