ghost use Rattle.std.specs.Prelude.{◌≡◌, ◌<◌, Bool, true, false, None};
ghost use Rattle.core_model.specs.LockAnswers.{IsGoing};
ghost use Rattle.core_model.specs.CoreState.{UnitNo as AUnit};
ghost use Rattle.core_model.specs.WantedGrains.{next_wanted};
ghost use Rattle.core_model.specs.declared.events.CoreEvent.{CoreEvent as AnEvent};
ghost use Rattle.core_model.specs.LegalRuns.{ends};
ghost use Rattle.core_access.specs.OneHolder.{none_comes};
ghost use Rattle.core_access.specs.Sights.{Sight, run_seen, Counts, IsAlone};
ghost use Rattle.script_tree.specs.Programs.{ProgramTree};
ghost use Rattle.promise_spec.specs.UnitAnswers.{got_in};
ghost use Rattle.promise_spec.specs.TurnRule.{lock_asked, waits_for_load};
ghost use Rattle.promise_spec.specs.UnitRule.{Basis, KeepsUnitRule};
ghost use Rattle.worker_rules.specs.UnitOwnership.{leaves_unit, BeganHere, KeepsPromise};
ghost use Rattle.txn_agent.specs.declared.agent.Agent.{Agent as AnAgent};
ghost use Rattle.txn_agent.specs.declared.work.Doing.{Doing as ADoing};
ghost use Rattle.txn_agent.specs.CoreLink.{Knows};
ghost use Rattle.txn_agent.specs.AgentStep.{Hears};
ghost use Rattle.txn_agent.specs.Wishes.{GoesByWish, WishSays, Wishes};

/// What an agent knows of its unit it knows behind another unit's wish.
pub fn a_wish_leaves_an_agent()
    ensures { (may : AnEvent → Bool) (types : ProgramTree) (a : AnAgent) (other : AUnit) (s t : Sight) → Wishes may types other s t
        → (a.carried.unit ≡ other → ⊥)
        → Counts s → Knows types s a → Knows types t a }
{}

/// What an answer of `want` says is what a wish does. One's own entries are counted behind one, and a unit that began by one of
/// them did.
pub fn wishes_are_counted()
    ensures wishes { (may : AnEvent → Bool) (types : ProgramTree) (u : AUnit) (doing : ADoing) (s t : Sight) (done : Bool)
        → WishSays may types u doing s t done → Wishes may types u s t }
    ensures counts { (may : AnEvent → Bool) (types : ProgramTree) (u : AUnit) (s t : Sight) → Wishes may types u s t → Counts s → Counts t }
    ensures began { (may : AnEvent → Bool) (types : ProgramTree) (u v : AUnit) (s t : Sight) → Wishes may types u s t → BeganHere v s → BeganHere v t }
{}

/// One who wishes for a unit that began by an entry of its own keeps its promise of its own entries.
pub fn a_wish_keeps_the_promise()
    ensures { (may : AnEvent → Bool) (b : Basis) (u : AUnit) (s t : Sight) → Wishes may b.types u s t → BeganHere u s → KeepsPromise b s → KeepsPromise b t }
{}

/// Where nobody else puts events, a wish keeps the unit rule of the core's run, and leaves one alone with each unit.
pub fn a_wish_alone_keeps_the_rule()
    ensures rule { (b : Basis) (u : AUnit) (s t : Sight) → Wishes none_comes b.types u s t → IsAlone (leaves_unit u) s → KeepsUnitRule b (run_seen s)
        → KeepsUnitRule b (run_seen t) }
    ensures alone { (types : ProgramTree) (u v : AUnit) (s t : Sight) → Wishes none_comes types u s t → IsAlone (leaves_unit v) s → IsAlone (leaves_unit v) t }
{}

/// Where nobody else puts events, a wish that was done is one of a unit that waits for its grain, and all by which the run went
/// on. Where there is no doubt and no stop either and each wanted grain is in memory, a unit whose wish wasn't done waits for none,
/// if its script has heard of its child, and nothing changed.
pub fn a_wish_alone_goes_on()
    ensures wishes { (types : ProgramTree) (u : AUnit) (doing : ADoing) (s t : Sight) → WishSays none_comes types u doing s t true → IsAlone (leaves_unit u) s
        → GoesByWish types u (run_seen s) (run_seen t) }
    ensures rests { (types : ProgramTree) (u : AUnit) (doing : ADoing) (s t : Sight) → WishSays none_comes types u doing s t false → IsAlone (leaves_unit u) s
        → IsGoing (ends (run_seen s)) → next_wanted (ends (run_seen s)) ≡ None → Hears s doing
        → (t ≡ s) × (waits_for_load (ends (run_seen s)) u (lock_asked types (ends (run_seen s)) (got_in (run_seen s)) u) ≡ false) }
{}
