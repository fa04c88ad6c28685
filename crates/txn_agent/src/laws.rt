ghost use Rattle.std.specs.Prelude.{◌≡◌, ◌<◌, ℕ, Bool, true, false, length};
ghost use Rattle.core_model.specs.LockAnswers.{IsGoing};
ghost use Rattle.core_model.specs.CoreState.{UnitNo as AUnit, Call as ACall};
ghost use Rattle.core_model.specs.declared.events.CoreEvent.{CoreEvent as AnEvent};
ghost use Rattle.core_model.specs.declared.events.CoreEvent.TheVariants.{Begin};
ghost use Rattle.core_model.specs.declared.events.CoreReply.{CoreReply as AReply};
ghost use Rattle.core_model.specs.declared.events.CoreReply.TheVariants.{Began};
ghost use Rattle.core_model.specs.LegalRuns.{ends};
ghost use Rattle.core_access.specs.OneHolder.{none_comes};
ghost use Rattle.core_access.specs.SettlerEvents.{is_settling};
ghost use Rattle.core_access.specs.Sights.{Sight, run_seen, Looks, Tells, Counts, IsAlone};
ghost use Rattle.script_tree.specs.Programs.{ProgramTree};
ghost use Rattle.script_meaning.specs.Play.{IsTransaction};
ghost use Rattle.promise_spec.specs.UnitAnswers.{got_in};
ghost use Rattle.promise_spec.specs.TurnRule.{can_move};
ghost use Rattle.promise_spec.specs.UnitRule.{Basis, KeepsUnitRule};
ghost use Rattle.worker_rules.specs.UnitOwnership.{leaves_unit, BeganHere, KeepsPromise};
ghost use Rattle.txn_agent.specs.declared.agent.Advanced.{Advanced as AnAnswer};
ghost use Rattle.txn_agent.specs.declared.agent.Agent.{Agent as AnAgent};
ghost use Rattle.txn_agent.specs.declared.work.Carried.{Carried as AUnitAsBegun};
ghost use Rattle.txn_agent.specs.CoreLink.{IfOwn, IsNew, Knows};
ghost use Rattle.txn_agent.specs.AgentStep.{Acts, GoesByEvent, AnswerSays, is_move};

/// A unit that began by an event that was put through an access has nothing by then but its call, if nobody else made an event
/// of it: so it can be carried. What makes no transaction is begun as a plain run.
pub fn a_new_unit_can_be_carried()
    ensures began { (may : AnEvent → Bool) (s t : Sight) (e : AnEvent) (u : AUnit) → Tells may s e (Began u) t → BeganHere u t }
    ensures new { (may : AnEvent → Bool) (types : ProgramTree) (s t : Sight) (c : AUnitAsBegun) (call : ACall)
        → Tells may s (Begin c.origin call c.plain) (Began c.unit) t
        → Counts s → 0 < s.first.base → (c.plain ≡ true → IsTransaction types call → ⊥) → IfOwn c t (λ r. IsNew types r c call) }
{}

/// What an agent knows of its unit it knows behind a look, behind an event that isn't the unit's, as a load and each of the
/// settler's, and behind another unit's step.
pub fn others_leave_an_agent()
    ensures looks { (may : AnEvent → Bool) (types : ProgramTree) (a : AnAgent) (s t : Sight) → Looks may s t → Counts s → Knows types s a → Knows types t a }
    ensures tells { (may : AnEvent → Bool) (types : ProgramTree) (a : AnAgent) (s t : Sight) (e : AnEvent) (r : AReply) → Tells may s e r t
        → leaves_unit a.carried.unit e ≡ true
        → Counts s → Knows types s a → Knows types t a }
    ensures settles { (may : AnEvent → Bool) (types : ProgramTree) (a : AnAgent) (s t : Sight) (e : AnEvent) (r : AReply) → Tells may s e r t
        → is_settling e ≡ true
        → Counts s → Knows types s a → Knows types t a }
    ensures steps { (may : AnEvent → Bool) (types : ProgramTree) (a : AnAgent) (other : AUnit) (s t : Sight) → Acts may types other s t
        → (a.carried.unit ≡ other → ⊥)
        → Counts s → Knows types s a → Knows types t a }
{}

/// What an answer says is what a step does.
pub fn answers_are_steps()
    ensures { (may : AnEvent → Bool) (types : ProgramTree) (u : AUnit) (kids : ℕ) (s t : Sight) (a : AnAnswer) → AnswerSays may types u kids s t a
        → Acts may types u s t }
{}

/// One's own entries are counted behind a step, and a unit that began by one of them did.
pub fn steps_are_counted()
    ensures counts { (may : AnEvent → Bool) (types : ProgramTree) (u : AUnit) (s t : Sight) → Acts may types u s t → Counts s → Counts t }
    ensures began { (may : AnEvent → Bool) (types : ProgramTree) (u v : AUnit) (s t : Sight) → Acts may types u s t → BeganHere v s → BeganHere v t }
{}

/// One who steps for a unit that began by an entry of its own keeps its promise of its own entries.
pub fn a_step_keeps_the_promise()
    ensures { (may : AnEvent → Bool) (b : Basis) (u : AUnit) (s t : Sight) → Acts may b.types u s t → BeganHere u s → KeepsPromise b s → KeepsPromise b t }
{}

/// Where nobody else puts events, a step keeps the unit rule of the core's run, and leaves one alone with each unit.
pub fn a_step_alone_keeps_the_rule()
    ensures rule { (b : Basis) (u : AUnit) (s t : Sight) → Acts none_comes b.types u s t → IsAlone (leaves_unit u) s → KeepsUnitRule b (run_seen s)
        → KeepsUnitRule b (run_seen t) }
    ensures alone { (types : ProgramTree) (u v : AUnit) (s t : Sight) → Acts none_comes types u s t → IsAlone (leaves_unit v) s → IsAlone (leaves_unit v) t }
{}

/// Where nobody else puts events, there is no doubt and no stop and the core has the program's types, a step that says that it
/// moved went on by an event of the unit that applies. It says so exactly where the unit can move by the turn rule; else it
/// changed nothing.
pub fn a_step_alone_goes_on()
    ensures moves { (types : ProgramTree) (u : AUnit) (kids : ℕ) (s t : Sight) (a : AnAnswer) → AnswerSays none_comes types u kids s t a
        → IsAlone (leaves_unit u) s
        → (run_seen s).kinds ≡ length types → IsGoing (ends (run_seen s)) → is_move a ≡ true
        → GoesByEvent u (run_seen s) (run_seen t) }
    ensures tells { (b : Basis) (u : AUnit) (kids : ℕ) (s t : Sight) (a : AnAnswer) → AnswerSays none_comes b.types u kids s t a → IsAlone (leaves_unit u) s
        → (run_seen s).kinds ≡ length b.types → IsGoing (ends (run_seen s)) → 0 < (run_seen s).base
        → is_move a ≡ can_move b.types (ends (run_seen s)) (got_in (run_seen s)) u }
    ensures waits { (types : ProgramTree) (u : AUnit) (kids : ℕ) (s t : Sight) (a : AnAnswer) → AnswerSays none_comes types u kids s t a
        → is_move a ≡ false → t ≡ s }
{}
