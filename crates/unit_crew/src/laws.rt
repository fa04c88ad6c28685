ghost use Rattle.std.specs.Prelude.{◌≡◌};
ghost use Rattle.core_model.specs.LockAnswers.{IsGoing};
ghost use Rattle.core_model.specs.CoreState.{UnitNo as AUnit};
ghost use Rattle.core_model.specs.LegalRuns.{Run, ends};
ghost use Rattle.core_access.specs.Sights.{Sight, Counts, IfAlone};
ghost use Rattle.turn_cell.specs.History.{StartsWith};
ghost use Rattle.txn_agent.specs.AgentStep.{HasNoEventLeft};
ghost use Rattle.worker_rules.specs.UnitOwnership.{leaves_unit};
ghost use Rattle.unit_crew.specs.FinishedUnits.{AreThrough, HasLetGo, IsThrough};

/// A unit that is through stays so, however much is seen of what others put; so by the whole history all units of a worker are
/// through. Such a unit has no event left; where there is no doubt and no stop, it is over and holds no lock.
pub fn what_is_through_stays()
    ensures stays { (u : AUnit) (s t : Sight) → Counts s → t.first ≡ s.first → t.number ≡ s.number → t.mine ≡ s.mine → StartsWith t.seen s.seen
        → IfAlone (leaves_unit u) s (λ r. IsThrough r u) → IfAlone (leaves_unit u) t (λ r. IsThrough r u) }
    ensures all_stay { (s t : Sight) → Counts s → t.first ≡ s.first → t.number ≡ s.number → t.mine ≡ s.mine → StartsWith t.seen s.seen → AreThrough s
        → AreThrough t }
    ensures ended { (r : Run) (u : AUnit) → IsThrough r u → HasNoEventLeft (ends r) u }
    ensures freed { (r : Run) (u : AUnit) → IsThrough r u → IsGoing (ends r) → HasLetGo r u }
{}
