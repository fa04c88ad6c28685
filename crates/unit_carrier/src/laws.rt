ghost use Rattle.std.specs.Prelude.{◌≡◌, ◌<◌, Bool, true, List as AList, [], filter};
ghost use Rattle.core_access.specs.OneHolder.{none_comes, own_sight};
ghost use Rattle.core_access.specs.SettlerEvents.{is_settling};
ghost use Rattle.core_access.specs.Sights.{Sight, Tells};
ghost use Rattle.core_model.specs.LegalRuns.{Run};
ghost use Rattle.core_model.specs.declared.events.CoreEvent.{CoreEvent as AnEvent};
ghost use Rattle.core_model.specs.declared.events.CoreReply.{CoreReply as AReply};
ghost use Rattle.script_tree.specs.Programs.{ProgramTree};
ghost use Rattle.txn_agent.specs.declared.agent.Agent.{Agent as AnAgent};
ghost use Rattle.unit_carrier.specs.CarriedUnits.{AreCarried};

/// What is known of units that are carried stays by an event of the settler's, and where some are dropped. Nobody is carried of a
/// core whose first unit is numbered 1 or later.
pub fn others_leave_the_carried()
    ensures settles { (types : ProgramTree) (may : AnEvent → Bool) (s t : Sight) (e : AnEvent) (r : AReply) (agents : AList AnAgent)
        → Tells may s e r t → is_settling e ≡ true → AreCarried types may s agents → AreCarried types may t agents }
    ensures drops { (types : ProgramTree) (may : AnEvent → Bool) (s : Sight) (agents : AList AnAgent) (stays : AnAgent → Bool)
        → AreCarried types may s agents → AreCarried types may s (filter stays agents) }
    ensures none { (types : ProgramTree) (r : Run) → 0 < r.base → AreCarried types none_comes (own_sight r) [] }
{}
