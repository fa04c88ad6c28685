ghost use Rattle.std.specs.Prelude.{◌≡◌, Bool, true};
ghost use Rattle.core_model.specs.CoreState.{UnitNo};
ghost use Rattle.core_model.specs.declared.events.CoreEvent.{CoreEvent};
ghost use Rattle.core_model.specs.declared.events.CoreReply.{CoreReply};
ghost use Rattle.turn_cell.specs.History.{entries_of};
ghost use Rattle.core_access.specs.Sights.{Sight, run_seen, IsHistory, saw, Looks, Tells, Counts, IsAlone};
ghost use Rattle.core_access.specs.SettlerEvents.{is_settling};
ghost use Rattle.promise_spec.specs.UnitRule.{Basis};
ghost use Rattle.turn_rules.specs.NextEvent.{MayCome, is_own};
ghost use Rattle.worker_rules.specs.SharedHistories.{AllPromise, Quiet};
ghost use Rattle.worker_rules.specs.UnitOwnership.{leaves_unit, BeganHere, KeepsPromise};

/// One is alone with a unit where no other's entry is an event of the unit, and all entries of one's number are one's own.
pub fn one_alone_with_a_unit_hears_nothing()
    ensures quiet { (u : UnitNo) (s : Sight) → IsAlone (leaves_unit u) s → Quiet s.number u s.seen }
    ensures alone { (u : UnitNo) (s : Sight) → Quiet s.number u s.seen → entries_of s.number s.seen ≡ s.mine → IsAlone (leaves_unit u) s }
{}

/// A promise of one's own entries counts them, stays by a look, and goes on by an event of units that began here, which
/// may come there if one is alone with these units; and by any event of the settler's.
pub fn calls_keep_a_promise()
    ensures counts { (b : Basis) (s : Sight) → KeepsPromise b s → Counts s }
    ensures looks { (b : Basis) (may : CoreEvent → Bool) (s t : Sight) → Looks may s t → KeepsPromise b s → KeepsPromise b t }
    ensures tells { (b : Basis) (may : CoreEvent → Bool) (s t : Sight) (e : CoreEvent) (r : CoreReply) (l : Tells may s e r t)
        → ((u : UnitNo) → is_own u e ≡ true → BeganHere u s)
        → (((u : UnitNo) → is_own u e ≡ true → IsAlone (leaves_unit u) (saw s l.rest)) → MayCome b (run_seen (saw s l.rest)) e)
        → KeepsPromise b s → KeepsPromise b t }
    ensures settles { (b : Basis) (may : CoreEvent → Bool) (s t : Sight) (e : CoreEvent) (r : CoreReply) → Tells may s e r t → is_settling e ≡ true
        → KeepsPromise b s → KeepsPromise b t }
{}

/// Where each who puts events keeps its promise, one who began a unit is alone with it, by the whole history.
pub fn who_began_a_unit_is_alone_with_it()
    ensures { (b : Basis) (s : Sight) (u : UnitNo) → IsHistory s → AllPromise (MayCome b) s.first s.seen → entries_of s.number s.seen ≡ s.mine
        → BeganHere u s → IsAlone (leaves_unit u) s }
{}
