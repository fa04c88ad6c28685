ghost use Rattle.std.specs.Prelude.{◌≡◌, true, false, List};
ghost use Rattle.core_model.specs.declared.events.CoreEvent.{CoreEvent};
ghost use Rattle.core_model.specs.declared.events.CoreEvent.TheVariants.{Halt, Load};
ghost use Rattle.core_model.specs.CoreState.{UnitNo, GrainId, Value};
ghost use Rattle.core_access.specs.SettlerEvents.{is_settling};
ghost use Rattle.worker_rules.specs.Work.{is_work};

/// What a worker puts is no event of the settler's, no stop and no load.
pub fn workers_leave_the_settler()
    ensures settling { (e : CoreEvent) → is_work e ≡ true → is_settling e ≡ false }
    ensures stops { (e : CoreEvent) → is_work e ≡ true → e ≡ Halt → ⊥ }
    ensures loads { (e : CoreEvent) (g : GrainId) (u : UnitNo) (state : List Value) → is_work e ≡ true → e ≡ Load g u state → ⊥ }
{}
