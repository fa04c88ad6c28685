ghost use Rattle.std.specs.Prelude.{◌≡◌, ◌<◌, false};
ghost use Rattle.base_types.specs.declared.entries.Entry.{Entry};
ghost use Rattle.core_model.specs.CoreState.{Member};
ghost use Rattle.promise_spec.specs.Programs.{Program};
ghost use Rattle.promise_spec.specs.Causes.{NoneRose, RunHasDoubt};
ghost use Rattle.promise_spec.specs.Courses.{Observed, Course, core_run, core_end};
ghost use Rattle.promise_spec.specs.Explanation.{IsExplained};
ghost use Rattle.promise_spec.specs.Promise.{IsUndisturbed, HasNoChild, IsNoLock};

/// Where no count of faults rises, and none stands at its last value, no vote of no applies and no batch fails to be
/// sealed. So a unit is aborted only where it is refused, and nobody reads from such a unit: no line is aborted for a
/// fault, and no batch is left in doubt.
pub fn calm_runs_are_undisturbed()
    ensures undisturbed { (p : Program) (r : Observed) (c : Course) → 0 < c.opening.base.next → IsExplained p r c → NoneRose r.faults_before r.faults_after
        → (e : Entry) → Member e (core_end p c).manager.settled → IsUndisturbed e.what }
    ensures no_doubt { (p : Program) (r : Observed) (c : Course) → IsExplained p r c → NoneRose r.faults_before r.faults_after
        → RunHasDoubt (core_run p c) → ⊥ }
{}

/// On one thread, where one line at a time is in flight and no unit asks for another, no line is aborted for a lock: a
/// line begins only where all before it are settled and hold nothing, so all locks are of the one unit that runs last.
pub fn single_runs_meet_no_lock()
    ensures { (p : Program) (r : Observed) (c : Course) → 0 < c.opening.base.next → IsExplained p r c → r.manner.threaded ≡ false → r.manner.width ≡ 1
        → HasNoChild p c → (e : Entry) → Member e (core_end p c).manager.settled → IsNoLock e.what }
{}
