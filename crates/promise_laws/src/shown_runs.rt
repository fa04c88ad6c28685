ghost use Rattle.std.specs.Prelude.{◌≡◌, true};
ghost use Rattle.promise_spec.specs.Programs.{Program};
ghost use Rattle.promise_spec.specs.Words.{Manner};
ghost use Rattle.promise_spec.specs.Courses.{Observed, Course};
ghost use Rattle.promise_spec.specs.Promise.{Keeps, Promises};
ghost use Rattle.promise_laws.specs.Obligations.{Shows};

/// What a run has to show is enough: whatever shows it keeps the whole promise.
pub fn shown_runs_keep()
    ensures { (p : Program) (r : Observed) (c : Course) → Shows p r c → Keeps p r c }
{}

/// And it promises so, in the manner of its words, over whatever folder.
pub fn shown_runs_promise()
    ensures { (m : Manner) (p : Program) (r : Observed) (c : Course) → r.manner ≡ m → r.windowed ≡ true → Shows p r c → Promises m r }
{}
