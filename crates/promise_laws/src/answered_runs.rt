ghost use Rattle.std.specs.Prelude.{◌≡◌, true};
ghost use Rattle.promise_spec.specs.Programs.{Program};
ghost use Rattle.promise_spec.specs.Openings.{Reads, opened_as};
ghost use Rattle.promise_spec.specs.Images.{IsWholeFolder};
ghost use Rattle.promise_spec.specs.Words.{Manner};
ghost use Rattle.promise_spec.specs.Courses.{Observed, Course, seen_at_entry, program_in_force};
ghost use Rattle.promise_spec.specs.Promise.{KeepsAnywhere, Promises};
ghost use Rattle.promise_laws.specs.AnsweredRuns.{HasOpened};
ghost use Rattle.promise_laws.specs.Obligations.{ShowsAnywhere, Lasts, Shows};

/// Over any folder that reads as a silo, sound or not: what a run answers is enough for what is promised there. From that it
/// follows how the run ends and, where all that is settled was written, that this is one entry for each line that may begin.
pub fn answered_runs_open()
    ensures keeps { (p : Program) (r : Observed) (c : Course) → ShowsAnywhere p r c → opened_as (seen_at_entry r) ≡ Reads c.live c.opening
        → KeepsAnywhere p r c }
    ensures opened { (r : Observed) (c : Course) → KeepsAnywhere (program_in_force c) r c → HasOpened r }
{}

/// And it promises all where, over a whole folder, it shows what the images hold.
pub fn answered_runs_promise()
    ensures { (m : Manner) (p : Program) (r : Observed) (c : Course) → ShowsAnywhere p r c → r.manner ≡ m → r.windowed ≡ true
        → opened_as (seen_at_entry r) ≡ Reads c.live c.opening
        → (IsWholeFolder r.old → Lasts p r c) → Promises m r }
{}

/// What a run has to show is what it answers, over any folder, and what lasts, over a whole one.
pub fn shown_runs_answer_and_last()
    ensures parts { (p : Program) (r : Observed) (c : Course) → Shows p r c → ShowsAnywhere p r c × Lasts p r c }
    ensures whole { (p : Program) (r : Observed) (c : Course) → ShowsAnywhere p r c → Lasts p r c → Shows p r c }
{}
