ghost use Rattle.std.specs.Prelude.{◌≡◌, ◌⊎◌, ◌+◌, ℕ, length, List};
ghost use Rattle.promise_spec.specs.Programs.{Program};
ghost use Rattle.promise_spec.specs.Endings.{Done, WriteFault};
ghost use Rattle.promise_spec.specs.Courses.{Observed, Course, lines};
ghost use Rattle.promise_spec.specs.Loads.{line_valued, is_faulted, line_aborted, how_many_lines, KeepsLoad, load_calls, AskFor, summary_text};
ghost use Rattle.host_trait.specs.World.{Moment};
ghost use Rattle.promise_spec.specs.Promise.{Keeps};
ghost use Rattle.promise_laws.specs.QuietRuns.{quiet_course, IsQuietRun};

/// The three counts of a load's summary add up to the lines that it was asked: each line ended with a value or a fault, or was
/// aborted, once.
pub fn loads_count_each_line()
    ensures { (p : Program) (n seed : ℕ) (r : Observed) (c : Course) → KeepsLoad p n seed r c → (r.ending ≡ Done) ⊎ (r.ending ≡ WriteFault)
        → how_many_lines line_aborted c.entries + (how_many_lines line_valued c.entries + how_many_lines is_faulted c.entries) ≡ length (lines r) }
{}

/// A load can be kept wherever a run can: one that carries its lines as a run that is done, and writes the summary in place of
/// the replies, keeps what is promised of a load.
pub fn loads_follow_runs()
    ensures { (p : Program) (n seed : ℕ) (r s : Observed) (c : Course) (told : List Moment) → Keeps p r c → r.ending ≡ Done
        → AskFor p.types (lines r) (load_calls n seed) → IsQuietRun r c (summary_text r c) told s → KeepsLoad p n seed s (quiet_course r c told) }
{}
