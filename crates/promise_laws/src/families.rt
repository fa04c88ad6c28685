ghost use Rattle.promise_spec.specs.Programs.{Program};
ghost use Rattle.std.specs.Prelude.{◌<◌};
ghost use Rattle.promise_spec.specs.Entries.{records_of, standing_of};
ghost use Rattle.promise_spec.specs.Images.{AreNumbered};
ghost use Rattle.promise_spec.specs.Family.{IsFamily};
ghost use Rattle.promise_spec.specs.Courses.{Observed, Course, lines, order, core_end};
ghost use Rattle.promise_spec.specs.Explanation.{IsExplained};

/// What the causes clause explains is a family, where the opening log's units are numbered: each added record comes from
/// a line, or from a call that its parent's play asks for, and has its children's outcomes as answers.
pub fn explained_runs_are_families()
    ensures { (p : Program) (r : Observed) (c : Course) → 0 < c.opening.base.next → IsExplained p r c → AreNumbered c.opening.base.next (records_of c.opening)
        → IsFamily p.types (lines r) (core_end p c) (standing_of c.opening).states (records_of (order c)) c.added }
{}
