ghost use Rattle.std.specs.Prelude.{◌<◌, ◌≤◌, length};
ghost use Rattle.base_types.specs.declared.entries.Entry.{Entry};
ghost use Rattle.core_model.specs.CoreState.{Member};
ghost use Rattle.core_model.specs.Lines.{DifferInLine};
ghost use Rattle.promise_spec.specs.Entries.{records_of};
ghost use Rattle.promise_spec.specs.Logs.{IsPrefix};
ghost use Rattle.promise_spec.specs.Images.{AreNumbered};
ghost use Rattle.promise_spec.specs.Programs.{Program};
ghost use Rattle.promise_spec.specs.Replies.{IsTrueOf, StandInOrder};
ghost use Rattle.promise_spec.specs.Courses.{Observed, Course, lines, core_end};
ghost use Rattle.promise_spec.specs.Explanation.{IsExplained};

/// What the causes clause explains is replied truly: where the entries are a first part of those that the core settles,
/// and the opening log's units are numbered, each entry is of another line of the input, and says what is true of it,
/// and the entries of logged units stand in the order of their records.
pub fn explained_replies_are_true()
    ensures within { (p : Program) (r : Observed) (c : Course) → 0 < c.opening.base.next → IsExplained p r c → IsPrefix c.entries (core_end p c).manager.settled
        → (e : Entry) → Member e c.entries → (1 ≤ e.line) × (e.line ≤ length (lines r)) }
    ensures once { (p : Program) (r : Observed) (c : Course) → 0 < c.opening.base.next → IsExplained p r c → IsPrefix c.entries (core_end p c).manager.settled
        → DifferInLine c.entries }
    ensures ordered { (p : Program) (r : Observed) (c : Course) → 0 < c.opening.base.next → IsExplained p r c
        → IsPrefix c.entries (core_end p c).manager.settled
        → StandInOrder c.entries c.added }
    ensures true_each { (p : Program) (r : Observed) (c : Course) → 0 < c.opening.base.next → IsExplained p r c
        → AreNumbered c.opening.base.next (records_of c.opening)
        → IsPrefix c.entries (core_end p c).manager.settled → (e : Entry) → Member e c.entries → IsTrueOf p r c e e.what }
{}
