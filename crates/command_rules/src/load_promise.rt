ghost use Rattle.std.specs.Prelude.{ℕ, List};
ghost use Rattle.host_trait.specs.declared.channels.Channel.{Channel};
ghost use Rattle.host_trait.specs.World.{World, Moment};
ghost use Rattle.promise_spec.specs.Programs.{Program};
ghost use Rattle.promise_spec.specs.Endings.{Ending};
ghost use Rattle.promise_spec.specs.Courses.{Observed, Course};
ghost use Rattle.promise_spec.specs.Loads.{KeepsLoad};
ghost use Rattle.command_rules.specs.LoadObligations.{ShowsLoad};

/// A load that carried its lines by turns that put nothing out, and then printed its summary or not, keeps what is promised of a
/// load, however it ended.
pub fn shown_loads_keep()
    ensures { (p : Program) (n seed : ℕ) (r : Observed) (c : Course) (mid : World) (counts : Channel → ℕ) (turns_end : Ending)
        (turns told : List Moment) → ShowsLoad p n seed r c mid counts turns_end turns told → KeepsLoad p n seed r c }
{}
