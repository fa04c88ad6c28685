ghost use Rattle.std.specs.Prelude.{◌≡◌};
ghost use Rattle.host_trait.specs.World.{World};
ghost use Rattle.log_reading.specs.Steps.{seen_in};
ghost use Rattle.promise_spec.specs.Courses.{Observed, Course, program_in_force};
ghost use Rattle.promise_spec.specs.Images.{IsWholeFolder};
ghost use Rattle.promise_laws.specs.Closings.{ReadsMayStay, IsBehind};
ghost use Rattle.promise_laws.specs.Obligations.{Opens};
ghost use Rattle.silo_opening.specs.OpenedSilo.{IsOpenedFrom};
ghost use Rattle.silo_opening.specs.declared.opened_silo.Opened.{Opened};
ghost use Rattle.command_rules.specs.RunsBehindOpening.{program_of, FollowsOpening};

/// A run that goes on behind `open_silo` stands behind its opening, as `IsBehind` says, and the program in force is that which was
/// opened; over a whole folder its opening is what has to be shown of it. The premises are what `open_silo` ensures after Ok, and
/// what a host's reads give.
pub fn opened_folders_open()
    ensures behind { (o : Opened) (r : Observed) (c : Course) (mid : World) (is : IsOpenedFrom (seen_in r.old.disk) o) → FollowsOpening r c mid o.slot is.log
        → IsBehind r c mid }
    ensures in_force { (o : Opened) (r : Observed) (c : Course) (mid : World) (is : IsOpenedFrom (seen_in r.old.disk) o) → FollowsOpening r c mid o.slot is.log
        → program_in_force c ≡ program_of is }
    ensures opens { (o : Opened) (r : Observed) (c : Course) (mid : World) (is : IsOpenedFrom (seen_in r.old.disk) o) → FollowsOpening r c mid o.slot is.log
        → IsWholeFolder r.old → ReadsMayStay r.old → ReadsMayStay mid → Opens r c }
{}
