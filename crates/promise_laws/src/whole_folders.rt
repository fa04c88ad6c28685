ghost use Rattle.std.specs.Prelude.{◌≡◌, ◌++◌, ℕ, true, List, [], ◌∷◌, Some};
ghost use Rattle.std.specs.List.{AllByRecursion};
ghost use Rattle.host_trait.specs.World.{World, Image, IsImage};
ghost use Rattle.promise_spec.specs.Programs.{Program, shape_in};
ghost use Rattle.promise_spec.specs.Logs.{IsLog};
ghost use Rattle.promise_spec.specs.Outputs.{IsProper};
ghost use Rattle.promise_spec.specs.Courses.{Observed, Course, order, core_end};
ghost use Rattle.promise_spec.specs.Exits.{AreOf, units_in_doubt};
ghost use Rattle.promise_spec.specs.Journals.{Settlement, CutAt, commits_of, entries_of};
ghost use Rattle.promise_spec.specs.Images.{IsWholeFolder};
ghost use Rattle.promise_spec.specs.Promise.{Promises};
ghost use Rattle.promise_laws.specs.Closings.{ReadsMayStay, IsBehind, Carries};
ghost use Rattle.promise_laws.specs.Obligations.{ShowsAnywhere, Opens, Lasts};
ghost use Rattle.promise_spec.specs.Words.{Manner};

/// Over a whole folder, what the opening of a run answers is what has to be shown of it.
pub fn read_folders_open()
    ensures { (p : Program) (r : Observed) (c : Course) (mid : World) → IsBehind r c mid → IsWholeFolder r.old
        → ReadsMayStay r.old → ReadsMayStay mid → Opens r c }
{}

/// A journal that was kept from there to the exit is what has to be shown of the images: with no batch in doubt that an image
/// may have, and with one that an image has.
pub fn kept_journals_last()
    ensures whole { (p : Program) (r : Observed) (c : Course) (mid : World) (said unsaid : List Settlement) → IsBehind r c mid → Opens r c
        → ReadsMayStay r.new → CutAt c.live p c.opening mid said unsaid [] c.rest r.new → c.entries ≡ entries_of said
        → AllByRecursion (IsProper (shape_in p)) (entries_of said) → Carries p r c mid (said ++ unsaid) → Lasts p r c }
    ensures doubt { (p : Program) (r : Observed) (c : Course) (mid : World) (said unsaid : List Settlement) (batch : Settlement) (last : Image) (begins : ℕ)
        → IsBehind r c mid → Opens r c → CutAt c.live p c.opening mid said unsaid (batch ∷ []) c.rest r.new → c.entries ≡ entries_of said
        → AllByRecursion (IsProper (shape_in p)) (entries_of said) → Carries p r c mid ((said ++ unsaid) ++ batch ∷ [])
        → IsImage r.new.disk last → IsLog c.live last (order c) → (core_end p c).manager.doubt ≡ Some begins
        → AreOf (units_in_doubt (core_end p c)) (commits_of (batch ∷ [])) → Lasts p r c }
{}

/// The whole argument for a run that opened its folder: what it answers, over any folder; how the folder read; and what lasts,
/// where each of its images is whole.
pub fn carried_runs_promise()
    ensures { (m : Manner) (p : Program) (r : Observed) (c : Course) (mid : World) → ShowsAnywhere p r c → r.manner ≡ m → r.windowed ≡ true → IsBehind r c mid
        → ReadsMayStay r.old → ReadsMayStay mid → (Opens r c → Lasts p r c) → Promises m r }
{}
