ghost use Rattle.std.specs.Prelude.{◌≡◌, ◌<◌, ℕ, Bool, true, false, List as AList, Result as AResult, take};
ghost use Rattle.core_model.specs.LegalRuns.{Run, begins, ends};
ghost use Rattle.core_model.specs.SerialOrder.{AllLoadsTrue, IsLastVersion};
ghost use Rattle.host_trait.specs.declared.channels.FileId.TheVariants.{Manager, Grain};
ghost use Rattle.host_trait.specs.World.{World};
ghost use Rattle.base_types.specs.declared.calls.GrainId.{GrainId};
ghost use Rattle.promise_spec.specs.Programs.{Program as AProgram};
ghost use Rattle.promise_spec.specs.Cores.{how_many};
ghost use Rattle.promise_spec.specs.Causes.{is_vote_of};
ghost use Rattle.promise_spec.specs.Endings.{Ending, IsDiskFault};
ghost use Rattle.promise_spec.specs.Courses.{Observed, Course, seen_at_entry, core_run};
ghost use Rattle.promise_spec.specs.Explanation.{AreSettled, LeavesUnvoted};
ghost use Rattle.promise_spec.specs.TurnRule.{KeepsTurnRule};
ghost use Rattle.promise_laws.specs.Closings.{IsBehind, ReadsMayStay};
ghost use Rattle.promise_laws.specs.Obligations.{ExplainsEvents, Opens, Lasts};
ghost use Rattle.settle_loop.specs.declared.settler.Settler.{Settler as ASettler};
ghost use Rattle.run_books.specs.declared.faults.RunFault.{RunFault as AFault};
ghost use Rattle.run_books.specs.Beginnings.{Outset};
ghost use Rattle.run_books.specs.Books.{Books};
ghost use Rattle.run_books.specs.Images.{LastsSo};
ghost use Rattle.run_books.specs.Places.{load_by};
ghost use Rattle.run_books.specs.Records.{KeepsFile, KeepsBooks, HasCarriedAll, TurnsEndAs};
ghost use Rattle.run_books.specs.RunCourse.{EndsSo, IsRecorded, turns_ending};
ghost use Rattle.run_books.specs.Stages.{Stage};

/// A run may end as its turns were answered, and where all so far was carried in any way but by a file's fault.
pub fn runs_end_so<T>()
    ensures by_turns { (tells : Bool) (o : Outset) (b : Books) (s : Stage) (result : AResult T AFault) (ending : Ending) → TurnsEndAs tells o b s result
        → ending ≡ turns_ending o.live result
        → EndsSo o s.run ending }
    ensures carried { (o : Outset) (s : Stage) (ending : Ending) → HasCarriedAll o s → (IsDiskFault ending → ⊥) → EndsSo o s.run ending }
{}

/// A grain's file is written for a vote alone.
pub fn unvoted_files_stay()
    ensures { (p : AProgram) (seen : Observed) (c : Course) (mid : World) → IsBehind seen c mid
        → ((g : GrainId) → how_many (is_vote_of g) (core_run p c) ≡ 0 → KeepsFile (Grain c.live g) mid seen.new) → LeavesUnvoted c.live p seen c }
{}

/// What would be loaded of a grain by its place is true: it is the grain's last committed version, or nobody's with the state that the grain had
/// where the run began.
pub fn loads_by_places_are_true()
    ensures { (o : Outset) (b : Books) (s : Stage) (g : GrainId) → 0 < s.run.base → KeepsBooks true o b s
        → IsLastVersion s.run.opening (ends s.run) g (load_by o s.settler.writer g).unit (load_by o s.settler.writer g).state }
{}

/// Over a host that tells, each load of a run was true, however it ended.
pub fn recorded_loads_are_true()
    ensures { (o : Outset) (b : Books) (r : Run) (settler : ASettler) (seen : Observed) (c : Course)
        → IsRecorded true o b r settler seen c → AllLoadsTrue r.opening (begins r) r.events }
{}

/// What the record of a run says, however it ended, is what a whole run has to show over any folder: that the core's events explain
/// what it did, where those of one thread keep the turn rule and each load was true; that what it wrote is what is settled; and, where
/// the images keep the books, what has to last.
pub fn records_show()
    ensures explains { (tells : Bool) (o : Outset) (b : Books) (r : Run) (settler : ASettler) (seen : Observed) (c : Course)
        → IsRecorded tells o b r settler seen c → AllLoadsTrue r.opening (begins r) r.events → EndsSo o r seen.ending
        → (seen.manner.threaded ≡ false → KeepsTurnRule o.program.types seen.windowed c.allowed o.width o.picks r)
        → LeavesUnvoted c.live o.program seen c → ExplainsEvents o.program seen c }
    ensures settled { (tells : Bool) (o : Outset) (b : Books) (r : Run) (settler : ASettler) (seen : Observed) (c : Course)
        → settler.quiet ≡ false → IsRecorded tells o b r settler seen c → EndsSo o r seen.ending → AreSettled o.program seen c }
    ensures lasts { (tells : Bool) (o : Outset) (head : AList ℕ) (b : Books) (r : Run) (settler : ASettler) (seen : Observed) (c : Course)
        → tells ≡ true → IsRecorded tells o b r settler seen c → LastsSo o head b r settler.writer seen.new
        → head ≡ take 15 (seen_at_entry seen (Manager c.live)) → IsBehind seen c o.world → Opens seen c → ReadsMayStay seen.new
        → Lasts o.program seen c }
{}
