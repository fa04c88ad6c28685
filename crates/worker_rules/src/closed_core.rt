ghost use Rattle.std.specs.Prelude.{◌≡◌, ◌<◌, ℕ, List, []};
ghost use Rattle.core_model.specs.CoreState.{UnitNo};
ghost use Rattle.core_model.specs.LegalRuns.{Run, ends};
ghost use Rattle.promise_spec.specs.Cores.{HasBegun};
ghost use Rattle.promise_spec.specs.UnitRule.{Basis, KeepsUnitRule};
ghost use Rattle.turn_cell.specs.History.{entries_of};
ghost use Rattle.turn_rules.specs.NextEvent.{MayCome};
ghost use Rattle.turn_rules.specs.QuietRun.{IsQuiet};
ghost use Rattle.core_access.specs.Histories.{Told, run_after};
ghost use Rattle.core_access.specs.Sights.{AllPass, Counts, IsAlone};
ghost use Rattle.worker_rules.specs.UnitOwnership.{KeepsPromise};
ghost use Rattle.worker_rules.specs.SharedHistories.{AllPromise};
ghost use Rattle.worker_rules.specs.Work.{is_work, OnlyWorks};
ghost use Rattle.worker_rules.specs.JoinedPasses.{sight_by, WasShown};
ghost use Rattle.worker_rules.specs.ClosedCore.{IsClosed, PutsNothing, SettlesOrStops, IsOverAndFree, AreOverAndFree, HasBegunLines};

/// Where no pass put anything, the closed core's run is what it was.
pub fn nothing_put_changes_nothing()
    ensures { (first last : Run) → IsClosed PutsNothing PutsNothing first last → last ≡ first }
{}

/// Where each pass kept its promise, the closed core's run keeps the unit rule, if the first one did.
pub fn a_closed_core_keeps_the_unit_rule()
    ensures promises { (b : Basis) (first last : Run) (c : IsClosed (KeepsPromise b) (KeepsPromise b) first last) → AllPromise (MayCome b) first c.log }
    ensures rule { (b : Basis) (first last : Run) → IsClosed (KeepsPromise b) (KeepsPromise b) first last → 0 < first.base → KeepsUnitRule b first
        → KeepsUnitRule b last }
{}

/// Where workers put lines' and units' events alone, the first pass was alone with all others, by the whole history and by what
/// it had seen itself; and behind that only such events came.
pub fn who_settles_is_alone()
    ensures whole { (first last : Run) (c : IsClosed Counts (λ s. OnlyWorks s.mine) first last)
        → IsAlone is_work (sight_by first [] c.log (entries_of [] c.log)) }
    ensures before { (first last : Run) (c : IsClosed Counts (λ s. OnlyWorks s.mine) first last)
        → IsAlone is_work (sight_by first [] c.own.shown (entries_of [] c.log)) }
    ensures since { (first last : Run) (c : IsClosed Counts (λ s. OnlyWorks s.mine) first last) → AllPass is_work c.own.begins.0 }
    ensures last { (first last : Run) (c : IsClosed Counts (λ s. OnlyWorks s.mine) first last) → last ≡ run_after (run_after first c.own.shown) c.own.begins.0 }
{}

/// Where each worker's units are done, if nobody else made an event of them, and the first pass only settled, each unit that has
/// begun by the closed core's run is done, if those were so that had begun before.
pub fn all_units_are_done()
    ensures all { (b : Basis) (first last : Run)
        → IsClosed (λ s. SettlesOrStops s.mine × KeepsPromise b s) (λ s. KeepsPromise b s × AreOverAndFree s) first last
        → 0 < first.base → KeepsUnitRule b first → ((u : UnitNo) → HasBegun (ends first) u → IsOverAndFree u first) → (u : UnitNo)
        → HasBegun (ends last) u → IsOverAndFree u last }
    ensures quiet { (r : Run) (u : UnitNo) → IsQuiet (ends r) → HasBegun (ends r) u → IsOverAndFree u r }
{}

/// As many lines have begun by the last run as had when a worker looked, unless there is a doubt or a stop.
pub fn lines_that_began_have_begun()
    ensures { (first : Run) (log : List Told) (lines : ℕ) → WasShown (HasBegunLines lines) first log → HasBegunLines lines (run_after first log) }
{}
