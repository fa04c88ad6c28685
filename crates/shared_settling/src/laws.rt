ghost use Rattle.std.specs.Prelude.{◌<◌, Bool};
ghost use Rattle.promise_spec.specs.UnitRule.{KeepsUnitRule};
ghost use Rattle.run_books.specs.Beginnings.{Outset, basis_of};
ghost use Rattle.run_books.specs.Books.{Books};
ghost use Rattle.run_books.specs.Records.{KeepsBooks, HasCarriedAll};
ghost use Rattle.shared_settling.specs.Endings.{HasNoMover};
ghost use Rattle.run_books.specs.Stages.{Stage};

/// Where no line is left, each unit that began is over and has no lock, and the settler has nothing to do, without a doubt and
/// without a stop, all is done: each line has its entry, all that is settled is written, and nothing was ever in doubt.
pub fn who_rests_has_carried_all()
    ensures { (tells : Bool) (o : Outset) (b : Books) (s : Stage) → 0 < s.run.base
        → KeepsUnitRule (basis_of o) s.run → KeepsBooks tells o b s → HasNoMover o s.run → HasCarriedAll o s }
{}
