ghost use Rattle.std.specs.Prelude.{◌≡◌, ◌≤◌, ◌++◌, ℕ, Bool, true, List, length};
ghost use Rattle.host_trait.specs.World.{World};
ghost use Rattle.core_model.specs.LegalRuns.{Run, ends};
ghost use Rattle.promise_spec.specs.TurnRule.{KeepsTurnRule, at_seam};
ghost use Rattle.promise_spec.specs.UnitRule.{KeepsUnitRule};
ghost use Rattle.batch_disk.specs.declared.writer.BatchWriter.{BatchWriter as AWriter};
ghost use Rattle.run_books.specs.Beginnings.{Outset, basis_of, with_more};
ghost use Rattle.run_books.specs.Books.{Books};
ghost use Rattle.run_books.specs.Images.{LastsSo};
ghost use Rattle.run_books.specs.Records.{KeepsRecord};
ghost use Rattle.run_books.specs.Stages.{Stage};

/// A run that is asked more lines keeps its record, and its images keep what they kept. Behind whole windows it keeps the turn rule too.
/// No more lines have begun than are asked.
pub fn records_go_on_over_more_lines()
    ensures record_kept { (tells : Bool) (o : Outset) (more : List (List ℕ)) (b : Books) (s : Stage) → KeepsRecord tells o b s
        → KeepsRecord tells (with_more o more) b s }
    ensures lasts { (o : Outset) (more : List (List ℕ)) (head : List ℕ) (b : Books) (r : Run) (writer : AWriter) (now : World) → LastsSo o head b r writer now
        → LastsSo (with_more o more) head b r writer now }
    ensures turns { (o : Outset) (more : List (List ℕ)) (r : Run) → KeepsUnitRule (basis_of o) r → at_seam o.windowed (length o.asked) ≡ true
        → KeepsTurnRule o.program.types o.windowed (length o.asked) o.width o.picks r
        → KeepsTurnRule o.program.types o.windowed (length (o.asked ++ more)) o.width o.picks r }
    ensures begun { (o : Outset) (r : Run) → KeepsUnitRule (basis_of o) r → (ends r).units.lines ≤ length o.asked }
{}
