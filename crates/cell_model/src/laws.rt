ghost use Rattle.std.specs.Prelude.{◌≡◌, List, Bool, length};
ghost use Rattle.std.specs.Prelude.{filter};
ghost use Rattle.cell_model.specs.Stacks.{Version};
ghost use Rattle.cell_model.specs.Locks.{Hold, Mode, ask};
ghost use Rattle.cell_model.specs.Sources.{first_aborted, is_among};
ghost use Rattle.cell_model.specs.Decisions.{Prepared, all_decided};
ghost use Rattle.cell_model.specs.Cells.{Cell, cell_learned};
ghost use Rattle.cell_model.specs.Laws.{AnswersExactly, StackFollows, LocksFollow, SourcesFollow, CommitsExactly, DecidesInOrder};
ghost use Rattle.cell_model.specs.Units.{UnitNo, oldest, UnitsAscend};

/// What a commit keeps and which version is the bottom then, what an abort takes off, and that strangers change nothing.
pub fn stacks_follow()
    ensures { (unit : UnitNo) (stack : List Version) → StackFollows unit stack }
{}

/// Each answer to a unit that asks for a lock comes exactly where it says.
pub fn asking_is_exact()
    ensures { (holds : List Hold) (unit : UnitNo) (mode : Mode) → AnswersExactly holds unit mode (ask holds unit mode) }
{}

/// A grant gives the unit that lock, a drop leaves it none, and the others keep theirs.
pub fn locks_follow()
    ensures { (holds : List Hold) (unit : UnitNo) (mode : Mode) → LocksFollow holds unit mode }
{}

/// Sources stay ascending, with the new one among them; the first aborted one is the oldest.
pub fn sources_are_a_set()
    ensures kept { (sources : List UnitNo) (source : UnitNo) → UnitsAscend sources → SourcesFollow sources source }
    ensures first { (sources aborted : List UnitNo) → UnitsAscend sources → first_aborted sources aborted ≡ oldest (filter (is_among aborted) sources) }
{}

/// A batch has one decision for each unit, made where those before it stand, and `Commit` exactly for the alive.
pub fn decisions_are_exact()
    ensures count { (dead : UnitNo → Bool) (batch : List Prepared) → length (all_decided dead batch) ≡ length batch }
    ensures commits { (dead : UnitNo → Bool) (p : Prepared) → CommitsExactly dead p }
    ensures in_order { (dead : UnitNo → Bool) (before : List Prepared) (p : Prepared) (later : List Prepared) → DecidesInOrder dead before p later }
{}

/// A decision that is learnt twice is learnt once.
pub fn learning_twice_is_once()
    ensures { (cell : Cell) (unit : UnitNo) (commits : Bool) → cell_learned (cell_learned cell unit commits) unit commits ≡ cell_learned cell unit commits }
{}
