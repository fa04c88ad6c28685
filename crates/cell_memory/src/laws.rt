ghost use Rattle.std.specs.Prelude.{◌≡◌, ◌<◌, ℕ, true, List, Option, Some, None};
ghost use Rattle.base_types.specs.declared.calls.GrainId.{GrainId};
ghost use Rattle.base_types.specs.declared.calls.Mode.{Mode};
ghost use Rattle.base_types.specs.declared.calls.UnitNo.{UnitNo};
ghost use Rattle.base_types.specs.declared.calls.Value.{Value};
ghost use Rattle.cell_model.specs.Cells.{Cell};
ghost use Rattle.core_model.specs.CoreState.{CoreState, put_grain};
ghost use Rattle.core_model.specs.declared.events.CoreEvent.{CoreEvent};
ghost use Rattle.core_model.specs.Changes.{after_lock, after_raise, after_release, after_learn, cleaned, loaded, restacked, touched};
ghost use Rattle.core_model.specs.Events.{applies, does, step};
ghost use Rattle.core_model.specs.Laws.{extended};
ghost use Rattle.core_model.specs.LegalRuns.{Run, ends};
ghost use Rattle.cell_memory.specs.ChangedCells.{brought, after_grant_in, after_release_in, after_learn_in};
ghost use Rattle.cell_memory.specs.KeptCells.{CellsKept, StandsForCells};
ghost use Rattle.cell_memory.specs.LeavingGrains.{touches, evicted_by};
ghost use Rattle.cell_memory.specs.SpareMemory.{has_space};

/// Where what is kept stands for the cells once an event did what it does, it stands for those of the step once each grain that the
/// event touches is gone that leaves: no other grain is looked at, and none leaves where memory has no limit. It holds of every list
/// of events, whatever was loaded.
pub fn local_sweeps_are_sweeps()
    ensures { (r : Run) (e : CoreEvent) (limit : Option ℕ) (cell : CellsKept) (recent : List GrainId) → 0 < r.base → applies (ends r) e ≡ true
        → StandsForCells limit cell recent (does (ends r) e).cells
        → StandsForCells limit (evicted_by limit (does (ends r) e).units.wants recent (touches (ends r) e) cell) recent (step (ends r) e).cells }
{}

/// A grain that is loaded gets its cell, and what is kept stands for the cells with that one more; of a grain that isn't in memory
/// nothing is kept, whatever it learns. Nothing is asked of a load.
pub fn absent_grains_are_not_kept()
    ensures loads { (limit : Option ℕ) (cell : CellsKept) (recent : List GrainId) (w : CoreState) (g : GrainId) (u : UnitNo) (state : List Value)
        → StandsForCells limit cell recent w.cells → cell g ≡ None
        → StandsForCells limit (put_grain cell g (Some (brought u state))) (touched limit g recent) (loaded w g u state).cells }
    ensures leaves { (limit : Option ℕ) (cell : CellsKept) (recent : List GrainId) (w : CoreState) (g : GrainId) (u : UnitNo)
        → StandsForCells limit cell recent w.cells → cell g ≡ None
        → StandsForCells limit cell recent (after_learn w u g).cells }
{}

/// A lock that is granted changes its grain's cell alone, and what is kept stands for the cells with that one changed. A first one uses
/// the grain.
pub fn grants_change_one_cell()
    ensures locks { (limit : Option ℕ) (cell : CellsKept) (recent : List GrainId) (w : CoreState) (g : GrainId) (x : Cell) (u : UnitNo) (mode : Mode)
        → StandsForCells limit cell recent w.cells → cell g ≡ Some x
        → StandsForCells limit (put_grain cell g (Some (after_grant_in w u mode x))) (touched limit g recent)
        (after_lock (restacked w g (cleaned w g)) u g mode).cells }
    ensures raises { (limit : Option ℕ) (cell : CellsKept) (recent : List GrainId) (w : CoreState) (g : GrainId) (x : Cell) (u : UnitNo) (mode : Mode)
        → StandsForCells limit cell recent w.cells → cell g ≡ Some x
        → StandsForCells limit (put_grain cell g (Some (after_grant_in w u mode x))) recent (after_raise (restacked w g (cleaned w g)) u g mode).cells }
{}

/// So does a lock that is given back, and a decision that a grain learns.
pub fn ended_units_change_one_cell()
    ensures releases { (limit : Option ℕ) (cell : CellsKept) (recent : List GrainId) (w : CoreState) (g : GrainId) (x : Cell) (u : UnitNo)
        → StandsForCells limit cell recent w.cells → cell g ≡ Some x
        → StandsForCells limit (put_grain cell g (Some (after_release_in w u g x))) recent (after_release w u g).cells }
    ensures learns { (limit : Option ℕ) (cell : CellsKept) (recent : List GrainId) (w : CoreState) (g : GrainId) (x : Cell) (u : UnitNo)
        → StandsForCells limit cell recent w.cells → cell g ≡ Some x
        → StandsForCells limit (put_grain cell g (Some (after_learn_in w u x))) recent (after_learn w u g).cells }
{}

/// While memory has space for one grain more, whoever uses it, each grain that once was in memory is in it still. Nothing is asked of a
/// load.
pub fn none_leaves_spare_memory()
    ensures { (r : Run) (more : List CoreEvent) (g : GrainId) → 0 < r.base → has_space (ends (extended r more)).cells ≡ true
        → (ends r).cells.here g ≡ true → (ends (extended r more)).cells.here g ≡ true }
{}
