ghost use Rattle.std.specs.Prelude.{◌<◌};
ghost use Rattle.core_model.specs.CoreState.{GrainId};
ghost use Rattle.core_model.specs.LegalRuns.{Run, ends};
ghost use Rattle.history_core.specs.ClosedUnits.{last_state};
ghost use Rattle.history_core.specs.LastWriters.{IsLastOf};

/// The state that a core says was written last in a grain is the one of the grain's last committed writer in the finish order:
/// what its file's last version stands for once the batch is on disk. There is none exactly where no committed unit wrote it.
pub fn last_states_are_the_last_writers()
    ensures { (r : Run) (g : GrainId) → 0 < r.base → IsLastOf (ends r) g (last_state (ends r) g) }
{}
