// What a core has settled, the last states, and whether memory has a limit and space.
ghost use Rattle.std.specs.Prelude.{◌≡◌, ◌++◌, length, drop, is_some, true};
ghost use Rattle.std.specs.Option.{option_copied};
ghost use Rattle.core_parts.specs.LineEnds.{ends_of};
ghost use Rattle.core_model.specs.LegalRuns.{ends};
ghost use Rattle.cell_memory.specs.SpareMemory.{has_space};
ghost use Rattle.history_core.specs.ClosedUnits.{last_state};
ghost use Rattle.history_core.specs.Cores.{run_of};

use crate::whole_core::Core;
use base_types::{Entry, GrainId, State};
use core_parts::LineEnds;

impl Core {
    /// The settled entries that aren't written, in the order in which they came, in two pieces. One that is written isn't kept.
    pub fn settled(&self) -> (&[Entry], &[Entry])
        ensures { result.0.now ++ result.1.now ≡ drop (ends (run_of self.now)).manager.emitted (ends (run_of self.now)).manager.settled }
    {
        self.parts.entries.pending()
    }

    /// How many entries are settled, written or not.
    pub fn settled_count(&self) -> usize
        ensures { result ≡ length (ends (run_of self.now)).manager.settled }
    {
        self.parts.entries.ends().all
    }

    /// How the lines of all settled entries ended, written or not.
    pub fn line_ends(&self) -> LineEnds
        ensures { result ≡ ends_of (ends (run_of self.now)).manager.settled }
    {
        self.parts.entries.ends()
    }

    /// Whether memory has a limit.
    pub fn has_limit(&self) -> bool
        ensures { result ≡ is_some (run_of self.now).capacity }
    {
        self.parts.cells.has_limit()
    }

    /// Whether memory has space for one grain more, whoever uses it: it has no limit, or fewer grains were used than stay in it. While
    /// it has, no grain has left it (`cell_memory::none_leaves_spare_memory`).
    pub fn has_space(&self) -> bool
        ensures { result ≡ has_space (ends (run_of self.now)).cells }
    {
        self.parts.cells.has_space()
    }

    /// Whether the last committed states are kept: they are where the core was opened so.
    pub fn keeps_last(&self) -> bool
        ensures { result ≡ self.now.keeps }
    {
        self.parts.last.keeps()
    }

    /// The state that the last committed writer of the grain, in the finish order, wrote there; `None` where no committed
    /// unit wrote it.
    pub fn last_state(&self, grain: GrainId) -> Option<&State>
        requires { self.now.keeps ≡ true }
        ensures { option_copied result ≡ last_state (ends (run_of self.now)) grain }
    {
        self.parts.last.get(grain)
    }
}
