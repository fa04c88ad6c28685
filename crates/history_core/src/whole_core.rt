// The core, whole.
ghost use Rattle.core_model.specs.LegalRuns.{ends};
ghost use Rattle.history_core.specs.Cores.{run_of, HasFewNumbers};

use crate::parts::Parts;
use core_parts::History;
use std::marker::Model;

/// The core: what it keeps stands for the state after its events. Contracts see what its run began with, and its events.
#[derive(Drop)]
pub struct Core {
    pub(crate) parts: Parts,
    pub(crate) base: u64,
    pub(crate) kinds: u64,
    pub(crate) history: History,
}

impl Core {
    /// In whatever state a core is, its units have numbers below 2^63 and its lines numbers of 32 bits. Does nothing: a caller
    /// who needs that writes the call where it needs it.
    pub fn show_few(&self)
        ensures { HasFewNumbers (ends (run_of self.now)) }
    {
        let _parts = &self.parts;
    }
}

impl Model for Core {
    ghost use Rattle.std.specs.Prelude.{Some};
    ghost use Rattle.std.specs.Coded.{codes};
    ghost use Rattle.cell_table.specs.contracts.opening_states.OpeningStates as opening;
    ghost use Rattle.cell_table.specs.Table.{limit_of};
    ghost use Rattle.core_parts.specs.States.{keeps_states};
    ghost use Rattle.history_core.specs.Cores.{CoreData, IsCore};

    ghost Value = { CoreData };

    ghost coded = { Prim.hlevel (codes, opening.the_row.coded) };

    ghost view = { λ c. record {
      base = c.base;
      kinds = c.kinds;
      limit = limit_of c.parts.cells.recent;
      shape = c.parts.cells.shape;
      opened = Some c.parts.cells.opened;
      keeps = keeps_states c.parts.last;
      events = c.history.events;
    } };

    ghost invariant = { λ c. IsCore c.parts c.base c.kinds c.history.events };
}
