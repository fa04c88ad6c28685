// A core before any event.
ghost use Rattle.std.specs.Prelude.{◌≡◌, ◌<◌, ◌≤◌, ◌^◌, [], length};
ghost use Rattle.cell_table.specs.Table.{limit_of, opening_state, used_of};
ghost use Rattle.history_core.specs.Cores.{run_of};

use crate::parts::Parts;
use crate::whole_core::Core;
use activations::Recent;
use base_types::{Shape, UnitNo};
use cell_table::{CellTable, OpeningStates};
use core_parts::{EntryList, HandedStates, History, LastStates, LearnQueue};
use std::alloc::Global;
use unit_table::UnitTable;

/// What a core begins with: the program's types, with which states the grains open, the number of the first unit, and the grains used
/// last, none of them yet, with how many of them stay in memory whoever uses them. Without those every grain stays in memory, and its
/// state is to be in a store. Where `keeps_last` is set each grain's last committed state is kept, and can be asked for.
#[derive(Drop)]
pub struct Opening {
    pub shape: Shape,
    pub opened: OpeningStates,
    pub next_unit: UnitNo,
    pub recent: Option<Recent>,
    pub keeps_last: bool,
}

impl Core {
    /// A core without events. Units are numbered from 1 or later, and up to 2^63. Takes no memory.
    pub fn new(alloc: Global, opened: Opening) -> Core
        requires above { 0 < opened.next_unit.0 }
        requires few { opened.next_unit.0 ≤ 2 ^ 63 }
        requires unused { used_of opened.recent ≡ [] }
        ensures run { run_of result ≡ record {
          base = opened.next_unit.0;
          kinds = length opened.shape.types;
          capacity = limit_of opened.recent;
          opening = opening_state opened.shape opened.opened;
          events = [];
        } }
        ensures keeps { result.keeps ≡ opened.keeps_last }
    {
        let base = opened.next_unit;
        let kinds = opened.shape.types.len() as u64;
        let parts = Parts {
            units: UnitTable::new(alloc, base, kinds),
            cells: CellTable::new(alloc, opened.shape, opened.opened, opened.recent),
            waiting: Vec::new(alloc),
            batches: 0,
            batch: None,
            doubt: false,
            entries: EntryList::new(alloc),
            learn: LearnQueue::new(alloc),
            last: LastStates::new(alloc, opened.keeps_last),
            handed: HandedStates::new(alloc),
        };
        let history = History::new();
        Core {
            parts,
            base: base.0,
            kinds,
            history,
        }
    }
}
