// Which results are let go.
ghost use Rattle.std.specs.Prelude.{◌≡◌};
ghost use Rattle.unit_table.specs.Rooms.{SameUnits};
ghost use Rattle.unit_table.specs.Table.{next_in};

use crate::table::UnitTable;

// So many units keep their results, whatever became of those before them.
const KEPT_RESULTS: usize = 4096;

impl UnitTable {
    // Lets the results of at most two units go, the first ones that keep theirs, where these are decided and more than 4,096
    // units keep their results. Two for each unit that begins: so those behind a unit that runs long are caught up with.
    pub(crate) fn forget(&mut self)
        ensures same { SameUnits self.old self.new }
        ensures next { next_in self.new ≡ next_in self.old }
    {
        self.forget_one();
        self.forget_one();
    }

    // Lets the result of the first unit that keeps its own go, where it is decided, more than 4,096 units keep theirs, and
    // there is memory for what stays of it.
    fn forget_one(&mut self)
        ensures same { SameUnits self.old self.new }
        ensures next { next_in self.new ≡ next_in self.old }
    {
        if self.units.len() <= KEPT_RESULTS {
            return;
        }
        let Some(entry) = self.units.front() else {
            return;
        };
        let Some(past) = entry.past() else {
            return;
        };
        if self.past.push(past).is_ok() {
            self.units.pop_front();
        }
    }
}
