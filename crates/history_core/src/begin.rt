// A unit begins.
ghost use Rattle.std.specs.Prelude.{◌≡◌, Bool, is_some, IfOk, IfErr, OnErr};
ghost use Rattle.std.specs.List.{list_all};
ghost use Rattle.base_types.specs.declared.calls.Call.{Call};
ghost use Rattle.base_types.specs.declared.calls.UnitNo.{UnitNo as AUnit};
ghost use Rattle.core_model.specs.CoreState.{CoreState};
ghost use Rattle.core_model.specs.Events.{can_begin};
ghost use Rattle.core_model.specs.declared.events.CoreEvent.TheVariants.{Begin};
ghost use Rattle.cell_table.specs.Table.{opens_with};
ghost use Rattle.unit_table.specs.Table.{outcome_known};
ghost use Rattle.history_core.specs.LockAnswers.{is_next_child_in};
ghost use Rattle.history_core.specs.KeptParts.{PartsStand};
ghost use Rattle.history_core.specs.Steps.{CanDo, KeepsMeaning, Tells, Does};

use crate::parts::Parts;
use crate::steps::fits_line;
use base_types::{Call, Origin, UnitNo};
use core_model::{CoreEvent, CoreReply};
use std::alloc::AllocError;
use unit_table::UnitTable;

impl Parts {
    // Whether a unit can begin there, and no stop stands.
    pub(crate) fn can_begin(&self, origin: &Origin) -> bool
        ensures { (call : Call) (plain : Bool) → Tells self.now (Begin origin.now call plain) result }
    {
        self.is_going() && self.is_next(origin)
    }

    // Whether it is the next line, or the next child of a running unit whose children are decided.
    fn is_next(&self, origin: &Origin) -> bool
        ensures { (w : CoreState) → PartsStand self.now w → result ≡ can_begin w origin.now }
    {
        match *origin {
            Origin::Line(line) => self.is_next_line(line),
            Origin::Child { parent, index, .. } => self.is_next_child(parent, index),
        }
    }

    // Whether the parent runs, and so many children of it have begun and are decided.
    fn is_next_child(&self, parent: UnitNo, index: u32) -> bool
        ensures { result ≡ is_next_child_in self.now parent index }
    {
        if !self.units.is_running(parent) {
            return false;
        }
        let kids = self.units.kids(parent);
        u64::from(index) == kids.len() as u64 && are_decided(&self.units, kids)
    }

    // The next number becomes a running unit.
    pub(crate) fn begin(
        &mut self,
        origin: Origin,
        call: Call,
        plain: bool,
    ) -> Result<CoreReply, (AllocError, CoreEvent)>
        requires can { CanDo self.old (Begin origin call plain) }
        ensures ok { IfOk result (λ reply. Does self.old (Begin origin call plain) reply self.new) }
        ensures back { IfErr result (λ e. e.1 ≡ Begin origin call plain) }
        ensures err { OnErr result (KeepsMeaning self.old self.new) }
        ensures opens { opens_with self.new.cells ≡ opens_with self.old.cells }
    {
        // No run comes to 2^63 units, so their limit is answered as want of memory too.
        if self.units.reserve_begin(&origin).is_err() {
            return Err((
                AllocError,
                CoreEvent::Begin {
                    origin,
                    call,
                    plain,
                },
            ));
        }
        fits_line(&origin);
        let unit = self.units.begin(origin, call, plain);
        Ok(CoreReply::Began { unit })
    }
}

// Whether these units are decided.
fn are_decided(units: &UnitTable, kids: &[UnitNo]) -> bool
    ensures { result ≡ list_all (λ (u : AUnit). is_some (outcome_known units.now u)) kids.now }
{
    for kid in kids {
        if !units.is_decided(*kid) {
            return false;
        }
    }
    true
}
