// Which stops stand.
ghost use Rattle.std.specs.Prelude.{◌≡◌, is_none};
ghost use Rattle.core_model.specs.CoreState.{CoreState};
ghost use Rattle.history_core.specs.KeptParts.{PartsStand};
ghost use Rattle.history_core.specs.Steps.{is_going};

use crate::parts::Parts;

impl Parts {
    // Whether no stop stands.
    pub(crate) fn is_going(&self) -> bool
        ensures { (w : CoreState) → PartsStand self.now w → result ≡ is_going w }
    {
        !self.doubt && !self.units.is_halted()
    }

    // Whether no batch is in doubt.
    pub(crate) fn is_known(&self) -> bool
        ensures { (w : CoreState) → PartsStand self.now w → result ≡ is_none w.manager.doubt }
    {
        !self.doubt
    }
}
