// What a unit is answered that asks for a lock.
ghost use Rattle.std.specs.Prelude.{◌≡◌, Some};
ghost use Rattle.core_model.specs.Tests.{ask_lock};
ghost use Rattle.cell_model.specs.Units.{joined};
ghost use Rattle.history_core.specs.LockAnswers.{ask_in, is_active_in, is_gone_in, gone_in};

use crate::parts::Parts;
use base_types::{GrainId, Mode, UnitNo};
use cell_model::Ask;
use core_model::{AskAnswer, Read};

impl Parts {
    /// What the core answers to a unit that asks for a lock.
    pub(crate) fn ask(&self, unit: UnitNo, grain: GrainId, mode: Mode) -> AskAnswer
        ensures { result ≡ ask_in self.now unit grain mode }
    {
        if !self.is_active(unit, grain) {
            return AskAnswer::NotActive;
        }
        match self.oldest_gone(self.units.reads(unit)) {
            Some(source) => AskAnswer::Doomed { source },
            None => {
                let (is_here, ask) = self.cells.is_here_and_ask(unit, grain, mode);
                lock_answer(is_here, ask)
            }
        }
    }

    // Whether the unit runs, and the grain's type is known.
    pub(crate) fn is_active(&self, unit: UnitNo, grain: GrainId) -> bool
        ensures { result ≡ is_active_in self.now unit grain }
    {
        self.units.is_running(unit) && u64::from(grain.kind) < self.units.kinds()
    }

    // Whether the version that was read is no longer on top of its grain.
    fn is_gone(&self, read: &Read) -> bool
        ensures { result ≡ is_gone_in self.now read.now }
    {
        self.cells.top_unit(read.grain) != read.source
    }

    // The oldest source of these reads whose version is gone.
    fn oldest_gone(&self, reads: &[Read]) -> Option<UnitNo>
        ensures { result ≡ gone_in self.now reads.now }
    {
        let mut found = None;
        for read in reads {
            if self.is_gone(read) {
                found = Some(older_of(found, read.source));
            }
        }
        found
    }
}

// What the lock table says, where the grain is in memory or not: nobody has a lock of one that isn't.
fn lock_answer(is_here: bool, ask: Ask) -> AskAnswer
    ensures { result ≡ ask_lock is_here ask }
{
    match ask {
        Ask::Free if is_here => AskAnswer::Free,
        Ask::Free => AskAnswer::Absent,
        Ask::Held => AskAnswer::Held,
        Ask::MustDie { holder } => AskAnswer::MustDie { holder },
        Ask::MustWait { holder } => AskAnswer::MustWait { holder },
    }
}

// The older of a unit that may be missing and this one.
fn older_of(found: Option<UnitNo>, unit: UnitNo) -> UnitNo
    ensures { Some result ≡ joined found (Some unit) }
{
    match found {
        Some(other) if other.0 < unit.0 => other,
        _ => unit,
    }
}
