ghost use Rattle.std.specs.Prelude.{◌≡◌};
ghost use Rattle.interleaver.specs.EndedTurns.{ended_by};

use run_books::RunFault;
use settle_loop::{StopCause, Turned};

/// What a turn of the settler comes to in a run: where it stopped, the fault by which the run ends.
pub(crate) fn ended_by(turned: Turned) -> Result<(), RunFault>
    ensures { result ≡ ended_by turned }
{
    match turned {
        Turned::Stepped => Ok(()),
        Turned::Nothing => Ok(()),
        Turned::Stop(StopCause::InDoubt) => Err(RunFault::InDoubt),
        Turned::Stop(StopCause::WriteFault) => Err(RunFault::WriteFault),
        Turned::Stop(StopCause::LoadFault { file }) => Err(RunFault::LoadFault { file }),
        Turned::Stop(StopCause::LoadDamaged { file, place }) => {
            Err(RunFault::LoadDamaged { file, place })
        }
    }
}
