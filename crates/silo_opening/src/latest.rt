ghost use Rattle.std.specs.Prelude.{◌≡◌, ◌⊎◌, ◌≤◌, List, IsTrue, IfOk, IfErr};
ghost use Rattle.host_trait.specs.Faults.{HasCalled};
ghost use Rattle.host_trait.specs.Runs.{OnlyAsked};
ghost use Rattle.host_trait.specs.declared.channels.FileId.TheVariants.{Manager};
ghost use Rattle.log_reading.specs.Steps.{seen_in};
ghost use Rattle.program_file.specs.Succession.{ArePrograms};
ghost use Rattle.silo_opening.specs.declared.faults.OpenFault.{OpenFault};
ghost use Rattle.silo_opening.specs.Counts.{OpenFaulted};
ghost use Rattle.silo_opening.specs.OpenedSilo.{programs_of, IsOpenedFrom, AreLatest};

use crate::faults::OpenFault;
use crate::opened_silo::{Opened, folder_fault};
use base_types::List;
use commit_log::Named;
use field_codec::Format;
use host_trait::Host;
use log_reading::read_latest;
use std::alloc::Global;

/// The versions of an opened silo by which its grains' states stand: one of each grain that has a state, by ascending grains. Reads the
/// blocks of the log once more, and no version. The folder must read as it did when it was opened.
///
/// # Errors
///
/// `DiskFault` where a call on the live slot's manager file failed, and `Memory`.
pub fn latest_versions<H: Host>(
    alloc: Global,
    host: &mut H,
    opened: &Opened,
) -> Result<List<Named>, OpenFault>
    requires slot { opened.now.slot ≤ 1 }
    requires programs { ArePrograms (programs_of opened.now) }
    ensures latest { IfOk result (λ named. IsTrue H.tells → (o : IsOpenedFrom (seen_in (H.world host.old).disk) opened.now)
        → AreLatest (seen_in (H.world host.old).disk) opened.now o.log named) }
    ensures refused { IfErr result (λ e. IsTrue H.tells → IsOpenedFrom (seen_in (H.world host.old).disk) opened.now
        → (e ≡ OpenFault.Memory) ⊎ (e ≡ OpenFault.DiskFault (Manager opened.now.slot))) }
    ensures asked { IsTrue H.tells → OnlyAsked (H.world host.old) (H.world host.new) }
    ensures calls { HasCalled OpenFaulted result H.is_ready H.faults host.old host.new }
{
    let first = &opened.programs.as_slice()[0];
    match read_latest(alloc, host, opened.slot, first, Format::Two) {
        Ok(named) => Ok(named),
        Err(fault) => Err(folder_fault(fault)),
    }
}
