ghost use Rattle.std.specs.Prelude.{◌≡◌, ◌⊎◌, ◌≤◌, IsTrue, IfOk, IfErr, IsErrOf};
ghost use Rattle.base_types.specs.declared.calls.GrainId.{GrainId as AGrain};
ghost use Rattle.host_trait.specs.Faults.{HasCalled};
ghost use Rattle.host_trait.specs.Runs.{OnlyAsked};
ghost use Rattle.host_trait.specs.declared.channels.FileId.TheVariants.{Grain};
ghost use Rattle.log_reading.specs.Steps.{seen_in};
ghost use Rattle.program_file.specs.Succession.{ArePrograms};
ghost use Rattle.silo_opening.specs.declared.faults.OpenFault.{OpenFault};
ghost use Rattle.silo_opening.specs.Counts.{OpenFaulted};
ghost use Rattle.silo_opening.specs.OpenedSilo.{program_in, programs_of, AreStates, IsOpenedFrom};

use crate::faults::OpenFault;
use crate::opened_silo::{Opened, folder_fault};
use base_types::Store;
use field_codec::Format;
use host_trait::Host;
use log_reading::read_states;
use std::alloc::Global;

/// The states of an opened silo: that of each grain that has a version, by one read at its place. A grain that isn't in the store has its
/// type's initial fields. The folder must read as it did when it was opened.
///
/// # Errors
///
/// `DiskFault` where a call on a grain's file failed, and `Memory`.
pub fn states<H: Host>(alloc: Global, host: &mut H, opened: &Opened) -> Result<Store, OpenFault>
    requires slot { opened.now.slot ≤ 1 }
    requires programs { ArePrograms (programs_of opened.now) }
    ensures stand { IfOk result (λ store. IsTrue H.tells → (o : IsOpenedFrom (seen_in (H.world host.old).disk) opened.now)
        → AreStates (program_in opened.now) store o.log) }
    ensures refused { IfErr result (λ e. IsTrue H.tells → IsOpenedFrom (seen_in (H.world host.old).disk) opened.now
        → (e ≡ OpenFault.Memory) ⊎ ((grain : AGrain) × (e ≡ OpenFault.DiskFault (Grain opened.now.slot grain)))) }
    ensures not_last { IsErrOf result OpenFault.LastGeneration → ⊥ }
    ensures asked { IsTrue H.tells → OnlyAsked (H.world host.old) (H.world host.new) }
    ensures calls { HasCalled OpenFaulted result H.is_ready H.faults host.old host.new }
{
    match read_states(
        alloc,
        host,
        opened.slot,
        opened.programs.as_slice(),
        Format::Two,
        &opened.places,
    ) {
        Ok(store) => Ok(store),
        Err(fault) => Err(folder_fault(fault)),
    }
}
