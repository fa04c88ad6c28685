// The header gate of the slot that isn't live.
ghost use Rattle.std.specs.Prelude.{◌≡◌, ◌≤◌, ◌∷◌, [], false, length, slice_index, IsTrue, IfOk, OnOk};
ghost use Rattle.host_trait.specs.Disk.{Tears, overlaid, settled};
ghost use Rattle.host_trait.specs.Files.{StaysReady};
ghost use Rattle.host_trait.specs.Faults.{Counted};
ghost use Rattle.host_trait.specs.Runs.{RunsOnFile, OnlyAsked};
ghost use Rattle.host_trait.specs.declared.channels.Channel.TheVariants.{File};
ghost use Rattle.host_trait.specs.declared.channels.FileId.TheVariants.{Manager};
ghost use Rattle.silo_spec.specs.OtherSlot.{IsShutFile};
ghost use Rattle.checkpoint.specs.Steps.{Stays, HasToClose, ClosesGate};

use crate::manager_file::byte_at;
use host_trait::{Failed, FileId, Host, write_synced};

// Whether a slot's header gate is closed, behind which a header has its place. A file with fewer bytes, where it has some, is synced.
fn is_shut<H: Host>(host: &mut H, slot: u8) -> Result<bool, Failed>
    requires slot { slot ≤ 1 }
    requires lasts { IsTrue H.tells → 16 ≤ length ((H.world host.old).disk (Manager slot)).seen
        → (H.world host.old).disk (Manager slot) ≡ settled ((H.world host.old).disk (Manager slot)).seen }
    ensures run { IsTrue H.tells → RunsOnFile (Manager slot) Stays 1 (H.world host.old) (H.world host.new) }
    ensures shut { IfOk result (λ shut. IsTrue shut → IsTrue H.tells → IsShutFile ((H.world host.new).disk (Manager slot))) }
    ensures open { IfOk result (λ shut. shut ≡ false → IsTrue H.tells → HasToClose ((H.world host.new).disk (Manager slot))) }
    ensures faults { Counted (File (Manager slot)) result (H.faults host.old) (H.faults host.new) }
    ensures ready { StaysReady (H.is_ready host.old) (H.is_ready host.new) }
{
    let file = FileId::Manager { slot };
    let length = host.length(file)?;
    if length == 0 {
        return Ok(false);
    }
    if length < 16 {
        host.sync(file)?;
        return Ok(false);
    }
    let gate = byte_at(host, slot, 0)?;
    Ok(gate != 1)
}

/// Closes the header gate of a slot, where it is open or there is no header: by one write of that byte alone, and one sync. A file
/// that is too short for a header is synced before that.
pub fn close_gate<H: Host>(host: &mut H, slot: u8) -> Result<(), Failed>
    requires slot { slot ≤ 1 }
    requires lasts { IsTrue H.tells → 16 ≤ length ((H.world host.old).disk (Manager slot)).seen
        → (H.world host.old).disk (Manager slot) ≡ settled ((H.world host.old).disk (Manager slot)).seen }
    ensures closes { IsTrue H.tells → ClosesGate slot (H.world host.old) (H.world host.new) }
    ensures shut { OnOk result (IsTrue H.tells → IsShutFile ((H.world host.new).disk (Manager slot))) }
    ensures faults { Counted (File (Manager slot)) result (H.faults host.old) (H.faults host.new) }
    ensures ready { StaysReady (H.is_ready host.old) (H.is_ready host.new) }
{
    if is_shut(host, slot)? {
        return Ok(());
    }
    write_synced(host, FileId::Manager { slot }, 0, &[0])?;
    Ok(())
}

/// Opens the header gate of a slot, by one write of that byte alone and one sync.
pub fn open_gate<H: Host>(host: &mut H, slot: u8) -> Result<(), Failed>
    requires slot { slot ≤ 1 }
    ensures run { IsTrue H.tells → RunsOnFile (Manager slot) (Tears 0 1) 1 (H.world host.old) (H.world host.new) }
    ensures ok { OnOk result (IsTrue H.tells
        → (H.world host.new).disk (Manager slot) ≡ settled (overlaid ((H.world host.old).disk (Manager slot)).seen 0 (1 ∷ []))) }
    ensures faults { Counted (File (Manager slot)) result (H.faults host.old) (H.faults host.new) }
    ensures ready { StaysReady (H.is_ready host.old) (H.is_ready host.new) }
{
    write_synced(host, FileId::Manager { slot }, 0, &[1])?;
    Ok(())
}
