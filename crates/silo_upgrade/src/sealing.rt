ghost use Rattle.std.specs.Prelude.{◌≡◌, ◌⊎◌, ◌+◌, ◌^◌, ◌<◌, ◌≤◌, IsTrue, length, OnOk, IfErr};
ghost use Rattle.host_trait.specs.Disk.{Tears};
ghost use Rattle.host_trait.specs.Runs.{RunsOnFile};
ghost use Rattle.host_trait.specs.declared.channels.FileId.TheVariants.{Manager};
ghost use Rattle.gate_block.specs.Gates.{IsClosedAt};
ghost use Rattle.silo_opening.specs.CommandCalls.{HasCalledAs};
ghost use Rattle.silo_upgrade.specs.declared.faults.UpgradeEnd.{UpgradeEnd as AnEnd};
ghost use Rattle.silo_upgrade.specs.Endings.{upgrade_ending};
ghost use Rattle.silo_upgrade.specs.Steps.{upgrade_block, SealsText, HasSealedText};

use crate::faults::UpgradeEnd;
use commit_log::{Sealing, encode_upgrade, seal};
use host_trait::{FileId, Host};
use std::alloc::{AllocError, Global};

/// Puts the block of an upgrade to this text, in this session, behind the closed gate at `gate_at` of the slot's manager file, and opens
/// that gate. The text has at most 262,144 bytes.
pub(crate) fn seal_upgrade<H: Host>(
    alloc: Global,
    host: &mut H,
    slot: u8,
    gate_at: u64,
    text: &[u8],
    session: u64,
) -> Result<(), UpgradeEnd>
    requires slot { slot ≤ 1 }
    requires place { gate_at < 2 ^ 63 }
    requires small { length text.now ≤ 262144 }
    requires closed { IsTrue H.tells → IsClosedAt gate_at ((H.world host.old).disk (Manager slot)).seen }

    // No other file and no output changes, and each image of the manager file is one of before but for the gate and the block.
    ensures run { IsTrue H.tells
        → RunsOnFile (Manager slot) (Tears gate_at (length (upgrade_block session text.now) + 1)) 2 (H.world host.old) (H.world host.new) }

    // At each moment each image has the log that it had, or it with the upgrade's body.
    ensures logs { IsTrue H.tells → SealsText slot gate_at session text.now (H.world host.old) (H.world host.new) }

    // Once it is done each has it, and two syncs were asked for.
    ensures done { OnOk result (IsTrue H.tells → HasSealedText slot gate_at session text.now (H.world host.old) (H.world host.new)) }

    // It ends for a fault of that file, or for want of memory, and then nothing was done.
    ensures stopped { IfErr result (λ e. (e ≡ AnEnd.DiskFault (Manager slot)) ⊎ ((e ≡ AnEnd.Memory) × (host.new ≡ host.old))) }
    ensures calls { HasCalledAs (upgrade_ending result) H.is_ready H.faults host.old host.new }
{
    let block = match encode_upgrade(alloc, text, session) {
        Ok(block) => block,
        Err(AllocError) => return Err(UpgradeEnd::Memory),
    };
    match seal(host, slot, gate_at, block.as_slice()) {
        Sealing::Sealed { .. } => Ok(()),
        Sealing::NotSealed => Err(UpgradeEnd::DiskFault {
            file: FileId::Manager { slot },
        }),
        Sealing::InDoubt => Err(UpgradeEnd::DiskFault {
            file: FileId::Manager { slot },
        }),
    }
}
