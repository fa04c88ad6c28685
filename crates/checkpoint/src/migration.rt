ghost use Rattle.std.specs.Prelude.{◌≡◌, ◌-◌, ◌+◌, ◌^◌, ◌<◌, ◌≤◌, ℕ, List as AList, IsTrue, IfOk, OnOk, IsErrOf, length};
ghost use Rattle.host_trait.specs.Faults.{HasCalled};
ghost use Rattle.host_trait.specs.declared.channels.FileId.{FileId as AFile};
ghost use Rattle.host_trait.specs.declared.channels.FileId.TheVariants.{Manager};
ghost use Rattle.log_reading.specs.declared.faults.FolderFault.{FolderFault as AFault};
ghost use Rattle.log_reading.specs.Counts.{ReadFaulted};
ghost use Rattle.promise_spec.specs.Entries.{Log};
ghost use Rattle.promise_spec.specs.Words.{Manner};
ghost use Rattle.promise_spec.specs.Endings.{BadUse};
ghost use Rattle.promise_spec.specs.Migration.{Migrates};
ghost use Rattle.silo_opening.specs.CommandCalls.{HasCalledAs};
ghost use Rattle.checkpoint.specs.Steps.{LastsIfLong};
ghost use Rattle.checkpoint.specs.NextGeneration.{HasNextSilo, IsQuietly};
ghost use Rattle.checkpoint.specs.Migration.{IsOldOf, CanBeCopied, MayCopy, CopiesOtherSlot};
ghost use Rattle.checkpoint.specs.Endings.{migrate_ending, migrated_as};

use crate::copied_files::copy_files;
use crate::copied_program::copy_program;
use crate::faults::{MigrateFault, folder_fault, manager_fault};
use crate::migrated_blocks::migrate_blocks;
use crate::other_slot::{close_gate, open_gate};
use base_types::{Ends, GrainId, List};
use field_codec::Format;
use host_trait::Host;
use log_reading::FolderFault;
use silo_opening::{OpenFault, Opened, open_silo_in};
use std::alloc::{AllocError, Global};

// What is copied of a silo of format 1: its live slot, and of each of these grains' files the bytes up to its end; and the generation that
// the copy gets.
#[derive(Drop)]
struct OldSilo {
    live: u8,
    generation: u32,
    grains: List<GrainId>,
    ends: Ends,
}

// What is copied of an opened silo.
fn old_silo(alloc: Global, opened: Opened) -> Result<OldSilo, AllocError>
    requires { opened.generation < 4294967295 }
    ensures { IfOk result (λ silo. IsOldOf opened silo) }
{
    let grains = opened.places.grains(alloc)?;
    Ok(OldSilo {
        live: opened.slot,
        generation: opened.generation + 1,
        grains: List::from_vec(grains),
        ends: opened.ends,
    })
}

// Copies the files into the slot that isn't live, in format 2, behind a closed header gate that is opened at the end.
fn copy_silo<H: Host>(alloc: Global, host: &mut H, silo: &OldSilo) -> Result<(), FolderFault>
    requires slot { silo.now.live ≤ 1 }
    requires generation { silo.now.generation < 2 ^ 32 }
    requires lasts { IsTrue H.tells → LastsIfLong ((H.world host.old).disk (Manager (1 - silo.now.live))) }
    requires long { IsTrue H.tells → 16 ≤ length ((H.world host.old).disk (Manager silo.now.live)).seen }

    // At each moment each image has the log, in the slot that was live or the very same in the other one.
    ensures gone { IsTrue H.tells → CopiesOtherSlot silo.now (H.world host.old) (H.world host.new) }

    // Once it is done the other slot is live in each image, with the next generation.
    ensures done { OnOk result (IsTrue H.tells → (log : Log) → MayCopy silo.now log (H.world host.old)
        → HasNextSilo silo.now.live silo.now.generation log (H.world host.new).disk) }

    // Nothing is emitted, no input is taken, and the clock goes on.
    ensures quietly { IsTrue H.tells → IsQuietly (H.world host.old) (H.world host.new) }

    // Where the files can be read whole, none is found damaged.
    ensures damaged { (file : AFile) (place : ℕ) → IsErrOf result (AFault.Damaged file place) → IsTrue H.tells
        → CanBeCopied silo.now (H.world host.old) → ⊥ }

    // A fault of a file is answered exactly where a call on it failed.
    ensures calls { HasCalled ReadFaulted result H.is_ready H.faults host.old host.new }
{
    let live = silo.live;
    let slot = 1 - live;
    if close_gate(host, slot).is_err() {
        return Err(manager_fault(slot));
    }
    copy_program(alloc, host, live)?;
    copy_files(alloc, host, live, &silo.ends, silo.grains.as_slice())?;
    migrate_blocks(alloc, host, live, silo.generation)?;
    if open_gate(host, slot).is_err() {
        return Err(manager_fault(slot));
    }
    Ok(())
}

/// Writes the host's silo, which has format 1, in format 2 into the slot that isn't live, as the next generation: the same program, the
/// same bytes of each grain's file up to the end of the places that the log names in it, so that each place is what it was, and the same
/// entries behind the same beginning, each in session 1. Then that slot is live, and has the very same log.
///
/// It opens the silo, and reads its files a second time, decoding no block. Until the new slot's header gate is opened, by one byte and one
/// sync as the last step, each crash leaves the silo as it was; from then on either slot may be live, with the same log. Files of grains
/// are copied in pieces of at most 65,536 bytes, with a sync of each file, and the manager's blocks one by one: beside what an opening keeps
/// it takes eight bytes for each grain, and a piece, or a block twice. No file is removed or gets shorter.
///
/// # Errors
///
/// `NotOld` exactly where the silo has format 2 already. Else `Open`: those of an opening but `OldFormat`; `LastGeneration` exactly where
/// the silo's generation is the last one, 4,294,967,295, and all is left as it was; `DiskFault` where a call on that file failed, and
/// `Memory`. Another call may follow each.
pub fn migrate<H: Host>(alloc: Global, host: &mut H) -> Result<(), MigrateFault>
    // What the command `migrate` promises, however it ends.
    ensures migrates { IsTrue H.tells → (manner : Manner) (asked : AList (AList ℕ))
        → Migrates (migrated_as manner asked (H.world host.old) (H.world host.new) (H.faults host.old) (H.faults host.new) result) }

    // A fault of a file is answered exactly where a call on it failed: its count rose, and no other changed. With another answer no
    // count has changed. Each file that was ready is.
    ensures calls { HasCalledAs (migrate_ending result) H.is_ready H.faults host.old host.new }
    ensures good { migrate_ending result ≡ BadUse → ⊥ }
{
    let opened = match open_silo_in(alloc, host, Format::One) {
        Ok(Some(opened)) => opened,
        Ok(None) => return Err(MigrateFault::NotOld),
        Err(fault) => return Err(MigrateFault::Open(fault)),
    };
    if opened.generation == u32::MAX {
        drop(opened);
        return Err(MigrateFault::Open(OpenFault::LastGeneration));
    }
    let silo = match old_silo(alloc, opened) {
        Ok(silo) => silo,
        Err(AllocError) => return Err(MigrateFault::Open(OpenFault::Memory)),
    };
    match copy_silo(alloc, host, &silo) {
        Ok(()) => {
            drop(silo);
            Ok(())
        }
        Err(fault) => {
            drop(silo);
            Err(MigrateFault::Open(folder_fault(fault)))
        }
    }
}
