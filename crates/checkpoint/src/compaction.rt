ghost use Rattle.std.specs.Prelude.{◌≡◌, ◌≢◌, ◌⊎◌, ◌-◌, ◌^◌, ◌<◌, ℕ, List as AList, IsTrue, IfOk, IfErr, OnOk, IsErrOf, None, Ok, map};
ghost use Rattle.host_trait.specs.Faults.{HasCalled};
ghost use Rattle.host_trait.specs.declared.channels.FileId.{FileId as AFile};
ghost use Rattle.host_trait.specs.declared.channels.FileId.TheVariants.{Manager};
ghost use Rattle.log_reading.specs.declared.faults.FolderFault.{FolderFault as AFault};
ghost use Rattle.commit_log.specs.Orders.{IsAscending};
ghost use Rattle.program_file.specs.Succession.{ArePrograms, shapes_in_turn};
ghost use Rattle.program_file.specs.ProgramsInTurn.{programs_in, HasShapes};
ghost use Rattle.log_reading.specs.Steps.{seen_in};
ghost use Rattle.checkpoint.specs.Copies.{AreThere};
ghost use Rattle.checkpoint.specs.Steps.{LastsIfLong};
ghost use Rattle.checkpoint.specs.KeptSessions.{HasFilled, KeepsSession};
ghost use Rattle.checkpoint.specs.NextGeneration.{FillsOtherSlot, IsQuietly, MayBeWritten, next_generation};
ghost use Rattle.promise_spec.specs.Words.{Manner};
ghost use Rattle.promise_spec.specs.Endings.{BadUse};
ghost use Rattle.promise_spec.specs.Compaction.{Compacts};
ghost use Rattle.log_reading.specs.Counts.{ReadFaulted};
ghost use Rattle.silo_opening.specs.OpenedSilo.{in_folder};
ghost use Rattle.silo_opening.specs.declared.faults.OpenFault.{OpenFault as AnOpenFault};
ghost use Rattle.silo_opening.specs.CommandCalls.{HasCalledAs};
ghost use Rattle.checkpoint.specs.Endings.{compact_ending, compacted_as};

use crate::copies::copy_versions;
use crate::faults::{folder_fault, manager_fault};
use crate::other_slot::{close_gate, open_gate};
use crate::pieces::write_pieces;
use base_types::List;
use commit_log::{CheckpointHead, Named};
use host_trait::{Failed, FileId, Host};
use log_reading::FolderFault;
use program_file::ProgramsInTurn;
use silo_opening::{OpenFault, Opened, latest_versions, open_silo, write_program};
use std::alloc::{AllocError, Global};

// The counts of logs are below it.
const COUNT_LIMIT: u64 = 1 << 63;

// What the next generation is made of: the slot that is live, the generation, the program's text, the checkpoint's head, and the
// last version of each grain.
#[derive(Drop)]
struct Next {
    live: u8,
    generation: u32,
    text: List<u8>,
    head: CheckpointHead,
    latest: List<Named>,
}

// No generation follows the last one, and no checkpoint says a count that isn't below 2 to the 63.
fn refuse_last(opened: &Opened) -> Result<(), OpenFault>
    ensures may { OnOk result ((opened.now.generation ≢ 4294967295) × (opened.now.count < 2 ^ 63)) }
    ensures refused { IfErr result (λ e. ((e ≡ AnOpenFault.LastGeneration) × (opened.now.generation ≡ 4294967295)) ⊎ (e ≡ AnOpenFault.Memory)) }
{
    if opened.generation == u32::MAX {
        return Err(OpenFault::LastGeneration);
    }
    if opened.count >= COUNT_LIMIT {
        return Err(OpenFault::Memory);
    }
    Ok(())
}

// What the next generation is made of, and the programs of the log in turn.
fn next_generation(
    alloc: Global,
    opened: Opened,
    latest: List<Named>,
) -> Result<(ProgramsInTurn, Next), AllocError>
    requires { opened.generation < 4294967295 }
    ensures next { IfOk result (λ made. made.1 ≡ next_generation opened latest) }
    ensures programs { IfOk result (λ made. made.0.checked ≡ opened.programs) }
    ensures shapes { IfOk result (λ made. HasShapes made.0) }
{
    let programs = ProgramsInTurn::new(alloc, opened.programs)?;
    let next = Next {
        live: opened.slot,
        generation: opened.generation + 1,
        text: opened.text,
        head: CheckpointHead {
            count: opened.count,
            next_unit: opened.next_unit,
            session: opened.session,
        },
        latest,
    };
    Ok((programs, next))
}

// Writes the files of the slot that isn't live, behind a closed header gate that is opened at the end.
fn fill<H: Host>(
    alloc: Global,
    host: &mut H,
    programs: &ProgramsInTurn,
    next: Next,
) -> Result<(), FolderFault>
    requires shapes { HasShapes programs.now }
    requires programs { ArePrograms (programs_in programs.now) }
    requires may { MayBeWritten next }
    requires order { IsTrue H.tells → IsAscending None (map (λ n. n.written) next.latest) }
    requires lasts { IsTrue H.tells → LastsIfLong ((H.world host.old).disk (Manager (1 - next.live))) }

    // At each moment each image has the log, in the slot that was live or as a checkpoint in the other one.
    ensures gone { IsTrue H.tells → FillsOtherSlot next (programs_in programs.now) (H.world host.old) (H.world host.new) }

    // Once it is done the other slot is live in each image, with the next generation, and its checkpoint says the session that was given.
    ensures done { OnOk result (IsTrue H.tells → HasFilled next (programs_in programs.now) (H.world host.old) (H.world host.new)) }

    // Nothing is emitted, no input is taken, and the clock goes on.
    ensures quietly { IsTrue H.tells → IsQuietly (H.world host.old) (H.world host.new) }

    // None of the versions that are there is found damaged.
    ensures damaged { (file : AFile) (place : ℕ) → IsErrOf result (AFault.Damaged file place) → IsTrue H.tells
        → AreThere next.live (shapes_in_turn (programs_in programs.now)) (seen_in (H.world host.old).disk) next.latest → ⊥ }

    // A fault of a file is answered exactly where a call on it failed.
    ensures calls { HasCalled ReadFaulted result H.is_ready H.faults host.old host.new }
{
    let slot = 1 - next.live;
    let mut latest = next.latest.into_vec();
    if close_gate(host, slot).is_err() {
        return Err(manager_fault(slot));
    }
    if write_program(host, slot, next.text.as_slice()).is_err() {
        return Err(FolderFault::Failed {
            file: FileId::Program { slot },
        });
    }
    copy_versions(alloc, host, next.live, programs, latest.as_mut_slice())?;
    write_pieces(
        alloc,
        host,
        slot,
        next.generation,
        next.head,
        latest.as_slice(),
    )?;
    if open_gate(host, slot).is_err() {
        return Err(manager_fault(slot));
    }
    Ok(())
}

/// Writes the next generation of the host's silo into the slot that isn't live: the program in force, the last version of each grain, with
/// the state that it has under that program, and a checkpoint that names these in place of the records and the upgrades. Then that slot is
/// live, and stands for what the log stood for.
///
/// It opens the silo, and reads its log a second time. Until the new slot's header gate is opened, by one byte and one sync as the
/// last step, each crash leaves the silo as it was; from then on either slot may be live, with the same contents. Versions are copied
/// one by one, with a sync of each, and the checkpoint is written in pieces of 65,536 versions: beside what an opening takes it takes
/// 48 bytes for each named version, and 4 MB. No file is removed or gets shorter.
///
/// # Errors
///
/// Those of an opening; `LastGeneration` exactly where the silo's generation is the last one, 4,294,967,295, and all is left as it
/// was; `DiskFault` where a call on that file failed, and `Memory`, also where the log's count isn't below 2 to the 63. Another call may
/// follow each.
pub fn compact<H: Host>(alloc: Global, host: &mut H) -> Result<(), OpenFault>
    // What the command `compact` promises, however it ends.
    ensures compacts { IsTrue H.tells → (manner : Manner) (asked : AList (AList ℕ))
        → Compacts (compacted_as manner asked (H.world host.old) (H.world host.new) (H.faults host.old) (H.faults host.new) result) }

    // The checkpoint says the greatest session of the log that it stands for, so that none comes twice.
    ensures session { OnOk result (IsTrue H.tells → KeepsSession (H.world host.old) (H.world host.new)) }

    // A fault of a file is answered exactly where a call on it failed: its count rose, and no other changed. With another answer no
    // count has changed. Each file that was ready is.
    ensures calls { HasCalledAs (compact_ending result) H.is_ready H.faults host.old host.new }
    ensures good { compact_ending result ≡ BadUse → ⊥ }
{
    let opened = open_silo(alloc, host)?;
    refuse_last(&opened)?;
    let latest = match latest_versions(alloc, host, &opened) {
        Ok(latest) => latest,
        Err(fault) => {
            drop(opened);
            return Err(fault);
        }
    };
    let (programs, next) = match next_generation(alloc, opened, latest) {
        Ok(made) => made,
        Err(AllocError) => return Err(OpenFault::Memory),
    };
    match fill(alloc, host, &programs, next) {
        Ok(()) => {
            drop(programs);
            Ok(())
        }
        Err(fault) => {
            drop(programs);
            Err(folder_fault(fault))
        }
    }
}
