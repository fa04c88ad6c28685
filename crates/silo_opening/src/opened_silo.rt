ghost use Rattle.std.specs.Prelude.{◌≡◌, ◌+◌, ◌^◌, ◌<◌, ◌≤◌, ℕ, nat_le, IsTrue, length, Option, None, OnOk, IfOk, IfErr, IfSome, IsErrOf};
ghost use Rattle.host_trait.specs.Disk.{settled};
ghost use Rattle.host_trait.specs.Files.{StaysReady};
ghost use Rattle.host_trait.specs.Faults.{Counted, HasCalled};
ghost use Rattle.host_trait.specs.Runs.{OnlyAsked};
ghost use Rattle.host_trait.specs.declared.channels.Channel.TheVariants.{File};
ghost use Rattle.host_trait.specs.declared.channels.FileId.TheVariants.{Manager};
ghost use Rattle.silo_spec.specs.OpenedDisks.{slot_syncs, opening_syncs, opened_disk, OpensBy, OnlyOpens};
ghost use Rattle.log_reading.specs.Steps.{seen_in};
ghost use Rattle.log_reading.specs.Sums.{AreNear};
ghost use Rattle.field_codec.specs.declared.formats.Format.TheVariants.{Two};
ghost use Rattle.promise_spec.specs.Openings.{OtherFormat, reading_in, opened_as};
ghost use Rattle.promise_spec.specs.Refusals.{IsRefusedBy};
ghost use Rattle.silo_opening.specs.Steps.{Settles, SettlesBoth};
ghost use Rattle.silo_opening.specs.declared.faults.OpenFault.{OpenFault};
ghost use Rattle.silo_opening.specs.Counts.{OpenFaulted};
ghost use Rattle.silo_opening.specs.OpenedSilo.{header_in, live_header, in_program_file, in_folder, ending_of, LeavesOpenedIn, LeavesOpened, IsOpenedInBounds};

use crate::faults::OpenFault;
use crate::headers::{Header, header_of, live_header};
use base_types::{Ends, List, Places, UnitNo};
use field_codec::Format;
use host_trait::{Failed, FileId, Host, read_full};
use log_reading::{FolderFault, read_contents};
use program_file::{ProgramFileFault, accept, read_program};
use script_check::Checked;
use std::alloc::Global;

/// The greatest session that a block may have, which none can follow.
const LAST_SESSION: u64 = (1 << 63) - 1;

/// An opened silo: the slot that is live and its generation, the program in force with its text, all programs that came into force one after
/// the other, the one in force too, how many entries its log has, those before the log's beginning too, where the last version of each grain
/// that has one stands, the greatest end among the places that are named in each grain's file, the number of the next unit, the greatest
/// session of the log's blocks, 0 where it has none, and the place of the gate at which the log ends. Its states aren't kept: `states`
/// reads them.
#[derive(Drop)]
pub struct Opened {
    pub slot: u8,
    pub generation: u32,
    pub text: List<u8>,
    pub checked: Checked,
    pub programs: List<Checked>,
    pub count: u64,
    pub places: Places,
    pub ends: Ends,
    pub next_unit: UnitNo,
    pub session: u64,
    pub gate_at: u64,
}

impl Opened {
    /// The session of the blocks of a call that goes on behind this log: one more than the log's greatest. `None` where no session
    /// follows that one, as each is below 2 to the 63.
    pub fn next_session(&self) -> Option<u64>
        ensures next { IfSome result (λ session. (session ≡ self.now.session + 1) × (session < 2 ^ 63)) }
        ensures last { result ≡ None → 2 ^ 63 ≤ self.now.session + 1 }
    {
        if self.session >= LAST_SESSION {
            return None;
        }
        Some(self.session + 1)
    }
}

// Whether a slot's manager file is as long as a header and a gate. Where it is, it was synced: nothing of it is pending afterwards.
fn settle<H: Host>(host: &mut H, slot: u8) -> Result<bool, Failed>
    requires slot { slot ≤ 1 }
    ensures long { IfOk result (λ long. IsTrue H.tells → long ≡ nat_le 16 (length ((H.world host.old).disk (Manager slot)).seen)) }
    ensures settles { OnOk result (IsTrue H.tells → Settles slot (H.world host.old) (H.world host.new)) }
    ensures count { OnOk result (IsTrue H.tells
        → (H.world host.new).syncs ≡ (H.world host.old).syncs + slot_syncs (seen_in (H.world host.old).disk) slot) }
    ensures only { IsTrue H.tells
        → OpensBy (slot_syncs (seen_in (H.world host.old).disk) slot) (H.world host.old) (H.world host.new) }
    ensures faults { Counted (File (Manager slot)) result (H.faults host.old) (H.faults host.new) }
    ensures ready { StaysReady (H.is_ready host.old) (H.is_ready host.new) }
{
    let file = FileId::Manager { slot };
    if host.length(file)? < 16 {
        return Ok(false);
    }
    host.sync(file)?;
    Ok(true)
}

// The header of a slot's manager file, none where it isn't a silo's. Nothing is read of one that is said to be too short.
fn read_header<H: Host>(host: &mut H, slot: u8, long: bool) -> Result<Option<Header>, Failed>
    requires slot { slot ≤ 1 }
    requires long { IsTrue H.tells → long ≡ nat_le 16 (length ((H.world host.old).disk (Manager slot)).seen) }
    ensures told { IfOk result (λ found. IsTrue H.tells → found ≡ header_in ((H.world host.old).disk (Manager slot)).seen) }
    ensures asked { IsTrue H.tells → OnlyAsked (H.world host.old) (H.world host.new) }
    ensures faults { Counted (File (Manager slot)) result (H.faults host.old) (H.faults host.new) }
    ensures ready { StaysReady (H.is_ready host.old) (H.is_ready host.new) }
{
    if !long {
        return Ok(None);
    }
    let mut head = [0; 16];
    if !read_full(host, FileId::Manager { slot }, 0, &mut head)? {
        return Ok(None);
    }
    Ok(header_of(&head))
}

// The fault of a call on a slot's manager file.
fn manager_fault(slot: u8) -> OpenFault
    ensures { result ≡ OpenFault.DiskFault (Manager slot) }
{
    OpenFault::DiskFault {
        file: FileId::Manager { slot },
    }
}

// Syncs each manager file that is as long as a header and a gate, slot 0's first: nothing of these is pending afterwards. Answers
// whether slot 0's is one, and whether slot 1's is.
fn settle_both<H: Host>(host: &mut H) -> Result<(bool, bool), OpenFault>
    ensures first { IfOk result (λ long. IsTrue H.tells → long.0 ≡ nat_le 16 (length ((H.world host.old).disk (Manager 0)).seen)) }
    ensures other { IfOk result (λ long. IsTrue H.tells → long.1 ≡ nat_le 16 (length ((H.world host.old).disk (Manager 1)).seen)) }
    ensures settles { OnOk result (IsTrue H.tells → SettlesBoth (H.world host.old) (H.world host.new)) }
    ensures count { OnOk result (IsTrue H.tells
        → (H.world host.new).syncs ≡ (H.world host.old).syncs + opening_syncs (seen_in (H.world host.old).disk)) }
    ensures only { IsTrue H.tells → OnlyOpens (H.world host.old) (H.world host.new) }
    ensures refused { IfErr result (λ e. (slot : ℕ) × (slot ≤ 1) × (e ≡ OpenFault.DiskFault (Manager slot))) }
    ensures calls { HasCalled OpenFaulted result H.is_ready H.faults host.old host.new }
{
    let Ok(first) = settle(host, 0) else {
        return Err(manager_fault(0));
    };
    let Ok(other) = settle(host, 1) else {
        return Err(manager_fault(1));
    };
    Ok((first, other))
}

// The live slot and its header, by the manager files, each of which is synced where it is as long as a header and a gate.
fn find_live<H: Host>(host: &mut H) -> Result<Option<(u8, Header)>, OpenFault>
    ensures told { IfOk result (λ found. IsTrue H.tells
        → found ≡ live_header (header_in ((H.world host.old).disk (Manager 0)).seen) (header_in ((H.world host.old).disk (Manager 1)).seen)) }
    ensures slot { IfOk result (λ found. IfSome found (λ live. live.0 ≤ 1)) }
    ensures settles { OnOk result (IsTrue H.tells → SettlesBoth (H.world host.old) (H.world host.new)) }
    ensures count { OnOk result (IsTrue H.tells
        → (H.world host.new).syncs ≡ (H.world host.old).syncs + opening_syncs (seen_in (H.world host.old).disk)) }
    ensures only { IsTrue H.tells → OnlyOpens (H.world host.old) (H.world host.new) }
    ensures seen { IsTrue H.tells → seen_in (H.world host.new).disk ≡ seen_in (H.world host.old).disk }
    ensures refused { IfErr result (λ e. (slot : ℕ) × (slot ≤ 1) × (e ≡ OpenFault.DiskFault (Manager slot))) }
    ensures calls { HasCalled OpenFaulted result H.is_ready H.faults host.old host.new }
{
    let (long, also) = settle_both(host)?;
    let Ok(first) = read_header(host, 0, long) else {
        return Err(manager_fault(0));
    };
    let Ok(other) = read_header(host, 1, also) else {
        return Err(manager_fault(1));
    };
    Ok(live_header(first, other))
}

// The fault of a slot's program file that gave no program.
fn program_fault(slot: u8, fault: ProgramFileFault) -> OpenFault
    ensures { result ≡ in_program_file slot fault }
{
    match fault {
        ProgramFileFault::Damaged { place } => OpenFault::Damaged {
            file: FileId::Program { slot },
            place,
        },
        ProgramFileFault::Failed => OpenFault::DiskFault {
            file: FileId::Program { slot },
        },
        ProgramFileFault::Memory => OpenFault::Memory,
    }
}

/// The fault of a log, or of a version that it names.
pub(crate) fn folder_fault(fault: FolderFault) -> OpenFault
    ensures { result ≡ in_folder fault }
{
    match fault {
        FolderFault::Damaged { file, place } => OpenFault::Damaged { file, place },
        FolderFault::Failed { file } => OpenFault::DiskFault { file },
        FolderFault::Memory => OpenFault::Memory,
    }
}

/// Opens the silo of the host's folder where its live slot has this format, and writes nothing. `None` says that it has the other one;
/// nothing more was read then.
///
/// It asks for the length of both manager files and syncs each that has 16 bytes or more, slot 0's first, so that nothing of these
/// is pending afterwards. Then it reads the headers of these, whatever format they have; and of the live slot, which is the silo's of the
/// greater generation, the program file, the blocks up to the first closed gate, and each version that they name, by grains. Each is read
/// once. Beside what it answers it keeps 48 bytes for each named version while it reads. `docs/FORMATS.md` has the bytes.
///
/// # Errors
///
/// `NotASilo` exactly where neither slot's manager file has 16 bytes or more and begins with the header of a silo. `Damaged` names the
/// first damage in the order of reading. `DiskFault` where a call on that file failed, and `Memory` at any place.
pub fn open_silo_in<H: Host>(
    alloc: Global,
    host: &mut H,
    format: Format,
) -> Result<Option<Opened>, OpenFault>
    // The folder reads as a silo with a program and a log, and this is what they stand for. Each manager file of 16 bytes or more was
    // synced once, the live one among them, and beside that there was nothing but asking.
    ensures opened { IfOk result (λ found. IfSome found (λ o. IsTrue H.tells → LeavesOpenedIn format (H.world host.old) (H.world host.new) o)) }
    ensures bounds { IfOk result (λ found. IfSome found (λ o. IsOpenedInBounds o)) }

    // Or its live slot has the other format.
    ensures other { IfOk result (λ found. found ≡ None → IsTrue H.tells → reading_in format (seen_in (H.world host.old).disk) ≡ OtherFormat) }

    // A refusal is what the folder reads as, a fault of a file that has to be read, or want of memory.
    ensures refused { IfErr result (λ e. IsTrue H.tells
        → IsRefusedBy format (seen_in (H.world host.old).disk) (reading_in format (seen_in (H.world host.old).disk)) (ending_of e)) }
    ensures not_last { IsErrOf result OpenFault.LastGeneration → ⊥ }
    ensures not_old { IsErrOf result OpenFault.OldFormat → ⊥ }

    // `DiskFault` is answered exactly where a call on the file failed: its count rose, and no other changed. With another answer
    // no count has changed.
    ensures calls { HasCalled OpenFaulted result H.is_ready H.faults host.old host.new }

    // Whatever is answered, nothing was written or emitted, and no input was taken: each image of each moment is one of those at
    // entry, and each file is as it was, or as this call leaves it.
    ensures only { IsTrue H.tells → OnlyOpens (H.world host.old) (H.world host.new) }
{
    let Some((slot, header)) = find_live(host)? else {
        return Err(OpenFault::NotASilo);
    };
    if header.format != format {
        return Ok(None);
    }
    let (text, first) = match read_program(alloc, host, slot) {
        Ok(found) => found,
        Err(fault) => return Err(program_fault(slot, fault)),
    };
    let contents = match read_contents(alloc, host, slot, text, first, format) {
        Ok(contents) => contents,
        Err(fault) => return Err(folder_fault(fault)),
    };
    let Ok(checked) = accept(alloc, contents.text.as_slice()) else {
        return Err(OpenFault::Memory);
    };
    Ok(Some(Opened {
        slot,
        generation: header.generation,
        text: contents.text,
        checked,
        programs: contents.programs,
        count: contents.count,
        places: contents.places,
        ends: contents.ends,
        next_unit: contents.next_unit,
        session: contents.session,
        gate_at: contents.gate_at,
    }))
}

/// Opens the silo of the host's folder, which has format 2, as `open_silo_in` does.
///
/// # Errors
///
/// Those of `open_silo_in`, and `OldFormat` exactly where the live slot has format 1.
pub fn open_silo<H: Host>(alloc: Global, host: &mut H) -> Result<Opened, OpenFault>
    // The folder reads as a silo with a program and a log, and this is what they stand for.
    ensures opened { IfOk result (λ o. IsTrue H.tells → LeavesOpened (H.world host.old) (H.world host.new) o) }
    ensures bounds { IfOk result (λ o. IsOpenedInBounds o) }

    // A refusal is what the folder reads as, a fault of a file that has to be read, or want of memory.
    ensures refused { IfErr result (λ e. IsTrue H.tells
        → IsRefusedBy Two (seen_in (H.world host.old).disk) (opened_as (seen_in (H.world host.old).disk)) (ending_of e)) }
    ensures not_last { IsErrOf result OpenFault.LastGeneration → ⊥ }

    // `DiskFault` is answered exactly where a call on the file failed, and each file is left as `open_silo_in` leaves it.
    ensures calls { HasCalled OpenFaulted result H.is_ready H.faults host.old host.new }
    ensures only { IsTrue H.tells → OnlyOpens (H.world host.old) (H.world host.new) }
{
    match open_silo_in(alloc, host, Format::Two) {
        Ok(Some(opened)) => Ok(opened),
        Ok(None) => Err(OpenFault::OldFormat),
        Err(fault) => Err(fault),
    }
}
