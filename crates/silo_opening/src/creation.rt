ghost use Rattle.std.specs.Prelude.{◌≡◌, ◌≢◌, ◌⊎◌, ◌+◌, ◌^◌, ◌<◌, ◌≤◌, ◌∷◌, ◌++◌, [], ℕ, List, IsTrue, true, false, length, IfOk, OnOk, IfErr, IsErrOf};
ghost use Rattle.std.specs.Int.{w32, to_le_bytes};
ghost use Rattle.host_trait.specs.Disk.{Tears, overlaid, settled};
ghost use Rattle.host_trait.specs.World.{Image, IsImage, Passes, moment_of};
ghost use Rattle.host_trait.specs.Runs.{RunsOnFile, OnlyAsked};
ghost use Rattle.host_trait.specs.Files.{StaysReady};
ghost use Rattle.host_trait.specs.Faults.{Counted, HasCalled};
ghost use Rattle.host_trait.specs.declared.channels.FileId.{FileId};
ghost use Rattle.host_trait.specs.declared.channels.FileId.TheVariants.{Manager, Program as ProgramFile};
ghost use Rattle.host_trait.specs.declared.channels.Channel.TheVariants.{File};
ghost use Rattle.silo_spec.specs.Silos.{manager, IsEitherManager, IsMagic, IsNewSilo};
ghost use Rattle.silo_spec.specs.OtherSlot.{IsShutFile};
ghost use Rattle.silo_spec.specs.Slots.{IsLive, ShowsSilos};
ghost use Rattle.silo_spec.specs.Moments.{IsUntouched};
ghost use Rattle.silo_opening.specs.declared.faults.CreateFault.{CreateFault};
ghost use Rattle.silo_opening.specs.declared.creation.Front.{Front};
ghost use Rattle.silo_opening.specs.Counts.{CreateFaulted};
ghost use Rattle.silo_spec.specs.Creation.{IsMade, StaysBeside, FromFirstSync, IsNewAt, CameThisFar};
ghost use Rattle.silo_opening.specs.NewSilos.{KeepsSilo, FoundSilo, LooksAtBoth, IsPrepared, ComesSoFar, FillsSoFar, IsCreated};
ghost use Rattle.silo_opening.specs.Steps.{ShowsFront, OnlyLooks, SyncsFor, syncs_for, LacksSilo, HasNoSilo, ReadsSilo};

use crate::faults::CreateFault;
use crate::headers::format_named;
use host_trait::{Failed, FileId, Host, read_full, write_synced};

// The manager file of a new silo, which is made in slot 0.
const MANAGER: FileId = FileId::Manager { slot: 0 };

// What stands behind the header gate of a new manager file: the magic of format 2, the generation 0, two zeros, and the closed gate of
// the first block.
const HEADER: [u8; 15] = *b"OTXLOG02\0\0\0\0\0\0\0";

// What the first 16 bytes of a manager file say.
#[derive(Clone, Copy)]
enum Front {
    // The file has no bytes.
    Empty,
    // They are a silo's.
    Silo,
    // They are no silo's, whatever byte 0 is: there are fewer, or the gate is open and the name is no magic.
    Open,
    // The gate is closed.
    Closed,
}

/// Makes the folder a silo of this program with an empty log, of format 2, or leaves it as it was where it is a silo of either format.
///
/// The program is checked text of at most 262,144 bytes. The manager files of both slots are looked at first, slot 0's before
/// slot 1's, and each that has bytes is synced; the silo is made in slot 0. No memory is taken. A crash at any moment leaves no silo
/// or a new one, once these syncs have succeeded, where no manager file that reads shorter than 16 bytes is a silo's in any image at
/// entry; until then nothing was written.
///
/// # Errors
///
/// `AlreadyASilo` where one of the manager files reads as a silo; what they read lasts then. `DiskFault` where a call on one of the
/// manager files or on slot 0's program file failed; another call may follow.
pub fn create<H: Host>(host: &mut H, program: &[u8]) -> Result<(), CreateFault>
    requires { length program.now ≤ 262144 }

    // Once it is made, each image is a silo of this program with an empty log, in slot 0, and nothing is pending in its files. Four to
    // six syncs were asked.
    ensures made { OnOk result (IsTrue H.tells → IsCreated program.now (H.world host.old) (H.world host.new)) }

    // A folder that reads as a silo is left as it was, and only such a one is called a silo; what its manager files read lasts then.
    ensures silo { IsTrue H.tells → ReadsSilo IsMagic (H.world host.old).disk → KeepsSilo result (H.world host.old) (H.world host.new) }
    ensures already { IsErrOf result CreateFault.AlreadyASilo → IsTrue H.tells → FoundSilo (H.world host.old) (H.world host.new) }

    // A crash at any moment leaves a folder of before, until the manager files that have bytes are synced, and from then on no silo
    // or a new one; and it stays that no manager file that reads shorter than 16 bytes is a silo's in any image.
    ensures moments { IsTrue H.tells → ShowsSilos IsMagic (H.world host.old).disk
        → ComesSoFar (IsNewAt IsMagic program.now) (H.world host.old) (H.world host.new) }

    // No other file changes, slot 1's manager file is at most synced, and no output or input changes.
    ensures beside { IsTrue H.tells → StaysBeside (H.world host.old) (H.world host.new) }

    // `DiskFault` is answered exactly where a call on the file, one of these, failed: its count rose then, and no other
    // changed. With another answer no count has changed.
    ensures calls { HasCalled CreateFaulted result H.is_ready H.faults host.old host.new }
{
    prepare(host)?;
    fill(host, program)?;
    Ok(())
}

// Steps one and two: looks whether the folder is a silo, and closes slot 0's header gate where it has to be closed. After Ok no
// image is a silo.
fn prepare<H: Host>(host: &mut H) -> Result<(), CreateFault>
    ensures prepared { OnOk result (IsTrue H.tells → IsPrepared (H.world host.old) (H.world host.new)) }
    ensures silo { IsTrue H.tells → ReadsSilo IsMagic (H.world host.old).disk → KeepsSilo result (H.world host.old) (H.world host.new) }
    ensures already { IsErrOf result CreateFault.AlreadyASilo → IsTrue H.tells → FoundSilo (H.world host.old) (H.world host.new) }
    ensures moments { IsTrue H.tells → ShowsSilos IsMagic (H.world host.old).disk
        → ComesSoFar (HasNoSilo IsMagic) (H.world host.old) (H.world host.new) }
    ensures beside { IsTrue H.tells → StaysBeside (H.world host.old) (H.world host.new) }
    ensures calls { HasCalled CreateFaulted result H.is_ready H.faults host.old host.new }
{
    let (front, other) = match look_both(host) {
        Ok(fronts) => fronts,
        Err(fault) => return Err(fault),
    };
    if is_either_silo(front, other) {
        return Err(CreateFault::AlreadyASilo);
    }
    if is_closed(front) {
        return Ok(());
    }
    let Ok(()) = close_header(host) else {
        return Err(CreateFault::DiskFault { file: MANAGER });
    };
    Ok(())
}

// Whether one of the two fronts is a silo's.
fn is_either_silo(front: Front, other: Front) -> bool
    ensures yes { result ≡ true → (front ≡ Front.Silo) ⊎ (other ≡ Front.Silo) }
    ensures no { result ≡ false → (front ≢ Front.Silo) × (other ≢ Front.Silo) }
{
    match front {
        Front::Silo => true,
        Front::Empty => is_silo(other),
        Front::Open => is_silo(other),
        Front::Closed => is_silo(other),
    }
}

// Whether a front is a silo's.
fn is_silo(front: Front) -> bool
    ensures yes { result ≡ true → front ≡ Front.Silo }
    ensures no { result ≡ false → front ≢ Front.Silo }
{
    match front {
        Front::Silo => true,
        Front::Empty => false,
        Front::Open => false,
        Front::Closed => false,
    }
}

// Whether a front's gate is closed.
fn is_closed(front: Front) -> bool
    ensures yes { result ≡ true → front ≡ Front.Closed }
    ensures no { result ≡ false → front ≢ Front.Closed }
{
    match front {
        Front::Closed => true,
        Front::Empty => false,
        Front::Silo => false,
        Front::Open => false,
    }
}

// Step one: looks at both manager files, slot 0's first, and makes what they read last. Nothing is written.
fn look_both<H: Host>(host: &mut H) -> Result<(Front, Front), CreateFault>
    ensures looked { IfOk result (λ fronts. IsTrue H.tells → LooksAtBoth fronts.0 fronts.1 (H.world host.old) (H.world host.new)) }
    ensures untouched { IsTrue H.tells → IsUntouched (H.world host.old) (H.world host.new) }
    ensures beside { IsTrue H.tells → StaysBeside (H.world host.old) (H.world host.new) }
    ensures refused { IfErr result (λ e. (file : FileId) × IsEitherManager file × (e ≡ CreateFault.DiskFault file)) }
    ensures calls { HasCalled CreateFaulted result H.is_ready H.faults host.old host.new }
{
    let Ok(front) = look(host, 0) else {
        return Err(manager_fault(0));
    };
    let Ok(other) = look(host, 1) else {
        return Err(manager_fault(1));
    };
    Ok((front, other))
}

// The fault of a call on a slot's manager file.
fn manager_fault(slot: u8) -> CreateFault
    ensures { result ≡ CreateFault.DiskFault (Manager slot) }
{
    CreateFault::DiskFault {
        file: FileId::Manager { slot },
    }
}

// Looks at a slot's manager file, and makes what it reads last.
fn look<H: Host>(host: &mut H, slot: u8) -> Result<Front, Failed>
    requires slot { slot ≤ 1 }
    ensures looks { IsTrue H.tells → OnlyLooks slot (H.world host.old) (H.world host.new) }
    ensures shows { IfOk result (λ front. IsTrue H.tells → ShowsFront IsMagic front ((H.world host.old).disk (Manager slot)).seen) }
    ensures syncs { OnOk result (IsTrue H.tells → SyncsFor slot (H.world host.old) (H.world host.new)) }
    ensures count { IfOk result (λ front. IsTrue H.tells → (H.world host.new).syncs ≡ (H.world host.old).syncs + syncs_for front) }
    ensures faults { Counted (File (Manager slot)) result (H.faults host.old) (H.faults host.new) }
    ensures ready { StaysReady (H.is_ready host.old) (H.is_ready host.new) }
{
    let manager = FileId::Manager { slot };
    if host.length(manager)? == 0 {
        return Ok(Front::Empty);
    }
    host.sync(manager)?;
    let front = read_front(host, slot)?;
    Ok(front)
}

// What the first bytes of a slot's manager file that has bytes say.
fn read_front<H: Host>(host: &mut H, slot: u8) -> Result<Front, Failed>
    requires slot { slot ≤ 1 }
    requires some { IsTrue H.tells → 0 < length ((H.world host.old).disk (Manager slot)).seen }
    ensures shows { IfOk result (λ front. IsTrue H.tells → ShowsFront IsMagic front ((H.world host.old).disk (Manager slot)).seen) }
    ensures some { IfOk result (λ front. syncs_for front ≡ 1) }
    ensures asked { IsTrue H.tells → OnlyAsked (H.world host.old) (H.world host.new) }
    ensures faults { Counted (File (Manager slot)) result (H.faults host.old) (H.faults host.new) }
    ensures ready { StaysReady (H.is_ready host.old) (H.is_ready host.new) }
{
    let mut bytes = [0; 16];
    if !read_full(host, FileId::Manager { slot }, 0, &mut bytes)? {
        return Ok(Front::Open);
    }
    if bytes[0] != 1 {
        return Ok(Front::Closed);
    }
    match format_named(&bytes[1..9]) {
        Some(_) => Ok(Front::Silo),
        None => Ok(Front::Open),
    }
}

// Step two: closes slot 0's header gate, by one write of that byte alone and one sync.
fn close_header<H: Host>(host: &mut H) -> Result<(), Failed>
    ensures run { IsTrue H.tells → RunsOnFile manager (Tears 0 1) 1 (H.world host.old) (H.world host.new) }
    ensures ok { OnOk result (IsTrue H.tells
        → (H.world host.new).disk manager ≡ settled (overlaid ((H.world host.old).disk manager).seen 0 (0 ∷ []))) }
    ensures count { OnOk result (IsTrue H.tells → (H.world host.new).syncs ≡ (H.world host.old).syncs + 1) }
    ensures faults { Counted (File manager) result (H.faults host.old) (H.faults host.new) }
    ensures ready { StaysReady (H.is_ready host.old) (H.is_ready host.new) }
{
    write_synced(host, MANAGER, 0, &[0])?;
    Ok(())
}

// Steps three to five: writes the program file, then what stands behind the header gate, and then opens the gate.
fn fill<H: Host>(host: &mut H, program: &[u8]) -> Result<(), CreateFault>
    requires small { length program.now ≤ 262144 }
    requires shut { IsTrue H.tells → IsShutFile ((H.world host.old).disk manager) }
    ensures files { OnOk result (IsTrue H.tells → IsMade program.now (H.world host.new).disk) }
    ensures filled { IsTrue H.tells → LacksSilo IsMagic 1 (moment_of (H.world host.old)) → FillsSoFar program.now (H.world host.old) (H.world host.new) }
    ensures beside { IsTrue H.tells → StaysBeside (H.world host.old) (H.world host.new) }
    ensures count { OnOk result (IsTrue H.tells → (H.world host.new).syncs ≡ (H.world host.old).syncs + 3) }
    ensures already { IsErrOf result CreateFault.AlreadyASilo → ⊥ }
    ensures calls { HasCalled CreateFaulted result H.is_ready H.faults host.old host.new }
{
    let Ok(()) = write_program(host, 0, program) else {
        return Err(CreateFault::DiskFault {
            file: FileId::Program { slot: 0 },
        });
    };
    let Ok(()) = write_synced(host, MANAGER, 1, &HEADER) else {
        return Err(CreateFault::DiskFault { file: MANAGER });
    };
    let Ok(()) = write_synced(host, MANAGER, 0, &[1]) else {
        return Err(CreateFault::DiskFault { file: MANAGER });
    };
    Ok(())
}

/// Writes a program's text into a slot's program file, its length before it, and syncs that file. The text has at most 262,144 bytes.
///
/// `Failed` where a call on that file failed: images may then have any part of the text's bytes and its length.
pub fn write_program<H: Host>(host: &mut H, slot: u8, program: &[u8]) -> Result<(), Failed>
    requires slot { slot ≤ 1 }
    requires small { length program.now ≤ 262144 }

    // No other file changes, and images and reads differ from those of before in the text's bytes and its length alone.
    ensures run { IsTrue H.tells → RunsOnFile (ProgramFile slot) (Tears 0 (4 + length program.now)) 1 (H.world host.old) (H.world host.new) }

    // Once it is done every image has them.
    ensures ok { OnOk result (IsTrue H.tells → (H.world host.new).disk (ProgramFile slot)
        ≡ settled (overlaid ((H.world host.old).disk (ProgramFile slot)).seen 0 (to_le_bytes w32 (length program.now) ++ program.now))) }
    ensures count { OnOk result (IsTrue H.tells → (H.world host.new).syncs ≡ (H.world host.old).syncs + 1) }
    ensures faults { Counted (File (ProgramFile slot)) result (H.faults host.old) (H.faults host.new) }
    ensures ready { StaysReady (H.is_ready host.old) (H.is_ready host.new) }
{
    let file = FileId::Program { slot };
    let length = (program.len() as u32).to_le_bytes();
    host.write_at(file, 0, &length)?;
    host.write_at(file, 4, program)?;
    host.sync(file)?;
    Ok(())
}
