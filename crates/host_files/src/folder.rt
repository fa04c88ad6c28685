// The system's calls on the files of a folder.
ghost use Rattle.std.specs.Prelude.{◌≡◌, ◌≢◌, ◌+◌, ◌^◌, ◌<◌, ◌≤◌, ℕ, [], length, IsTrue, IsOk, IsErr, IsNone, is_some, is_ok, true, false, IfOk, IfErr, IfSome, OnOk, OnErr, All, string_bytes};
ghost use Rattle.std.specs.Option.{ForSome};
ghost use Rattle.std.specs.VecDeque.{deque_len};
ghost use Rattle.host_trait.specs.Files.{name_of};
ghost use Rattle.host_trait.specs.Disk.{Overwrote};
ghost use Rattle.host_trait.specs.World.{Pulled, Emitted, Filled, Written, Synced};
ghost use Rattle.host_trait.specs.declared.channels.FileId.{FileId};
ghost use Rattle.system_calls.specs.System.{NoSyncRefused, HasNoBytes};
ghost use Rattle.host_files.specs.Told.{SameButEntries, SyncsFile, IsRightlyAsked, IsUnhindered};
ghost use Rattle.host_files.specs.Windows.{AreTrueOf};
ghost use Rattle.host_files.specs.UnfailingCalls.{WentWell, WasObeyed, EndsFairly, EndsOnFile};
ghost use Rattle.host_files.specs.declared.folder.Entries.{Entries};

use crate::claim::Claim;
use crate::kept::{Handles, Kept, is_one};
use crate::pieces::{put_out, take_input, write_whole};
use crate::table::Asked;
use crate::windows::Windows;
use base_types::FILE_LIMIT;
use host_trait::FileId;
use std::alloc::{AllocError, Global};
use system_calls::{Access, Refused, SystemCalls};

/// Whether the folder's entries last: those of files that were made.
#[derive(Clone, Copy)]
pub enum Entries {
    Synced,
    Pending,
    /// A sync of them failed, so that no later one shows that they last.
    Lost,
}

/// A folder of real files, of which no other process makes calls while this one does, and the standard streams.
///
/// Of each file one handle is open at most. Those of the files that were used last stay open: that which last read a file, and 256
/// others, or fewer where the process may have fewer. So a file is opened once, as long as no more files are in use, and the sync
/// that follows a write is asked of the handle that wrote. With the folder's own, and those that stand in for closed standard
/// streams, at most 261 are open. Files are made by the first write or sync, and never cut or removed. Only regular files are taken.
///
/// A read by a handle that was kept asks for no name. Before a write or a sync the file's name is looked for, but for the file that
/// was written or synced last: what is written to a file that nobody finds is lost.
#[derive(Drop)]
pub struct Folder<S: SystemCalls> {
    system: S,
    path: String,
    claim: Claim<S::Folder, S::Locked>,
    is_reached: bool,
    reader: Option<Kept<S::File>>,
    handles: Handles<S::File>,
    written: Option<FileId>,
    windows: Windows,
    entries: Entries,
    ghost leads: { IsTrue S.tells → string_bytes path ≡ S.leads },
    ghost absent: { IsTrue S.tells → IsTrue claim.is_missing → HasNoBytes (S.state system) },
    ghost reached: { IsTrue S.tells → IsTrue is_reached → ForSome claim.folder (λ folder. IsTrue (S.finds folder)) },
    ghost opened: { IsTrue is_reached → IsTrue (is_some claim.folder) },
    ghost read: { IsTrue (is_some reader) → IsTrue (is_some claim.folder) },
    ghost kept: { 0 < deque_len handles.kept → IsTrue (is_some claim.folder) },
    ghost reads: { IsTrue S.tells → ForSome reader (λ kept. IsTrue (S.is_regular kept.file)) },
    ghost keeps: { IsTrue S.tells → All (λ kept. IsTrue (S.is_regular kept.file)) handles.kept.items },
    ghost ahead: { IsTrue S.tells → AreTrueOf (S.state system).world.disk windows },
    ghost lost: { IsTrue S.tells → entries ≡ Entries.Lost → IsTrue (S.answered system).has_lost_entries },
    ghost entered: { IsTrue S.tells → entries ≡ Entries.Synced → (file : FileId) → IsTrue ((S.state system).is_entered file) },
    ghost calm: { IsTrue S.tells → entries ≢ Entries.Lost → (S.state system).has_lost ≡ false },
}

// Whether the entries last once one more was made.
fn pending_after(entries: Entries) -> Entries
    ensures pending { result ≢ Entries.Synced }
    ensures lost { result ≡ Entries.Lost → entries ≡ Entries.Lost }
    ensures stays { entries ≡ Entries.Lost → result ≡ Entries.Lost }
{
    match entries {
        Entries::Synced | Entries::Pending => Entries::Pending,
        Entries::Lost => Entries::Lost,
    }
}

// Opens a file to read and write it, or to read it alone where no more is allowed. A pipe isn't waited for: opened both ways it
// needs no other end, and to read alone only regular files are opened.
fn open_file<S: SystemCalls>(
    system: &mut S,
    folder: &S::Locked,
    asked: Asked<'_>,
) -> Result<S::File, Refused>
    requires { asked.name.now ≡ name_of asked.file }
    ensures told { IsTrue S.tells → S.state system.new ≡ S.state system.old }
    ensures file { IfOk result (λ opened. S.File.file opened ≡ asked.entry.file) }
    ensures found { OnOk result (IsTrue S.tells → IsTrue (S.finds folder.now)) }
    ensures missing { IfErr result (λ error. error ≡ Refused.Missing → IsTrue S.tells → IsTrue (S.finds folder.now)
        → ((S.state system.old).world.disk asked.entry.file).seen ≡ []) }
    ensures calm { OnOk result (IsTrue S.tells → S.answered system.new ≡ S.answered system.old) }
    ensures absent { IfErr result (λ error. error ≡ Refused.Missing → IsTrue S.tells → S.answered system.new ≡ S.answered system.old) }
    ensures refused { IfErr result (λ error. error ≢ Refused.Missing → IsTrue S.tells → IsTrue (S.is_regular asked.entry.file)
        → (S.answered system.new).refusals ≢ (S.answered system.old).refusals) }
    ensures known { IsTrue S.tells → (S.answered system.new).has_lost_entries ≡ (S.answered system.old).has_lost_entries }
{
    match system.open(folder, asked.file, asked.name, Access::Both) {
        Ok(opened) => Ok(opened),
        Err(Refused::ReadOnly) => {
            let Ok(found) = system.look(folder, asked.file, asked.name) else {
                return Err(Refused::Failed);
            };
            if !found.is_regular {
                return Err(Refused::Failed);
            }
            let opened = system.open(folder, asked.file, asked.name, Access::Read)?;
            Ok(opened)
        }
        Err(error) => Err(error),
    }
}

// A name that isn't found in a folder where names aren't looked for says nothing of the file.
fn refuse_unreached<S: SystemCalls>(
    system: &mut S,
    folder: &S::Locked,
    is_reached: bool,
) -> Result<(), Refused>
    requires { IsTrue S.tells → IsTrue is_reached → IsTrue (S.finds folder.now) }
    ensures told { IsTrue S.tells → S.state system.new ≡ S.state system.old }
    ensures found { OnOk result (IsTrue S.tells → IsTrue (S.finds folder.now)) }
    ensures calm { OnOk result (IsTrue S.tells → S.answered system.new ≡ S.answered system.old) }
    ensures refused { OnErr result (IsTrue S.tells → (S.answered system.new).refusals ≢ (S.answered system.old).refusals) }
    ensures known { IsTrue S.tells → (S.answered system.new).has_lost_entries ≡ (S.answered system.old).has_lost_entries }
{
    if is_reached {
        return Ok(());
    }
    let found = system.reaches(folder)?;
    if !found {
        return Err(Refused::Failed);
    }
    Ok(())
}

// A file whose name isn't found any more is refused, also where its handle is kept. The name isn't looked for where the file was the last
// that was written or synced.
fn refuse_missing<S: SystemCalls>(
    system: &mut S,
    folder: &S::Locked,
    is_latest: bool,
    asked: Asked<'_>,
) -> Result<(), Refused>
    requires { asked.name.now ≡ name_of asked.file }
    ensures told { IsTrue S.tells → S.state system.new ≡ S.state system.old }
    ensures calm { OnOk result (IsTrue S.tells → S.answered system.new ≡ S.answered system.old) }
    ensures refused { OnErr result (IsTrue S.tells → IsTrue (S.is_regular asked.entry.file)
        → (S.answered system.new).refusals ≢ (S.answered system.old).refusals) }
    ensures known { IsTrue S.tells → (S.answered system.new).has_lost_entries ≡ (S.answered system.old).has_lost_entries }
{
    if is_latest {
        return Ok(());
    }
    let found = system.look(folder, asked.file, asked.name)?;
    if !found.is_regular {
        return Err(Refused::Failed);
    }
    Ok(())
}

// A file of which a sync has failed is asked nothing more: the system may have dropped what was pending, and a later sync
// would succeed all the same.
fn refuse_lost(is_lost: bool) -> Result<(), Refused>
    ensures lost { IsTrue is_lost → IsErr result }
    ensures believed { OnOk result (is_lost ≡ false) }
    ensures calm { is_lost ≡ false → IsOk result }
{
    if is_lost {
        return Err(Refused::Failed);
    }
    Ok(())
}

// A range that doesn't end below 2 to the 63 is refused.
fn refuse_long(at: u64, bytes: &[u8]) -> Result<(), Refused>
    ensures short { OnOk result (at + length bytes.now < 2 ^ 63) }
    ensures calm { at + length bytes.now < 2 ^ 63 → IsOk result }
{
    let count = bytes.len() as u64;
    if at >= FILE_LIMIT || count >= FILE_LIMIT - at {
        return Err(Refused::Failed);
    }
    Ok(())
}

// A file that had bytes is there for good: it is refused where it is missing.
fn refuse_gone(had_bytes: bool) -> Result<(), Refused>
    ensures gone { IsTrue had_bytes → IsErr result }
    ensures calm { had_bytes ≡ false → IsOk result }
{
    if had_bytes {
        return Err(Refused::Missing);
    }
    Ok(())
}

// Opens a file of the folder that was taken. None where there is none; one that had bytes is refused then.
fn find_in<S: SystemCalls>(
    system: &mut S,
    folder: &S::Locked,
    is_reached: bool,
    asked: Asked<'_>,
) -> Result<Option<S::File>, Refused>
    requires name { asked.name.now ≡ name_of asked.file }
    requires reached { IsTrue S.tells → IsTrue is_reached → IsTrue (S.finds folder.now) }
    ensures told { IsTrue S.tells → S.state system.new ≡ S.state system.old }
    ensures file { IfOk result (λ found. IfSome found (λ opened. S.File.file opened ≡ asked.entry.file)) }
    ensures absent { IfOk result (λ found. IsNone found → IsTrue S.tells → ((S.state system.old).world.disk asked.entry.file).seen ≡ []) }
    ensures found { OnOk result (IsTrue S.tells → IsTrue (S.finds folder.now)) }
    ensures gone { IfOk result (λ found. IsNone found → asked.entry.had_bytes ≡ false) }
    ensures ends { IsTrue S.tells → EndsFairly (is_ok result) (S.answered system.old) (S.answered system.new)
        (IsUnhindered S.is_regular (S.state system.old) asked.entry) }
{
    match open_file(system, folder, asked) {
        Ok(opened) => Ok(Some(opened)),
        Err(Refused::Missing) => {
            refuse_unreached(system, folder, is_reached)?;
            refuse_gone(asked.had_bytes)?;
            Ok(None)
        }
        Err(error) => Err(error),
    }
}

impl<S: SystemCalls + Drop> Folder<S> {
    /// The folder at this path. Its own entries count as not yet synced. Nothing is opened.
    pub fn new(alloc: Global, system: S, path: String) -> Result<Folder<S>, AllocError>
        requires calm { IsTrue S.tells → NoSyncRefused (S.state system) }
        requires path { IsTrue S.tells → string_bytes path ≡ S.leads }
        ensures entries { IfOk result (λ folder. folder.entries ≡ Entries.Pending) }
        ensures system { IfOk result (λ folder. folder.system ≡ system) }
    {
        let handles = Handles::new(alloc, system.handle_limit())?;
        let windows = Windows::new(alloc)?;
        Ok(Folder {
            system,
            path,
            claim: Claim::new(),
            is_reached: false,
            reader: None,
            handles,
            written: None,
            windows,
            entries: Entries::Pending,
        })
    }

    // The handle that is kept of a file: that which last read one, or one of the others, to which that goes otherwise.
    fn take_open(&mut self, file: FileId) -> Option<S::File>
        ensures file { IfSome result (λ opened. S.File.file opened ≡ file) }
        ensures regular { IfSome result (λ opened. IsTrue S.tells → IsTrue (S.is_regular file)) }
        ensures taken { IfSome result (λ opened. IsTrue (is_some self.new.claim.folder)) }
        ensures system { self.new.system ≡ self.old.system }
        ensures claim { self.new.claim ≡ self.old.claim }
        ensures entries { self.new.entries ≡ self.old.entries }
    {
        let found = self.handles.take(file);
        if let Some(kept) = self.reader.take() {
            if is_one(kept.file, file) {
                return Some(kept.opened);
            }
            self.handles.keep(kept);
        }
        found
    }

    /// Moves the next input bytes into the front of the slice, and answers how many.
    pub fn pull(&mut self, into: &mut [u8]) -> Result<usize, Refused>
        ensures bound { IfOk result (λ count. count ≤ length into.old) }
        ensures ok { IfOk result (λ count. IsTrue S.tells → Pulled count into.new (S.state self.old.system).world (S.state self.new.system).world) }
        ensures err { OnErr result (IsTrue S.tells → S.state self.new.system ≡ S.state self.old.system) }
        ensures calm { OnOk result (IsTrue S.tells → WasObeyed (S.answered self.old.system) (S.answered self.new.system)) }
        ensures fine { IsTrue S.tells → WentWell (S.answered self.old.system) (S.answered self.new.system) → IsOk result }
        ensures doubts { IsTrue S.tells → (S.state self.new.system).is_doubtful ≡ (S.state self.old.system).is_doubtful }
    {
        let count = take_input(&mut self.system, into)?;
        Ok(count)
    }

    /// Appends all bytes to the output.
    pub fn emit(&mut self, bytes: &[u8]) -> Result<(), Refused>
        ensures ok { OnOk result (IsTrue S.tells → Emitted (length bytes.now) bytes.now (S.state self.old.system).world (S.state self.new.system).world) }
        ensures part { IsTrue S.tells → ((n : ℕ) × Emitted n bytes.now (S.state self.old.system).world (S.state self.new.system).world) }
        ensures calm { OnOk result (IsTrue S.tells → WasObeyed (S.answered self.old.system) (S.answered self.new.system)) }
        ensures fine { IsTrue S.tells → WentWell (S.answered self.old.system) (S.answered self.new.system) → IsOk result }
        ensures doubts { IsTrue S.tells → (S.state self.new.system).is_doubtful ≡ (S.state self.old.system).is_doubtful }
    {
        put_out(&mut self.system, bytes)?;
        Ok(())
    }

    // Takes the folder, unless it is taken, and answers whether it is there.
    fn take_folder(&mut self) -> Result<bool, Refused>
        ensures told { IsTrue S.tells → S.state self.new.system ≡ S.state self.old.system }
        ensures taken { IfOk result (λ there. IsTrue there → IsTrue (is_some self.new.claim.folder)) }
        ensures missing { IfOk result (λ there. there ≡ false → IsTrue self.new.claim.is_missing) }
        ensures entries { self.new.entries ≡ self.old.entries }
        ensures calm { OnOk result (IsTrue S.tells → WasObeyed (S.answered self.old.system) (S.answered self.new.system)) }
        ensures fine { IsTrue S.tells → WentWell (S.answered self.old.system) (S.answered self.new.system) → IsOk result }
        ensures known { IsTrue S.tells → (S.answered self.new.system).has_lost_entries ≡ (S.answered self.old.system).has_lost_entries }
    {
        self.claim.take(&mut self.system, self.path.as_str())
    }

    // Opens a file of the folder. None where there is neither file nor folder.
    fn find(&mut self, asked: Asked<'_>) -> Result<Option<S::File>, Refused>
        requires { asked.name.now ≡ name_of asked.file }
        ensures told { IsTrue S.tells → S.state self.new.system ≡ S.state self.old.system }
        ensures file { IfOk result (λ found. IfSome found (λ opened. S.File.file opened ≡ asked.entry.file)) }
        ensures absent { IfOk result (λ found. IsNone found → IsTrue S.tells → ((S.state self.old.system).world.disk asked.entry.file).seen ≡ []) }
        ensures taken { IfOk result (λ found. IfSome found (λ opened. IsTrue (is_some self.new.claim.folder))) }
        ensures nowhere { IfOk result (λ found. self.new.claim.is_missing ≡ false → IsTrue (is_some self.new.claim.folder)) }
        ensures gone { IfOk result (λ found. IsNone found → asked.entry.had_bytes ≡ false) }
        ensures entries { self.new.entries ≡ self.old.entries }
        ensures ends { IsTrue S.tells → EndsFairly (is_ok result) (S.answered self.old.system) (S.answered self.new.system)
            (IsUnhindered S.is_regular (S.state self.old.system) asked.entry) }
    {
        if !self.take_folder()? {
            refuse_gone(asked.had_bytes)?;
            return Ok(None);
        }
        let Some(folder) = self.claim.folder() else {
            return Err(Refused::Failed);
        };
        let found = find_in(&mut self.system, folder, self.is_reached, asked)?;
        self.is_reached = true;
        Ok(found)
    }

    // As `find`, and only a regular file is taken. One that had bytes was seen to be regular.
    fn find_regular(&mut self, asked: Asked<'_>) -> Result<Option<S::File>, Refused>
        requires asked { IsRightlyAsked S.tells S.is_regular (S.state self.old.system) asked }
        requires calm { IsTrue S.tells → (S.state self.old.system).is_doubtful asked.file ≡ false }
        ensures told { IsTrue S.tells → S.state self.new.system ≡ S.state self.old.system }
        ensures file { IfOk result (λ found. IfSome found (λ opened. S.File.file opened ≡ asked.entry.file)) }
        ensures absent { IfOk result (λ found. IsNone found → IsTrue S.tells → ((S.state self.old.system).world.disk asked.entry.file).seen ≡ []) }
        ensures taken { IfOk result (λ found. IfSome found (λ opened. IsTrue (is_some self.new.claim.folder))) }
        ensures nowhere { IfOk result (λ found. self.new.claim.is_missing ≡ false → IsTrue (is_some self.new.claim.folder)) }
        ensures gone { IfOk result (λ found. IsNone found → asked.entry.had_bytes ≡ false) }
        ensures regular { IfOk result (λ found. IfSome found (λ opened. IsTrue S.tells → IsTrue (S.is_regular asked.entry.file))) }
        ensures entries { self.new.entries ≡ self.old.entries }
        ensures ends { IsTrue S.tells → EndsFairly (is_ok result) (S.answered self.old.system) (S.answered self.new.system)
            (IsUnhindered S.is_regular (S.state self.old.system) asked.entry) }
    {
        let Some(opened) = self.find(asked)? else {
            return Ok(None);
        };
        if !asked.had_bytes && !self.system.look_at(&opened)?.is_regular {
            return Err(Refused::Failed);
        }
        Ok(Some(opened))
    }

    // Asks for the length of an open file, which is the reader's from then on, and keeps it.
    fn measure(&mut self, file: FileId, opened: S::File) -> Result<u64, Refused>
        requires file { S.File.file opened ≡ file }
        requires calm { IsTrue S.tells → (S.state self.old.system).is_doubtful file ≡ false }
        requires taken { IsTrue (is_some self.old.claim.folder) }
        ensures told { IsTrue S.tells → S.state self.new.system ≡ S.state self.old.system }
        ensures len { IfOk result (λ count. IsTrue S.tells → count ≡ length ((S.state self.old.system).world.disk file).seen) }
        ensures bound { IfOk result (λ count. count < 2 ^ 63) }
        ensures regular { OnOk result (IsTrue S.tells → IsTrue (S.is_regular file)) }
        ensures open { OnOk result (IsTrue (is_some self.new.reader)) }
        ensures calm { OnOk result (IsTrue S.tells → S.answered self.new.system ≡ S.answered self.old.system) }
        ensures fine { IsTrue S.tells → (S.answered self.new.system).refusals ≡ (S.answered self.old.system).refusals
            → IsTrue (S.is_regular file) → length ((S.state self.old.system).world.disk file).seen < 2 ^ 63 → IsOk result }
    {
        let found = self.system.look_at(&opened)?;
        if !found.is_regular {
            return Err(Refused::Failed);
        }
        self.reader = Some(Kept { file, opened });
        if found.length >= FILE_LIMIT {
            return Err(Refused::Failed);
        }
        self.windows.measure(file, found.length);
        Ok(found.length)
    }

    /// How many bytes a file has; 0 where there is none. Anything there but a regular file is refused, and so is a length of
    /// 2 to the 63 or more.
    pub fn length(&mut self, asked: Asked<'_>) -> Result<u64, Refused>
        requires asked { IsRightlyAsked S.tells S.is_regular (S.state self.old.system) asked }
        ensures told { IsTrue S.tells → S.state self.new.system ≡ S.state self.old.system }
        ensures len { IfOk result (λ count. IsTrue S.tells → count ≡ length ((S.state self.old.system).world.disk asked.entry.file).seen) }
        ensures bound { IfOk result (λ count. count < 2 ^ 63) }
        ensures regular { IfOk result (λ count. IsTrue S.tells → 0 < count → IsTrue (S.is_regular asked.entry.file)) }
        ensures open { OnOk result (IsTrue asked.entry.had_bytes → IsTrue (is_some self.new.reader)) }
        ensures ends { EndsOnFile S.tells asked.entry.is_lost (is_ok result) (S.answered self.old.system) (S.answered self.new.system)
            (IsUnhindered S.is_regular (S.state self.old.system) asked.entry
            × (length ((S.state self.old.system).world.disk asked.entry.file).seen < 2 ^ 63)) }
    {
        refuse_lost(asked.is_lost)?;
        if let Some(opened) = self.take_open(asked.file) {
            if let Some(length) = self.windows.length_of(asked.file) {
                self.reader = Some(Kept {
                    file: asked.file,
                    opened,
                });
                return Ok(length);
            }
            let length = self.measure(asked.file, opened)?;
            return Ok(length);
        }
        match self.find(asked)? {
            Some(opened) => {
                let length = self.measure(asked.file, opened)?;
                Ok(length)
            }
            None => Ok(0),
        }
    }

    // The handle that is kept of the file, or a new one. None where there is no file.
    fn take_reader(&mut self, asked: Asked<'_>) -> Result<Option<S::File>, Refused>
        requires asked { IsRightlyAsked S.tells S.is_regular (S.state self.old.system) asked }
        requires calm { IsTrue S.tells → (S.state self.old.system).is_doubtful asked.file ≡ false }
        ensures told { IsTrue S.tells → S.state self.new.system ≡ S.state self.old.system }
        ensures file { IfOk result (λ found. IfSome found (λ opened. S.File.file opened ≡ asked.entry.file)) }
        ensures absent { IfOk result (λ found. IsNone found → IsTrue S.tells → ((S.state self.old.system).world.disk asked.entry.file).seen ≡ []) }
        ensures gone { IfOk result (λ found. IsNone found → asked.entry.had_bytes ≡ false) }
        ensures taken { IfOk result (λ found. IfSome found (λ opened. IsTrue (is_some self.new.claim.folder))) }
        ensures regular { IfOk result (λ found. IfSome found (λ opened. IsTrue S.tells → IsTrue (S.is_regular asked.entry.file))) }
        ensures calm { OnOk result (IsTrue S.tells → WasObeyed (S.answered self.old.system) (S.answered self.new.system)) }
        ensures fine { IsTrue S.tells → WentWell (S.answered self.old.system) (S.answered self.new.system)
            → IsUnhindered S.is_regular (S.state self.old.system) asked.entry → IsOk result }
    {
        if let Some(opened) = self.take_open(asked.file) {
            return Ok(Some(opened));
        }
        let found = self.find_regular(asked)?;
        Ok(found)
    }

    /// Reads from there on, until the slice is full or the file ends. A file that isn't there has no bytes.
    pub fn read_at(&mut self, asked: Asked<'_>, at: u64, into: &mut [u8]) -> Result<usize, Refused>
        requires asked { IsRightlyAsked S.tells S.is_regular (S.state self.old.system) asked }
        ensures told { IsTrue S.tells → S.state self.new.system ≡ S.state self.old.system }
        ensures bytes { IfOk result (λ count. IsTrue S.tells → Filled count at ((S.state self.old.system).world.disk asked.entry.file).seen into.old into.new) }
        ensures bound { IfOk result (λ count. count ≤ length into.old) }
        ensures regular { IfOk result (λ count. IsTrue S.tells → 0 < count → IsTrue (S.is_regular asked.entry.file)) }
        ensures open { OnOk result (IsTrue asked.entry.had_bytes → IsTrue (is_some self.new.reader)) }
        ensures ends { EndsOnFile S.tells asked.entry.is_lost (is_ok result) (S.answered self.old.system) (S.answered self.new.system)
            (IsUnhindered S.is_regular (S.state self.old.system) asked.entry) }
    {
        refuse_lost(asked.is_lost)?;
        let Some(opened) = self.take_reader(asked)? else {
            return Ok(0);
        };
        let answer = self
            .windows
            .read(&mut self.system, &opened, asked.file, at, into);
        self.reader = Some(Kept {
            file: asked.file,
            opened,
        });
        let count = answer?;
        Ok(count)
    }

    // Makes a file, whose entry doesn't last until the next sync of the folder's.
    fn make(&mut self, asked: Asked<'_>) -> Result<S::File, Refused>
        requires name { asked.name.now ≡ name_of asked.file }
        requires fresh { asked.had_bytes ≡ false }
        ensures told { IsTrue S.tells → SameButEntries (S.state self.old.system) (S.state self.new.system) }
        ensures file { IfOk result (λ opened. S.File.file opened ≡ asked.entry.file) }
        ensures taken { OnOk result (IsTrue (is_some self.new.claim.folder)) }
        ensures regular { OnOk result (IsTrue S.tells → IsTrue (S.is_regular asked.entry.file)) }
        ensures claim { self.new.claim ≡ self.old.claim }
        ensures entries { self.new.entries ≡ Entries.Lost → self.old.entries ≡ Entries.Lost }
        ensures known { IsTrue S.tells → (S.answered self.new.system).has_lost_entries ≡ (S.answered self.old.system).has_lost_entries }
        ensures calm { OnOk result (IsTrue S.tells → WasObeyed (S.answered self.old.system) (S.answered self.new.system)) }
        ensures fine { IsTrue S.tells → WentWell (S.answered self.old.system) (S.answered self.new.system)
            → IsTrue (is_some self.old.claim.folder) → IsOk result }
    {
        let Some(folder) = self.claim.folder() else {
            return Err(Refused::Missing);
        };
        self.entries = pending_after(self.entries);
        let opened = self.system.make(folder, asked.file, asked.name)?;
        Ok(opened)
    }

    // The handle that is kept of the file. Where another file was written or synced last, the name is looked for first.
    fn take_kept(&mut self, asked: Asked<'_>) -> Result<Option<S::File>, Refused>
        requires name { asked.name.now ≡ name_of asked.file }
        ensures told { IsTrue S.tells → S.state self.new.system ≡ S.state self.old.system }
        ensures file { IfOk result (λ found. IfSome found (λ opened. S.File.file opened ≡ asked.entry.file)) }
        ensures regular { IfOk result (λ found. IfSome found (λ opened. IsTrue S.tells → IsTrue (S.is_regular asked.entry.file))) }
        ensures taken { IfOk result (λ found. IfSome found (λ opened. IsTrue (is_some self.new.claim.folder))) }
        ensures claim { self.new.claim ≡ self.old.claim }
        ensures entries { self.new.entries ≡ self.old.entries }
        ensures known { IsTrue S.tells → (S.answered self.new.system).has_lost_entries ≡ (S.answered self.old.system).has_lost_entries }
        ensures calm { OnOk result (IsTrue S.tells → S.answered self.new.system ≡ S.answered self.old.system) }
        ensures fine { IsTrue S.tells → WentWell (S.answered self.old.system) (S.answered self.new.system)
            → IsTrue (S.is_regular asked.entry.file) → IsOk result }
    {
        let is_latest = self.written == Some(asked.file);
        let Some(opened) = self.take_open(asked.file) else {
            return Ok(None);
        };
        let Some(folder) = self.claim.folder() else {
            return Ok(None);
        };
        refuse_missing(&mut self.system, folder, is_latest, asked)?;
        Ok(Some(opened))
    }

    // The handle that is kept of the file, or a new one. The file is made where it isn't there.
    fn take_writer(&mut self, asked: Asked<'_>) -> Result<S::File, Refused>
        requires asked { IsRightlyAsked S.tells S.is_regular (S.state self.old.system) asked }
        requires calm { IsTrue S.tells → (S.state self.old.system).is_doubtful asked.file ≡ false }
        ensures told { IsTrue S.tells → SameButEntries (S.state self.old.system) (S.state self.new.system) }
        ensures file { IfOk result (λ opened. S.File.file opened ≡ asked.entry.file) }
        ensures taken { OnOk result (IsTrue (is_some self.new.claim.folder)) }
        ensures regular { OnOk result (IsTrue S.tells → IsTrue (S.is_regular asked.entry.file)) }
        ensures entries { self.new.entries ≡ Entries.Lost → self.old.entries ≡ Entries.Lost }
        ensures known { IsTrue S.tells → (S.answered self.new.system).has_lost_entries ≡ (S.answered self.old.system).has_lost_entries }
        ensures calm { OnOk result (IsTrue S.tells → WasObeyed (S.answered self.old.system) (S.answered self.new.system)) }
        ensures fine { IsTrue S.tells → WentWell (S.answered self.old.system) (S.answered self.new.system)
            → IsUnhindered S.is_regular (S.state self.old.system) asked.entry → self.new.claim.is_missing ≡ false → IsOk result }
    {
        if let Some(opened) = self.take_kept(asked)? {
            return Ok(opened);
        }
        if let Some(opened) = self.find_regular(asked)? {
            return Ok(opened);
        }
        let opened = self.make(asked)?;
        Ok(opened)
    }

    /// Writes from there on, and makes the file where it isn't there. A range that doesn't end below 2 to the 63 is refused.
    pub fn write_at(&mut self, asked: Asked<'_>, at: u64, bytes: &[u8]) -> Result<(), Refused>
        requires asked { IsRightlyAsked S.tells S.is_regular (S.state self.old.system) asked }
        requires place { IsTrue S.tells → at ≤ length ((S.state self.old.system).world.disk asked.file).seen }
        ensures told { IsTrue S.tells → Written asked.entry.file at (length bytes.now) (S.state self.old.system).world (S.state self.new.system).world }
        ensures ok { OnOk result (IsTrue S.tells
            → Overwrote at bytes.now ((S.state self.old.system).world.disk asked.entry.file) ((S.state self.new.system).world.disk asked.entry.file)) }
        ensures doubts { IsTrue S.tells → (S.state self.new.system).is_doubtful ≡ (S.state self.old.system).is_doubtful }
        ensures bound { OnOk result (at + length bytes.now < 2 ^ 63) }
        ensures regular { OnOk result (IsTrue S.tells → IsTrue (S.is_regular asked.entry.file)) }
        ensures entries { self.new.entries ≡ Entries.Lost → self.old.entries ≡ Entries.Lost }
        ensures ends { EndsOnFile S.tells asked.entry.is_lost (is_ok result) (S.answered self.old.system) (S.answered self.new.system)
            (IsUnhindered S.is_regular (S.state self.old.system) asked.entry × (self.new.claim.is_missing ≡ false) × (at + length bytes.now < 2 ^ 63)) }
    {
        refuse_lost(asked.is_lost)?;
        refuse_long(at, bytes)?;
        let opened = self.take_writer(asked)?;
        self.windows.forget();
        let answer = write_whole(&mut self.system, &opened, at, bytes);
        self.handles.keep(Kept {
            file: asked.file,
            opened,
        });
        self.written = Some(asked.file);
        answer?;
        Ok(())
    }

    // Syncs the folder's entries where a file was made since they last were.
    fn sync_entries(&mut self) -> Result<(), Refused>
        ensures told { IsTrue S.tells → ((S.state self.new.system).world ≡ (S.state self.old.system).world)
            × ((S.state self.new.system).is_doubtful ≡ (S.state self.old.system).is_doubtful) }
        ensures folder { self.new.claim ≡ self.old.claim }
        ensures ok { OnOk result (self.new.entries ≡ Entries.Synced) }
        ensures calm { OnOk result (IsTrue S.tells → WasObeyed (S.answered self.old.system) (S.answered self.new.system)) }
        ensures fine { IsTrue S.tells → WentWell (S.answered self.old.system) (S.answered self.new.system)
            → (S.answered self.old.system).has_lost_entries ≡ false → IsTrue (is_some self.old.claim.folder) → IsOk result }
    {
        match self.entries {
            Entries::Synced => Ok(()),
            Entries::Pending => {
                let Some(folder) = self.claim.folder() else {
                    return Err(Refused::Missing);
                };
                match self.system.sync_folder(folder) {
                    Ok(()) => {
                        self.entries = Entries::Synced;
                        Ok(())
                    }
                    Err(error) => {
                        self.entries = Entries::Lost;
                        Err(error)
                    }
                }
            }
            Entries::Lost => Err(Refused::Failed),
        }
    }

    /// Syncs a file's bytes and length, and before that the folder's entries at the first sync and after a file was made: a sync
    /// of bytes helps only where their file is found.
    pub fn sync(&mut self, asked: Asked<'_>) -> Result<(), Refused>
        requires asked { IsRightlyAsked S.tells S.is_regular (S.state self.old.system) asked }
        ensures told { IsTrue S.tells → SyncsFile asked.entry.file (is_ok result) (S.state self.old.system) (S.state self.new.system) }
        ensures regular { OnOk result (IsTrue S.tells → IsTrue (S.is_regular asked.entry.file)) }
        ensures ends { EndsOnFile S.tells asked.entry.is_lost (is_ok result) (S.answered self.old.system) (S.answered self.new.system)
            (IsUnhindered S.is_regular (S.state self.old.system) asked.entry × (self.new.claim.is_missing ≡ false)
            × ((S.answered self.old.system).has_lost_entries ≡ false)) }
    {
        refuse_lost(asked.is_lost)?;
        let opened = self.take_writer(asked)?;
        self.sync_entries()?;
        self.windows.forget();
        self.system.sync_data(&opened)?;
        self.handles.keep(Kept {
            file: asked.file,
            opened,
        });
        self.written = Some(asked.file);
        Ok(())
    }
}
