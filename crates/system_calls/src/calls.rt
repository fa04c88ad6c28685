ghost use Rattle.std.specs.Prelude.{◌≡◌, ◌≢◌, ◌+◌, ◌-◌, ◌^◌, ◌<◌, ◌≤◌, ℕ, Bool, true, false, IsTrue, List, length, is_ok, IfOk, IfErr, OnOk, OnErr, []};
ghost use Rattle.host_trait.specs.Files.{name_of};
ghost use Rattle.host_trait.specs.Disk.{MayLeave};
ghost use Rattle.host_trait.specs.World.{Pulled};
ghost use Rattle.host_trait.specs.declared.channels.FileId.{FileId};
ghost use Rattle.system_calls.specs.System.{System, MayBeFound, HasNoBytes, MakesFile, EntersAll, SyncsData, SameEntries, IsReadPart, AppendsPart, MayWriteOn, WritesPart, FailsPart};
ghost use Rattle.system_calls.specs.Answers.{AnswerCounts, DoesOrRefuses, TakesOrFails, GivesOrFails, WasRefused, stood_in_once};
ghost use Rattle.system_calls.specs.declared.calls.Access.{Access};

use crate::refusal::Refused;
use host_trait::FileId;

/// A handle of an open file of the folder.
pub trait Handle {
    /// The file that it was opened as. It stays that file's, also where its name, or the folder's, is changed.
    ghost file: { Self → FileId };
}

/// What stands under a name.
#[derive(Clone, Copy, Debug, PartialEq, Eq)]
pub struct Look {
    /// A regular file, and no folder, pipe, socket or device.
    pub is_regular: bool,
    /// How many bytes it has.
    pub length: u64,
}

/// How a file is opened.
#[derive(Clone, Copy, Debug, PartialEq, Eq)]
pub enum Access {
    /// To read and write it.
    Both,
    /// To read it. A pipe that nobody writes to may wait for its other end.
    Read,
}

/// The system's calls on one folder, on the files there, and on the standard streams.
///
/// A system that tells, says by its state what it holds: what is left of the input, what the output holds, what each file holds
/// and what a crash may leave of it, which entries of the folder last, and which syncs were refused. A call that isn't said to
/// change the state leaves it as it was, and so does a read or a write that is interrupted; the others are made again by whoever
/// makes them. Beside the state it says what it has answered: a call that was refused for good changes the number of refusals,
/// and no other call does.
///
/// A file is named by its name in the folder, and looked for in the folder that the handle is of, wherever that stands by now.
/// The folder's own name lasts. No two names there are one file, none is a link, and the
/// input and the output are no files there. A write that a crash cuts short harms no byte outside its range. What was written can
/// be read until a sync is asked, which says where it was lost, to the handle that wrote. What is said of a file's bytes is said
/// of a regular file: of a device the length tells nothing. No call waits for another process, but
/// for the input and the output.
pub trait SystemCalls {
    /// A handle of the folder.
    type Folder: Drop;

    /// A handle of the folder that has its lock, until it is closed. By no other one are files looked for, made or synced.
    type Locked: Drop;

    /// A handle of an open file.
    type File: Handle + Drop;

    /// Whether this system tells what it holds.
    ghost tells: { Bool };

    /// What it holds.
    ghost state: { Self → System };

    /// What it has answered.
    ghost answered: { Self → AnswerCounts };

    /// Under which files' names nothing stands but a regular file.
    ghost is_regular: { FileId → Bool };

    /// The path of the folder whose files these are.
    ghost leads: { List ℕ };

    /// The number of a handle.
    ghost number_of: { Self.Folder → ℕ };

    /// Whether names are looked for in the folder of this handle.
    ghost finds: { Self.Locked → Bool };

    /// Opens the folder at its path, to read its entries. `Missing` says that nothing stands there, and so no file either.
    fn open_folder(&mut self, path: &str) -> Result<Self::Folder, Refused>
        requires { IsTrue tells → path.now ≡ leads }
        ensures told { IsTrue tells → state self.new ≡ state self.old }
        ensures missing { IfErr result (λ error. error ≡ Refused.Missing → IsTrue tells → HasNoBytes (state self.old)) }
        ensures stands_in { IfOk result (λ opened. IsTrue tells → number_of opened ≤ 2 → answered self.new ≡ stood_in_once (answered self.old)) }
        ensures plain { IfOk result (λ opened. IsTrue tells → 2 < number_of opened → answered self.new ≡ answered self.old) }
        ensures absent { IfErr result (λ error. error ≡ Refused.Missing → IsTrue tells → answered self.new ≡ answered self.old) }
        ensures refused { IfErr result (λ error. error ≢ Refused.Missing → IsTrue tells
            → WasRefused (answered self.old).has_lost_entries (answered self.old) (answered self.new)) };

    /// The number that the system gave to this handle: the least that was free.
    fn number(&self, folder: &Self::Folder) -> u32
        ensures { IsTrue tells → result ≡ number_of folder.now };

    /// Takes the folder's lock. Refused where another handle has it; this one is closed then. Where it has the number of a
    /// standard stream, a file of the folder may get that of another one, so it isn't asked of such a handle.
    fn lock(&mut self, folder: Self::Folder) -> Result<Self::Locked, Refused>
        requires { IsTrue tells → 2 < number_of folder }
        ensures told { IsTrue tells → state self.new ≡ state self.old }
        ensures answers { IsTrue tells → DoesOrRefuses result (answered self.old) (answered self.new) };

    /// Whether names are looked for in this folder at all. That they aren't is a refusal too.
    fn reaches(&mut self, folder: &Self::Locked) -> Result<bool, Refused>
        ensures told { IsTrue tells → state self.new ≡ state self.old }
        ensures found { IfOk result (λ reached. IsTrue tells → IsTrue reached → IsTrue (finds folder.now)) }
        ensures calm { IfOk result (λ reached. IsTrue tells → IsTrue reached → answered self.new ≡ answered self.old) }
        ensures denied { IfOk result (λ reached. IsTrue tells → reached ≡ false
            → WasRefused (answered self.old).has_lost_entries (answered self.old) (answered self.new)) }
        ensures refused { OnErr result (IsTrue tells
            → WasRefused (answered self.old).has_lost_entries (answered self.old) (answered self.new)) };

    /// Opens a file. `Missing` says that there is none, which then has no bytes, or that names aren't looked for in the folder.
    /// This is no refusal, nor is `ReadOnly` where the file was to be written too. To read alone no pipe is opened, since it may
    /// wait for its other end.
    fn open(
        &mut self,
        folder: &Self::Locked,
        file: FileId,
        name: &str,
        access: Access,
    ) -> Result<Self::File, Refused>
        requires name { name.now ≡ name_of file }
        requires regular { access ≡ Access.Read → IsTrue tells → IsTrue (is_regular file) }
        ensures told { IsTrue tells → state self.new ≡ state self.old }
        ensures calm { OnOk result (IsTrue tells → answered self.new ≡ answered self.old) }
        ensures absent { IfErr result (λ error. error ≡ Refused.Missing → IsTrue tells → answered self.new ≡ answered self.old) }
        ensures kept { IfErr result (λ error. error ≡ Refused.ReadOnly → access ≡ Access.Both → IsTrue tells
            → answered self.new ≡ answered self.old) }
        ensures refused { IfErr result (λ error. error ≢ Refused.Missing → (error ≡ Refused.ReadOnly → access ≡ Access.Read) → IsTrue tells
            → WasRefused (answered self.old).has_lost_entries (answered self.old) (answered self.new)) }
        ensures file { IfOk result (λ opened. Self.File.file opened ≡ file) }
        ensures found { OnOk result (IsTrue tells → IsTrue (finds folder.now)) }
        ensures missing { IfErr result (λ error. error ≡ Refused.Missing → IsTrue tells → IsTrue (finds folder.now)
            → ((state self.old).world.disk file).seen ≡ []) };

    /// Makes a file that isn't there, and so has no bytes, and opens it to read and write it. Its entry may be lost in a crash until the folder is
    /// synced. Refused where something has that name.
    fn make(
        &mut self,
        folder: &Self::Locked,
        file: FileId,
        name: &str,
    ) -> Result<Self::File, Refused>
        requires { name.now ≡ name_of file }
        ensures told { IsTrue tells → MakesFile file (state self.old) (state self.new) }
        ensures empty { OnOk result (IsTrue tells → ((state self.old).world.disk file).seen ≡ []) }
        ensures regular { OnOk result (IsTrue tells → IsTrue (is_regular file)) }
        ensures answers { IsTrue tells → DoesOrRefuses result (answered self.old) (answered self.new) }
        ensures file { IfOk result (λ opened. Self.File.file opened ≡ file) };

    /// What stands under a name.
    fn look(&mut self, folder: &Self::Locked, file: FileId, name: &str) -> Result<Look, Refused>
        requires { name.now ≡ name_of file }
        ensures told { IsTrue tells → state self.new ≡ state self.old }
        ensures answers { IsTrue tells → DoesOrRefuses result (answered self.old) (answered self.new) }
        ensures regular { IfOk result (λ look. IsTrue tells → look.is_regular ≡ is_regular file) };

    /// What an open file is. Neither this nor a read or a write is asked of a file of which a sync was refused: the system may
    /// have dropped what was pending then, and gives what it will.
    fn look_at(&mut self, opened: &Self::File) -> Result<Look, Refused>
        requires calm { IsTrue tells → (state self.old).is_doubtful (Self.File.file opened.now) ≡ false }
        ensures told { IsTrue tells → state self.new ≡ state self.old }
        ensures answers { IsTrue tells → DoesOrRefuses result (answered self.old) (answered self.new) }
        ensures regular { IfOk result (λ look. IsTrue tells → look.is_regular ≡ is_regular (Self.File.file opened.now)) }
        ensures length { IfOk result (λ look. IsTrue tells → IsTrue look.is_regular
            → look.length ≡ length ((state self.old).world.disk (Self.File.file opened.now)).seen) };

    /// Reads some of the bytes from `at` on: those that belong into the slice from its place `from` on, where the ones before have
    /// been read; and answers how many: none only at the end of the file, or where there is no room.
    fn read_at(
        &mut self,
        opened: &Self::File,
        at: u64,
        into: &mut [u8],
        from: usize,
    ) -> Result<usize, Refused>
        requires from { from ≤ length into.old }
        requires fits { at + from < 2 ^ 64 }
        requires regular { IsTrue tells → IsTrue (is_regular (Self.File.file opened.now)) }
        requires calm { IsTrue tells → (state self.old).is_doubtful (Self.File.file opened.now) ≡ false }
        ensures told { IsTrue tells → state self.new ≡ state self.old }
        ensures bound { IfOk result (λ n. n ≤ length into.old - from) }
        ensures bytes { IfOk result (λ n. IsTrue tells
            → IsReadPart n from at ((state self.old).world.disk (Self.File.file opened.now)).seen into.old into.new) }
        ensures answers { IsTrue tells → TakesOrFails result (answered self.old) (answered self.new) }
        ensures interrupted { IfErr result (λ error. error ≡ Refused.Interrupted → IsTrue tells → into.new ≡ into.old) };

    /// Writes some of these bytes, which belong at `at`: those from the place `from` on, of which the ones before have been
    /// written; and answers how many. Until a sync succeeds, a crash may leave any bytes in the whole write's range.
    /// Where it is refused, but for an interruption, a read may give any bytes there too, unless the write never began. To write
    /// none of some bytes is a refusal.
    fn write_at(
        &mut self,
        opened: &Self::File,
        at: u64,
        bytes: &[u8],
        from: usize,
    ) -> Result<usize, Refused>
        requires from { from ≤ length bytes.now }
        requires fits { at + length bytes.now < 2 ^ 63 }
        requires regular { IsTrue tells → IsTrue (is_regular (Self.File.file opened.now)) }
        requires calm { IsTrue tells → (state self.old).is_doubtful (Self.File.file opened.now) ≡ false }
        requires place { IsTrue tells → MayWriteOn from at (length bytes.now) ((state self.old).world.disk (Self.File.file opened.now)) }
        ensures bound { IfOk result (λ n. n ≤ length bytes.now - from) }
        ensures ok { IfOk result (λ n. IsTrue tells
            → WritesPart n from (Self.File.file opened.now) at bytes.now (state self.old) (state self.new)) }
        ensures err { IfErr result (λ error. error ≢ Refused.Interrupted → IsTrue tells
            → FailsPart from (Self.File.file opened.now) at (length bytes.now) (state self.old) (state self.new)) }
        ensures answers { IsTrue tells → GivesOrFails from (length bytes.now) result (answered self.old) (answered self.new) }
        ensures interrupted { IfErr result (λ error. error ≡ Refused.Interrupted → IsTrue tells → state self.new ≡ state self.old) };

    /// Syncs the folder's entries: after Ok each file that is there is found after a crash. It isn't asked once one was refused:
    /// a later Ok would say nothing.
    fn sync_folder(&mut self, folder: &Self::Locked) -> Result<(), Refused>
        requires { IsTrue tells → (state self.old).has_lost ≡ false }
        ensures told { IsTrue tells → EntersAll (is_ok result) (state self.old) (state self.new) }
        ensures calm { OnOk result (IsTrue tells → answered self.new ≡ answered self.old) }
        ensures refused { OnErr result (IsTrue tells → WasRefused true (answered self.old) (answered self.new)) };

    /// Syncs a file's bytes and length. After Ok a crash leaves what a read gives; after a refusal what was pending is pending
    /// still. It isn't asked of a file whose entry may be lost, nor of one of which a sync was refused before: a later Ok would say
    /// nothing.
    fn sync_data(&mut self, opened: &Self::File) -> Result<(), Refused>
        requires regular { IsTrue tells → IsTrue (is_regular (Self.File.file opened.now)) }
        requires entered { IsTrue tells → IsTrue ((state self.old).is_entered (Self.File.file opened.now)) }
        requires calm { IsTrue tells → (state self.old).is_doubtful (Self.File.file opened.now) ≡ false }
        ensures told { IsTrue tells → SyncsData (Self.File.file opened.now) (is_ok result) (state self.old) (state self.new) }
        ensures answers { IsTrue tells → DoesOrRefuses result (answered self.old) (answered self.new) };

    /// Moves the next input bytes into the front of `into` and answers how many. For a slice that isn't empty, 0 means the end.
    fn read_input(&mut self, into: &mut [u8]) -> Result<usize, Refused>
        ensures bound { IfOk result (λ n. n ≤ length into.old) }
        ensures ok { IfOk result (λ n. IsTrue tells → Pulled n into.new (state self.old).world (state self.new).world) }
        ensures entries { IsTrue tells → SameEntries (state self.old) (state self.new) }
        ensures answers { IsTrue tells → TakesOrFails result (answered self.old) (answered self.new) }
        ensures err { OnErr result (IsTrue tells → state self.new ≡ state self.old) };

    /// Appends some of these bytes to the output: those from the place `from` on, of which the ones before have been put out;
    /// and answers how many. To put out none of some bytes is a refusal.
    fn write_output(&mut self, bytes: &[u8], from: usize) -> Result<usize, Refused>
        requires { from ≤ length bytes.now }
        ensures bound { IfOk result (λ n. n ≤ length bytes.now - from) }
        ensures ok { IfOk result (λ n. IsTrue tells → AppendsPart n from bytes.now (state self.old) (state self.new)) }
        ensures answers { IsTrue tells → GivesOrFails from (length bytes.now) result (answered self.old) (answered self.new) }
        ensures err { OnErr result (IsTrue tells → state self.new ≡ state self.old) };

    /// How many handles the process may have at once, those of its standard streams among them.
    fn handle_limit(&self) -> u64;

    /// What a read gives is among what a crash may leave.
    ghost seen_may_stay: { (system : Self) (file : FileId) → IsTrue tells
        → MayLeave ((state system).world.disk file) ((state system).world.disk file).seen };

    /// What a crash may leave under a file's name is what the disk model says, also where its entry doesn't last.
    ghost found_may_stay: { (system : Self) (file : FileId) (bytes : List ℕ) → IsTrue tells → MayBeFound (state system) file bytes
        → MayLeave ((state system).world.disk file) bytes };
}
