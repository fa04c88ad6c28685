ghost use Rattle.std.specs.Prelude.{◌≡◌, IsTrue, IfOk, string_bytes};
ghost use Rattle.host_trait.specs.declared.channels.FileId.{FileId};
ghost use Rattle.host_trait.specs.declared.channels.Channel.{Channel};
ghost use Rattle.system_calls.specs.System.{NoSyncRefused};
ghost use Rattle.host_files.specs.Path.{path_of};
ghost use Rattle.host_files.specs.Table.{is_lost, had_bytes_in};
ghost use Rattle.host_files.specs.CountedCalls.{counts_in};

use crate::file_names::name_of;
use crate::folder::Folder;
use crate::table::Table;
use host_trait::{Channel, Failed, FileId, Host};
use std::alloc::{AllocError, Global};
use system_calls::SystemCalls;

/// A host over the calls of a system: the standard streams, and a folder of files.
///
/// It tells what they hold where the system does, and counts the faults of each channel: what the system refuses, a length or the end
/// of a written range that isn't below 2 to the 63, anything but a regular file under a file's name, and a file that was seen to
/// have bytes and is gone, are faults. A call that was interrupted is made again. A file that isn't there has no bytes. Once a
/// sync of a file has failed, each later call on that file fails, since the system may have dropped what was pending. The first
/// call on a file takes the folder, which no other process has from then on until this host is dropped; where another one has
/// it, each call on a file fails. Files are looked for in the folder that was taken, also where it is renamed, or another one
/// comes to stand at its path.
///
/// So a call answers Ok only where the system refused nothing in it (`calm`); and it does so wherever nothing was refused, fewer
/// than 2 to the 63 calls were interrupted, and none of those things is so, nor is the folder missing where a file has to be made,
/// nor was a sync of the folder refused before a sync (`fine`).
///
/// Where no file may be written, they are read all the same, so that a folder on a medium that may only be read can be asked.
///
/// Each file has one name: `program-S.otx`, `manager-S.otx` or `grain-S-K-Y.otx`, with slot, type and key in decimal. No name is
/// kept: each call makes that of its file anew, by no memory but its own. What is kept of a file that is ready is a count and two
/// marks, for whose entry [`new`](FolderHost::new) and [`ready`](Host::ready) make room, so that no other call takes memory.
#[derive(Drop)]
pub struct FolderHost<S: SystemCalls> {
    folder: Folder<S>,
    table: Table,
    ghost plain: { IsTrue S.tells → (file : FileId) → IsTrue (had_bytes_in table.files file) → IsTrue (S.is_regular file) },
    ghost doubts: { IsTrue S.tells → (file : FileId) → IsTrue ((S.state folder.system).is_doubtful file) → IsTrue (is_lost table.files file) },
}

// The path by which a folder is opened. Only a folder is found by it, so that no pipe is waited for.
fn path_to(alloc: Global, folder: &str) -> Result<String, AllocError>
    ensures { IfOk result (λ path. string_bytes path ≡ path_of folder.now) }
{
    let name = if folder.is_empty() { "." } else { folder };
    format!(in alloc; "{name}/.")
}

impl<S: SystemCalls + Drop> FolderHost<S> {
    /// A host over this system, whose files stand in the folder at this path. The empty text is the folder in which the program
    /// runs. Nothing is read or made, and no call has failed. What an earlier refusal of a sync has left, the system may have
    /// dropped, so that there was none is asked.
    pub fn new(alloc: Global, system: S, folder: &str) -> Result<FolderHost<S>, AllocError>
        requires calm { IsTrue S.tells → NoSyncRefused (S.state system) }
        requires path { IsTrue S.tells → S.leads ≡ path_of folder.now }
        ensures system { IfOk result (λ host. host.folder.system ≡ system) }
        ensures faults { IfOk result (λ host. (channel : Channel) → counts_in host.table channel ≡ 0) }
    {
        let table = Table::new(alloc)?;
        let path = path_to(alloc, folder)?;
        let folder = Folder::new(alloc, system, path)?;
        Ok(FolderHost { folder, table })
    }

    /// How often calls on this channel have failed, up to the last value of a `u64`.
    pub fn fault_count(&self, channel: Channel) -> u64
        ensures { result ≡ counts_in self.now.table channel }
    {
        self.table.faults(channel)
    }
}

impl<S: SystemCalls + Drop> Host for FolderHost<S> {
    ghost use Rattle.std.specs.Prelude.{◌≡◌, ◌≢◌, ◌+◌, ◌^◌, ◌<◌, ◌≤◌, ℕ, false, length, is_ok, is_some, IsTrue, IsOk, IfOk, OnOk, OnErr};
    ghost use Rattle.host_trait.specs.Disk.{Overwrote};
    ghost use Rattle.host_trait.specs.Files.{HasSlot, MayAsk, StaysReady};
    ghost use Rattle.host_trait.specs.World.{Asked, Pulled, Emitted, Filled, Written, Synced};
    ghost use Rattle.host_trait.specs.declared.channels.FileId.{FileId};
    ghost use Rattle.host_trait.specs.declared.channels.Channel.{Channel};
    ghost use Rattle.host_trait.specs.declared.channels.Channel.TheVariants.{Input, Output, File};
    ghost use Rattle.host_files.specs.Table.{is_lost, had_bytes_in, SameLost, IsInOrder};
    ghost use Rattle.host_files.specs.CountedCalls.{counts_in, ready_in, CountsCall};
    ghost use Rattle.host_files.specs.UnfailingCalls.{WentWell, EndsOnFile};

    ghost tells = { S.tells };

    ghost world = { λ host. (S.state host.folder.system).world };

    ghost faults = { λ host. counts_in host.table };

    ghost is_ready = { λ host. ready_in host.table };

    ghost seen_may_stay = { λ host file told. S.seen_may_stay host.folder.system file told };

    fn pull(&mut self, into: &mut [u8]) -> Result<usize, Failed>
        ensures bound { IfOk result (λ n. n ≤ length into.old) }
        ensures ok { IfOk result (λ n. IsTrue S.tells → Pulled n into.new (S.state self.old.folder.system).world (S.state self.new.folder.system).world) }
        ensures err { OnErr result (IsTrue S.tells → Asked (S.state self.old.folder.system).world (S.state self.new.folder.system).world) }
        ensures counts { CountsCall Input result self.old.table self.new.table }
        ensures believed { SameLost self.old.table.files self.new.table.files }
        ensures calm { OnOk result (IsTrue S.tells → (S.answered self.new.folder.system).refusals ≡ (S.answered self.old.folder.system).refusals) }
        ensures fine { IsTrue S.tells → WentWell (S.answered self.old.folder.system) (S.answered self.new.folder.system) → IsOk result }
    {
        let answer = self.folder.pull(into);
        let count = self.table.count_input(answer)?;
        Ok(count)
    }

    fn emit(&mut self, bytes: &[u8]) -> Result<(), Failed>
        ensures ok { OnOk result (IsTrue S.tells
            → Emitted (length bytes.now) bytes.now (S.state self.old.folder.system).world (S.state self.new.folder.system).world) }
        ensures part { IsTrue S.tells → ((n : ℕ) × Emitted n bytes.now (S.state self.old.folder.system).world (S.state self.new.folder.system).world) }
        ensures counts { CountsCall Output result self.old.table self.new.table }
        ensures believed { SameLost self.old.table.files self.new.table.files }
        ensures calm { OnOk result (IsTrue S.tells → (S.answered self.new.folder.system).refusals ≡ (S.answered self.old.folder.system).refusals) }
        ensures fine { IsTrue S.tells → WentWell (S.answered self.old.folder.system) (S.answered self.new.folder.system) → IsOk result }
    {
        let answer = self.folder.emit(bytes);
        self.table.count_output(answer)?;
        Ok(())
    }

    fn length(&mut self, file: FileId) -> Result<u64, Failed>
        requires { MayAsk (ready_in self.old.table) file }
        ensures told { IsTrue S.tells → Asked (S.state self.old.folder.system).world (S.state self.new.folder.system).world }
        ensures len { IfOk result (λ n. IsTrue S.tells → n ≡ length ((S.state self.old.folder.system).world.disk file).seen) }
        ensures bound { IfOk result (λ n. n < 2 ^ 63) }
        ensures counts { CountsCall (File file) result self.old.table self.new.table }
        ensures believed { SameLost self.old.table.files self.new.table.files }
        ensures ends { EndsOnFile S.tells (is_lost self.old.table.files file) (is_ok result)
            (S.answered self.old.folder.system) (S.answered self.new.folder.system)
            (IsInOrder self.old.table.files S.is_regular (S.state self.old.folder.system) file
            × (length ((S.state self.old.folder.system).world.disk file).seen < 2 ^ 63)) }
        ensures regular { IfOk result (λ n. IsTrue S.tells → 0 < n → IsTrue (S.is_regular file)) }
        ensures noted { IfOk result (λ n. 0 < n → IsTrue (had_bytes_in self.new.table.files file)) }
        ensures open { OnOk result (IsTrue (had_bytes_in self.old.table.files file) → IsTrue (is_some self.new.folder.reader)) }
    {
        let name = name_of(file);
        let asked = self.table.asked(file, name.as_str());
        let answer = self.folder.length(asked);
        let is_news = !asked.had_bytes && answer.unwrap_or(0) > 0;
        let count = self.table.count(file, answer, is_news)?;
        Ok(count)
    }

    fn read_at(&mut self, file: FileId, at: u64, into: &mut [u8]) -> Result<usize, Failed>
        requires { MayAsk (ready_in self.old.table) file }
        ensures told { IsTrue S.tells → Asked (S.state self.old.folder.system).world (S.state self.new.folder.system).world }
        ensures bytes { IfOk result (λ n. IsTrue S.tells → Filled n at ((S.state self.old.folder.system).world.disk file).seen into.old into.new) }
        ensures bound { IfOk result (λ n. n ≤ length into.old) }
        ensures counts { CountsCall (File file) result self.old.table self.new.table }
        ensures believed { SameLost self.old.table.files self.new.table.files }
        ensures ends { EndsOnFile S.tells (is_lost self.old.table.files file) (is_ok result)
            (S.answered self.old.folder.system) (S.answered self.new.folder.system)
            (IsInOrder self.old.table.files S.is_regular (S.state self.old.folder.system) file) }
        ensures regular { IfOk result (λ n. IsTrue S.tells → 0 < n → IsTrue (S.is_regular file)) }
        ensures noted { IfOk result (λ n. 0 < n → IsTrue (had_bytes_in self.new.table.files file)) }
        ensures open { OnOk result (IsTrue (had_bytes_in self.old.table.files file) → IsTrue (is_some self.new.folder.reader)) }
    {
        let name = name_of(file);
        let asked = self.table.asked(file, name.as_str());
        let answer = self.folder.read_at(asked, at, into);
        let is_news = !asked.had_bytes && answer.unwrap_or(0) > 0;
        let count = self.table.count(file, answer, is_news)?;
        Ok(count)
    }

    fn write_at(&mut self, file: FileId, at: u64, bytes: &[u8]) -> Result<(), Failed>
        requires file { MayAsk (ready_in self.old.table) file }
        requires place { IsTrue S.tells → at ≤ length ((S.state self.old.folder.system).world.disk file).seen }
        ensures told { IsTrue S.tells → Written file at (length bytes.now) (S.state self.old.folder.system).world (S.state self.new.folder.system).world }
        ensures ok { OnOk result (IsTrue S.tells
            → Overwrote at bytes.now ((S.state self.old.folder.system).world.disk file) ((S.state self.new.folder.system).world.disk file)) }
        ensures bound { OnOk result (at + length bytes.now < 2 ^ 63) }
        ensures counts { CountsCall (File file) result self.old.table self.new.table }
        ensures believed { SameLost self.old.table.files self.new.table.files }
        ensures ends { EndsOnFile S.tells (is_lost self.old.table.files file) (is_ok result)
            (S.answered self.old.folder.system) (S.answered self.new.folder.system)
            (IsInOrder self.old.table.files S.is_regular (S.state self.old.folder.system) file
            × (self.new.folder.claim.is_missing ≡ false) × (at + length bytes.now < 2 ^ 63)) }
        ensures regular { OnOk result (IsTrue S.tells → IsTrue (S.is_regular file)) }
        ensures noted { OnOk result (0 < length bytes.now → IsTrue (had_bytes_in self.new.table.files file)) }
    {
        let name = name_of(file);
        let asked = self.table.asked(file, name.as_str());
        let answer = self.folder.write_at(asked, at, bytes);
        let is_news = !asked.had_bytes && !bytes.is_empty();
        self.table.count(file, answer, is_news)?;
        Ok(())
    }

    fn ready(&mut self, file: FileId) -> Result<(), AllocError>
        requires { HasSlot file }
        ensures told { IsTrue S.tells → (S.state self.new.folder.system).world ≡ (S.state self.old.folder.system).world }
        ensures ok { OnOk result (IsTrue (ready_in self.new.table file)) }
        ensures faults { (channel : Channel) → counts_in self.new.table channel ≡ counts_in self.old.table channel }
        ensures ready { StaysReady (ready_in self.old.table) (ready_in self.new.table) }
        ensures believed { SameLost self.old.table.files self.new.table.files }
    {
        self.table.ready(file)?;
        Ok(())
    }

    fn sync(&mut self, file: FileId) -> Result<(), Failed>
        requires { MayAsk (ready_in self.old.table) file }
        ensures told { IsTrue S.tells → Synced file (is_ok result) (S.state self.old.folder.system).world (S.state self.new.folder.system).world }
        ensures count { OnOk result (IsTrue S.tells → (S.state self.new.folder.system).world.syncs ≡ (S.state self.old.folder.system).world.syncs + 1) }
        ensures counts { CountsCall (File file) result self.old.table self.new.table }
        ensures believed { OnOk result (SameLost self.old.table.files self.new.table.files) }
        ensures others { (other : FileId) → other ≢ file → is_lost self.new.table.files other ≡ is_lost self.old.table.files other }
        ensures ends { EndsOnFile S.tells (is_lost self.old.table.files file) (is_ok result)
            (S.answered self.old.folder.system) (S.answered self.new.folder.system)
            (IsInOrder self.old.table.files S.is_regular (S.state self.old.folder.system) file
            × (self.new.folder.claim.is_missing ≡ false) × ((S.answered self.old.folder.system).has_lost_entries ≡ false)) }
        ensures regular { OnOk result (IsTrue S.tells → IsTrue (S.is_regular file)) }
    {
        let name = name_of(file);
        let answer = self.folder.sync(self.table.asked(file, name.as_str()));
        self.table.count_sync(file, answer)?;
        Ok(())
    }
}
