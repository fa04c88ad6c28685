// Bytes of files that were read ahead, and the length that a file was seen to have.
ghost use Rattle.std.specs.Prelude.{◌≡◌, ◌^◌, ◌<◌, ◌≤◌, length, IfOk, None};
ghost use Rattle.std.specs.Option.{ForSome};

use crate::kept::is_one;
use crate::pieces::{read_some, read_whole};
use host_trait::FileId;
use std::alloc::{AllocError, Global};
use system_calls::{Refused, SystemCalls};

// How many bytes the window of the manager and program files has, which are read from front to back.
const LONG: usize = 131_072;

// How many bytes each of the others has, and how many of these there are.
const SHORT: usize = 4_096;

const SHORT_ONES: usize = 64;

/// Bytes of one file from an offset on, that a read gave, and whether the file ends behind them. Where it has no file it says nothing.
#[derive(Drop)]
pub struct Window {
    file: Option<FileId>,
    from: u64,
    count: usize,
    is_last: bool,
    bytes: Vec<u8>,
    ghost room: { count ≤ length bytes.items },
}

impl Window {
    ghost use Rattle.std.specs.Prelude.{◌≡◌, ◌≤◌, ℕ, List, length, IsTrue, IsOk, IfOk, OnOk, false, None};
    ghost use Rattle.host_trait.specs.World.{Disk, Filled};
    ghost use Rattle.host_trait.specs.declared.channels.FileId.{FileId};
    ghost use Rattle.host_files.specs.Windows.{ShowsFile, IsTrueOf, Reaches};
    ghost use Rattle.host_files.specs.UnfailingCalls.{WentWell, WasObeyed};

    // One that says nothing yet, with room for so many bytes.
    fn new(alloc: Global, size: usize) -> Result<Window, AllocError>
        ensures { IfOk result (λ window. window.file ≡ None) }
    {
        let bytes = vec![in alloc; 0u8; size]?;
        Ok(Window {
            file: None,
            from: 0,
            count: 0,
            is_last: false,
            bytes,
        })
    }

    // Whether it reaches so many bytes of this file from there on, or up to the file's end.
    fn reaches(&self, file: FileId, at: u64, size: usize) -> bool
        ensures { IsTrue result → Reaches file at size self.now }
    {
        let Some(own) = self.file else {
            return false;
        };
        if !is_one(own, file) || at < self.from {
            return false;
        }
        let skipped = at - self.from;
        let count = self.count as u64;
        self.is_last || (skipped <= count && size as u64 <= count - skipped)
    }

    // Reads bytes of a file from there on, at least so many, or up to the file's end. It says nothing where that fails.
    fn fill<S: SystemCalls>(
        &mut self,
        system: &mut S,
        opened: &S::File,
        file: FileId,
        at: u64,
        least: usize,
    ) -> Result<(), Refused>
        requires file { S.File.file opened.now ≡ file }
        requires least { least ≤ length self.old.bytes.items }
        requires regular { IsTrue S.tells → IsTrue (S.is_regular (S.File.file opened.now)) }
        requires calm { IsTrue S.tells → (S.state system.old).is_doubtful (S.File.file opened.now) ≡ false }
        ensures reaches { OnOk result (Reaches file at least self.new) }
        ensures so { IsTrue S.tells → IsTrueOf (S.state system.old).world.disk self.new }
        ensures told { IsTrue S.tells → S.state system.new ≡ S.state system.old }
        ensures calm { OnOk result (IsTrue S.tells → WasObeyed (S.answered system.old) (S.answered system.new)) }
        ensures fine { IsTrue S.tells → WentWell (S.answered system.old) (S.answered system.new) → IsOk result }
        ensures known { IsTrue S.tells → (S.answered system.new).has_lost_entries ≡ (S.answered system.old).has_lost_entries }
    {
        self.file = None;
        let count = read_some(system, opened, at, &mut self.bytes, least)?;
        self.file = Some(file);
        self.from = at;
        self.count = count;
        self.is_last = count < least;
        Ok(())
    }

    // Moves bytes from there on into the front of the slice, and answers how many: all that it has room for, or up to the file's end.
    fn give(&self, at: u64, into: &mut [u8]) -> usize
        requires { (file : FileId) × Reaches file at (length into.old) self.now }
        ensures bound { result ≤ length into.old }
        ensures bytes { (file : List ℕ) → ShowsFile self.now file → Filled result at file into.old into.new }
    {
        let skipped = (at - self.from).min(self.count as u64) as usize;
        let count = into.len().min(self.count - skipped);
        into[..count].copy_from_slice(&self.bytes[skipped..skipped + count]);
        count
    }

    // Reads from there on, until the slice is full or the file ends, and answers how many bytes that are. A range that fits into the
    // window comes from it, which is filled where it doesn't reach that far.
    fn read<S: SystemCalls>(
        &mut self,
        system: &mut S,
        opened: &S::File,
        file: FileId,
        at: u64,
        into: &mut [u8],
    ) -> Result<usize, Refused>
        requires file { S.File.file opened.now ≡ file }
        requires so { IsTrue S.tells → IsTrueOf (S.state system.old).world.disk self.old }
        requires regular { IsTrue S.tells → IsTrue (S.is_regular (S.File.file opened.now)) }
        requires calm { IsTrue S.tells → (S.state system.old).is_doubtful (S.File.file opened.now) ≡ false }
        ensures so { IsTrue S.tells → IsTrueOf (S.state system.old).world.disk self.new }
        ensures told { IsTrue S.tells → S.state system.new ≡ S.state system.old }
        ensures bound { IfOk result (λ count. count ≤ length into.old) }
        ensures bytes { IfOk result (λ count. IsTrue S.tells
            → Filled count at ((S.state system.old).world.disk file).seen into.old into.new) }
        ensures calm { OnOk result (IsTrue S.tells → WasObeyed (S.answered system.old) (S.answered system.new)) }
        ensures fine { IsTrue S.tells → WentWell (S.answered system.old) (S.answered system.new) → IsOk result }
        ensures known { IsTrue S.tells → (S.answered system.new).has_lost_entries ≡ (S.answered system.old).has_lost_entries }
    {
        let size = into.len();
        if size > self.bytes.len() {
            let count = read_whole(system, opened, at, into)?;
            return Ok(count);
        }
        if !self.reaches(file, at, size) {
            self.fill(system, opened, file, at, size)?;
        }
        Ok(self.give(at, into))
    }
}

/// How long a file was seen to be.
#[derive(Clone, Copy)]
pub struct Measured {
    file: FileId,
    length: u64,
}

/// A window of 131,072 bytes for the manager and program files, 64 of 4,096 for the grains' files, and the length that was asked last.
/// What they say is so until a file is written or synced, and nothing is believed from then on until the next read.
#[derive(Drop)]
pub struct Windows {
    all: Vec<Window>,
    measured: Option<Measured>,
    are_true: bool,
    ghost full: { length all.items ≡ 65 },
    ghost small: { ForSome measured (λ measured. measured.length < 2 ^ 63) },
}

// So many windows: the long one, and the others.
fn make_all(alloc: Global) -> Result<Vec<Window>, AllocError>
    ensures { IfOk result (λ all. length all.items ≡ 65) }
{
    let mut all = Vec::with_capacity(alloc, 1 + SHORT_ONES)?;
    all.push(Window::new(alloc, LONG)?)?;
    for number in 0..SHORT_ONES {
        all.push(Window::new(alloc, SHORT)?)?;
    }
    Ok(all)
}

// Which window is a file's.
fn place_of(file: FileId) -> usize
    ensures { result < 65 }
{
    match file {
        FileId::Grain { grain, .. } => {
            let number = grain.key.wrapping_add(grain.kind as u32);
            1 + number as usize % SHORT_ONES
        }
        _ => 0,
    }
}

impl Windows {
    ghost use Rattle.std.specs.Prelude.{◌≡◌, ◌^◌, ◌<◌, ◌≤◌, ℕ, List, length, IsTrue, IsOk, IfOk, IfSome, OnOk, false};
    ghost use Rattle.host_trait.specs.World.{Disk, Filled};
    ghost use Rattle.host_trait.specs.declared.channels.FileId.{FileId};
    ghost use Rattle.host_files.specs.Windows.{AreTrueOf};
    ghost use Rattle.host_files.specs.UnfailingCalls.{WentWell, WasObeyed};

    /// They say nothing yet. All memory is taken here.
    pub fn new(alloc: Global) -> Result<Windows, AllocError>
        ensures { IfOk result (λ windows. (disk : Disk) → AreTrueOf disk windows) }
    {
        let all = make_all(alloc)?;
        Ok(Windows {
            all,
            measured: None,
            are_true: false,
        })
    }

    /// What they say isn't believed any more.
    pub fn forget(&mut self)
        ensures { (disk : Disk) → AreTrueOf disk self.new }
    {
        self.are_true = false;
    }

    // What isn't believed is said no more.
    fn settle(&mut self)
        ensures believed { IsTrue self.new.are_true }
        ensures so { (disk : Disk) → AreTrueOf disk self.old → AreTrueOf disk self.new }
    {
        if self.are_true {
            return;
        }
        for window in self.all.iter_mut() {
            window.file = None;
        }
        self.measured = None;
        self.are_true = true;
    }

    /// The length of a file, where it was asked last and is believed.
    pub fn length_of(&self, file: FileId) -> Option<u64>
        ensures so { IfSome result (λ count. (disk : Disk) → AreTrueOf disk self.now → count ≡ length (disk file).seen) }
        ensures small { IfSome result (λ count. count < 2 ^ 63) }
    {
        let Some(measured) = self.measured else {
            return None;
        };
        if !self.are_true || !is_one(measured.file, file) {
            return None;
        }
        Some(measured.length)
    }

    /// Keeps the length of a file.
    pub fn measure(&mut self, file: FileId, count: u64)
        requires { count < 2 ^ 63 }
        ensures { (disk : Disk) → count ≡ length (disk file).seen → AreTrueOf disk self.old → AreTrueOf disk self.new }
    {
        self.settle();
        self.measured = Some(Measured {
            file,
            length: count,
        });
    }

    /// Reads from there on, until the slice is full or the file ends, and answers how many bytes that are: from a window, or by
    /// calls of the system, which read more than is asked into one.
    pub fn read<S: SystemCalls>(
        &mut self,
        system: &mut S,
        opened: &S::File,
        file: FileId,
        at: u64,
        into: &mut [u8],
    ) -> Result<usize, Refused>
        requires file { S.File.file opened.now ≡ file }
        requires so { IsTrue S.tells → AreTrueOf (S.state system.old).world.disk self.old }
        requires regular { IsTrue S.tells → IsTrue (S.is_regular (S.File.file opened.now)) }
        requires calm { IsTrue S.tells → (S.state system.old).is_doubtful (S.File.file opened.now) ≡ false }
        ensures so { IsTrue S.tells → AreTrueOf (S.state system.old).world.disk self.new }
        ensures told { IsTrue S.tells → S.state system.new ≡ S.state system.old }
        ensures bound { IfOk result (λ count. count ≤ length into.old) }
        ensures bytes { IfOk result (λ count. IsTrue S.tells
            → Filled count at ((S.state system.old).world.disk file).seen into.old into.new) }
        ensures calm { OnOk result (IsTrue S.tells → WasObeyed (S.answered system.old) (S.answered system.new)) }
        ensures fine { IsTrue S.tells → WentWell (S.answered system.old) (S.answered system.new) → IsOk result }
        ensures known { IsTrue S.tells → (S.answered system.new).has_lost_entries ≡ (S.answered system.old).has_lost_entries }
    {
        self.settle();
        let place = place_of(file);
        let count = self.all[place].read(system, opened, file, at, into)?;
        Ok(count)
    }
}
