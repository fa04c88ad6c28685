// What a host in memory keeps of its files.
ghost use Rattle.std.specs.Prelude.{◌≡◌, ◌≢◌, ◌+◌, ◌<◌, ◌≤◌, ◌∷◌, [], ◌++◌, ◌||◌, false, if◌then◌else◌, length, true, Some, None, IsTrue, IfSome, IfNone, IfOk, OnOk, OnErr};
ghost use Rattle.host_trait.specs.Disk.{overlaid};
ghost use Rattle.host_trait.specs.Files.{same_file};
ghost use Rattle.host_trait.specs.Faults.{Rose};
ghost use Rattle.host_trait.specs.declared.channels.FileId.{FileId};
ghost use Rattle.host_memory.specs.Table.{stored_in, bytes_in, written_in, faults_in, is_kept, IsAt, StaysKept, SameBytes, SameFaults};

use host_trait::FileId;
use std::alloc::{AllocError, Global};

// A file: its bytes, as a read gives them, whether it was ever written, and how often its calls have failed.
#[derive(Drop)]
pub struct Stored {
    pub file: FileId,
    pub bytes: Vec<u8>,
    pub written: bool,
    pub faults: u64,
}

/// Whether the two are one file.
pub fn is_same(a: FileId, b: FileId) -> bool
    ensures { result ≡ same_file a b }
{
    match (a, b) {
        (FileId::Program { slot: a }, FileId::Program { slot: b }) => a == b,
        (FileId::Manager { slot: a }, FileId::Manager { slot: b }) => a == b,
        (FileId::Grain { slot: a, grain: x }, FileId::Grain { slot: b, grain: y }) => {
            a == b && x.kind == y.kind && x.key == y.key
        }
        _ => false,
    }
}

impl Stored {
    ghost use Rattle.host_memory.specs.Entries.{IsRaised, IsOverwritten, IsReplaced, IsSame};

    fn raise(&mut self)
        ensures { IsRaised self.old self.new }
    {
        self.faults = self.faults.saturating_add(1);
    }

    // Writes from there on. Without memory all stays as it was.
    fn put(&mut self, at: usize, bytes: &[u8]) -> Result<(), AllocError>
        requires { at ≤ length self.old.bytes.items }
        ensures ok { OnOk result (IsOverwritten at bytes.now self.old self.new) }
        ensures err { OnErr result (IsSame self.old self.new) }
    {
        overwrite(&mut self.bytes, at, bytes)?;
        self.written = true;
        Ok(())
    }

    fn replace(&mut self, bytes: Vec<u8>)
        ensures { IsReplaced bytes.items self.old self.new }
    {
        self.bytes = bytes;
        self.written = true;
    }
}

// Where a file stands in the list.
fn position_of(files: &[Stored], file: FileId) -> Option<usize>
    ensures found { IfSome result (IsAt files.now file) }
    ensures none { IfNone result (stored_in files.now file ≡ None) }
{
    for (i, stored) in files.iter().enumerate() {
        if is_same(stored.file, file) {
            return Some(i);
        }
    }
    None
}

// Where a file stands that is in the list.
fn entry_of(files: &[Stored], file: FileId) -> usize
    requires { IsTrue (is_kept files.now file) }
    ensures { IsAt files.now file result }
{
    position_of(files, file).unwrap()
}

// The bytes of a file, none where it was never written.
pub fn find(files: &[Stored], file: FileId) -> Option<&[u8]>
    ensures some { IfSome result (λ bytes. IsTrue (written_in files.now file) × (bytes.now ≡ bytes_in files.now file)) }
    ensures none { IfNone result (written_in files.now file ≡ false) }
{
    let i = position_of(files, file)?;
    if !files[i].written {
        return None;
    }
    Some(&files[i].bytes)
}

// The bytes of a file that is in the list.
pub fn bytes_of(files: &[Stored], file: FileId) -> &[u8]
    requires { IsTrue (is_kept files.now file) }
    ensures { result.now ≡ bytes_in files.now file }
{
    let i = entry_of(files, file);
    &files[i].bytes
}

// How often calls on a file have failed.
pub fn faults_of(files: &[Stored], file: FileId) -> u64
    ensures { result ≡ faults_in files.now file }
{
    match position_of(files, file) {
        Some(i) => files[i].faults,
        None => 0,
    }
}

// Puts a file into the list, unless it is there.
pub fn keep(alloc: Global, files: &mut Vec<Stored>, file: FileId) -> Result<(), AllocError>
    ensures kept { OnOk result (IsTrue (is_kept files.new.items file)) }
    ensures stays { StaysKept files.old.items files.new.items }
    ensures bytes { SameBytes files.old.items files.new.items }
    ensures faults { SameFaults files.old.items files.new.items }
{
    if let Some(_) = position_of(files, file) {
        return Ok(());
    }
    let stored = Stored {
        file,
        bytes: Vec::new(alloc),
        written: false,
        faults: 0,
    };
    files.push(stored)?;
    Ok(())
}

// Counts a fault of a file.
pub fn raise(files: &mut Vec<Stored>, file: FileId)
    requires { IsTrue (is_kept files.old.items file) }
    ensures rose { Rose (faults_in files.old.items file) (faults_in files.new.items file) }
    ensures later { faults_in files.old.items file ≤ faults_in files.new.items file }
    ensures others { (f : FileId) → f ≢ file → faults_in files.new.items f ≡ faults_in files.old.items f }
    ensures stays { StaysKept files.old.items files.new.items }
    ensures bytes { SameBytes files.old.items files.new.items }
{
    let i = entry_of(files, file);
    files[i].raise();
}

// Puts others in the place of the bytes from there on. Without memory they stay as they were.
pub fn overwrite(held: &mut Vec<u8>, at: usize, bytes: &[u8]) -> Result<(), AllocError>
    requires { at ≤ length held.old.items }
    ensures ok { OnOk result (held.new.items ≡ overlaid held.old.items at bytes.now) }
    ensures err { OnErr result (held.new.items ≡ held.old.items) }
{
    let inside = bytes.len().min(held.len() - at);
    held.extend_from_slice(&bytes[inside..])?;
    held[at..at + inside].copy_from_slice(&bytes[..inside]);
    Ok(())
}

// Writes into a file. Without memory all stays as it was.
pub fn put(files: &mut Vec<Stored>, file: FileId, at: usize, bytes: &[u8]) -> Result<(), AllocError>
    requires kept { IsTrue (is_kept files.old.items file) }
    requires place { at ≤ length (bytes_in files.old.items file) }
    ensures bytes { OnOk result ((f : FileId) → bytes_in files.new.items f
        ≡ (if same_file file f then overlaid (bytes_in files.old.items file) at bytes.now else bytes_in files.old.items f)) }
    ensures written { OnOk result ((f : FileId) → written_in files.new.items f ≡ (same_file file f || written_in files.old.items f)) }
    ensures err { OnErr result (SameBytes files.old.items files.new.items) }
    ensures stays { StaysKept files.old.items files.new.items }
    ensures faults { SameFaults files.old.items files.new.items }
{
    let i = entry_of(files, file);
    files[i].put(at, bytes)?;
    Ok(())
}

// Gives a file other bytes.
pub fn replace(files: &mut Vec<Stored>, file: FileId, bytes: Vec<u8>)
    requires { IsTrue (is_kept files.old.items file) }
    ensures bytes { (f : FileId) → bytes_in files.new.items f
        ≡ (if same_file file f then bytes.items else bytes_in files.old.items f) }
    ensures written { (f : FileId) → written_in files.new.items f ≡ (same_file file f || written_in files.old.items f) }
    ensures stays { StaysKept files.old.items files.new.items }
    ensures faults { SameFaults files.old.items files.new.items }
{
    let i = entry_of(files, file);
    files[i].replace(bytes);
}
