// A host in memory that notes each file's writes and syncs.
ghost use Rattle.std.specs.Prelude.{◌-◌, ◌^◌, ◌≤◌, length, false, IsTrue};
ghost use Rattle.host_trait.specs.Files.{HasSlot};
ghost use Rattle.host_trait.specs.World.{empty_world, untold};
ghost use Rattle.host_memory.specs.ShownState.{image_in, ready_in};

use host_memory::{CallKind, MemoryHost};
use host_trait::{Failed, FileId, Host};
use std::alloc::{AllocError, Global};

// The manager file of a new silo: the open header gate, the name, generation 1, two zeros, and the first gate, closed.
const NEW_LOG: [u8; 16] = *b"\x01OTXLOG02\0\0\0\0\0\0\0";

// It tells nothing, so that a test may begin with any files. Its next emit fails where it has a first part to put out.
#[derive(Drop)]
pub struct Recorder {
    pub inner: MemoryHost,
    pub calls: Vec<(CallKind, FileId)>,
    pub part: Option<u64>,
}

// One that has a new silo's manager file in this slot.
pub fn new_recorder(alloc: Global, slot: u8) -> Result<Recorder, AllocError>
    requires { slot ≤ 1 }
{
    let mut inner = MemoryHost::new(alloc, &[])?;
    match inner.set_file(FileId::Manager { slot }, &NEW_LOG) {
        Ok(()) => {}
        Err(error) => {
            drop(inner);
            return Err(error);
        }
    }
    Ok(Recorder {
        inner,
        calls: Vec::new(alloc),
        part: None,
    })
}

// The same, where this file has these bytes.
pub fn recorder_with(
    alloc: Global,
    slot: u8,
    file: FileId,
    bytes: &[u8],
) -> Result<Recorder, AllocError>
    requires slot { slot ≤ 1 }
    requires file { HasSlot file }
{
    let mut host = new_recorder(alloc, slot)?;
    match host.inner.set_file(file, bytes) {
        Ok(()) => Ok(host),
        Err(error) => {
            drop(host);
            Err(error)
        }
    }
}

// Notes a call. Where there is no memory for that it isn't made.
fn note(calls: &mut Vec<(CallKind, FileId)>, kind: CallKind, file: FileId) -> Result<(), Failed> {
    match calls.push((kind, file)) {
        Ok(()) => Ok(()),
        Err(_) => Err(Failed),
    }
}

// Whether a file has this place.
fn has_place(host: &MemoryHost, file: FileId, at: u64) -> bool
    ensures { IsTrue result → at ≤ length (image_in host.now file) }
{
    match host.file(file) {
        Some(bytes) => at <= bytes.len() as u64,
        None => at == 0,
    }
}

impl Host for Recorder {
    ghost tells = { false };

    ghost world = { λ _. empty_world };

    ghost faults = { λ _ _. 2 ^ 64 - 1 };

    ghost is_ready = { λ host. ready_in host.inner };

    ghost seen_may_stay = { λ host file told. untold told };

    fn pull(&mut self, into: &mut [u8]) -> Result<usize, Failed> {
        self.inner.pull(into)
    }

    fn emit(&mut self, bytes: &[u8]) -> Result<(), Failed> {
        let Some(part) = self.part else {
            return self.inner.emit(bytes);
        };
        self.part = None;
        let most = (part as usize).min(bytes.len());
        self.inner.emit(&bytes[..most])?;
        Err(Failed)
    }

    fn length(&mut self, file: FileId) -> Result<u64, Failed> {
        self.inner.length(file)
    }

    fn read_at(&mut self, file: FileId, at: u64, into: &mut [u8]) -> Result<usize, Failed> {
        self.inner.read_at(file, at, into)
    }

    fn write_at(&mut self, file: FileId, at: u64, bytes: &[u8]) -> Result<(), Failed> {
        note(&mut self.calls, CallKind::Write, file)?;
        if !has_place(&self.inner, file, at) {
            return Err(Failed);
        }
        self.inner.write_at(file, at, bytes)
    }

    fn ready(&mut self, file: FileId) -> Result<(), AllocError> {
        self.inner.ready(file)
    }

    fn sync(&mut self, file: FileId) -> Result<(), Failed> {
        note(&mut self.calls, CallKind::Sync, file)?;
        self.inner.sync(file)
    }
}

// How many of the calls are of this kind on this file.
pub fn count(calls: &[(CallKind, FileId)], kind: CallKind, file: FileId) -> u64 {
    let mut found = 0u64;
    for call in calls {
        if call.0 == kind && call.1 == file {
            found = found.wrapping_add(1);
        }
    }
    found
}

/// The bytes of a file, none where it isn't there.
pub fn bytes_in(host: &MemoryHost, file: FileId) -> &[u8] {
    host.file(file).unwrap_or(b"")
}
