// A system in memory, of which one call may fail.
ghost use Rattle.std.specs.Prelude.{◌≡◌, ◌+◌, ◌-◌, ◌^◌, ◌<◌, ◌≤◌, ℕ, length, is_ok, true, IsTrue, IfOk, OnOk};
ghost use Rattle.system_memory.specs.MemoryState.{held_of, AllStay, BareUnentered};

use crate::events::{
    Event, note_doubted, note_emitted, note_entered, note_lost, note_made, note_synced, note_wrote,
};
use crate::replay::bytes_of;
use host_trait::FileId;
use std::alloc::{AllocError, Global};
use system_calls::{Access, Handle, Look, Refused, SystemCalls};

/// How a call is answered.
#[derive(Clone, Copy, PartialEq, Eq)]
pub enum Fault {
    /// As it should.
    None,
    /// It is refused, after half of a write.
    Refused,
    /// It is interrupted, where it moves bytes.
    Interrupted,
    /// It moves half of the bytes.
    Short,
}

/// A handle of the folder.
#[derive(Clone, Copy, Drop)]
pub struct MemoryFolder;

/// A handle that has its lock.
#[derive(Clone, Copy, Drop)]
pub struct MemoryLocked;

/// A handle of a file.
#[derive(Drop)]
pub struct MemoryFile {
    file: FileId,
}

impl Handle for MemoryFile {
    ghost file = { λ handle. handle.file };
}

// The calls so far, and which of them is answered so; where its number is 0, each one.
#[derive(Clone, Copy)]
struct Plan {
    calls: u64,
    failing: u64,
    fault: Fault,
}

impl Plan {
    fn turn(&mut self) -> Fault {
        self.calls = self.calls.saturating_add(1);
        if self.failing == 0 || self.failing == self.calls {
            return self.fault;
        }
        Fault::None
    }

    // Whether this call is refused.
    fn is_refused(&mut self) -> bool {
        self.turn() == Fault::Refused
    }
}

/// A folder `f`, an input and an output in memory. Want of memory is a refusal.
#[derive(Drop)]
pub struct MemorySystem {
    alloc: Global,
    input: Vec<u8>,
    taken: usize,
    events: Vec<Event>,
    plan: Plan,
    refusals: u64,
    interruptions: u64,
    has_lost_entries: bool,
    ghost in_range: { taken ≤ length input.items },
    ghost stays: { AllStay (held_of events.items) },
    ghost bare: { BareUnentered (held_of events.items) },
}

// How many bytes a call moves: some, where there are some.
fn moved(fault: Fault, count: usize) -> usize
    ensures within { result ≤ count }
    ensures some { 0 < count → 0 < result }
{
    match fault {
        Fault::Short | Fault::Refused => count - count / 2,
        Fault::None | Fault::Interrupted => count,
    }
}

impl MemorySystem {
    ghost use Rattle.system_memory.specs.ShownState.{system_in, system_answers};
    ghost use Rattle.system_calls.specs.System.{NoSyncRefused};
    ghost use Rattle.system_calls.specs.Answers.{WasRefused, interrupted_once};
    ghost use Rattle.system_calls.specs.declared.refusal.Refused.{Refused};
    ghost use Rattle.system_memory.specs.declared.system.Fault.{Fault};

    /// An empty folder, and this input.
    pub fn new(alloc: Global, input: &[u8]) -> Result<MemorySystem, AllocError>
        ensures { IfOk result (λ system. NoSyncRefused (system_in system)) }
    {
        let input = input.to_vec(alloc)?;
        let system = MemorySystem {
            alloc,
            input,
            taken: 0,
            events: Vec::new(alloc),
            plan: Plan {
                calls: 0,
                failing: 0,
                fault: Fault::None,
            },
            refusals: 0,
            interruptions: 0,
            has_lost_entries: false,
        };
        Ok(system)
    }

    /// The nth call from here on is answered so, and where n is 0 each one.
    pub fn fail(&mut self, nth: u64, fault: Fault)
        ensures { system_in self.new ≡ system_in self.old }
    {
        self.plan = Plan {
            calls: 0,
            failing: nth,
            fault,
        };
    }

    // Refuses a call. The number of refusals begins anew behind the last value.
    fn refuse(&mut self) -> Refused
        ensures error { result ≡ Refused.Failed }
        ensures state { system_in self.new ≡ system_in self.old }
        ensures refused { WasRefused (system_answers self.old).has_lost_entries (system_answers self.old) (system_answers self.new) }
    {
        self.refusals = if self.refusals < u64::MAX {
            self.refusals + 1
        } else {
            0
        };
        Refused::Failed
    }

    // Refuses a sync of the folder.
    fn refuse_entries(&mut self) -> Refused
        ensures error { result ≡ Refused.Failed }
        ensures state { system_in self.new ≡ system_in self.old }
        ensures refused { WasRefused true (system_answers self.old) (system_answers self.new) }
    {
        self.has_lost_entries = true;
        self.refuse()
    }

    // How a call that moves bytes is answered. None is interrupted once no more can be counted.
    fn turn(&mut self) -> Fault
        ensures state { system_in self.new ≡ system_in self.old }
        ensures answered { system_answers self.new ≡ system_answers self.old }
        ensures counted { result ≡ Fault.Interrupted → self.new.interruptions < 2 ^ 64 - 1 }
    {
        let fault = self.plan.turn();
        if fault == Fault::Interrupted && self.interruptions == u64::MAX {
            return Fault::None;
        }
        fault
    }

    // Interrupts a call.
    fn interrupt(&mut self) -> Refused
        requires { self.old.interruptions < 2 ^ 64 - 1 }
        ensures error { result ≡ Refused.Interrupted }
        ensures state { system_in self.new ≡ system_in self.old }
        ensures answered { system_answers self.new ≡ interrupted_once (system_answers self.old) }
    {
        self.interruptions += 1;
        Refused::Interrupted
    }

    // Whether a file was made.
    fn is_made(&self, file: FileId) -> bool {
        for event in self.events.as_slice() {
            if let Event::Made { file: made } = event {
                if *made == file {
                    return true;
                }
            }
        }
        false
    }

    // The bytes of a file.
    fn bytes(&self, file: FileId) -> Result<Vec<u8>, Refused>
        ensures { IfOk result (λ bytes. bytes.items ≡ ((system_in self.now).world.disk file).seen) }
    {
        match bytes_of(self.alloc, &self.events, file) {
            Ok(bytes) => Ok(bytes),
            Err(_) => Err(Refused::Failed),
        }
    }
}

impl SystemCalls for MemorySystem {
    ghost use Rattle.std.specs.Prelude.{true, drop, codes};
    ghost use Rattle.system_memory.specs.ShownState.{system_in, system_answers};
    ghost use Rattle.system_memory.specs.Laws.{found_stays};
    ghost use Rattle.system_memory.specs.MemoryState.{held_of};

    type Folder = MemoryFolder;

    type Locked = MemoryLocked;

    type File = MemoryFile;

    ghost tells = { true };

    ghost state = { system_in };

    ghost answered = { system_answers };

    ghost is_regular = { λ file. true };

    ghost leads = { codes "f/." };

    ghost number_of = { λ folder. 3 };

    ghost finds = { λ folder. true };

    ghost seen_may_stay = { λ s file told. s.stays file };

    ghost found_may_stay = { λ s file bytes told found. found_stays (drop s.taken s.input.items) (held_of s.events.items) file bytes s.bare found };

    fn open_folder(&mut self, _path: &str) -> Result<MemoryFolder, Refused> {
        if self.plan.is_refused() {
            return Err(self.refuse());
        }
        Ok(MemoryFolder)
    }

    fn number(&self, _folder: &MemoryFolder) -> u32 {
        3
    }

    fn lock(&mut self, _folder: MemoryFolder) -> Result<MemoryLocked, Refused> {
        if self.plan.is_refused() {
            return Err(self.refuse());
        }
        Ok(MemoryLocked)
    }

    fn reaches(&mut self, _folder: &MemoryLocked) -> Result<bool, Refused> {
        if self.plan.is_refused() {
            return Err(self.refuse());
        }
        Ok(true)
    }

    fn open(
        &mut self,
        _folder: &MemoryLocked,
        file: FileId,
        _name: &str,
        _access: Access,
    ) -> Result<MemoryFile, Refused> {
        if self.plan.is_refused() {
            return Err(self.refuse());
        }
        let Ok(bytes) = self.bytes(file) else {
            return Err(self.refuse());
        };
        if bytes.is_empty() && !self.is_made(file) {
            return Err(Refused::Missing);
        }
        Ok(MemoryFile { file })
    }

    fn make(
        &mut self,
        _folder: &MemoryLocked,
        file: FileId,
        _name: &str,
    ) -> Result<MemoryFile, Refused> {
        if self.plan.is_refused() {
            return Err(self.refuse());
        }
        let Ok(bytes) = self.bytes(file) else {
            return Err(self.refuse());
        };
        if !bytes.is_empty() || self.is_made(file) {
            return Err(self.refuse());
        }
        match note_made(&mut self.events, file) {
            Ok(()) => Ok(MemoryFile { file }),
            Err(_) => Err(self.refuse()),
        }
    }

    fn look(&mut self, _folder: &MemoryLocked, file: FileId, _name: &str) -> Result<Look, Refused> {
        if self.plan.is_refused() {
            return Err(self.refuse());
        }
        let Ok(bytes) = self.bytes(file) else {
            return Err(self.refuse());
        };
        Ok(Look {
            is_regular: true,
            length: bytes.len() as u64,
        })
    }

    fn look_at(&mut self, opened: &MemoryFile) -> Result<Look, Refused> {
        if self.plan.is_refused() {
            return Err(self.refuse());
        }
        let Ok(bytes) = self.bytes(opened.file) else {
            return Err(self.refuse());
        };
        Ok(Look {
            is_regular: true,
            length: bytes.len() as u64,
        })
    }

    fn read_at(
        &mut self,
        opened: &MemoryFile,
        at: u64,
        into: &mut [u8],
        from: usize,
    ) -> Result<usize, Refused> {
        let fault = self.turn();
        match fault {
            Fault::Refused => return Err(self.refuse()),
            Fault::Interrupted => return Err(self.interrupt()),
            Fault::None | Fault::Short => {}
        }
        let Ok(bytes) = self.bytes(opened.file) else {
            return Err(self.refuse());
        };
        let there = at + from as u64;
        let rest = bytes.get(there as usize..).unwrap_or(&[]);
        let count = moved(fault, rest.len().min(into.len() - from));
        into[from..from + count].copy_from_slice(&rest[..count]);
        Ok(count)
    }

    fn write_at(
        &mut self,
        opened: &MemoryFile,
        at: u64,
        bytes: &[u8],
        from: usize,
    ) -> Result<usize, Refused> {
        let fault = self.turn();
        if fault == Fault::Interrupted {
            return Err(self.interrupt());
        }
        let count = moved(fault, bytes.len() - from);
        if count == 0 {
            if !bytes.is_empty() {
                return Ok(0);
            }
        }
        let alloc = self.alloc;
        match note_wrote(alloc, &mut self.events, opened.file, at, bytes, from, count) {
            Ok(()) => {
                if fault == Fault::Refused {
                    return Err(self.refuse());
                }
                Ok(count)
            }
            Err(_) => Err(self.refuse()),
        }
    }

    fn sync_folder(&mut self, _folder: &MemoryLocked) -> Result<(), Refused> {
        if self.plan.is_refused() {
            let _ = note_lost(&mut self.events);
            return Err(self.refuse_entries());
        }
        match note_entered(&mut self.events) {
            Ok(()) => Ok(()),
            Err(_) => Err(self.refuse_entries()),
        }
    }

    fn sync_data(&mut self, opened: &MemoryFile) -> Result<(), Refused> {
        if self.plan.is_refused() {
            let _ = note_doubted(&mut self.events, opened.file);
            return Err(self.refuse());
        }
        match note_synced(&mut self.events, opened.file) {
            Ok(()) => Ok(()),
            Err(_) => Err(self.refuse()),
        }
    }

    fn read_input(&mut self, into: &mut [u8]) -> Result<usize, Refused> {
        let fault = self.turn();
        match fault {
            Fault::Refused => return Err(self.refuse()),
            Fault::Interrupted => return Err(self.interrupt()),
            Fault::None | Fault::Short => {}
        }
        let rest = &self.input[self.taken..];
        let count = moved(fault, into.len().min(rest.len()));
        into[..count].copy_from_slice(&rest[..count]);
        self.taken += count;
        Ok(count)
    }

    fn write_output(&mut self, bytes: &[u8], from: usize) -> Result<usize, Refused> {
        let fault = self.turn();
        match fault {
            Fault::Refused => return Err(self.refuse()),
            Fault::Interrupted => return Err(self.interrupt()),
            Fault::None | Fault::Short => {}
        }
        let count = moved(fault, bytes.len() - from);
        if count == 0 {
            return Ok(0);
        }
        match note_emitted(self.alloc, &mut self.events, bytes, from, count) {
            Ok(()) => Ok(count),
            Err(_) => Err(self.refuse()),
        }
    }

    fn handle_limit(&self) -> u64 {
        1024
    }
}
