// The machine: its files, its streams, the calls so far, and which of them fails.
ghost use Rattle.std.specs.Prelude.{◌≡◌, ◌≤◌, length, IfOk};

use host_trait::FileId;
use std::alloc::{AllocError, Global};
use std::cell::{Cell, RefCell};
use system_calls::{Access, Handle, Look, Refused, SystemCalls};

/// How the machine answers.
#[derive(Clone, Copy, PartialEq, Eq)]
pub enum Fault {
    /// As it should.
    None,
    /// It refuses. Half of a write is made.
    Refused,
    /// It is interrupted, where it moves bytes.
    Interrupted,
    /// It moves half of the bytes.
    Short,
    /// It is refused, and so is each later call. Nothing is done.
    Dead,
    /// There is no room: no file is made, nothing is written or put out, and no sync succeeds.
    Full,
    /// Nothing may be written.
    ReadOnly,
    /// Names aren't looked for in the folder.
    Unreached,
}

/// A file and its bytes.
#[derive(Drop)]
pub struct HeldFile {
    pub file: FileId,
    pub bytes: Vec<u8>,
}

// A file: what a read gives, what a crash leaves of it, and whether its entry lasts.
#[derive(Drop)]
struct Stored {
    file: FileId,
    bytes: Vec<u8>,
    lasting: Vec<u8>,
    is_entered: bool,
    is_pipe: bool,
}

/// A folder and streams in memory, the calls so far as one text, each behind the end of a line, and which call fails.
#[derive(Drop)]
pub struct Machine {
    alloc: Global,
    text: RefCell<String>,
    files: RefCell<Vec<Stored>>,
    input: RefCell<Vec<u8>>,
    pulled: Cell<usize>,
    output: RefCell<Vec<u8>>,
    next: Cell<i32>,
    calls: Cell<u64>,
    failing: Cell<u64>,
    fault: Cell<Fault>,
    limit: Cell<u64>,
}

// The place of a file among these.
fn place_of(files: &[Stored], file: FileId) -> Option<usize> {
    for (place, stored) in files.iter().enumerate() {
        if stored.file == file {
            return Some(place);
        }
    }
    None
}

// Puts these bytes into a file from there on. What lies between is zeros.
fn put(bytes: &mut Vec<u8>, at: usize, given: &[u8]) -> Result<(), AllocError> {
    for _ in 0..at {
        if bytes.len() >= at {
            break;
        }
        bytes.push(0)?;
    }
    for (place, byte) in given.iter().enumerate() {
        let target = at.wrapping_add(place);
        match bytes.get_mut(target) {
            Some(old) => *old = *byte,
            None => bytes.push(*byte)?,
        }
    }
    Ok(())
}

impl Machine {
    /// An empty folder, no input, and no call yet.
    pub fn new(alloc: Global) -> Machine {
        Machine {
            alloc,
            text: RefCell::new(String::new(alloc)),
            files: RefCell::new(Vec::new(alloc)),
            input: RefCell::new(Vec::new(alloc)),
            pulled: Cell::new(0),
            output: RefCell::new(Vec::new(alloc)),
            next: Cell::new(3),
            calls: Cell::new(0),
            failing: Cell::new(0),
            fault: Cell::new(Fault::None),
            limit: Cell::new(1024),
        }
    }

    /// An empty folder, and no call from here on. The next handle has this number.
    pub fn restart(&self, next: i32) {
        self.next.set(next);
        self.calls.set(0);
        self.failing.set(0);
        let _ = self.text.try_replace(String::new(self.alloc));
        let _ = self.files.try_replace(Vec::new(self.alloc));
    }

    /// A host that begins from here on may have so many handles.
    pub fn allow(&self, limit: u64) {
        self.limit.set(limit);
    }

    /// The nth call from here on is answered so, and where n is 0 each one.
    pub fn fail(&self, nth: u64, fault: Fault) {
        self.calls.set(0);
        self.failing.set(nth);
        self.fault.set(fault);
    }

    /// How many calls were made since then.
    pub fn calls(&self) -> u64 {
        self.calls.get()
    }

    fn turn(&self) -> Fault {
        let count = self.calls.get().saturating_add(1);
        self.calls.set(count);
        let failing = self.failing.get();
        let fault = self.fault.get();
        let goes_on = fault == Fault::Dead && failing < count;
        if failing == 0 || failing == count || goes_on {
            return fault;
        }
        Fault::None
    }

    // Whether this call is refused.
    fn turn_plain(&self) -> Result<(), Refused> {
        match self.turn() {
            Fault::Refused | Fault::Dead => Err(Refused::Failed),
            _ => Ok(()),
        }
    }

    // Whether this call, which needs room, is refused.
    fn turn_with_room(&self) -> Result<(), Refused> {
        match self.turn() {
            Fault::Refused | Fault::Dead | Fault::Full => Err(Refused::Failed),
            _ => Ok(()),
        }
    }

    fn note(&self, number: i32, what: &str) -> Result<(), Refused> {
        let line = format!(in self.alloc; "\n  {number} {what}").map_err(|_| Refused::Failed)?;
        match self.text.try_borrow_mut() {
            Ok(mut text) => text.push_str(line.as_str()).map_err(|_| Refused::Failed),
            Err(_) => Err(Refused::Failed),
        }
    }

    /// What was called since this was asked last.
    pub fn taken(&self) -> String {
        match self.text.try_replace(String::new(self.alloc)) {
            Ok(text) => text,
            Err(_) => String::new(self.alloc),
        }
    }

    /// This is the input from here on, and nothing was put out.
    pub fn give(&self, input: &[u8]) -> Result<(), AllocError> {
        self.pulled.set(0);
        let given = input.to_vec(self.alloc)?;
        let _ = self.input.try_replace(given);
        let _ = self.output.try_replace(Vec::new(self.alloc));
        Ok(())
    }

    /// What was put out since the input was given.
    pub fn put_out(&self) -> Result<Vec<u8>, AllocError> {
        match self.output.try_borrow() {
            Ok(output) => output.to_vec(self.alloc),
            Err(_) => Err(AllocError),
        }
    }

    // Moves the next bytes of the input, or half of those that there is room for.
    fn pull(&self, fault: Fault, into: &mut [u8]) -> Result<usize, Refused>
        ensures { IfOk result (λ n. n ≤ length into.old) }
    {
        let Ok(input) = self.input.try_borrow() else {
            return Err(Refused::Failed);
        };
        let from = self.pulled.get();
        let rest = input.get(from..).unwrap_or(&[]);
        let count = moved(fault, rest.len().min(into.len()));
        into[..count].copy_from_slice(&rest[..count]);
        self.pulled.set(from.wrapping_add(count));
        Ok(count)
    }

    // Puts some bytes out.
    fn emit(&self, bytes: &[u8]) -> Result<(), Refused> {
        match self.output.try_borrow_mut() {
            Ok(mut output) => { output.extend_from_slice(bytes).map_err(|_| Refused::Failed) }
            Err(_) => Err(Refused::Failed),
        }
    }

    fn number(&self) -> i32 {
        let number = self.next.get();
        self.next.set(number.wrapping_add(1));
        number
    }

    /// Takes a file away.
    pub fn lose(&self, file: FileId) {
        if let Ok(mut files) = self.files.try_borrow_mut() {
            files.retain(|stored| stored.file != file);
        }
    }

    /// Puts a file, or a pipe, into the folder. It lasts.
    pub fn lay(&self, file: FileId, bytes: &[u8], is_pipe: bool) -> Result<(), AllocError> {
        self.lose(file);
        let stored = Stored {
            file,
            bytes: bytes.to_vec(self.alloc)?,
            lasting: bytes.to_vec(self.alloc)?,
            is_entered: true,
            is_pipe,
        };
        match self.files.try_borrow_mut() {
            Ok(mut files) => {
                files.push(stored)?;
                Ok(())
            }
            Err(_) => Err(AllocError),
        }
    }

    /// Forgets what doesn't last: the files whose entries weren't synced, and the bytes that weren't.
    pub fn crash(&self) -> Result<(), AllocError> {
        let old = match self.files.try_replace(Vec::new(self.alloc)) {
            Ok(old) => old,
            Err(_) => return Err(AllocError),
        };
        for stored in &old {
            if stored.is_entered {
                self.lay(stored.file, &stored.lasting, stored.is_pipe)?;
            }
        }
        Ok(())
    }

    /// The regular files of the folder, with their bytes.
    pub fn held(&self) -> Result<Vec<HeldFile>, AllocError> {
        let Ok(files) = self.files.try_borrow() else {
            return Err(AllocError);
        };
        let mut held = Vec::new(self.alloc);
        for stored in files.iter() {
            if !stored.is_pipe {
                let bytes = stored.bytes.to_vec(self.alloc)?;
                held.push(HeldFile {
                    file: stored.file,
                    bytes,
                })?;
            }
        }
        Ok(held)
    }

    /// The folder has these files and no others, and all of them last. No call from here on.
    pub fn hold(&self, held: &[HeldFile]) -> Result<(), AllocError> {
        self.restart(3);
        for one in held {
            self.lay(one.file, &one.bytes, false)?;
        }
        Ok(())
    }

    fn look(&self, file: FileId) -> Result<Look, Refused> {
        match self.files.try_borrow() {
            Ok(files) => match files.iter().find(|stored| stored.file == file) {
                Some(stored) => Ok(Look {
                    is_regular: !stored.is_pipe,
                    length: stored.bytes.len() as u64,
                }),
                None => Err(Refused::Missing),
            },
            Err(_) => Err(Refused::Failed),
        }
    }

    /// The bytes of a file; none where there is no file.
    pub fn bytes(&self, file: FileId) -> Result<Vec<u8>, AllocError> {
        match self.files.try_borrow() {
            Ok(files) => match files.iter().find(|stored| stored.file == file) {
                Some(stored) => stored.bytes.to_vec(self.alloc),
                None => Ok(Vec::new(self.alloc)),
            },
            Err(_) => Err(AllocError),
        }
    }

    fn write(&self, file: FileId, at: u64, given: &[u8]) -> Result<(), Refused> {
        let Ok(mut files) = self.files.try_borrow_mut() else {
            return Err(Refused::Failed);
        };
        let Some(place) = place_of(&files, file) else {
            return Err(Refused::Failed);
        };
        match files.get_mut(place) {
            Some(stored) => {
                put(&mut stored.bytes, at as usize, given).map_err(|_| Refused::Failed)
            }
            None => Err(Refused::Failed),
        }
    }

    fn settle(&self, file: FileId) -> Result<(), Refused> {
        let bytes = self.bytes(file).map_err(|_| Refused::Failed)?;
        let Ok(mut files) = self.files.try_borrow_mut() else {
            return Err(Refused::Failed);
        };
        let Some(place) = place_of(&files, file) else {
            return Err(Refused::Failed);
        };
        if let Some(stored) = files.get_mut(place) {
            stored.lasting = bytes;
        }
        Ok(())
    }

    fn enter_all(&self) -> Result<(), Refused> {
        match self.files.try_borrow_mut() {
            Ok(mut files) => {
                for stored in files.iter_mut() {
                    stored.is_entered = true;
                }
                Ok(())
            }
            Err(_) => Err(Refused::Failed),
        }
    }

    fn make(&self, file: FileId) -> Result<(), Refused> {
        if self.look(file).is_ok() {
            return Err(Refused::Failed);
        }
        self.lay(file, &[], false).map_err(|_| Refused::Failed)?;
        match self.files.try_borrow_mut() {
            Ok(mut files) => {
                if let Some(stored) = files.last_mut() {
                    stored.is_entered = false;
                }
                Ok(())
            }
            Err(_) => Err(Refused::Failed),
        }
    }
}

/// A handle of the machine's folder.
pub struct OpenFolder<'a> {
    machine: &'a Machine,
    number: i32,
}

impl<'a> Drop for OpenFolder<'a> {
    fn drop(self) {
        let OpenFolder { machine, number } = self;
        let _ = machine.note(number, "close");
    }
}

/// A handle of a file of the machine.
pub struct OpenedFile<'a> {
    machine: &'a Machine,
    number: i32,
    file: FileId,
}

impl<'a> Drop for OpenedFile<'a> {
    fn drop(self) {
        let OpenedFile {
            machine,
            number,
            file,
        } = self;
        let _ = file;
        let _ = machine.note(number, "close");
    }
}

impl<'a> Handle for OpenedFile<'a> {
    ghost file = { λ handle. handle.file };
}

/// The calls of a machine, which tell nothing.
#[derive(Clone, Copy)]
pub struct OnMachine<'a>(pub &'a Machine);

impl<'a> OnMachine<'a> {
    fn opened(&self, file: FileId, what: &str, name: &str) -> Result<OpenedFile<'a>, Refused>
        ensures { IfOk result (λ opened. opened.file ≡ file) }
    {
        let machine = self.0;
        let number = machine.number();
        let line = format!(in machine.alloc; "{what} {name}").map_err(|_| Refused::Failed)?;
        machine.note(number, line.as_str())?;
        Ok(OpenedFile {
            machine,
            number,
            file,
        })
    }
}

// How many bytes a call moves.
fn moved(fault: Fault, count: usize) -> usize
    ensures { result ≤ count }
{
    match fault {
        Fault::Short | Fault::Refused => count - count / 2,
        _ => count,
    }
}

impl<'a> SystemCalls for OnMachine<'a> {
    ghost use Rattle.std.specs.Prelude.{false, []};
    ghost use Rattle.host_trait.specs.World.{empty_world, untold};
    ghost use Rattle.system_calls.specs.Answers.{nothing_answered};

    type Folder = OpenFolder<'a>;

    type Locked = OpenFolder<'a>;

    type File = OpenedFile<'a>;

    ghost tells = { false };

    ghost state = { λ machine. record { world = empty_world; is_entered = λ file. false; is_doubtful = λ file. false; has_lost = false } };

    ghost answered = { λ machine. nothing_answered };

    ghost is_regular = { λ file. false };

    ghost leads = { [] };

    ghost number_of = { λ folder. 0 };

    ghost finds = { λ folder. false };

    ghost seen_may_stay = { λ machine file told. untold told };

    ghost found_may_stay = { λ machine file bytes told found. untold told };

    fn open_folder(&mut self, path: &str) -> Result<OpenFolder<'a>, Refused> {
        let machine = self.0;
        machine.turn_plain()?;
        let number = machine.number();
        let line = format!(in machine.alloc; "open {path}").map_err(|_| Refused::Failed)?;
        machine.note(number, line.as_str())?;
        Ok(OpenFolder { machine, number })
    }

    fn number(&self, folder: &OpenFolder<'a>) -> u32 {
        u32::try_from(folder.number).unwrap_or(0)
    }

    fn lock(&mut self, folder: OpenFolder<'a>) -> Result<OpenFolder<'a>, Refused> {
        self.0.note(folder.number, "lock")?;
        self.0.turn_plain()?;
        Ok(folder)
    }

    fn reaches(&mut self, folder: &OpenFolder<'a>) -> Result<bool, Refused> {
        self.0.note(folder.number, "reaches")?;
        match self.0.turn() {
            Fault::Refused | Fault::Dead => Err(Refused::Failed),
            Fault::Unreached => Ok(false),
            _ => Ok(true),
        }
    }

    fn open(
        &mut self,
        _folder: &OpenFolder<'a>,
        file: FileId,
        name: &str,
        access: Access,
    ) -> Result<OpenedFile<'a>, Refused> {
        let fault = self.0.turn();
        if access == Access::Both && fault == Fault::Unreached {
            return Err(Refused::Missing);
        }
        if fault == Fault::Refused || fault == Fault::Dead {
            return Err(Refused::Failed);
        }
        self.0.look(file)?;
        match (access, fault) {
            (Access::Read, _) => self.opened(file, "open to read", name),
            (Access::Both, Fault::ReadOnly) => Err(Refused::ReadOnly),
            (Access::Both, _) => self.opened(file, "open", name),
        }
    }

    fn make(
        &mut self,
        _folder: &OpenFolder<'a>,
        file: FileId,
        name: &str,
    ) -> Result<OpenedFile<'a>, Refused> {
        match self.0.turn() {
            Fault::Refused | Fault::Dead | Fault::Full => Err(Refused::Failed),
            Fault::ReadOnly => Err(Refused::ReadOnly),
            _ => {
                self.0.make(file)?;
                self.opened(file, "make", name)
            }
        }
    }

    fn look(
        &mut self,
        folder: &OpenFolder<'a>,
        file: FileId,
        _name: &str,
    ) -> Result<Look, Refused> {
        self.0.note(folder.number, "look")?;
        self.0.turn_plain()?;
        self.0.look(file)
    }

    fn look_at(&mut self, opened: &OpenedFile<'a>) -> Result<Look, Refused> {
        self.0.note(opened.number, "look")?;
        self.0.turn_plain()?;
        self.0.look(opened.file)
    }

    fn read_at(
        &mut self,
        opened: &OpenedFile<'a>,
        at: u64,
        into: &mut [u8],
        from: usize,
    ) -> Result<usize, Refused> {
        let machine = self.0;
        let into = &mut into[from..];
        let size = into.len();
        let there = at + from as u64;
        let line = format!(in machine.alloc; "read {size} at {there}").map_err(
            |_| Refused::Failed,
        )?;
        machine.note(opened.number, line.as_str())?;
        let fault = machine.turn();
        match fault {
            Fault::Refused | Fault::Dead => return Err(Refused::Failed),
            Fault::Interrupted => return Err(Refused::Interrupted),
            _ => {}
        }
        let bytes = machine.bytes(opened.file).map_err(|_| Refused::Failed)?;
        let rest = bytes.get(there as usize..).unwrap_or(&[]);
        let count = moved(fault, rest.len().min(size));
        into[..count].copy_from_slice(&rest[..count]);
        Ok(count)
    }

    fn write_at(
        &mut self,
        opened: &OpenedFile<'a>,
        at: u64,
        bytes: &[u8],
        from: usize,
    ) -> Result<usize, Refused> {
        let machine = self.0;
        let rest = &bytes[from..];
        let there = at + from as u64;
        let line = format!(in machine.alloc; "write {rest:?} at {there}").map_err(
            |_| Refused::Failed,
        )?;
        machine.note(opened.number, line.as_str())?;
        let fault = machine.turn();
        match fault {
            Fault::Interrupted => return Err(Refused::Interrupted),
            Fault::Dead | Fault::Full => return Err(Refused::Failed),
            _ => {}
        }
        let count = moved(fault, rest.len());
        machine.write(opened.file, there, &rest[..count])?;
        if fault == Fault::Refused {
            return Err(Refused::Failed);
        }
        Ok(count)
    }

    fn sync_folder(&mut self, folder: &OpenFolder<'a>) -> Result<(), Refused> {
        self.0.note(folder.number, "sync folder")?;
        self.0.turn_with_room()?;
        self.0.enter_all()
    }

    fn sync_data(&mut self, opened: &OpenedFile<'a>) -> Result<(), Refused> {
        self.0.note(opened.number, "sync")?;
        self.0.turn_with_room()?;
        self.0.settle(opened.file)
    }

    fn read_input(&mut self, into: &mut [u8]) -> Result<usize, Refused> {
        let fault = self.0.turn();
        match fault {
            Fault::Refused | Fault::Dead => return Err(Refused::Failed),
            Fault::Interrupted => return Err(Refused::Interrupted),
            _ => {}
        }
        let count = self.0.pull(fault, into)?;
        Ok(count)
    }

    fn write_output(&mut self, bytes: &[u8], from: usize) -> Result<usize, Refused> {
        let rest = &bytes[from..];
        let line = format!(in self.0.alloc; "put out {rest:?}").map_err(|_| Refused::Failed)?;
        self.0.note(1, line.as_str())?;
        let fault = self.0.turn();
        match fault {
            Fault::Refused | Fault::Dead | Fault::Full => return Err(Refused::Failed),
            Fault::Interrupted => return Err(Refused::Interrupted),
            _ => {}
        }
        let count = moved(fault, rest.len());
        self.0.emit(&rest[..count])?;
        Ok(count)
    }

    fn handle_limit(&self) -> u64 {
        self.0.limit.get()
    }
}
