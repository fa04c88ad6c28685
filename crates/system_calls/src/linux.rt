// The system's calls by std.
ghost use Rattle.std.specs.Prelude.{◌≡◌, IfOk};

use crate::calls::{Access, Handle, Look, SystemCalls};
use crate::refusal::Refused;
use arrayvec::ArrayString;
use host_trait::FileId;
use std::fmt::Write as _;
use std::fs::{self, File, Metadata, OpenOptions};
use std::io::{self, ErrorKind, Read, Write};
use std::os::fd::AsRawFd;
use std::os::unix::fs::FileExt;

/// An open file of the folder.
#[derive(Drop)]
pub struct InFolder {
    file: FileId,
    opened: File,
}

impl Handle for InFolder {
    ghost file = { λ handle. handle.file };
}

/// Linux, by std, with a reader as its input, and a writer that holds nothing back as its output. It tells nothing of what it
/// holds.
///
/// A file is looked for under `/proc/self/fd`, by the folder's handle. A call that std makes again by itself after an
/// interruption (opening, locking, syncing) isn't interrupted.
#[derive(Drop)]
pub struct Linux<'a, R, W> {
    rt: &'a HostRuntime,
    reader: R,
    writer: W,
}

impl<'a, R: Read, W: Write> Linux<'a, R, W> {
    /// The system of this process.
    pub fn new(rt: &'a HostRuntime, reader: R, writer: W) -> Linux<'a, R, W> {
        Linux { rt, reader, writer }
    }
}

// Why std says that a call failed.
fn refused(error: io::Error) -> Refused {
    let kind = error.kind();
    if kind == ErrorKind::NotFound {
        Refused::Missing
    } else if kind == ErrorKind::PermissionDenied || kind == ErrorKind::ReadOnlyFilesystem {
        Refused::ReadOnly
    } else if kind == ErrorKind::Interrupted {
        Refused::Interrupted
    } else {
        Refused::Failed
    }
}

// The path of a name in an open folder.
fn path_in(folder: &File, name: &str) -> Result<ArrayString<128>, Refused> {
    let mut path = ArrayString::new();
    let number = folder.as_raw_fd();
    match write!(path, "/proc/self/fd/{number}/{name}") {
        Ok(()) => Ok(path),
        Err(_) => Err(Refused::Failed),
    }
}

// How many files may be open by these rows of limits, where they tell it as a number: `Max open files SOFT HARD files`.
fn soft_limit_of_files(limits: &str) -> Option<u64> {
    for row in limits.lines() {
        let Some(numbers) = row.strip_prefix("Max open files") else {
            continue;
        };
        let soft = numbers.split_whitespace().next()?;
        return soft.parse::<u64>().ok();
    }
    None
}

fn look_of(found: &Metadata) -> Look {
    Look {
        is_regular: found.is_file(),
        length: found.len(),
    }
}

impl<'a, R: Read, W: Write> Linux<'a, R, W> {
    fn open_by(
        &self,
        how: &OpenOptions,
        folder: &File,
        file: FileId,
        name: &str,
    ) -> Result<InFolder, Refused>
        ensures { IfOk result (λ opened. opened.file ≡ file) }
    {
        let path = path_in(folder, name)?;
        match how.open(self.rt, path.as_str()) {
            Ok(opened) => Ok(InFolder { file, opened }),
            Err(error) => Err(refused(error)),
        }
    }
}

impl<'a, R: Read, W: Write> SystemCalls for Linux<'a, R, W> {
    ghost use Rattle.std.specs.Prelude.{false, []};
    ghost use Rattle.host_trait.specs.World.{empty_world, untold};
    ghost use Rattle.system_calls.specs.Answers.{nothing_answered};

    type Folder = File;

    type Locked = File;

    type File = InFolder;

    ghost tells = { false };

    ghost state = { λ linux. record { world = empty_world; is_entered = λ file. false; is_doubtful = λ file. false; has_lost = false } };

    ghost answered = { λ linux. nothing_answered };

    ghost is_regular = { λ file. false };

    ghost leads = { [] };

    ghost number_of = { λ folder. 0 };

    ghost finds = { λ folder. false };

    ghost seen_may_stay = { λ linux file told. untold told };

    ghost found_may_stay = { λ linux file bytes told found. untold told };

    fn open_folder(&mut self, path: &str) -> Result<File, Refused> {
        match fs::open(self.rt, path) {
            Ok(opened) => Ok(opened),
            Err(error) => Err(refused(error)),
        }
    }

    fn number(&self, folder: &File) -> u32 {
        u32::try_from(folder.as_raw_fd()).unwrap_or(0)
    }

    fn lock(&mut self, folder: File) -> Result<File, Refused> {
        match folder.try_lock() {
            Ok(()) => Ok(folder),
            Err(_) => Err(Refused::Failed),
        }
    }

    fn reaches(&mut self, folder: &File) -> Result<bool, Refused> {
        let path = path_in(folder, ".")?;
        match fs::metadata(self.rt, path.as_str()) {
            Ok(found) => Ok(found.is_dir()),
            Err(error) => Err(refused(error)),
        }
    }

    fn open(
        &mut self,
        folder: &File,
        file: FileId,
        name: &str,
        access: Access,
    ) -> Result<InFolder, Refused> {
        let mut how = OpenOptions::new();
        how.read(true).write(access == Access::Both);
        self.open_by(&how, folder, file, name)
    }

    fn make(&mut self, folder: &File, file: FileId, name: &str) -> Result<InFolder, Refused> {
        let mut how = OpenOptions::new();
        how.read(true).write(true).create_new(true);
        self.open_by(&how, folder, file, name)
    }

    fn look(&mut self, folder: &File, _file: FileId, name: &str) -> Result<Look, Refused> {
        let path = path_in(folder, name)?;
        match fs::metadata(self.rt, path.as_str()) {
            Ok(found) => Ok(look_of(&found)),
            Err(error) => Err(refused(error)),
        }
    }

    fn look_at(&mut self, opened: &InFolder) -> Result<Look, Refused> {
        match opened.opened.metadata() {
            Ok(found) => Ok(look_of(&found)),
            Err(error) => Err(refused(error)),
        }
    }

    fn read_at(
        &mut self,
        opened: &InFolder,
        at: u64,
        into: &mut [u8],
        from: usize,
    ) -> Result<usize, Refused> {
        match opened.opened.read_at(&mut into[from..], at + from as u64) {
            Ok(count) => Ok(count),
            Err(error) => Err(refused(error)),
        }
    }

    fn write_at(
        &mut self,
        opened: &InFolder,
        at: u64,
        bytes: &[u8],
        from: usize,
    ) -> Result<usize, Refused> {
        match opened.opened.write_at(&bytes[from..], at + from as u64) {
            Ok(count) => Ok(count),
            Err(error) => Err(refused(error)),
        }
    }

    fn sync_folder(&mut self, folder: &File) -> Result<(), Refused> {
        match folder.sync_all() {
            Ok(()) => Ok(()),
            Err(error) => Err(refused(error)),
        }
    }

    fn sync_data(&mut self, opened: &InFolder) -> Result<(), Refused> {
        match opened.opened.sync_data() {
            Ok(()) => Ok(()),
            Err(error) => Err(refused(error)),
        }
    }

    fn read_input(&mut self, into: &mut [u8]) -> Result<usize, Refused> {
        match self.reader.read(into) {
            Ok(count) => Ok(count),
            Err(error) => Err(refused(error)),
        }
    }

    fn write_output(&mut self, bytes: &[u8], from: usize) -> Result<usize, Refused> {
        match self.writer.write(&bytes[from..]) {
            Ok(count) => Ok(count),
            Err(error) => Err(refused(error)),
        }
    }

    fn handle_limit(&self) -> u64 {
        match fs::read_to_string(self.rt, "/proc/self/limits") {
            Ok(limits) => soft_limit_of_files(&limits).unwrap_or(0),
            Err(_) => 0,
        }
    }
}
