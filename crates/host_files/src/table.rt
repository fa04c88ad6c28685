// How often calls on each channel have failed; and of the files that are ready, whether a sync of each has, and whether it was seen to
// have bytes.
ghost use Rattle.std.specs.Prelude.{◌≡◌, ◌≢◌, ◌≤◌, false, IsTrue, IfOk, OnOk};
ghost use Rattle.host_trait.specs.Files.{StaysReady};
ghost use Rattle.host_trait.specs.Faults.{Rose};
ghost use Rattle.host_trait.specs.declared.channels.FileId.{FileId};
ghost use Rattle.host_files.specs.Table.{faults_in, is_lost, is_known, had_bytes_in, AreAlwaysKnown, SameFiles, SameHadBytes, StayLost};

use base_types::AscendingMap;
use host_trait::{Channel, Failed, FileId};
use std::alloc::{AllocError, Global};
use system_calls::Refused;

/// What is kept of a file that is ready: how often calls on it have failed, up to the last value of a `u64`, whether a sync of it
/// has, and whether it was seen to have bytes.
#[derive(Clone, Copy)]
pub struct Known {
    pub faults: u64,
    pub is_lost: bool,
    pub had_bytes: bool,
}

/// What a folder has to know of the file that is asked.
#[derive(Clone, Copy)]
pub struct Asked<'a> {
    pub file: FileId,
    pub name: &'a str,
    pub is_lost: bool,
    pub had_bytes: bool,
}

// Gives a file an entry, unless it has one. Without memory none is given.
fn enter(files: &mut AscendingMap<FileId, Known>, file: FileId) -> Result<(), AllocError>
    ensures known { OnOk result (IsTrue (is_known files.new file)) }
    ensures stays { StaysReady (is_known files.old) (is_known files.new) }
    ensures faults { (other : FileId) → faults_in files.new other ≡ faults_in files.old other }
    ensures lost { (other : FileId) → is_lost files.new other ≡ is_lost files.old other }
    ensures bytes { SameHadBytes files.old files.new }
{
    if files.get(file).is_some() {
        return Ok(());
    }
    files.insert(
        file,
        Known {
            faults: 0,
            is_lost: false,
            had_bytes: false,
        },
    )?;
    Ok(())
}

// One more, up to the last value.
fn one_more(count: u64) -> u64
    ensures rose { Rose count result }
    ensures later { count ≤ result }
{
    count.saturating_add(1)
}

// Counts a fault of a file.
fn raise(files: &mut AscendingMap<FileId, Known>, file: FileId)
    requires { IsTrue (is_known files.old file) }
    ensures rose { Rose (faults_in files.old file) (faults_in files.new file) }
    ensures later { faults_in files.old file ≤ faults_in files.new file }
    ensures others { (other : FileId) → other ≢ file → faults_in files.new other ≡ faults_in files.old other }
    ensures lost { (other : FileId) → is_lost files.new other ≡ is_lost files.old other }
    ensures bytes { SameHadBytes files.old files.new }
    ensures files { SameFiles files.old files.new }
{
    if let Some(known) = files.get(file).copied() {
        let faults = one_more(known.faults);
        files.replace(file, Known { faults, ..known });
    }
}

// Notes that a sync of a file has failed.
fn lose(files: &mut AscendingMap<FileId, Known>, file: FileId)
    requires { IsTrue (is_known files.old file) }
    ensures lost { IsTrue (is_lost files.new file) }
    ensures others { (other : FileId) → other ≢ file → is_lost files.new other ≡ is_lost files.old other }
    ensures stay { StayLost files.old files.new }
    ensures bytes { SameHadBytes files.old files.new }
    ensures faults { (other : FileId) → faults_in files.new other ≡ faults_in files.old other }
    ensures files { SameFiles files.old files.new }
{
    if let Some(known) = files.get(file).copied() {
        files.replace(
            file,
            Known {
                is_lost: true,
                ..known
            },
        );
    }
}

// Notes that a file has bytes, so that it is there for good.
fn note_bytes(files: &mut AscendingMap<FileId, Known>, file: FileId)
    requires { IsTrue (is_known files.old file) }
    ensures noted { IsTrue (had_bytes_in files.new file) }
    ensures others { (other : FileId) → other ≢ file → had_bytes_in files.new other ≡ had_bytes_in files.old other }
    ensures faults { (other : FileId) → faults_in files.new other ≡ faults_in files.old other }
    ensures lost { (other : FileId) → is_lost files.new other ≡ is_lost files.old other }
    ensures files { SameFiles files.old files.new }
{
    if let Some(known) = files.get(file).copied() {
        files.replace(
            file,
            Known {
                had_bytes: true,
                ..known
            },
        );
    }
}

// The program and manager files of both slots.
fn first_files(alloc: Global) -> Result<AscendingMap<FileId, Known>, AllocError>
    ensures always { IfOk result AreAlwaysKnown }
    ensures faults { IfOk result (λ files. (file : FileId) → faults_in files file ≡ 0) }
    ensures bytes { IfOk result (λ files. (file : FileId) → had_bytes_in files file ≡ false) }
{
    let mut files = AscendingMap::new(alloc);
    enter(&mut files, FileId::Program { slot: 0 })?;
    enter(&mut files, FileId::Program { slot: 1 })?;
    enter(&mut files, FileId::Manager { slot: 0 })?;
    enter(&mut files, FileId::Manager { slot: 1 })?;
    Ok(files)
}

/// How often calls on the streams have failed, and the files of a folder that are ready. The program and manager files of both slots
/// always are.
#[derive(Drop)]
pub struct Table {
    input_faults: u64,
    output_faults: u64,
    files: AscendingMap<FileId, Known>,
    ghost always: { AreAlwaysKnown files },
}

impl Table {
    ghost use Rattle.std.specs.Prelude.{◌≡◌, ◌≢◌, Ok, is_ok, false, IsTrue, IfOk, OnOk, OnErr};
    ghost use Rattle.host_trait.specs.Files.{MayAsk, StaysReady};
    ghost use Rattle.host_trait.specs.declared.channels.FileId.{FileId};
    ghost use Rattle.host_trait.specs.declared.channels.Channel.{Channel};
    ghost use Rattle.host_trait.specs.declared.channels.Channel.TheVariants.{Input, Output, File};
    ghost use Rattle.host_files.specs.Table.{is_lost, had_bytes_in, SameLost, SameHadBytes, StayLost};
    ghost use Rattle.host_files.specs.CountedCalls.{counts_in, ready_in, CountsCall};

    /// No grain file, and no faults.
    pub fn new(alloc: Global) -> Result<Table, AllocError>
        ensures faults { IfOk result (λ table. (channel : Channel) → counts_in table channel ≡ 0) }
        ensures bytes { IfOk result (λ table. (file : FileId) → had_bytes_in table.files file ≡ false) }
    {
        let files = first_files(alloc)?;
        Ok(Table {
            input_faults: 0,
            output_faults: 0,
            files,
        })
    }

    /// What the folder has to know of a file, of which this is the name.
    pub fn asked<'a>(&self, file: FileId, name: &'a str) -> Asked<'a>
        ensures file { result.file ≡ file }
        ensures name { result.name.now ≡ name.now }
        ensures lost { result.is_lost ≡ is_lost self.now.files file }
        ensures bytes { result.had_bytes ≡ had_bytes_in self.now.files file }
    {
        match self.files.get(file) {
            Some(known) => Asked {
                file,
                name,
                is_lost: known.is_lost,
                had_bytes: known.had_bytes,
            },
            None => Asked {
                file,
                name,
                is_lost: false,
                had_bytes: false,
            },
        }
    }

    /// How often calls on a channel have failed; 0 for a file that isn't ready.
    pub fn faults(&self, channel: Channel) -> u64
        ensures { result ≡ counts_in self.now channel }
    {
        match channel {
            Channel::Input => self.input_faults,
            Channel::Output => self.output_faults,
            Channel::File(file) => match self.files.get(file) {
                Some(known) => known.faults,
                None => 0,
            },
        }
    }

    /// Makes a file ready. Without memory all stays as it was.
    pub fn ready(&mut self, file: FileId) -> Result<(), AllocError>
        ensures known { OnOk result (IsTrue (ready_in self.new file)) }
        ensures stays { StaysReady (ready_in self.old) (ready_in self.new) }
        ensures faults { (channel : Channel) → counts_in self.new channel ≡ counts_in self.old channel }
        ensures lost { (other : FileId) → is_lost self.new.files other ≡ is_lost self.old.files other }
        ensures bytes { SameHadBytes self.old.files self.new.files }
    {
        enter(&mut self.files, file)?;
        Ok(())
    }

    /// Passes on what a call on the input answered, and counts it where it failed.
    pub fn count_input<T>(&mut self, answer: Result<T, Refused>) -> Result<T, Failed>
        ensures ok { IfOk result (λ value. answer ≡ Ok value) }
        ensures answer { is_ok result ≡ is_ok answer }
        ensures counts { CountsCall Input result self.old self.new }
        ensures lost { SameLost self.old.files self.new.files }
        ensures bytes { SameHadBytes self.old.files self.new.files }
    {
        match answer {
            Ok(value) => Ok(value),
            Err(_) => {
                self.input_faults = one_more(self.input_faults);
                Err(Failed)
            }
        }
    }

    /// Passes on what a call on the output answered, and counts it where it failed.
    pub fn count_output<T>(&mut self, answer: Result<T, Refused>) -> Result<T, Failed>
        ensures ok { IfOk result (λ value. answer ≡ Ok value) }
        ensures answer { is_ok result ≡ is_ok answer }
        ensures counts { CountsCall Output result self.old self.new }
        ensures lost { SameLost self.old.files self.new.files }
        ensures bytes { SameHadBytes self.old.files self.new.files }
    {
        match answer {
            Ok(value) => Ok(value),
            Err(_) => {
                self.output_faults = one_more(self.output_faults);
                Err(Failed)
            }
        }
    }

    /// Passes on what a call on a file answered, and counts it where it failed. Where it showed that the file has bytes, that is
    /// noted.
    pub fn count<T>(
        &mut self,
        file: FileId,
        answer: Result<T, Refused>,
        has_bytes: bool,
    ) -> Result<T, Failed>
        requires { MayAsk (ready_in self.old) file }
        ensures ok { IfOk result (λ value. answer ≡ Ok value) }
        ensures answer { is_ok result ≡ is_ok answer }
        ensures noted { OnOk result (IsTrue has_bytes → IsTrue (had_bytes_in self.new.files file)) }
        ensures unnoted { has_bytes ≡ false → SameHadBytes self.old.files self.new.files }
        ensures failed { OnErr result (SameHadBytes self.old.files self.new.files) }
        ensures others { (other : FileId) → other ≢ file → had_bytes_in self.new.files other ≡ had_bytes_in self.old.files other }
        ensures lost { SameLost self.old.files self.new.files }
        ensures counts { CountsCall (File file) result self.old self.new }
        ensures stay { StayLost self.old.files self.new.files }
    {
        match answer {
            Ok(value) => {
                if has_bytes {
                    note_bytes(&mut self.files, file);
                }
                Ok(value)
            }
            Err(_) => {
                raise(&mut self.files, file);
                Err(Failed)
            }
        }
    }

    /// Passes on what a sync of a file answered. Where it failed, that is counted, and the file is lost.
    pub fn count_sync(&mut self, file: FileId, answer: Result<(), Refused>) -> Result<(), Failed>
        requires { MayAsk (ready_in self.old) file }
        ensures answer { is_ok result ≡ is_ok answer }
        ensures counts { CountsCall (File file) result self.old self.new }
        ensures lost { OnErr result (IsTrue (is_lost self.new.files file)) }
        ensures calm { OnOk result (SameLost self.old.files self.new.files) }
        ensures others { (other : FileId) → other ≢ file → is_lost self.new.files other ≡ is_lost self.old.files other }
        ensures bytes { SameHadBytes self.old.files self.new.files }
        ensures stay { StayLost self.old.files self.new.files }
    {
        match answer {
            Ok(()) => Ok(()),
            Err(_) => {
                raise(&mut self.files, file);
                lose(&mut self.files, file);
                Err(Failed)
            }
        }
    }
}
