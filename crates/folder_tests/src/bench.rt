ghost use Rattle.std.specs.Prelude.{ℕ, ◌≤◌, IsTrue};
ghost use Rattle.host_trait.specs.Files.{HasSlot};

use crate::host_answers::add_told;
use crate::steps::{Step, add_answer, bytes_of, file_of};
use crate::streams::{add_machine_streams, add_standard, add_streams};
use crate::sweep::add_sweep;
use host_files::FolderHost;
use host_trait::{Channel, FileId};
use std::alloc::{AllocError, Global};
use std::{fs, io, mem};
use system_calls::{Linux, SystemCalls};
use system_machine::{Fault, Machine, OnMachine};

type Machined<'a> = FolderHost<OnMachine<'a>>;

type Real<'a> = FolderHost<Linux<'a, io::Empty, io::Sink>>;

// Which host is asked.
#[derive(Clone, Copy)]
enum Asked {
    Machine,
    First,
    Second,
}

/// A host over the machine, and two over real folders, which are taken by their first calls.
#[derive(Drop)]
pub struct Bench<'a> {
    rt: &'a HostRuntime,
    machine: &'a Machine,
    machined: Machined<'a>,
    first: Real<'a>,
    second: Real<'a>,
    asked: Asked,
}

fn host_over(alloc: Global, machine: &Machine) -> Result<Machined<'_>, AllocError> {
    FolderHost::new(alloc, OnMachine(machine), "f")
}

// A host over a real folder, with no input.
fn real_over<'a>(rt: &'a HostRuntime, folder: &str) -> Result<Real<'a>, AllocError> {
    let linux = Linux::new(rt, io::empty(), io::sink());
    FolderHost::new(rt.alloc(), linux, folder)
}

fn two_real<'a>(rt: &'a HostRuntime) -> Result<(Real<'a>, Real<'a>), AllocError> {
    let first = real_over(rt, "")?;
    match real_over(rt, "") {
        Ok(second) => Ok((first, second)),
        Err(error) => {
            drop(first);
            Err(error)
        }
    }
}

fn fault_of(word: &str) -> Fault {
    match word {
        "refused" => Fault::Refused,
        "interrupted" => Fault::Interrupted,
        "short" => Fault::Short,
        "read-only" => Fault::ReadOnly,
        "unreached" => Fault::Unreached,
        _ => Fault::None,
    }
}

fn asked_of(word: &str) -> Asked {
    match word {
        "first" => Asked::First,
        "second" => Asked::Second,
        _ => Asked::Machine,
    }
}

impl<'a> Bench<'a> {
    /// A bench of a host over this machine, and of two over real folders.
    pub fn new(rt: &'a HostRuntime, machine: &'a Machine) -> Result<Bench<'a>, AllocError> {
        let machined = host_over(rt.alloc(), machine)?;
        match two_real(rt) {
            Ok((first, second)) => Ok(Bench {
                rt,
                machine,
                machined,
                first,
                second,
                asked: Asked::Machine,
            }),
            Err(error) => {
                drop(machined);
                Err(error)
            }
        }
    }

    /// What is told of a line: nothing of one that only says what cases show, or which host is there.
    pub fn told(&mut self, line: &str) -> io::Result<String> {
        let mut out = String::new(self.rt.alloc());
        let (word, rest) = line.split_once(' ').unwrap_or((line, ""));
        if !self.lay(word, rest)? {
            self.add_told(&mut out, word, rest)?;
        }
        Ok(out)
    }

    // Writes what is told of a line that asks for something.
    fn add_told(&mut self, out: &mut String, word: &str, rest: &str) -> io::Result<()> {
        out.push_str(" -> ")?;
        match word {
            "size" => self.add_size(out, rest)?,
            "streams" => add_streams(self.rt, out)?,
            "standard-streams" => add_standard(self.rt, out)?,
            "machine-streams" => add_machine_streams(self.rt, self.machine, out)?,
            "sweep" => add_sweep(self.rt.alloc(), self.machine, fault_of(rest), out)?,
            "told" => add_told(self.rt.alloc(), rest, out)?,
            _ => self.add_case(out, word, rest)?,
        }
        Ok(())
    }

    // Takes a new host over the machine.
    fn take_machined(&mut self) -> Result<(), AllocError> {
        let host = host_over(self.rt.alloc(), self.machine)?;
        drop(mem::replace(&mut self.machined, host));
        Ok(())
    }

    // Takes a new host over a real folder, as the first one.
    fn take_first(&mut self, folder: &str) -> Result<(), AllocError> {
        let host = real_over(self.rt, folder)?;
        drop(mem::replace(&mut self.first, host));
        Ok(())
    }

    // The same as the second one.
    fn take_second(&mut self, folder: &str) -> Result<(), AllocError> {
        let host = real_over(self.rt, folder)?;
        drop(mem::replace(&mut self.second, host));
        Ok(())
    }

    // Does what a line says of the hosts and folders.
    fn lay(&mut self, word: &str, rest: &str) -> io::Result<bool> {
        match word {
            "" | "#" => {}
            "machine" => {
                self.take_machined()?;
                self.machine.fail(0, Fault::None);
                self.machine.restart(rest.parse::<i32>().unwrap_or(0));
                self.asked = Asked::Machine;
            }
            "again" => {
                self.take_machined()?;
                let _ = self.machine.taken();
            }
            "crash" => self.machine.crash()?,
            "fail" => {
                let (nth, fault) = rest.split_once(' ').unwrap_or((rest, ""));
                self.machine
                    .fail(nth.parse::<u64>().unwrap_or(0), fault_of(fault));
            }
            "allow" => self.machine.allow(rest.parse::<u64>().unwrap_or(0)),
            "gone" | "pipe" | "there" => self.lay_file(word, rest)?,
            "rename" => {
                let (from, to) = rest.split_once(' ').unwrap_or((rest, ""));
                fs::rename(self.rt, from, to)?;
            }
            "first" => self.take_first(rest)?,
            "second" => self.take_second(rest)?,
            "on" => self.asked = asked_of(rest),
            "folder" => fs::create_dir(self.rt, rest)?,
            _ => return Ok(false),
        }
        Ok(true)
    }

    // Takes a file of the machine away, or puts one there: a pipe, or one of three bytes.
    fn lay_file(&self, word: &str, name: &str) -> Result<(), AllocError> {
        let Some(file) = file_of(name) else {
            return Ok(());
        };
        match word {
            "gone" => self.machine.lose(file),
            "pipe" => self.machine.lay(file, &[], true)?,
            _ => self.machine.lay(file, b"abc", false)?,
        }
        Ok(())
    }

    fn add_size(&self, out: &mut String, path: &str) -> io::Result<()> {
        match fs::metadata(self.rt, path) {
            Ok(found) => {
                let length = found.len();
                write!(out, "{length}")?;
            }
            Err(_) => out.push_str("none")?,
        }
        Ok(())
    }

    // Writes what a host answers, the calls that it made, and how many of its calls on the file have failed so far.
    fn add_case(&mut self, out: &mut String, word: &str, rest: &str) -> io::Result<()> {
        let (name, rest) = rest.split_once(' ').unwrap_or((rest, ""));
        let (at, more) = rest.split_once(' ').unwrap_or((rest, ""));
        let Some(file) = file_of(name) else {
            out.push_str("no such file")?;
            return Ok(());
        };
        let bytes = bytes_of(self.rt.alloc(), more)?;
        let step = Step {
            word,
            at: at.parse::<u64>().unwrap_or(0),
            count: more.parse::<usize>().unwrap_or(0),
            bytes: &bytes,
        };
        let faults = self.ask(out, file, &step)?;
        if faults > 0 {
            write!(out, ", {faults} faults")?;
        }
        out.push_str(self.machine.taken().as_str())?;
        Ok(())
    }

    fn ask(&mut self, out: &mut String, file: FileId, step: &Step<'_>) -> Result<u64, AllocError>
        requires { HasSlot file }
    {
        match self.asked {
            Asked::Machine => ask_host(out, &mut self.machined, file, step),
            Asked::First => ask_host(out, &mut self.first, file, step),
            Asked::Second => ask_host(out, &mut self.second, file, step),
        }
    }
}

// Writes what a host answers, and answers how many of its calls on the file have failed so far.
fn ask_host<S: SystemCalls + Drop>(
    out: &mut String,
    host: &mut FolderHost<S>,
    file: FileId,
    step: &Step<'_>,
) -> Result<u64, AllocError>
    requires file { HasSlot file }
    requires untold { (at count : ℕ) → IsTrue S.tells → at ≤ count }
{
    add_answer(out, host, file, step)?;
    Ok(host.fault_count(Channel::File(file)))
}
