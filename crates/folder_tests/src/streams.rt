// What the host does with its input and its output.
ghost use Rattle.std.specs.Prelude.{◌≡◌, IsTrue};
ghost use Rattle.system_calls.specs.System.{NoSyncRefused};
ghost use Rattle.host_files.specs.Path.{path_of};

use host_files::FolderHost;
use host_trait::{Channel, Host};
use std::alloc::{AllocError, Global};
use std::io;
use system_calls::{Linux, SystemCalls};
use system_machine::{Machine, OnMachine};

// Writes what a host answers that pulls twice.
fn add_pulls<S: SystemCalls + Drop>(
    out: &mut String,
    host: &mut FolderHost<S>,
) -> Result<(), AllocError> {
    let mut bytes = [0; 8];
    let first = host.pull(&mut bytes);
    let second = host.pull(&mut [0; 8]);
    write!(out, "{first:?} {bytes:?}, {second:?}, ")
}

// Writes what a host answers that emits a line twice.
fn add_emits<S: SystemCalls + Drop>(
    out: &mut String,
    host: &mut FolderHost<S>,
) -> Result<(), AllocError> {
    let emitted = host.emit(b"a\n");
    let again = host.emit(b"b\n");
    write!(out, "{emitted:?}, {again:?}, ")
}

// Writes what a host answers that pulls twice and emits a line twice, and how many faults of each it counts then.
fn add_answers<S: SystemCalls + Drop>(
    out: &mut String,
    host: &mut FolderHost<S>,
) -> Result<(), AllocError> {
    add_pulls(out, host)?;
    add_emits(out, host)?;
    let of_input = host.fault_count(Channel::Input);
    let of_output = host.fault_count(Channel::Output);
    write!(out, "{of_input} and {of_output} faults")
}

// The same of a new host over this system.
fn add_over<S: SystemCalls + Drop>(
    alloc: Global,
    system: S,
    folder: &str,
    out: &mut String,
) -> Result<(), AllocError>
    requires calm { IsTrue S.tells → NoSyncRefused (S.state system) }
    requires path { IsTrue S.tells → S.leads ≡ path_of folder.now }
{
    let mut host = FolderHost::new(alloc, system, folder)?;
    let added = add_answers(out, &mut host);
    drop(host);
    added
}

/// Writes what a host answers over the system in memory, whose input is sevens, and the calls that it made.
pub fn add_machine_streams(
    rt: &HostRuntime,
    machine: &Machine,
    out: &mut String,
) -> Result<(), AllocError> {
    machine.give(&[7; 32])?;
    add_over(rt.alloc(), OnMachine(machine), "f", out)?;
    out.push_str(machine.taken().as_str())
}

/// Writes what a host answers that reads a text, and what it wrote.
pub fn add_streams(rt: &HostRuntime, out: &mut String) -> io::Result<()> {
    let mut output = Vec::new(rt.alloc());
    let linux = Linux::new(rt, b"input".as_slice(), &mut output);
    add_over(rt.alloc(), linux, "f", out)?;
    write!(out, ": {output:?}")?;
    Ok(())
}

/// Writes how many faults a new host over the standard streams has.
pub fn add_standard(rt: &HostRuntime, out: &mut String) -> Result<(), AllocError> {
    let linux = Linux::new(rt, rt.reader(), io::writer(rt));
    let host = FolderHost::new(rt.alloc(), linux, "nowhere")?;
    let faults = host.fault_count(Channel::Input);
    drop(host);
    write!(out, "{faults} faults")
}
