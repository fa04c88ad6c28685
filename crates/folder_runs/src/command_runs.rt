// A command by a host over the machine, and how it ends.
use host_files::FolderHost;
use host_trait::Channel;
use silo_top::{Gate, GatePlace, Status, run_alone};
use std::alloc::{AllocError, Global};
use system_machine::{Fault, Machine, OnMachine};

#[derive(Drop)]
struct OpenGate;

impl Gate for OpenGate {
    fn reach(&self, _place: GatePlace) {}
}

/// A command's words, and its input.
#[derive(Clone, Copy)]
pub struct Asked<'a> {
    pub words: &'a str,
    pub input: &'a str,
}

/// How a command ended, whether the host's faults bear that out, what it put out, and how many calls of the system it made.
#[derive(Drop)]
pub struct Ended {
    pub status: Status,
    pub is_borne_out: bool,
    pub output: String,
    pub calls: u64,
}

fn words_of(alloc: Global, list: &str) -> Result<Vec<String>, AllocError> {
    let mut words = Vec::new(alloc);
    for word in list.split_whitespace() {
        words.push(String::from_str(alloc, word)?)?;
    }
    Ok(words)
}

// What was put out, as text.
fn output_of(alloc: Global, machine: &Machine) -> Result<String, AllocError> {
    let bytes = machine.put_out()?;
    String::from_str(alloc, std::str::from_utf8(&bytes).unwrap_or("?"))
}

// Whether the channel that a status tells of has had a fault; where all is done, whether neither stream has.
fn is_borne_out(host: &FolderHost<OnMachine<'_>>, status: Status) -> bool {
    let read_faults = host.fault_count(Channel::Input);
    let write_faults = host.fault_count(Channel::Output);
    match status {
        Status::Done => read_faults == 0 && write_faults == 0,
        Status::ReadFault => read_faults > 0,
        Status::WriteFault => write_faults > 0,
        Status::DiskFault { file } => host.fault_count(Channel::File(file)) > 0,
        _ => false,
    }
}

// Carries the command by a new host, and answers whether its faults bear the status out. Words that ask for workers are bad use here.
fn carry_by_host(
    alloc: Global,
    machine: &Machine,
    words: &[String],
) -> Result<(Status, bool), AllocError> {
    let mut host = FolderHost::new(alloc, OnMachine(machine), "f")?;
    let ended = match run_alone(alloc, words, &mut host, &OpenGate) {
        Ok(status) => (status, is_borne_out(&host, status)),
        Err(_) => (Status::BadUse, false),
    };
    drop(host);
    Ok(ended)
}

/// Carries a command whose nth call of the system is answered so, and where n is 0 each one.
pub fn carry_with(
    alloc: Global,
    machine: &Machine,
    asked: Asked<'_>,
    nth: u64,
    fault: Fault,
) -> Result<Ended, AllocError> {
    machine.give(asked.input.as_bytes())?;
    machine.fail(nth, fault);
    let words = words_of(alloc, asked.words)?;
    let ended = carry_by_host(alloc, machine, words.as_slice());
    drop(words);
    let (status, is_borne_out) = ended?;
    let calls = machine.calls();
    let _ = machine.taken();
    let output = output_of(alloc, machine)?;
    Ok(Ended {
        status,
        is_borne_out,
        output,
        calls,
    })
}

/// Carries a command, and no call fails.
pub fn carry(alloc: Global, machine: &Machine, asked: Asked<'_>) -> Result<Ended, AllocError> {
    carry_with(alloc, machine, asked, 0, Fault::None)
}

/// How many lines a text has.
pub fn count_lines(text: &str) -> usize {
    text.lines().count()
}
