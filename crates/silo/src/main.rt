//! The program `silo`: [`run_silo`] over the standard streams and a folder, by Linux's calls.
//!
//! The first word is the folder, the others are the command. The program ends with the status's number, and
//! says the status on standard error unless all was done.
#![tactic(auto)]

use host_files::FolderHost;
use silo_top::{Gate, GatePlace, Status, run_silo};
use std::io::{ErrorKind, Write};
use std::process::ExitCode;
use std::{env, io};
use system_calls::Linux;

/// A gate that does nothing.
#[derive(Drop)]
struct NoGate;

impl Gate for NoGate {
    fn reach(&self, _place: GatePlace) {}
}

/// The folder and the words of the command.
#[derive(Drop)]
struct CommandLine {
    folder: String,
    words: Vec<String>,
}

/// Why the words of the command can't be had: memory is wanting, or one of them isn't UTF-8, which is a bad use.
fn unread(error: &io::Error) -> Status {
    if error.kind() == ErrorKind::OutOfMemory {
        Status::Memory
    } else {
        Status::BadUse
    }
}

/// The folder, which is the empty text where there is no word, and the words behind it.
fn command_line(rt: &HostRuntime) -> Result<CommandLine, Status> {
    let all = env::args(rt).map_err(|error| unread(&error))?;
    let mut folder = String::new(rt.alloc());
    let mut words = Vec::new(rt.alloc());
    for (place, word) in all.skip(1).enumerate() {
        if place == 0 {
            folder = word;
        } else {
            words.push(word).map_err(|_| Status::Memory)?;
        }
    }
    Ok(CommandLine { folder, words })
}

/// Says the status on standard error. Without memory, or where that stream fails, nothing is said.
fn say(rt: &HostRuntime, status: Status) {
    let Ok(text) = status.text(rt.alloc()) else {
        return;
    };
    let mut line = Vec::new(rt.alloc());
    let whole = line.extend_from_slice(b"silo: ").is_ok()
        && line.extend_from_slice(text.as_slice()).is_ok()
        && line.push(b'\n').is_ok();
    if whole {
        let _ = rt.stderr().write_all(line.as_slice());
    }
}

fn main(rt: HostRuntime) -> ExitCode {
    let status = match command_line(&rt) {
        Ok(CommandLine { folder, words }) => {
            let linux = Linux::new(&rt, rt.reader(), io::writer(&rt));
            match FolderHost::new(rt.alloc(), linux, folder.as_str()) {
                Ok(mut host) => run_silo(&rt, rt.alloc(), words.as_slice(), &mut host, &NoGate),
                Err(_) => Status::Memory,
            }
        }
        Err(status) => status,
    };
    if status != Status::Done {
        say(&rt, status);
    }
    ExitCode::from(status.number())
}
