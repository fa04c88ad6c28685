use crate::command_runs::{Asked, Ended, carry};
use crate::ends::text_of;
use crate::sweep::add_sweep;
use std::alloc::{AllocError, Global};
use system_machine::{Fault, Machine};
use test_cases::BANK;

/// A machine, and the input of the next command.
#[derive(Drop)]
pub struct Bench<'a> {
    alloc: Global,
    machine: &'a Machine,
    input: String,
}

fn fault_of(word: &str) -> Fault {
    match word {
        "refused" => Fault::Refused,
        "dead" => Fault::Dead,
        "full" => Fault::Full,
        "interrupted" => Fault::Interrupted,
        "short" => Fault::Short,
        _ => Fault::None,
    }
}

// Writes how a command ended, by how many calls, and what it put out.
fn add_ended(alloc: Global, out: &mut String, ended: &Ended) -> Result<(), AllocError> {
    let text = text_of(alloc, ended)?;
    let calls = ended.calls;
    write!(out, " -> {text}, {calls} calls")?;
    drop(text);
    for line in ended.output.lines() {
        write!(out, "\n{line}")?;
    }
    Ok(())
}

impl<'a> Bench<'a> {
    /// A bench over this machine, before the first row.
    pub fn new(alloc: Global, machine: &'a Machine) -> Bench<'a> {
        Bench {
            alloc,
            machine,
            input: String::new(alloc),
        }
    }

    /// What is told of a line: nothing of one that only says what cases show, or lays out what they find.
    pub fn told(&mut self, line: &str) -> Result<String, AllocError> {
        let mut out = String::new(self.alloc);
        self.add_told(&mut out, line)?;
        Ok(out)
    }

    // Writes what is told of a line.
    fn add_told(&mut self, out: &mut String, line: &str) -> Result<(), AllocError> {
        let (word, rest) = line.split_once(' ').unwrap_or((line, ""));
        match word {
            "" | "#" => Ok(()),
            "empty" => {
                self.input.clear();
                self.machine.hold(&[])
            }
            "bank" => {
                self.input.clear();
                self.input.push_str(BANK)
            }
            "<" => self.add_input(rest),
            "silo" => self.add_command(out, rest),
            "fails" => self.add_fails(out, rest),
            _ => out.push_str(" -> no such case"),
        }
    }

    fn add_input(&mut self, line: &str) -> Result<(), AllocError> {
        self.input.push_str(line)?;
        self.input.push_str("\n")
    }

    // Carries a command, and writes its end.
    fn add_command(&mut self, out: &mut String, words: &str) -> Result<(), AllocError> {
        let input = self.input.as_str();
        let ended = carry(self.alloc, self.machine, Asked { words, input })?;
        self.input.clear();
        let added = add_ended(self.alloc, out, &ended);
        drop(ended);
        added
    }

    // Writes how a command ends where each of its calls fails in turn.
    fn add_fails(&self, out: &mut String, rest: &str) -> Result<(), AllocError> {
        let (word, words) = rest.split_once(' ').unwrap_or((rest, ""));
        let input = self.input.as_str();
        out.push_str(" -> ")?;
        add_sweep(
            self.alloc,
            self.machine,
            Asked { words, input },
            fault_of(word),
            out,
        )
    }
}
