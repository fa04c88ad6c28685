use crate::answers::{
    add_any_end, add_end, add_images, add_left, add_money, add_output, add_said, add_size,
    add_whether_has, add_whether_new,
};
use crate::bank::{LAST_LOG, NEW_LOG, new_books, new_silo, old_silo, program_text};
use crate::commands::{carry, carry_alone, copied};
use crate::each_call::add_each_call;
use crate::faults::add_fault;
use crate::gates::add_held;
use crate::names::{MANAGER, fault_of};
use crate::noise::{add_noisy, add_noisy_faults, add_noisy_stops};
use crate::rewrites::add_rewrites;
use crate::stops::add_stops;
use crate::transfers::{add_transfers, hot_rounds, mixed_rounds, rounds};
use host_memory::MemoryHost;
use host_trait::FileId;
use silo_top::Status;
use std::alloc::{AllocError, Global};
use std::mem;
use std::sync::Wait;
use std::thread::Threads;

/// A host, the input of its next command, how its last command ended, and how many syncs there were before that.
#[derive(Drop)]
pub struct Bench {
    alloc: Global,
    host: MemoryHost,
    input: String,
    status: Status,
    syncs: u64,
}

// A request that asks for a balance.
const READ: &str = "{\"args\":[],\"call\":\"account/1.read\"}";

fn number_of(word: &str) -> Option<u64> {
    word.parse::<u64>().ok()
}

// So many blanks.
fn blanks(alloc: Global, count: u64) -> Result<String, AllocError> {
    let mut text = String::new(alloc);
    for _ in 0..count {
        text.push(' ')?;
    }
    Ok(text)
}

// A request that deposits 1 on an account.
fn deposit_on(alloc: Global, account: u64) -> Result<String, AllocError> {
    let mut line = String::new(alloc);
    line.push_str("{\"args\":[1],\"call\":\"account/")?;
    write!(line, "{account}")?;
    line.push_str(".deposit\"}")?;
    Ok(line)
}

impl Bench {
    /// An empty folder.
    pub fn new(alloc: Global) -> Result<Bench, AllocError> {
        let host = MemoryHost::new(alloc, &[])?;
        Ok(Bench {
            alloc,
            host,
            input: String::new(alloc),
            status: Status::Done,
            syncs: 0,
        })
    }

    /// What is told of a line, with its line feed: nothing of one that only says what cases show, or lays out what they find.
    pub fn told<R: Threads + Wait + Sync>(
        &mut self,
        rt: &R,
        line: &str,
    ) -> Result<String, AllocError> {
        let mut out = String::new(self.alloc);
        self.add_told(rt, &mut out, line)?;
        Ok(out)
    }

    // Writes what is told of a line.
    fn add_told<R: Threads + Wait + Sync>(
        &mut self,
        rt: &R,
        out: &mut String,
        line: &str,
    ) -> Result<(), AllocError> {
        let (word, rest) = line.split_once(' ').unwrap_or((line, ""));
        if self.take_host(rt, word)? || self.take_input(word, rest)? || self.lay(word, rest)? {
            return out.push_str("\n");
        }
        out.push_str(" -> ")?;
        if self.add_lines(rt, out, word, rest)? {
            return Ok(());
        }
        self.add_case(rt, out, word, rest)?;
        out.push_str("\n")
    }

    // Takes another host by a case that does so.
    fn take_host<R: Threads + Wait + Sync>(
        &mut self,
        rt: &R,
        word: &str,
    ) -> Result<bool, AllocError> {
        let taken = match word {
            "empty" => MemoryHost::new(self.alloc, &[]),
            "new" => new_silo(rt, self.alloc),
            "old" => old_silo(rt, self.alloc),
            "books" => new_books(rt, self.alloc),
            "crash" => copied(&self.host),
            _ => return Ok(false),
        };
        drop(mem::replace(&mut self.host, taken?));
        Ok(true)
    }

    // Gives the input lines more by a case that does so, or bounds what a pull gives.
    fn add_many(&mut self, word: &str, rest: &str) -> Result<bool, AllocError> {
        let Some(count) = number_of(rest) else {
            return Ok(false);
        };
        match word {
            "pulls" => self.host.pull_at_most((count as usize).max(1)),
            "blanks" => {
                let line = blanks(self.alloc, count)?;
                self.add_input(line.as_str())?;
            }
            "reads" => {
                for _line in 0..count {
                    self.add_input(READ)?;
                }
            }
            "deposits" => {
                for account in 0..count {
                    let line = deposit_on(self.alloc, account)?;
                    self.add_input(line.as_str())?;
                }
            }
            "feeds" => {
                for _line in 0..count {
                    self.input.push('\n')?;
                }
            }
            _ => return Ok(false),
        }
        Ok(true)
    }

    // Takes another input by a case that does so.
    fn take_input(&mut self, word: &str, rest: &str) -> Result<bool, AllocError> {
        if word == "bank" {
            self.input = program_text(self.alloc)?;
            return Ok(true);
        }
        let Some(count) = number_of(rest) else {
            return Ok(false);
        };
        let taken = match word {
            "rounds" => rounds(self.alloc, count),
            "mixed" => mixed_rounds(self.alloc, count),
            "hot" => hot_rounds(self.alloc, count),
            _ => return Ok(false),
        };
        self.input = taken?;
        Ok(true)
    }

    // Changes the host or the input by a case that does so.
    fn lay(&mut self, word: &str, rest: &str) -> Result<bool, AllocError> {
        match word {
            "" | "#" => Ok(true),
            "log" => self.cut_log(rest),
            "other" => self.cut_other(rest),
            "last" => self.give_last(),
            "byte" => self.give_byte(rest),
            "fail" => self.fail(rest),
            "pulls" | "blanks" | "reads" | "deposits" | "feeds" => self.add_many(word, rest),
            "<" => {
                self.add_input(rest)?;
                Ok(true)
            }
            _ => Ok(false),
        }
    }

    fn cut_log(&mut self, length: &str) -> Result<bool, AllocError> {
        let Some(length) = number_of(length) else {
            return Ok(false);
        };
        let length = length.min(NEW_LOG.len() as u64) as usize;
        self.host.set_file(MANAGER, &NEW_LOG[..length])?;
        Ok(true)
    }

    fn cut_other(&mut self, length: &str) -> Result<bool, AllocError> {
        let Some(length) = number_of(length) else {
            return Ok(false);
        };
        let length = length.min(LAST_LOG.len() as u64) as usize;
        self.host
            .set_file(FileId::Manager { slot: 1 }, &LAST_LOG[..length])?;
        Ok(true)
    }

    fn give_last(&mut self) -> Result<bool, AllocError> {
        let Some(log) = self.host.file(MANAGER) else {
            return Ok(false);
        };
        let mut log = Vec::from_slice(self.alloc, log)?;
        for (place, byte) in log.iter_mut().enumerate() {
            if place >= 9 && place < 13 {
                *byte = 255;
            }
        }
        self.host.set_file(MANAGER, log.as_slice())?;
        Ok(true)
    }

    fn give_byte(&mut self, words: &str) -> Result<bool, AllocError> {
        let (at, byte) = words.split_once(' ').unwrap_or((words, ""));
        let (Some(at), Some(byte)) = (number_of(at), number_of(byte)) else {
            return Ok(false);
        };
        let Some(log) = self.host.file(MANAGER) else {
            return Ok(false);
        };
        let mut log = Vec::from_slice(self.alloc, log)?;
        for (place, old) in log.iter_mut().enumerate() {
            if place as u64 == at {
                *old = (byte % 256) as u8;
            }
        }
        self.host.set_file(MANAGER, log.as_slice())?;
        Ok(true)
    }

    fn fail(&mut self, words: &str) -> Result<bool, AllocError> {
        let Some(fault) = fault_of(words) else {
            return Ok(false);
        };
        self.host.fail_on(fault.what, fault.channel, fault.nth)?;
        Ok(true)
    }

    // A line more, with a line feed before it unless it is the first.
    fn add_input(&mut self, line: &str) -> Result<(), AllocError> {
        if !self.input.is_empty() {
            self.input.push_str("\n")?;
        }
        self.input.push_str(line)
    }

    // Carries a command over the input that was laid out.
    fn carry<R: Threads + Wait + Sync>(&mut self, rt: &R, words: &str) -> Result<(), AllocError> {
        self.syncs = self.host.syncs();
        self.status = carry(rt, self.alloc, &mut self.host, words, self.input.as_str())?;
        self.input.clear();
        Ok(())
    }

    // Carries a command without a runtime. What it leaves to workers is told, and the input stays laid out.
    fn carry_alone(&mut self, out: &mut String, words: &str) -> Result<(), AllocError> {
        self.syncs = self.host.syncs();
        match carry_alone(self.alloc, &mut self.host, words, self.input.as_str())? {
            Ok(status) => {
                self.status = status;
                self.input.clear();
                add_output(out, status, &self.host)
            }
            Err(left) => write!(out, "{left:?}\n"),
        }
    }

    // Carries the input that was laid out by workers that a gate holds.
    fn hold<R: Threads + Wait + Sync>(
        &mut self,
        rt: &R,
        out: &mut String,
        gate: &str,
    ) -> Result<(), AllocError> {
        let input = self.input.as_str();
        self.status = add_held(rt, self.alloc, out, &mut self.host, gate, input)?;
        self.input.clear();
        Ok(())
    }

    // Carries a command over the images of a crash, each with the input that was laid out.
    fn carry_in_images<R: Threads + Wait + Sync>(
        &mut self,
        rt: &R,
        out: &mut String,
        words: &str,
    ) -> Result<(), AllocError> {
        let input = self.input.as_str();
        add_images(rt, self.alloc, out, &self.host, words, input)?;
        self.input.clear();
        Ok(())
    }

    // Writes what was put out, by a case that tells all of it.
    fn add_lines<R: Threads + Wait + Sync>(
        &mut self,
        rt: &R,
        out: &mut String,
        word: &str,
        rest: &str,
    ) -> Result<bool, AllocError> {
        match word {
            "silo" => {
                self.carry(rt, rest)?;
                add_output(out, self.status, &self.host)?;
            }
            "alone" => self.carry_alone(out, rest)?,
            "replies" => add_output(out, self.status, &self.host)?,
            "images" => self.carry_in_images(rt, out, rest)?,
            _ => return Ok(false),
        }
        Ok(true)
    }

    // Writes what another case tells.
    fn add_case<R: Threads + Wait + Sync>(
        &mut self,
        rt: &R,
        out: &mut String,
        word: &str,
        rest: &str,
    ) -> Result<(), AllocError> {
        match word {
            "count" => {
                self.carry(rt, rest)?;
                add_end(out, self.status, &self.host)
            }
            "ended" => {
                self.carry(rt, rest)?;
                add_any_end(out, self.status, &self.host)
            }
            "held" => self.hold(rt, out, rest),
            "money" => add_money(rt, self.alloc, out, &self.host),
            "transfers" => add_transfers(rt, self.alloc, out, &self.host),
            "rewrites" => add_rewrites(rt, self.alloc, out, &self.host),
            "stops" => add_stops(rt, self.alloc, out, &self.host),
            "fails" => self.add_fails(rt, out, rest),
            "noise" => self.add_noise(rt, out, rest),
            "each" => self.add_each(rt, out, rest),
            _ => self.add_kept(out, word, rest),
        }
    }

    // Writes what a copy of the host comes to whose call fails.
    fn add_fails<R: Threads + Wait + Sync>(
        &self,
        rt: &R,
        out: &mut String,
        words: &str,
    ) -> Result<(), AllocError> {
        match fault_of(words) {
            Some(fault) => add_fault(rt, self.alloc, out, &self.host, fault),
            None => out.push_str("no such case"),
        }
    }

    // Writes how many runs over copies of the host went well whose threads are held up.
    fn add_noise<R: Threads + Wait + Sync>(
        &mut self,
        rt: &R,
        out: &mut String,
        rest: &str,
    ) -> Result<(), AllocError> {
        let (count, words) = rest.split_once(' ').unwrap_or((rest, ""));
        let input = self.input.as_str();
        match (number_of(count), words.split_once(' ')) {
            (Some(runs), Some(("stops", words))) => {
                add_noisy_stops(rt, self.alloc, out, &self.host, runs, words, input)?
            }
            (Some(runs), Some(_)) => {
                add_noisy(rt, self.alloc, out, &self.host, runs, words, input)?
            }
            (None, Some(_)) if count == "faults" => {
                add_noisy_faults(rt, self.alloc, out, &self.host, words, input)?
            }
            _ => out.push_str("no such case")?,
        }
        self.input.clear();
        Ok(())
    }

    // Writes what comes of commands over copies of the host of which each call fails, or which stop after each. The input stays.
    fn add_each<R: Threads + Wait + Sync>(
        &self,
        rt: &R,
        out: &mut String,
        rest: &str,
    ) -> Result<(), AllocError> {
        let (count, words) = rest.split_once(' ').unwrap_or((rest, ""));
        let input = self.input.as_str();
        match number_of(count) {
            Some(calls) => add_each_call(rt, self.alloc, out, &self.host, calls, words, input),
            None => out.push_str("no such case"),
        }
    }

    // Writes what a case tells that carries nothing.
    fn add_kept(&self, out: &mut String, word: &str, rest: &str) -> Result<(), AllocError> {
        match word {
            "left" => add_left(out, &self.host, self.syncs),
            "said" => add_said(self.alloc, out, self.status),
            "size" => add_size(out, &self.host, rest),
            "has" => add_whether_has(out, &self.host, rest),
            "is-new" => add_whether_new(self.alloc, out, &self.host),
            "calls" => {
                let calls = self.host.calls();
                write!(out, "{calls}")
            }
            _ => out.push_str("no such case"),
        }
    }
}
