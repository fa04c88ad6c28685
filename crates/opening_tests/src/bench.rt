use crate::answers::{add_making, add_old_opening, add_opening};
use crate::changes::add_changes;
use crate::names::{add_bytes, bytes_of, channel_of, file_of, kind_of};
use crate::stops::{add_stopped_making, add_stopped_opening};
use host_memory::MemoryHost;
use std::alloc::{AllocError, Global};

/// A folder and an input.
#[derive(Drop)]
pub struct Bench {
    alloc: Global,
    host: MemoryHost,
}

// The bytes of a program file with this text.
fn program_of(alloc: Global, text: &str) -> Result<Vec<u8>, AllocError> {
    let mut bytes = Vec::new(alloc);
    let length = u32::try_from(text.len()).unwrap_or(0);
    bytes.extend_from_slice(&length.to_le_bytes())?;
    bytes.extend_from_slice(text.as_bytes())?;
    Ok(bytes)
}

// So many blanks.
fn blanks(alloc: Global, count: &str) -> Result<Vec<u8>, AllocError> {
    let mut bytes = Vec::new(alloc);
    for _ in 0..count.parse::<u32>().unwrap_or(0) {
        bytes.push(b' ')?;
    }
    Ok(bytes)
}

impl Bench {
    /// A bench over a folder in memory that is empty.
    pub fn new(alloc: Global) -> Result<Bench, AllocError> {
        let host = MemoryHost::new(alloc, &[])?;
        Ok(Bench { alloc, host })
    }

    /// What is told of a line: nothing of one that only says what cases show, or that lays the folder out.
    pub fn told(&mut self, line: &str) -> Result<String, AllocError> {
        let mut out = String::new(self.alloc);
        let (word, rest) = line.split_once(' ').unwrap_or((line, ""));
        if self.lay(word, rest)? {
            return Ok(out);
        }
        out.push_str(" -> ")?;
        self.add_case(&mut out, word, rest)?;
        Ok(out)
    }

    // Lays the folder, the input and the next fault out by a case that does so.
    fn lay(&mut self, word: &str, rest: &str) -> Result<bool, AllocError> {
        match word {
            "" | "#" => {}
            "new" => self.host = MemoryHost::new(self.alloc, &[])?,
            "input" => self.host.set_input(rest.as_bytes())?,
            "blanks" => self.host.set_input(&blanks(self.alloc, rest)?)?,
            "program" => self.put("program", &program_of(self.alloc, rest)?)?,
            "put" => {
                let (name, digits) = rest.split_once(' ').unwrap_or((rest, ""));
                self.put(name, &bytes_of(self.alloc, digits)?)?;
            }
            "fail" => self.fail(rest)?,
            _ => return Ok(false),
        }
        Ok(true)
    }

    fn put(&mut self, name: &str, bytes: &[u8]) -> Result<(), AllocError> {
        if let Some(file) = file_of(name) {
            self.host.set_file(file, bytes)?;
        }
        Ok(())
    }

    fn fail(&mut self, rest: &str) -> Result<(), AllocError> {
        let (what, rest) = rest.split_once(' ').unwrap_or((rest, ""));
        let (name, nth) = rest.split_once(' ').unwrap_or((rest, ""));
        let nth = nth.parse::<u64>().unwrap_or(1);
        self.host.fail_on(kind_of(what), channel_of(name), nth)
    }

    fn add_case(&mut self, out: &mut String, word: &str, rest: &str) -> Result<(), AllocError> {
        let alloc = self.alloc;
        let (name, how) = rest.split_once(' ').unwrap_or((rest, ""));
        match word {
            "open" => add_opening(alloc, out, &mut self.host),
            "open-old" => add_old_opening(alloc, out, &mut self.host),
            "init" => add_making(alloc, out, &mut self.host),
            "show" => self.add_shown(out, name),
            "syncs" => {
                let syncs = self.host.syncs();
                write!(out, "{syncs}")
            }
            "cuts" => add_changes(alloc, out, &self.host, name, ""),
            "bytes" => add_changes(alloc, out, &self.host, name, how),
            "stopped-init" => add_stopped_making(alloc, out, rest),
            "stopped-open" => {
                let count = rest.parse::<u64>().unwrap_or(0);
                add_stopped_opening(alloc, out, &self.host, count)
            }
            _ => out.push_str("no such case"),
        }
    }

    fn add_shown(&self, out: &mut String, name: &str) -> Result<(), AllocError> {
        let Some(file) = file_of(name) else {
            return out.push_str("no such file");
        };
        match self.host.file(file) {
            Some(bytes) => add_bytes(out, bytes),
            None => out.push_str("none"),
        }
    }
}
