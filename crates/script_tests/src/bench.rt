use crate::built_trees::add_built;
use crate::patterns::text_of;
use crate::readings::add_reading;
use crate::trouble::Trouble;
use std::alloc::{AllocError, Global};

/// The lines of a program, and whether there was a case behind them.
#[derive(Drop)]
pub struct Bench {
    alloc: Global,
    program: String,
    read: bool,
}

fn add_refused(
    out: &mut String,
    why: &'static str,
    at: u32,
    marked: usize,
) -> Result<(), AllocError> {
    write!(out, "{why} at {at}")?;
    if at as usize != marked {
        out.push_str(", which isn't marked")?;
    }
    Ok(())
}

impl Bench {
    /// A bench without a program.
    pub fn new(alloc: Global) -> Bench {
        Bench {
            alloc,
            program: String::new(alloc),
            read: false,
        }
    }

    /// What is told of a line: nothing of one that only says what cases show, or that is a program's.
    pub fn told(&mut self, line: &str) -> Result<String, AllocError> {
        let mut out = String::new(self.alloc);
        if line.is_empty() || line.starts_with('#') {
            return Ok(out);
        }
        if line.starts_with('|') {
            self.add_line(line)?;
            return Ok(out);
        }
        self.read = true;
        out.push_str(" -> ")?;
        self.add_case(&mut out, line)?;
        Ok(out)
    }

    // One line more of the program; the first of another one where there were cases since the last line.
    fn add_line(&mut self, line: &str) -> Result<(), AllocError> {
        if self.read {
            self.read = false;
            self.program.clear();
        }
        let (_, text) = line.split_once(' ').unwrap_or((line, ""));
        self.program.push_str(text)?;
        self.program.push_str("\n")
    }

    fn add_case(&self, out: &mut String, line: &str) -> Result<(), AllocError> {
        let (word, case) = line.split_once(' ').unwrap_or((line, ""));
        if word == "built" {
            return add_built(self.alloc, out, case);
        }
        let case = if case == "|" {
            self.program.as_str()
        } else {
            case
        };
        self.add_told(out, word, case)
    }

    // What is told of a text that is written as a pattern.
    fn add_told(&self, out: &mut String, word: &str, case: &str) -> Result<(), AllocError> {
        let (word, times) = word.split_once('*').unwrap_or((word, "1"));
        let Ok(times) = times.parse::<u32>() else {
            return out.push_str("no such number");
        };
        let made = text_of(self.alloc, word, case, times)?;
        match add_reading(self.alloc, out, word, made.text.as_slice()) {
            Ok(()) => Ok(()),
            Err(Trouble::Refused(why, at)) => add_refused(out, why, at, made.marked),
            Err(Trouble::Memory) => Err(AllocError),
        }
    }
}
