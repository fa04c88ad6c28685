use crate::compared_plays::{asked, done, done_by_body, done_by_value};
use crate::holdings::told_of_holding;
use crate::option_entries::entering;
use crate::scopes::told_in_scope;
use crate::settings::program_of;
use crate::trouble::Trouble;
use script_check::Checked;
use script_holding::Holding;
use std::alloc::{AllocError, Global};

/// The text of a program, what it is as soon as a call asks for it, and what a unit has.
#[derive(Drop)]
pub struct Bench {
    alloc: Global,
    text: String,
    program: Option<Checked>,
    holding: Holding,
}

impl Bench {
    /// A bench without a program.
    pub fn new(alloc: Global) -> Bench {
        Bench {
            alloc,
            text: String::new(alloc),
            program: None,
            holding: Holding::new(alloc),
        }
    }

    /// What is told of a line: nothing of one that only says what cases show, or that is a program's.
    pub fn told(&mut self, line: &str) -> Result<String, AllocError> {
        let mut out = String::new(self.alloc);
        if line.is_empty() || line.starts_with('#') {
            return Ok(out);
        }
        if line.starts_with('|') {
            self.add_text(line)?;
            return Ok(out);
        }
        out.push_str(" -> ")?;
        match self.answer(line) {
            Ok(told) => out.push_str(told.as_str())?,
            Err(Trouble::Case(why)) => out.push_str(why)?,
            Err(Trouble::Memory) => return Err(AllocError),
        }
        Ok(out)
    }

    // One line more of the program; the first of another one where there were calls since the last line.
    fn add_text(&mut self, line: &str) -> Result<(), AllocError> {
        if self.program.is_some() {
            self.program = None;
            self.text.clear();
        }
        self.text.push_str(line.trim_start_matches('|'))?;
        self.text.push_str("\n")
    }

    fn answer(&mut self, line: &str) -> Result<String, Trouble> {
        let alloc = self.alloc;
        let (word, case) = line.split_once(' ').unwrap_or((line, ""));
        match word {
            "call" => done(alloc, self.program()?, case),
            "asks" => asked(alloc, self.program()?, case),
            "value" => done_by_value(alloc, case),
            "body" => done_by_body(alloc, case),
            "enter" => entering(alloc, case),
            "scope" | "field" | "locals" => told_in_scope(alloc, word, case),
            _ => told_of_holding(alloc, &mut self.holding, word, case),
        }
    }

    fn program(&mut self) -> Result<&Checked, Trouble> {
        if self.program.is_none() {
            self.program = Some(program_of(self.alloc, self.text.as_str())?);
        }
        match &self.program {
            Some(program) => Ok(program),
            None => Err(Trouble::Case("no program")),
        }
    }
}
