// A command over copies of a folder, in each of which another call of the system fails.
use crate::command_runs::{Asked, Ended, carry, carry_with, count_lines};
use crate::ends::{Kind, are_same, is_same, kind_of, text_of, untruth_of_end};
use crate::folders::{untruth_of_making, untruth_of_rewriting, untruth_of_silo};
use crate::records::Said;
use crate::tally::Tally;
use std::alloc::{AllocError, Global};
use system_machine::{Fault, HeldFile, Machine};

// A folder, and what it prints of its log and of its states.
#[derive(Drop)]
struct Before {
    files: Vec<HeldFile>,
    history: String,
    states: String,
}

// What stays the same for all copies.
#[derive(Drop)]
struct Sweep<'a> {
    alloc: Global,
    machine: &'a Machine,
    asked: Asked<'a>,
    fault: Fault,
    before: Before,
    whole: Ended,
    quiet: u64,
}

// How the copies ended.
#[derive(Drop)]
struct Found {
    ends: Tally,
    same: u64,
    untruths: String,
}

impl Found {
    // Counts an end, which may be the same as without a fault.
    fn count(&mut self, alloc: Global, ended: &Ended, is_same: bool) -> Result<(), AllocError> {
        let text = text_of(alloc, ended)?;
        self.ends.add(text.as_str())?;
        if is_same {
            self.same = self.same.saturating_add(1);
        }
        Ok(())
    }

    // Notes an untruth, where there is one.
    fn note(&mut self, nth: u64, left: &str, untruth: Option<&str>) -> Result<(), AllocError> {
        match untruth {
            Some(untruth) => {
                let untruths = &mut self.untruths;
                write!(untruths, "\n  call {nth}, {left}: {untruth}")
            }
            None => Ok(()),
        }
    }
}

impl<'a> Sweep<'a> {
    // What is untrue of the folder as it stands.
    fn untruth_of_folder(&self, ended: &Ended) -> Result<Option<&'static str>, AllocError> {
        let alloc = self.alloc;
        let replies = match kind_of(self.asked.words) {
            Kind::Makes => {
                let input = self.asked.input;
                return untruth_of_making(alloc, self.machine, input, ended.status);
            }
            Kind::Compacts => {
                return untruth_of_rewriting(alloc, self.machine, self.before.states.as_str());
            }
            Kind::Runs => ended.output.as_str(),
            Kind::Reports => "",
        };
        let said = Said {
            before: self.before.history.as_str(),
            replies,
            lines: count_lines(self.asked.input) as u64,
        };
        untruth_of_silo(alloc, self.machine, said)
    }

    // Opens the folder as it stands, and after a crash.
    fn open_again(&self, found: &mut Found, nth: u64, ended: &Ended) -> Result<(), AllocError> {
        let left = self.machine.held()?;
        let opened = self.open_both(found, nth, ended, &left);
        drop(left);
        opened
    }

    // Opens the folder, which has these files, after a crash, and as it stands.
    fn open_both(
        &self,
        found: &mut Found,
        nth: u64,
        ended: &Ended,
        left: &[HeldFile],
    ) -> Result<(), AllocError> {
        if kind_of(self.asked.words) == Kind::Reports && !are_same(left, &self.before.files) {
            found.note(nth, "at its end", Some("a report that changes a file"))?;
        }
        self.machine.crash()?;
        let untruth = self.untruth_of_folder(ended)?;
        found.note(nth, "all lost", untruth)?;
        self.machine.hold(left)?;
        let untruth = self.untruth_of_folder(ended)?;
        found.note(nth, "all kept", untruth)
    }

    // Has the nth call of a copy fail.
    fn try_one(&self, found: &mut Found, nth: u64) -> Result<(), AllocError> {
        self.machine.hold(&self.before.files)?;
        let ended = carry_with(self.alloc, self.machine, self.asked, nth, self.fault)?;
        let looked = self.look(found, nth, &ended);
        drop(ended);
        looked
    }

    // Looks at how a copy ended whose nth call failed, and at what it left.
    fn look(&self, found: &mut Found, nth: u64, ended: &Ended) -> Result<(), AllocError> {
        found.count(self.alloc, ended, is_same(ended, &self.whole))?;
        let is_begun = nth > self.quiet;
        let untruth = untruth_of_end(self.asked, self.fault, ended, &self.whole, is_begun);
        found.note(nth, "at its end", untruth)?;
        self.open_again(found, nth, ended)
    }

    fn try_all(&self) -> Result<Found, AllocError> {
        let mut found = Found {
            ends: Tally::new(self.alloc),
            same: 0,
            untruths: String::new(self.alloc),
        };
        for call in 0..self.whole.calls {
            match self.try_one(&mut found, call.saturating_add(1)) {
                Ok(()) => {}
                Err(error) => {
                    drop(found);
                    return Err(error);
                }
            }
        }
        Ok(found)
    }

    // Writes how the copies ended, and gives the machine its folder back.
    fn add(&self, out: &mut String) -> Result<(), AllocError> {
        let found = self.try_all()?;
        let added = self.add_found(out, &found);
        drop(found);
        added
    }

    fn add_found(&self, out: &mut String, found: &Found) -> Result<(), AllocError> {
        self.machine.hold(&self.before.files)?;
        let calls = self.whole.calls;
        let same = found.same;
        write!(out, "{calls} calls: ")?;
        found.ends.write(out)?;
        write!(out, "; {same} as without a fault")?;
        if found.untruths.is_empty() {
            return out.push_str("; no untruth");
        }
        out.push_str(found.untruths.as_str())
    }
}

// What a report prints of the folder as it stands, nothing where it is no silo.
fn printed(alloc: Global, machine: &Machine, words: &str) -> Result<String, AllocError> {
    Ok(carry(alloc, machine, Asked { words, input: "" })?.output)
}

// How many calls come before a line is carried, where lines are.
fn quiet_calls(alloc: Global, machine: &Machine, words: &str) -> Result<u64, AllocError> {
    if kind_of(words) != Kind::Runs {
        return Ok(u64::MAX);
    }
    Ok(carry(alloc, machine, Asked { words, input: "" })?.calls)
}

fn before_of(alloc: Global, machine: &Machine) -> Result<Before, AllocError> {
    let files = machine.held()?;
    let history = printed(alloc, machine, "history")?;
    let states = printed(alloc, machine, "show")?;
    Ok(Before {
        files,
        history,
        states,
    })
}

// How many calls come before a line is carried, and how the command ends where no call fails.
fn ends_of(alloc: Global, machine: &Machine, asked: Asked<'_>) -> Result<(u64, Ended), AllocError> {
    let quiet = quiet_calls(alloc, machine, asked.words)?;
    let whole = carry(alloc, machine, asked)?;
    Ok((quiet, whole))
}

fn sweep_of<'a>(
    alloc: Global,
    machine: &'a Machine,
    asked: Asked<'a>,
    fault: Fault,
) -> Result<Sweep<'a>, AllocError> {
    let before = before_of(alloc, machine)?;
    match ends_of(alloc, machine, asked) {
        Ok((quiet, whole)) => Ok(Sweep {
            alloc,
            machine,
            asked,
            fault,
            before,
            whole,
            quiet,
        }),
        Err(error) => {
            drop(before);
            Err(error)
        }
    }
}

/// Writes how the command ends where each of its calls fails in turn. The folder is as it was.
pub fn add_sweep(
    alloc: Global,
    machine: &Machine,
    asked: Asked<'_>,
    fault: Fault,
    out: &mut String,
) -> Result<(), AllocError> {
    let sweep = sweep_of(alloc, machine, asked, fault)?;
    let added = sweep.add(out);
    drop(sweep);
    added
}
