ghost use Rattle.std.specs.Prelude.{◌<◌, ◌≤◌, ◌^◌};

use crate::drafts::Draft;
use crate::events::{Kind, kind_of, made, refusal};
use crate::openings::opening;
use crate::shared_cores::{is_object, next_line, spoil};
use crate::surveys::{Wanted, sum_of, survey};
use crate::texts::{add_entries, add_reply};
use crate::verbs::{Event, Look, Verb, verb_of};
use base_types::Entry;
use core_model::{CoreEvent, CoreReply};
use history_core::Core;
use std::alloc::{AllocError, Global};
use std::mem;
use test_cases::{Numbers, natural, short, three_numbers};

// The greatest number that a core's first unit may have.
const LAST_BASE: u64 = 1 << 63;

/// A core, and what is said to the line that it carried last.
#[derive(Drop)]
pub struct Run {
    alloc: Global,
    core: Core,
    // The entries that are written, which the core doesn't keep.
    written: Vec<Entry>,
    draft: Draft,
    pub said: String,
    // What the core answered last, and to which questions, where no event came since.
    answered: String,
    wanted: Option<Wanted>,
}

impl Run {
    /// A core without events, whose first unit has the number 1.
    pub fn new(alloc: Global) -> Result<Run, AllocError> {
        Ok(Run {
            alloc,
            core: Core::new(alloc, opening(alloc, 1, 0)?),
            written: Vec::new(alloc),
            draft: Draft::new(alloc),
            said: String::new(alloc),
            answered: String::new(alloc),
            wanted: None,
        })
    }

    /// Carries a line. What is said to it is a line of its own, or nothing.
    pub fn carry(&mut self, line: &str) -> Result<(), AllocError> {
        self.said.clear();
        match line.strip_prefix("title ") {
            Some(title) => self.say_line(title),
            None => self.carry_words(line),
        }
    }

    fn say_line(&mut self, line: &str) -> Result<(), AllocError> {
        self.said.push_str(line)?;
        self.said.push_str("\n")
    }

    // Carries a line that is no title.
    fn carry_words(&mut self, line: &str) -> Result<(), AllocError> {
        let mut words = line.split_whitespace();
        let verb = verb_of(words.next().unwrap_or(""));
        match (verb, three_numbers(&mut words)) {
            (Some(verb), Some(numbers)) => self.obey(verb, numbers),
            _ => self.said.push_str("no such line\n"),
        }
    }

    fn obey(&mut self, verb: Verb, numbers: Numbers) -> Result<(), AllocError> {
        match verb {
            Verb::Note(note) => return self.draft.note(note, numbers),
            Verb::Event(event) => {
                self.keep_written(event)?;
                let event = made(&mut self.draft, event, numbers);
                self.put(event)?;
            }
            Verb::Look(look) => self.look(look, numbers)?,
        }
        self.said.push_str("\n")
    }

    // Keeps the entry that an event writes, if any.
    fn keep_written(&mut self, event: Event) -> Result<(), AllocError> {
        match (event, self.core.next_settled()) {
            (Event::Emitted, Some(entry)) => {
                let entry = entry.copy()?;
                self.written.push(entry)?;
                Ok(())
            }
            _ => Ok(()),
        }
    }

    // Puts an event.
    fn put(&mut self, event: CoreEvent) -> Result<(), AllocError> {
        match self.core.step(event) {
            Ok(reply) => {
                self.wanted = None;
                let said = add_reply(&mut self.said, &reply);
                drop(reply);
                said
            }
            Err((_error, back)) => self.put_again(back),
        }
    }

    // Puts an event that came back, since memory was wanting: all is answered as before it, and mostly memory is there now.
    fn put_again(&mut self, back: CoreEvent) -> Result<(), AllocError> {
        let kind = kind_of(&back);
        let is_as_before = self.is_as_before();
        self.wanted = None;
        let stepped = self.core.step(back);
        let said = match &stepped {
            Ok(reply) => self.tell_again(kind, is_as_before, reply),
            Err(_) => self.said.push_str(refusal(kind)),
        };
        drop(stepped);
        said
    }

    // Says the reply to an event that came back once.
    fn tell_again(
        &mut self,
        kind: Kind,
        is_as_before: Result<bool, AllocError>,
        reply: &CoreReply,
    ) -> Result<(), AllocError> {
        if !is_as_before? {
            return self.said.push_str("want of memory changed the answers");
        }
        match kind {
            Kind::Spared => self.said.push_str("it wanted memory whose room was made"),
            _ => add_reply(&mut self.said, reply),
        }
    }

    // Whether the core answers as it answered last, if no event came since.
    fn is_as_before(&mut self) -> Result<bool, AllocError> {
        let Some(wanted) = self.wanted else {
            return Ok(true);
        };
        let before = sum_of(self.answered.as_str());
        survey(
            &mut self.answered,
            &self.core,
            self.written.as_slice(),
            wanted,
        )?;
        Ok(sum_of(self.answered.as_str()) == before)
    }

    fn ask(&mut self, numbers: Numbers) -> Result<(), AllocError> {
        let wanted = Wanted {
            whole: numbers.first == 1,
            below: natural(numbers.second),
        };
        survey(
            &mut self.answered,
            &self.core,
            self.written.as_slice(),
            wanted,
        )?;
        self.wanted = Some(wanted);
        Ok(())
    }

    // A new core, whose first unit has that number; so many of the grains used last stay in memory, or all where that is 0.
    fn open(&mut self, base: u64, limit: u32) -> Result<(), AllocError> {
        if base == 0 || base > LAST_BASE {
            return self.said.push_str("no such number");
        }
        let opening = opening(self.alloc, base, limit as usize)?;
        self.begin(Core::new(self.alloc, opening));
        self.said.push_str("opened")
    }

    // Goes on with this core, of which nothing is written.
    fn begin(&mut self, core: Core) {
        drop(mem::replace(&mut self.core, core));
        self.written.clear();
        self.wanted = None;
    }

    // What a line asks that puts no event, but for a spoilt line.
    fn look(&mut self, look: Look, numbers: Numbers) -> Result<(), AllocError> {
        match look {
            Look::Open => self.open(natural(numbers.first), short(numbers.second)),
            Look::Sum => self.say_sum(numbers),
            Look::Tell => self.tell(numbers),
            Look::Entries => add_entries(&mut self.said, self.written.as_slice(), &self.core),
            Look::See => self.say_next_line(),
            Look::Spoil => self.spoil(short(numbers.first)),
            Look::Object => {
                let is_object = is_object(&self.core);
                self.said.push_str(if is_object { "yes" } else { "no" })
            }
        }
    }

    fn say_sum(&mut self, numbers: Numbers) -> Result<(), AllocError> {
        self.ask(numbers)?;
        let sum = sum_of(self.answered.as_str());
        write!(self.said, "{sum}")
    }

    fn tell(&mut self, numbers: Numbers) -> Result<(), AllocError> {
        self.ask(numbers)?;
        self.said.push_str(self.answered.as_str())
    }

    fn say_next_line(&mut self) -> Result<(), AllocError> {
        let line = next_line(&mut self.core)?;
        write!(self.said, "{line}")
    }

    fn spoil(&mut self, line: u32) -> Result<(), AllocError> {
        let done = spoil(&mut self.core, line);
        self.said.push_str(if done { "done" } else { "no" })
    }
}
