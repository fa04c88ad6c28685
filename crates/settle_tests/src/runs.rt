use crate::bench::{Bench, new_bench};
use crate::images::{Allowed, PICKS, count_allowed};
use crate::logs::{COUNT, SESSION, UNIT, words};
use crate::recorder::{bytes_in, count};
use crate::units::{Add, account};
use crate::verbs::{Look, Verb, verb_of};
use host_memory::CallKind;
use host_trait::{Channel, FileId};
use settle_loop::{StopCause, Turned};
use std::alloc::{AllocError, Global};
use std::mem;
use test_cases::{Numbers, natural, short, three_numbers};

/// A bench, and what is said to the line that it carried last.
#[derive(Drop)]
pub struct Run {
    alloc: Global,
    bench: Bench,
    pub said: String,
}

// The manager's file in a slot, or an account's.
fn file_of(slot: u8, number: i64) -> FileId {
    if number < 0 {
        return FileId::Manager { slot };
    }
    FileId::Grain {
        slot,
        grain: account(short(number)),
    }
}

// What a step came to.
fn turn_name(turned: Turned) -> &'static str {
    match turned {
        Turned::Stepped => "stepped",
        Turned::Nothing => "rests",
        Turned::Stop(StopCause::InDoubt) => "stops in doubt",
        Turned::Stop(StopCause::WriteFault) => "stops by a write fault",
        Turned::Stop(StopCause::LoadFault { .. }) => "stops by a read fault",
        Turned::Stop(StopCause::LoadDamaged { .. }) => "stops by a damaged file",
    }
}

fn flag_name(flag: bool) -> &'static str {
    if flag { "yes" } else { "no" }
}

fn add_words(out: &mut String, words: &[u64]) -> Result<(), AllocError> {
    for word in words {
        write!(out, " {word}")?;
    }
    Ok(())
}

impl Run {
    /// One over a new silo in slot 0.
    pub fn new(alloc: Global) -> Result<Run, AllocError> {
        Ok(Run {
            alloc,
            bench: new_bench(alloc, 0, false, 0)?,
            said: String::new(alloc),
        })
    }

    /// Carries a line. What is said to it is a line of its own, but for the output, which has lines.
    pub fn carry(&mut self, line: &str) -> Result<(), AllocError> {
        self.said.clear();
        if let Some(title) = line.strip_prefix("title ") {
            self.said.push_str(title)?;
            return self.said.push_str("\n");
        }
        let mut words = line.split_whitespace();
        let verb = verb_of(words.next().unwrap_or(""));
        match (verb, three_numbers(&mut words)) {
            (Some(verb), Some(numbers)) => self.obey(verb, numbers)?,
            _ => self.said.push_str("no such line")?,
        }
        self.said.push_str("\n")
    }

    fn obey(&mut self, verb: Verb, numbers: Numbers) -> Result<(), AllocError> {
        match verb {
            Verb::Open => self.open(numbers.first == 1, numbers.second == 1, numbers.third),
            Verb::FailWrite => self.fail_file(CallKind::Write, numbers),
            Verb::FailSync => self.fail_file(CallKind::Sync, numbers),
            Verb::FailRead => self.fail_file(CallKind::Read, numbers),
            Verb::FailEmit => self.fail(CallKind::Emit, Channel::Output, numbers.first),
            Verb::FailPull => self.fail(CallKind::Pull, Channel::Input, numbers.first),
            Verb::StopAfter => self.stop_after(natural(numbers.first)),
            Verb::CutEmit => self.cut_emit(natural(numbers.first)),
            Verb::Add => self.add(numbers),
            Verb::Transfer => self.transfer(numbers),
            Verb::Want => self.want(numbers),
            Verb::GoOn => self.go_on(),
            Verb::Damage => self.damage(short(numbers.first)),
            Verb::Reopen => self.reopen(short(numbers.first), numbers.second),
            Verb::Load => self.load(),
            Verb::Step => self.step(),
            Verb::Settle => self.settle(),
            Verb::Look(look) => self.look(look, numbers),
        }
    }

    fn open(&mut self, quiet: bool, second: bool, limit: i64) -> Result<(), AllocError> {
        let slot = if second { 1 } else { 0 };
        let bench = new_bench(self.alloc, slot, quiet, natural(limit) as usize)?;
        self.begin(bench)
    }

    // Goes on with this bench.
    fn begin(&mut self, bench: Bench) -> Result<(), AllocError> {
        drop(mem::replace(&mut self.bench, bench));
        self.said.push_str("opened")
    }

    fn fail_file(&mut self, what: CallKind, numbers: Numbers) -> Result<(), AllocError> {
        let channel = Channel::File(file_of(self.bench.slot, numbers.first));
        self.fail(what, channel, numbers.second)
    }

    fn fail(&mut self, what: CallKind, channel: Channel, nth: i64) -> Result<(), AllocError> {
        self.bench.host.inner.fail_on(what, channel, natural(nth))?;
        self.said.push_str("planned")
    }

    fn stop_after(&mut self, calls: u64) -> Result<(), AllocError> {
        self.bench.host.inner.stop_after(calls);
        self.said.push_str("planned")
    }

    fn cut_emit(&mut self, part: u64) -> Result<(), AllocError> {
        self.bench.host.part = Some(part);
        self.said.push_str("planned")
    }

    fn say_carried(&mut self, carried: bool) -> Result<(), AllocError> {
        self.said
            .push_str(if carried { "carried" } else { "not carried" })
    }

    fn carry_out(&mut self, line: i64, first: Add, adds: &[Add]) -> Result<(), AllocError> {
        let carried = self.bench.carry_out(short(line), first, adds)?;
        self.say_carried(carried)
    }

    fn want(&mut self, numbers: Numbers) -> Result<(), AllocError> {
        let add = Add {
            key: short(numbers.second),
            number: numbers.third,
        };
        let wanted = self.bench.want(short(numbers.first), add)?;
        self.say_carried(wanted)
    }

    fn go_on(&mut self) -> Result<(), AllocError> {
        match self.bench.go_on()? {
            Some(source) => {
                let unit = source.0;
                write!(self.said, "carried, from unit {unit}")
            }
            None => self.say_carried(false),
        }
    }

    fn damage(&mut self, key: u32) -> Result<(), AllocError> {
        self.bench.damage(key)?;
        self.said.push_str("damaged")
    }

    fn reopen(&mut self, key: u32, number: i64) -> Result<(), AllocError> {
        let bench = self.bench.reopened(key, number)?;
        self.begin(bench)
    }

    fn add(&mut self, numbers: Numbers) -> Result<(), AllocError> {
        let add = Add {
            key: short(numbers.second),
            number: numbers.third,
        };
        self.carry_out(numbers.first, add, &[add])
    }

    fn transfer(&mut self, numbers: Numbers) -> Result<(), AllocError> {
        let from = Add {
            key: short(numbers.second),
            number: -1,
        };
        let onto = Add {
            key: short(numbers.third),
            number: 1,
        };
        self.carry_out(numbers.first, from, &[from, onto])
    }

    // What a step came to, and how many host calls it made.
    fn say_turned(&mut self, turned: Turned, before: u64) -> Result<(), AllocError> {
        let calls = self.bench.host.inner.calls().wrapping_sub(before);
        let name = turn_name(turned);
        write!(self.said, "{name}, calls {calls}")
    }

    fn step(&mut self) -> Result<(), AllocError> {
        let before = self.bench.host.inner.calls();
        let turned = self.bench.step()?;
        self.say_turned(turned, before)
    }

    fn load(&mut self) -> Result<(), AllocError> {
        let before = self.bench.host.inner.calls();
        let turned = self.bench.load()?;
        self.say_turned(turned, before)
    }

    fn settle(&mut self) -> Result<(), AllocError> {
        let turned = self.bench.settle()?;
        self.said.push_str(turn_name(turned))
    }

    fn look(&mut self, look: Look, numbers: Numbers) -> Result<(), AllocError> {
        match look {
            Look::Applies => {
                let applies = self.bench.applies()?;
                self.said.push_str(flag_name(applies))
            }
            Look::Calls => self.say_calls(),
            Look::Noted => self.say_noted(),
            Look::Doubt => self.said.push_str(flag_name(self.bench.doubted())),
            Look::Output => self.say_output(),
            Look::Sessions => self.say_log(SESSION),
            Look::Counts => self.say_log(COUNT),
            Look::Units => self.say_log(UNIT),
            Look::File => self.say_file(file_of(self.bench.slot, numbers.first)),
            Look::Bytes => self.say_bytes(file_of(self.bench.slot, numbers.first)),
            Look::ImageCounts => self.say_images(numbers, COUNT),
            Look::ImageUnits => self.say_images(numbers, UNIT),
            Look::Spread => self.say_spread(natural(numbers.first)),
        }
    }

    fn say_calls(&mut self) -> Result<(), AllocError> {
        let calls = self.bench.host.inner.calls();
        let written = self.bench.written();
        write!(self.said, "calls {calls}, entries {written}")
    }

    fn say_noted(&mut self) -> Result<(), AllocError> {
        let noted = self.bench.host.calls.len();
        write!(self.said, "writes and syncs {noted}")
    }

    // How many bytes the output has, and its lines.
    fn say_output(&mut self) -> Result<(), AllocError> {
        let bench = &self.bench;
        let output = bench.host.inner.output();
        let length = output.len();
        match str::from_utf8(output) {
            Ok(text) => write!(self.said, "output {length}\n{text}"),
            Err(_) => self.said.push_str("output that is no text"),
        }
    }

    fn say_log(&mut self, behind: usize) -> Result<(), AllocError> {
        let log = bytes_in(&self.bench.host.inner, file_of(self.bench.slot, -1));
        match words(self.alloc, log, behind)? {
            Some(found) => {
                self.said.push_str("blocks")?;
                add_words(&mut self.said, found.as_slice())
            }
            None => self.said.push_str("a log that isn't whole"),
        }
    }

    fn say_file(&mut self, file: FileId) -> Result<(), AllocError> {
        let noted = self.bench.host.calls.as_slice();
        let writes = count(noted, CallKind::Write, file);
        let syncs = count(noted, CallKind::Sync, file);
        write!(self.said, "writes {writes}, syncs {syncs}")
    }

    fn say_bytes(&mut self, file: FileId) -> Result<(), AllocError> {
        let bytes = bytes_in(&self.bench.host.inner, file).len();
        write!(self.said, "bytes {bytes}")
    }

    // How many images after so many calls are allowed; no more calls than there were.
    fn count_images(&self, after: u64, behind: usize, allowed: Allowed) -> Result<u64, AllocError> {
        let host = &self.bench.host.inner;
        if after > host.calls() {
            return Ok(0);
        }
        count_allowed(
            self.alloc,
            host,
            file_of(self.bench.slot, -1),
            after,
            behind,
            allowed,
        )
    }

    fn say_images(&mut self, numbers: Numbers, behind: usize) -> Result<(), AllocError> {
        let allowed = Allowed {
            empty: numbers.second == 1,
            word: natural(numbers.third),
        };
        let count = self.count_images(natural(numbers.first), behind, allowed)?;
        write!(self.said, "images {count}")
    }

    fn say_spread(&mut self, after: u64) -> Result<(), AllocError> {
        let none = Allowed {
            empty: true,
            word: 0,
        };
        let empty = self.count_images(after, COUNT, none)?;
        let spread = match empty {
            0 => "all",
            PICKS => "none",
            _ => "some",
        };
        self.said.push_str(spread)
    }
}
