//! `entries`: the entries of settled lines.
//!
//! | A step | does |
//! |---|---|
//! | `push LINE LINE` | makes room for two entries, of bad lines, and appends them |
//! | `next`, `more`, `count` | tells the next entry's line, whether there is one, and how many entries there are |
//! | `emit` | the next entry is emitted |

use crate::cases::{Part, carry, no_step};
use crate::printer::{add_count, add_flag};
use crate::steps::Step;
use base_types::{BadRequest, Entry, Settled, UnitNo};
use core_parts::EntryList;
use std::alloc::{AllocError, Global};

/// Puts a list of entries through the steps.
pub fn play(alloc: Global, out: &mut String, steps: &str) -> Result<(), AllocError> {
    let mut entries = EntryList::new(alloc);
    carry(&mut entries, alloc, out, steps)
}

fn bad_line(line: u32) -> Entry {
    Entry {
        line,
        unit: UnitNo(0),
        what: Settled::Bad(BadRequest::Json),
    }
}

fn push_two(entries: &mut EntryList, step: &Step<'_>) -> Result<(), AllocError> {
    entries.reserve(2)?;
    entries.push(bad_line(step.short(1)));
    entries.push(bad_line(step.short(2)));
    Ok(())
}

// The next entry's line, where an entry isn't emitted.
fn add_next(out: &mut String, entries: &EntryList) -> Result<(), AllocError> {
    match entries.next() {
        Some(entry) => {
            let line = entry.line;
            write!(out, " = line {line}")
        }
        None => out.push_str(" = none"),
    }
}

fn emit(entries: &mut EntryList, out: &mut String) -> Result<(), AllocError> {
    if !entries.has_next() {
        return out.push_str(" = none");
    }
    entries.emit();
    Ok(())
}

impl Part for EntryList {
    fn step(&mut self, out: &mut String, step: &Step<'_>) -> Result<(), AllocError> {
        match step.word(0) {
            "push" => push_two(self, step),
            "next" => add_next(out, self),
            "more" => add_flag(out, self.has_next()),
            "emit" => emit(self, out),
            "count" => add_count(out, self.ends().all),
            _ => no_step(out),
        }
    }
}
