//! Puts the parts of the core and the plain types through cases, each part by itself, and says behind each step what is answered.
//! `stdin` has the cases, and `stdout` what must come out, worked out by hand.
//!
//! A case is a line: the name of a part, and its steps, a `;` before each. A step is a word with units, numbers, texts and
//! grains, as `0/7`, by the number of the type and the key; the modules list the steps of each part. A line that begins with `#` says
//! what the cases behind it show. States have one number.
#![tactic(auto)]

mod batches;
mod cascades;
mod cases;
mod cells;
mod copies;
mod dependencies;
mod effects;
mod ends;
mod entries;
mod equality;
mod handed_states;
mod last_states;
mod locks;
mod places;
mod plans;
mod printer;
mod queue;
mod recent;
mod stacks;
mod steps;
mod stores;
mod tables;
mod units;

use std::alloc::{AllocError, Global};
use std::io;

// Puts a part of the core through the steps.
fn play(alloc: Global, out: &mut String, part: &str, steps: &str) -> Result<(), AllocError> {
    match part {
        "stack" => stacks::play(alloc, out, steps),
        "locks" => locks::play(alloc, out, steps),
        "dependencies" => dependencies::play(alloc, out, steps),
        "cascade" => cascades::play(alloc, out, steps),
        "cell" => cells::play(alloc, out, steps),
        "table" => tables::play(alloc, out, steps),
        "units" => units::play(alloc, out, steps),
        "batch" => batches::play(alloc, out, steps),
        "recent" => recent::play(alloc, out, steps),
        _ => play_list(alloc, out, part, steps),
    }
}

// Puts a list or a plain type through the steps.
fn play_list(alloc: Global, out: &mut String, part: &str, steps: &str) -> Result<(), AllocError> {
    match part {
        "plan" => plans::play(alloc, out, steps),
        "same" => equality::play(alloc, out, steps),
        "entries" => entries::play(alloc, out, steps),
        "queue" => queue::play(alloc, out, steps),
        "last" => last_states::play(alloc, out, steps),
        "handed" => handed_states::play(alloc, out, steps),
        "store" => stores::play(alloc, out, steps),
        "ends" => ends::play(alloc, out, steps),
        "places" => places::play(alloc, out, steps),
        "copy" => copies::play(alloc, out, steps),
        _ => out.push_str(" = no such part"),
    }
}

// The line with what is answered behind each of its steps.
fn told(alloc: Global, line: &str) -> Result<String, AllocError> {
    let mut out = String::new(alloc);
    let Some((part, steps)) = line.split_once(';') else {
        out.push_str(line)?;
        if !line.is_empty() && !line.starts_with('#') {
            out.push_str(" = no such case")?;
        }
        return Ok(out);
    };
    out.push_str(part)?;
    play(alloc, &mut out, part, steps)?;
    Ok(out)
}

fn main(rt: HostRuntime) -> io::Result<()> {
    for line in rt.lines(rt.alloc()) {
        let line = line?;
        let told = told(rt.alloc(), line.as_str())?;
        println!(rt; "{told}")?;
    }
    Ok(())
}
