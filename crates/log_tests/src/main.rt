//! Reads cases, one a line, and says behind each what the crates of the log make of it: fields and records from their bytes and
//! back, and blocks, seals and versions in the files of a folder whose calls fail where a case says so. `stdin` has the cases,
//! and `stdout` the answers, worked out by hand from `docs/FORMATS.md`.
//!
//! A line is a word, numbers, and behind a colon bytes in hexadecimal, where `61*256` is a byte 256 times. The lines behind `format 1`
//! or `format 2` are of that format, the first ones of format 2. A line that begins with `#` says what the cases behind it show.
#![tactic(auto)]

mod bench;
mod bodies;
mod cases;
mod fields;
mod folder;
mod pieces;
mod printer;

use crate::bench::Bench;
use std::io;

fn main(rt: HostRuntime) -> io::Result<()> {
    let mut bench = Bench::new(rt.alloc());
    for line in rt.lines(rt.alloc()) {
        let line = line?;
        let told = bench.told(line.as_str())?;
        println!(rt; "{line}{told}")?;
    }
    Ok(())
}
