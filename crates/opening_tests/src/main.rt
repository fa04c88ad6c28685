//! Reads folders, whole and damaged, and says what opening answers of them and what making a silo there does, over a host in
//! memory whose calls fail or stop where a case says so. `stdin` has the cases and `stdout` the answers; `checks/opening_cases.py`
//! writes both, from rows worked out by hand and from a plain second reader of the folder.
//!
//! | A line | does |
//! |---|---|
//! | `# ..` | says what the cases behind it show |
//! | `new` | takes an empty folder and no input |
//! | `put FILE BYTES`, `program TEXT` | gives a file these bytes, in hexadecimal, where `61*256` is a byte 256 times; gives the program file this text |
//! | `input TEXT`, `blanks N` | gives the input |
//! | `fail CALL FILE N` | has the call of this kind fail that comes as the N-th from here on |
//! | `open`, `open-old`, `init`, `show FILE` | tells what opening answers, what opening in format 1 answers, what making answers, what a file has |
//! | `cuts FILE`, `bytes FILE HOW` | tells what opening answers where the file is cut at each place, or has another byte there; an answer stands at the first place that has it |
//! | `stopped-init`, `stopped-open` | stops after each call in turn, and opens images that a crash leaves there |
//!
//! A file is `program` or `manager`, both of slot 0, `manager-1` of slot 1, `input`, or a grain of slot 0 as `0/1`.
#![tactic(auto)]

mod answers;
mod bench;
mod changes;
mod names;
mod stops;

use crate::bench::Bench;
use std::io::{self, BufRead, BufReader};

fn main(rt: HostRuntime) -> io::Result<()> {
    let mut bench = Bench::new(rt.alloc())?;
    for line in BufReader::new(rt.alloc(), rt.reader())?.lines(rt.alloc()) {
        let line = line?;
        let told = bench.told(line.as_str())?;
        println!(rt; "{line}{told}")?;
    }
    Ok(())
}
