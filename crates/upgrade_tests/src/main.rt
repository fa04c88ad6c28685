//! Reads cases, one a line, and says behind each what the crates of upgrades make of it. `stdin` has the cases, and `stdout` the
//! answers, worked out by a script from the documents' tables and not by these crates.
//!
//! | A line | says |
//! |---|---|
//! | `# ..` | what the cases behind it show |
//! | `compare OLD NEW` | whether the program NEW may follow OLD |
//! | `carry KIND N .. : PROGRAM ..` | the state of the numbers N under the last of the programs, carried to each in turn |
//! | `first OLD : BODY` | what a body of format 1 says under the program OLD |
//! | `entry S OLD : BODY` | what a body of format 2 says under the program OLD, behind a session S |
//! | `block S : TEXT` | the block of an upgrade to TEXT in a session S |
//!
//! Texts and bytes are in hexadecimal; `-` has none.
#![tactic(auto)]

mod cases;
mod tables;

use crate::tables::told;
use std::io;

fn main(rt: HostRuntime) -> io::Result<()> {
    for line in rt.lines(rt.alloc()) {
        let line = line?;
        let answer = told(rt.alloc(), line.as_str())?;
        println!(rt; "{line}{answer}")?;
    }
    Ok(())
}
