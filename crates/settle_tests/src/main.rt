//! Carries scripts of a settler over a core and a host in memory: each line of the input is a unit that is carried out, a fault
//! that is planned, a step of the settler, or a look at what the host has, and what it came to is written as a line.
//! `checks/settle_scripts.py` makes the input, and the output that there has to be, which stands there by hand.
#![tactic(auto)]

mod bench;
mod images;
mod logs;
mod recorder;
mod runs;
mod units;
mod verbs;

use runs::Run;
use std::io;
use std::io::Write;

// Carries each line of a script, and writes what is said to it.
fn carry_all<W: Write>(out: &mut W, run: &mut Run, script: &str) -> io::Result<()> {
    for line in script.lines() {
        run.carry(line)?;
        out.write_all(run.said.as_bytes())?;
    }
    Ok(())
}

fn main(rt: HostRuntime) -> io::Result<()> {
    let script = io::read_to_string(rt.alloc(), rt.reader())?;
    let mut run = Run::new(rt.alloc())?;
    let carried = carry_all(&mut io::writer(&rt), &mut run, script.as_str());
    drop(run);
    carried
}
