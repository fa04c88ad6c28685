//! Carries lists of core events: each line of the input is put to a core, and the core's replies and answers are written, a line
//! for each. `checks/core_lists.py` makes the input, and the output that there has to be, by rules of its own.
#![tactic(auto)]

mod drafts;
mod events;
mod openings;
mod runs;
mod shared_cores;
mod surveys;
mod texts;
mod verbs;

use runs::Run;
use std::io;
use std::io::Write;

// Carries each line of a script, and writes what is said to it.
fn carry_all<W: Write>(out: &mut W, run: &mut Run, script: &str) -> io::Result<()> {
    for line in script.lines() {
        run.carry(line)?;
        out.write_all(run.said.as_bytes())?;
    }
    Ok(())
}

fn main(rt: HostRuntime) -> io::Result<()> {
    let script = io::read_to_string(rt.alloc(), rt.reader())?;
    let mut run = Run::new(rt.alloc())?;
    let carried = carry_all(&mut io::writer(&rt), &mut run, script.as_str());
    drop(run);
    carried
}
