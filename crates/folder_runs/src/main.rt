//! Carries the commands of a silo by [`run_alone`](silo_top::run_alone) over the folder's host and a system in memory, with each
//! call of the system failing in turn, and opens what a crash leaves behind each. `stdin` has the cases, and `stdout` what must come
//! out.
//!
//! | A line | does |
//! |---|---|
//! | `# ..` | says what the cases behind it show |
//! | `empty` | takes a folder without files, and no input |
//! | `bank`, `< ..` | makes the text of the bank program the input; gives the input a line more |
//! | `silo WORDS` | carries the command over the input, which is used up, and tells how it ended, by how many calls of the system, and what it put out |
//! | `fails FAULT WORDS` | carries the command over copies of the folder, in each of which another one of the system's calls fails: it is `refused`, and half of a write made; there is no room (`full`); it is `interrupted` before it moves bytes; it moves half of them (`short`); or it and each later one is refused and nothing more is done (`dead`). Tells how often each end came, how often all was as where no call fails, and each untruth. The folder and the input stay |
//!
//! Behind each of those calls the folder is opened twice: as a crash leaves it that loses every byte and entry that wasn't synced,
//! and with all that was done. An untruth is
//!
//! - an end that is another because of an interruption or of a part, or that is the same though a call was refused;
//! - an end that names a channel without a fault, or done though a stream had one; a run that a grain's file ends once it carries lines;
//! - done, where a line has no reply or two, or a report isn't the whole;
//! - a report that doesn't print the front of the whole, or changes a file;
//! - a value or a fault that was answered and has no record in the log, and an abort that has one; half of what is in doubt;
//! - a record of no line, a second one of a line, or an older one that is gone;
//! - an `audit` or a `show` that isn't done, or finds a bad record; balances that aren't those of the records; a run behind it that
//!   doesn't go on;
//! - of `compact`: other states than before;
//! - of `init`: done, and no new silo is there; or anything there but a new silo or none, which a second `init` says too.
#![tactic(auto)]

mod bench;
mod command_runs;
mod ends;
mod folders;
mod money;
mod records;
mod sweep;
mod tally;

use crate::bench::Bench;
use std::io;
use system_machine::Machine;

// Writes a line, and what is told of it.
fn tell(rt: &HostRuntime, bench: &mut Bench<'_>, line: &str) -> io::Result<()> {
    let told = bench.told(line)?;
    println!(rt; "{line}{told}")
}

fn tell_all(rt: &HostRuntime, bench: &mut Bench<'_>) -> io::Result<()> {
    for line in rt.lines(rt.alloc()) {
        let line = line?;
        tell(rt, bench, line.as_str())?;
    }
    Ok(())
}

fn main(rt: HostRuntime) -> io::Result<()> {
    let machine = Machine::new(rt.alloc());
    let mut bench = Bench::new(rt.alloc(), &machine);
    let told = tell_all(&rt, &mut bench);
    drop(bench);
    told
}
