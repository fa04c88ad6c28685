//! Asks a host over a folder of files, and says what it answers: over a system in memory that records its calls, fails them and
//! forgets at a crash what doesn't last, with the calls that were made, and over real folders. `stdin` has the cases, and `stdout`
//! what must come out, worked out by hand.
//!
//! | A line | does |
//! |---|---|
//! | `# ..` | says what the cases behind it show |
//! | `machine N` | empties the system in memory, whose next handle has this number, and takes a new host over it |
//! | `again` | takes a new host over the system in memory as it stands |
//! | `crash` | forgets there each file whose entry doesn't last, and the bytes that don't |
//! | `fail N FAULT` | the nth call there is answered so from here on, and each one where n is 0: `refused`, `interrupted`, `short`, `read-only`, `unreached`, or `well` |
//! | `gone FILE`, `there FILE`, `pipe FILE` | takes a file of it away; puts one of three bytes there; puts a pipe there |
//! | `sweep FAULT` | makes a run of writes and syncs again and again, so that each of its calls fails once, and tells how often a host answered wrongly, or a crash left other bytes than were synced |
//! | `told FAULT` | asks a host over another system in memory, which tells what it holds, for a write, a read, a sync, a read, a pull and an emit, once for each of its first 15 calls, which is answered so; of each of the six it tells whether it failed (`f`) or not (`.`), and of the reads and the pull whether they gave something else than they should (`!`) |
//! | `first FOLDER`, `second FOLDER` | takes a new host over a real folder, in place of the one before |
//! | `on first`, `second` or `machine` | says which host is asked from here on |
//! | `length FILE`, `read FILE AT LEN`, `write FILE AT BYTES`, `sync FILE` | asks it |
//! | `folder PATH`, `rename FROM TO`, `size PATH` | makes a real folder; renames it; tells how long a real file is |
//! | `streams`, `machine-streams`, `standard-streams` | reads from an input and writes to an output; the same over the system in memory, as it answers; tells the faults of a new host over the standard streams |
//!
//! A file is `program`, of slot 0, `manager`, of slot 1, or `grain`. Bytes are in hexadecimal.
#![tactic(auto)]

mod bench;
mod host_answers;
mod steps;
mod streams;
mod sweep;

use crate::bench::Bench;
use std::io;
use system_machine::Machine;

// Writes a line, and what is told of it.
fn tell(rt: &HostRuntime, bench: &mut Bench<'_>, line: &str) -> io::Result<()> {
    let told = bench.told(line)?;
    println!(rt; "{line}{told}")
}

fn tell_all(rt: &HostRuntime, bench: &mut Bench<'_>) -> io::Result<()> {
    for line in rt.lines(rt.alloc()) {
        let line = line?;
        tell(rt, bench, line.as_str())?;
    }
    Ok(())
}

fn main(rt: HostRuntime) -> io::Result<()> {
    let machine = Machine::new(rt.alloc());
    let mut bench = Bench::new(&rt, &machine)?;
    let told = tell_all(&rt, &mut bench);
    drop(bench);
    told
}
