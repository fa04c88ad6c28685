//! Carries the commands of a silo over hosts in memory, and tells behind each how it ended and what was put out. `stdin` has the
//! cases, and `stdout` what must come out, worked out by hand from the repository's documents.
//!
//! | A line | does |
//! |---|---|
//! | `# ..` | says what the cases behind it show |
//! | `empty`, `new`, `books` | takes a folder without files; a new silo of the bank program; one that has 100 in each of three accounts |
//! | `log N` | gives the manager file the first N bytes of a new silo's |
//! | `other N` | gives that of slot 1 the first N bytes of one of the last generation whose header gate is closed |
//! | `byte N B` | gives the manager file the byte B at place N |
//! | `last` | gives the manager file the last generation |
//! | `fail CALL CHANNEL N` | has the N-th call of this kind on this channel fail, counted from here on |
//! | `crash` | takes what a crash leaves that loses all that is pending |
//! | `< ..`, `reads N`, `deposits N`, `blanks N`, `feeds N` | gives the next command a line more, N lines that ask for a balance, N that deposit 1 on the accounts from 0 on, a line of N blanks, N line feeds |
//! | `bank`, `rounds N`, `mixed N`, `hot N` | gives it the bank program, N rounds of three transfers, N of six lines of which some begin units of their own, N of four that all want one account |
//! | `pulls N` | has no pull of this host give more than N bytes |
//! | `silo WORDS` | carries the command, and tells how it ended and all that the host has put out by then |
//! | `alone WORDS` | does so without a runtime, or tells what the words leave to workers |
//! | `count WORDS`, `ended WORDS` | carries the command, and tells how it ended and, where all was done, or however it ended, how many lines were put out |
//! | `held seal`, `held locks`, `held all` | does so for a run by two workers, or by 16, whose threads a gate holds: see [`gates`] |
//! | `noise N WORDS`, `noise faults WORDS`, `noise N stops WORDS` | carries the command over copies of the host while its threads are held up at random: N times; with each of some calls failing; N times stopped by the host. Tells how many went well: see [`noise`] |
//! | `each N WORDS; WORDS; ..` | carries one or more commands, one after another, over copies of the host: of N of them the 1st, 2nd, .. N-th call fails, and N others stop after 0, 1, .. calls. Tells how much went well, or what didn't first: see [`each_call`]. The input stays |
//! | `images WORDS` | carries the command over sixteen images that a crash may leave here, and tells each of its ends once |
//! | `left` | tells how many syncs the last command asked for, and how long the manager file is |
//! | `replies` | tells how the last command ended and all that the host has put out by then |
//! | `said`, `calls` | tells the last command's number and its text; how many calls the host has had |
//! | `size FILE`, `has LINE`, `is-new` | tells how long a file is; whether this line was put out; whether this is a new silo of the bank program |
//! | `money` | tells the sum of the three accounts |
//! | `transfers` | tells how a copy of the host carries six transfers, and by how many calls |
//! | `rewrites` | tells how a copy of the host is compacted that stops after each of its calls: see [`rewrites`] |
//! | `stops`, `fails CALL CHANNEL N` | stops a copy after each of those calls; has one of them fail: see [`stops`] and [`faults`] |
//!
//! A channel is `input`, `output` or a file, which is `manager`, `program` or an account as `account/1`, all of slot 0, or with `-1` behind the first word of slot 1, as `account-1/1`.
#![tactic(auto)]

mod answers;
mod bank;
mod bench;
mod commands;
mod each_call;
mod faults;
mod gates;
mod names;
mod noise;
mod rewrites;
mod stops;
mod transfers;

use crate::bench::Bench;
use std::io;

fn main(rt: HostRuntime) -> io::Result<()> {
    let mut bench = Bench::new(rt.alloc())?;
    for line in rt.lines(rt.alloc()) {
        let line = line?;
        let told = bench.told(&rt, line.as_str())?;
        print!(rt; "{line}{told}")?;
    }
    Ok(())
}
