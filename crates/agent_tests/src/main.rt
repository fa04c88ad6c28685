//! Tests of agents: plays rows of lines over a core in memory, and prints the events that the units' agents make, one a line.
//! The file `stdin` has the rows, the file `stdout` what is to be printed, which was worked out by hand from the language's
//! meaning and the rules of locks.
//!
//! A line that begins with `#` is a row's name, and begins it with a new core. Each other line has words:
//!
//! - a request: its line begins;
//! - a number: that unit's agent advances; where it put no event, `stays` is printed;
//! - `run`: the first unit that can move goes on, until none can and all is settled;
//! - `turns`: likewise, but the units that can move go on by turns;
//! - `settle`: all is settled that can be; `lose`: likewise, but no file can be written.
//!
//! A line that begins with `race` is played over a new core that a worker shares with another: the worker carries its requests by
//! `carry_lines`, and before its N-th event comes what `N<DEED` says of the other, before its N-th look what `N?DEED` says. So an
//! event may be answered otherwise than the look before it had shown. Deeds are `begin:LINE`; `read`, `update`, `refuse`, `free` or `learn`
//! with `:UNIT:GRAIN`; `want:UNIT:GRAIN`, and `load:UNIT:GRAIN` with that unit as the source; `take`, `vote:GRAIN`, `decide`, `seal`,
//! `lose`, `doubt`; and `halt`. The word `memory:N` gives that core memory for N grains; else it has it for all.
#![tactic(auto)]

mod bench;
mod deeds;
mod event_texts;
mod line_plays;
mod program;
mod races;
mod shared_core;
mod texts;
mod told_core;

use line_plays::play;
use program::program;
use std::io;

fn main(rt: HostRuntime) -> io::Result<()> {
    match program(rt.alloc()) {
        Some(checked) => play(&rt, &rt, &checked),
        None => println!(rt; "no program"),
    }
}
