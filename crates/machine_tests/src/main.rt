//! Reads programs of the grain language and calls on them, and says behind each call what it does: as the plain player of
//! `script_meaning` plays it, and as the machine of `script_machine` runs it. `stdin` has the cases, and `stdout` what must come
//! out, worked out by hand from `docs/LANGUAGE.md`.
//!
//! | A line | says |
//! |---|---|
//! | `# ..` | what the cases behind it show |
//! | <code>\| ..</code> | a line of a program, which the calls behind it are of |
//! | `call account/1.deposit(5) with ..` | what the call does, with what goes with it: see [`settings`] |
//! | `asks account/1.deposit(5) with ..` | what a machine asks for in it, in order |
//! | `value ..` | the value of this expression, in a method of `t/7` |
//! | `body ..` | what this body of a method of `t/7` does |
//! | `enter ..` | how this option enters a transaction without a context, and with one |
//! | `scope ..`, `field ..`, `locals` | values, and numbers of fields, in the scope of [`scopes`] |
//! | `read ..` and its neighbours | what a unit has: see [`holdings`] |
#![tactic(auto)]

mod bench;
mod compared_plays;
mod driver;
mod holdings;
mod option_entries;
mod printer;
mod scopes;
mod settings;
mod trouble;

use crate::bench::Bench;
use std::io;

fn main(rt: HostRuntime) -> io::Result<()> {
    let mut bench = Bench::new(rt.alloc());
    for line in rt.lines(rt.alloc()) {
        let line = line?;
        let told = bench.told(line.as_str())?;
        println!(rt; "{line}{told}")?;
    }
    Ok(())
}
