//! Reads texts of programs, one a line, and says behind each what the front of the language makes of it. `stdin` has the cases,
//! and `stdout` the answers, worked out by hand from `docs/LANGUAGE.md`.
//!
//! | A line | says |
//! |---|---|
//! | `# ..` | what the cases behind it show |
//! | <code>\| ..</code> | a line of a program, which is the text of a case behind it that is written <code>\|</code> |
//! | `text ..` | what `parse` and then `check` answer |
//! | `body ..` | the same, of this body of a method `m` with a parameter `p`, whose type `a` has a field `f` |
//! | `parse ..` | what `parse` alone answers |
//! | `tree ..`, `body-tree ..` | the tree of a program that is accepted: see [`printer`] |
//! | `shape ..` | its types: the first values of the fields, and how many parameters each method has |
//! | `tokens ..` | the tokens with their places, and what ends them |
//! | `cursor ..` | an expression, a semicolon and a call, and what is answered to a wish for more |
//! | `built NAME` | a body that the tree's own functions make, which sets a field of this name: see [`built_trees`] |
//!
//! A text is written as a pattern: see [`patterns`]. A refusal names a byte, from 0 on, which is the one that the pattern marks.
#![tactic(auto)]

mod bench;
mod built_trees;
mod patterns;
mod printer;
mod readings;
mod tokens;
mod trouble;

use crate::bench::Bench;
use std::io;

fn main(rt: HostRuntime) -> io::Result<()> {
    let mut bench = Bench::new(rt.alloc());
    for line in rt.lines(rt.alloc()) {
        let line = line?;
        let told = bench.told(line.as_str())?;
        println!(rt; "{line}{told}")?;
    }
    Ok(())
}
