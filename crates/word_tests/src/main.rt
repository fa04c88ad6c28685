//! Reads lists of words and tells what `silo` takes each of them for. `stdin` has a list a line, behind the word `silo`; `stdout`
//! has the commands with their values, worked out by hand from the commands and options that `docs/OPERATIONS.md` names.
//!
//! A line that begins with `#` says what the lists behind it show. Words stand between blanks; the word `''` is the empty one, and
//! `_` stands for a blank in a word.
#![tactic(auto)]

use command_words::read_words;
use std::alloc::{AllocError, Global};
use std::io;

fn word_of(alloc: Global, spelled: &str) -> Result<String, AllocError> {
    if spelled == "''" {
        return Ok(String::new(alloc));
    }
    spelled.replace(alloc, "_", " ")
}

fn words_of(alloc: Global, list: &str) -> Result<Vec<String>, AllocError> {
    let mut words = Vec::new(alloc);
    for spelled in list.split_whitespace() {
        words.push(word_of(alloc, spelled)?)?;
    }
    Ok(words)
}

// What is told of a line: nothing of one that only says what lists show.
fn told(alloc: Global, line: &str) -> Result<String, AllocError> {
    let mut out = String::new(alloc);
    if line.is_empty() || line.starts_with('#') {
        return Ok(out);
    }
    let (name, list) = line.split_once(' ').unwrap_or((line, ""));
    if name != "silo" {
        out.push_str(" -> no such case")?;
        return Ok(out);
    }
    let words = words_of(alloc, list)?;
    let read = read_words(alloc, words.as_slice());
    write!(out, " -> {read:?}")?;
    Ok(out)
}

fn main(rt: HostRuntime) -> io::Result<()> {
    for line in rt.lines(rt.alloc()) {
        let line = line?;
        let told = told(rt.alloc(), line.as_str())?;
        println!(rt; "{line}{told}")?;
    }
    Ok(())
}
