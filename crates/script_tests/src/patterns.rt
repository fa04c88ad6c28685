//! Texts that are written as patterns.
//!
//! | In a pattern | stands for |
//! |---|---|
//! | `@` | nothing: it marks the byte behind it |
//! | `~..~` | what stands between, so many times as the case's word says, as `text*64`, and once where it says nothing |
//! | `$` | there, the number of the time in two digits, from `00` on |
//! | `\n`, `\r`, `\t` | a line feed, a carriage return, a tab |
//! | `\x` | the byte 255, which no UTF-8 has |
//! | `\` and any other byte | this byte |

use std::alloc::{AllocError, Global};

/// The text that a pattern is, and the byte that it marks, else the first.
#[derive(Drop)]
pub struct Written {
    pub text: Vec<u8>,
    pub marked: usize,
    escaped: bool,
}

// The byte that is written by this one behind a backslash.
fn escape_of(byte: u8) -> u8 {
    match byte {
        b'n' => b'\n',
        b'r' => b'\r',
        b't' => b'\t',
        b'x' => 255,
        _ => byte,
    }
}

impl Written {
    // Takes a byte of a pattern up, the time of this number.
    fn put(&mut self, byte: u8, time: u32) -> Result<(), AllocError> {
        if self.escaped {
            self.escaped = false;
            self.text.push(escape_of(byte))?;
            return Ok(());
        }
        match byte {
            b'\\' => self.escaped = true,
            b'@' => self.marked = self.text.len(),
            b'$' => {
                self.text.push(b'0' + (time / 10 % 10) as u8)?;
                self.text.push(b'0' + (time % 10) as u8)?;
            }
            _ => self.text.push(byte)?,
        }
        Ok(())
    }

    // Takes a part of a pattern up, so many times.
    fn add(&mut self, part: &str, times: u32) -> Result<(), AllocError> {
        for time in 0..times {
            for byte in part.as_bytes() {
                self.put(*byte, time)?;
            }
        }
        Ok(())
    }

    // Takes a pattern up, whose parts between two `~` are written so many times.
    fn add_all(&mut self, pattern: &str, times: u32) -> Result<(), AllocError> {
        let mut repeats = false;
        for part in pattern.split('~') {
            self.add(part, if repeats { times } else { 1 })?;
            repeats = !repeats;
        }
        Ok(())
    }
}

// What stands before and behind the pattern of such a case.
fn frame_of(word: &str) -> (&'static str, &'static str) {
    match word {
        "body" | "body-tree" => ("type a { field f = 0; method m(p) create update { ", " } }"),
        _ => ("", ""),
    }
}

/// The text of a case, whose repeated parts are written so many times.
pub fn text_of(
    alloc: Global,
    word: &str,
    pattern: &str,
    times: u32,
) -> Result<Written, AllocError> {
    let mut made = Written {
        text: Vec::new(alloc),
        marked: 0,
        escaped: false,
    };
    let (front, back) = frame_of(word);
    made.add(front, 1)?;
    made.add_all(pattern, times)?;
    made.add(back, 1)?;
    Ok(made)
}
