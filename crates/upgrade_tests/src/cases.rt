ghost use Rattle.std.specs.Prelude.{◌<◌};

use std::alloc::{AllocError, Global};

fn digit_of(letter: u8) -> u8
    ensures { result < 16 }
{
    match letter {
        b'0'..=b'9' => letter - b'0',
        b'a'..=b'f' => letter - b'a' + 10,
        _ => 0,
    }
}

/// The bytes of a word in hexadecimal, none of `-`.
pub fn bytes_of(alloc: Global, word: &str) -> Result<Vec<u8>, AllocError> {
    let mut bytes = Vec::new(alloc);
    if word == "-" {
        return Ok(bytes);
    }
    for pair in word.as_bytes().chunks(2) {
        if let [high, low] = pair {
            bytes.push(digit_of(*high) * 16 + digit_of(*low))?;
        }
    }
    Ok(bytes)
}

/// The words of a line.
pub fn words_of<'a>(alloc: Global, line: &'a str) -> Result<Vec<&'a str>, AllocError> {
    let mut words = Vec::new(alloc);
    for word in line.split_whitespace() {
        words.push(word)?;
    }
    Ok(words)
}
