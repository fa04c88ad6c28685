ghost use Rattle.std.specs.Prelude.{◌<◌};

use std::alloc::{AllocError, Global};

/// A case: what is asked, its numbers, and its bytes.
#[derive(Drop)]
pub struct Case<'a> {
    pub word: &'a str,
    pub numbers: Vec<u64>,
    pub bytes: Vec<u8>,
}

impl Case<'_> {
    /// The number at an index, 0 where there is none.
    pub fn number(&self, index: usize) -> u64 {
        self.numbers.get(index).copied().unwrap_or(0)
    }
}

fn digit_of(letter: u8) -> u8
    ensures { result < 16 }
{
    match letter {
        b'0'..=b'9' => letter - b'0',
        b'a'..=b'f' => letter - b'a' + 10,
        _ => 0,
    }
}

// Puts the bytes of some pairs of digits.
fn put_pairs(into: &mut Vec<u8>, digits: &[u8]) -> Result<(), AllocError> {
    for pair in digits.chunks(2) {
        if let [high, low] = pair {
            into.push(digit_of(*high) * 16 + digit_of(*low))?;
        }
    }
    Ok(())
}

// Puts the bytes of a word, as `0a61`, or so many times, as `61*256`.
fn put_word(into: &mut Vec<u8>, word: &str) -> Result<(), AllocError> {
    let (digits, count) = word.split_once('*').unwrap_or((word, "1"));
    for _ in 0..count.parse::<u16>().unwrap_or(0) {
        put_pairs(into, digits.as_bytes())?;
    }
    Ok(())
}

fn bytes_of(alloc: Global, words: &str) -> Result<Vec<u8>, AllocError> {
    let mut bytes = Vec::new(alloc);
    for word in words.split_whitespace() {
        put_word(&mut bytes, word)?;
    }
    Ok(bytes)
}

fn numbers_of(alloc: Global, words: &str) -> Result<Vec<u64>, AllocError> {
    let mut numbers = Vec::new(alloc);
    for word in words.split_whitespace() {
        numbers.push(word.parse::<u64>().unwrap_or(0))?;
    }
    Ok(numbers)
}

/// The case that a line is.
pub fn case_of<'a>(alloc: Global, line: &'a str) -> Result<Case<'a>, AllocError> {
    let (front, bytes) = line.split_once(':').unwrap_or((line, ""));
    let (word, numbers) = front.split_once(' ').unwrap_or((front, ""));
    Ok(Case {
        word,
        numbers: numbers_of(alloc, numbers)?,
        bytes: bytes_of(alloc, bytes)?,
    })
}
