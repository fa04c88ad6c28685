use base_types::{GrainId, Origin, UnitNo};
use std::str::SplitWhitespace;

/// The numbers of a line, 0 where there is none.
#[derive(Clone, Copy)]
pub struct Numbers {
    pub first: i64,
    pub second: i64,
    pub third: i64,
}

// The next number, 0 behind the last word; nothing where the word is no number.
fn next_number(words: &mut SplitWhitespace<'_>) -> Option<i64> {
    match words.next() {
        None => Some(0),
        Some(word) => word.parse::<i64>().ok(),
    }
}

/// The next three numbers, where these words are numbers and no more than three.
pub fn three_numbers(words: &mut SplitWhitespace<'_>) -> Option<Numbers> {
    let first = next_number(words)?;
    let second = next_number(words)?;
    let third = next_number(words)?;
    if words.next().is_some() {
        return None;
    }
    Some(Numbers {
        first,
        second,
        third,
    })
}

/// The number, 0 where it is below that.
pub fn natural(number: i64) -> u64 {
    u64::try_from(number).unwrap_or(0)
}

/// The number, 0 where it hasn't 32 bits.
pub fn short(number: i64) -> u32 {
    u32::try_from(number).unwrap_or(0)
}

impl Numbers {
    /// The first number, of a unit.
    pub fn unit(self) -> UnitNo {
        UnitNo(natural(self.first))
    }

    /// The second and the third number, of a type and a key.
    pub fn grain(self) -> GrainId {
        GrainId {
            kind: u16::try_from(self.second).unwrap_or(0),
            key: short(self.third),
        }
    }

    /// The first number, of a parent, and the second, of a child.
    pub fn child(self) -> Origin {
        Origin::Child {
            parent: self.unit(),
            index: short(self.second),
            depth: 2,
        }
    }
}
