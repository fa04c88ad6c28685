use base_types::{GrainId, List, Mode, State, UnitNo, Value};
use std::alloc::{AllocError, Global};

/// The words of a step, from 0 on: what is done, and with what. A word that isn't there is empty, and what isn't there as a
/// number is 0.
#[derive(Drop)]
pub struct Step<'a> {
    pub alloc: Global,
    words: Vec<&'a str>,
}

/// A state of one field.
pub fn state_of(alloc: Global, number: i64) -> Result<State, AllocError> {
    let mut state = State::new(alloc);
    state.push(Value::Int(number))?;
    Ok(state)
}

fn number_in(word: &str) -> u64 {
    word.parse::<u64>().unwrap_or(0)
}

fn is_number(word: &str) -> bool {
    word.parse::<u64>().is_ok() || word.parse::<i64>().is_ok()
}

fn is_grain(word: &str) -> bool {
    match word.split_once('/') {
        Some((kind, key)) => kind.parse::<u16>().is_ok() && key.parse::<u32>().is_ok(),
        None => false,
    }
}

// Whether it is a number, a grain, or a word that steps know.
fn is_known(word: &str) -> bool {
    match word {
        "read" | "update" | "value" | "fault" | "aborted" | "funds" | "no" => true,
        _ => is_number(word) || is_grain(word),
    }
}

impl<'a> Step<'a> {
    /// The words of a text.
    pub fn new(alloc: Global, text: &'a str) -> Result<Step<'a>, AllocError> {
        let mut words = Vec::new(alloc);
        for word in text.split_whitespace() {
            words.push(word)?;
        }
        Ok(Step { alloc, words })
    }

    /// Whether each word behind the first is one that may stand there.
    pub fn is_spelled(&self) -> bool {
        for word in self.words.get(1..).unwrap_or(&[]) {
            if !is_known(word) {
                return false;
            }
        }
        true
    }

    /// The word itself.
    pub fn word(&self, at: usize) -> &'a str {
        match self.words.get(at) {
            Some(word) => word,
            None => "",
        }
    }

    /// A number without a sign.
    pub fn number(&self, at: usize) -> u64 {
        number_in(self.word(at))
    }

    /// A number below 2^32.
    pub fn short(&self, at: usize) -> u32 {
        u32::try_from(self.number(at)).unwrap_or(0)
    }

    /// A unit, by its number.
    pub fn unit(&self, at: usize) -> UnitNo {
        UnitNo(self.number(at))
    }

    /// A grain, as `0/7`.
    pub fn grain(&self, at: usize) -> GrainId {
        let (kind, key) = self.word(at).split_once('/').unwrap_or(("", ""));
        GrainId {
            kind: kind.parse::<u16>().unwrap_or(0),
            key: key.parse::<u32>().unwrap_or(0),
        }
    }

    /// A mode: `update`, or else to read.
    pub fn mode(&self, at: usize) -> Mode {
        if self.word(at) == "update" {
            return Mode::Update;
        }
        Mode::Read
    }

    /// A number that may have a sign.
    pub fn int(&self, at: usize) -> i64 {
        self.word(at).parse::<i64>().unwrap_or(0)
    }

    /// A state of one field, with this number.
    pub fn state(&self, at: usize) -> Result<State, AllocError> {
        state_of(self.alloc, self.int(at))
    }

    /// The units from this word on.
    pub fn units(&self, from: usize) -> Result<List<UnitNo>, AllocError> {
        let mut units = List::new(self.alloc);
        for word in self.words.get(from..).unwrap_or(&[]) {
            units.push(UnitNo(number_in(word)))?;
        }
        Ok(units)
    }
}
