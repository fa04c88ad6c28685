// A plain reader of a log's blocks.
use std::alloc::{AllocError, Global};

// Where the first gate stands.
const FIRST_GATE: usize = 15;

/// How far behind a block's gate its session stands.
pub const SESSION: usize = 5;

/// How far behind a block's gate its count of records stands.
pub const COUNT: usize = 13;

/// How far behind a block's gate the unit of its first record stands.
pub const UNIT: usize = 17;

fn byte(bytes: &[u8], at: usize) -> u8 {
    bytes.get(at).copied().unwrap_or(0)
}

// Four bytes from there on, the lowest first.
fn word(bytes: &[u8], at: usize) -> u64 {
    let mut word = 0u64;
    for place in 0..4usize {
        let next = byte(bytes, at.saturating_add(3).saturating_sub(place));
        word = word.wrapping_mul(256).wrapping_add(next as u64);
    }
    word
}

/// Of each block, up to the first gate that isn't open, the word that stands so far behind its gate. None where a block isn't
/// whole, or there are more than eight.
pub fn words(alloc: Global, log: &[u8], behind: usize) -> Result<Option<Vec<u64>>, AllocError> {
    let mut found = Vec::new(alloc);
    let mut gate = FIRST_GATE;
    for _ in 0..9u32 {
        if byte(log, gate) != 1 {
            return Ok(Some(found));
        }
        found.push(word(log, gate.saturating_add(behind)))?;
        let length = word(log, gate.saturating_add(1)) as usize;
        gate = gate.saturating_add(5).saturating_add(length);
        if gate >= log.len() {
            return Ok(None);
        }
    }
    Ok(None)
}
