//! Numbers and lists of numbers, as words spell them: `0`, or digits without a leading zero, a sign or a space.
ghost use Rattle.std.specs.Prelude.{◌≡◌, ◌≤◌, ◌<◌, ◌^◌, ◌==◌, ℕ, List, Some, None, map, IfOk, IfSome, decimal, MatchOption};
ghost use Rattle.std.specs.List.{slice_split};
ghost use Rattle.promise_spec.specs.Words.{Turns, IsWithin, list_text};
ghost use Rattle.command_words.specs.Numbers.{AreNumbers};

use itoa::Buffer;
use std::alloc::{AllocError, Global};

/// The most picks that a list may have.
const PICK_LIMIT: usize = 4096;

/// The number below 2 to the 32 that a text spells.
pub(crate) fn read_small(text: &str) -> Option<u32>
    ensures some { IfSome result (λ n. text.now ≡ decimal n) }
    ensures none { result ≡ None → (n : ℕ) → n < 2 ^ 32 → text.now ≡ decimal n → ⊥ }
{
    match text.parse::<u32>() {
        Ok(n) => {
            if Buffer::new().format(n) == text {
                return Some(n);
            }
            None
        }
        Err(_) => None,
    }
}

/// The number below 2 to the 64 that a text spells.
pub(crate) fn read_large(text: &str) -> Option<u64>
    ensures some { IfSome result (λ n. text.now ≡ decimal n) }
    ensures none { result ≡ None → (n : ℕ) → n < 2 ^ 64 → text.now ≡ decimal n → ⊥ }
{
    match text.parse::<u64>() {
        Ok(n) => {
            if Buffer::new().format(n) == text {
                return Some(n);
            }
            None
        }
        Err(_) => None,
    }
}

/// What stands between the commas of a text.
fn pieces_of(alloc: Global, text: &str) -> Result<Vec<&str>, AllocError>
    ensures { IfOk result (λ pieces. map (λ piece. piece.now) pieces.items ≡ slice_split (λ byte. byte == 44) text.now) }
{
    text.split(',').collect(alloc)
}

/// The numbers that texts spell, where each spells one below 2 to the 32.
fn numbers_of(alloc: Global, texts: &[&str]) -> Result<Option<Vec<u32>>, AllocError>
    ensures { IfOk result (λ found. MatchOption found
        ((numbers : List ℕ) → AreNumbers (map (λ text. text.now) texts.now) numbers → ⊥)
        (λ numbers. AreNumbers (map (λ text. text.now) texts.now) numbers.items)) }
{
    let mut numbers = Vec::new(alloc);
    for text in texts {
        let Some(number) = read_small(text) else {
            return Ok(None);
        };
        numbers.push(number)?;
    }
    Ok(Some(numbers))
}

/// The picks that a text spells: 1 to 4,096 numbers below 2 to the 32, with a comma between them.
pub(crate) fn read_picks(alloc: Global, text: &str) -> Result<Option<Vec<u32>>, AllocError>
    ensures { IfOk result (λ found. MatchOption found
        ((picks : List ℕ) → IsWithin (Turns picks) → text.now ≡ list_text picks → ⊥)
        (λ picks. IsWithin (Turns picks.items) × (text.now ≡ list_text picks.items))) }
{
    let pieces = pieces_of(alloc, text)?;
    if pieces.len() > PICK_LIMIT {
        return Ok(None);
    }
    numbers_of(alloc, pieces.as_slice())
}
