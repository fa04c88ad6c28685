//! The values of the options.
ghost use Rattle.std.specs.Prelude.{◌≡◌, ◌≤◌, ℕ, List, Some, None, Ok, Err, IfOk, IfSome, MatchResult, option_map};
ghost use Rattle.promise_spec.specs.Words.{Turns, IsWithin};
ghost use Rattle.command_words.specs.CutParts.{one_value};
ghost use Rattle.command_words.specs.Options.{Chosen, AreChosen, MayStand, number_text, picks_text, run_chosen};

use crate::faults::WordsFault;
use crate::numbers::{read_picks, read_small};
use crate::word_parts::CutWords;
use crate::words::RunOptions;
use std::alloc::Global;

/// The number of an option, from 1 to `most`.
fn read_bounded(text: Option<&str>, most: u32) -> Result<Option<u32>, WordsFault>
    ensures { MatchResult result
        (λ found. (one_value text.entry ≡ number_text found) × IfSome found (λ n. (1 ≤ n) × (n ≤ most)))
        (λ fault. (fault ≡ WordsFault.BadUse)
        × ((n : ℕ) → one_value text.entry ≡ number_text (Some n) → 1 ≤ n → n ≤ most → ⊥) × (one_value text.entry ≡ number_text None → ⊥)) }
{
    let Some(text) = text else {
        return Ok(None);
    };
    match read_small(text) {
        Some(n) => {
            if n == 0 || n > most {
                return Err(WordsFault::BadUse);
            }
            Ok(Some(n))
        }
        None => Err(WordsFault::BadUse),
    }
}

/// The picks of an option.
fn read_turns(alloc: Global, text: Option<&str>) -> Result<Option<Vec<u32>>, WordsFault>
    ensures read { IfOk result (λ found. (one_value text.entry ≡ picks_text (option_map (λ picks. picks.items) found))
        × IfSome found (λ picks. IsWithin (Turns picks.items))) }
    ensures bad_use { result ≡ Err WordsFault.BadUse
        → ((picks : List ℕ) → one_value text.entry ≡ picks_text (Some picks) → IsWithin (Turns picks) → ⊥) × (one_value text.entry ≡ picks_text None → ⊥) }
{
    let Some(text) = text else {
        return Ok(None);
    };
    match read_picks(alloc, text)? {
        Some(picks) => Ok(Some(picks)),
        None => Err(WordsFault::BadUse),
    }
}

/// The values of the options, each one that its option takes, with workers beside no other.
pub(crate) fn read_options(alloc: Global, cut: &CutWords<'_>) -> Result<RunOptions, WordsFault>
    ensures read { IfOk result (λ options. AreChosen cut.now (run_chosen options) × MayStand (run_chosen options)) }
    ensures bad_use { result ≡ Err WordsFault.BadUse → (chosen : Chosen) → AreChosen cut.now chosen → MayStand chosen → ⊥ }
{
    let width = read_bounded(cut.width, 64)?;
    let workers = read_bounded(cut.workers, 16)?;
    if workers.is_some() && (cut.width.is_some() || cut.turns.is_some()) {
        return Err(WordsFault::BadUse);
    }
    let turns = read_turns(alloc, cut.turns)?;
    Ok(RunOptions {
        width,
        turns,
        workers,
    })
}
