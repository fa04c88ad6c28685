//! The words of a command, read.
ghost use Rattle.std.specs.Prelude.{◌≡◌, ◌≤◌, ℕ, Bool, List, [], ◌∷◌, None, Err, IfOk, IfSome, drop, decimal};
ghost use Rattle.promise_spec.specs.Words.{GivenOption, Command, Say};
ghost use Rattle.command_words.specs.CutParts.{texts_of};
ghost use Rattle.command_words.specs.Options.{Chosen, Ask, AreLoadNumbers, is_first, run_chosen, load_chosen, has_option, command_of, AreCheckNumbers};

use crate::faults::WordsFault;
use crate::numbers::{read_large, read_small};
use crate::options::read_options;
use crate::word_parts::cut_words;
use crate::words::{CheckNumbers, LoadOptions, RunOptions, Words};
use std::alloc::Global;

/// The most transfers of a load.
const TRANSFER_LIMIT: u32 = 100_000;

/// The most starts of a check.
const START_LIMIT: u32 = 10_000;

/// The options of a run.
fn read_run(alloc: Global, words: &[String]) -> Result<RunOptions, WordsFault>
    ensures said { IfOk result (λ options. Ask (drop 1 (texts_of words.now)) (run_chosen options) []) }
    ensures bad_use { result ≡ Err WordsFault.BadUse → (chosen : Chosen) → Ask (drop 1 (texts_of words.now)) chosen [] → ⊥ }
{
    let cut = cut_words(alloc, words)?;
    if cut.numbers.is_some() {
        return Err(WordsFault::BadUse);
    }
    read_options(alloc, &cut)
}

/// The numbers and options of a load.
fn read_load(alloc: Global, words: &[String]) -> Result<LoadOptions, WordsFault>
    ensures said { IfOk result (λ options. AreLoadNumbers options.transfers options.seed
        × Ask (drop 1 (texts_of words.now)) (load_chosen options) (decimal options.transfers ∷ decimal options.seed ∷ [])) }
    ensures bad_use { result ≡ Err WordsFault.BadUse → (chosen : Chosen) (transfers seed : ℕ) → AreLoadNumbers transfers seed → chosen.turns ≡ None
        → Ask (drop 1 (texts_of words.now)) chosen (decimal transfers ∷ decimal seed ∷ []) → ⊥ }
{
    let cut = cut_words(alloc, words)?;
    let Some((first, second)) = cut.numbers else {
        return Err(WordsFault::BadUse);
    };
    let Some(transfers) = read_small(first) else {
        return Err(WordsFault::BadUse);
    };
    if transfers == 0 || transfers > TRANSFER_LIMIT {
        return Err(WordsFault::BadUse);
    }
    let Some(seed) = read_large(second) else {
        return Err(WordsFault::BadUse);
    };
    if cut.turns.is_some() {
        return Err(WordsFault::BadUse);
    }
    let options = read_options(alloc, &cut)?;
    Ok(LoadOptions {
        transfers,
        seed,
        width: options.width,
        workers: options.workers,
    })
}

/// How many starts of a check a text spells.
fn read_starts(text: &str) -> Option<u32>
    ensures some { IfSome result (λ n. (text.now ≡ decimal n) × (n ≤ 10000)) }
    ensures none { result ≡ None → (n : ℕ) → n ≤ 10000 → text.now ≡ decimal n → ⊥ }
{
    let Some(starts) = read_small(text) else {
        return None;
    };
    if starts > START_LIMIT {
        return None;
    }
    Some(starts)
}

/// The numbers of a check, which are all words behind the first.
fn read_check(words: &[String]) -> Result<CheckNumbers, WordsFault>
    ensures said { IfOk result (λ numbers. AreCheckNumbers numbers.starts numbers.seed
        × (drop 1 (texts_of words.now) ≡ decimal numbers.starts ∷ decimal numbers.seed ∷ [])) }
    ensures bad_use { result ≡ Err WordsFault.BadUse → (starts seed : ℕ) → AreCheckNumbers starts seed
        → drop 1 (texts_of words.now) ≡ decimal starts ∷ decimal seed ∷ [] → ⊥ }
{
    let [_, first, second] = words else {
        return Err(WordsFault::BadUse);
    };
    let Some(starts) = read_starts(first.as_str()) else {
        return Err(WordsFault::BadUse);
    };
    let Some(seed) = read_large(second.as_str()) else {
        return Err(WordsFault::BadUse);
    };
    Ok(CheckNumbers { starts, seed })
}

/// Whether the first word is this one.
fn first_is(words: &[String], name: &str) -> bool
    ensures { result ≡ is_first name.now (texts_of words.now) }
{
    match words {
        [] => false,
        [first, ..] => first.as_str() == name,
    }
}

/// The command that words say, with its options. `words` are those of the command line after the folder.
///
/// # Errors
///
/// `BadUse` where they say no command, and only there; `Memory` may come at any place.
pub fn read_words(alloc: Global, words: &[String]) -> Result<Words, WordsFault>
    ensures said { IfOk result (λ said. Say (has_option said) (texts_of words.now) (command_of said)) }
    ensures bad_use { result ≡ Err WordsFault.BadUse → (takes : GivenOption → Bool) (command : Command)
        → Say takes (texts_of words.now) command → ⊥ }
{
    if first_is(words, "run") {
        return Ok(Words::Run(read_run(alloc, words)?));
    }
    if first_is(words, "load") {
        return Ok(Words::Load(read_load(alloc, words)?));
    }
    if first_is(words, "check") {
        return Ok(Words::Check(read_check(words)?));
    }
    if words.len() != 1 {
        return Err(WordsFault::BadUse);
    }
    if first_is(words, "init") {
        return Ok(Words::Init);
    }
    if first_is(words, "show") {
        return Ok(Words::Show);
    }
    if first_is(words, "history") {
        return Ok(Words::History);
    }
    if first_is(words, "audit") {
        return Ok(Words::Audit);
    }
    if first_is(words, "compact") {
        return Ok(Words::Compact);
    }
    if first_is(words, "upgrade") {
        return Ok(Words::Upgrade);
    }
    if first_is(words, "migrate") {
        return Ok(Words::Migrate);
    }
    Err(WordsFault::BadUse)
}
