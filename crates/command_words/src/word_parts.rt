//! Words cut into options and numbers.
ghost use Rattle.std.specs.Prelude.{◌≡◌, ◌⊎◌, ◌≤◌, ℕ, List, false, [], Ok, Err, IfOk, length, drop, codes, string_bytes, MatchResult};
ghost use Rattle.std.specs.List.{list_any};
ghost use Rattle.clap.specs.Walk.{rule_of};
ghost use Rattle.clap.specs.Simple.{app_of};
ghost use Rattle.clap.specs.Matches.{found_of};
ghost use Rattle.command_words.specs.Parts.{WordPart, is_stray};
ghost use Rattle.command_words.specs.Clap.{option_rule, number_rule, silo_app, matched_values, SaysParts};
ghost use Rattle.command_words.specs.CutParts.{texts_of, HaveParts, AreFew, AreCutInto, one_value, two_values};

use crate::faults::WordsFault;
use clap::error::ErrorKind;
use clap::{Arg, ArgAction, ArgMatches, Command};
use std::alloc::{AllocError, Global};

/// The values of the options, and the two words that are none.
#[derive(Debug, Clone, Copy)]
pub(crate) struct CutWords<'a> {
    pub(crate) width: Option<&'a str>,
    pub(crate) turns: Option<&'a str>,
    pub(crate) workers: Option<&'a str>,
    pub(crate) numbers: Option<(&'a str, &'a str)>,
}

/// Whether the word is two dashes alone, or begins with one dash and is longer: no option and no number. `clap` would pass over
/// the two dashes, and read the other as short flags.
fn is_stray(word: &str) -> bool
    ensures { result ≡ is_stray word.now }
{
    match word.as_bytes() {
        [first, _] => *first == b'-',
        [first, second, _, ..] => *first == b'-' && *second != b'-',
        _ => false,
    }
}

/// Whether one of the words is stray.
fn any_stray(words: &[String]) -> bool
    ensures { result ≡ list_any (λ word. is_stray (string_bytes word)) words.now }
{
    words.iter().any(|word| is_stray(word.as_str()))
}

/// Whether a word behind the first is stray.
fn has_stray(words: &[String]) -> bool
    ensures { result ≡ list_any is_stray (drop 1 (texts_of words.now)) }
{
    match words {
        [] => false,
        [_, rest @ ..] => any_stray(rest),
    }
}

/// An option of this name, with its value. `clap` keeps each value that is given.
fn option_arg<'a>(alloc: Global, name: &'a str) -> Arg<'a>
    ensures rule { rule_of result ≡ option_rule name.now }
    ensures local { result.global ≡ false }
{
    Arg::new(alloc, name).long(name).action(ArgAction::Append)
}

/// The words that are no option.
fn number_arg<'a>(alloc: Global) -> Arg<'a>
    ensures rule { rule_of result ≡ number_rule }
    ensures local { result.global ≡ false }
{
    Arg::new(alloc, "number").action(ArgAction::Append)
}

/// The command, whose options are those of all commands of the program.
fn silo_command<'a>(alloc: Global) -> Result<Command<'a>, AllocError>
    ensures { IfOk result (λ command. app_of command ≡ silo_app) }
{
    let command = Command::new(alloc, "silo").disable_help_flag(true);
    let command = command.arg(option_arg(alloc, "width"))?;
    let command = command.arg(option_arg(alloc, "turns"))?;
    let command = command.arg(option_arg(alloc, "workers"))?;
    command.arg(number_arg(alloc))
}

/// What `clap` finds in the words behind the first, which are not stray.
fn parse_words<'a>(alloc: Global, words: &'a [String]) -> Result<ArgMatches<'a>, WordsFault>
    ensures parts { IfOk result (λ matches. (parts : List WordPart)
        × HaveParts (drop 1 (texts_of words.now)) parts × SaysParts (found_of matches) parts) }
    ensures bad_use { result ≡ Err WordsFault.BadUse → (parts : List WordPart)
        → HaveParts (drop 1 (texts_of words.now)) parts → ⊥ }
{
    if has_stray(words) {
        return Err(WordsFault::BadUse);
    }
    let command = silo_command(alloc)?;
    match command.try_get_matches_from(words) {
        Ok(matches) => Ok(matches),
        Err(error) => {
            if error.kind() == ErrorKind::OutOfMemory {
                return Err(WordsFault::Memory);
            }
            Err(WordsFault::BadUse)
        }
    }
}

/// The value of an option that is given at most once.
fn single<'a>(matches: &ArgMatches<'a>, id: &str) -> Result<Option<&'a str>, WordsFault>
    ensures { MatchResult result (λ value. matched_values (found_of matches.now) id.now ≡ one_value value)
        (λ fault. (fault ≡ WordsFault.BadUse) × (length (matched_values (found_of matches.now) id.now) ≤ 1 → ⊥)) }
{
    match matches.get_strs(id) {
        None => Ok(None),
        Some([]) => Ok(None),
        Some([value]) => Ok(Some(*value)),
        Some([_, _, ..]) => Err(WordsFault::BadUse),
    }
}

/// The words that are no option: two, or none.
fn pair<'a>(matches: &ArgMatches<'a>) -> Result<Option<(&'a str, &'a str)>, WordsFault>
    ensures { MatchResult result (λ numbers. matched_values (found_of matches.now) (codes "number") ≡ two_values numbers)
        (λ fault. (fault ≡ WordsFault.BadUse)
        × ((length (matched_values (found_of matches.now) (codes "number")) ≡ 0)
        ⊎ (length (matched_values (found_of matches.now) (codes "number")) ≡ 2) → ⊥)) }
{
    match matches.get_strs("number") {
        None => Ok(None),
        Some([]) => Ok(None),
        Some([first, second]) => Ok(Some((*first, *second))),
        Some(_) => Err(WordsFault::BadUse),
    }
}

/// The words behind the first, cut into options and numbers. `BadUse` where they have no such parts, an option comes twice, or
/// the words that are no option are neither two nor none.
pub(crate) fn cut_words<'a>(alloc: Global, words: &'a [String]) -> Result<CutWords<'a>, WordsFault>
    ensures cut { IfOk result (λ cut. (parts : List WordPart)
        × HaveParts (drop 1 (texts_of words.now)) parts × AreCutInto parts cut) }
    ensures bad_use { result ≡ Err WordsFault.BadUse → (parts : List WordPart)
        → HaveParts (drop 1 (texts_of words.now)) parts → AreFew parts → ⊥ }
{
    let matches = parse_words(alloc, words)?;
    let width = single(&matches, "width")?;
    let turns = single(&matches, "turns")?;
    let workers = single(&matches, "workers")?;
    let numbers = pair(&matches)?;
    Ok(CutWords {
        width,
        turns,
        workers,
        numbers,
    })
}
