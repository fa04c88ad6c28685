ghost use Rattle.std.specs.Prelude.{◌≡◌, [], Err, IfOk, option_map, unwrap_or};
ghost use Rattle.promise_spec.specs.Words.{Command};
ghost use Rattle.promise_spec.specs.Calls.{Understands};
ghost use Rattle.command_words.specs.CutParts.{texts_of};
ghost use Rattle.command_words.specs.Options.{run_chosen, load_chosen};
ghost use Rattle.silo_top.specs.AskedCommand.{asked_command, carriage_of, MayBeCarried};

use base_types::List;
use command_words::{LoadOptions, RunOptions, Words, WordsFault, read_words};
use std::alloc::Global;

/// How lines are carried.
#[derive(Drop)]
pub(crate) enum Carriage {
    /// On one thread: how many may be in flight, and the picks.
    Turns { width: u32, picks: List<u32> },
    /// By so many workers, each a thread, that share the core.
    Workers(u32),
}

/// What the words ask for.
#[derive(Drop)]
pub(crate) enum Asked {
    /// To make a silo.
    Init,
    /// To carry the lines of the input.
    Run(Carriage),
    /// To write the states.
    Show,
    /// To write the records.
    History,
    /// To play the log again.
    Audit,
    /// To make a silo and carry a load: how many transfers are drawn from which seed.
    Load {
        transfers: u32,
        seed: u64,
        how: Carriage,
    },
    /// To run two-phase commit between silos: how many transactions are started, drawn from which seed.
    Check {
        starts: u32,
        seed: u64,
    },
    /// To write the next generation of the silo.
    Compact,
    /// To bring a program into force in the silo.
    Upgrade,
    /// To write the silo, which has format 1, into its other slot as one of format 2.
    Migrate,
}

/// The picks of an option, none where it isn't given.
fn picks_of(alloc: Global, turns: Option<Vec<u32>>) -> List<u32>
    ensures { result ≡ unwrap_or (option_map (λ picks. picks.items) turns) [] }
{
    match turns {
        Some(picks) => List::from_vec(picks),
        None => List::new(alloc),
    }
}

/// How many lines may be in flight, 1 where it isn't given.
fn width_of(width: Option<u32>) -> u32
    ensures { result ≡ unwrap_or width 1 }
{
    width.unwrap_or(1)
}

/// How a run's lines are carried.
fn run_carriage(alloc: Global, options: RunOptions) -> Carriage
    ensures { result ≡ carriage_of (run_chosen options) }
{
    match options.workers {
        Some(workers) => Carriage::Workers(workers),
        None => {
            let width = width_of(options.width);
            let picks = picks_of(alloc, options.turns);
            Carriage::Turns { width, picks }
        }
    }
}

/// How a load's lines are carried.
fn load_carriage(alloc: Global, options: LoadOptions) -> Carriage
    ensures { result ≡ carriage_of (load_chosen options) }
{
    match options.workers {
        Some(workers) => Carriage::Workers(workers),
        None => {
            let width = width_of(options.width);
            let picks = List::new(alloc);
            Carriage::Turns { width, picks }
        }
    }
}

/// The command that the words ask for.
pub(crate) fn read_asked(alloc: Global, words: &[String]) -> Result<Asked, WordsFault>
    ensures asked { IfOk result (λ asked. Understands (texts_of words.now) (asked_command asked)) }
    ensures bounds { IfOk result MayBeCarried }
    ensures bad_use { result ≡ Err WordsFault.BadUse → (c : Command) → Understands (texts_of words.now) c → ⊥ }
{
    match read_words(alloc, words)? {
        Words::Init => Ok(Asked::Init),
        Words::Run(options) => {
            let how = run_carriage(alloc, options);
            Ok(Asked::Run(how))
        }
        Words::Show => Ok(Asked::Show),
        Words::History => Ok(Asked::History),
        Words::Audit => Ok(Asked::Audit),
        Words::Load(options) => {
            let transfers = options.transfers;
            let seed = options.seed;
            let how = load_carriage(alloc, options);
            Ok(Asked::Load {
                transfers,
                seed,
                how,
            })
        }
        Words::Check(numbers) => Ok(Asked::Check {
            starts: numbers.starts,
            seed: numbers.seed,
        }),
        Words::Compact => Ok(Asked::Compact),
        Words::Upgrade => Ok(Asked::Upgrade),
        Words::Migrate => Ok(Asked::Migrate),
    }
}
