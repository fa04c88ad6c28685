ghost use Rattle.std.specs.Prelude.{◌≡◌, ◌⊎◌, IsTrue, IfOk, IfErr, OnErr};
ghost use Rattle.host_trait.specs.Files.{StaysReady};
ghost use Rattle.promise_spec.specs.Words as command;
ghost use Rattle.promise_spec.specs.Commands.{MakesSilo};
ghost use Rattle.promise_spec.specs.Endings.{BadUse, Memory};
ghost use Rattle.promise_spec.specs.Calls.{Understands, Serves, AnswersAs};
ghost use Rattle.command_words.specs.CutParts.{texts_of};
ghost use Rattle.silo_top.specs.CallAnswers.{shown};
ghost use Rattle.silo_top.specs.AskedCommand.{AskForNoWorkers, left_command, MayBeLeft};
ghost use Rattle.silo_opening.specs.CommandCalls.{HasCalledAs};
ghost use Rattle.silo_top.specs.Statuses.{status_ending};

use crate::asked_command::{Asked, Carriage, read_asked};
use crate::check_command::check;
use crate::compact_command::compact;
use crate::load_command::{load_by_workers, load_in_turns};
use crate::migrate_command::migrate;
use crate::report_commands::{audit, history, show};
use crate::run_command::{run_by_workers, run_in_turns};
use crate::status::Status;
use crate::upgrade_command::upgrade;
use command_words::WordsFault;
use host_trait::Host;
use settle_loop::Gate;
use silo_opening::{InitFault, init};
use std::alloc::Global;
use std::sync::Wait;
use std::thread::Threads;

/// Makes a silo of the program that is the input.
fn make<H: Host>(alloc: Global, host: &mut H) -> Status
    ensures makes { IsTrue H.tells → MakesSilo
        (shown (H.world host.old) (H.world host.new) (H.faults host.old) (H.faults host.new) result command.Init) }
    ensures calls { HasCalledAs (status_ending result) H.is_ready H.faults host.old host.new }
    ensures good { status_ending result ≡ BadUse → ⊥ }
{
    match init(alloc, host) {
        Ok(()) => Status::Done,
        Err(InitFault::ReadFault) => Status::ReadFault,
        Err(InitFault::InputTooLong) => Status::InputTooLong { line: 0 },
        Err(InitFault::BadProgram(fault)) => Status::BadProgram { fault },
        Err(InitFault::AlreadyASilo) => Status::AlreadyASilo,
        Err(InitFault::DiskFault { file }) => Status::DiskFault { file },
        Err(InitFault::Memory) => Status::Memory,
    }
}

/// A command that words leave to workers.
#[derive(Clone, Copy, Debug, PartialEq, Eq)]
pub enum ByWorkers {
    /// To carry the lines of the input by so many.
    Run {
        workers: u32,
    },
    /// To make a silo and carry a load by so many: how many transfers are drawn from which seed.
    Load {
        transfers: u32,
        seed: u64,
        workers: u32,
    },
}

/// Does all that the program does on one thread, and answers how it ended. Words that ask for workers aren't obeyed: the error is
/// what they ask for, and nothing was done. By how many workers is no part of a manner, so no clause ties that to the words.
/// [`run_silo`] says what each command does.
///
/// It starts no thread and waits for none, as its type says: it takes neither `Threads` nor `Wait`. So it returns, where the calls
/// of its host and its gate do.
pub fn run_alone<H: Host, G: Gate>(
    alloc: Global,
    words: &[String],
    host: &mut H,
    gate: &G,
) -> Result<Status, ByWorkers>
    // What the command promises that the words say, and that all other words are bad use.
    ensures serves { IfOk result (λ status. IsTrue H.tells → Serves (texts_of words.now)
        (shown (H.world host.old) (H.world host.new) (H.faults host.old) (H.faults host.new) status)) }

    // What the counts of faults say of the answer, over every host.
    ensures answers { IfOk result (λ status. AnswersAs (texts_of words.now) (status_ending status) (H.faults host.old) (H.faults host.new)) }

    // It obeys no words that ask for workers.
    ensures alone { IfOk result (λ answer. (status_ending answer ≡ Memory) ⊎ AskForNoWorkers (texts_of words.now)) }

    // Only what the words leave to workers isn't done, and of that nothing.
    ensures left { IfErr result (λ left. Understands (texts_of words.now) (left_command left)) }
    ensures bounds { IfErr result MayBeLeft }
    ensures unused { OnErr result (host.new ≡ host.old) }
    ensures ready { StaysReady (H.is_ready host.old) (H.is_ready host.new) }
{
    match read_asked(alloc, words) {
        Ok(Asked::Init) => Ok(make(alloc, host)),
        Ok(Asked::Run(Carriage::Turns { width, picks })) => {
            Ok(run_in_turns(alloc, host, gate, width, &picks))
        }
        Ok(Asked::Run(Carriage::Workers(workers))) => Err(ByWorkers::Run { workers }),
        Ok(Asked::Show) => Ok(show(alloc, host)),
        Ok(Asked::History) => Ok(history(alloc, host)),
        Ok(Asked::Audit) => Ok(audit(alloc, host)),
        Ok(
            Asked::Load {
                transfers,
                seed,
                how: Carriage::Turns { width, picks },
            },
        ) => { Ok(load_in_turns(alloc, host, gate, transfers, seed, width, &picks)) }
        Ok(
            Asked::Load {
                transfers,
                seed,
                how: Carriage::Workers(workers),
            },
        ) => Err(ByWorkers::Load {
            transfers,
            seed,
            workers,
        }),
        Ok(Asked::Check { starts, seed }) => Ok(check(alloc, host, starts, seed)),
        Ok(Asked::Compact) => Ok(compact(alloc, host)),
        Ok(Asked::Upgrade) => Ok(upgrade(alloc, host)),
        Ok(Asked::Migrate) => Ok(migrate(alloc, host)),
        Err(WordsFault::BadUse) => Ok(Status::BadUse),
        Err(WordsFault::Memory) => Ok(Status::Memory),
    }
}

/// Does all that the program does, and answers how it ended.
///
/// `words` are those of the command line after the folder: `init`, `run` with a width and picks or with workers, `show`,
/// `history`, `audit`, `load` with two numbers and a width or workers, `check` with two numbers, `compact`, `upgrade`, or
/// `migrate`. All else is `BadUse`, and nothing is done then.
///
/// `init` reads a program's text from the input, and makes the folder a silo of it with an empty log.
///
/// `run` opens the silo, reads the input in windows of 4,096 lines, and carries the lines of each as calls of the silo's program before
/// it reads the next: it answers each with a reply line, and each that commits has its record in the log before.
///
/// `show` writes the state of each grain that has one in the store, `history` each record and each upgrade behind the log's base, and
/// `audit` the unit of the first record that doesn't replay; `show` and `audit` tell how many entries there are. They leave the folder
/// as it is.
///
/// `load` makes the folder a silo of the bank program, carries lines that it draws from a seed, and prints one summary line.
///
/// `check` runs two-phase commit between silos over a link that loses, repeats and reorders, with transactions that it draws from a
/// seed, and prints one summary line. It doesn't use the folder.
///
/// `compact` writes the silo's next generation into its other slot. `upgrade` reads a program's text from the input, and brings it into
/// force in the silo as the last entry of its log. `migrate` writes a silo of format 1 into its other slot as one of format 2, with the
/// same log; every other command that opens a silo opens one of format 2.
///
/// What each of them promises, at each moment and at its end, is `Serves`, over a host that tells what it holds. Over any host
/// a fault is answered only where a call on its channel failed, or its count stands at its last value, and no failed call on the input
/// or the output is passed over (`AnswersAs`).
///
/// It is [`run_alone`], and adds the workers. By them it may wait (`Wait`): each clause holds of a call that returns, and none says that
/// it does. A call whose words ask for no workers returns, where the calls of its host and its gate do.
pub fn run_silo<Rt: Threads + Wait + Sync, H: Host, G: Gate + Sync>(
    rt: &Rt,
    alloc: Global,
    words: &[String],
    host: &mut H,
    gate: &G,
) -> Status
    // What the command promises that the words say, and that all other words are bad use.
    ensures serves { IsTrue H.tells → Serves (texts_of words.now)
        (shown (H.world host.old) (H.world host.new) (H.faults host.old) (H.faults host.new) result) }

    // What the counts of faults say of the answer, over every host.
    ensures answers { AnswersAs (texts_of words.now) (status_ending result) (H.faults host.old) (H.faults host.new) }
    ensures ready { StaysReady (H.is_ready host.old) (H.is_ready host.new) }
{
    match run_alone(alloc, words, host, gate) {
        Ok(status) => status,
        Err(ByWorkers::Run { workers }) => run_by_workers(rt, alloc, host, gate, workers),
        Err(
            ByWorkers::Load {
                transfers,
                seed,
                workers,
            },
        ) => { load_by_workers(rt, alloc, host, gate, transfers, seed, workers) }
    }
}
