ghost use Rattle.std.specs.Prelude.{IfOk};
ghost use Rattle.script_tree.specs.Programs.{program_tree};
ghost use Rattle.agent_tests.specs.BenchState.{IsCarrying};

use crate::bench::Bench;
use crate::races::play_race;
use script_check::Checked;
use std::alloc::{AllocError, Global};
use std::io;
use std::sync::Wait;

// Does what a word of a line says.
fn play_word(
    bench: &mut Bench,
    alloc: Global,
    checked: &Checked,
    word: &str,
) -> Result<(), AllocError>
    requires { IsCarrying (program_tree checked.now) bench.old }
    ensures { IfOk result (λ _. IsCarrying (program_tree checked.now) bench.new) }
{
    if word.starts_with("{") {
        return bench.begin(alloc, checked, word);
    }
    if word == "run" || word == "turns" {
        return bench.run(alloc, checked, word == "turns");
    }
    if word == "settle" || word == "lose" {
        return bench.settle(checked, word == "settle");
    }
    bench.advance(alloc, checked, word.parse::<usize>().unwrap_or(0))
}

// Plays a line, and answers what it prints.
fn play_line(
    bench: &mut Bench,
    alloc: Global,
    checked: &Checked,
    line: &str,
) -> Result<String, AllocError>
    requires { IsCarrying (program_tree checked.now) bench.old }
    ensures { IfOk result (λ _. IsCarrying (program_tree checked.now) bench.new) }
{
    if line.starts_with("#") {
        *bench = Bench::new(alloc, checked)?;
        return format!(in alloc; "{line}\n");
    }
    for word in line.split(' ') {
        play_word(bench, alloc, checked, word)?;
    }
    Ok(bench.core.told.take_text(alloc))
}

// Plays a row of a race, or else a line.
fn play_row<R: Wait>(
    bench: &mut Bench,
    waiting: &R,
    alloc: Global,
    checked: &Checked,
    line: &str,
) -> Result<String, AllocError>
    requires { IsCarrying (program_tree checked.now) bench.old }
    ensures { IfOk result (λ _. IsCarrying (program_tree checked.now) bench.new) }
{
    match line.strip_prefix("race ") {
        Some(words) => play_race(waiting, alloc, checked, words),
        None => play_line(bench, alloc, checked, line),
    }
}

/// Plays all lines of the input, and prints what each makes. A worker waits by the second handle.
pub fn play<R: Wait>(rt: &HostRuntime, waiting: &R, checked: &Checked) -> io::Result<()> {
    let mut bench = Bench::new(rt.alloc(), checked)?;
    for line in rt.lines(rt.alloc()) {
        let text = play_row(&mut bench, waiting, rt.alloc(), checked, line?.as_str())?;
        print!(rt; "{text}")?;
    }
    Ok(())
}
