// Rows of races: a worker carries lines while another puts events of its own between its calls.
ghost use Rattle.std.specs.Prelude.{◌≡◌, [], IfOk, ◌<◌};
ghost use Rattle.cell_table.specs.Table.{used_of};
ghost use Rattle.history_core.specs.Cores.{run_of};
ghost use Rattle.turn_cell.specs.Passes.{IsPassOf, pass_view};

use crate::deeds::{Planned, planned_by};
use crate::event_texts::Told;
use crate::shared_core::SharedCore;
use activations::Recent;
use base_types::{Store, UnitNo};
use cell_table::OpeningStates;
use core_model::{CoreAnswer, CoreQuestion};
use history_core::{Core, Opening};
use run_lines::InputLines;
use script_check::Checked;
use settle_loop::{Gate, GatePlace};
use std::alloc::{AllocError, Global};
use std::marker::PhantomData;
use std::num::NonZeroUsize;
use std::sync::Wait;
use turn_cell::{Pass, TurnCell, TurnObject};
use unit_crew::carry_lines;
use worker_signals::Signals;

// How long the lines of a race may be.
const LONGEST: usize = 65536;

/// A gate that nobody watches.
#[derive(Drop)]
struct Unwatched;

impl Gate for Unwatched {
    fn reach(&self, _place: GatePlace) {}
}

/// What a row of a race says: the lines of the worker, what another does between its looks and its events, and of how many grains
/// the core keeps the cells in memory; of all where that isn't said.
#[derive(Drop)]
struct Race {
    input: String,
    plan: Vec<Planned>,
    memory: Option<NonZeroUsize>,
}

// The number of grains that a word gives the core memory for, as `memory:2`.
fn memory_of(word: &str) -> Option<NonZeroUsize> {
    let count = word.strip_prefix("memory:")?;
    NonZeroUsize::new(count.parse::<usize>().ok()?)
}

// A word of a row. One that says nothing is left out.
fn add_word(race: &mut Race, word: &str) -> Result<(), AllocError> {
    if word.starts_with("{") {
        race.input.push_str(word)?;
        race.input.push_str("\n")?;
    } else if let Some(count) = memory_of(word) {
        race.memory = Some(count);
    } else if let Some(planned) = planned_by(word) {
        race.plan.push(planned)?;
    }
    Ok(())
}

// What the words of a row say.
fn race_of(alloc: Global, words: &str) -> Result<Race, AllocError> {
    let mut race = Race {
        input: String::new(alloc),
        plan: Vec::new(alloc),
        memory: None,
    };
    for word in words.split(' ') {
        match add_word(&mut race, word) {
            Ok(()) => {}
            Err(error) => {
                drop(race);
                return Err(error);
            }
        }
    }
    Ok(race)
}

// Writes lines, where one that comes several times in a row is written once, with how often it came.
fn add_folded(out: &mut String, text: &str) -> Result<(), AllocError> {
    let mut last = "";
    let mut times = 0u32;
    for line in text.lines() {
        if line == last {
            times = times.wrapping_add(1);
        } else {
            add_times(out, last, times)?;
            last = line;
            times = 1;
        }
    }
    add_times(out, last, times)
}

fn add_times(out: &mut String, line: &str, times: u32) -> Result<(), AllocError> {
    match times {
        0 => Ok(()),
        1 => write!(out, "{line}\n"),
        _ => write!(out, "{times} times: {line}\n"),
    }
}

fn folded(alloc: Global, text: &str) -> Result<String, AllocError> {
    let mut out = String::new(alloc);
    add_folded(&mut out, text)?;
    Ok(out)
}

// None of the grains used last yet, of which so many stay in memory.
fn unused(alloc: Global, memory: Option<NonZeroUsize>) -> Result<Option<Recent>, AllocError>
    ensures { IfOk result (λ made. used_of made ≡ []) }
{
    let Some(limit) = memory else {
        return Ok(None);
    };
    let recent = Recent::new(alloc, limit)?;
    Ok(Some(recent))
}

// A core without units, whose grains all have the fields of their types, with memory for so many.
fn new_core(
    alloc: Global,
    checked: &Checked,
    memory: Option<NonZeroUsize>,
) -> Result<Core, AllocError>
    ensures { IfOk result (λ core. 0 < (run_of core).base) }
{
    let recent = unused(alloc, memory)?;
    let shape = match checked.shape() {
        Ok(shape) => shape,
        Err(error) => {
            drop(recent);
            return Err(error);
        }
    };
    let opened = Opening {
        shape,
        opened: OpeningStates::Stored(Store::new(alloc)),
        next_unit: UnitNo(1),
        recent,
        keeps_last: false,
    };
    Ok(Core::new(alloc, opened))
}

// Carries the lines by one worker, and answers what it and the other did.
fn carry<R: Wait>(
    rt: &R,
    alloc: Global,
    checked: &Checked,
    race: &Race,
    cell: &TurnCell<Core>,
    pass: Pass<Core>,
    other: Pass<Core>,
) -> Result<String, AllocError>
    requires own { IsPassOf cell.now pass × IsPassOf cell.now other }
    requires above { 0 < (run_of (pass_view pass).first).base }
    requires fresh { (pass_view pass).hand.mine ≡ [] }
{
    let _named: PhantomData<(CoreQuestion, CoreAnswer)> = PhantomData;
    let input = race.input.as_bytes();
    if input.len() > LONGEST {
        return Err(AllocError);
    }
    let mut lines = InputLines::new(checked, input);
    let mut shared = SharedCore {
        rt,
        alloc,
        cell,
        pass,
        other,
        plan: race.plan.as_slice(),
        looks: 0,
        events: 0,
        told: Told::new(alloc),
    };
    let signals = Signals::new();
    let carried = carry_lines(
        rt,
        alloc,
        checked,
        &mut lines,
        0,
        &mut shared,
        &Unwatched,
        &signals,
    );
    let SharedCore {
        rt: _rt,
        alloc: _alloc,
        cell: _cell,
        pass: _pass,
        other: _other,
        plan: _plan,
        looks: _looks,
        events: _events,
        told,
    } = shared;
    if carried.is_err() {
        return Err(AllocError);
    }
    let mut told = told;
    let text = told.take_text(alloc);
    folded(alloc, text.as_str())
}

/// Carries lines by one worker over a core that it shares with another, and answers the events of both, one a line.
pub fn play_race<R: Wait>(
    rt: &R,
    alloc: Global,
    checked: &Checked,
    words: &str,
) -> Result<String, AllocError> {
    let _named: PhantomData<(CoreQuestion, CoreAnswer)> = PhantomData;
    let race = race_of(alloc, words)?;
    let core = new_core(alloc, checked, race.memory)?;
    match TurnCell::new(alloc, core) {
        Ok((cell, pass)) => {
            let (pass, other) = cell.split(pass);
            let carried = carry(rt, alloc, checked, &race, &cell, pass, other);
            drop(cell);
            drop(race);
            carried
        }
        Err(AllocError) => Err(AllocError),
    }
}
