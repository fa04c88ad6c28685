// Units that add to accounts, as a core takes them.
ghost use Rattle.std.specs.Prelude.{◌≡◌, [], length, IfOk};
ghost use Rattle.cell_table.specs.Table.{used_of};

use activations::Recent;
use base_types::{
    Call, GrainId, List, Mode, Origin, Outcome, Shape, State, Store, Text, TypeShape, UnitNo, Value,
};
use cell_table::OpeningStates;
use core_model::{CoreEvent, CoreReply, Effect, Read};
use history_core::{Core, Opening};
use program_file::accept;
use script_check::Checked;
use std::alloc::{AllocError, Global};
use std::mem;
use std::num::NonZeroUsize;

/// An account.
pub fn account(key: u32) -> GrainId {
    GrainId { kind: 0, key }
}

/// The state of an account with this number.
pub fn number_state(alloc: Global, number: i64) -> Result<State, AllocError> {
    let mut state = State::new(alloc);
    state.push(Value::Int(number))?;
    Ok(state)
}

/// A program of accounts: one field, 0 at first, and one method with one parameter.
pub fn new_shape(alloc: Global) -> Result<Shape, AllocError> {
    let Some(name) = Text::new(alloc, "account")? else {
        return Err(AllocError);
    };
    let initial = number_state(alloc, 0)?;
    let mut params = List::new(alloc);
    params.push(1)?;
    let mut types = List::new(alloc);
    types.push(TypeShape {
        name,
        initial,
        params,
    })?;
    Ok(Shape { types })
}

/// The program that the shape is of, alone.
pub fn new_programs(alloc: Global) -> Result<List<Checked>, AllocError>
    ensures { IfOk result (λ made. length made ≡ 1) }
{
    let Ok(program) = accept(alloc, b"type account { field balance = 0; }") else {
        return Err(AllocError);
    };
    let mut programs = List::new(alloc);
    match programs.push(program) {
        Ok(()) => Ok(programs),
        Err(failed) => {
            drop(failed);
            drop(programs);
            Err(AllocError)
        }
    }
}

// The accounts that were used last, of which there are at most so many: none yet.
fn recent_of(alloc: Global, limit: usize) -> Result<Option<Recent>, AllocError>
    ensures { IfOk result (λ recent. used_of recent ≡ []) }
{
    match NonZeroUsize::new(limit) {
        Some(limit) => Ok(Some(Recent::new(alloc, limit)?)),
        None => Ok(None),
    }
}

/// Its core, whose next unit is 1. So many accounts that aren't in use stay in memory; where that is 0 each one is there from the first.
pub fn new_core(alloc: Global, limit: usize) -> Result<Core, AllocError> {
    let recent = recent_of(alloc, limit)?;
    let shape = match new_shape(alloc) {
        Ok(shape) => shape,
        Err(error) => {
            drop(recent);
            return Err(error);
        }
    };
    Ok(Core::new(
        alloc,
        Opening {
            shape,
            opened: OpeningStates::Stored(Store::new(alloc)),
            next_unit: UnitNo(1),
            recent,
            keeps_last: false,
        },
    ))
}

fn put(core: &mut Core, event: CoreEvent) -> Result<CoreReply, AllocError> {
    match core.step(event) {
        Ok(reply) => Ok(reply),
        Err((error, back)) => {
            drop(back);
            Err(error)
        }
    }
}

// Puts an event that is answered by no more than whether it applies.
fn put_plain(core: &mut Core, event: CoreEvent) -> Result<bool, AllocError> {
    let reply = put(core, event)?;
    let is_done = match &reply {
        CoreReply::Done => true,
        _ => false,
    };
    drop(reply);
    Ok(is_done)
}

// A call that adds a number to an account.
fn call_on(alloc: Global, add: Add) -> Result<Call, AllocError> {
    let mut args = List::new(alloc);
    args.push(Value::Int(add.number))?;
    Ok(Call {
        grain: account(add.key),
        method: 0,
        args,
    })
}

/// A number that a unit adds to an account, or a read of it, where that is 0.
#[derive(Clone, Copy)]
pub struct Add {
    pub key: u32,
    pub number: i64,
}

// A unit for the next line, called to make this addition; none where it doesn't begin.
fn begin(
    alloc: Global,
    core: &mut Core,
    line: u32,
    add: Add,
) -> Result<Option<UnitNo>, AllocError> {
    let event = CoreEvent::Begin {
        origin: Origin::Line(line),
        call: call_on(alloc, add)?,
        plain: false,
    };
    let reply = put(core, event)?;
    let unit = match &reply {
        CoreReply::Began { unit } => Some(*unit),
        _ => None,
    };
    drop(reply);
    Ok(unit)
}

// Locks an account; none where it isn't granted.
fn grant(core: &mut Core, unit: UnitNo, grain: GrainId) -> Result<Option<Read>, AllocError> {
    let mode = Mode::Update;
    match put(core, CoreEvent::Grant { unit, grain, mode })? {
        CoreReply::Granted { state, source } => Ok(Some(Read {
            grain,
            state,
            source,
        })),
        reply => {
            drop(reply);
            Ok(None)
        }
    }
}

fn number_in(read: &Read) -> i64 {
    match read.state.get(0) {
        Some(Value::Int(number)) => *number,
        _ => 0,
    }
}

// The effect of a unit that has done nothing yet.
fn empty_effect(alloc: Global, line: u32, unit: UnitNo, call: Call) -> Effect {
    Effect {
        unit,
        origin: Origin::Line(line),
        call,
        answers: List::new(alloc),
        reads: List::new(alloc),
        writes: List::new(alloc),
        result: Outcome::Aborted,
    }
}

// The unit makes an addition, and what it did has that. Its result is what the first account has then.
fn make(alloc: Global, effect: &mut Effect, add: Add, read: Read) -> Result<(), AllocError> {
    let number = number_in(&read).wrapping_add(add.number);
    if effect.reads.is_empty() {
        drop(mem::replace(&mut effect.result, Outcome::Value(Value::Int(number))));
    }
    effect.reads.push(read)?;
    if add.number != 0 {
        let state = number_state(alloc, number)?;
        effect.writes.push((account(add.key), state))?;
    }
    Ok(())
}

// All its additions, where each lock is granted.
fn make_all(
    alloc: Global,
    core: &mut Core,
    effect: &mut Effect,
    adds: &[Add],
) -> Result<bool, AllocError> {
    for add in adds {
        match grant(core, effect.unit, account(add.key))? {
            Some(read) => make(alloc, effect, *add, read)?,
            None => return Ok(false),
        }
    }
    Ok(true)
}

// The unit ends.
fn finish(core: &mut Core, effect: Effect) -> Result<bool, AllocError> {
    let unit = effect.unit;
    put_plain(core, CoreEvent::Finish { unit, effect })
}

fn release_all(core: &mut Core, unit: UnitNo, adds: &[Add]) -> Result<bool, AllocError> {
    for add in adds {
        let grain = account(add.key);
        if !put_plain(core, CoreEvent::Release { unit, grain })? {
            return Ok(false);
        }
    }
    Ok(true)
}

// The unit makes these additions, ends and releases.
fn run(
    alloc: Global,
    core: &mut Core,
    mut effect: Effect,
    adds: &[Add],
) -> Result<bool, AllocError> {
    let unit = effect.unit;
    match make_all(alloc, core, &mut effect, adds) {
        Ok(true) => {}
        made => {
            drop(effect);
            return made;
        }
    }
    Ok(finish(core, effect)? && release_all(core, unit, adds)?)
}

/// The next line's unit makes these additions, and ends. It is called for the first of them. Whether each event applied.
pub fn carry_out(
    alloc: Global,
    core: &mut Core,
    line: u32,
    first: Add,
    adds: &[Add],
) -> Result<bool, AllocError> {
    match begin(alloc, core, line, first)? {
        Some(unit) => {
            let call = call_on(alloc, first)?;
            run(alloc, core, empty_effect(alloc, line, unit, call), adds)
        }
        None => Ok(false),
    }
}

/// A unit that has begun, and wants the account of its first addition to be in memory.
#[derive(Clone, Copy)]
pub struct Waiting {
    unit: UnitNo,
    line: u32,
    first: Add,
}

/// The next line's unit begins, called for this addition, and wants its account to be in memory. None where an event doesn't apply.
pub fn want(
    alloc: Global,
    core: &mut Core,
    line: u32,
    first: Add,
) -> Result<Option<Waiting>, AllocError> {
    let Some(unit) = begin(alloc, core, line, first)? else {
        return Ok(None);
    };
    let grain = account(first.key);
    if !put_plain(core, CoreEvent::Want { unit, grain })? {
        return Ok(None);
    }
    Ok(Some(Waiting { unit, line, first }))
}

// What the unit of a line did that made this addition alone.
fn added(
    alloc: Global,
    line: u32,
    unit: UnitNo,
    first: Add,
    read: Read,
) -> Result<Effect, AllocError> {
    let call = match call_on(alloc, first) {
        Ok(call) => call,
        Err(error) => {
            drop(read);
            return Err(error);
        }
    };
    let mut effect = empty_effect(alloc, line, unit, call);
    match make(alloc, &mut effect, first, read) {
        Ok(()) => Ok(effect),
        Err(error) => {
            drop(effect);
            Err(error)
        }
    }
}

/// A unit that waited makes its addition, and ends. Whose version it added to; none where an event doesn't apply.
pub fn go_on(
    alloc: Global,
    core: &mut Core,
    waiting: Waiting,
) -> Result<Option<UnitNo>, AllocError> {
    let Waiting { unit, line, first } = waiting;
    let Some(read) = grant(core, unit, account(first.key))? else {
        return Ok(None);
    };
    let source = read.source;
    let effect = added(alloc, line, unit, first, read)?;
    if !finish(core, effect)? || !release_all(core, unit, &[first])? {
        return Ok(None);
    }
    Ok(Some(source))
}
