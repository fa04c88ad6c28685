// What another who shares the core does, as words say it: an event, and before which look or event of the worker it comes.
use crate::texts::kind_named;
use base_types::{Call, GrainId, List, Mode, Origin, State, UnitNo, Value};
use core_model::CoreEvent;
use std::alloc::{AllocError, Global};

/// An event of another's. A line that it begins asks for a read of `d/9`, and a batch is the first one.
#[derive(Clone, Copy)]
pub enum Deed {
    Begin {
        line: u32,
    },
    Lock {
        unit: UnitNo,
        grain: GrainId,
        mode: Mode,
    },
    Refuse {
        unit: UnitNo,
        grain: GrainId,
    },
    Release {
        unit: UnitNo,
        grain: GrainId,
    },
    Learn {
        unit: UnitNo,
        grain: GrainId,
    },
    Want {
        unit: UnitNo,
        grain: GrainId,
    },
    /// The grain comes into memory, with the number 0 and that unit as its source.
    Load {
        unit: UnitNo,
        grain: GrainId,
    },
    Take,
    Vote {
        grain: GrainId,
    },
    Decide,
    Seal,
    Lose,
    Doubt,
    Halt,
}

/// A deed that comes before a look or an event of the worker, of which it is the `at`-th, counted from 1.
#[derive(Clone, Copy)]
pub struct Planned {
    pub before_look: bool,
    pub at: u32,
    pub deed: Deed,
}

const GRAIN_READ: GrainId = GrainId { kind: 3, key: 9 };

const FIRST_BATCH: u64 = 1;

// A grain's name, as `account/1`.
fn grain_named(word: &str) -> Option<GrainId> {
    let (kind, key) = word.split_once('/')?;
    Some(GrainId {
        kind: kind_named(kind)?,
        key: key.parse::<u32>().ok()?,
    })
}

// A unit and a grain, as `2:account/1`.
fn unit_and_grain(words: &str) -> Option<(UnitNo, GrainId)> {
    let (unit, grain) = words.split_once(':')?;
    Some((UnitNo(unit.parse::<u64>().ok()?), grain_named(grain)?))
}

// A deed of a unit at a grain.
fn deed_at_grain(what: &str, behind: &str) -> Option<Deed> {
    let (unit, grain) = unit_and_grain(behind)?;
    match what {
        "read" => Some(Deed::Lock {
            unit,
            grain,
            mode: Mode::Read,
        }),
        "update" => Some(Deed::Lock {
            unit,
            grain,
            mode: Mode::Update,
        }),
        "refuse" => Some(Deed::Refuse { unit, grain }),
        "free" => Some(Deed::Release { unit, grain }),
        "learn" => Some(Deed::Learn { unit, grain }),
        "want" => Some(Deed::Want { unit, grain }),
        "load" => Some(Deed::Load { unit, grain }),
        _ => None,
    }
}

fn deed_of(what: &str, behind: &str) -> Option<Deed> {
    match what {
        "halt" => Some(Deed::Halt),
        "take" => Some(Deed::Take),
        "decide" => Some(Deed::Decide),
        "seal" => Some(Deed::Seal),
        "lose" => Some(Deed::Lose),
        "doubt" => Some(Deed::Doubt),
        "vote" => Some(Deed::Vote {
            grain: grain_named(behind)?,
        }),
        "begin" => Some(Deed::Begin {
            line: behind.parse::<u32>().ok()?,
        }),
        _ => deed_at_grain(what, behind),
    }
}

fn plan_of(before_look: bool, at: &str, words: &str) -> Option<Planned> {
    let (what, behind) = words.split_once(':').unwrap_or((words, ""));
    Some(Planned {
        before_look,
        at: at.parse::<u32>().ok()?,
        deed: deed_of(what, behind)?,
    })
}

/// What a word plans: `3<halt` before the third event, `3?halt` before the third look.
pub fn planned_by(word: &str) -> Option<Planned> {
    if let Some((at, words)) = word.split_once('<') {
        return plan_of(false, at, words);
    }
    let (at, words) = word.split_once('?')?;
    plan_of(true, at, words)
}

// The read of a line that another begins.
fn call_of(alloc: Global) -> Call {
    Call {
        grain: GRAIN_READ,
        method: 0,
        args: List::new(alloc),
    }
}

// The state of a grain of one field, with the number 0.
fn zero_state(alloc: Global) -> Result<State, AllocError> {
    let mut state = State::new(alloc);
    state.push(Value::Int(0))?;
    Ok(state)
}

/// The event.
pub fn event_of(alloc: Global, deed: Deed) -> Result<CoreEvent, AllocError> {
    let batch = FIRST_BATCH;
    let event = match deed {
        Deed::Begin { line } => CoreEvent::Begin {
            origin: Origin::Line(line),
            call: call_of(alloc),
            plain: false,
        },
        Deed::Lock { unit, grain, mode } => CoreEvent::Grant { unit, grain, mode },
        Deed::Refuse { unit, grain } => CoreEvent::Refuse {
            unit,
            grain,
            mode: Mode::Update,
        },
        Deed::Release { unit, grain } => CoreEvent::Release { unit, grain },
        Deed::Learn { unit, grain } => CoreEvent::Learn { unit, grain },
        Deed::Want { unit, grain } => CoreEvent::Want { unit, grain },
        Deed::Load { unit, grain } => CoreEvent::Load {
            grain,
            unit,
            state: zero_state(alloc)?,
        },
        Deed::Take => CoreEvent::Take,
        Deed::Vote { grain } => CoreEvent::Vote {
            batch,
            grain,
            yes: true,
        },
        Deed::Decide => CoreEvent::Decide { batch },
        Deed::Seal => CoreEvent::Sealed { batch },
        Deed::Lose => CoreEvent::NotSealed { batch },
        Deed::Doubt => CoreEvent::Doubt { batch },
        Deed::Halt => CoreEvent::Halt,
    };
    Ok(event)
}
