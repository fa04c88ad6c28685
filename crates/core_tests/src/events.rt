// The events that the words of a list name.
use crate::drafts::Draft;
use crate::verbs::Event;
use base_types::{BadRequest, GrainId, Mode, UnitNo};
use core_model::{CoreEvent, Effect};
use test_cases::{Numbers, natural, short};

fn grant(unit: UnitNo, grain: GrainId, mode: Mode) -> CoreEvent {
    CoreEvent::Grant { unit, grain, mode }
}

fn refuse(unit: UnitNo, grain: GrainId, mode: Mode) -> CoreEvent {
    CoreEvent::Refuse { unit, grain, mode }
}

fn vote(batch: u64, grain: GrainId, yes: bool) -> CoreEvent {
    CoreEvent::Vote { batch, grain, yes }
}

// An event of a unit and a grain, or another that owns nothing.
fn lock_event(event: Event, unit: UnitNo, grain: GrainId, numbers: Numbers) -> CoreEvent {
    match event {
        Event::Read => grant(unit, grain, Mode::Read),
        Event::Update => grant(unit, grain, Mode::Update),
        Event::RefuseRead => refuse(unit, grain, Mode::Read),
        Event::RefuseUpdate => refuse(unit, grain, Mode::Update),
        Event::Release => CoreEvent::Release { unit, grain },
        Event::Learn => CoreEvent::Learn { unit, grain },
        Event::Want => CoreEvent::Want { unit, grain },
        event => batch_event(event, natural(numbers.first), grain, numbers),
    }
}

// An event of a batch, or another of no unit.
fn batch_event(event: Event, batch: u64, grain: GrainId, numbers: Numbers) -> CoreEvent {
    match event {
        Event::Yes => vote(batch, grain, true),
        Event::No => vote(batch, grain, false),
        Event::Decide => CoreEvent::Decide { batch },
        Event::Sealed => CoreEvent::Sealed { batch },
        Event::NotSealed => CoreEvent::NotSealed { batch },
        Event::Doubt => CoreEvent::Doubt { batch },
        event => other_event(event, short(numbers.first)),
    }
}

fn other_event(event: Event, line: u32) -> CoreEvent {
    match event {
        Event::Take => CoreEvent::Take,
        Event::Emitted => CoreEvent::Emitted,
        Event::Halt => CoreEvent::Halt,
        _ => CoreEvent::Bad {
            line,
            why: BadRequest::Args,
        },
    }
}

// The effect that was told, of the unit of the second number.
fn told_effect(draft: &mut Draft, numbers: Numbers) -> Effect {
    draft.take_effect(UnitNo(natural(numbers.second)))
}

/// The event of a line; where the lines before told of it, it takes that from the draft.
pub fn made(draft: &mut Draft, event: Event, numbers: Numbers) -> CoreEvent {
    let unit = numbers.unit();
    let grain = numbers.grain();
    match event {
        Event::Begin => draft.begin(numbers.first == 1),
        Event::Finish => CoreEvent::Finish {
            unit,
            effect: told_effect(draft, numbers),
        },
        Event::EndPlain => CoreEvent::EndPlain {
            unit,
            effect: told_effect(draft, numbers),
        },
        Event::EndSnapshot => CoreEvent::EndSnapshot {
            unit,
            at: natural(numbers.second),
            outcome: draft.take_result(),
        },
        Event::Load => CoreEvent::Load {
            grain,
            unit,
            state: draft.take_state(),
        },
        event => lock_event(event, unit, grain, numbers),
    }
}

/// What want of memory may do to an event.
#[derive(Clone, Copy)]
pub enum Kind {
    /// It takes no memory where it applies.
    Spared,
    Begin,
    Other,
}

/// Which kind of event it is.
pub fn kind_of(event: &CoreEvent) -> Kind {
    match event {
        CoreEvent::Begin { .. } => Kind::Begin,
        CoreEvent::Release { .. }
        | CoreEvent::Vote { .. }
        | CoreEvent::Decide { .. }
        | CoreEvent::Sealed { .. }
        | CoreEvent::NotSealed { .. }
        | CoreEvent::Doubt { .. }
        | CoreEvent::Learn { .. }
        | CoreEvent::Emitted
        | CoreEvent::Halt => Kind::Spared,
        _ => Kind::Other,
    }
}

/// What is said to an event that comes back twice.
pub fn refusal(kind: Kind) -> &'static str {
    match kind {
        Kind::Spared => "it wants memory whose room was made",
        Kind::Begin => "no memory: it comes back, and is a begin",
        Kind::Other => "no memory: it comes back",
    }
}
