use crate::verbs::Note;
use base_types::{Call, GrainId, List, Origin, Outcome, STATE_LIMIT, State, Text, UnitNo, Value};
use core_model::{CoreEvent, Effect, Read};
use std::alloc::{AllocError, Global};
use std::mem;
use test_cases::{Numbers, short};

/// What the lines so far said of the event to come.
#[derive(Drop)]
pub struct Draft {
    alloc: Global,
    effect: Effect,
    state: State,
}

fn empty_call(alloc: Global) -> Call {
    Call {
        grain: GrainId { kind: 0, key: 0 },
        method: 0,
        args: List::new(alloc),
    }
}

fn empty_effect(alloc: Global) -> Effect {
    Effect {
        unit: UnitNo(0),
        origin: Origin::Line(0),
        call: empty_call(alloc),
        answers: List::new(alloc),
        reads: List::new(alloc),
        writes: List::new(alloc),
        result: Outcome::Aborted,
    }
}

impl Draft {
    /// Nothing was said.
    pub fn new(alloc: Global) -> Draft {
        Draft {
            alloc,
            effect: empty_effect(alloc),
            state: State::new(alloc),
        }
    }

    /// The effect that was told, of this unit. From then on nothing was said.
    pub fn take_effect(&mut self, unit: UnitNo) -> Effect {
        let mut effect = mem::replace(&mut self.effect, empty_effect(self.alloc));
        effect.unit = unit;
        effect
    }

    /// The result that was told. From then on nothing was said.
    pub fn take_result(&mut self) -> Outcome {
        let mut effect = self.take_effect(UnitNo(0));
        let result = mem::replace(&mut effect.result, Outcome::Aborted);
        drop(effect);
        result
    }

    /// The state that was told. From then on it has no field.
    pub fn take_state(&mut self) -> State {
        mem::replace(&mut self.state, State::new(self.alloc))
    }

    // The result that was told is a child's outcome.
    fn add_answer(&mut self) -> Result<(), AllocError> {
        let answer = mem::replace(&mut self.effect.result, Outcome::Aborted);
        self.effect.answers.push(answer)?;
        Ok(())
    }

    // One more field, where a state has room for it.
    fn add_field(&mut self, number: i64) -> Result<(), AllocError> {
        if self.state.len() < STATE_LIMIT {
            self.state.push(Value::Int(number))?;
        }
        Ok(())
    }

    fn add_read(&mut self, grain: GrainId, source: UnitNo) -> Result<(), AllocError> {
        let state = self.take_state();
        self.effect.reads.push(Read {
            grain,
            state,
            source,
        })?;
        Ok(())
    }

    fn add_write(&mut self, grain: GrainId) -> Result<(), AllocError> {
        let state = self.take_state();
        self.effect.writes.push((grain, state))?;
        Ok(())
    }

    fn set_fault(&mut self) -> Result<(), AllocError> {
        if let Some(text) = Text::new(self.alloc, "funds")? {
            self.set_result(Outcome::Fault(text));
        }
        Ok(())
    }

    fn set_result(&mut self, outcome: Outcome) {
        drop(mem::replace(&mut self.effect.result, outcome));
    }

    fn set_call(&mut self, numbers: Numbers) {
        self.effect.call.method = u16::try_from(numbers.first).unwrap_or(0);
        self.effect.call.grain = numbers.grain();
    }

    /// Notes what the line says of the event to come.
    pub fn note(&mut self, note: Note, numbers: Numbers) -> Result<(), AllocError> {
        match note {
            Note::OfLine => self.effect.origin = Origin::Line(short(numbers.first)),
            Note::OfChild => self.effect.origin = numbers.child(),
            Note::Call => self.set_call(numbers),
            Note::Value => self.set_result(Outcome::Value(Value::Int(numbers.first))),
            Note::Abort => self.set_result(Outcome::Aborted),
            Note::Fault => self.set_fault()?,
            Note::Answer => self.add_answer()?,
            Note::Field => self.add_field(numbers.first)?,
            Note::Found => self.add_read(numbers.grain(), numbers.unit())?,
            Note::Wrote => self.add_write(numbers.grain())?,
        }
        Ok(())
    }

    /// The begin of a unit with the origin and the call that were told. From then on nothing was said.
    pub fn begin(&mut self, plain: bool) -> CoreEvent {
        let mut effect = self.take_effect(UnitNo(0));
        let origin = effect.origin;
        let call = mem::replace(&mut effect.call, empty_call(self.alloc));
        drop(effect);
        CoreEvent::Begin {
            origin,
            call,
            plain,
        }
    }
}
