ghost use Rattle.std.specs.Prelude.{◌≡◌, true, IfOk};
ghost use Rattle.script_tree.specs.Programs.{ProgramTree};
ghost use Rattle.script_meaning.specs.Play.{asks};
ghost use Rattle.script_machine.specs.Machines.{AnswersRequest, has_begun, pause_for, rest};

use crate::printer::{Deeds, add_call, add_grain, line_of, list_of, outcome_text};
use crate::settings::Setting;
use crate::trouble::Trouble;
use base_types::{Call, GrainId, Mode, Outcome, STATE_LIMIT, State};
use script_check::{Checked, initial_state};
use script_machine::{Input, Machine, Parts, Pause};
use std::alloc::Global;

// More than the locks, raises and units that a unit may ask for.
const MOST_PAUSES: u32 = 200;

/// What a machine asked for while it was driven: the grains that it locked, the units, and all its pauses, written out.
#[derive(Drop)]
struct Driver<'a> {
    program: &'a Checked,
    setting: &'a Setting,
    grains: Vec<GrainId>,
    asked: Vec<(Call, u16)>,
    pauses: Vec<String>,
}

impl Driver<'_> {
    // Writes a lock down, which is a raise exactly where the grain is locked already.
    fn note_lock(
        &mut self,
        alloc: Global,
        grain: GrainId,
        mode: Mode,
        raise: bool,
    ) -> Result<(), Trouble> {
        if self.grains.contains(&grain) != raise {
            return Err(Trouble::Case("a raise of another grain"));
        }
        let mut pause = String::from_str(alloc, word_of(raise, mode))?;
        add_grain(&mut pause, self.program, grain)?;
        self.pauses.push(pause)?;
        self.grains.push(grain)?;
        Ok(())
    }

    // Writes a unit down, and answers how it ends.
    fn note_unit(&mut self, alloc: Global, call: Call, depth: u16) -> Result<Outcome, Trouble> {
        let mut pause = String::from_str(alloc, "unit ")?;
        add_call(&mut pause, self.program, &call, depth)?;
        self.pauses.push(pause)?;
        let outcome = match self.setting.answers.get(self.asked.len()) {
            Some(answer) => answer.copy()?,
            None => Outcome::Aborted,
        };
        self.asked.push((call, depth))?;
        Ok(outcome)
    }

    // A grain's state in the store, or the fields of its type.
    fn state_of(&self, alloc: Global, grain: GrainId) -> Result<State, Trouble> {
        if let Some(state) = self.setting.store.get(grain) {
            return Ok(state.copy()?);
        }
        let of_type = self
            .program
            .program()
            .types
            .get(usize::from(grain.kind))
            .ok_or("no type")?;
        if of_type.fields.len() > STATE_LIMIT {
            return Err(Trouble::Case("too many fields"));
        }
        Ok(initial_state(alloc, of_type.fields.as_slice())?)
    }

    // What a machine is given that asks for a lock.
    fn lock(
        &mut self,
        alloc: Global,
        machine: &Machine,
        grain: GrainId,
        mode: Mode,
    ) -> Result<Input, Trouble>
        requires { has_begun machine.now ≡ true }
        ensures { IfOk result (λ input. (types : ProgramTree) → Pause.NeedGrain grain mode ≡ pause_for (asks (rest types machine.now))
            → AnswersRequest (rest types machine.now) input) }
    {
        let raise = machine.is_raise();
        self.note_lock(alloc, grain, mode, raise)?;
        if raise {
            return Ok(Input::Held);
        }
        let state = self.state_of(alloc, grain)?;
        Ok(Input::Grain { state })
    }

    // What a machine is given that has paused.
    fn answer(&mut self, alloc: Global, machine: &Machine, pause: Pause) -> Result<Input, Trouble>
        requires { has_begun machine.now ≡ true }
        ensures { IfOk result (λ input. (types : ProgramTree) → pause ≡ pause_for (asks (rest types machine.now))
            → AnswersRequest (rest types machine.now) input) }
    {
        match pause {
            Pause::NeedGrain { grain, mode } => self.lock(alloc, machine, grain, mode),
            Pause::NeedUnit { call, depth } => {
                let outcome = self.note_unit(alloc, call, depth)?;
                Ok(Input::Unit { outcome })
            }
            Pause::Done { .. } => Err(Trouble::Case("it is over")),
        }
    }
}

fn word_of(held: bool, mode: Mode) -> &'static str {
    match mode {
        Mode::Read => "read ",
        Mode::Update if held => "raise ",
        Mode::Update => "update ",
    }
}

impl Driver<'_> {
    // What the machine did, as a line, and its pauses. It keeps the result that it told, and an outcome for each unit
    // that it asked for.
    fn ended(self, alloc: Global, parts: &Parts, outcome: &Outcome) -> Result<Driven, Trouble> {
        let told = outcome_text(alloc, outcome)?;
        let kept = outcome_text(alloc, &parts.result)?;
        if told.as_str() != kept.as_str() {
            return Err(Trouble::Case("another result"));
        }
        if parts.answers.len() != self.asked.len() {
            return Err(Trouble::Case("another number of answers"));
        }
        let deeds = Deeds {
            result: &parts.result,
            asked: self.asked.as_slice(),
            answers: parts.answers.as_slice(),
            reads: parts.reads.as_slice(),
            writes: parts.writes.as_slice(),
        };
        Ok(Driven {
            line: line_of(alloc, self.program, &deeds)?,
            pauses: list_of(alloc, self.pauses.as_slice())?,
        })
    }
}

/// What a machine did, and what it asked for.
#[derive(Drop)]
pub struct Driven {
    pub line: String,
    pub pauses: String,
}

/// What a machine does that is driven over the store and the outcomes, from its first input to its end.
pub fn drive(alloc: Global, program: &Checked, setting: &Setting) -> Result<Driven, Trouble> {
    let mut machine = Machine::start(alloc, program, setting.call.copy()?, setting.depth)?;
    let mut driver = Driver {
        program,
        setting,
        grains: Vec::new(alloc),
        asked: Vec::new(alloc),
        pauses: Vec::new(alloc),
    };
    let mut input = Input::First;
    for _ in 0..MOST_PAUSES {
        match machine.resume(alloc, program, input)? {
            Pause::Done { outcome } => return driver.ended(
                alloc,
                &machine.effect_parts(),
                &outcome,
            ),
            pause => input = driver.answer(alloc, &machine, pause)?,
        }
    }
    Err(Trouble::Case("no end"))
}
