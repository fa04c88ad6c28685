ghost use Rattle.std.specs.Prelude.{◌≡◌, true, IfOk, IfSome};
ghost use Rattle.core_access.specs.SettlerEvents.{is_settling};
ghost use Rattle.script_tree.specs.Programs.{program_tree};
ghost use Rattle.agent_tests.specs.BenchState.{IsCarrying};

use crate::event_texts::Told;
use crate::told_core::ToldCore;
use base_types::{BadRequest, Call, Store, UnitNo};
use cell_table::OpeningStates;
use core_access::Access;
use core_model::{CoreAnswer, CoreEvent, CoreQuestion, SettlerWork};
use history_core::{Core, Opening};
use request_wire::{Line, RequestFault, read_request};
use script_check::Checked;
use std::alloc::{AllocError, Global};
use unit_carrier::{Agents, Found, Went, begin_line};

// More than the steps of a row's units and of the settler.
const MOST_STEPS: u32 = 20_000;

/// A core, and agents for all of its units, in number order. The first unit is 1.
#[derive(Drop)]
pub struct Bench {
    pub core: ToldCore,
    pub agents: Agents,
    lines: u32,
}

impl Bench {
    /// A core without units, whose grains all have the fields of their types.
    pub fn new(alloc: Global, checked: &Checked) -> Result<Bench, AllocError>
        ensures { IfOk result (λ bench. IsCarrying (program_tree checked.now) bench) }
    {
        let opened = Opening {
            shape: checked.shape()?,
            opened: OpeningStates::Stored(Store::new(alloc)),
            next_unit: UnitNo(1),
            recent: None,
            keeps_last: false,
        };
        Ok(Bench {
            core: ToldCore {
                core: Core::new(alloc, opened),
                told: Told::new(alloc),
            },
            agents: Agents::new(alloc),
            lines: 0,
        })
    }

    /// The next line begins: this request.
    pub fn begin(
        &mut self,
        alloc: Global,
        checked: &Checked,
        request: &str,
    ) -> Result<(), AllocError>
        requires { IsCarrying (program_tree checked.now) self.old }
        ensures { IfOk result (λ _. IsCarrying (program_tree checked.now) self.new) }
    {
        self.lines = self.lines.wrapping_add(1);
        let line = Line {
            number: self.lines,
            what: what_of(alloc, checked, request)?,
        };
        let begun = begin_line(alloc, checked, &mut self.core, &mut self.agents, &line);
        drop(line);
        begun?;
        Ok(())
    }

    /// The unit's agent advances, whether or not the unit can move.
    pub fn advance(
        &mut self,
        alloc: Global,
        checked: &Checked,
        unit: usize,
    ) -> Result<(), AllocError>
        requires { IsCarrying (program_tree checked.now) self.old }
        ensures { IfOk result (λ _. IsCarrying (program_tree checked.now) self.new) }
    {
        let index = unit.wrapping_sub(1);
        if index < self.agents.list.len() {
            match self.agents.advance(alloc, checked, &mut self.core, index)? {
                Went::Stayed => self.core.told.tell_stays(unit),
                _ => {}
            }
        }
        Ok(())
    }

    // The mover at this place, counted from 0, goes on. Answers whether there is one.
    fn move_at(
        &mut self,
        alloc: Global,
        checked: &Checked,
        place: usize,
    ) -> Result<bool, AllocError>
        requires { IsCarrying (program_tree checked.now) self.old }
        ensures { IfOk result (λ _. IsCarrying (program_tree checked.now) self.new) }
    {
        match self.agents.find(alloc, checked, &mut self.core, 0, place)? {
            Found::At(index) => {
                self.agents.advance(alloc, checked, &mut self.core, index)?;
                Ok(true)
            }
            Found::Few(_) => Ok(false),
        }
    }

    // The settler goes on, where it has a step. Each file is written, or none is.
    fn settle_one(&mut self, checked: &Checked, written: bool) -> Result<bool, AllocError>
        requires { IsCarrying (program_tree checked.now) self.old }
        ensures { IfOk result (λ _. IsCarrying (program_tree checked.now) self.new) }
    {
        match next_settling(&self.core.core, written)? {
            None => Ok(false),
            Some(event) => match Access::put(&mut self.core.core, event) {
                Ok(reply) => {
                    drop(reply);
                    Ok(true)
                }
                Err((fault, event)) => {
                    drop(event);
                    Err(fault)
                }
            },
        }
    }

    /// All is settled that can be. Each file is written, or none is.
    pub fn settle(&mut self, checked: &Checked, written: bool) -> Result<(), AllocError>
        requires { IsCarrying (program_tree checked.now) self.old }
        ensures { IfOk result (λ _. IsCarrying (program_tree checked.now) self.new) }
    {
        for _ in 0..MOST_STEPS {
            if !self.settle_one(checked, written)? {
                return Ok(());
            }
        }
        Err(AllocError)
    }

    /// All units go on to their ends: the first that can move, or, by turns, one after another. Where none can, the settler
    /// goes on.
    pub fn run(
        &mut self,
        alloc: Global,
        checked: &Checked,
        by_turns: bool,
    ) -> Result<(), AllocError>
        requires { IsCarrying (program_tree checked.now) self.old }
        ensures { IfOk result (λ _. IsCarrying (program_tree checked.now) self.new) }
    {
        let mut place: usize = 0;
        for _ in 0..MOST_STEPS {
            if self.move_at(alloc, checked, place)? {
                place = if by_turns { place.wrapping_add(1) } else { 0 };
            } else if place > 0 {
                place = 0;
            } else if !self.settle_one(checked, true)? {
                return Ok(());
            }
        }
        Err(AllocError)
    }
}

fn what_of(
    alloc: Global,
    checked: &Checked,
    request: &str,
) -> Result<Result<Call, BadRequest>, AllocError> {
    match read_request(alloc, request.as_bytes(), checked) {
        Ok(call) => Ok(Ok(call)),
        Err(RequestFault::Bad(why)) => Ok(Err(why)),
        Err(RequestFault::Memory) => Err(AllocError),
    }
}

// The event of the settler's next work, where it has some.
fn event_for(work: &SettlerWork, written: bool) -> Option<CoreEvent>
    ensures { IfSome result (λ e. is_settling e ≡ true) }
{
    match work {
        SettlerWork::Vote { batch, grain, .. } => Some(CoreEvent::Vote {
            batch: *batch,
            grain: *grain,
            yes: written,
        }),
        SettlerWork::Decide { batch } => Some(CoreEvent::Decide { batch: *batch }),
        SettlerWork::Seal { batch, .. } => Some(CoreEvent::Sealed { batch: *batch }),
        SettlerWork::Learn { unit, grain } => Some(CoreEvent::Learn {
            unit: *unit,
            grain: *grain,
        }),
        SettlerWork::Write { .. } => Some(CoreEvent::Emitted),
        SettlerWork::Take => Some(CoreEvent::Take),
        // Memory has no limit here.
        SettlerWork::Load { .. } => None,
        SettlerWork::Nothing => None,
    }
}

fn event_in(answer: &CoreAnswer, written: bool) -> Option<CoreEvent>
    ensures { IfSome result (λ e. is_settling e ≡ true) }
{
    match answer {
        CoreAnswer::NextStep(work) => event_for(work, written),
        _ => None,
    }
}

fn next_settling(core: &Core, written: bool) -> Result<Option<CoreEvent>, AllocError>
    ensures { IfOk result (λ next. IfSome next (λ e. is_settling e ≡ true)) }
{
    let answer = core.ask(&CoreQuestion::NextStep)?;
    let event = event_in(&answer, written);
    drop(answer);
    Ok(event)
}
