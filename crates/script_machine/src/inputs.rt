// How a machine that waits goes on with what it is given.
ghost use Rattle.std.specs.Prelude.{◌≡◌, false, IfOk, OnOk};
ghost use Rattle.script_tree.specs.Programs.{ProgramTree, program_tree};
ghost use Rattle.script_meaning.specs.Calls.{answered};
ghost use Rattle.script_meaning.specs.Play.{asks};
ghost use Rattle.script_machine.specs.Runs.{back_here, caught_here, rest_of_run, with_lock, with_raise};
ghost use Rattle.script_machine.specs.Machines.{asks_raise, is_done, is_over_at, pause_for};

use crate::callees::fields_at;
use crate::machine::Pause;
use crate::runs::{Flow, Run, Wait};
use base_types::{GrainId, Mode, Outcome, State, Text, Value};
use script_check::Checked;
use script_values::{Reason, fault_of};
use std::alloc::{AllocError, Global};

impl Run {
    /// Goes on with a grain that is locked, found in this state.
    pub fn feed_lock(
        &mut self,
        alloc: Global,
        checked: &Checked,
        grain: GrainId,
        mode: Mode,
        found: State,
    ) -> Result<(), AllocError>
        ensures { OnOk result (with_lock (program_tree checked.now) self.old grain mode found ≡ rest_of_run (program_tree checked.now) self.new) }
    {
        let fields = fields_at(checked, grain.kind);
        self.has.lock(grain, mode, fields, found)?;
        self.go(alloc, checked)
    }

    /// Goes on with a grain whose lock became exclusive.
    pub fn feed_raise(
        &mut self,
        alloc: Global,
        checked: &Checked,
        grain: GrainId,
    ) -> Result<(), AllocError>
        ensures { OnOk result (with_raise (program_tree checked.now) self.old grain ≡ rest_of_run (program_tree checked.now) self.new) }
    {
        self.has.raise(grain);
        self.go(alloc, checked)
    }

    /// Goes on with the outcome of a unit of its own.
    pub fn feed_outcome(
        &mut self,
        alloc: Global,
        checked: &Checked,
        outcome: Outcome,
    ) -> Result<(), AllocError>
        ensures { OnOk result (answered outcome (back_here (program_tree checked.now) self.old) (caught_here (program_tree checked.now) self.old)
            self.old.has ≡ rest_of_run (program_tree checked.now) self.new) }
    {
        match outcome {
            Outcome::Value(value) => self.feed_value(alloc, checked, value),
            Outcome::Fault(text) => self.feed_fault(alloc, checked, text),
            Outcome::Aborted => {
                let text = fault_of(alloc, Reason::Aborted)?;
                self.feed_fault(alloc, checked, text)
            }
        }
    }

    fn feed_value(
        &mut self,
        alloc: Global,
        checked: &Checked,
        value: Value,
    ) -> Result<(), AllocError>
        ensures { OnOk result (back_here (program_tree checked.now) self.old value self.old.has ≡ rest_of_run (program_tree checked.now) self.new) }
    {
        self.receive(checked, value)?;
        self.go(alloc, checked)
    }

    fn feed_fault(&mut self, alloc: Global, checked: &Checked, text: Text) -> Result<(), AllocError>
        ensures { OnOk result (caught_here (program_tree checked.now) self.old text self.old.has ≡ rest_of_run (program_tree checked.now) self.new) }
    {
        match self.catch(checked, text)? {
            Flow::Moved => {
                self.go(alloc, checked)?;
                Ok(())
            }
            Flow::Paused => Ok(()),
        }
    }

    /// Whether a run that has paused asks for an exclusive lock in place of a shared one.
    pub fn waits_to_raise(&self) -> bool
        ensures { (types : ProgramTree) → result ≡ asks_raise (rest_of_run types self.now) }
    {
        match &self.wait {
            Wait::Raise { .. } => true,
            Wait::Lock { .. } | Wait::Child { .. } | Wait::Over { .. } => false,
        }
    }

    /// What a run that has paused asks for.
    pub fn pause(&self) -> Result<Pause, AllocError>
        ensures asks { IfOk result (λ pause. (types : ProgramTree) → pause ≡ pause_for (asks (rest_of_run types self.now))) }
        ensures over { IfOk result (λ pause. is_done pause ≡ is_over_at false self.now.wait) }
    {
        match &self.wait {
            Wait::Lock { grain, mode } => Ok(Pause::NeedGrain {
                grain: *grain,
                mode: *mode,
            }),
            Wait::Raise { grain } => Ok(Pause::NeedGrain {
                grain: *grain,
                mode: Mode::Update,
            }),
            Wait::Child { call, depth } => Ok(Pause::NeedUnit {
                call: call.copy()?,
                depth: *depth,
            }),
            Wait::Over { outcome } => Ok(Pause::Done {
                outcome: outcome.copy()?,
            }),
        }
    }
}
