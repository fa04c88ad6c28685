ghost use Rattle.std.specs.Prelude.{◌≡◌, ◌++◌, ◌∷◌, [], false, true, if◌then◌else◌, is_ok, List, ℕ, IfOk, OnOk, OnErr};
ghost use Rattle.base_types.specs.declared.calls.Call.{Call as Called};
ghost use Rattle.base_types.specs.declared.calls.GrainId.{GrainId as Grain};
ghost use Rattle.base_types.specs.declared.calls.Value.{Value as GrainValue};
ghost use Rattle.script_tree.specs.Programs.{ProgramTree, program_tree};
ghost use Rattle.script_meaning.specs.Requests.{End};
ghost use Rattle.script_meaning.specs.Play.{asks, play_over, unit, writes_of};
ghost use Rattle.script_meaning.specs.Trails.{Given, Has, answers_of, reads_of};
ghost use Rattle.script_machine.specs.Machines.{Fits, FollowsTrail, HasRoomForParts, IsPartsOf, KeepsGiven, answered_by, answers_in, fed, given_by, has_begun, holding_of, is_done, is_over, read_by, reads_in, rest, asks_raise, pause_for};

use crate::runs::{Run, Wait};
use crate::starts::Start;
use crate::writes::written_by;
use base_types::{Call, GrainId, List, Mode, Outcome, State};
use script_check::Checked;
use std::alloc::{AllocError, Global};

/// What a machine is given. `First` begins a run, and asks again where it has begun; `Grain` hands in the state of
/// a grain that is locked for the first time, `Held` says that a shared lock became exclusive, and `Unit` hands in
/// the outcome of a unit of its own.
#[derive(Drop)]
pub enum Input {
    First,
    Grain { state: State },
    Held,
    Unit { outcome: Outcome },
}

/// What a machine needs before it can go on, or how its unit ended.
#[derive(Drop)]
pub enum Pause {
    NeedGrain { grain: GrainId, mode: Mode },
    NeedUnit { call: Call, depth: u16 },
    Done { outcome: Outcome },
}

/// What a unit leaves: the outcomes that it was given, the grains that it read with the states found, both in the
/// order in which they came, the grains that it set with their last states, ascending, and its result. A unit that
/// ended with a fault sets none.
#[derive(Drop)]
pub struct Parts {
    pub answers: List<Outcome>,
    pub reads: List<(GrainId, State)>,
    pub writes: List<(GrainId, State)>,
    pub result: Outcome,
}

/// A unit that runs. Contracts see the run that it still has before it as `rest`.
///
/// The same program is handed to each call. After want of memory a machine has what it was given, but the run before it is lost: it is
/// only dropped.
#[derive(Drop)]
pub struct Machine {
    run: Run,
    ready: bool,
    answers: List<Outcome>,
    reads: List<(GrainId, State)>,
    writes: Vec<(GrainId, State)>,
}

/// One read more. Without memory the reads stay.
fn note_read(
    reads: &mut List<(GrainId, State)>,
    grain: GrainId,
    found: &State,
) -> Result<(), AllocError>
    ensures { reads.new ≡ (if is_ok result then reads.old ++ (grain, found.now) ∷ [] else reads.old) }
{
    let found = found.copy()?;
    reads.push((grain, found))?;
    Ok(())
}

/// One answer more. Without memory the answers stay.
fn note_answer(answers: &mut List<Outcome>, outcome: &Outcome) -> Result<(), AllocError>
    ensures { answers.new ≡ (if is_ok result then answers.old ++ outcome.now ∷ [] else answers.old) }
{
    let answer = outcome.copy()?;
    answers.push(answer)?;
    Ok(())
}

impl Machine {
    /// A machine that is to run a call as a unit whose first frame has this depth: 1 for a request, one more than
    /// its caller's for a child.
    pub fn start(
        alloc: Global,
        checked: &Checked,
        call: Call,
        depth: u16,
    ) -> Result<Machine, AllocError>
        ensures rest { IfOk result (λ machine. rest (program_tree checked.now) machine ≡ unit (program_tree checked.now) call depth) }
        ensures reads { IfOk result (λ machine. reads_in machine ≡ []) }
        ensures answers { IfOk result (λ machine. answers_in machine ≡ []) }

        // Nothing has led to it yet.
        ensures follows { IfOk result (λ machine. FollowsTrail (program_tree checked.now) call depth machine []) }
    {
        let started = Start::of_call(alloc, checked, &call, depth);
        drop(call);
        let start = started?;
        Ok(Machine {
            run: start.run,
            ready: start.ready,
            answers: List::new(alloc),
            reads: List::new(alloc),
            writes: Vec::new(alloc),
        })
    }

    /// Goes on with what the last pause asked for, to the next pause.
    pub fn resume(
        &mut self,
        alloc: Global,
        checked: &Checked,
        input: Input,
    ) -> Result<Pause, AllocError>
        requires fits { Fits (program_tree checked.now) self.old input }

        // What is left is what the input leaves of the run before, and the pause asks for what comes first in it.
        ensures fed { IfOk result (λ pause. rest (program_tree checked.now) self.new ≡ fed (rest (program_tree checked.now) self.old) input) }
        ensures asks { IfOk result (λ pause. pause ≡ pause_for (asks (rest (program_tree checked.now) self.new))) }

        // A state found is one more read, and an outcome one more answer.
        ensures reads { IfOk result (λ pause. reads_in self.new ≡ reads_in self.old ++ read_by (rest (program_tree checked.now) self.old) input) }
        ensures answers { IfOk result (λ pause. answers_in self.new ≡ answers_in self.old ++ answered_by (rest (program_tree checked.now) self.old) input) }
        ensures follows { IfOk result (λ pause. (call : Called) (depth : ℕ) (trail : List Given)
            → FollowsTrail (program_tree checked.now) call depth self.old trail
            → FollowsTrail (program_tree checked.now) call depth self.new (trail ++ given_by (rest (program_tree checked.now) self.old) input)) }

        // Without memory the reads and the answers are as they were, or have what the input gives behind them.
        ensures starved { OnErr result (KeepsGiven (program_tree checked.now) self.old self.new input) }

        // It has begun, it is over exactly where the pause says so, and its parts need no more memory.
        ensures begun { has_begun self.new ≡ true }
        ensures over { IfOk result (λ pause. is_over self.new ≡ is_done pause) }
        ensures room { IfOk result (λ pause. HasRoomForParts self.new) }
    {
        self.feed(alloc, checked, input)?;
        self.writes.clear();
        self.writes.reserve(self.run.has.held().len())?;
        self.run.pause()
    }

    /// Whether it asks for an exclusive lock in place of a shared one, which `Held` answers, and not for a first
    /// lock, which `Grain` answers.
    pub fn is_raise(&self) -> bool
        requires begun { has_begun self.now ≡ true }
        ensures { (types : ProgramTree) → result ≡ asks_raise (rest types self.now) }
    {
        self.run.waits_to_raise()
    }

    /// Goes on with an input.
    fn feed(&mut self, alloc: Global, checked: &Checked, input: Input) -> Result<(), AllocError>
        requires fits { Fits (program_tree checked.now) self.old input }
        ensures fed { OnOk result (rest (program_tree checked.now) self.new ≡ fed (rest (program_tree checked.now) self.old) input) }
        ensures reads { OnOk result (self.new.reads ≡ self.old.reads ++ read_by (rest (program_tree checked.now) self.old) input) }
        ensures answers { OnOk result (self.new.answers ≡ self.old.answers ++ answered_by (rest (program_tree checked.now) self.old) input) }
        ensures starved { OnErr result (KeepsGiven (program_tree checked.now) self.old self.new input) }
        ensures begun { self.new.ready ≡ false }
    {
        match input {
            Input::First => self.begin(alloc, checked),
            Input::Grain { state } => self.feed_grain(alloc, checked, state),
            Input::Held => self.feed_raise(alloc, checked),
            Input::Unit { outcome } => self.feed_unit(alloc, checked, outcome),
        }
    }

    /// Begins the run where it has not begun.
    fn begin(&mut self, alloc: Global, checked: &Checked) -> Result<(), AllocError>
        ensures rest { OnOk result (rest (program_tree checked.now) self.new ≡ rest (program_tree checked.now) self.old) }
        ensures reads { OnOk result (self.new.reads ≡ self.old.reads) }
        ensures answers { OnOk result (self.new.answers ≡ self.old.answers) }
        ensures starved { OnErr result (KeepsGiven (program_tree checked.now) self.old self.new Input.First) }
        ensures begun { self.new.ready ≡ false }
    {
        if !self.ready {
            return Ok(());
        }
        self.ready = false;
        self.run.go(alloc, checked)?;
        Ok(())
    }

    /// Goes on with the state of a grain that is locked for the first time.
    fn feed_grain(
        &mut self,
        alloc: Global,
        checked: &Checked,
        state: State,
    ) -> Result<(), AllocError>
        requires fits { Fits (program_tree checked.now) self.old (Input.Grain state) }
        ensures fed { OnOk result (rest (program_tree checked.now) self.new ≡ fed (rest (program_tree checked.now) self.old) (Input.Grain state)) }
        ensures reads { OnOk result (self.new.reads ≡ self.old.reads ++ read_by (rest (program_tree checked.now) self.old) (Input.Grain state)) }
        ensures answers { OnOk result (self.new.answers ≡ self.old.answers) }
        ensures starved { OnErr result (KeepsGiven (program_tree checked.now) self.old self.new (Input.Grain state)) }
        ensures begun { self.new.ready ≡ false }
    {
        match self.run.wait {
            Wait::Lock { grain, mode } => {
                note_read(&mut self.reads, grain, &state)?;
                self.run.feed_lock(alloc, checked, grain, mode, state)?;
                Ok(())
            }
            Wait::Raise { .. } | Wait::Child { .. } | Wait::Over { .. } => unreachable!(),
        }
    }

    /// Goes on with a lock that became exclusive.
    fn feed_raise(&mut self, alloc: Global, checked: &Checked) -> Result<(), AllocError>
        requires fits { Fits (program_tree checked.now) self.old Input.Held }
        ensures fed { OnOk result (rest (program_tree checked.now) self.new ≡ fed (rest (program_tree checked.now) self.old) Input.Held) }
        ensures reads { OnOk result (self.new.reads ≡ self.old.reads) }
        ensures answers { OnOk result (self.new.answers ≡ self.old.answers) }
        ensures starved { OnErr result (KeepsGiven (program_tree checked.now) self.old self.new Input.Held) }
        ensures begun { self.new.ready ≡ false }
    {
        match self.run.wait {
            Wait::Raise { grain } => {
                self.run.feed_raise(alloc, checked, grain)?;
                Ok(())
            }
            Wait::Lock { .. } | Wait::Child { .. } | Wait::Over { .. } => unreachable!(),
        }
    }

    /// Goes on with the outcome of a unit of its own.
    fn feed_unit(
        &mut self,
        alloc: Global,
        checked: &Checked,
        outcome: Outcome,
    ) -> Result<(), AllocError>
        requires fits { Fits (program_tree checked.now) self.old (Input.Unit outcome) }
        ensures fed { OnOk result (rest (program_tree checked.now) self.new ≡ fed (rest (program_tree checked.now) self.old) (Input.Unit outcome)) }
        ensures reads { OnOk result (self.new.reads ≡ self.old.reads) }
        ensures answers { OnOk result (self.new.answers ≡ self.old.answers ++ answered_by (rest (program_tree checked.now) self.old) (Input.Unit outcome)) }
        ensures starved { OnErr result (KeepsGiven (program_tree checked.now) self.old self.new (Input.Unit outcome)) }
        ensures begun { self.new.ready ≡ false }
    {
        match self.run.wait {
            Wait::Child { .. } => {
                note_answer(&mut self.answers, &outcome)?;
                self.run.feed_outcome(alloc, checked, outcome)?;
                Ok(())
            }
            Wait::Lock { .. } | Wait::Raise { .. } | Wait::Over { .. } => unreachable!(),
        }
    }

    /// What the unit leaves, once it is over.
    pub fn effect_parts(self) -> Parts
        requires over { is_over self ≡ true }
        requires room { HasRoomForParts self }
        ensures result { (types : ProgramTree) → rest types self ≡ End result.result (holding_of self) }
        ensures writes { result.writes ≡ writes_of result.result (holding_of self) }
        ensures reads { result.reads ≡ reads_in self }
        ensures answers { result.answers ≡ answers_in self }

        // They are those of a play of the call over the states that it was given.
        ensures play { (types : ProgramTree) (call : Called) (depth : ℕ) (trail : List Given) → FollowsTrail types call depth self trail
            → (states : Grain → List GrainValue) → Has states (reads_of trail) → IsPartsOf result trail (play_over types call depth states (answers_of trail)) }
    {
        let Machine {
            run,
            ready: _,
            answers,
            reads,
            writes,
        } = self;
        let Run {
            top,
            below,
            has,
            wait,
        } = run;
        drop(top);
        drop(below);
        let result = match wait {
            Wait::Over { outcome } => outcome,
            Wait::Lock { .. } | Wait::Raise { .. } | Wait::Child { .. } => unreachable!(),
        };
        let writes = written_by(&result, has, writes);
        Parts {
            answers,
            reads,
            writes,
            result,
        }
    }
}
