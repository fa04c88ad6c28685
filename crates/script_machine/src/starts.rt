ghost use Rattle.std.specs.Prelude.{◌≡◌, ◌≤◌, ◌-◌, ◌+◌, [], IfOk, slice_get};
ghost use Rattle.script_tree.specs.Programs.{ProgramTree, program_tree};
ghost use Rattle.script_values.specs.Reasons.{reason_text};
ghost use Rattle.script_holding.specs.Holding.{Holding as Has};
ghost use Rattle.script_meaning.specs.Requests.{stop};
ghost use Rattle.script_meaning.specs.Calls.{joined};
ghost use Rattle.script_meaning.specs.Play.{at_start, ends_unit, unit};
ghost use Rattle.script_machine.specs.Callees.{IsThere, post_of, target_of};
ghost use Rattle.script_machine.specs.Frames.{begins, fields_of, goes_on};
ghost use Rattle.script_machine.specs.Runs.{back_of, rest_of_run};
ghost use Rattle.script_machine.specs.Machines.{first_opened, rest_at};

use crate::callees::{Callee, callee_at};
use crate::frames::{Frame, Post};
use crate::runs::{Flow, Run, Wait};
use base_types::{Call, GrainId, Outcome, Value};
use script_check::Checked;
use script_holding::{DEPTH_LIMIT, Holding};
use script_tree::MethodKind;
use script_values::{Reason, Stop, fault_of, refusal};
use std::alloc::{AllocError, Global};
use txn_options::{Entered, enter};

/// A run that begins, and whether it goes on; else it waits already, or is over.
#[derive(Drop)]
pub struct Start {
    pub run: Run,
    pub ready: bool,
}

impl Run {
    /// A run whose first frame runs this method.
    fn first(
        alloc: Global,
        callee: &Callee,
        kind: MethodKind,
        context: bool,
        args: &[Value],
        depth: u16,
    ) -> Result<Run, AllocError>
        ensures goes { IfOk result (λ run. (types : ProgramTree) → IsThere types callee.now → (has : Has)
            → begins types (post_of callee.now kind context depth) (target_of callee.now) args.now ends_unit has ≡ goes_on types run.top
            (back_of types run) has) }
        ensures has { IfOk result (λ run. run.has ≡ at_start) }
    {
        let post = Post {
            grain: callee.grain,
            method: callee.number,
            kind,
            context,
            depth,
        };
        Ok(Run {
            top: Frame::new(alloc, post, callee.method.params.as_slice(), args)?,
            below: Vec::new(alloc),
            has: Holding::new(alloc),
            wait: Wait::Raise {
                grain: callee.grain,
            },
        })
    }

    /// Asks for the lock that the first frame needs, if any. Answers whether the run goes on.
    fn lock_first(
        &mut self,
        alloc: Global,
        grain: GrainId,
        kind: MethodKind,
    ) -> Result<bool, AllocError>
        ensures { IfOk result (λ ready. (types : ProgramTree)
            → joined kind grain (fields_of (slice_get types grain.kind)) (goes_on types self.old.top (back_of types self.old)) self.old.has ≡ rest_at
            types self.new ready) }
    {
        match self.lock(alloc, grain, kind) {
            Ok(Flow::Moved) => Ok(true),
            Ok(Flow::Paused) => Ok(false),
            Err(Stop::Fault(text)) => {
                self.end(Outcome::Fault(text));
                Ok(false)
            }
            Err(Stop::Memory) => Err(AllocError),
        }
    }

    /// A run that is over before it began.
    fn over(alloc: Global, grain: GrainId, reason: Reason) -> Result<Run, AllocError>
        ensures { IfOk result (λ run. (types : ProgramTree) → stop (reason_text reason) at_start ≡ rest_of_run types run) }
    {
        let post = Post {
            grain,
            method: 0,
            kind: MethodKind::Plain,
            context: false,
            depth: 0,
        };
        let text = fault_of(alloc, reason)?;
        Ok(Run {
            top: Frame::new(alloc, post, &[], &[])?,
            below: Vec::new(alloc),
            has: Holding::new(alloc),
            wait: Wait::Over {
                outcome: Outcome::Fault(text),
            },
        })
    }
}

impl Start {
    fn over(
        alloc: Global,
        checked: &Checked,
        grain: GrainId,
        reason: Reason,
    ) -> Result<Start, AllocError>
        ensures { IfOk result (λ start. stop (reason_text reason) at_start ≡ rest_at (program_tree checked.now) start.run start.ready) }
    {
        let run = Run::over(alloc, grain, reason)?;
        Ok(Start { run, ready: false })
    }

    /// The first frame of a unit, which is locked first where it joins.
    fn begin(
        alloc: Global,
        checked: &Checked,
        callee: &Callee,
        kind: MethodKind,
        context: bool,
        args: &[Value],
        depth: u16,
    ) -> Result<Start, AllocError>
        requires there { IsThere (program_tree checked.now) callee.now }
        ensures { IfOk result (λ start. first_opened (program_tree checked.now) (33 - depth) callee.now kind context args.now depth ≡ rest_at
            (program_tree checked.now) start.run start.ready) }
    {
        if depth > DEPTH_LIMIT {
            return Start::over(alloc, checked, callee.grain, Reason::Depth);
        }
        let mut run = Run::first(alloc, callee, kind, context, args, depth)?;
        match run.lock_first(alloc, callee.grain, kind) {
            Ok(ready) => Ok(Start { run, ready }),
            Err(fault) => {
                drop(run);
                Err(fault)
            }
        }
    }

    /// The run of a call as a unit whose first frame has this depth.
    pub fn of_call(
        alloc: Global,
        checked: &Checked,
        call: &Call,
        depth: u16,
    ) -> Result<Start, AllocError>
        ensures { IfOk result (λ start. unit (program_tree checked.now) call.now depth ≡ rest_at (program_tree checked.now) start.run start.ready) }
    {
        let args = call.args.as_slice();
        match callee_at(checked, call.grain, call.method) {
            None => Start::over(alloc, checked, call.grain, Reason::Unknown),
            Some(callee) => match enter(callee.method.option, false) {
                Entered::Refused(why) => Start::over(alloc, checked, call.grain, refusal(why)),
                Entered::Plain { context } => {
                    Start::begin(
                        alloc,
                        checked,
                        &callee,
                        MethodKind::Plain,
                        context,
                        args,
                        depth,
                    )
                }
                Entered::NewUnit => Start::begin(
                    alloc,
                    checked,
                    &callee,
                    callee.method.kind,
                    true,
                    args,
                    depth,
                ),
                Entered::Joined => Start::begin(
                    alloc,
                    checked,
                    &callee,
                    callee.method.kind,
                    true,
                    args,
                    depth,
                ),
            },
        }
    }
}
