// How a frame calls, by the rules of its own kind and of the method that is called.
ghost use Rattle.std.specs.Prelude.{◌≡◌, ◌<◌, ◌≤◌, ◌+◌, IfOk, OnOk, Some, map};
ghost use Rattle.script_tree.specs.Exprs.{call_tree, expr_tree};
ghost use Rattle.script_tree.specs.Programs.{ProgramTree, program_tree};
ghost use Rattle.script_values.specs.Expressions.{values_in};
ghost use Rattle.script_values.specs.Stops.{GivesOrStops};
ghost use Rattle.script_holding.specs.Holding.{Holding as Has};
ghost use Rattle.script_meaning.specs.Calls.{in_own_unit, to_target, to_type, type_from};
ghost use Rattle.script_machine.specs.Callees.{IsThere, post_of, target_of};
ghost use Rattle.script_machine.specs.Frames.{begins, goes_on, runner_of, site_of};
ghost use Rattle.script_machine.specs.Runs.{AllowsDepth, GivesKey, Goes, Shrinks, around_here, back_here, back_of, calls_here, caught_here, size};

use crate::callees::{Callee, callee_named, type_named};
use crate::frames::{Frame, Post};
use crate::runs::{Flow, Run, Wait};
use base_types::{Call, GrainId, List, Value};
use script_check::Checked;
use script_holding::DEPTH_LIMIT;
use script_tree::{CallExpr, Expr, MethodKind};
use script_values::{Reason, Stop, evaluate_all, refusal, stop_at};
use std::alloc::{AllocError, Global};
use std::mem;
use txn_options::{Entered, enter};

/// The key that a place is.
fn key_of(alloc: Global, place: Value) -> Result<u32, Stop>
    ensures { GivesKey result place }
{
    match place {
        Value::Text(text) => {
            drop(text);
            Err(stop_at(alloc, Reason::Kind))
        }
        Value::Int(number) => match u32::try_from(number) {
            Ok(key) => Ok(key),
            Err(_) => Err(stop_at(alloc, Reason::Key)),
        },
    }
}

impl Run {
    /// The values of arguments in the topmost frame.
    fn values(&self, alloc: Global, checked: &Checked, args: &[Expr]) -> Result<List<Value>, Stop>
        ensures { GivesOrStops result (values_in (around_here (program_tree checked.now) self.now) (map expr_tree args.now)) }
    {
        let scope = self.scope(checked);
        evaluate_all(alloc, args, &scope)
    }

    /// A call from the topmost frame, once the step is taken.
    pub fn call(&mut self, alloc: Global, checked: &Checked, call: &CallExpr) -> Result<Flow, Stop>
        ensures tree { Goes (calls_here (program_tree checked.now) self.old (call_tree call.now) (back_here (program_tree checked.now) self.old)
            (caught_here (program_tree checked.now) self.old)) (program_tree checked.now) self.new result }
        ensures less { IfOk result (Shrinks (size self.old + 4) self.new) }
    {
        let place = self.value(alloc, checked, &call.place)?;
        let args = self.values(alloc, checked, call.args.as_slice())?;
        let key = key_of(alloc, place)?;
        self.look_up(alloc, checked, call, key, args)
    }

    /// The called type and method are looked up by their names.
    fn look_up(
        &mut self,
        alloc: Global,
        checked: &Checked,
        call: &CallExpr,
        key: u32,
        args: List<Value>,
    ) -> Result<Flow, Stop>
        ensures tree { Goes (to_type (program_tree checked.now) (runner_of (program_tree checked.now) self.old.top.post)
            (site_of (program_tree checked.now) self.old.top.post) (type_from 0 call.now.target.text (program_tree checked.now)) key
            call.now.method.text args (back_here (program_tree checked.now) self.old) (caught_here (program_tree checked.now) self.old) self.old.has)
            (program_tree checked.now) self.new result }
        ensures less { IfOk result (Shrinks (size self.old + 4) self.new) }
    {
        let Some(kind) = type_named(checked, &call.target.text) else {
            drop(args);
            return Err(stop_at(alloc, Reason::Unknown));
        };
        let Some(callee) = callee_named(checked, GrainId { kind, key }, &call.method.text) else {
            drop(args);
            return Err(stop_at(alloc, Reason::Unknown));
        };
        self.enter(alloc, checked, &callee, args)
    }

    /// A method is called, as its option says.
    fn enter(
        &mut self,
        alloc: Global,
        checked: &Checked,
        callee: &Callee,
        args: List<Value>,
    ) -> Result<Flow, Stop>
        requires there { IsThere (program_tree checked.now) callee.now }
        ensures tree { Goes (to_target (runner_of (program_tree checked.now) self.old.top.post) (site_of (program_tree checked.now) self.old.top.post)
            callee.now.grain (Some (target_of callee.now)) args (back_here (program_tree checked.now) self.old)
            (caught_here (program_tree checked.now) self.old) self.old.has) (program_tree checked.now) self.new result }
        ensures less { IfOk result (Shrinks (size self.old + 4) self.new) }
    {
        match enter(callee.method.option, self.top.post.context) {
            Entered::Refused(why) => {
                drop(args);
                Err(stop_at(alloc, refusal(why)))
            }
            Entered::NewUnit => {
                self.goes_deeper(alloc)?;
                self.ask(alloc, callee, args)
            }
            Entered::Plain { context } => {
                self.goes_deeper(alloc)?;
                self.open(alloc, callee, MethodKind::Plain, context, args)?;
                Ok(Flow::Moved)
            }
            Entered::Joined => {
                self.goes_deeper(alloc)?;
                self.open(alloc, callee, callee.method.kind, true, args)?;
                self.lock(alloc, callee.grain, callee.method.kind)
            }
        }
    }

    /// One more frame may open above the topmost one.
    fn goes_deeper(&self, alloc: Global) -> Result<(), Stop>
        ensures { AllowsDepth result self.now.top.post.depth }
    {
        if self.top.post.depth >= DEPTH_LIMIT {
            return Err(stop_at(alloc, Reason::Depth));
        }
        Ok(())
    }

    /// Opens a frame above the topmost one.
    fn open(
        &mut self,
        alloc: Global,
        callee: &Callee,
        kind: MethodKind,
        context: bool,
        args: List<Value>,
    ) -> Result<(), AllocError>
        requires depth { self.old.top.post.depth < 32 }
        ensures goes { OnOk result ((types : ProgramTree) → IsThere types callee.now → (has : Has)
            → begins types (post_of callee.now kind context (self.old.top.post.depth + 1)) (target_of callee.now) args (back_here types self.old)
            has ≡ goes_on types self.new.top (back_of types self.new) has) }
        ensures has { OnOk result (self.new.has ≡ self.old.has) }
        ensures less { OnOk result (size self.new ≡ size self.old + 2) }
    {
        let post = Post {
            grain: callee.grain,
            method: callee.number,
            kind,
            context,
            depth: self.top.post.depth + 1,
        };
        let made = Frame::new(
            alloc,
            post,
            callee.method.params.as_slice(),
            args.as_slice(),
        );
        drop(args);
        let frame = made?;
        let caller = mem::replace(&mut self.top, frame);
        self.below.push(caller)?;
        Ok(())
    }

    /// Asks for a unit of its own.
    fn ask(&mut self, alloc: Global, callee: &Callee, args: List<Value>) -> Result<Flow, Stop>
        requires depth { self.old.top.post.depth < 32 }
        ensures tree { (types : ProgramTree)
            → Goes (in_own_unit (record { grain = callee.now.grain; method = callee.now.number; args = args }) (self.old.top.post.depth + 1)
            (back_here types self.old) (caught_here types self.old) self.old.has) types self.new result }
        ensures less { IfOk result (Shrinks (size self.old + 4) self.new) }
    {
        if !self.has.ask_unit() {
            drop(args);
            return Err(stop_at(alloc, Reason::Units));
        }
        let call = Call {
            grain: callee.grain,
            method: callee.number,
            args,
        };
        let depth = self.top.post.depth + 1;
        drop(mem::replace(&mut self.wait, Wait::Child { call, depth }));
        Ok(Flow::Paused)
    }
}
