// What each statement does to the topmost frame.
ghost use Rattle.std.specs.Prelude.{◌≡◌, ◌<◌, ◌+◌, ◌^◌, IfOk, OnOk, Some, slice_get};
ghost use Rattle.script_tree.specs.Exprs.{call_tree, expr_tree};
ghost use Rattle.script_tree.specs.Stmts.{stmt_tree};
ghost use Rattle.script_tree.specs.Programs.{program_tree};
ghost use Rattle.script_check.specs.Shapes.{fitted};
ghost use Rattle.script_values.specs.Expressions.{put_local};
ghost use Rattle.script_meaning.specs.Requests.{stop, with_value};
ghost use Rattle.script_meaning.specs.Calls.{settable};
ghost use Rattle.script_machine.specs.Frames.{fields_of};
ghost use Rattle.script_machine.specs.Runs.{GoesTo, HasOpen, Left, Moves, OpenUnless, Shrinks, ShrinksOn, StandsAt, Tracks, back_of, call_in, does_here, next_here, rest_of_run, running, sets_here, size, stays, value_here};

use crate::callees::fields_at;
use crate::frames::Post;
use crate::open_blocks::Open;
use crate::runs::{Flow, Onward, Run};
use base_types::Outcome;
use script_check::{Checked, fitted};
use script_tree::{CallExpr, Chars, Expr, FieldDecl, MethodKind, Source, Stmt};
use script_values::{Reason, Stop, assign, field_number, stop_at};
use std::alloc::{AllocError, Global};

/// The fields that a frame may set.
fn settable(checked: &Checked, post: Post) -> &[FieldDecl]
    ensures { result.now ≡ settable post.kind (fields_of (slice_get (program_tree checked.now) post.grain.kind)) }
{
    match post.kind {
        MethodKind::Plain | MethodKind::Read => &[],
        MethodKind::Update => fields_at(checked, post.grain.kind),
    }
}

impl Run {
    /// `let` and assignment of an expression, once the step is taken.
    fn assign(
        &mut self,
        alloc: Global,
        checked: &Checked,
        name: &Chars,
        value: &Expr,
    ) -> Result<Onward, Stop>
        requires here { self.old.top.at < 2 ^ 63 }
        ensures tree { GoesTo (with_value (value_here (program_tree checked.now) self.old (expr_tree value.now)) self.old.has
            (λ found. next_here (program_tree checked.now) self.old (put_local name.now found self.old.top.locals.items) self.old.has))
            (program_tree checked.now) self.new result }
        ensures moves { IfOk result (Moves self.old.top.post self.old.top.path.items self.new) }
        ensures less { IfOk result (ShrinksOn (size self.old + 4) self.new) }
    {
        let value = self.value(alloc, checked, value)?;
        assign(&mut self.top.locals, name, value)?;
        self.top.at += 1;
        Ok(Onward::Here)
    }

    /// A field of the topmost frame's grain gets the value of an expression, once the step is taken.
    fn set(
        &mut self,
        alloc: Global,
        checked: &Checked,
        name: &Chars,
        value: &Expr,
    ) -> Result<Onward, Stop>
        requires here { self.old.top.at < 2 ^ 63 }
        ensures tree { GoesTo (with_value (value_here (program_tree checked.now) self.old (expr_tree value.now)) self.old.has
            (sets_here (program_tree checked.now) self.old name.now)) (program_tree checked.now) self.new result }
        ensures moves { IfOk result (Moves self.old.top.post self.old.top.path.items self.new) }
        ensures less { IfOk result (ShrinksOn (size self.old + 4) self.new) }
    {
        let value = self.value(alloc, checked, value)?;
        let Some(field) = field_number(name, settable(checked, self.top.post)) else {
            drop(value);
            return Err(stop_at(alloc, Reason::Unknown));
        };
        self.has.set_field(self.top.post.grain, field, value);
        self.top.at += 1;
        Ok(Onward::Here)
    }

    /// `return`, once its step is taken.
    fn answer(&mut self, alloc: Global, checked: &Checked, value: &Expr) -> Result<Onward, Stop>
        ensures tree { GoesTo (with_value (value_here (program_tree checked.now) self.old (expr_tree value.now)) self.old.has
            (λ found. back_of (program_tree checked.now) self.old found self.old.has)) (program_tree checked.now) self.new result }
        ensures moves { IfOk result (Moves self.old.top.post self.old.top.path.items self.new) }
        ensures less { IfOk result (ShrinksOn (size self.old + 4) self.new) }
    {
        let value = self.value(alloc, checked, value)?;
        Ok(Onward::Away(self.give(checked, value)?))
    }

    /// A call at the statement at which the topmost frame stands, once the step is taken.
    fn call_away(
        &mut self,
        alloc: Global,
        checked: &Checked,
        stmt: &Stmt,
        call: &CallExpr,
    ) -> Result<Onward, Stop>
        requires here { StandsAt (program_tree checked.now) self.old (stmt_tree stmt.now) }
        requires call { call_in (stmt_tree stmt.now) ≡ Some (call_tree call.now) }
        ensures tree { GoesTo (does_here (program_tree checked.now) self.old (stmt_tree stmt.now)) (program_tree checked.now) self.new result }
        ensures moves { IfOk result (Moves self.old.top.post self.old.top.path.items self.new) }
        ensures less { IfOk result (ShrinksOn (size self.old + 4) self.new) }
    {
        Ok(Onward::Away(self.call(alloc, checked, call)?))
    }

    /// `fail`, once its step is taken: why the run stops.
    fn fail(&self, alloc: Global, text: &Chars) -> Stop
        ensures { Left (stop (fitted text.now) self.now.has) self.now result }
    {
        match fitted(alloc, text) {
            Ok(text) => Stop::Fault(text),
            Err(_) => Stop::Memory,
        }
    }

    /// Carries out the statement at which the topmost frame stands, once its step is taken.
    fn carry_out(&mut self, alloc: Global, checked: &Checked, stmt: &Stmt) -> Result<Onward, Stop>
        requires here { StandsAt (program_tree checked.now) self.old (stmt_tree stmt.now) }
        ensures tree { GoesTo (does_here (program_tree checked.now) self.old (stmt_tree stmt.now)) (program_tree checked.now) self.new result }
        ensures moves { IfOk result (Moves self.old.top.post self.old.top.path.items self.new) }
        ensures less { IfOk result (ShrinksOn (size self.old + 4) self.new) }
    {
        match stmt {
            Stmt::Let { name, value } | Stmt::Assign { name, value } => match value {
                Source::Expr(value) => self.assign(alloc, checked, &name.text, value),
                Source::Call(call) => self.call_away(alloc, checked, stmt, call),
            },
            Stmt::Set { name, value } => self.set(alloc, checked, &name.text, value),
            Stmt::Call { call } | Stmt::Attempt { call, .. } => {
                self.call_away(alloc, checked, stmt, call)
            }
            Stmt::If { test, .. } => self.choose(alloc, checked, stmt, test),
            Stmt::While { .. } => self.again(alloc, checked, stmt),
            Stmt::Return { value } => self.answer(alloc, checked, value),
            Stmt::Fail { text } => Err(self.fail(alloc, text)),
        }
    }

    /// Begins the statement at which the topmost frame stands.
    fn begin(&mut self, alloc: Global, checked: &Checked, stmt: &Stmt) -> Result<Onward, Stop>
        requires here { StandsAt (program_tree checked.now) self.old (stmt_tree stmt.now) }
        ensures tree { GoesTo (running (program_tree checked.now) self.old) (program_tree checked.now) self.new result }
        ensures moves { IfOk result (Moves self.old.top.post self.old.top.path.items self.new) }
        ensures less { IfOk result (ShrinksOn (size self.old) self.new) }
    {
        if !self.has.take_step() {
            return Err(stop_at(alloc, Reason::Budget));
        }
        self.carry_out(alloc, checked, stmt)
    }

    /// One statement of the innermost block, or its end.
    fn advance(
        &mut self,
        alloc: Global,
        checked: &Checked,
        blocks: &mut Open,
    ) -> Result<Onward, Stop>
        requires blocks { HasOpen (program_tree checked.now) self.old blocks.old }
        ensures tree { GoesTo (running (program_tree checked.now) self.old) (program_tree checked.now) self.new result }
        ensures tracks { IfOk result (Tracks (program_tree checked.now) self.new blocks.new) }
        ensures less { IfOk result (ShrinksOn (size self.old) self.new) }
    {
        match self.statement(checked, blocks.block) {
            None => self.leave(alloc, checked, blocks),
            Some(stmt) => self.begin(alloc, checked, stmt),
        }
    }

    /// The same, with the open blocks that the run goes on in.
    fn step<'a>(
        &mut self,
        alloc: Global,
        checked: &'a Checked,
        blocks: &mut Open<'a>,
    ) -> Result<Flow, AllocError>
        requires blocks { HasOpen (program_tree checked.now) self.old blocks.old }
        ensures tree { IfOk result (λ flow. running (program_tree checked.now) self.old ≡ stays (program_tree checked.now) self.new flow) }
        ensures blocks { IfOk result (OpenUnless (program_tree checked.now) self.new blocks.new) }
        ensures less { IfOk result (Shrinks (size self.old) self.new) }
    {
        match self.advance(alloc, checked, blocks) {
            Ok(Onward::Here) => Ok(Flow::Moved),
            Ok(Onward::Into(opened)) => {
                blocks.enter(opened)?;
                Ok(Flow::Moved)
            }
            Ok(Onward::Away(Flow::Moved)) => {
                blocks.follow(checked, &self.top)?;
                Ok(Flow::Moved)
            }
            Ok(Onward::Away(Flow::Paused)) => Ok(Flow::Paused),
            Err(Stop::Fault(text)) => Ok(self.end(Outcome::Fault(text))),
            Err(Stop::Memory) => Err(AllocError),
        }
    }

    /// Goes on to the next pause.
    pub fn go(&mut self, alloc: Global, checked: &Checked) -> Result<(), AllocError>
        ensures { OnOk result (running (program_tree checked.now) self.old ≡ rest_of_run (program_tree checked.now) self.new) }
    {
        let mut blocks = Open::new(alloc);
        blocks.follow(checked, &self.top)?;
        'steps: loop {
            match self.step(alloc, checked, &mut blocks)? {
                Flow::Moved => {}
                Flow::Paused => return Ok(()),
            }
        }
    }
}
