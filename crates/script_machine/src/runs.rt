ghost use Rattle.std.specs.Prelude.{◌≡◌, ◌≤◌, ◌+◌, IfOk, OnOk, slice_get};
ghost use Rattle.std.specs.Option.{option_copied};
ghost use Rattle.script_tree.specs.Exprs.{expr_tree};
ghost use Rattle.script_tree.specs.Stmts.{block_tree, stmt_tree, stmt_trees};
ghost use Rattle.script_tree.specs.Programs.{ProgramTree, program_tree};
ghost use Rattle.script_values.specs.Stops.{GivesOrStops};
ghost use Rattle.script_values.specs.Scopes.{surroundings};
ghost use Rattle.script_meaning.specs.Requests.{End};
ghost use Rattle.script_meaning.specs.Calls.{readable};
ghost use Rattle.script_machine.specs.Frames.{block_of, fields_of};
ghost use Rattle.script_machine.specs.Runs.{around_here, value_here, back_of, back_here, caught_here, received_here, refused_here, running, Shrinks, StandsAt, StandsWith, size, stays};

use crate::callees::fields_at;
use crate::frames::{Frame, OpenBlock, Part, Post, item};
use base_types::{Call, GrainId, Mode, Outcome, Text, Value};
use script_check::Checked;
use script_holding::Holding;
use script_tree::{Expr, FieldDecl, MethodKind, Stmt};
use script_values::{Scope, Stop, assign, evaluate};
use std::alloc::{AllocError, Global};
use std::mem;

/// What a run waits for: a grain's lock with its state, an exclusive lock in place of a shared one, or a unit of
/// its own; or it is over.
#[derive(Drop)]
pub enum Wait {
    Lock { grain: GrainId, mode: Mode },
    Raise { grain: GrainId },
    Child { call: Call, depth: u16 },
    Over { outcome: Outcome },
}

/// Whether a run goes on, in blocks that are looked up anew, or has paused.
#[derive(Clone, Copy)]
pub enum Flow {
    Moved,
    Paused,
}

/// Where a run goes on after a statement or a block's end: in the innermost block that is kept, in this block
/// within it, or elsewhere unless it has paused.
#[derive(Clone, Copy)]
pub enum Onward {
    Here,
    Into(OpenBlock),
    Away(Flow),
}

/// A run of a unit: the topmost frame, those that wait for it from the lowest up, what the unit has, and what it
/// waits for where it has paused.
#[derive(Drop)]
pub struct Run {
    pub top: Frame,
    pub below: Vec<Frame>,
    pub has: Holding,
    pub wait: Wait,
}

/// The fields that a frame may read.
fn readable(checked: &Checked, post: Post) -> &[FieldDecl]
    ensures { result.now ≡ readable post.kind (fields_of (slice_get (program_tree checked.now) post.grain.kind)) }
{
    match post.kind {
        MethodKind::Plain => &[],
        MethodKind::Read | MethodKind::Update => fields_at(checked, post.grain.kind),
    }
}

impl Run {
    /// What an expression of the topmost frame is evaluated in.
    pub fn scope<'a>(&'a self, checked: &'a Checked) -> Scope<'a>
        ensures { surroundings result ≡ around_here (program_tree checked.now) self.now }
    {
        Scope {
            fields: readable(checked, self.top.post),
            key: self.top.post.grain.key,
            state: self.has.state_of(self.top.post.grain),
            locals: self.top.locals.as_slice(),
        }
    }

    /// The value of an expression in the topmost frame.
    pub fn value(&self, alloc: Global, checked: &Checked, expression: &Expr) -> Result<Value, Stop>
        ensures { GivesOrStops result (value_here (program_tree checked.now) self.now (expr_tree expression.now)) }
    {
        let scope = self.scope(checked);
        evaluate(alloc, expression, &scope)
    }

    /// The statement at which the topmost frame stands in its innermost block, none at the block's end.
    pub fn statement<'a>(&self, checked: &Checked, block: &'a [Stmt]) -> Option<&'a Stmt>
        requires block { block_tree (stmt_trees block.now) ≡ block_of (program_tree checked.now) self.now.top }
        ensures { StandsWith (program_tree checked.now) self.now (option_copied result) }
    {
        item(block, self.top.at)
    }

    /// The unit has ended.
    pub fn end(&mut self, outcome: Outcome) -> Flow
        ensures tree { (types : ProgramTree) → End outcome self.old.has ≡ stays types self.new result }
        ensures paused { result ≡ Flow.Paused }
    {
        drop(mem::replace(&mut self.wait, Wait::Over { outcome }));
        Flow::Paused
    }

    /// A value comes to the topmost frame, whose call gave it.
    pub fn receive(&mut self, checked: &Checked, value: Value) -> Result<(), AllocError>
        ensures tree { OnOk result (back_here (program_tree checked.now) self.old value self.old.has ≡ running (program_tree checked.now) self.new) }
        ensures less { OnOk result (size self.new ≤ size self.old + 1) }
    {
        let block = self.top.block(checked);
        match self.statement(checked, block) {
            None => Ok(()),
            Some(stmt) => self.receive_at(checked, stmt, value),
        }
    }

    /// A value comes to the topmost frame at this statement.
    fn receive_at(&mut self, checked: &Checked, stmt: &Stmt, value: Value) -> Result<(), AllocError>
        requires here { StandsAt (program_tree checked.now) self.old (stmt_tree stmt.now) }
        ensures tree { OnOk result (received_here (program_tree checked.now) self.old (stmt_tree stmt.now) value self.old.has ≡ running
            (program_tree checked.now) self.new) }
        ensures less { OnOk result (size self.new ≤ size self.old + 1) }
    {
        match stmt {
            Stmt::Let { name, .. } | Stmt::Assign { name, .. } => {
                assign(&mut self.top.locals, &name.text, value)?;
                self.top.at += 1;
                Ok(())
            }
            Stmt::Attempt { name, .. } => {
                assign(&mut self.top.locals, &name.text, value)?;
                self.go_into(checked, stmt, Part::First)?;
                Ok(())
            }
            Stmt::Set { .. }
            | Stmt::Call { .. }
            | Stmt::If { .. }
            | Stmt::While { .. }
            | Stmt::Return { .. }
            | Stmt::Fail { .. } => {
                drop(value);
                self.top.at += 1;
                Ok(())
            }
        }
    }

    /// A unit of its own, for which the topmost frame waits, ended with this fault.
    pub fn catch(&mut self, checked: &Checked, text: Text) -> Result<Flow, AllocError>
        ensures tree { IfOk result (λ flow. caught_here (program_tree checked.now) self.old text self.old.has ≡ stays (program_tree checked.now)
            self.new flow) }
    {
        let block = self.top.block(checked);
        match self.statement(checked, block) {
            None => Ok(self.end(Outcome::Fault(text))),
            Some(stmt) => self.catch_at(checked, stmt, text),
        }
    }

    /// A fault comes to the topmost frame at this statement.
    fn catch_at(&mut self, checked: &Checked, stmt: &Stmt, text: Text) -> Result<Flow, AllocError>
        requires here { StandsAt (program_tree checked.now) self.old (stmt_tree stmt.now) }
        ensures tree { IfOk result (λ flow. refused_here (program_tree checked.now) self.old (stmt_tree stmt.now) text self.old.has ≡ stays
            (program_tree checked.now) self.new flow) }
    {
        match stmt {
            Stmt::Attempt { name, .. } => {
                assign(&mut self.top.locals, &name.text, Value::Text(text))?;
                self.go_into(checked, stmt, Part::Second)?;
                Ok(Flow::Moved)
            }
            Stmt::Let { .. }
            | Stmt::Assign { .. }
            | Stmt::Set { .. }
            | Stmt::Call { .. }
            | Stmt::If { .. }
            | Stmt::While { .. }
            | Stmt::Return { .. }
            | Stmt::Fail { .. } => Ok(self.end(Outcome::Fault(text))),
        }
    }

    /// The topmost frame has ended with a value.
    pub fn give(&mut self, checked: &Checked, value: Value) -> Result<Flow, AllocError>
        ensures tree { IfOk result (λ flow. back_of (program_tree checked.now) self.old value self.old.has ≡ stays (program_tree checked.now) self.new flow) }
        ensures less { IfOk result (Shrinks (size self.old) self.new) }
    {
        match self.below.pop() {
            None => Ok(self.end(Outcome::Value(value))),
            Some(frame) => {
                drop(mem::replace(&mut self.top, frame));
                self.receive(checked, value)?;
                Ok(Flow::Moved)
            }
        }
    }
}
