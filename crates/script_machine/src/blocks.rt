// How a frame enters and leaves the blocks of its statements.
ghost use Rattle.std.specs.Prelude.{◌≡◌, ◌<◌, ◌+◌, ◌^◌, Some, IfOk, OnOk};
ghost use Rattle.script_tree.specs.Exprs.{expr_tree};
ghost use Rattle.script_tree.specs.Stmts.{NoMore, block_tree, stmt_tree, stmt_trees};
ghost use Rattle.script_tree.specs.Programs.{ProgramTree, program_tree};
ghost use Rattle.script_machine.specs.declared.runs.Onward.{Onward};
ghost use Rattle.script_machine.specs.Blocks.{from, statement_at};
ghost use Rattle.script_machine.specs.Frames.{block_of, from_at};
ghost use Rattle.script_machine.specs.Runs.{GoesTo, HasOpen, Moves, ShrinksOn, StandsAt, Tracks, goes_to, size, running, value_here, back_of, next_here, part_here, outer_here, GivesTruth, chosen_by};

use crate::frames::{OpenBlock, Part};
use crate::open_blocks::Open;
use crate::runs::{Onward, Run};
use base_types::Value;
use script_check::Checked;
use script_tree::{Expr, Stmt};
use script_values::{Reason, Stop, is_true, stop_at};
use std::alloc::{AllocError, Global};

impl Run {
    /// Goes into a block of the statement at which the topmost frame stands.
    pub fn go_into(
        &mut self,
        checked: &Checked,
        stmt: &Stmt,
        part: Part,
    ) -> Result<OpenBlock, AllocError>
        requires here { StandsAt (program_tree checked.now) self.old (stmt_tree stmt.now) }
        ensures tree { OnOk result (part_here (program_tree checked.now) self.old part (stmt_tree stmt.now) ≡ running (program_tree checked.now) self.new) }
        ensures moves { IfOk result (λ opened. Moves self.old.top.post self.old.top.path.items self.new (Onward.Into opened)) }
        ensures less { OnOk result (size self.new ≡ size self.old + 1) }
    {
        let opened = OpenBlock {
            at: self.top.at,
            part,
        };
        self.top.path.push(opened)?;
        self.top.at = 0;
        Ok(opened)
    }

    /// What a condition in the topmost frame says.
    fn condition(&self, alloc: Global, checked: &Checked, test: &Expr) -> Result<bool, Stop>
        ensures { GivesTruth result (value_here (program_tree checked.now) self.now (expr_tree test.now)) }
    {
        match self.value(alloc, checked, test)? {
            Value::Int(number) => Ok(is_true(number)),
            Value::Text(text) => {
                drop(text);
                Err(stop_at(alloc, Reason::Kind))
            }
        }
    }

    /// `if`, once its step is taken.
    pub fn choose(
        &mut self,
        alloc: Global,
        checked: &Checked,
        stmt: &Stmt,
        test: &Expr,
    ) -> Result<Onward, Stop>
        requires here { StandsAt (program_tree checked.now) self.old (stmt_tree stmt.now) }
        ensures tree { GoesTo (chosen_by (value_here (program_tree checked.now) self.old (expr_tree test.now)) self.old.has
            (part_here (program_tree checked.now) self.old Part.First (stmt_tree stmt.now))
            (part_here (program_tree checked.now) self.old Part.Second (stmt_tree stmt.now))) (program_tree checked.now) self.new result }
        ensures moves { IfOk result (Moves self.old.top.post self.old.top.path.items self.new) }
        ensures less { IfOk result (ShrinksOn (size self.old + 4) self.new) }
    {
        if self.condition(alloc, checked, test)? {
            let opened = self.go_into(checked, stmt, Part::First)?;
            Ok(Onward::Into(opened))
        } else {
            let opened = self.go_into(checked, stmt, Part::Second)?;
            Ok(Onward::Into(opened))
        }
    }

    /// The test of the loop at which the topmost frame stands, once its step is taken.
    fn turn(
        &mut self,
        alloc: Global,
        checked: &Checked,
        stmt: &Stmt,
        test: &Expr,
    ) -> Result<Onward, Stop>
        requires here { StandsAt (program_tree checked.now) self.old (stmt_tree stmt.now) }
        ensures tree { GoesTo (chosen_by (value_here (program_tree checked.now) self.old (expr_tree test.now)) self.old.has
            (part_here (program_tree checked.now) self.old Part.First (stmt_tree stmt.now))
            (next_here (program_tree checked.now) self.old self.old.top.locals.items self.old.has)) (program_tree checked.now) self.new result }
        ensures moves { IfOk result (Moves self.old.top.post self.old.top.path.items self.new) }
        ensures less { IfOk result (ShrinksOn (size self.old + 4) self.new) }
    {
        if self.condition(alloc, checked, test)? {
            let opened = self.go_into(checked, stmt, Part::First)?;
            Ok(Onward::Into(opened))
        } else {
            self.top.at += 1;
            Ok(Onward::Here)
        }
    }

    /// A loop begins, or a block of this statement has ended.
    pub fn again(&mut self, alloc: Global, checked: &Checked, stmt: &Stmt) -> Result<Onward, Stop>
        requires here { StandsAt (program_tree checked.now) self.old (stmt_tree stmt.now) }
        ensures tree { GoesTo (outer_here (program_tree checked.now) self.old (Some (stmt_tree stmt.now))
            (next_here (program_tree checked.now) self.old) self.old.top.locals.items self.old.has) (program_tree checked.now) self.new result }
        ensures moves { IfOk result (Moves self.old.top.post self.old.top.path.items self.new) }
        ensures less { IfOk result (ShrinksOn (size self.old + 1) self.new) }
    {
        match stmt {
            Stmt::While { test, body: _ } => {
                if !self.has.take_step() {
                    return Err(stop_at(alloc, Reason::Budget));
                }
                self.turn(alloc, checked, stmt, test)
            }
            Stmt::Let { .. }
            | Stmt::Assign { .. }
            | Stmt::Set { .. }
            | Stmt::Call { .. }
            | Stmt::If { .. }
            | Stmt::Return { .. }
            | Stmt::Fail { .. }
            | Stmt::Attempt { .. } => Ok(self.past()),
        }
    }

    /// The topmost frame goes on behind its statement.
    fn past(&mut self) -> Onward
        requires { self.old.top.at < 2 ^ 63 }
        ensures tree { (types : ProgramTree) → next_here types self.old self.old.top.locals.items self.old.has ≡ goes_to types self.new result }
        ensures moves { Moves self.old.top.post self.old.top.path.items self.new result }
        ensures less { ShrinksOn (size self.old + 1) self.new result }
    {
        self.top.at += 1;
        Onward::Here
    }

    /// The end of a block of the topmost frame, or of its method.
    pub fn leave(
        &mut self,
        alloc: Global,
        checked: &Checked,
        blocks: &mut Open,
    ) -> Result<Onward, Stop>
        requires past { from self.old.top.at (block_of (program_tree checked.now) self.old.top) ≡ NoMore }
        requires blocks { HasOpen (program_tree checked.now) self.old blocks.old }
        ensures tree { GoesTo (running (program_tree checked.now) self.old) (program_tree checked.now) self.new result }
        ensures tracks { IfOk result (Tracks (program_tree checked.now) self.new blocks.new) }
        ensures less { IfOk result (ShrinksOn (size self.old) self.new) }
    {
        match self.top.path.pop() {
            None => Ok(Onward::Away(self.give(checked, Value::Int(0))?)),
            Some(opened) => {
                blocks.leave();
                self.back_to(alloc, checked, blocks.block, opened)
            }
        }
    }

    /// Goes on behind a block that was left, in the block around it.
    fn back_to(
        &mut self,
        alloc: Global,
        checked: &Checked,
        block: &[Stmt],
        opened: OpenBlock,
    ) -> Result<Onward, Stop>
        requires block { block_tree (stmt_trees block.now) ≡ block_of (program_tree checked.now) self.old.top }
        ensures tree { GoesTo (outer_here (program_tree checked.now) self.old
            (statement_at opened.at (block_of (program_tree checked.now) self.old.top))
            (from_at (program_tree checked.now) self.old.top.post (back_of (program_tree checked.now) self.old) self.old.top.path.items
            (opened.at + 1)) self.old.top.locals.items self.old.has) (program_tree checked.now) self.new result }
        ensures moves { IfOk result (Moves self.old.top.post self.old.top.path.items self.new) }
        ensures less { IfOk result (ShrinksOn (size self.old + 1) self.new) }
    {
        self.top.at = opened.at;
        match self.statement(checked, block) {
            None => Ok(Onward::Here),
            Some(stmt) => self.again(alloc, checked, stmt),
        }
    }
}
