ghost use Rattle.std.specs.Prelude.{◌≡◌, [], IfOk, option_map, slice_get};
ghost use Rattle.std.specs.Option.{option_copied};
ghost use Rattle.script_tree.specs.Stmts.{stmt_tree, stmt_trees, block_tree};
ghost use Rattle.script_tree.specs.Programs.{program_tree};
ghost use Rattle.script_meaning.specs.Calls.{bound};
ghost use Rattle.script_machine.specs.Blocks.{statement_at, part_of, inner};
ghost use Rattle.script_machine.specs.Frames.{body_at, block_of};

use crate::callees::callee_at;
use base_types::{GrainId, Value};
use script_check::Checked;
use script_tree::{MethodKind, Name, Stmt};
use script_values::{FrameLocals, Local};
use std::alloc::{AllocError, Global};

/// Which of a statement's blocks.
#[derive(Clone, Copy)]
pub enum Part {
    First,
    Second,
}

/// An open block: the number of its statement in the block around it, and which of the statement's blocks it is.
#[derive(Clone, Copy)]
pub struct OpenBlock {
    pub at: usize,
    pub part: Part,
}

/// Where a frame runs: its grain, the number of its method, what it does with the grain's fields, whether it has
/// a transaction's context, and its depth.
#[derive(Clone, Copy)]
pub struct Post {
    pub grain: GrainId,
    pub method: u16,
    pub kind: MethodKind,
    pub context: bool,
    pub depth: u16,
}

/// A method that runs: its parameters and locals, the blocks that are open from the outermost in, and the number
/// of the statement in the innermost. A frame that waits for a call stands at the call's statement.
#[derive(Drop)]
pub struct Frame {
    pub post: Post,
    pub locals: FrameLocals,
    pub path: Vec<OpenBlock>,
    pub at: usize,
}

/// A block of a statement. A loop's body is its first.
fn part_of(stmt: &Stmt, part: Part) -> &[Stmt]
    ensures { block_tree (stmt_trees result.now) ≡ part_of part (stmt_tree stmt.now) }
{
    match stmt {
        Stmt::If {
            test: _,
            then,
            other,
        } => match part {
            Part::First => then.as_slice(),
            Part::Second => match other {
                Some(other) => other.as_slice(),
                None => &[],
            },
        },
        Stmt::While { test: _, body } => match part {
            Part::First => body.as_slice(),
            Part::Second => &[],
        },
        Stmt::Attempt {
            at: _,
            name: _,
            call: _,
            then,
            other,
        } => match part {
            Part::First => then.as_slice(),
            Part::Second => other.as_slice(),
        },
        Stmt::Let { .. }
        | Stmt::Assign { .. }
        | Stmt::Set { .. }
        | Stmt::Call { .. }
        | Stmt::Return { .. }
        | Stmt::Fail { .. } => &[],
    }
}

/// The item of this number in a block.
pub fn item(block: &[Stmt], at: usize) -> Option<&Stmt>
    ensures { option_copied result ≡ slice_get block.now at }
{
    block.get(at)
}

/// The statement of this number in a block.
fn statement_in(block: &[Stmt], at: usize) -> Option<&Stmt>
    ensures { option_map stmt_tree (option_copied result) ≡ statement_at at (block_tree (stmt_trees block.now)) }
{
    item(block, at)
}

/// A block within a block.
pub fn within<'a>(block: &'a [Stmt], opened: OpenBlock) -> &'a [Stmt]
    ensures { block_tree (stmt_trees result.now) ≡ inner (block_tree (stmt_trees block.now)) opened }
{
    match statement_in(block, opened.at) {
        None => &[],
        Some(stmt) => part_of(stmt, opened.part),
    }
}

/// The body of a frame's method.
pub fn body<'a>(post: Post, checked: &'a Checked) -> &'a [Stmt]
    ensures { block_tree (stmt_trees result.now) ≡ body_at (program_tree checked.now) post }
{
    match callee_at(checked, post.grain, post.method) {
        None => &[],
        Some(callee) => callee.method.body.as_slice(),
    }
}

/// A parameter with its argument.
fn parameter(name: &Name, value: &Value) -> Result<Local, AllocError>
    ensures { IfOk result (λ local. local ≡ record { name = name.now.text; value = value.now }) }
{
    Ok(Local {
        name: name.text.copy()?,
        value: value.copy()?,
    })
}

/// A method's parameters with these arguments.
fn bind(alloc: Global, params: &[Name], args: &[Value]) -> Result<FrameLocals, AllocError>
    ensures { IfOk result (λ locals. locals.items ≡ bound params.now args.now) }
{
    let mut locals = FrameLocals::new(alloc);
    let count = params.len().min(args.len());
    for i in 0..count {
        locals.push(parameter(&params[i], &args[i])?)?;
    }
    Ok(locals)
}

impl Frame {
    /// A frame that begins.
    pub fn new(
        alloc: Global,
        post: Post,
        params: &[Name],
        args: &[Value],
    ) -> Result<Frame, AllocError>
        ensures post { IfOk result (λ made. made.post ≡ post) }
        ensures locals { IfOk result (λ made. made.locals.items ≡ bound params.now args.now) }
        ensures path { IfOk result (λ made. made.path.items ≡ []) }
        ensures at { IfOk result (λ made. made.at ≡ 0) }
    {
        Ok(Frame {
            post,
            locals: bind(alloc, params, args)?,
            path: Vec::new(alloc),
            at: 0,
        })
    }

    /// The innermost block, looked up from the method's body inwards.
    pub fn block<'a>(&self, checked: &'a Checked) -> &'a [Stmt]
        ensures { block_tree (stmt_trees result.now) ≡ block_of (program_tree checked.now) self.now }
    {
        let mut block = body(self.post, checked);
        for opened in &self.path {
            block = within(block, *opened);
        }
        block
    }
}
