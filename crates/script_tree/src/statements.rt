ghost use Rattle.std.specs.Prelude.{◌≡◌};
ghost use Rattle.script_tree.specs.Exprs.{expr_tree, call_tree};
ghost use Rattle.script_tree.specs.Stmts.{Computed, Called, source_tree, stmt_tree, stmt_trees, block_tree, else_tree, Bind, Rebind, SetField, Perform, Choose, Repeat, Give, FailWith, Try};

use crate::chars::Chars;
use crate::expressions::{CallExpr, Expr, Name};
use crate::items::Items;

/// What a local is given: an expression's value, or what a call answers.
#[derive(Drop)]
pub enum Source {
    Expr(Expr),
    Call(CallExpr),
}

impl Source {
    /// An expression's value.
    pub fn computed(value: Expr) -> Source
        ensures { source_tree result ≡ Computed (expr_tree value) }
    {
        Source::Expr(value)
    }

    /// What a call answers.
    pub fn called(call: CallExpr) -> Source
        ensures { source_tree result ≡ Called (call_tree call) }
    {
        Source::Call(call)
    }
}

/// A statement. `at` of `Attempt` is the place of its first word.
#[derive(Drop)]
pub enum Stmt {
    Let {
        name: Name,
        value: Source,
    },
    Assign {
        name: Name,
        value: Source,
    },
    Set {
        name: Name,
        value: Expr,
    },
    Call {
        call: CallExpr,
    },
    If {
        test: Expr,
        then: Items<Stmt>,
        other: Option<Items<Stmt>>,
    },
    While {
        test: Expr,
        body: Items<Stmt>,
    },
    Return {
        value: Expr,
    },
    Fail {
        text: Chars,
    },
    Attempt {
        at: u32,
        name: Name,
        call: CallExpr,
        then: Items<Stmt>,
        other: Items<Stmt>,
    },
}

impl Stmt {
    /// Declares a local.
    pub fn bind(name: Name, value: Source) -> Stmt
        ensures { stmt_tree result ≡ Bind name (source_tree value) }
    {
        Stmt::Let { name, value }
    }

    /// Gives a local or a parameter a new value.
    pub fn rebind(name: Name, value: Source) -> Stmt
        ensures { stmt_tree result ≡ Rebind name (source_tree value) }
    {
        Stmt::Assign { name, value }
    }

    /// Writes a field.
    pub fn set_field(name: Name, value: Expr) -> Stmt
        ensures { stmt_tree result ≡ SetField name (expr_tree value) }
    {
        Stmt::Set { name, value }
    }

    /// A call whose answer isn't used.
    pub fn perform(call: CallExpr) -> Stmt
        ensures { stmt_tree result ≡ Perform (call_tree call) }
    {
        Stmt::Call { call }
    }

    /// Chooses a block, the second of which may be left out.
    pub fn choose(test: Expr, then: Items<Stmt>, other: Option<Items<Stmt>>) -> Stmt
        ensures { stmt_tree result ≡ Choose (expr_tree test)
            (block_tree (stmt_trees then.list.items)) (else_tree other) }
    {
        Stmt::If { test, then, other }
    }

    /// Repeats a block.
    pub fn repeat(test: Expr, body: Items<Stmt>) -> Stmt
        ensures { stmt_tree result ≡ Repeat (expr_tree test)
            (block_tree (stmt_trees body.list.items)) }
    {
        Stmt::While { test, body }
    }

    /// Ends the method with a value.
    pub fn give(value: Expr) -> Stmt
        ensures { stmt_tree result ≡ Give (expr_tree value) }
    {
        Stmt::Return { value }
    }

    /// Ends the unit with a fault.
    pub fn fail_with(text: Chars) -> Stmt
        ensures { stmt_tree result ≡ FailWith text }
    {
        Stmt::Fail { text }
    }

    /// Runs a call, and one block after a value and another after a fault or an abort.
    pub fn attempt(
        at: u32,
        name: Name,
        call: CallExpr,
        then: Items<Stmt>,
        other: Items<Stmt>,
    ) -> Stmt
        ensures { stmt_tree result ≡ Try at name (call_tree call)
            (block_tree (stmt_trees then.list.items)) (block_tree (stmt_trees other.list.items)) }
    {
        Stmt::Attempt {
            at,
            name,
            call,
            then,
            other,
        }
    }
}
