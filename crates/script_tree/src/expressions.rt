ghost use Rattle.std.specs.Prelude.{◌≡◌, IfOk, map};
ghost use Rattle.script_tree.specs.Exprs.{expr_tree, call_tree, Constant, Variable, TheKey, Prefixed, Joined};

use crate::chars::Chars;
use crate::items::Items;
use std::alloc::{AllocError, Global};

/// A name, and where it stands.
#[derive(Drop)]
pub struct Name {
    pub text: Chars,
    pub at: u32,
}

/// A number or a text that stands in the program.
#[derive(Drop)]
pub enum Literal {
    Int(i64),
    Chars(Chars),
}

/// An operator before its operand.
#[derive(Clone, Copy, Debug, PartialEq, Eq)]
pub enum UnaryOp {
    Minus,
    Not,
}

/// An operator between its operands.
#[derive(Clone, Copy, Debug, PartialEq, Eq)]
pub enum BinaryOp {
    Add,
    Sub,
    Mul,
    Div,
    Rem,
    Lt,
    Le,
    Gt,
    Ge,
    Eq,
    Ne,
    And,
    Or,
}

/// An expression. Parentheses leave no node.
#[derive(Drop)]
pub enum Expr {
    Literal(Literal),
    Name(Name),
    /// The grain's key.
    Key,
    Unary {
        op: UnaryOp,
        of: Box<Expr>,
    },
    Binary {
        op: BinaryOp,
        left: Box<Expr>,
        right: Box<Expr>,
    },
}

impl Expr {
    /// A number or a text.
    pub fn literal(value: Literal) -> Expr
        ensures { expr_tree result ≡ Constant value }
    {
        Expr::Literal(value)
    }

    /// A field, a parameter or a local.
    pub fn variable(name: Name) -> Expr
        ensures { expr_tree result ≡ Variable name }
    {
        Expr::Name(name)
    }

    /// The grain's key.
    pub fn key() -> Expr
        ensures { expr_tree result ≡ TheKey }
    {
        Expr::Key
    }

    /// An operator before its operand.
    pub fn prefixed(alloc: Global, op: UnaryOp, of: Expr) -> Result<Expr, AllocError>
        ensures { IfOk result (λ made. expr_tree made ≡ Prefixed op (expr_tree of)) }
    {
        let of = Box::new(alloc, of)?;
        Ok(Expr::Unary { op, of })
    }

    /// An operator between its operands.
    pub fn joined(alloc: Global, op: BinaryOp, left: Expr, right: Expr) -> Result<Expr, AllocError>
        ensures { IfOk result (λ made. expr_tree made
            ≡ Joined op (expr_tree left) (expr_tree right)) }
    {
        let left = Box::new(alloc, left)?;
        let right = Box::new(alloc, right)?;
        Ok(Expr::Binary { op, left, right })
    }
}

/// A call of a method on a grain of the type `target` whose key is `place`.
#[derive(Drop)]
pub struct CallExpr {
    pub target: Name,
    pub place: Expr,
    pub method: Name,
    pub args: Items<Expr>,
}

impl CallExpr {
    /// A call of a method.
    pub fn new(target: Name, place: Expr, method: Name, args: Items<Expr>) -> CallExpr
        ensures { call_tree result ≡ record {
          target = target;
          place = expr_tree place;
          method = method;
          args = map expr_tree args.list.items;
        } }
    {
        CallExpr {
            target,
            place,
            method,
            args,
        }
    }
}
