//! The syntax tree of the grain language, and the options of methods.
//!
//! Contracts see a tree without where its parts lie in memory: `expr_tree`, `stmt_tree` and `program_tree`
//! of `specs/` give it, and each variant has a function here that makes it. Places are byte offsets in the
//! program's text.
#![tactic(auto)]

mod chars;
mod expressions;
mod items;
mod options;
mod programs;
mod statements;

pub use chars::Chars;
pub use expressions::{BinaryOp, CallExpr, Expr, Literal, Name, UnaryOp};
pub use items::Items;
pub use options::{Entered, EntryRefusal, MethodKind, TxnOption};
pub use programs::{FieldDecl, Method, Program, TypeDecl};
pub use statements::{Source, Stmt};
