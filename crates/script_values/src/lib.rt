//! The values of the grain language: what operators and expressions give, and the locals of a frame.
//!
//! Nothing here keeps state. The contracts cite the definitions in `specs/`, over the tree as `script_tree`
//! gives it.
#![tactic(auto)]

mod expressions;
mod locals;
mod nodes;
mod numbers;
mod operators;
mod reasons;
mod scopes;
mod stops;

pub use expressions::{evaluate, evaluate_all};
pub use locals::{FrameLocals, Local, LocalList, assign};
pub use numbers::is_true;
pub use operators::as_number;
pub use reasons::{Reason, fault_of, refusal};
pub use scopes::{Scope, field_number};
pub use stops::{Stop, stop_at};
