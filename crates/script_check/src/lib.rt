//! Which syntax trees are programs: names that stand for something and for one thing, calls with as many
//! arguments as parameters, fields used where a method's kind allows it, and the limits.
//!
//! Which program may come after another, and what a grain's state is under it, stands here too.
//!
//! Nothing here keeps state. The contracts cite the definitions in `specs/`, over the tree as `script_tree`
//! gives it.
#![tactic(auto)]

mod carrying;
mod checked_program;
mod comparison;
mod laws;
mod programs;
mod shapes;

pub use carrying::{carry_along, carry_state};
pub use checked_program::{Checked, check};
pub use comparison::{UpgradeFault, compare};
pub use laws::{
    carrying_does_not_compose, each_name_is_mentioned, fields_keep_their_values, programs_go_on,
    states_are_carried, states_go_along,
};
pub use programs::{METHOD_LIMIT, PARAM_LIMIT, TYPE_LIMIT};
pub use script_scopes::CheckFault;
pub use shapes::{fitted, initial_state, value_of};
