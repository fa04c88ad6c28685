//! Carries one unit of a run: asks the core for what the unit's script needs, hands the answers to the script's machine, and
//! makes the unit's events in their order.
//!
//! An [`Agent`] is a unit that is carried, `advance` one step of it. One agent serves the thread that has a core alone and
//! workers that share one: what it knows of its unit in the core it knows if nobody else makes events of the unit, and what
//! keeps its calls safe rests on its machine alone. `laws` says how that stays as others act, and what a step leaves of the
//! unit rule, `wish_laws` the same of a wish: `want` puts one where the grain for which the script asks isn't in memory.
#![tactic(auto)]

mod agent;
mod children;
mod ends;
mod grants;
mod laws;
mod locks;
mod looks;
mod puts;
mod steps;
mod wish_laws;
mod wishes;
mod work;

pub use agent::{Advanced, Agent};
pub use laws::{
    a_new_unit_can_be_carried, a_step_alone_goes_on, a_step_alone_keeps_the_rule,
    a_step_keeps_the_promise, answers_are_steps, others_leave_an_agent, steps_are_counted,
};
pub use wish_laws::{
    a_wish_alone_goes_on, a_wish_alone_keeps_the_rule, a_wish_keeps_the_promise,
    a_wish_leaves_an_agent, wishes_are_counted,
};
