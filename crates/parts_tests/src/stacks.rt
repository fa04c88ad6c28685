//! `stack`: the versions of a grain whose opening state is 100.
//!
//! | A step | does |
//! |---|---|
//! | `push UNIT NUMBER` | puts the unit's version on top |
//! | `commit UNIT` | the unit has committed |
//! | `abort UNIT` | the unit has aborted; tells whether it had a version |
//! | `top`, `without UNIT` | tells the newest version, and what it would be without this unit's and all above it |
//! | `versions` | tells the versions, oldest first |
//! | `single` | tells whether there is one version alone |

use crate::cases::{Part, carry, no_step};
use crate::printer::{add_flag, add_found, add_versions};
use crate::steps::{Step, state_of};
use base_types::{UnitNo, Version};
use std::alloc::{AllocError, Global};
use version_stack::Stack;

/// Puts a stack through the steps.
pub fn play(alloc: Global, out: &mut String, steps: &str) -> Result<(), AllocError> {
    let mut stack = Stack::new(
        alloc,
        Version {
            unit: UnitNo(0),
            state: state_of(alloc, 100)?,
        },
    )?;
    carry(&mut stack, alloc, out, steps)
}

fn push(stack: &mut Stack, step: &Step<'_>) -> Result<(), AllocError> {
    let state = step.state(2)?;
    stack.reserve()?;
    stack.push(step.unit(1), state);
    Ok(())
}

fn commit(stack: &mut Stack, step: &Step<'_>) -> Result<(), AllocError> {
    stack.committed(step.unit(1));
    Ok(())
}

fn add_top(out: &mut String, stack: &Stack) -> Result<(), AllocError> {
    let (unit, state) = stack.top();
    add_found(out, unit, state)
}

fn add_without(out: &mut String, stack: &Stack, step: &Step<'_>) -> Result<(), AllocError> {
    let (unit, state) = stack.top_without(step.unit(1));
    add_found(out, unit, state)
}

impl Part for Stack {
    fn step(&mut self, out: &mut String, step: &Step<'_>) -> Result<(), AllocError> {
        match step.word(0) {
            "push" => push(self, step),
            "commit" => commit(self, step),
            "abort" => add_flag(out, self.remove_from(step.unit(1))),
            "top" => add_top(out, self),
            "without" => add_without(out, self, step),
            "versions" => add_versions(out, self.versions()),
            "single" => add_flag(out, self.is_single()),
            _ => no_step(out),
        }
    }
}
