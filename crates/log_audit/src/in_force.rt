// The program in force at a place of a log.

ghost use Rattle.std.specs.Prelude.{◌≡◌, ◌<◌, length, map, slice_get, Some, OnOk, IfOk};
ghost use Rattle.script_tree.specs.Programs.{program_tree};
ghost use Rattle.log_audit.specs.InForce.{types_in_force, HasShape};

use base_types::{List, Shape};
use script_check::Checked;
use silo_opening::Opened;
use std::alloc::{AllocError, Global};
use std::mem;

/// The program in force, with its shape.
#[derive(Drop)]
pub(crate) struct InForce {
    pub checked: Checked,
    pub shape: Shape,
}

impl InForce {
    /// A program that comes into force.
    pub(crate) fn new(checked: Checked) -> Result<InForce, AllocError>
        ensures shaped { IfOk result (λ now. HasShape now) }
        ensures same { IfOk result (λ now. types_in_force now ≡ program_tree checked) }
    {
        let shape = checked.shape()?;
        Ok(InForce { checked, shape })
    }

    /// The first of the programs of a log, that of the program file.
    pub(crate) fn first(programs: List<Checked>) -> Result<InForce, AllocError>
        requires some { 0 < length programs }
        ensures shaped { IfOk result (λ now. HasShape now) }
        ensures same { IfOk result (λ now. slice_get (map program_tree programs) 0 ≡ Some (types_in_force now)) }
    {
        let mut programs = programs.into_vec();
        InForce::new(programs.swap_remove(0))
    }

    /// The first program of an opened log. The rest of what was opened is let go.
    pub(crate) fn first_of(opened: Opened) -> Result<InForce, AllocError>
        requires some { 0 < length opened.programs }
        ensures shaped { IfOk result (λ now. HasShape now) }
        ensures same { IfOk result (λ now. slice_get (map program_tree opened.programs) 0 ≡ Some (types_in_force now)) }
    {
        InForce::first(opened.programs)
    }

    /// Puts a program that comes into force in the place of this one.
    pub(crate) fn change_to(&mut self, checked: Checked) -> Result<(), AllocError>
        ensures shaped { OnOk result (HasShape self.new) }
        ensures same { OnOk result (types_in_force self.new ≡ program_tree checked) }
    {
        let next = InForce::new(checked)?;
        drop(mem::replace(self, next));
        Ok(())
    }
}
