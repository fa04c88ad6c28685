ghost use Rattle.std.specs.Prelude.{◌≡◌, ◌<◌, Some, IfOk, length, slice_get};
ghost use Rattle.program_file.specs.Succession.{ArePrograms, newest_program, shapes_in_turn, carried_from, version_meant};
ghost use Rattle.program_file.specs.ProgramsInTurn.{programs_in, newest_in, HasShapes, HasItsFields, HasFieldsUnder};

use crate::shapes::shapes_in_turn;
use base_types::{GrainId, KnownVersion, List, Shape, State, Version};
use script_check::{Checked, carry_along};
use std::alloc::{AllocError, Global};

/// The programs of a log in the order in which they came into force, each with what the files need to know of it.
#[derive(Drop)]
pub struct ProgramsInTurn {
    checked: List<Checked>,
    shapes: List<Shape>,
}

/// A version of a grain that was written under the program of a number.
#[derive(Drop)]
pub struct NumberedVersion {
    pub program: u32,
    pub grain: GrainId,
    pub version: Version,
}

impl ProgramsInTurn {
    /// These programs.
    pub fn new(alloc: Global, programs: List<Checked>) -> Result<ProgramsInTurn, AllocError>
        ensures programs { IfOk result (λ made. made.checked ≡ programs) }
        ensures shapes { IfOk result HasShapes }
    {
        let shapes = shapes_in_turn(alloc, programs.as_slice())?;
        Ok(ProgramsInTurn {
            checked: programs,
            shapes,
        })
    }

    /// These programs again.
    pub fn into_list(self) -> List<Checked>
        ensures { result ≡ self.checked }
    {
        self.checked
    }

    /// What the files need to know of each.
    pub fn shapes(&self) -> &[Shape]
        ensures { result.now ≡ self.now.shapes }
    {
        self.shapes.as_slice()
    }

    /// The number of the program in force: the last, counted from 0.
    pub fn newest(&self) -> u32
        requires { ArePrograms (programs_in self.now) }
        ensures { result ≡ newest_in self.now }
    {
        (self.checked.len() - 1) as u32
    }

    /// What the files need to know of the program of a number.
    pub fn shape(&self, number: u32) -> &Shape
        requires shapes { HasShapes self.now }
        requires number { number < length self.now.checked }
        ensures { slice_get (shapes_in_turn (programs_in self.now)) number ≡ Some result.now }
    {
        &self.shapes.as_slice()[number as usize]
    }

    /// What this version means under the last program, as contracts know it. Takes no memory, and reads nothing when it runs.
    pub fn known(_programs: &ProgramsInTurn, _read: &NumberedVersion) -> KnownVersion
        ensures { result.version ≡ version_meant (programs_in _programs.now) _read.now.program _read.now.grain _read.now.version }
    {
        KnownVersion {}
    }

    /// What a state of a grain means that it has under the program of a number: it is carried to each later one in turn.
    pub fn carried(
        &self,
        alloc: Global,
        number: u32,
        grain: GrainId,
        state: State,
    ) -> Result<State, AllocError>
        requires programs { ArePrograms (programs_in self.now) }
        requires typed { HasFieldsUnder (programs_in self.now) number grain state }
        ensures carried { IfOk result (λ made. made ≡ carried_from (programs_in self.now) number grain.kind state) }
        ensures typed { IfOk result (λ made. HasItsFields (newest_program (programs_in self.now)) grain made) }
    {
        let programs = self.checked.as_slice();
        let first = number as usize;
        carry_along(
            alloc,
            &programs[first],
            &programs[first + 1..],
            grain.kind,
            state,
        )
    }
}
