ghost use Rattle.std.specs.Prelude.{◌≡◌, IfOk, slice_get};
ghost use Rattle.std.specs.Option.{option_copied};
ghost use Rattle.script_check.specs.AcceptedPrograms.{IsAcceptedProgram};
ghost use Rattle.script_meaning.specs.Play.{found_in};
ghost use Rattle.script_player.specs.PlayState.{types_in};

use base_types::{GrainId, Outcome, State, Store};
use script_check::Checked;
use script_meaning::initial;
use script_tree::{FieldDecl, MethodKind, TypeDecl};
use std::alloc::{AllocError, Global};

/// What a play stands on: a program, a store, and the outcomes of the children in order.
#[derive(Drop)]
pub struct World<'a> {
    pub program: &'a Checked,
    pub store: &'a Store,
    pub answers: &'a [Outcome],
}

/// Where a frame runs: its type's fields, what it does with them, its grain, whether it has a transaction's
/// context, and its depth.
#[derive(Drop)]
pub struct Site<'a> {
    pub fields: &'a [FieldDecl],
    pub kind: MethodKind,
    pub grain: GrainId,
    pub context: bool,
    pub depth: u16,
}

impl<'a> World<'a> {
    /// The types of the program.
    pub fn types(&self) -> &'a [TypeDecl]
        ensures same { result.now ≡ self.now.program.now.types.list.items }
        ensures checked { IsAcceptedProgram (types_in self.now) }
    {
        self.program.program().types.as_slice()
    }

    /// The state that is found of a grain.
    pub fn found(&self, alloc: Global, grain: GrainId) -> Result<State, AllocError>
        ensures { IfOk result (λ state. state ≡ found_in (types_in self.now) self.now.store.now grain) }
    {
        match self.store.get(grain) {
            Some(state) => state.copy(),
            None => initial(alloc, self.program.program(), grain),
        }
    }

    /// The outcome of a child, by its number from 0.
    pub fn answer(&self, number: usize) -> Option<&'a Outcome>
        ensures { option_copied result ≡ slice_get self.now.answers.now number }
    {
        self.answers.get(number)
    }
}
