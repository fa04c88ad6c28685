// The lock that a statement needs, where the unit hasn't got it.
ghost use Rattle.std.specs.Prelude.{◌+◌, IfOk, slice_get};
ghost use Rattle.script_tree.specs.Programs.{ProgramTree};
ghost use Rattle.script_holding.specs.Holding.{mode_at};
ghost use Rattle.script_meaning.specs.Calls.{joined, locked};
ghost use Rattle.script_machine.specs.Frames.{fields_of, goes_on};
ghost use Rattle.script_machine.specs.Runs.{Goes, Shrinks, back_of, size};

use crate::runs::{Flow, Run, Wait};
use base_types::{GrainId, Mode};
use script_tree::MethodKind;
use script_values::{Reason, Stop, stop_at};
use std::alloc::Global;
use std::mem;

impl Run {
    /// Asks for the lock that a joined frame of this kind needs, unless it is held already.
    pub fn lock(&mut self, alloc: Global, grain: GrainId, kind: MethodKind) -> Result<Flow, Stop>
        ensures tree { (types : ProgramTree)
            → Goes (joined kind grain (fields_of (slice_get types grain.kind)) (goes_on types self.old.top (back_of types self.old)) self.old.has)
            types self.new result }
        ensures less { IfOk result (Shrinks (size self.old + 1) self.new) }
    {
        match kind {
            MethodKind::Plain => Ok(Flow::Moved),
            MethodKind::Read => self.lock_in(alloc, grain, Mode::Read),
            MethodKind::Update => self.lock_in(alloc, grain, Mode::Update),
        }
    }

    /// The same in this mode.
    fn lock_in(&mut self, alloc: Global, grain: GrainId, mode: Mode) -> Result<Flow, Stop>
        ensures tree { (types : ProgramTree)
            → Goes (locked (mode_at grain self.old.has.held) mode grain (fields_of (slice_get types grain.kind))
            (goes_on types self.old.top (back_of types self.old)) self.old.has) types self.new result }
        ensures less { IfOk result (Shrinks (size self.old + 1) self.new) }
    {
        match self.has.mode_of(grain) {
            None => {
                if !self.has.has_room() {
                    return Err(stop_at(alloc, Reason::Grains));
                }
                drop(mem::replace(&mut self.wait, Wait::Lock { grain, mode }));
                Ok(Flow::Paused)
            }
            Some(Mode::Update) => Ok(Flow::Moved),
            Some(Mode::Read) => match mode {
                Mode::Read => Ok(Flow::Moved),
                Mode::Update => {
                    drop(mem::replace(&mut self.wait, Wait::Raise { grain }));
                    Ok(Flow::Paused)
                }
            },
        }
    }
}
