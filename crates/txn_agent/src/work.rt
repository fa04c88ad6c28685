ghost use Rattle.std.specs.Prelude.{◌≡◌, [], ◌∷◌, ◌++◌, IfOk, List as AList, OnOk, length, map, true};
ghost use Rattle.base_types.specs.Origins.{depth_of};
ghost use Rattle.script_tree.specs.Programs.{ProgramTree, program_tree};
ghost use Rattle.script_meaning.specs.Trails.{Given};
ghost use Rattle.script_machine.specs.Machines.{Fits, FollowsTrail, HasRoomForParts, is_over, reads_in};
ghost use Rattle.txn_agent.specs.MachineState.{HasResumed, IsEffectOf, found_by, source_of};

use base_types::{Call, GrainId, List, Origin, State, UnitNo};
use core_model::{Effect, Read};
use script_check::Checked;
use script_machine::{Input, Machine, Parts, Pause};
use std::alloc::{AllocError, Global};

/// A unit as it began: its number, what it is the run of, and whether it is a plain run.
#[derive(Clone, Copy)]
pub struct Carried {
    pub unit: UnitNo,
    pub origin: Origin,
    pub plain: bool,
}

/// What a unit works with until it comes to its end: its call, the machine that runs it, the grains that it locked, each with
/// the unit whose version it found there, and how many units of its own it has begun.
pub struct Work {
    pub call: Call,
    pub machine: Machine,
    pub held: List<GrainId>,
    pub sources: List<UnitNo>,
    pub kids: u32,
}

// Written out, so that what lets a work go calls this, and the parts are let go in one place.
impl Drop for Work {
    fn drop(self) {
        let Work {
            call: _call,
            machine,
            held: _held,
            sources: _sources,
            kids: _kids,
        } = self;
        drop(machine);
    }
}

// A grain more with its source.
fn note(
    held: &mut List<GrainId>,
    sources: &mut List<UnitNo>,
    grain: GrainId,
    source: UnitNo,
) -> Result<(), AllocError>
    ensures held { OnOk result (held.new ≡ held.old ++ grain ∷ []) }
    ensures sources { OnOk result (sources.new ≡ sources.old ++ source ∷ []) }
{
    held.push(grain)?;
    sources.push(source)?;
    Ok(())
}

// What was found, each with its source.
fn with_sources(
    alloc: Global,
    found: List<(GrainId, State)>,
    sources: &List<UnitNo>,
) -> Result<List<Read>, AllocError>
    requires each { length sources.now ≡ length found }
    ensures found { IfOk result (λ made. map found_by made ≡ found) }
    ensures sources { IfOk result (λ made. map source_of made ≡ sources.now) }
{
    let mut reads = Vec::new(alloc);
    for (grain, state) in found.into_vec() {
        let source = sources.as_slice()[reads.len()];
        reads.push(Read {
            grain,
            state,
            source,
        })?;
    }
    Ok(List::from_vec(reads))
}

impl Work {
    /// The grains that the unit locked.
    pub fn into_held(self) -> List<GrainId>
        ensures { result ≡ self.held }
    {
        let Work {
            call: _call,
            machine,
            held,
            sources: _sources,
            kids: _kids,
        } = self;
        drop(machine);
        held
    }

    /// What the unit did, once its script is over, and the grains that it locked.
    pub fn into_effect(
        self,
        alloc: Global,
        carried: Carried,
    ) -> Result<(Effect, List<GrainId>), AllocError>
        requires over { is_over self.machine ≡ true }
        requires room { HasRoomForParts self.machine }
        requires sources { length self.sources ≡ length (reads_in self.machine) }
        ensures effect { IfOk result (λ made. (types : ProgramTree) (trail : AList Given)
            → FollowsTrail types self.call (depth_of carried.origin) self.machine trail → IsEffectOf types carried self trail made.0) }
        ensures held { IfOk result (λ made. made.1 ≡ self.held) }
    {
        let Work {
            call,
            machine,
            held,
            sources,
            kids: _kids,
        } = self;
        let Parts {
            answers,
            reads,
            writes,
            result,
        } = machine.effect_parts();
        let reads = with_sources(alloc, reads, &sources)?;
        let effect = Effect {
            unit: carried.unit,
            origin: carried.origin,
            call,
            answers,
            reads,
            writes,
            result,
        };
        Ok((effect, held))
    }

    /// Notes a grain that the unit locked for the first time, and whose version it found there.
    pub fn with_lock(self, grain: GrainId, source: UnitNo) -> Result<Work, AllocError>
        ensures { IfOk result (λ work. work ≡ record self { held = self.held ++ grain ∷ []; sources = self.sources ++ source ∷ [] }) }
    {
        let mut work = self;
        note(&mut work.held, &mut work.sources, grain, source)?;
        Ok(work)
    }

    /// Gives the machine what it asked for, and runs it to its next pause.
    pub fn resume(
        self,
        alloc: Global,
        checked: &Checked,
        input: Input,
    ) -> Result<(Work, Pause), AllocError>
        requires fits { Fits (program_tree checked.now) self.machine input }
        ensures { IfOk result (λ made. HasResumed (program_tree checked.now) self made.0 input made.1) }
    {
        let mut work = self;
        let pause = work.machine.resume(alloc, checked, input)?;
        Ok((work, pause))
    }
}

/// What a unit does.
#[derive(Drop)]
pub enum Doing {
    /// Its script asks for what the pause says.
    Asks { work: Work, pause: Pause },
    /// Its script waits for a unit of its own.
    Awaits { work: Work, child: UnitNo },
    /// It is over, and these locks are left.
    Frees { held: List<GrainId> },
    /// Its end came after a doubt, or after a stop: it has no event left.
    Stopped,
}
