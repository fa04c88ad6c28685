ghost use Rattle.std.specs.Prelude.{◌≡◌, ◌<◌, ◌≤◌, ◌^◌, None, IsTrue, IfOk, OnErr};
ghost use Rattle.base_types.specs.declared.shapes.Shape.{Shape as AShape};
ghost use Rattle.host_trait.specs.Files.{StaysReady};
ghost use Rattle.host_trait.specs.Runs.{OnlyAsked};
ghost use Rattle.core_model.specs.CoreState.{CoreState};
ghost use Rattle.core_model.specs.Settler.{Step, Loads, settler_step};
ghost use Rattle.core_model.specs.declared.questions.SettlerWork.TheVariants as shown;
ghost use Rattle.batch_disk.specs.Writers.{IsInBounds, IsSafe, StaysSafe};
ghost use Rattle.settle_loop.specs.ShownWork.{ShowsWork};
ghost use Rattle.settler_rules.specs.Entries.{IsSaidInRange};
ghost use Rattle.settle_loop.specs.HostSteps.{initial_in, version_loaded};
ghost use Rattle.settle_loop.specs.StepParts.{IsMadeOfFault, MadeAs};

use crate::gate::{Gate, GatePlace};
use crate::settler::{Settler, StopCause};
use base_types::{Entry, GrainId, List, Outcome, Settled, Shape, State, UnitNo, Value, Version};
use commit_log::Sealing;
use core_model::{CoreEvent, Effect, SettlerWork};
use grain_log::VersionFault;
use host_trait::{FileId, Host};
use request_wire::reply_text;
use std::alloc::{AllocError, Global};

/// What a step has to tell the core, once its host calls are made.
#[derive(Drop)]
pub(crate) enum Made {
    /// This event, and whether it says that an entry is written, or that a batch is in doubt.
    Event {
        event: CoreEvent,
        writes: bool,
        doubts: bool,
    },
    /// There was nothing to do.
    Idle,
    /// The output failed, or a grain's last version wasn't read.
    Stopped(StopCause),
}

// A unit's number is what its type can hold.
fn read_unit(unit: UnitNo)
    ensures { unit.0 < 2 ^ 64 }
{}

// So is a line's.
fn read_line(line: u32)
    ensures { line < 2 ^ 32 }
{}

// So is a grain's key.
fn read_grain(grain: GrainId)
    ensures { grain.key < 2 ^ 32 }
{}

// Reads what an entry says: its parts are what their types can hold.
fn read_said(what: &Settled)
    ensures { IsSaidInRange what.now }
{
    match what {
        Settled::Done(Outcome::Value(Value::Int(number))) => {
            let _number = *number;
        }
        Settled::Done(Outcome::Value(Value::Text(text))) => {
            let _text = text.as_str();
        }
        Settled::Done(Outcome::Fault(text)) => {
            let _text = text.as_str();
        }
        Settled::Done(Outcome::Aborted) => {}
        Settled::Lock { by, grain } => {
            read_unit(*by);
            read_grain(*grain);
        }
        Settled::Vote { grain } => {
            read_grain(*grain);
        }
        Settled::Dependency { on } => {
            read_unit(*on);
        }
        Settled::Disk => {}
        Settled::InDoubt => {}
        Settled::Bad(_) => {}
    }
}

// A copy of the initial fields of the grain's type, none where there is no such type.
fn initial_state(alloc: Global, shape: &Shape, grain: GrainId) -> Result<State, AllocError>
    ensures { IfOk result (λ state. state ≡ initial_in shape.now grain) }
{
    match shape.types.get(grain.kind as usize) {
        Some(shape) => shape.initial.copy(),
        None => Ok(State::new(alloc)),
    }
}

// What is brought into memory of a grain: its last version, or, where it has none, its type's initial fields, which are nobody's.
fn loaded(
    alloc: Global,
    shape: &Shape,
    grain: GrainId,
    read: Option<Version>,
) -> Result<Version, AllocError>
    ensures loaded { IfOk result (λ version. version ≡ version_loaded shape.now grain read) }
    ensures lacked { OnErr result (read ≡ None) }
{
    match read {
        Some(version) => Ok(version),
        None => Ok(Version {
            unit: UnitNo(0),
            state: initial_state(alloc, shape, grain)?,
        }),
    }
}

// What a grain's last version that wasn't read makes of a step.
fn unread(file: FileId, fault: VersionFault) -> Result<Made, AllocError>
    ensures { IsMadeOfFault file fault result }
{
    match fault {
        VersionFault::Failed => Ok(Made::Stopped(StopCause::LoadFault { file })),
        VersionFault::Damaged { place } => {
            Ok(Made::Stopped(StopCause::LoadDamaged { file, place }))
        }
        VersionFault::Memory => Err(AllocError),
    }
}

impl Settler {
    // The first case: a grain's versions are written, and the vote is what that answers.
    fn vote<H: Host>(
        &mut self,
        host: &mut H,
        batch: u64,
        grain: GrainId,
        versions: List<Version>,
    ) -> Result<Made, AllocError>
        requires safe { IsSafe H.tells self.old.writer (H.world host.old) }
        ensures made { (shape : AShape) (w : CoreState) → ShowsWork w (settler_step w) (shown.Vote batch grain versions)
            → MadeAs H.tells H.world H.faults shape w (settler_step w) self.old self.new host.old host.new result }
        ensures safe { StaysSafe H.tells H.is_ready H.world self.new.writer host.old host.new }
    {
        let kept = self.writer.write_work(host, batch, grain, &versions)?;
        Ok(Made::Event {
            event: CoreEvent::Vote {
                batch,
                grain,
                yes: kept,
            },
            writes: false,
            doubts: false,
        })
    }

    // The third case: the records of the units to commit are sealed. After a seal that was left in doubt none is made.
    fn seal<H: Host, G: Gate>(
        &mut self,
        host: &mut H,
        gate: &G,
        batch: u64,
        effects: List<Effect>,
    ) -> Result<Made, AllocError>
        requires safe { IsSafe H.tells self.old.writer (H.world host.old) }
        ensures made { (shape : AShape) (w : CoreState) → ShowsWork w (settler_step w) (shown.Seal batch effects)
            → MadeAs H.tells H.world H.faults shape w (settler_step w) self.old self.new host.old host.new result }
        ensures safe { StaysSafe H.tells H.is_ready H.world self.new.writer host.old host.new }
    {
        if self.writer.in_doubt() {
            return Ok(Made::Event {
                event: CoreEvent::Doubt { batch },
                writes: false,
                doubts: true,
            });
        }
        let made = self.writer.prepare(batch, effects)?;
        gate.reach(GatePlace::BeforeGateSync { batch });
        match self.writer.seal(host, made) {
            Sealing::Sealed {
                next_gate: _next_gate,
            } => Ok(Made::Event {
                event: CoreEvent::Sealed { batch },
                writes: false,
                doubts: false,
            }),
            Sealing::NotSealed => Ok(Made::Event {
                event: CoreEvent::NotSealed { batch },
                writes: false,
                doubts: false,
            }),
            Sealing::InDoubt => Ok(Made::Event {
                event: CoreEvent::Doubt { batch },
                writes: false,
                doubts: true,
            }),
        }
    }

    // The fifth case: a settled entry's line is put out, unless the settler is quiet.
    fn write<H: Host>(&self, shape: &Shape, host: &mut H, entry: &Entry) -> Result<Made, AllocError>
        ensures made { (w : CoreState) → ShowsWork w (settler_step w) (shown.Write entry.now)
            → MadeAs H.tells H.world H.faults shape.now w (settler_step w) self.now self.now host.old host.new result }
        ensures disk { IsTrue H.tells → (H.world host.new).disk ≡ (H.world host.old).disk }
        ensures ready { StaysReady (H.is_ready host.old) (H.is_ready host.new) }
    {
        read_line(entry.line);
        read_unit(entry.unit);
        read_said(&entry.what);
        if self.quiet {
            return Ok(Made::Event {
                event: CoreEvent::Emitted,
                writes: true,
                doubts: false,
            });
        }
        let text = reply_text(self.alloc, entry, shape)?;
        match host.emit(text.as_slice()) {
            Ok(()) => Ok(Made::Event {
                event: CoreEvent::Emitted,
                writes: true,
                doubts: false,
            }),
            Err(_) => Ok(Made::Stopped(StopCause::WriteFault)),
        }
    }

    /// The sixth case: a grain's last version is read, and carried to the program in force, or its type's initial fields are taken where
    /// it has none, and the core is told of it.
    pub(crate) fn bring_in<H: Host>(
        &self,
        shape: &Shape,
        host: &mut H,
        grain: GrainId,
    ) -> Result<Made, AllocError>
        requires { IsInBounds self.now.writer }
        ensures made { (w : CoreState) (s : Step) → s ≡ Loads grain
            → MadeAs H.tells H.world H.faults shape.now w s self.now self.now host.old host.new result }
        ensures asked { IsTrue H.tells → OnlyAsked (H.world host.old) (H.world host.new) }
        ensures ready { StaysReady (H.is_ready host.old) (H.is_ready host.new) }
    {
        let file = FileId::Grain {
            slot: self.writer.slot(),
            grain,
        };
        let read = match self.writer.last_version(host, grain) {
            Ok(read) => read,
            Err(fault) => return unread(file, fault),
        };
        let Version { unit, state } = loaded(self.alloc, shape, grain, read)?;
        Ok(Made::Event {
            event: CoreEvent::Load { grain, unit, state },
            writes: false,
            doubts: false,
        })
    }

    /// Makes the host calls that belong to the case, and answers what the core is told.
    pub(crate) fn act<H: Host, G: Gate>(
        &mut self,
        shape: &Shape,
        host: &mut H,
        gate: &G,
        work: SettlerWork,
    ) -> Result<Made, AllocError>
        requires safe { IsSafe H.tells self.old.writer (H.world host.old) }
        ensures made { (w : CoreState) → ShowsWork w (settler_step w) work
            → MadeAs H.tells H.world H.faults shape.now w (settler_step w) self.old self.new host.old host.new result }
        ensures safe { StaysSafe H.tells H.is_ready H.world self.new.writer host.old host.new }
    {
        match work {
            SettlerWork::Vote {
                batch,
                grain,
                versions,
            } => self.vote(host, batch, grain, versions),
            SettlerWork::Decide { batch } => Ok(Made::Event {
                event: CoreEvent::Decide { batch },
                writes: false,
                doubts: false,
            }),
            SettlerWork::Seal { batch, effects } => self.seal(host, gate, batch, effects),
            SettlerWork::Learn { unit, grain } => Ok(Made::Event {
                event: CoreEvent::Learn { unit, grain },
                writes: false,
                doubts: false,
            }),
            SettlerWork::Write { entry } => self.write(shape, host, &entry),
            SettlerWork::Load { grain } => self.bring_in(shape, host, grain),
            SettlerWork::Take => Ok(Made::Event {
                event: CoreEvent::Take,
                writes: false,
                doubts: false,
            }),
            SettlerWork::Nothing => Ok(Made::Idle),
        }
    }
}
