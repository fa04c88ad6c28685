ghost use Rattle.std.specs.Prelude.{◌≡◌, ◌^◌, ◌<◌, ◌≤◌, ◌&&◌, ◌||◌, [], false, if◌then◌else◌, length, map, IsTrue, Some, IfOk, OnErr, unwrap_or};
ghost use Rattle.base_types.specs.Stores.{end_in};
ghost use Rattle.base_types.specs.Places.{placed_in};
ghost use Rattle.base_types.specs.declared.calls.GrainId.{GrainId as AGrain};
ghost use Rattle.base_types.specs.declared.places.Placed.{Placed as APlace};
ghost use Rattle.script_tree.specs.Programs.{program_tree};
ghost use Rattle.program_file.specs.Succession.{ArePrograms};
ghost use Rattle.host_trait.specs.Files.{StaysReady};
ghost use Rattle.host_trait.specs.Runs.{OnlyAsked};
ghost use Rattle.core_model.specs.Settler.{settler_step, has_step, step_of};
ghost use Rattle.core_access.specs.FitAccess.{StaysFit};
ghost use Rattle.core_access.specs.Sights.{Looks};
ghost use Rattle.batch_disk.specs.Writers.{file_end, kept_of, programs_of, IsInBounds, IsSafe, StaysSafe};
ghost use Rattle.settle_loop.specs.ShownWork.{counted_up};
ghost use Rattle.settle_loop.specs.SettlerStep.{state_shown, wanted_step, TurnsAs, TurnsBy};
ghost use Rattle.settle_loop.specs.StepParts.{ToldAs};

use crate::cases::Made;
use crate::gate::Gate;
use crate::looks::{has_applied, look, put, see_wanted, sees_unwritten};
use base_types::{Ends, List, Places, Shape};
use batch_disk::BatchWriter;
use core_access::Access;
use core_model::{CoreEvent, SettlerWork};
use host_trait::{FileId, Host};
use script_check::Checked;
use std::alloc::{AllocError, Global};

/// Why the settler stops.
#[derive(Clone, Copy, Debug, PartialEq, Eq)]
pub enum StopCause {
    /// A batch was left in doubt, and all that is settled is written.
    InDoubt,
    /// The output failed.
    WriteFault,
    /// A call on the file of a grain that was to be brought into memory failed, and its count has risen.
    LoadFault { file: FileId },
    /// The grain's last version doesn't stand there: the file is damaged at this offset.
    LoadDamaged { file: FileId, place: u64 },
}

/// What a step of the settler came to.
#[derive(Clone, Copy, Debug, PartialEq, Eq)]
pub enum Turned {
    /// The event of the first case that applies was put.
    Stepped,
    /// No case applies.
    Nothing,
    Stop(StopCause),
}

/// One that settles the batches of a core and writes its replies.
///
/// It begins at a closed gate, at the ends of the grains' files and at the places of the grains' last versions, and goes on by its own
/// seals. It knows the programs of the log, so a version that was written under an earlier one is carried to the program in force when
/// it is loaded. What a settled entry says is put out as a reply line, unless the settler is quiet.
#[derive(Drop)]
pub struct Settler {
    pub(crate) alloc: Global,
    pub(crate) writer: BatchWriter,
    pub(crate) quiet: bool,
    written: u64,
    doubted: bool,
}

impl Settler {
    /// A settler that goes on in this slot, 0 or 1, at this closed gate and at these ends, each below 2 to the 63, where the grains' last
    /// versions stand at these places. These programs came into force one after the other, the last one is in force, and each place has
    /// the number of one of them. All that it seals is of this session, which is below 2 to the 63. A quiet one writes no replies.
    pub fn new(
        alloc: Global,
        slot: u8,
        gate_at: u64,
        ends: Ends,
        quiet: bool,
        places: Places,
        programs: List<Checked>,
        session: u64,
    ) -> Result<Settler, AllocError>
        requires slot { slot ≤ 1 }
        requires gate { gate_at < 2 ^ 63 }
        requires session { session < 2 ^ 63 }
        requires ends { (g : AGrain) → unwrap_or (end_in ends g) 0 < 2 ^ 63 }
        requires programs { ArePrograms (map program_tree programs) }
        requires numbered { (g : AGrain) (p : APlace) → placed_in places g ≡ Some p → p.program < length programs }
        ensures slot { IfOk result (λ made. made.writer.slot ≡ slot) }
        ensures gate { IfOk result (λ made. made.writer.gate_at ≡ gate_at) }
        ensures session { IfOk result (λ made. made.writer.session ≡ session) }
        ensures ends { IfOk result (λ made. (g : AGrain) → file_end made.writer g ≡ unwrap_or (end_in ends g) 0) }
        ensures places { IfOk result (λ made. made.writer.places ≡ places) }
        ensures programs { IfOk result (λ made. programs_of made.writer ≡ map program_tree programs) }
        ensures kept { IfOk result (λ made. kept_of made.writer ≡ []) }
        ensures sealing { IfOk result (λ made. made.writer.in_doubt ≡ false) }
        ensures quiet { IfOk result (λ made. made.quiet ≡ quiet) }
        ensures written { IfOk result (λ made. made.written ≡ 0) }
        ensures doubted { IfOk result (λ made. made.doubted ≡ false) }
        ensures bounds { IfOk result (λ made. IsInBounds made.writer) }
    {
        Ok(Settler {
            alloc,
            writer: BatchWriter::new(alloc, slot, gate_at, ends, places, programs, session)?,
            quiet,
            written: 0,
            doubted: false,
        })
    }

    /// How many entries it has written: its `Emitted` that applied, up to the last value of a `u64`.
    pub fn written(&self) -> u64
        ensures { result ≡ self.now.written }
    {
        self.written
    }

    /// Whether a `Doubt` of its own applied.
    pub fn doubted(&self) -> bool
        ensures { result ≡ self.now.doubted }
    {
        self.doubted
    }

    /// Whether one of its cases applies to what it looked at in this call. An error where there is no memory for the look.
    pub fn applies<A: Access>(&self, access: &mut A) -> Result<bool, AllocError>
        requires fit { A.is_fit access.old }
        ensures kept { StaysFit (A.is_fit access.new) (A.aside access.old) (A.aside access.new) }
        ensures looked { Looks A.may_come (A.sight access.old) (A.sight access.new) }
        ensures applies { IfOk result (λ b. b ≡ has_step (settler_step (state_shown (A.sight access.new)))) }
    {
        let work = look(access)?;
        let is_some = is_some_work(&work);
        drop(work);
        Ok(is_some)
    }

    // Counts what an event that applied says.
    fn count(&mut self, writes: bool, doubts: bool)
        ensures { self.new ≡ record self.old {
          written = (if writes then counted_up self.old.written else self.old.written);
          doubted = (self.old.doubted || doubts);
        } }
    {
        if writes {
            self.written = self.written.saturating_add(1);
        }
        self.doubted = self.doubted || doubts;
    }

    // Puts the event, and counts it where it applied. Where a doubt of its own stands it looks whether all is written.
    fn tell<A: Access>(
        &mut self,
        access: &mut A,
        event: CoreEvent,
        writes: bool,
        doubts: bool,
    ) -> Result<Turned, AllocError>
        requires fit { A.is_fit access.old }
        ensures kept { StaysFit (A.is_fit access.new) (A.aside access.old) (A.aside access.new) }
        ensures told { ToldAs A.may_come event writes doubts self.old self.new (A.sight access.old) (A.sight access.new) result }
        ensures writer { self.new.writer ≡ self.old.writer }
    {
        let reply = put(access, event)?;
        let applied = has_applied(&reply);
        drop(reply);
        if !applied {
            return Ok(Turned::Stepped);
        }
        self.count(writes, doubts);
        if !self.doubted {
            return Ok(Turned::Stepped);
        }
        if sees_unwritten(access)? {
            return Ok(Turned::Stepped);
        }
        Ok(Turned::Stop(StopCause::InDoubt))
    }

    /// Goes on by at most one event: that of the first case that applies in what it looks at, with the host calls that belong
    /// to it. One write and one sync at most for a vote, two of each for a seal, one emit for an entry, one read at most for a grain
    /// that is brought into memory, and none else.
    ///
    /// It stops where the output fails or a grain's last version isn't read, with no event put, and where a doubt of its own stands
    /// and all that is settled is written.
    ///
    /// Without memory for its look, or for what it makes before the host is called, nothing happened. Where it can't look
    /// whether all is written its event stands.
    pub fn step<A: Access, H: Host, G: Gate>(
        &mut self,
        shape: &Shape,
        access: &mut A,
        host: &mut H,
        gate: &G,
    ) -> Result<Turned, AllocError>
        requires fit { A.is_fit access.old }
        requires safe { IsSafe H.tells self.old.writer (H.world host.old) }
        ensures kept { StaysFit (A.is_fit access.new) (A.aside access.old) (A.aside access.new) }

        // What it did to the core and to the host, for each answer and for want of memory.
        ensures turns { TurnsAs H.tells H.world H.faults A.may_come shape.now self.old self.new (A.sight access.old) (A.sight access.new) host.old
            host.new result }

        ensures safe { StaysSafe H.tells H.is_ready H.world self.new.writer host.old host.new }
    {
        let work = look(access)?;
        let made = match self.act(shape, host, gate, work) {
            Ok(made) => made,
            Err(lack) => return Err(lack),
        };
        match made {
            Made::Event {
                event,
                writes,
                doubts,
            } => self.tell(access, event, writes, doubts),
            Made::Idle => Ok(Turned::Nothing),
            Made::Stopped(cause) => Ok(Turned::Stop(cause)),
        }
    }

    /// Brings the lowest grain that a unit wants, and that isn't in memory, into memory: by at most one read, and one event. `Nothing`
    /// where there is none.
    ///
    /// It stops where the grain's last version isn't read, with no event put; and, as `step`, where a doubt of its own stands and all
    /// that is settled is written.
    pub fn load<A: Access, H: Host>(
        &mut self,
        shape: &Shape,
        access: &mut A,
        host: &mut H,
    ) -> Result<Turned, AllocError>
        requires fit { A.is_fit access.old }
        requires bounds { IsInBounds self.old.writer }
        ensures kept { StaysFit (A.is_fit access.new) (A.aside access.old) (A.aside access.new) }

        // What it did to the core and to the host, for each answer and for want of memory.
        ensures turns { TurnsBy H.tells H.world H.faults A.may_come shape.now wanted_step self.old self.new (A.sight access.old)
            (A.sight access.new) host.old host.new result }

        ensures asked { IsTrue H.tells → OnlyAsked (H.world host.old) (H.world host.new) }
        ensures writer { self.new.writer ≡ self.old.writer }
        ensures ready { StaysReady (H.is_ready host.old) (H.is_ready host.new) }
    {
        let Some(grain) = see_wanted(access)? else {
            return Ok(Turned::Nothing);
        };
        let made = match self.bring_in(shape, host, grain) {
            Ok(made) => made,
            Err(lack) => return Err(lack),
        };
        match made {
            Made::Event {
                event,
                writes,
                doubts,
            } => self.tell(access, event, writes, doubts),
            Made::Idle => Ok(Turned::Nothing),
            Made::Stopped(cause) => Ok(Turned::Stop(cause)),
        }
    }
}

// Whether there is something to do.
fn is_some_work(work: &SettlerWork) -> bool
    ensures { result ≡ has_step (step_of work.now) }
{
    match work {
        SettlerWork::Vote { .. } => true,
        SettlerWork::Decide { .. } => true,
        SettlerWork::Seal { .. } => true,
        SettlerWork::Learn { .. } => true,
        SettlerWork::Write { .. } => true,
        SettlerWork::Load { .. } => true,
        SettlerWork::Take => true,
        SettlerWork::Nothing => false,
    }
}
