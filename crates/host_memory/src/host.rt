ghost use Rattle.std.specs.Prelude.{◌≡◌, ◌⊎◌, ◌+◌, ◌-◌, ◌*◌, ◌^◌, ◌<◌, ◌≤◌, ◌∷◌, ◌++◌, [], ℕ, true, false, min, length, drop, slice_index_or, IsTrue, is_ok, is_err, IsErr, IfOk, IfSome, IfNone, OnOk, OnErr};
ghost use Rattle.host_trait.specs.Disk.{Overwrote, settled};
ghost use Rattle.host_trait.specs.Files.{HasSlot, MayAsk, StaysReady};
ghost use Rattle.host_trait.specs.Faults.{Rose, Counted};
ghost use Rattle.host_trait.specs.World.{IsImage, Asked, Pulled, Emitted, Filled, Written, Synced};
ghost use Rattle.host_trait.specs.declared.channels.FileId.{FileId};
ghost use Rattle.host_trait.specs.declared.channels.Channel.{Channel};
ghost use Rattle.host_memory.specs.Replay.{AreBy, AreSeen, output_of, world_of};
ghost use Rattle.host_memory.specs.Counts.{AreAlwaysKept};
ghost use Rattle.host_memory.specs.Table.{faults_in};
ghost use Rattle.host_memory.specs.ReadLaws.{stays};

use crate::crash::outcome_of;
use crate::events::{Noted, count_syncs, file_of, flush, place, put_out, tear, write};
use crate::files::{Stored, bytes_of, faults_of, find, keep, raise};
use crate::plan::{CallKind, Plan, Turn};
use host_trait::{Channel, Failed, FileId, Host};
use std::alloc::{AllocError, Global};

/// A host in memory.
#[derive(Drop)]
pub struct MemoryHost {
    alloc: Global,
    input: Vec<u8>,
    taken: usize,
    /// How many bytes a pull moves at most.
    most: usize,
    output: Vec<u8>,
    files: Vec<Stored>,
    events: Vec<Noted>,
    plan: Plan,
    starved: u64,
    input_faults: u64,
    output_faults: u64,
    ghost in_range: { taken ≤ length input.items },
    ghost moves: { 1 ≤ most },
    ghost shown: { output.items ≡ output_of events.items },
    ghost seen: { AreSeen files.items events.items },
    ghost clock: { AreBy (2 * plan.calls + 1) events.items },
    ghost always: { AreAlwaysKept files.items },
}

// The files that are ready from the start.
fn first_files(alloc: Global) -> Result<Vec<Stored>, AllocError>
    ensures always { IfOk result (λ files. AreAlwaysKept files.items) }
    ensures seen { IfOk result (λ files. AreSeen files.items []) }
    ensures faults { IfOk result (λ files. (file : FileId) → faults_in files.items file ≡ 0) }
{
    let mut files = Vec::new(alloc);
    keep(alloc, &mut files, FileId::Program { slot: 0 })?;
    keep(alloc, &mut files, FileId::Program { slot: 1 })?;
    keep(alloc, &mut files, FileId::Manager { slot: 0 })?;
    keep(alloc, &mut files, FileId::Manager { slot: 1 })?;
    Ok(files)
}

impl MemoryHost {
    ghost use Rattle.host_memory.specs.ShownState.{world_in, counts_in, starved_in, calls_in, left_in, ahead_in, planned_in, most_in, is_written, image_in, IsCrashOf, SameWorld, SamePlan, SameButFiles, PutsFile, IsFresh};
    ghost use Rattle.host_memory.specs.Drawings.{IsDrawing};
    ghost use Rattle.host_memory.specs.declared.events.Noted.{Noted};

    /// No files, no faults, and this input.
    pub fn new(alloc: Global, input: &[u8]) -> Result<MemoryHost, AllocError>
        ensures fresh { IfOk result IsFresh }
        ensures input { IfOk result (λ h. (world_in h).input ≡ input.now) }
        ensures files { IfOk result (λ h. (file : FileId) → ((world_in h).disk file ≡ settled []) × (is_written h file ≡ false)) }
    {
        Ok(MemoryHost {
            alloc,
            input: input.to_vec(alloc)?,
            taken: 0,
            most: usize::MAX,
            output: Vec::new(alloc),
            files: first_files(alloc)?,
            events: Vec::new(alloc),
            plan: Plan::new(alloc),
            starved: 0,
            input_faults: 0,
            output_faults: 0,
        })
    }

    /// The nth call of this kind on this channel fails, counted from now and from 1. (A call of number 0 never comes.) A
    /// planned pull, emit, length or read changes nothing, a write leaves its range pending and what a read gives as it was,
    /// and a sync leaves all pending. Without memory nothing is planned.
    pub fn fail_on(&mut self, what: CallKind, channel: Channel, nth: u64) -> Result<(), AllocError>
        ensures ok { OnOk result (planned_in self.new
            ≡ planned_in self.old ++ (record { what = what; channel = channel; left = nth }) ∷ []) }
        ensures err { OnErr result (planned_in self.new ≡ planned_in self.old) }
        ensures left { left_in self.new ≡ left_in self.old }
        ensures ahead { ahead_in self.new ≡ ahead_in self.old }
        ensures calls { calls_in self.new ≡ calls_in self.old }
        ensures same { SameWorld self.old self.new }
    {
        self.plan.fail_on(what, channel, nth)?;
        Ok(())
    }

    /// The nth call from now fails, counted from 1, of whatever kind and on whatever channel it is, and counts as a fault there; as
    /// [`fail_on`](MemoryHost::fail_on) has it fail, whose plans stay. (A call of number 0 never comes.) What was planned so before
    /// is planned no more.
    pub fn fail_call(&mut self, nth: u64)
        ensures ahead { ahead_in self.new ≡ nth }
        ensures planned { planned_in self.new ≡ planned_in self.old }
        ensures left { left_in self.new ≡ left_in self.old }
        ensures calls { calls_in self.new ≡ calls_in self.old }
        ensures same { SameWorld self.old self.new }
    {
        self.plan.fail_call(nth);
    }

    /// After so many further calls every call fails and changes nothing, and is counted no more. A host stops by itself after
    /// 2 to the 62 calls.
    pub fn stop_after(&mut self, calls: u64)
        ensures left { left_in self.new ≡ min calls (2 ^ 62 - calls_in self.old) }
        ensures ahead { ahead_in self.new ≡ ahead_in self.old }
        ensures planned { planned_in self.new ≡ planned_in self.old }
        ensures calls { calls_in self.new ≡ calls_in self.old }
        ensures same { SameWorld self.old self.new }
    {
        self.plan.stop_after(calls);
    }

    /// From now on a pull moves at most so many bytes.
    pub fn pull_at_most(&mut self, bytes: usize)
        requires { 1 ≤ bytes }
        ensures most { most_in self.new ≡ bytes }
        ensures plan { SamePlan self.old self.new }
        ensures same { SameWorld self.old self.new }
    {
        self.most = bytes;
    }

    /// Puts this input in the place of what is left. Without memory all stays as it was.
    pub fn set_input(&mut self, input: &[u8]) -> Result<(), AllocError>
        ensures ok { OnOk result (world_in self.new ≡ (record {
          input = input.now;
          output = (world_in self.old).output;
          disk = (world_in self.old).disk;
          syncs = (world_in self.old).syncs;
          past = (world_in self.old).past;
        })) }
        ensures err { OnErr result (SameWorld self.old self.new) }
        ensures written { (file : FileId) → is_written self.new file ≡ is_written self.old file }
        ensures faults { (channel : Channel) → counts_in self.new channel ≡ counts_in self.old channel }
        ensures starved { starved_in self.new ≡ starved_in self.old }
        ensures plan { SamePlan self.old self.new }
    {
        self.input = input.to_vec(self.alloc)?;
        self.taken = 0;
        Ok(())
    }

    /// What was emitted.
    pub fn output(&self) -> &[u8]
        ensures { result.now ≡ (world_in self.now).output }
    {
        &self.output
    }

    /// What a read of a file gives, none exactly where it was never written.
    pub fn file(&self, file: FileId) -> Option<&[u8]>
        ensures some { IfSome result (λ bytes. IsTrue (is_written self.now file) × (bytes.now ≡ image_in self.now file)) }
        ensures none { IfNone result (is_written self.now file ≡ false) }
    {
        find(&self.files, file)
    }

    // Gives a file these bytes.
    fn put_file(&mut self, file: FileId, bytes: &[u8]) -> Result<(), AllocError>
        ensures ok { OnOk result (PutsFile file bytes.now self.old self.new) }
        ensures err { OnErr result (world_in self.new ≡ world_in self.old) }
        ensures rest { SameButFiles self.old self.new }
        ensures plan { SamePlan self.old self.new }
    {
        place(
            self.alloc,
            &mut self.files,
            &mut self.events,
            self.plan.calls,
            file,
            bytes,
        )?;
        Ok(())
    }

    /// Gives a file these bytes, which last. Without memory all that it holds stays as it was.
    pub fn set_file(&mut self, file: FileId, bytes: &[u8]) -> Result<(), AllocError>
        requires { HasSlot file }
        ensures ok { OnOk result (PutsFile file bytes.now self.old self.new) }
        ensures err { OnErr result (world_in self.new ≡ world_in self.old) }
        ensures rest { SameButFiles self.old self.new }
        ensures plan { SamePlan self.old self.new }
    {
        self.put_file(file, bytes)?;
        Ok(())
    }

    /// How many syncs were asked.
    pub fn syncs(&self) -> u64
        ensures { result ≡ (world_in self.now).syncs }
    {
        count_syncs(&self.events)
    }

    /// How many calls were made, up to the stop. `ready` is none.
    pub fn calls(&self) -> u64
        ensures { result ≡ calls_in self.now }
    {
        self.plan.calls
    }

    /// How often calls on a channel have failed, up to the last value of a `u64`.
    pub fn faults(&self, channel: Channel) -> u64
        ensures { result ≡ counts_in self.now channel }
    {
        match channel {
            Channel::Input => self.input_faults,
            Channel::Output => self.output_faults,
            Channel::File(file) => faults_of(&self.files, file),
        }
    }

    /// How many calls found no memory for this host's own bytes, up to the last value of a `u64`. Such a call fails and
    /// changes nothing else. A write that would end at 2 to the 63 or beyond is one too. A call that fails as planned, or after
    /// the stop, is none, unless it found no memory to note what it left pending.
    pub fn starved(&self) -> u64
        ensures { result ≡ starved_in self.now }
    {
        self.starved
    }

    /// A host whose files are one image that a crash just after so many calls, or within the next one, may leave; `pick`
    /// chooses. It has no input, and neither faults nor a stop are planned.
    ///
    /// An odd `pick` takes what the next call has changed too. The rest of its half chooses for each file whether all that is
    /// pending is lost, or kept, or torn, or garbage, and how, and the length. That each of these comes at some `pick`, a write of
    /// one byte inside the file's old bytes included, is shown by tests alone.
    pub fn crashed(&self, after: u64, pick: u64) -> Result<MemoryHost, AllocError>
        requires { after ≤ calls_in self.now }
        ensures image { IfOk result (λ h. IsCrashOf self.now after (image_in h)) }
        ensures latest { IfOk result (λ h. after ≡ calls_in self.now → IsImage (world_in self.now).disk (image_in h)) }
        ensures lasts { IfOk result (λ h. (file : FileId) → (world_in h).disk file ≡ settled (image_in h file)) }
        ensures absent { IfOk result (λ h. (file : FileId) → is_written h file ≡ false → image_in h file ≡ []) }
        ensures fresh { IfOk result IsFresh }
        ensures input { IfOk result (λ h. (world_in h).input ≡ []) }
    {
        let until = 2 * after + 1 + pick % 2;
        let mut host = MemoryHost::new(self.alloc, &[])?;
        for noted in self.events.as_slice() {
            host.draw(&self.events, until, noted, pick / 2)?;
        }
        Ok(host)
    }

    // Gives the file of an event an outcome of a crash, unless it has one, or the event comes later.
    fn draw(
        &mut self,
        events: &[Noted],
        until: u64,
        noted: &Noted,
        pick: u64,
    ) -> Result<(), AllocError>
        ensures drawn { OnOk result ((count : ℕ) → count < length events.now → noted.now ≡ slice_index_or events.now count noted.now
            → IsDrawing events.now until count (is_written self.old) (world_in self.old).disk
            → IsDrawing events.now until (count + 1) (is_written self.new) (world_in self.new).disk) }
        ensures rest { OnOk result (SameButFiles self.old self.new) }
        ensures plan { OnOk result (SamePlan self.old self.new) }
    {
        if noted.stamp > until {
            return Ok(());
        }
        let Some(file) = file_of(&noted.event) else {
            return Ok(());
        };
        if self.file(file).is_some() {
            return Ok(());
        }
        let drawn = self.events.len() as u64;
        let pick = pick.wrapping_add(drawn.wrapping_mul(pick / 4));
        let bytes = outcome_of(self.alloc, events, until, file, pick)?;
        self.put_file(file, &bytes)?;
        Ok(())
    }
}

impl Host for MemoryHost {
    ghost use Rattle.host_memory.specs.ShownState.{world_in, counts_in, ready_in, starved_in, most_in, is_stopped, is_planned, is_named, TakesTurn};
    ghost use Rattle.host_memory.specs.Failures.{DidNothing, HasTorn, HasNotSynced, FailedAs};
    ghost use Rattle.host_memory.specs.declared.plan.CallKind.{CallKind};
    ghost use Rattle.host_trait.specs.declared.channels.Channel.TheVariants.{Input, Output, File};

    ghost tells = { true };

    ghost world = { world_in };

    ghost faults = { counts_in };

    ghost is_ready = { ready_in };

    ghost seen_may_stay = { λ h file told. stays h.events.items file };

    fn pull(&mut self, into: &mut [u8]) -> Result<usize, Failed>
        ensures bound { IfOk result (λ n. n ≤ length into.old) }
        ensures ok { IfOk result (λ n. IsTrue true → Pulled n into.new (world_in self.old) (world_in self.new)) }
        ensures err { OnErr result (IsTrue true → Asked (world_in self.old) (world_in self.new)) }
        ensures faults { Counted Input result (counts_in self.old) (counts_in self.new) }
        ensures ready { StaysReady (ready_in self.old) (ready_in self.new) }

        // It fails exactly where it is named.
        ensures named { is_err result ≡ is_named self.old CallKind.Pull Input }
        ensures starved { starved_in self.new ≡ starved_in self.old }
        ensures turn { TakesTurn CallKind.Pull Input self.old self.new }

        // It moves no more than it may.
        ensures most { IfOk result (λ n. n ≤ most_in self.old) }
        ensures kept { most_in self.new ≡ most_in self.old }
    {
        match self.plan.turn(CallKind::Pull, Channel::Input) {
            Turn::Goes => {
                let rest = &self.input[self.taken..];
                let n = into.len().min(rest.len()).min(self.most);
                into[..n].copy_from_slice(&rest[..n]);
                self.taken += n;
                Ok(n)
            }
            Turn::Fails => {
                self.input_faults = self.input_faults.saturating_add(1);
                Err(Failed)
            }
            Turn::Stopped => {
                self.input_faults = self.input_faults.saturating_add(1);
                Err(Failed)
            }
        }
    }

    fn emit(&mut self, bytes: &[u8]) -> Result<(), Failed>
        ensures ok { OnOk result (IsTrue true → Emitted (length bytes.now) bytes.now (world_in self.old) (world_in self.new)) }
        ensures part { IsTrue true → ((n : ℕ) × Emitted n bytes.now (world_in self.old) (world_in self.new)) }
        ensures faults { Counted Output result (counts_in self.old) (counts_in self.new) }
        ensures ready { StaysReady (ready_in self.old) (ready_in self.new) }

        // It fails exactly where it is named, or found no memory.
        ensures named { IsTrue (is_named self.old CallKind.Emit Output) → IsErr result }
        ensures cause { OnErr result (IsTrue (is_named self.old CallKind.Emit Output) ⊎ Rose (starved_in self.old) (starved_in self.new)) }

        // A call that is named does nothing; one that found no memory does nothing but count that.
        ensures idle { IsTrue (is_named self.old CallKind.Emit Output) → DidNothing self.old self.new }
        ensures err { OnErr result (Asked (world_in self.old) (world_in self.new)) }
        ensures starved { OnOk result (starved_in self.new ≡ starved_in self.old) }
        ensures later { starved_in self.old ≤ starved_in self.new }
        ensures turn { TakesTurn CallKind.Emit Output self.old self.new }
    {
        let call = self.plan.calls;
        match self.plan.turn(CallKind::Emit, Channel::Output) {
            Turn::Goes => {
                match put_out(self.alloc, &mut self.output, &mut self.events, call, bytes) {
                    Ok(()) => Ok(()),
                    Err(_) => {
                        self.starved = self.starved.saturating_add(1);
                        self.output_faults = self.output_faults.saturating_add(1);
                        Err(Failed)
                    }
                }
            }
            Turn::Fails => {
                self.output_faults = self.output_faults.saturating_add(1);
                Err(Failed)
            }
            Turn::Stopped => {
                self.output_faults = self.output_faults.saturating_add(1);
                Err(Failed)
            }
        }
    }

    fn length(&mut self, file: FileId) -> Result<u64, Failed>
        requires { MayAsk (ready_in self.old) file }
        ensures told { IsTrue true → Asked (world_in self.old) (world_in self.new) }
        ensures len { IfOk result (λ n. IsTrue true → n ≡ length ((world_in self.old).disk file).seen) }
        ensures bound { IfOk result (λ n. n < 2 ^ 63) }
        ensures faults { Counted (File file) result (counts_in self.old) (counts_in self.new) }
        ensures ready { StaysReady (ready_in self.old) (ready_in self.new) }

        // It fails exactly where it is named.
        ensures named { is_err result ≡ is_named self.old CallKind.Length (File file) }
        ensures starved { starved_in self.new ≡ starved_in self.old }
        ensures turn { TakesTurn CallKind.Length (File file) self.old self.new }
    {
        match self.plan.turn(CallKind::Length, Channel::File(file)) {
            Turn::Goes => Ok(bytes_of(&self.files, file).len() as u64),
            Turn::Fails => {
                raise(&mut self.files, file);
                Err(Failed)
            }
            Turn::Stopped => {
                raise(&mut self.files, file);
                Err(Failed)
            }
        }
    }

    fn read_at(&mut self, file: FileId, at: u64, into: &mut [u8]) -> Result<usize, Failed>
        requires { MayAsk (ready_in self.old) file }
        ensures told { IsTrue true → Asked (world_in self.old) (world_in self.new) }
        ensures bytes { IfOk result (λ n. IsTrue true → Filled n at ((world_in self.old).disk file).seen into.old into.new) }
        ensures bound { IfOk result (λ n. n ≤ length into.old) }
        ensures faults { Counted (File file) result (counts_in self.old) (counts_in self.new) }
        ensures ready { StaysReady (ready_in self.old) (ready_in self.new) }

        // It fails exactly where it is named.
        ensures named { is_err result ≡ is_named self.old CallKind.Read (File file) }
        ensures starved { starved_in self.new ≡ starved_in self.old }
        ensures turn { TakesTurn CallKind.Read (File file) self.old self.new }
    {
        match self.plan.turn(CallKind::Read, Channel::File(file)) {
            Turn::Goes => {
                let bytes = bytes_of(&self.files, file);
                if at >= bytes.len() as u64 {
                    return Ok(0);
                }
                let rest = &bytes[at as usize..];
                let n = into.len().min(rest.len());
                into[..n].copy_from_slice(&rest[..n]);
                Ok(n)
            }
            Turn::Fails => {
                raise(&mut self.files, file);
                Err(Failed)
            }
            Turn::Stopped => {
                raise(&mut self.files, file);
                Err(Failed)
            }
        }
    }

    fn write_at(&mut self, file: FileId, at: u64, bytes: &[u8]) -> Result<(), Failed>
        requires file { MayAsk (ready_in self.old) file }
        requires place { IsTrue true → at ≤ length ((world_in self.old).disk file).seen }
        ensures told { IsTrue true → Written file at (length bytes.now) (world_in self.old) (world_in self.new) }
        ensures ok { OnOk result (IsTrue true → Overwrote at bytes.now ((world_in self.old).disk file) ((world_in self.new).disk file)) }
        ensures bound { OnOk result (at + length bytes.now < 2 ^ 63) }
        ensures faults { Counted (File file) result (counts_in self.old) (counts_in self.new) }
        ensures ready { StaysReady (ready_in self.old) (ready_in self.new) }

        // It fails exactly where it is named, or found no memory.
        ensures named { IsTrue (is_named self.old CallKind.Write (File file)) → IsErr result }
        ensures cause { OnErr result (IsTrue (is_named self.old CallKind.Write (File file)) ⊎ Rose (starved_in self.old) (starved_in self.new)) }

        // After the stop it does nothing; where it is planned to fail, its range is pending and no want of memory is counted.
        ensures failed { OnErr result (FailedAs (is_stopped self.old) (is_planned self.old CallKind.Write (File file))
            (HasTorn file at (length bytes.now) self.old self.new) self.old self.new) }
        ensures starved { OnOk result (starved_in self.new ≡ starved_in self.old) }
        ensures later { starved_in self.old ≤ starved_in self.new }
        ensures turn { TakesTurn CallKind.Write (File file) self.old self.new }
    {
        let call = self.plan.calls;
        match self.plan.turn(CallKind::Write, Channel::File(file)) {
            Turn::Goes => {
                let files = &mut self.files;
                match write(self.alloc, files, &mut self.events, call, file, at, bytes) {
                    Ok(()) => Ok(()),
                    Err(_) => {
                        self.starved = self.starved.saturating_add(1);
                        raise(&mut self.files, file);
                        Err(Failed)
                    }
                }
            }
            Turn::Fails => {
                match tear(&mut self.events, call, file, at, bytes.len() as u64) {
                    Ok(()) => {
                        raise(&mut self.files, file);
                        Err(Failed)
                    }
                    Err(_) => {
                        self.starved = self.starved.saturating_add(1);
                        raise(&mut self.files, file);
                        Err(Failed)
                    }
                }
            }
            Turn::Stopped => {
                raise(&mut self.files, file);
                Err(Failed)
            }
        }
    }

    fn ready(&mut self, file: FileId) -> Result<(), AllocError> {
        keep(self.alloc, &mut self.files, file)
    }

    fn sync(&mut self, file: FileId) -> Result<(), Failed>
        requires { MayAsk (ready_in self.old) file }
        ensures told { IsTrue true → Synced file (is_ok result) (world_in self.old) (world_in self.new) }
        ensures count { OnOk result (IsTrue true → (world_in self.new).syncs ≡ (world_in self.old).syncs + 1) }
        ensures faults { Counted (File file) result (counts_in self.old) (counts_in self.new) }
        ensures ready { StaysReady (ready_in self.old) (ready_in self.new) }

        // It fails exactly where it is named, or found no memory.
        ensures named { IsTrue (is_named self.old CallKind.Sync (File file)) → IsErr result }
        ensures cause { OnErr result (IsTrue (is_named self.old CallKind.Sync (File file)) ⊎ Rose (starved_in self.old) (starved_in self.new)) }

        // After the stop it does nothing; where it is planned to fail, all is pending still and no want of memory is counted.
        ensures failed { OnErr result (FailedAs (is_stopped self.old) (is_planned self.old CallKind.Sync (File file))
            (HasNotSynced file self.old self.new) self.old self.new) }
        ensures starved { OnOk result (starved_in self.new ≡ starved_in self.old) }
        ensures later { starved_in self.old ≤ starved_in self.new }
        ensures turn { TakesTurn CallKind.Sync (File file) self.old self.new }
    {
        let call = self.plan.calls;
        match self.plan.turn(CallKind::Sync, Channel::File(file)) {
            Turn::Goes => match flush(&mut self.events, call, file, true) {
                Ok(()) => Ok(()),
                Err(_) => {
                    self.starved = self.starved.saturating_add(1);
                    raise(&mut self.files, file);
                    Err(Failed)
                }
            },
            Turn::Fails => match flush(&mut self.events, call, file, false) {
                Ok(()) => {
                    raise(&mut self.files, file);
                    Err(Failed)
                }
                Err(_) => {
                    self.starved = self.starved.saturating_add(1);
                    raise(&mut self.files, file);
                    Err(Failed)
                }
            },
            Turn::Stopped => {
                raise(&mut self.files, file);
                Err(Failed)
            }
        }
    }
}
