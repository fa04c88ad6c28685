ghost use Rattle.std.specs.Prelude.{◌≡◌, ◌+◌, ◌++◌, ◌∷◌, ◌<◌, ◌≤◌, ◌^◌, [], true, false, IsTrue, length, map, Some, unwrap_or, IfOk, OnOk, OnErr, vec_len, vec_capacity};
ghost use Rattle.std.specs.List.{flat_map, AllByRecursion};
ghost use Rattle.base_types.specs.Places.{placed_in, has_seat, KeepsSeats};
ghost use Rattle.base_types.specs.Stores.{end_in, has_room, KeepsRoom};
ghost use Rattle.base_types.specs.declared.calls.GrainId.{GrainId as AGrain};
ghost use Rattle.base_types.specs.declared.places.Placed.{Placed as APlace};
ghost use Rattle.base_types.specs.declared.shapes.Shape.{Shape as AShape};
ghost use Rattle.script_tree.specs.Programs.{program_tree};
ghost use Rattle.program_file.specs.Succession.{ArePrograms};
ghost use Rattle.host_trait.specs.Files.{StaysReady};
ghost use Rattle.host_trait.specs.Runs.{OnlyAsked};
ghost use Rattle.batch_disk.specs.ImagesAtRest.{write_end, raised_ends, voted_at};
ghost use Rattle.batch_disk.specs.Writers.{file_end, voted_by, kept_of, voted_of, newest_number, IsInBounds, IsSafe, HasSameEnds};
ghost use Rattle.batch_disk.specs.LastVersions.{ReadsLast};
ghost use Rattle.batch_disk.specs.MovedPlaces.{moved_by_writes, moved_by_records};
ghost use Rattle.batch_disk.specs.Records.{AreRecordsFor, IsSealable};
ghost use Rattle.batch_disk.specs.VoteAnswers.{VotesOn, LacksRoom};
ghost use Rattle.batch_disk.specs.Seals.{SealsWork};

use crate::kept_version::KeptVersion;
use crate::moved_places::{move_place, owner_told};
use crate::records::{SealWork, work_of};
use base_types::{Ends, GrainId, List, Place, Places, UnitNo, Version};
use commit_log::{CommitRecord, Sealing, Written, seal};
use core_model::Effect;
use field_codec::Format;
use grain_log::{LogFault, VersionFault, read_version, write_versions};
use host_trait::{FileId, Host};
use program_file::ProgramsInTurn;
use script_check::Checked;
use std::alloc::{AllocError, Global};

/// In which slot the log and the grains' files are, the session of its blocks, where they go on, where each grain's last version stands, the programs of the log in
/// the order in which they came into force, and where the votes of one batch wrote.
///
/// Between two calls each image has the log up to the next gate, and what the votes wrote (`KeepsDisk`). The next gate, the ends and
/// the places move only when a batch is sealed.
#[derive(Drop)]
pub struct BatchWriter {
    slot: u8,
    session: u64,
    gate_at: u64,
    ends: Ends,
    places: Places,
    programs: ProgramsInTurn,
    // Whose votes are kept: those of another batch are dropped before any of this one.
    batch: u64,
    kept: Vec<KeptVersion>,
    in_doubt: bool,
}

impl BatchWriter {
    /// A writer that goes on in this slot, 0 or 1, at this closed gate and at these ends, each below 2 to the 63, where the grains'
    /// last versions stand at these places. These programs came into force one after the other, and the last one is in force: each
    /// place has the number of one of them. All blocks that it seals are of this session, which is below 2 to the 63.
    pub fn new(
        alloc: Global,
        slot: u8,
        gate_at: u64,
        ends: Ends,
        places: Places,
        programs: List<Checked>,
        session: u64,
    ) -> Result<BatchWriter, AllocError>
        requires slot { slot ≤ 1 }
        requires gate { gate_at < 2 ^ 63 }
        requires session { session < 2 ^ 63 }
        requires ends { (g : AGrain) → unwrap_or (end_in ends g) 0 < 2 ^ 63 }
        requires programs { ArePrograms (map program_tree programs) }
        requires numbered { (g : AGrain) (p : APlace) → placed_in places g ≡ Some p → p.program < length programs }
        ensures slot { IfOk result (λ made. made.slot ≡ slot) }
        ensures gate { IfOk result (λ made. made.gate_at ≡ gate_at) }
        ensures session { IfOk result (λ made. made.session ≡ session) }
        ensures ends { IfOk result (λ made. (g : AGrain) → file_end made g ≡ unwrap_or (end_in ends g) 0) }
        ensures places { IfOk result (λ made. made.places ≡ places) }
        ensures programs { IfOk result (λ made. made.programs.checked ≡ programs) }
        ensures kept { IfOk result (λ made. kept_of made ≡ []) }
        ensures doubt { IfOk result (λ made. made.in_doubt ≡ false) }
        ensures bounds { IfOk result (λ made. IsInBounds made) }
    {
        let programs = ProgramsInTurn::new(alloc, programs)?;
        Ok(BatchWriter {
            slot,
            session,
            gate_at,
            ends,
            places,
            programs,
            batch: 0,
            kept: Vec::new(alloc),
            in_doubt: false,
        })
    }

    /// The slot of the log and of the grains' files.
    pub fn slot(&self) -> u8
        ensures { result ≡ self.now.slot }
    {
        self.slot
    }

    /// The place of the next gate.
    pub fn gate_at(&self) -> u64
        ensures { result ≡ self.now.gate_at }
    {
        self.gate_at
    }

    /// Where the next version goes in a grain's file.
    pub fn file_end(&self, grain: GrainId) -> u64
        ensures { result ≡ file_end self.now grain }
    {
        self.ends.get(grain).unwrap_or(0)
    }

    /// Whether a seal was left in doubt. Nothing may be sealed then.
    pub fn in_doubt(&self) -> bool
        ensures { result ≡ self.now.in_doubt }
    {
        self.in_doubt
    }

    /// Reads a grain's last version at its place, by one read at most: none where it has none. Its unit is the one that wrote it in this
    /// run, and nobody, whose number is 0, where the log that was opened names it. Its state is carried from the program under which it
    /// was written to each that came into force after that.
    ///
    /// `Damaged` says where no version stands there: over a host that tells it doesn't come where the versions stand (`PlacesStand`).
    /// `Failed` where a call on the grain's file failed, and `Memory`.
    pub fn last_version<H: Host>(
        &self,
        host: &mut H,
        grain: GrainId,
    ) -> Result<Option<Version>, VersionFault>
        requires { IsInBounds self.now }

        // What is read of which place, by the answer.
        ensures reads { (shape : AShape) → ReadsLast H.tells H.world H.faults self.now.slot shape grain self.now host.old host.new result }

        ensures asked { IsTrue H.tells → OnlyAsked (H.world host.old) (H.world host.new) }
        ensures ready { StaysReady (H.is_ready host.old) (H.is_ready host.new) }
    {
        let Some(placed) = self.places.get(grain) else {
            return Ok(None);
        };
        let file = FileId::Grain {
            slot: self.slot,
            grain,
        };
        let alloc = *self.kept.allocator();
        let shape = self.programs.shape(placed.program);
        let Version { unit, state } = read_version(
            alloc,
            host,
            file,
            placed.place,
            shape,
            Format::Two,
        )?;
        Ok(Some(Version {
            unit: owner_told(placed, unit),
            state: self.programs.carried(alloc, placed.program, grain, state)?,
        }))
    }

    // What is kept of this batch.
    fn votes_of(&self, batch: u64) -> &[KeptVersion]
        ensures { map voted_by result.now ≡ voted_of batch self.now }
    {
        if self.batch == batch {
            return self.kept.as_slice();
        }
        &[]
    }

    // Drops what is kept of another batch.
    fn go_to(&mut self, batch: u64)
        ensures same { HasSameEnds self.old self.new }
        ensures kept { kept_of self.new ≡ voted_of batch self.old }
        ensures batch { self.new.batch ≡ batch }
        ensures ends { self.new.ends ≡ self.old.ends }
        ensures places { self.new.places ≡ self.old.places }
        ensures programs { self.new.programs ≡ self.old.programs }
    {
        if self.batch != batch {
            self.kept.clear();
            self.batch = batch;
        }
    }

    // After this, so many versions more of a grain are kept, and count, without memory.
    fn make_room(&mut self, grain: GrainId, count: usize) -> Result<(), AllocError>
        ensures same { HasSameEnds self.old self.new }
        ensures kept { kept_of self.new ≡ kept_of self.old }
        ensures batch { self.new.batch ≡ self.old.batch }
        ensures room { KeepsRoom self.old.ends self.new.ends }
        ensures seats { KeepsSeats self.old.places self.new.places }
        ensures made { OnOk result (has_room self.new.ends grain ≡ true) }
        ensures seated { OnOk result (has_seat self.new.places grain ≡ true) }
        ensures space { OnOk result (vec_len self.new.kept + count ≤ vec_capacity self.new.kept) }
    {
        self.kept.reserve(count)?;
        self.ends.room(grain)?;
        self.places.room(grain)?;
        Ok(())
    }

    // Keeps one version more. It takes no memory.
    fn keep_one(&mut self, version: KeptVersion)
        requires { vec_len self.old.kept < vec_capacity self.old.kept }
        ensures items { self.new.kept.items ≡ self.old.kept.items ++ version ∷ [] }
        ensures space { vec_capacity self.old.kept + vec_len self.new.kept ≤ vec_capacity self.new.kept + vec_len self.old.kept + 1 }
        ensures slot { self.new.slot ≡ self.old.slot }
        ensures gate { self.new.gate_at ≡ self.old.gate_at }
        ensures session { self.new.session ≡ self.old.session }
        ensures doubt { self.new.in_doubt ≡ self.old.in_doubt }
        ensures batch { self.new.batch ≡ self.old.batch }
        ensures ends { self.new.ends ≡ self.old.ends }
        ensures places { self.new.places ≡ self.old.places }
        ensures programs { self.new.programs ≡ self.old.programs }
    {
        let done = self.kept.push(version);
        prove!(done.is_ok());
    }

    // Keeps the versions of a grain at their places. It takes no memory.
    fn keep(&mut self, grain: GrainId, versions: &[Version], places: &[Place])
        requires space { vec_len self.old.kept + length versions.now ≤ vec_capacity self.old.kept }
        requires each { length places.now ≡ length versions.now }
        ensures kept { kept_of self.new ≡ kept_of self.old ++ voted_at grain places.now versions.now }
        ensures slot { self.new.slot ≡ self.old.slot }
        ensures gate { self.new.gate_at ≡ self.old.gate_at }
        ensures session { self.new.session ≡ self.old.session }
        ensures doubt { self.new.in_doubt ≡ self.old.in_doubt }
        ensures batch { self.new.batch ≡ self.old.batch }
        ensures ends { self.new.ends ≡ self.old.ends }
        ensures places { self.new.places ≡ self.old.places }
        ensures programs { self.new.programs ≡ self.old.programs }
    {
        for at in 0..versions.len() {
            let version = &versions[at];
            let place = places[at];
            self.keep_one(KeptVersion::of(grain, version, place));
        }
    }

    /// Writes a batch's versions of a grain at the end of its file, by one write and one sync, and answers whether they are on
    /// disk: the vote on the grain. It keeps where they are. The end stays until the batch is sealed.
    ///
    /// What is kept of another batch is dropped. Without memory nothing was written.
    pub fn write_work<H: Host>(
        &mut self,
        host: &mut H,
        batch: u64,
        grain: GrainId,
        versions: &List<Version>,
    ) -> Result<bool, AllocError>
        requires safe { IsSafe H.tells self.old (H.world host.old) }

        // The vote, and what it leaves of the host, of the disk and of what is kept.
        ensures voted { IfOk result (λ yes. VotesOn H.tells H.world H.faults self.old.slot batch grain yes versions.now self.old self.new
            host.old host.new) }

        // Without memory the host holds what it held.
        ensures lacked { OnErr result (LacksRoom H.tells H.world H.faults self.old.slot batch grain versions.now self.old self.new
            host.old host.new) }

        ensures safe { IsSafe H.tells self.new (H.world host.new) }
        ensures ready { StaysReady (H.is_ready host.old) (H.is_ready host.new) }
    {
        let alloc = *self.kept.allocator();
        let at = self.file_end(grain);
        let file = FileId::Grain {
            slot: self.slot,
            grain,
        };
        self.go_to(batch);
        self.make_room(grain, versions.len())?;
        match write_versions(alloc, host, file, at, versions) {
            Ok(places) => {
                let written = versions.as_slice();
                let placed = places.as_slice();
                self.keep(grain, written, placed);
                Ok(true)
            }
            Err(LogFault::Failed) => Ok(false),
            Err(LogFault::Memory) => Err(AllocError),
        }
    }

    /// The records of a batch's units to commit, in batch order, and their block in the writer's session. All memory that sealing wants is taken here;
    /// calls, answers and results are moved.
    ///
    /// It answers want of memory, too, where no place of a version that a unit wrote is kept, which can't be but where others
    /// voted, and where a unit goes beyond the limits of the format, which no play does.
    pub fn prepare(&self, batch: u64, effects: List<Effect>) -> Result<SealWork, AllocError>
        ensures records { IfOk result (λ work. AreRecordsFor (voted_of batch self.now) effects work.records) }
        ensures sealable { IfOk result (λ work. IsSealable self.now work) }
    {
        let votes = self.votes_of(batch);
        match work_of(*self.kept.allocator(), votes, effects, self.session) {
            Ok(work) => Ok(work),
            Err(_) => Err(AllocError),
        }
    }

    // The ends move past the places that a unit's record names, and the grains' last versions are the unit's. It takes no memory.
    fn count_writes(&mut self, unit: UnitNo, writes: &[Written])
        requires bounds { IsInBounds self.old }
        requires can { AllByRecursion (λ w. (has_room self.old.ends w.grain ≡ true) × (write_end w < 2 ^ 63)) writes.now }
        requires seats { AllByRecursion (λ w. has_seat self.old.places w.grain ≡ true) writes.now }
        ensures slot { self.new.slot ≡ self.old.slot }
        ensures gate { self.new.gate_at ≡ self.old.gate_at }
        ensures session { self.new.session ≡ self.old.session }
        ensures doubt { self.new.in_doubt ≡ self.old.in_doubt }
        ensures kept { self.new.kept ≡ self.old.kept }
        ensures programs { self.new.programs ≡ self.old.programs }
        ensures ends { (g : AGrain) → file_end self.new g ≡ raised_ends (file_end self.old) writes.now g }
        ensures room { KeepsRoom self.old.ends self.new.ends }
        ensures places { (g : AGrain) → placed_in self.new.places g
            ≡ moved_by_writes (newest_number self.old) (kept_of self.old) unit writes.now g (placed_in self.old.places g) }
        ensures kept_seats { KeepsSeats self.old.places self.new.places }
        ensures bounds { IsInBounds self.new }
    {
        let program = self.programs.newest();
        for write in writes {
            let end = write.place.offset + write.place.len as u64;
            self.ends.raise(write.grain, end);
            move_place(
                &mut self.places,
                self.kept.as_slice(),
                program,
                unit,
                write.grain,
            );
        }
    }

    // The ends move past the places that the records name, and the grains' last versions are theirs. It takes no memory.
    fn count_records(&mut self, records: &[CommitRecord])
        requires bounds { IsInBounds self.old }
        requires can { AllByRecursion (λ r. AllByRecursion (λ w. (has_room self.old.ends w.grain ≡ true) × (write_end w < 2 ^ 63)) r.writes) records.now }
        requires seats { AllByRecursion (λ r. AllByRecursion (λ w. has_seat self.old.places w.grain ≡ true) r.writes) records.now }
        ensures slot { self.new.slot ≡ self.old.slot }
        ensures gate { self.new.gate_at ≡ self.old.gate_at }
        ensures session { self.new.session ≡ self.old.session }
        ensures doubt { self.new.in_doubt ≡ self.old.in_doubt }
        ensures kept { self.new.kept ≡ self.old.kept }
        ensures programs { self.new.programs ≡ self.old.programs }
        ensures ends { (g : AGrain) → file_end self.new g ≡ raised_ends (file_end self.old) (flat_map (λ r. r.writes) records.now) g }
        ensures places { (g : AGrain) → placed_in self.new.places g
            ≡ moved_by_records (newest_number self.old) (kept_of self.old) records.now g (placed_in self.old.places g) }
        ensures bounds { IsInBounds self.new }
    {
        for record in records {
            self.count_writes(record.unit, record.writes.as_slice());
        }
    }

    /// Seals a block that `prepare` made. It takes no memory. A gate is reached before this call, once the block is there.
    ///
    /// Sealed, the next gate, the ends and the places of last versions move on. In each case the places of the votes are forgotten, unless the batch is in
    /// doubt: then nothing may be sealed any more.
    pub fn seal<H: Host>(&mut self, host: &mut H, work: SealWork) -> Sealing
        requires safe { IsSafe H.tells self.old (H.world host.old) }
        requires sure { self.old.in_doubt ≡ false }
        requires work { IsSealable self.old work }

        // What it leaves of the host, of the disk and of the writer, by the answer.
        ensures seals { SealsWork H.tells H.world H.faults self.old.slot work result self.old self.new host.old host.new }

        ensures safe { IsSafe H.tells self.new (H.world host.new) }
        ensures ready { StaysReady (H.is_ready host.old) (H.is_ready host.new) }
    {
        match seal(host, self.slot, self.gate_at, work.block.as_slice()) {
            Sealing::Sealed { next_gate } => {
                self.gate_at = next_gate;
                self.count_records(work.records.as_slice());
                self.kept.clear();
                Sealing::Sealed { next_gate }
            }
            Sealing::NotSealed => {
                self.kept.clear();
                Sealing::NotSealed
            }
            Sealing::InDoubt => {
                self.in_doubt = true;
                Sealing::InDoubt
            }
        }
    }
}
