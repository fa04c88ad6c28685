ghost use Rattle.std.specs.Prelude.{◌≡◌, ◌++◌, ◌-◌, ◌<◌, ◌≤◌, ◌^◌, ℕ, List, [], length, map, take};
ghost use Rattle.std.specs.List.{AllByRecursion, flat_map};
ghost use Rattle.host_trait.specs.Disk.{MayLeave};
ghost use Rattle.host_trait.specs.World.{World, Moment, Disk, Image, IsImage};
ghost use Rattle.host_trait.specs.declared.channels.FileId.{FileId};
ghost use Rattle.host_trait.specs.declared.channels.FileId.TheVariants.{Manager, Program as ProgramFile};
ghost use Rattle.field_codec.specs.declared.formats.Format.{Format as AFormat};
ghost use Rattle.field_codec.specs.declared.formats.Format.TheVariants.{Two};
ghost use Rattle.gate_block.specs.Log.{AreSmall};
ghost use Rattle.silo_spec.specs.Silos.{IsSilo, HasProgram};
ghost use Rattle.silo_spec.specs.Slots.{generation, IsLive, ShowsSilos};
ghost use Rattle.promise_spec.specs.Programs.{Program, IsChecked};
ghost use Rattle.promise_spec.specs.Entries.{LogEntry, Log, after_entries, standing_of, checkpointed};
ghost use Rattle.promise_spec.specs.Blocks.{Block, entries_in, body_of, BlockFits, NeverFall, AreKept, Checkpoint, IsCheckpoint, pieces_of, standing_saved, IsSavedFrom, Beginning, From, base_of, session_before, bodies_before, BeginsWhole};
ghost use Rattle.promise_spec.specs.Logs.{IsMagic, IsLogIn, written_file};

/// An image that is a silo has exactly one live slot. Where each image had this one, it stays so at each moment that leaves the other
/// manager file and the live one's header as they were, as a run does. Of a manager file that reads too short a crash leaves no silo's,
/// whatever it leaves of the others.
pub fn one_slot_is_live()
    ensures one { (a b : ℕ) (image : Image) → IsLive IsMagic a image → IsLive IsMagic b image → a ≡ b }
    ensures some { (image : Image) (slot : ℕ) → slot ≤ 1 → IsSilo IsMagic (image (Manager slot)) → (live : ℕ) × IsLive IsMagic live image }
    ensures stays { (live : ℕ) (w : World) → live ≤ 1 → ((file : FileId) → MayLeave (w.disk file) (w.disk file).seen)
        → ((image : Image) → IsImage w.disk image → IsLive IsMagic live image) → (m : Moment) → m.disk (Manager (1 - live)) ≡ w.disk (Manager (1 - live))
        → (image : Image) → IsImage m.disk image → take 15 (image (Manager live)) ≡ take 15 (w.disk (Manager live)).seen
        → 16 ≤ length (image (Manager live)) → IsLive IsMagic live image }
    ensures shows { (disk : Disk) → ShowsSilos IsMagic disk → ((file : FileId) → MayLeave (disk file) (disk file).seen) → (slot : ℕ) → slot ≤ 1
        → length (disk (Manager slot)).seen < 16 → (bytes : List ℕ) → MayLeave (disk (Manager slot)) bytes → IsSilo IsMagic bytes → ⊥ }
{}

/// What is written as a checkpoint is a log of format 2: the manager file of this generation with the pieces of a checkpoint whose
/// versions stand, up to a closed gate, whatever stands behind it; and so with a beginning and blocks behind it that are kept, whose
/// sessions never fall.
pub fn written_checkpoints_are_logs()
    ensures log { (slot : ℕ) (image : Image) (g : ℕ) (p : Program) (ck : Checkpoint) (rest : List ℕ)
        → image (Manager slot) ≡ written_file g (From ck) (pieces_of Two ck) rest
        → IsChecked p → HasProgram p.text (image (ProgramFile slot)) → AreSmall (pieces_of Two ck) → IsCheckpoint Two slot p image ck
        → IsLogIn Two slot image (record { base = standing_saved p ck; entries = [] }) }
    ensures blocks { (slot : ℕ) (image : Image) (g : ℕ) (p : Program) (b : Beginning) (blocks : List Block) (session : ℕ) (rest : List ℕ)
        → image (Manager slot) ≡ written_file g b (bodies_before Two b ++ map (body_of Two) blocks) rest
        → IsChecked p → HasProgram p.text (image (ProgramFile slot)) → AreSmall (bodies_before Two b ++ map (body_of Two) blocks)
        → BeginsWhole Two slot p image b → AllByRecursion (BlockFits Two) blocks → NeverFall (session_before b) blocks session
        → AreKept Two slot image p (flat_map entries_in blocks)
        → IsLogIn Two slot image (record { base = base_of p b; entries = flat_map entries_in blocks }) }
    ensures generation { (g : ℕ) (b : Beginning) (bodies : List (List ℕ)) (rest : List ℕ) → g < 2 ^ 32
        → generation (written_file g b bodies rest) ≡ g }
{}

/// A checkpoint that names each grain that has a state, with that state, stands for what stood: so of an image's log it is what stands
/// for the same, with no entry behind it.
pub fn checkpoints_stand_for_logs()
    ensures standing { (p : Program) (b : Beginning) (entries : List LogEntry) (ck : Checkpoint) → IsSavedFrom (after_entries (base_of p b) entries) ck
        → standing_saved (after_entries (base_of p b) entries).program ck ≡ after_entries (base_of p b) entries }
    ensures log { (format : AFormat) (slot : ℕ) (image : Image) (log : Log) (ck : Checkpoint) → IsLogIn format slot image log → IsSavedFrom (standing_of log) ck
        → record { base = standing_saved (standing_of log).program ck; entries = [] } ≡ checkpointed log }
{}
