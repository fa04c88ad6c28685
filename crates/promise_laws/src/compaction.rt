ghost use Rattle.std.specs.Prelude.{◌≡◌, ◌+◌, ◌-◌, ◌<◌, ℕ, List, [], length, slice_index};
ghost use Rattle.host_trait.specs.Disk.{FileState, MayLeave, Tears, settled};
ghost use Rattle.host_trait.specs.Runs.{ChangesFile};
ghost use Rattle.host_trait.specs.World.{World, Moment, Image, IsImage};
ghost use Rattle.host_trait.specs.declared.channels.FileId.TheVariants.{Manager};
ghost use Rattle.field_codec.specs.declared.formats.Format.{Format};
ghost use Rattle.silo_spec.specs.Silos.{IsSilo};
ghost use Rattle.silo_spec.specs.Slots.{generation};
ghost use Rattle.promise_spec.specs.Entries.{Log, checkpointed};
ghost use Rattle.promise_spec.specs.Logs.{IsMagic, IsLogOf};
ghost use Rattle.promise_spec.specs.Journals.{AllLogOf};
ghost use Rattle.promise_spec.specs.EitherSlot.{AllEither, StaysBelow, MayClose, IsFilling, IsCompactable, IsReadyToOpen};
ghost use Rattle.promise_laws.specs.SoundMoments.{IsSerialLog, IsSoundAt};

/// Where the header gate of the other slot is closed, a crash leaves no silo's file of so high a generation there: where the manager
/// file lasts with an open gate and a lower generation, where it lasts and is too short, and where it reads as empty and no crash
/// leaves a silo's.
pub fn closed_slots_stay_below()
    ensures lower { (bound : ℕ) (bytes : List ℕ) → slice_index bytes 0 ≡ 1
        → (IsSilo IsMagic bytes → generation bytes < bound) → StaysBelow bound (settled bytes) }
    ensures short { (bound : ℕ) (bytes : List ℕ) → length bytes < 16 → StaysBelow bound (settled bytes) }
    ensures empty { (bound : ℕ) (file : FileState) → file.seen ≡ [] → MayLeave file file.seen
        → ((bytes : List ℕ) → MayLeave file bytes → IsSilo IsMagic bytes → ⊥) → StaysBelow bound file }
{}

/// The other slot is written anew, at every moment, in its own format or another one. While its header gate is closed, and while its files
/// are filled, each image still has the log. While that gate is opened each image has the log, or what was written in the other slot; and
/// once it is open the latter.
pub fn compacting_keeps_the_log()
    ensures closing { (from : Format) (live : ℕ) (log : Log) (w : World) → IsCompactable from live log w → MayClose live w
        → (m : Moment) → ChangesFile (Manager (1 - live)) (Tears 0 1) w m → AllLogOf from live log m.disk }
    ensures filling { (from : Format) (live : ℕ) (log : Log) (w : World) → IsCompactable from live log w
        → (m : Moment) → IsFilling live w.disk m → AllLogOf from live log m.disk }
    ensures turning { (from to : Format) (live : ℕ) (log : Log) (w : World) → IsCompactable from live log w
        → (new : Log) (mid : World) → IsReadyToOpen to live new w mid
        → (m : Moment) → ChangesFile (Manager (1 - live)) (Tears 0 1) mid m → AllEither from to live log new m }
    ensures turned { (from to : Format) (live : ℕ) (log : Log) (w : World) → IsCompactable from live log w
        → (new : Log) (mid : World) → IsReadyToOpen to live new w mid
        → (m : Moment) → ChangesFile (Manager (1 - live)) (Tears 0 1) mid m → (image : Image) → IsImage m.disk image
        → slice_index (image (Manager (1 - live))) 0 ≡ 1 → IsLogOf to (1 - live) image new }
{}

/// A folder stays sound at each moment of it, where the log is: its images are a chain, and each that is a silo is sound. So it is where the
/// other slot gets what stands for the log alone, and where it gets the very same log.
pub fn rewritten_folders_are_sound()
    ensures saved { (from to : Format) (live : ℕ) (log : Log) (m : Moment) → AllEither from to live log (checkpointed log) m
        → IsSerialLog log → IsSoundAt m }
    ensures same { (from to : Format) (live : ℕ) (log : Log) (m : Moment) → AllEither from to live log log m
        → IsSerialLog log → IsSoundAt m }
{}
