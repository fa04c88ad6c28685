ghost use Rattle.std.specs.Prelude.{◌≡◌, ◌⊎◌, ℕ, List};
ghost use Rattle.host_trait.specs.World.{World, Moment, Image, IsImage, Passes};
ghost use Rattle.silo_spec.specs.Silos.{IsNewSilo};
ghost use Rattle.silo_spec.specs.Slots.{IsLive, ShowsSilos};
ghost use Rattle.promise_spec.specs.Programs.{Program, IsChecked};
ghost use Rattle.promise_spec.specs.Entries.{Log, new_log};
ghost use Rattle.promise_spec.specs.Logs.{IsMagic, IsLog, HasLog};
ghost use Rattle.promise_spec.specs.Endings.{Done};
ghost use Rattle.promise_spec.specs.Words.{Manner, Command};
ghost use Rattle.promise_spec.specs.Courses.{Observed, seen_at_entry};
ghost use Rattle.promise_spec.specs.Commands.{MakesSilo, Reports, ShowsStates, Audits};
ghost use Rattle.promise_spec.specs.Loads.{Loads};
ghost use Rattle.promise_spec.specs.Checks.{Checks};
ghost use Rattle.promise_spec.specs.Calls.{Obeys, IsBadUse};
ghost use Rattle.promise_spec.specs.Images.{IsSoundFolder};
ghost use Rattle.promise_spec.specs.Promise.{Promises};
ghost use Rattle.promise_spec.specs.Compaction.{Compacts};
ghost use Rattle.promise_spec.specs.Upgrading.{UpgradesSilo};
ghost use Rattle.promise_spec.specs.Migration.{Migrates};
ghost use Rattle.promise_laws.specs.Closings.{ReadsMayStay};
ghost use Rattle.promise_laws.specs.SoundMoments.{IsSoundAt, IsRestarted};
ghost use Rattle.promise_laws.specs.KeptFolders.{LeavesSound, KeepsBases, HasSameProgram, IsBank};

/// A call that keeps its promise over a sound folder leaves a sound one: so calls can follow one another. What a read gives is among
/// what a crash may leave, before and after, as it is over each host.
pub fn folders_stay_sound()
    ensures run { (m : Manner) (r : Observed) → ReadsMayStay r.old → ReadsMayStay r.new → Promises m r → LeavesSound r }
    ensures show { (r : Observed) → ShowsStates r → LeavesSound r }
    ensures reports { (r : Observed) → Reports r → LeavesSound r }
    ensures audits { (r : Observed) → Audits r → LeavesSound r }
    ensures bad_use { (r : Observed) → IsBadUse r → LeavesSound r }
    ensures load { (n seed : ℕ) (m : Manner) (bank : Program) (r : Observed) → IsBank bank → ReadsMayStay r.new → Loads n seed m r → LeavesSound r }
    ensures check { (n seed : ℕ) (r : Observed) → Checks n seed r → LeavesSound r }
    ensures compact { (r : Observed) → ReadsMayStay r.old → Compacts r → LeavesSound r }
    ensures upgrade { (r : Observed) → ReadsMayStay r.old → UpgradesSilo r → LeavesSound r }
    ensures migrate { (r : Observed) → ReadsMayStay r.old → Migrates r → LeavesSound r }
    ensures any { (c : Command) (bank : Program) (r : Observed) → IsBank bank → ReadsMayStay r.old → ReadsMayStay r.new → Obeys c r → LeavesSound r }
{}

/// So does an `init`. One that is done leaves a sound folder whatever there was, but a manager file that reads too short and may be a
/// silo's; in it each image has the empty log of its input.
pub fn made_folders_are_sound()
    ensures init { (r : Observed) → MakesSilo r → LeavesSound r }
    ensures makes { (r : Observed) → ShowsSilos IsMagic r.old.disk → MakesSilo r → r.ending ≡ Done
        → (q : Program) × (IsChecked q
        × ((q.text ≡ r.old.input) × (IsSoundFolder r.new × ((image : Image) → IsImage r.new.disk image → IsLog 0 image (new_log q))))) }
{}

/// A call over a sound folder leaves one of the same program, but after a silo was made: the log of each image after it has the base of
/// each before it that begins at its position, where what the files read as is one of the images at entry. So does a crash.
pub fn folders_keep_their_program()
    ensures run { (m : Manner) (r : Observed) → Promises m r → IsSoundFolder r.old → IsImage r.old.disk (seen_at_entry r)
        → KeepsBases r.old.disk r.new.disk }
    ensures show { (r : Observed) → ShowsStates r → IsSoundFolder r.old → KeepsBases r.old.disk r.new.disk }
    ensures reports { (r : Observed) → Reports r → IsSoundFolder r.old → KeepsBases r.old.disk r.new.disk }
    ensures audits { (r : Observed) → Audits r → IsSoundFolder r.old → KeepsBases r.old.disk r.new.disk }
    ensures bad_use { (r : Observed) → IsBadUse r → IsSoundFolder r.old → KeepsBases r.old.disk r.new.disk }
    ensures check { (n seed : ℕ) (r : Observed) → Checks n seed r → IsSoundFolder r.old → KeepsBases r.old.disk r.new.disk }
    ensures restart { (w after : World) (image : Image) → IsSoundFolder w → IsImage w.disk image → IsRestarted image after
        → KeepsBases w.disk after.disk }
{}

/// So it is behind an `upgrade` and a `migrate`: the program that was in force at that position is the same. Behind a `compact` each log is one
/// of those at entry, or the one that was read, or begins with the program in force at the end of that.
pub fn rewriting_keeps_the_program()
    ensures upgrade { (r : Observed) → UpgradesSilo r → IsSoundFolder r.old → IsImage r.old.disk (seen_at_entry r)
        → KeepsBases r.old.disk r.new.disk }
    ensures migrate { (r : Observed) → Migrates r → IsSoundFolder r.old → IsImage r.old.disk (seen_at_entry r)
        → KeepsBases r.old.disk r.new.disk }
    ensures compact { (r : Observed) → Compacts r → IsSoundFolder r.old → (image : Image) (after : Log) → IsImage r.new.disk image
        → HasLog image after → HasSameProgram r after }
{}

/// A new silo of a checked program, in the live slot, has the empty log of that program.
pub fn fresh_silos_have_an_empty_log()
    ensures { (p : Program) (image : Image) → IsChecked p → IsNewSilo p.text image → IsLive IsMagic 0 image → IsLog 0 image (new_log p) }
{}

/// So it is at each moment of the call too; and a crash leaves a sound folder, at each moment that is so.
pub fn crashes_leave_sound_folders()
    ensures moments { (c : Command) (bank : Program) (r : Observed) → IsBank bank → ReadsMayStay r.old → Obeys c r → IsSoundFolder r.old
        → Passes IsSoundAt r.old.past r.new.past }
    ensures restart { (w after : World) (image : Image) → IsSoundFolder w → IsImage w.disk image → IsRestarted image after
        → IsSoundFolder after }
    ensures restart_at { (m : Moment) (after : World) (image : Image) → IsSoundAt m → IsImage m.disk image → IsRestarted image after
        → IsSoundFolder after }
{}
