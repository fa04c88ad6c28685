ghost use Rattle.std.specs.Prelude.{◌≡◌, ◌++◌, List, map, fold, Option, Some, None, Result, Ok, false, ℕ};
ghost use Rattle.std.specs.List.{flat_map, list_any, AllByRecursion};
ghost use Rattle.base_types.specs.declared.calls.GrainId.{GrainId};
ghost use Rattle.base_types.specs.declared.calls.Value.{Value};
ghost use Rattle.base_types.specs.declared.shapes.Shape.{Shape};
ghost use Rattle.base_types.specs.Lists.{Member};
ghost use Rattle.host_trait.specs.World.{Image};
ghost use Rattle.host_trait.specs.declared.channels.FileId.{FileId};
ghost use Rattle.host_trait.specs.declared.channels.FileId.TheVariants.{Grain};
ghost use Rattle.field_codec.specs.declared.formats.Format.{Format as AFormat};
ghost use Rattle.host_trait.specs.Files.{same_grain};
ghost use Rattle.commit_log.specs.declared.records.Named.{Named};
ghost use Rattle.commit_log.specs.Orders.{IsAscending};
ghost use Rattle.field_codec.specs.Readers.{AreBytes};
ghost use Rattle.program_file.specs.Programs.{Program};
ghost use Rattle.log_reading.specs.Entries.{SessionEntry, body_with};
ghost use Rattle.log_reading.specs.Blocks.{ReadEntry, entries_said, entries_behind, AreEntriesIn, AreSaidBy};
ghost use Rattle.log_reading.specs.Sessions.{last_session, sessions_behind};
ghost use Rattle.log_reading.specs.Versions.{named_by_grain, is_before, version_numbered, state_of, first_missing, latest_of};
ghost use Rattle.log_reading.specs.Sums.{state_after, StopsAt};

/// Where reading stopped for a fault of a grain's file, the first version that is missing is of no grain before it.
pub fn faults_in_order()
    ensures { (live : ℕ) (format : AFormat) (shapes : List Shape) (image : Image) (named : List Named) (file : FileId)
        → (s : StopsAt live format shapes image (named_by_grain named) file)
        → (last : GrainId) (place : ℕ) → first_missing live format shapes image (named_by_grain named) ≡ Some (Grain live last, place)
        → is_before last s.here.written.grain ≡ false }
{}

/// The last versions of the grains of a log are those by which the states stand, by strictly ascending grains, one for each grain that
/// is named.
pub fn latest_states_stand()
    ensures order { (named : List Named) → IsAscending None (map (λ n. n.written) (latest_of (named_by_grain named))) }
    ensures states { (live : ℕ) (format : AFormat) (shapes : List Shape) (image : Image) (state : Option (ℕ × List Value)) (named : List Named)
        → AllByRecursion (λ n. state_after live format shapes image state (named_by_grain named) n.written.grain ≡ Some
        (n.program, state_of (version_numbered live format shapes image n))) (latest_of (named_by_grain named)) }
    ensures held { (named : List Named) (grain : GrainId)
        → list_any (λ n. same_grain n.written.grain grain) (latest_of (named_by_grain named)) ≡ list_any (λ n. same_grain n.written.grain grain) named }
    ensures among { (named : List Named) (n : Named) → Member n (latest_of (named_by_grain named)) → Member n (named_by_grain named) }
{}

/// Entries are read of exactly the bodies that say them: of sessions that never fall, with records of the program in force at each body,
/// and programs that may follow it.
pub fn entries_are_read()
    ensures reads { (format : AFormat) (p : Program) (last gate : ℕ) (said : List SessionEntry) (rest : List ReadEntry) → AreEntriesIn format p last said
        → entries_behind format p last gate (map (body_with format) said) (Ok rest) ≡ Ok (flat_map (λ b. entries_said b.entry) said ++ rest) }
    ensures only { (format : AFormat) (p : Program) (last gate : ℕ) (bodies : List (List ℕ)) (end : Result (List ReadEntry) ℕ)
        (found : List ReadEntry) → AllByRecursion AreBytes bodies → entries_behind format p last gate bodies end ≡ Ok found
        → AreSaidBy format p last bodies end found }

    // Their sessions are those of the bodies, and none is below the one before it.
    ensures sessions { (format : AFormat) (p : Program) (last : ℕ) (said : List SessionEntry) → AreEntriesIn format p last said
        → sessions_behind format p last (map (body_with format) said) ≡ flat_map (λ b. map (λ e. b.session) (entries_said b.entry)) said }
    ensures last { (format : AFormat) (p : Program) (last : ℕ) (said : List SessionEntry) → AreEntriesIn format p last said
        → last_session format last (map (body_with format) said) ≡ fold (λ before b. b.session) last said }
{}
