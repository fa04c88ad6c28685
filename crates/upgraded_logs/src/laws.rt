ghost use Rattle.std.specs.Prelude.{◌≡◌, ◌↔◌, ◌≤◌, ℕ, List, [], ◌∷◌, ◌++◌, length, map, Result, Ok, Err, is_some};
ghost use Rattle.base_types.specs.declared.calls.GrainId.{GrainId as AGrain};
ghost use Rattle.host_trait.specs.World.{Image};
ghost use Rattle.field_codec.specs.declared.formats.Format.{Format};
ghost use Rattle.script_check.specs.Comparison.{GoesOnFrom, GoOnInTurn, last_program};
ghost use Rattle.script_check.specs.Carrying.{fields_of_kind};
ghost use Rattle.promise_spec.specs.Programs.{Program, shape_in};
ghost use Rattle.promise_spec.specs.Entries.{Standing, LogEntry, Recorded, Upgraded, Log, standing_of, upgraded, after_entry, after_entries, programs_among};
ghost use Rattle.promise_spec.specs.SerialExecution.{IsSerialFrom};
ghost use Rattle.promise_spec.specs.Blocks.{MayFollow, AreKept};
ghost use Rattle.upgraded_logs.specs.Upgrades.{AreOthersInitial, HaveTheirFields};
ghost use Rattle.upgraded_logs.specs.KeptStates.{kept_of_base, kept_after, state_meant, numbered_of_base, numbered_after, MeansKept};

/// What a log stands for is kept of it grain by grain: a grain has a state in the store exactly where one is kept of it, which is the
/// last that was written, carried to each program that came into force after that, in turn; every other grain has the initial fields of
/// the program in force, whatever its type began with before. By the numbers of programs, as places keep them, the same is kept.
pub fn states_are_kept()
    ensures held { (before : Standing) (entries : List LogEntry) (grain : AGrain)
        → is_some (kept_after grain before.program (kept_of_base before grain) entries) ≡ (after_entries before entries).held grain }
    ensures states { (before : Standing) (entries : List LogEntry) (grain : AGrain) → AreOthersInitial before
        → state_meant (after_entries before entries).program grain (kept_after grain before.program (kept_of_base before grain) entries)
        ≡ (after_entries before entries).states grain }
    ensures numbers { (before : Standing) (entries : List LogEntry) (grain : AGrain)
        → MeansKept (before.program ∷ programs_among entries) (numbered_after grain 0 (numbered_of_base before grain) entries)
        (kept_after grain before.program (kept_of_base before grain) entries) }
    ensures others { (before : Standing) (entries : List LogEntry) → AreOthersInitial before → AreOthersInitial (after_entries before entries) }
{}

/// Behind entries that are kept whole each grain's state has its type's fields in the program in force, whose types go on from all before,
/// so that a type's number and a grain of it stay.
pub fn states_have_their_fields()
    ensures fields { (format : Format) (live : ℕ) (image : Image) (before : Standing) (entries : List LogEntry)
        → AreKept format live image before.program entries
        → HaveTheirFields before → HaveTheirFields (after_entries before entries) }
    ensures programs { (format : Format) (live : ℕ) (image : Image) (p : Program) (entries : List LogEntry) → AreKept format live image p entries
        → GoOnInTurn p.types (map (λ q. q.types) (programs_among entries)) }
    ensures last { (before : Standing) (entries : List LogEntry) → (after_entries before entries).program.types
        ≡ last_program before.program.types (map (λ q. q.types) (programs_among entries)) }
{}

/// An upgrade behind a log's entries is kept whole exactly where the program may follow the one in force, and leaves the log serial.
pub fn upgrades_are_serial()
    ensures kept { (format : Format) (live : ℕ) (image : Image) (before : Standing) (entries : List LogEntry) (q : Program)
        → (AreKept format live image before.program (entries ++ Upgraded q ∷ []) ↔ (AreKept format live image before.program entries
        × MayFollow (after_entries before entries).program q)) }
    ensures serial { (before : Standing) (entries : List LogEntry) (q : Program)
        → (IsSerialFrom before (entries ++ Upgraded q ∷ []) ↔ IsSerialFrom before entries) }
    ensures stands { (before : Standing) (entries : List LogEntry) (q : Program)
        → after_entries before (entries ++ Upgraded q ∷ []) ≡ after_entry (after_entries before entries) (Upgraded q) }
{}
