ghost use Rattle.std.specs.Prelude.{◌≡◌, ◌⊎◌, ◌↔◌, ◌++◌, ◌+◌, ◌≤◌, ◌<◌, ◌^◌, ◌||◌, max, fold, map, ℕ, Bool, true, false, List, [], ◌∷◌, length, codes, Some, Ok};
ghost use Rattle.std.specs.List.{AllByRecursion, flat_map};
ghost use Rattle.base_types.specs.declared.calls.GrainId.{GrainId};
ghost use Rattle.base_types.specs.declared.shapes.Shape.{Shape};
ghost use Rattle.gate_block.specs.Log.{HasBlocks};
ghost use Rattle.host_trait.specs.declared.channels.FileId.TheVariants.{Manager};
ghost use Rattle.base_types.specs.declared.entries.Entry.{Entry};
ghost use Rattle.host_trait.specs.World.{Image};
ghost use Rattle.host_trait.specs.declared.channels.FileId.{FileId};
ghost use Rattle.field_codec.specs.declared.formats.Format.{Format as AFormat};
ghost use Rattle.field_codec.specs.Readers.{AreBytes};
ghost use Rattle.script_tree.specs.Programs.{ProgramTree};
ghost use Rattle.silo_spec.specs.Silos.{IsSilo};
ghost use Rattle.silo_spec.specs.Slots.{IsLive};
ghost use Rattle.silo_spec.specs.OpenedDisks.{opening_syncs};
ghost use Rattle.promise_spec.specs.Programs.{Program, IsChecked, text_limit, shape_in, program_in};
ghost use Rattle.promise_spec.specs.Records.{Commit, written, after_writes};
ghost use Rattle.promise_spec.specs.Entries.{LogEntry, Recorded, records_among, Standing, after_entries, initial_states, new_silo, is_among, Log, records_of, standing_of, grown, upgraded, checkpointed};
ghost use Rattle.promise_spec.specs.Versions.{IsKept};
ghost use Rattle.promise_spec.specs.Blocks.{Records, Upgrade, sessions_in, body_of, SessionIs, MayFollow, Beginning, base_of};
ghost use Rattle.promise_spec.specs.SerialExecution.{IsSerial, IsSerialFrom};
ghost use Rattle.promise_spec.specs.Prefixes.{last_position, from_position, IsPrefixOf};
ghost use Rattle.promise_spec.specs.Logs.{IsFormat, IsMagic, StandsUpTo, IsLogIn, IsLogOf, IsPrefix};
ghost use Rattle.promise_spec.specs.Images.{IsWholeSilo, IsSound, AreChained, IsWholeFolder};
ghost use Rattle.promise_spec.specs.Openings.{NoSilo, OtherFormat, Reads, live_in, reading_in, session_in_file, sessions_read};
ghost use Rattle.promise_spec.specs.Words.{GivenOption, Manner, plain_manner, Command, Run, Load, Check, Compact, Upgrade, Migrate, Say};
ghost use Rattle.request_wire.specs.Reply.{reply_line};
ghost use Rattle.promise_spec.specs.Outputs.{HavePlainNames, IsProper, Grew};
ghost use Rattle.promise_spec.specs.Endings.{Done, InputTooLong, CountsSyncs};
ghost use Rattle.promise_spec.specs.Courses.{Observed, Course, core_run, seen_at_entry};
ghost use Rattle.promise_spec.specs.Causes.{NoneRose, syncs_of};
ghost use Rattle.promise_spec.specs.Headline.{KeepsHeadline, HasHeadline};
ghost use Rattle.promise_spec.specs.Promise.{Keeps, Promises};

/// The headline alone, where a reader may stop: what keeps all six clauses keeps it; so does a call of `run` over a whole folder
/// that keeps its promise, unless it left all as it was.
pub fn promises_keep_the_headline()
    ensures course { (p : Program) (r : Observed) (c : Course) → Keeps p r c → KeepsHeadline p r c }
    ensures call { (m : Manner) (r : Observed) → Promises m r → IsWholeFolder r.old → HasHeadline r }
{}

/// An image has at most one log, whichever slots are said to be live, and in whichever formats: the program, the records and their
/// states are the bytes'. So where a definition says that an image has a log, it is the log. It has it in one format. A slot's files
/// have at most one too, live or not; and the unit that is next where a log begins has a number above 0.
pub fn one_log()
    ensures image { (f g : AFormat) (one other : ℕ) (image : Image) (a b : Log) → IsLogOf f one image a → IsLogOf g other image b → a ≡ b }
    ensures format { (f g : AFormat) (one other : ℕ) (image : Image) (a b : Log) → IsLogOf f one image a → IsLogOf g other image b → f ≡ g }
    ensures slot { (f g : AFormat) (slot : ℕ) (image : Image) (a b : Log) → IsLogIn f slot image a → IsLogIn g slot image b → a ≡ b }
    ensures begins { (format : AFormat) (live : ℕ) (image : Image) (log : Log) → IsLogOf format live image log → 0 < log.base.next }
{}

/// The greatest session up to which a slot's files have a log is that of its manager file's last block: that of the checkpoint with
/// which the log begins where no block follows it, 0 where there is none. No session of a log is 2 to the 63 or more. Of each entry is
/// read the session of the block that it stands in.
pub fn sessions_are_read()
    ensures greatest { (format : AFormat) (slot : ℕ) (image : Image) (log : Log) → (is : IsLogIn format slot image log)
        → is.session ≡ session_in_file format is.stands.program (image (Manager slot)) }
    ensures small { (format : AFormat) (slot : ℕ) (image : Image) (log : Log) → (is : IsLogIn format slot image log) → is.session < 2 ^ 63 }
    ensures each { (format : AFormat) (slot : ℕ) (image : Image) (log : Log) → (is : IsLogIn format slot image log)
        → sessions_read format is.stands.program (image (Manager slot)) ≡ flat_map sessions_in is.stands.blocks }
{}

/// Of two images that are a chain, whose logs begin at one position, the logs have one base, and the entries of one are a first part
/// of the other's.
pub fn chains_compare()
    ensures { (f g : AFormat) (one other : ℕ) (x y : Image) (a b : Log) → AreChained x y → IsLogOf f one x a → IsLogOf g other y b → a.base.count ≡ b.base.count
        → (a.base ≡ b.base) × (IsPrefix a.entries b.entries ⊎ IsPrefix b.entries a.entries) }
{}

/// The line of an entry determines the entry, where types are known by their names.
pub fn one_entry()
    ensures { (shape : Shape) (d e : Entry) → HavePlainNames shape.types → IsProper shape d → IsProper shape e
        → reply_line shape d ≡ reply_line shape e → d ≡ e }
{}

/// An output is cut into entries and a rest in one way. So where a definition says that an output grew by entries, they are
/// the entries.
pub fn one_output()
    ensures { (shape : Shape) (before now : List ℕ) (ds es : List Entry) (r s : List ℕ) → HavePlainNames shape.types
        → Grew shape before now ds r → Grew shape before now es s → (ds ≡ es) × (r ≡ s) }
{}

/// The types of a checked program are known by their names. So the laws of entries and outputs hold of every run of one.
pub fn checked_programs_have_plain_names()
    ensures { (p : Program) → IsChecked p → HavePlainNames (shape_in p).types }
{}

/// What a log stands for is folds over its entries, each by itself: their count, the number after the greatest unit, and the grains
/// that some record writes, or that were held before. Behind records the program stays in force, and the states are those after their
/// writes. What stands after some entries and others is what the others leave of what the first do.
pub fn standings_are_folds()
    ensures count { (before : Standing) (entries : List LogEntry) → (after_entries before entries).count ≡ before.count + length entries }
    ensures next { (before : Standing) (entries : List LogEntry)
        → (after_entries before entries).next ≡ fold (λ (next : ℕ) (c : Commit). max next (c.logged.unit.0 + 1)) before.next (records_among entries) }
    ensures held { (before : Standing) (entries : List LogEntry) (grain : GrainId)
        → (after_entries before entries).held grain ≡ (is_among (flat_map written (records_among entries)) grain || before.held grain) }
    ensures program { (before : Standing) (more : List Commit) → (after_entries before (map Recorded more)).program ≡ before.program }
    ensures states { (before : Standing) (more : List Commit)
        → (after_entries before (map Recorded more)).states ≡ fold after_writes before.states more }
    ensures front { (before : Standing) (entries more : List LogEntry)
        → after_entries before (entries ++ more) ≡ after_entries (after_entries before entries) more }
{}

/// A log grown by records: in parts, what records it has, what it stands for, and when what is added is serial.
pub fn grown_logs_go_on()
    ensures none { (log : Log) → grown log [] ≡ log }
    ensures twice { (log : Log) (more later : List Commit) → grown (grown log more) later ≡ grown log (more ++ later) }
    ensures records { (log : Log) (more : List Commit) → records_of (grown log more) ≡ records_of log ++ more }
    ensures stands { (log : Log) (more : List Commit) → standing_of (grown log more) ≡ after_entries (standing_of log) (map Recorded more) }
    ensures serial { (before : Standing) (more : List Commit)
        → IsSerialFrom before (map Recorded more) ↔ IsSerial before.program.types before.states more }
{}

/// A batch's block behind a log, whose session isn't below those before it, and whose records are kept under the program in force: the
/// log grew by them.
pub fn sealed_batches_grow_a_log()
    ensures { (format : AFormat) (slot : ℕ) (image : Image) (log : Log) (bodies : List (List ℕ)) (gate reached : ℕ)
        → StandsUpTo format slot image log bodies gate reached → (session : ℕ) → reached ≤ session → SessionIs format session
        → (batch : List Commit) (next : ℕ) → length batch ≤ 64 → AllByRecursion (IsKept format slot (shape_in (standing_of log).program) image) batch
        → HasBlocks (bodies ++ body_of format (Records session batch) ∷ []) next (image (Manager slot))
        → StandsUpTo format slot image (grown log batch) (bodies ++ body_of format (Records session batch) ∷ []) next session }
{}

/// An upgrade's block behind a log, whose session isn't below those before it, and whose program may follow the one in force: the log
/// has the upgrade more.
pub fn sealed_upgrades_grow_a_log()
    ensures { (format : AFormat) (slot : ℕ) (image : Image) (log : Log) (bodies : List (List ℕ)) (gate reached : ℕ)
        → StandsUpTo format slot image log bodies gate reached → (session : ℕ) → reached ≤ session → SessionIs format session
        → (q : Program) (next : ℕ) → MayFollow (standing_of log).program q
        → HasBlocks (bodies ++ body_of format (Upgrade session q) ∷ []) next (image (Manager slot))
        → StandsUpTo format slot image (upgraded log q) (bodies ++ body_of format (Upgrade session q) ∷ []) next session }
{}

/// Where a grain has no state in the store it has its type's initial fields, behind any entries: from any base of which this is so,
/// as of a new silo's, and of a checkpoint's.
pub fn unheld_grains_are_initial()
    ensures any { (before : Standing) (entries : List LogEntry)
        → ((grain : GrainId) → before.held grain ≡ false → before.states grain ≡ initial_states before.program grain)
        → (grain : GrainId) → (after_entries before entries).held grain ≡ false
        → (after_entries before entries).states grain ≡ initial_states (after_entries before entries).program grain }
    ensures new { (p : Program) (entries : List LogEntry) (grain : GrainId) → (after_entries (new_silo p) entries).held grain ≡ false
        → (after_entries (new_silo p) entries).states grain ≡ initial_states (after_entries (new_silo p) entries).program grain }
    ensures begins { (p : Program) (b : Beginning) (entries : List LogEntry) (grain : GrainId) → (after_entries (base_of p b) entries).held grain ≡ false
        → (after_entries (base_of p b) entries).states grain ≡ initial_states (after_entries (base_of p b) entries).program grain }
{}

/// Prefixes over positions: each log is one of itself; over one base they are first parts, and where both begin at one position the
/// two have one; a log and what stands for it alone are prefixes of each other; two that are so end at one position and stand for the
/// same; and they go on from one to the next, unless the one between forgot what both ends have.
pub fn prefixes_are_an_order()
    ensures same { (a : Log) → IsPrefixOf a a }
    ensures one_base { (a b : Log) → a.base ≡ b.base → (IsPrefixOf a b ↔ IsPrefix a.entries b.entries) }
    ensures one_position { (a b : Log) → a.base.count ≡ b.base.count → IsPrefixOf a b → (a.base ≡ b.base) × IsPrefix a.entries b.entries }
    ensures saved { (a : Log) → IsPrefixOf a (checkpointed a) × IsPrefixOf (checkpointed a) a }
    ensures shorter { (a b : Log) → IsPrefixOf a b → last_position a ≤ last_position b }
    ensures stands { (a b : Log) → IsPrefixOf a b → b.base.count ≤ last_position a → (from_position (last_position a) b).base ≡ standing_of a }
    ensures both { (a b : Log) → IsPrefixOf a b → IsPrefixOf b a → (last_position a ≡ last_position b) × (standing_of a ≡ standing_of b) }
    ensures then { (a b c : Log) → b.base.count ≤ max a.base.count c.base.count → IsPrefixOf a b → IsPrefixOf b c → IsPrefixOf a c }
{}

/// A run that is done, or of whose input a line is too long, has asked for as many syncs as its events need, where nothing failed:
/// for the opening's alone where no line may begin.
pub fn done_runs_count_syncs()
    ensures done { (p : Program) (r : Observed) (c : Course) → Keeps p r c → NoneRose r.faults_before r.faults_after → r.ending ≡ Done
        → r.new.syncs ≡ r.old.syncs + syncs_of (seen_at_entry r) (core_run p c) }
    ensures long { (p : Program) (r : Observed) (c : Course) (line : ℕ) → Keeps p r c → NoneRose r.faults_before r.faults_after
        → r.ending ≡ InputTooLong line → r.new.syncs ≡ r.old.syncs + syncs_of (seen_at_entry r) (core_run p c) }
    ensures unbegun { (p : Program) (r : Observed) (c : Course) → Keeps p r c → NoneRose r.faults_before r.faults_after → CountsSyncs r.ending
        → c.allowed ≡ 0 → r.new.syncs ≡ r.old.syncs + opening_syncs (seen_at_entry r) }
{}

/// A text is read as types exactly where it is a checked program with these types.
pub fn programs_are_read()
    ensures read { (p : Program) → IsChecked p → program_in p.text ≡ Ok p.types }
    ensures checked { (text : List ℕ) (types : ProgramTree) → length text ≤ text_limit → program_in text ≡ Ok types
        → IsChecked (record { text = text; types = types }) }
{}

/// A folder reads in a format as a silo with a live slot and a log exactly where that slot is live and it has that log there in the
/// format; it reads as no silo exactly where no slot is live, and as one of the other format exactly where a live slot's manager file
/// isn't of this one. So one that is sound is opened in its format with its log, and is neither called damaged nor no silo; and what
/// an image that is whole reads as is its log.
pub fn folders_are_read()
    ensures slot { (image : Image) (live : ℕ) → (live_in image ≡ Some live) ↔ IsLive IsMagic live image }
    ensures reads { (format : AFormat) (image : Image) (live : ℕ) (log : Log) → ((file : FileId) → AreBytes (image file))
        → reading_in format image ≡ Reads live log → IsLogOf format live image log }
    ensures read { (format : AFormat) (image : Image) (live : ℕ) (log : Log) → IsLogOf format live image log → reading_in format image ≡ Reads live log }
    ensures no_silo { (format : AFormat) (image : Image) → (reading_in format image ≡ NoSilo) ↔ ((live : ℕ) → IsLive IsMagic live image → ⊥) }
    ensures other { (format : AFormat) (image : Image) → (reading_in format image ≡ OtherFormat)
        ↔ ((live : ℕ) × IsLive IsMagic live image × (IsSilo (IsFormat format) (image (Manager live)) → ⊥)) }
    ensures sound { (live : ℕ) (image : Image) → (s : IsSound live image) → reading_in s.format image ≡ Reads live s.log }
    ensures whole { (format : AFormat) (live : ℕ) (image : Image) (log : Log) → IsWholeSilo live image → reading_in format image ≡ Reads live log
        → IsLogOf format live image log }
{}

/// The words of a command say one thing: one manner of a run, one number of transfers, seed and manner of a load, and one number
/// of starts and seed of a check; and no words say two commands.
pub fn words_say_one_command()
    ensures { (takes : GivenOption → Bool) (words : List (List ℕ)) (c d : Command) → Say takes words c → Say takes words d → c ≡ d }
{}

/// Words that say a command, and words that say none: an option or a number out of its bounds, without a value or with a
/// leading zero, options that may not stand together or with the command, and a word too many or too few.
pub fn words_are_read()
    ensures run { Say (λ g. true) (codes "run" ∷ []) (Run plain_manner) }
    ensures turns { Say (λ g. true) (codes "run" ∷ codes "--turns" ∷ codes "0,1" ∷ codes "--width=3" ∷ [])
        (Run (record { threaded = false; width = 3; picks = 0 ∷ 1 ∷ [] })) }
    ensures load { Say (λ g. true) (codes "load" ∷ codes "4" ∷ codes "7" ∷ []) (Load 4 7 plain_manner) }
    ensures load_workers { Say (λ g. true) (codes "load" ∷ codes "--workers" ∷ codes "2" ∷ codes "4" ∷ codes "7" ∷ [])
        (Load 4 7 (record { threaded = true; width = 1; picks = [] })) }
    ensures load_between { Say (λ g. true) (codes "load" ∷ codes "4" ∷ codes "--width=2" ∷ codes "7" ∷ [])
        (Load 4 7 (record { threaded = false; width = 2; picks = [] })) }
    ensures no_width { (takes : GivenOption → Bool) (c : Command) → Say takes (codes "run" ∷ codes "--width" ∷ codes "0" ∷ []) c → ⊥ }
    ensures too_wide { (takes : GivenOption → Bool) (c : Command) → Say takes (codes "run" ∷ codes "--width" ∷ codes "65" ∷ []) c → ⊥ }
    ensures leading_zero { (takes : GivenOption → Bool) (c : Command) → Say takes (codes "run" ∷ codes "--width" ∷ codes "02" ∷ []) c → ⊥ }
    ensures no_value { (takes : GivenOption → Bool) (c : Command) → Say takes (codes "run" ∷ codes "--width" ∷ []) c → ⊥ }
    ensures no_picks { (takes : GivenOption → Bool) (c : Command) → Say takes (codes "run" ∷ codes "--turns" ∷ [] ∷ []) c → ⊥ }
    ensures large_pick { (takes : GivenOption → Bool) (c : Command) → Say takes (codes "run" ∷ codes "--turns" ∷ codes "0,4294967296" ∷ []) c → ⊥ }
    ensures not_alone { (takes : GivenOption → Bool) (c : Command)
        → Say takes (codes "run" ∷ codes "--workers" ∷ codes "2" ∷ codes "--width" ∷ codes "1" ∷ []) c → ⊥ }
    ensures twice { (takes : GivenOption → Bool) (c : Command)
        → Say takes (codes "run" ∷ codes "--width" ∷ codes "2" ∷ codes "--width" ∷ codes "2" ∷ []) c → ⊥ }
    ensures extra { (takes : GivenOption → Bool) (c : Command) → Say takes (codes "run" ∷ codes "extra" ∷ []) c → ⊥ }
    ensures not_taken { (c : Command) → Say (λ g. false) (codes "run" ∷ codes "--width" ∷ codes "2" ∷ []) c → ⊥ }
    ensures load_of_none { (takes : GivenOption → Bool) (c : Command) → Say takes (codes "load" ∷ codes "0" ∷ codes "7" ∷ []) c → ⊥ }
    ensures load_of_many { (takes : GivenOption → Bool) (c : Command) → Say takes (codes "load" ∷ codes "100001" ∷ codes "7" ∷ []) c → ⊥ }
    ensures compact { Say (λ g. true) (codes "compact" ∷ []) Compact }
    ensures compact_alone { (takes : GivenOption → Bool) (c : Command) → Say takes (codes "compact" ∷ codes "now" ∷ []) c → ⊥ }
    ensures upgrade { Say (λ g. true) (codes "upgrade" ∷ []) Upgrade }
    ensures upgrade_alone { (takes : GivenOption → Bool) (c : Command) → Say takes (codes "upgrade" ∷ codes "now" ∷ []) c → ⊥ }
    ensures migrate { Say (λ g. true) (codes "migrate" ∷ []) Migrate }
    ensures migrate_alone { (takes : GivenOption → Bool) (c : Command) → Say takes (codes "migrate" ∷ codes "now" ∷ []) c → ⊥ }
    ensures large_seed { (takes : GivenOption → Bool) (c : Command)
        → Say takes (codes "load" ∷ codes "4" ∷ codes "18446744073709551616" ∷ []) c → ⊥ }
    ensures third_number { (takes : GivenOption → Bool) (c : Command) → Say takes (codes "load" ∷ codes "4" ∷ codes "7" ∷ codes "9" ∷ []) c → ⊥ }
    ensures no_seed { (takes : GivenOption → Bool) (c : Command) → Say takes (codes "load" ∷ codes "4" ∷ []) c → ⊥ }
    ensures load_turns { (takes : GivenOption → Bool) (c : Command)
        → Say takes (codes "load" ∷ codes "4" ∷ codes "7" ∷ codes "--turns" ∷ codes "0" ∷ []) c → ⊥ }
    ensures check { Say (λ g. true) (codes "check" ∷ codes "0" ∷ codes "1" ∷ []) (Check 0 1) }
    ensures check_most { Say (λ g. true) (codes "check" ∷ codes "10000" ∷ codes "18446744073709551615" ∷ []) (Check 10000 18446744073709551615) }
    ensures check_of_many { (takes : GivenOption → Bool) (c : Command) → Say takes (codes "check" ∷ codes "10001" ∷ codes "7" ∷ []) c → ⊥ }
    ensures check_large_seed { (takes : GivenOption → Bool) (c : Command)
        → Say takes (codes "check" ∷ codes "4" ∷ codes "18446744073709551616" ∷ []) c → ⊥ }
    ensures check_no_seed { (takes : GivenOption → Bool) (c : Command) → Say takes (codes "check" ∷ codes "4" ∷ []) c → ⊥ }
    ensures check_third_number { (takes : GivenOption → Bool) (c : Command)
        → Say takes (codes "check" ∷ codes "4" ∷ codes "7" ∷ codes "9" ∷ []) c → ⊥ }
    ensures check_option { (takes : GivenOption → Bool) (c : Command)
        → Say takes (codes "check" ∷ codes "4" ∷ codes "7" ∷ codes "--width=2" ∷ []) c → ⊥ }
    ensures no_words { (takes : GivenOption → Bool) (c : Command) → Say takes [] c → ⊥ }
{}
