ghost use Rattle.std.specs.Prelude.{◌≡◌, ◌⊎◌, ◌++◌, ℕ, List, [], ◌∷◌, take, ◌≤◌, ◌<◌, ◌^◌, length};
ghost use Rattle.std.specs.List.{AllByRecursion};
ghost use Rattle.base_types.specs.declared.shapes.Shape.{Shape};
ghost use Rattle.field_codec.specs.declared.formats.Format.{Format};
ghost use Rattle.field_codec.specs.declared.formats.Format.TheVariants.{Two};
ghost use Rattle.field_codec.specs.declared.units.Numbers.TheVariants.{Logged};
ghost use Rattle.commit_log.specs.Bodies.{IsRecordIn};
ghost use Rattle.gate_block.specs.Log.{LogsUpTo};
ghost use Rattle.base_types.specs.declared.entries.Entry.{Entry};
ghost use Rattle.host_trait.specs.Disk.{MayLeave};
ghost use Rattle.host_trait.specs.declared.channels.FileId.{FileId};
ghost use Rattle.host_trait.specs.declared.channels.FileId.TheVariants.{Manager};
ghost use Rattle.host_trait.specs.World.{World, Moment, Disk, Image, IsImage, Passes, Ticks, Emitted, IsEmitted, moment_of, Arrives};
ghost use Rattle.host_trait.specs.Runs.{OnlyAsked};
ghost use Rattle.promise_spec.specs.Logs.{StandsUpTo, IsLogOf, IsLog, IsPrefix};
ghost use Rattle.promise_spec.specs.Images.{IsWholeFolder, AreChained, IsSoundIfSilo};
ghost use Rattle.request_wire.specs.Reply.{reply_line};
ghost use Rattle.promise_spec.specs.Programs.{Program, shape_in};
ghost use Rattle.promise_spec.specs.Records.{Commit};
ghost use Rattle.promise_spec.specs.Entries.{Log, standing_of, grown};
ghost use Rattle.promise_spec.specs.Blocks.{Records, body_of};
ghost use Rattle.core_model.specs.CoreState.{Member};
ghost use Rattle.promise_spec.specs.Crashes.{Acknowledges, Holds};
ghost use Rattle.promise_spec.specs.Journals.{Settlement, Backs, AllKeep, AllSay, AllLogOf, AllLog, JournalAt, Seals, Doubts, commits_of, entries_of, KeepsJournal};
ghost use Rattle.promise_laws.specs.RunJournals.{RunJournal, HasProperLines, IsNextEntry, IsJournalAt, IsDoubtedAt, IsCutShortAt, with_settled, with_said, journal_log, journal_line};
ghost use Rattle.promise_laws.specs.SoundMoments.{IsSerialLog};
ghost use Rattle.promise_spec.specs.Moments.{IsImageOf, IsLongest};
ghost use Rattle.promise_spec.specs.Courses.{Observed, Course};

/// How a journal goes on between two steps. It begins behind the opening, with nothing said; calls that leave logs and
/// output alone keep it, a seal makes it longer by the batch, and settlements without records make it longer without a
/// call. What each image says of it each image keeps.
pub fn journals_go_on()
    ensures begins { (live : ℕ) (p : Program) (opening : Log) (old now : World) → now.output ≡ old.output → now.past ≡ old.past
        → AllLog live opening now.disk → JournalAt live p opening old [] [] now }
    ensures stays { (j : RunJournal) (mid new : World) → HasProperLines j → IsJournalAt j mid
        → Seals j.live (journal_log j) [] mid new → IsJournalAt j new }
    ensures asked { (live : ℕ) (before : Log) (mid new : World) → OnlyAsked mid new → AllLog live before mid.disk → Seals live before [] mid new }
    ensures seals { (j : RunJournal) (batch : List Settlement) (mid new : World) → HasProperLines j → IsJournalAt j mid
        → Seals j.live (journal_log j) batch mid new → IsJournalAt (with_settled j batch) new }
    ensures kept { (live : ℕ) (p : Program) (opening : Log) (before : List ℕ) (said journal : List Settlement) (m : Moment)
        → AllSay live p opening before said journal m → AllKeep live p opening before journal m }
    ensures settles { (j : RunJournal) (more : List Settlement) (now : World) → commits_of more ≡ [] → IsJournalAt j now
        → IsJournalAt (with_settled j more) now }
{}

/// The next entry is written: its line stands whole in the output, or, where the call failed, whole or cut.
pub fn journals_are_told()
    ensures emits { (j : RunJournal) (moved left : List Settlement) (e : Entry) (mid new : World) → IsNextEntry j moved left e
        → IsJournalAt j mid → IsEmitted (journal_line j e) mid new → IsJournalAt (with_said j moved left) new }
    ensures front { (shape : Shape) (e : Entry) (n : ℕ) → IsPrefix (take n (reply_line shape e)) (reply_line shape e) }
    ensures fails { (j : RunJournal) (moved left : List Settlement) (e : Entry) (n : ℕ) (mid new : World) → IsNextEntry j moved left e
        → IsJournalAt j mid → Emitted n (journal_line j e) mid new
        → IsJournalAt (with_said j moved left) new ⊎ IsCutShortAt j [] (take n (journal_line j e)) new }
{}

/// A batch is in doubt. Its units' entries, which name no outcome, stand in the journal, and behind them the batch, where an
/// image may have it; where none has it, at no moment, the entries alone.
pub fn journals_doubt()
    ensures unbegun { (j : RunJournal) (names : List Settlement) (mid new : World) → commits_of names ≡ [] → HasProperLines j
        → IsJournalAt j mid → Seals j.live (journal_log j) [] mid new → IsJournalAt (with_settled j names) new }
    ensures doubts { (j : RunJournal) (names : List Settlement) (batch : Settlement) (mid new : World) → commits_of names ≡ [] → HasProperLines j
        → IsJournalAt j mid → Doubts j.live (journal_log j) batch mid new → IsDoubtedAt (with_settled j names) batch new }
    ensures stays { (j : RunJournal) (batch : Settlement) (mid new : World) → HasProperLines j → IsDoubtedAt j batch mid
        → Passes (λ m. m ≡ moment_of mid) mid.past new.past → moment_of new ≡ moment_of mid → IsDoubtedAt j batch new }
{}

/// Behind a batch in doubt entries are written as before.
pub fn doubted_journals_are_told()
    ensures emits { (j : RunJournal) (moved left : List Settlement) (batch : Settlement) (e : Entry) (mid new : World)
        → IsNextEntry j moved left e → IsDoubtedAt j batch mid → IsEmitted (journal_line j e) mid new → IsDoubtedAt (with_said j moved left) batch new }
    ensures fails { (j : RunJournal) (moved left : List Settlement) (batch : Settlement) (e : Entry) (n : ℕ) (mid new : World)
        → IsNextEntry j moved left e → IsDoubtedAt j batch mid → Emitted n (journal_line j e) mid new
        → IsDoubtedAt (with_said j moved left) batch new ⊎ IsCutShortAt j (batch ∷ []) (take n (journal_line j e)) new }
{}

/// Whole lines are a cut without a rest: so what holds at the end of a run whose last line was cut holds of every run.
pub fn whole_journals_are_cut()
    ensures journal { (j : RunJournal) (now : World) → IsJournalAt j now → IsCutShortAt j [] [] now }
    ensures doubt { (j : RunJournal) (batch : Settlement) (now : World) → IsDoubtedAt j batch now → IsCutShortAt j (batch ∷ []) [] now }
{}

/// Over a whole folder whose files have this log, in whichever format, each image that has the live manager file as it reads has this log too, and the
/// other one where it reads 16 bytes or more: so after a sync of these every image has it.
pub fn settled_folders_have_one_log()
    ensures { (format : Format) (live : ℕ) (w : World) (disk : Disk) (log : Log) → IsWholeFolder w
        → ((file : FileId) → MayLeave (w.disk file) (w.disk file).seen)
        → ((image : Image) → IsImage disk image → IsImage w.disk image × ((slot : ℕ) → slot ≤ 1
        → (slot ≡ live) ⊎ (16 ≤ length (w.disk (Manager slot)).seen) → image (Manager slot) ≡ (w.disk (Manager slot)).seen))
        → IsLogOf format live (λ file. (w.disk file).seen) log → AllLogOf format live log disk }
{}

/// The last moment of a call is what the host then shows, so it is after one call, after one run of calls and another, and where
/// calls only asked.
pub fn clocks_arrive()
    ensures call { (old new : World) → Ticks old new → Arrives old new }
    ensures both { (old mid new : World) → Arrives old mid → Arrives mid new → Arrives old new }
    ensures asked { (old new : World) → OnlyAsked old new → Arrives old new }
{}

/// A journal that grows backs what its entries acknowledge, where no older entry acknowledges what comes, and each that comes
/// acknowledges what stands before it or with it.
pub fn journals_back_entries()
    ensures { (j batch : List Settlement) → Backs j (commits_of j)
        → ((e : Entry) (l : Commit) → Member e (entries_of j) → Member l (commits_of batch) → Acknowledges e l → ⊥)
        → ((e : Entry) (l : Commit) (s : Settlement) (front back : List Settlement) → batch ≡ front ++ (s ∷ back) → Member e s.entries
        → Member l (commits_of (j ++ batch)) → Acknowledges e l → Member l (commits_of (j ++ (front ++ s ∷ []))))
        → Backs (j ++ batch) (commits_of (j ++ batch)) }
{}

/// Where the live manager file may be left with the block of a batch in doubt behind the bodies of a log, in a session that isn't below the
/// greatest that the log reached, an image has the batch.
pub fn doubts_have_an_image()
    ensures { (live : ℕ) (disk : Disk) (some : Image) (before : Log) (bodies : List (List ℕ)) (at reached session : ℕ)
        (batch : List Commit) (gate : ℕ) (c : List ℕ)
        → StandsUpTo Two live some before bodies at reached → reached ≤ session → session < 2 ^ 63 → length batch ≤ 64
        → AllByRecursion (λ (l : Commit). IsRecordIn Two Logged (shape_in (standing_of before).program) l.logged) batch
        → MayLeave (disk (Manager live)) c → LogsUpTo (bodies ++ body_of Two (Records session batch) ∷ []) gate c → (rest : Image) → IsImage disk rest
        → ((image : Image) → IsImage disk image → IsLog live image before ⊎ IsLog live image (grown before batch))
        → (image : Image) × (IsImage disk image × IsLog live image (grown before batch)) }
{}

/// From a journal that each image keeps: the images of any moments are a chain, the order is the opening log with the
/// journal's records, each image is sound where the order is serial, and each holds what was acknowledged by then.
pub fn journals_survive()
    ensures chained { (live : ℕ) (p : Program) (opening : Log) (before : List ℕ) (journal : List Settlement) (m n : Moment) (a b : Image)
        → KeepsJournal live p opening before journal m a → KeepsJournal live p opening before journal n b → AreChained a b }
    ensures longest { (live : ℕ) (p : Program) (opening : Log) (before : List ℕ) (journal : List Settlement) (moments : List Moment) (image : Image)
        → IsImageOf moments image → IsLog live image (grown opening (commits_of journal))
        → ((m : Moment) → Member m moments → AllKeep live p opening before journal m) → IsLongest live moments (grown opening (commits_of journal)) }
    ensures sound { (live : ℕ) (p : Program) (opening : Log) (before : List ℕ) (journal : List Settlement) (m : Moment) (image : Image)
        → KeepsJournal live p opening before journal m image → IsSerialLog (grown opening (commits_of journal)) → IsSoundIfSilo image }
    ensures holds { (p : Program) (r : Observed) (c : Course) (journal : List Settlement) (m : Moment) (image : Image) → Backs journal c.added
        → (k : KeepsJournal c.live p c.opening r.old.output journal m image) → IsPrefix (entries_of k.said) c.entries → Holds p r c m image }
{}
