ghost use Rattle.std.specs.Prelude.{◌≡◌, ◌⊎◌, ℕ, List, [], ◌++◌, take, true, false};
ghost use Rattle.base_types.specs.declared.shapes.Shape.{Shape};
ghost use Rattle.host_trait.specs.declared.channels.FileId.{FileId};
ghost use Rattle.host_trait.specs.declared.channels.FileId.TheVariants.{Manager};
ghost use Rattle.host_trait.specs.Disk.{MayLeave};
ghost use Rattle.host_trait.specs.World.{World, Disk, Passes};
ghost use Rattle.commit_log.specs.declared.records.CommitRecord.{CommitRecord};
ghost use Rattle.commit_log.specs.declared.gate.Sealing.TheVariants.{Sealed, NotSealed, InDoubt};
ghost use Rattle.core_model.specs.declared.effects.Effect.{Effect};
ghost use Rattle.promise_spec.specs.Entries.{Log, grown};
ghost use Rattle.promise_spec.specs.Logs.{IsLog};
ghost use Rattle.promise_spec.specs.Journals.{Settlement, Seals, Doubts, commits_of};
ghost use Rattle.batch_disk.specs.ImagesAtRest.{EachImage, SomeImage};
ghost use Rattle.batch_disk.specs.Moments.{KeepsLog};
ghost use Rattle.batch_disk.specs.Writers.{FitsDisk, KeepsDisk};
ghost use Rattle.batch_disk.specs.Seals.{may_open, SealsAs};
ghost use Rattle.batch_disk.specs.declared.writer.BatchWriter.{BatchWriter};

/// What a writer keeps of the disk gives each image's log and header, and what its calls ask of the files as they read.
pub fn writers_know_the_log()
    ensures logs { (live : ℕ) (shape : Shape) (head : List ℕ) (log : Log) (bodies : List (List ℕ)) (writer : BatchWriter) (disk : Disk)
        → KeepsDisk live shape head log bodies writer disk
        → EachImage (λ image. IsLog live image log) disk }
    ensures header { (live : ℕ) (shape : Shape) (head : List ℕ) (log : Log) (bodies : List (List ℕ)) (writer : BatchWriter) (disk : Disk)
        → KeepsDisk live shape head log bodies writer disk
        → EachImage (λ image. take 15 (image (Manager live)) ≡ head) disk }
    ensures fits { (shape : Shape) (head : List ℕ) (log : Log) (bodies : List (List ℕ)) (writer : BatchWriter) (disk : Disk)
        → KeepsDisk writer.slot shape head log bodies writer disk
        → ((file : FileId) → MayLeave (disk file) (disk file).seen) → FitsDisk writer disk }
{}

/// A vote leaves the journal of a run as it is, and so does a batch that isn't sealed.
pub fn unsealed_batches_leave_the_journal()
    ensures votes { (live : ℕ) (shape : Shape) (head : List ℕ) (log : Log) (bodies : List (List ℕ)) (after : BatchWriter) (old new : World)
        → Passes (KeepsLog live head log old) old.past new.past → new.output ≡ old.output
        → KeepsDisk live shape head log bodies after new.disk → Seals live log [] old new }
    ensures unsealed { (live : ℕ) (shape : Shape) (head : List ℕ) (log : Log) (bodies : List (List ℕ)) (effects : List Effect)
        (made : List CommitRecord) (before after : BatchWriter) (old new : World)
        → SealsAs live shape head log bodies effects made NotSealed before after old new → new.output ≡ old.output → Seals live log [] old new }
{}

/// A sealed batch makes the journal of a run longer by its records. A doubt whose gate was never written leaves it as it is; after any
/// other an image has the batch.
pub fn batches_go_on_the_journal()
    ensures seals { (live : ℕ) (shape : Shape) (head : List ℕ) (log : Log) (bodies : List (List ℕ)) (effects : List Effect) (made : List CommitRecord)
        (next : ℕ) (before after : BatchWriter) (old new : World)
        → (s : SealsAs live shape head log bodies effects made (Sealed next) before after old new) → new.output ≡ old.output
        → (settled : List Settlement) → commits_of settled ≡ s.batch → Seals live log settled old new }
    ensures doubts { (live : ℕ) (shape : Shape) (head : List ℕ) (log : Log) (bodies : List (List ℕ)) (effects : List Effect)
        (made : List CommitRecord) (before after : BatchWriter) (old new : World)
        → (s : SealsAs live shape head log bodies effects made InDoubt before after old new) → new.output ≡ old.output
        → (settled : Settlement) → settled.commits ≡ s.batch
        → ((may_open before.gate_at (new.disk (Manager live)) ≡ false) × Seals live log [] old new)
        ⊎ ((may_open before.gate_at (new.disk (Manager live)) ≡ true)
        × (Doubts live log settled old new × SomeImage (λ image. IsLog live image (grown log s.batch)) new.disk)) }
{}
