ghost use Rattle.promise_spec.specs.Words.{Command};
ghost use Rattle.promise_spec.specs.Programs.{Program};
ghost use Rattle.promise_spec.specs.Courses.{Observed};
ghost use Rattle.promise_spec.specs.Calls.{Obeys, IsBadUse};
ghost use Rattle.promise_spec.specs.Images.{IsWholeFolder};
ghost use Rattle.promise_laws.specs.Closings.{ReadsMayStay};
ghost use Rattle.promise_laws.specs.KeptFolders.{IsBank};

/// A call that keeps its promise over a whole folder leaves a whole one, whatever its command, and so does bad use: so over a folder
/// with a log that no one-thread store gives calls can follow one another too. What a read gives is among what a crash may leave,
/// before and after, as it is over each host.
pub fn folders_stay_whole()
    ensures any { (c : Command) (bank : Program) (r : Observed) → IsBank bank → ReadsMayStay r.old → ReadsMayStay r.new → Obeys c r
        → IsWholeFolder r.old → IsWholeFolder r.new }
    ensures bad_use { (r : Observed) → IsBadUse r → IsWholeFolder r.old → IsWholeFolder r.new }
{}
