// Whole reads and writes by calls that move some bytes each.
ghost use Rattle.std.specs.Prelude.{◌≡◌, ◌+◌, ◌^◌, ◌<◌, ◌≤◌, ℕ, false, length, IsTrue, IsOk, IfOk, OnOk, OnErr};
ghost use Rattle.host_trait.specs.Disk.{Overwrote};
ghost use Rattle.host_trait.specs.World.{Pulled, Emitted, Filled, Written};
ghost use Rattle.system_calls.specs.System.{SameEntries};
ghost use Rattle.host_files.specs.Windows.{TookSome};
ghost use Rattle.host_files.specs.UnfailingCalls.{WentWell, WasObeyed};

use system_calls::{Refused, SystemCalls};

/// Reads from there on until the slice has at least so many bytes or the file ends, and answers how many it read.
pub fn read_some<S: SystemCalls>(
    system: &mut S,
    opened: &S::File,
    at: u64,
    into: &mut [u8],
    least: usize,
) -> Result<usize, Refused>
    requires least { least ≤ length into.old }
    requires regular { IsTrue S.tells → IsTrue (S.is_regular (S.File.file opened.now)) }
    requires calm { IsTrue S.tells → (S.state system.old).is_doubtful (S.File.file opened.now) ≡ false }
    ensures told { IsTrue S.tells → S.state system.new ≡ S.state system.old }
    ensures bound { IfOk result (λ count. count ≤ length into.old) }
    ensures bytes { IfOk result (λ count. IsTrue S.tells
        → TookSome count least at ((S.state system.old).world.disk (S.File.file opened.now)).seen into.old into.new) }
    ensures calm { OnOk result (IsTrue S.tells → WasObeyed (S.answered system.old) (S.answered system.new)) }
    ensures fine { IsTrue S.tells → WentWell (S.answered system.old) (S.answered system.new) → IsOk result }
    ensures known { IsTrue S.tells → (S.answered system.new).has_lost_entries ≡ (S.answered system.old).has_lost_entries }
{
    let mut count = 0;
    for turn in 0..u64::MAX {
        if count >= least || at > u64::MAX - count as u64 {
            return Ok(count);
        }
        match system.read_at(opened, at, into, count) {
            Ok(more) => {
                if more == 0 {
                    return Ok(count);
                }
                count += more;
            }
            Err(Refused::Interrupted) => {}
            Err(error) => return Err(error),
        }
    }
    Err(Refused::Interrupted)
}

/// Reads from there on until the slice is full or the file ends, and answers how many bytes it read.
pub fn read_whole<S: SystemCalls>(
    system: &mut S,
    opened: &S::File,
    at: u64,
    into: &mut [u8],
) -> Result<usize, Refused>
    requires regular { IsTrue S.tells → IsTrue (S.is_regular (S.File.file opened.now)) }
    requires calm { IsTrue S.tells → (S.state system.old).is_doubtful (S.File.file opened.now) ≡ false }
    ensures told { IsTrue S.tells → S.state system.new ≡ S.state system.old }
    ensures bound { IfOk result (λ count. count ≤ length into.old) }
    ensures bytes { IfOk result (λ count. IsTrue S.tells
        → Filled count at ((S.state system.old).world.disk (S.File.file opened.now)).seen into.old into.new) }
    ensures calm { OnOk result (IsTrue S.tells → WasObeyed (S.answered system.old) (S.answered system.new)) }
    ensures fine { IsTrue S.tells → WentWell (S.answered system.old) (S.answered system.new) → IsOk result }
    ensures known { IsTrue S.tells → (S.answered system.new).has_lost_entries ≡ (S.answered system.old).has_lost_entries }
{
    let least = into.len();
    let count = read_some(system, opened, at, into, least)?;
    Ok(count)
}

/// Writes all bytes from there on.
pub fn write_whole<S: SystemCalls>(
    system: &mut S,
    opened: &S::File,
    at: u64,
    bytes: &[u8],
) -> Result<(), Refused>
    requires fits { at + length bytes.now < 2 ^ 63 }
    requires regular { IsTrue S.tells → IsTrue (S.is_regular (S.File.file opened.now)) }
    requires calm { IsTrue S.tells → (S.state system.old).is_doubtful (S.File.file opened.now) ≡ false }
    requires place { IsTrue S.tells → at ≤ length ((S.state system.old).world.disk (S.File.file opened.now)).seen }
    ensures told { IsTrue S.tells
        → Written (S.File.file opened.now) at (length bytes.now) (S.state system.old).world (S.state system.new).world }
    ensures ok { OnOk result (IsTrue S.tells
        → Overwrote at bytes.now ((S.state system.old).world.disk (S.File.file opened.now)) ((S.state system.new).world.disk (S.File.file opened.now))) }
    ensures entries { IsTrue S.tells → SameEntries (S.state system.old) (S.state system.new) }
    ensures calm { OnOk result (IsTrue S.tells → WasObeyed (S.answered system.old) (S.answered system.new)) }
    ensures fine { IsTrue S.tells → WentWell (S.answered system.old) (S.answered system.new) → IsOk result }
    ensures known { IsTrue S.tells → (S.answered system.new).has_lost_entries ≡ (S.answered system.old).has_lost_entries }
{
    let mut done = 0;
    for turn in 0..u64::MAX {
        match system.write_at(opened, at, bytes, done) {
            Ok(more) => {
                done += more;
                if done >= bytes.len() {
                    return Ok(());
                }
                if more == 0 {
                    return Err(Refused::Failed);
                }
            }
            Err(Refused::Interrupted) => {}
            Err(error) => return Err(error),
        }
    }
    Err(Refused::Interrupted)
}

/// Takes the next input bytes into the front of the slice, and answers how many.
pub fn take_input<S: SystemCalls>(system: &mut S, into: &mut [u8]) -> Result<usize, Refused>
    ensures bound { IfOk result (λ count. count ≤ length into.old) }
    ensures ok { IfOk result (λ count. IsTrue S.tells → Pulled count into.new (S.state system.old).world (S.state system.new).world) }
    ensures err { OnErr result (IsTrue S.tells → S.state system.new ≡ S.state system.old) }
    ensures entries { IsTrue S.tells → SameEntries (S.state system.old) (S.state system.new) }
    ensures calm { OnOk result (IsTrue S.tells → WasObeyed (S.answered system.old) (S.answered system.new)) }
    ensures fine { IsTrue S.tells → WentWell (S.answered system.old) (S.answered system.new) → IsOk result }
    ensures known { IsTrue S.tells → (S.answered system.new).has_lost_entries ≡ (S.answered system.old).has_lost_entries }
{
    for turn in 0..u64::MAX {
        match system.read_input(into) {
            Ok(count) => return Ok(count),
            Err(Refused::Interrupted) => {}
            Err(error) => return Err(error),
        }
    }
    Err(Refused::Interrupted)
}

/// Appends all bytes to the output.
pub fn put_out<S: SystemCalls>(system: &mut S, bytes: &[u8]) -> Result<(), Refused>
    ensures ok { OnOk result (IsTrue S.tells
        → Emitted (length bytes.now) bytes.now (S.state system.old).world (S.state system.new).world) }
    ensures part { IsTrue S.tells → ((n : ℕ) × Emitted n bytes.now (S.state system.old).world (S.state system.new).world) }
    ensures entries { IsTrue S.tells → SameEntries (S.state system.old) (S.state system.new) }
    ensures calm { OnOk result (IsTrue S.tells → WasObeyed (S.answered system.old) (S.answered system.new)) }
    ensures fine { IsTrue S.tells → WentWell (S.answered system.old) (S.answered system.new) → IsOk result }
    ensures known { IsTrue S.tells → (S.answered system.new).has_lost_entries ≡ (S.answered system.old).has_lost_entries }
{
    let mut done = 0;
    for turn in 0..u64::MAX {
        if done >= bytes.len() {
            return Ok(());
        }
        match system.write_output(bytes, done) {
            Ok(more) => {
                if more == 0 {
                    return Err(Refused::Failed);
                }
                done += more;
            }
            Err(Refused::Interrupted) => {}
            Err(error) => return Err(error),
        }
    }
    Err(Refused::Interrupted)
}
