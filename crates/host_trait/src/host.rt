ghost use Rattle.std.specs.Prelude.{◌≡◌, ◌+◌, ◌^◌, ◌<◌, ◌≤◌, ℕ, Bool, IsTrue, length, is_ok, IfOk, OnOk, OnErr};
ghost use Rattle.host_trait.specs.Disk.{MayLeave, Overwrote};
ghost use Rattle.host_trait.specs.Files.{HasSlot, MayAsk, StaysReady};
ghost use Rattle.host_trait.specs.World.{World, Asked, Pulled, Emitted, Filled, Written, Synced};
ghost use Rattle.host_trait.specs.Faults.{Counted};
ghost use Rattle.host_trait.specs.declared.channels.Channel.{Channel};
ghost use Rattle.host_trait.specs.declared.channels.Channel.TheVariants.{Input, Output, File};
ghost use Rattle.host_trait.specs.declared.channels.FileId.{FileId};

use crate::channels::{Failed, FileId};
use std::alloc::AllocError;

/// An input, an output and files, under one clock.
///
/// A host that tells, says by its world what is left of its input, what its output holds, what each file holds and
/// what a crash may leave of it, how many syncs were asked, and each moment of its clock so far. A host that
/// doesn't tell, promises only the bounds and the counts. A call that fails raises the count of its own channel and of no
/// other, one that succeeds raises none, and no count falls.
///
/// A file that is given to a call has slot 0 or 1. The program and manager files are always ready; a grain file is
/// given to [`ready`](Host::ready) first.
pub trait Host {
    /// Whether this host tells what it holds.
    ghost tells: { Bool };

    /// What it holds, and all moments of its clock so far.
    ghost world: { Self → World };

    /// How often each channel has failed, up to the last value of a `u64`.
    ghost faults: { Self → Channel → ℕ };

    /// Which grain files are ready: their counts can rise.
    ghost is_ready: { Self → FileId → Bool };

    /// Moves the next input bytes into the front of `into` and answers how many. For a slice that isn't empty, 0
    /// means the end. After `Failed` no byte was moved.
    fn pull(&mut self, into: &mut [u8]) -> Result<usize, Failed>
        ensures bound { IfOk result (λ n. n ≤ length into.old) }
        ensures ok { IfOk result (λ n. IsTrue tells → Pulled n into.new (world self.old) (world self.new)) }
        ensures err { OnErr result (IsTrue tells → Asked (world self.old) (world self.new)) }
        ensures faults { Counted Input result (faults self.old) (faults self.new) }
        ensures ready { StaysReady (is_ready self.old) (is_ready self.new) };

    /// Appends all bytes to the output. After `Failed` a first part of them was appended, maybe none or all.
    fn emit(&mut self, bytes: &[u8]) -> Result<(), Failed>
        ensures ok { OnOk result (IsTrue tells
            → Emitted (length bytes.now) bytes.now (world self.old) (world self.new)) }
        ensures part { IsTrue tells
            → ((n : ℕ) × Emitted n bytes.now (world self.old) (world self.new)) }
        ensures faults { Counted Output result (faults self.old) (faults self.new) }
        ensures ready { StaysReady (is_ready self.old) (is_ready self.new) };

    /// How many bytes a file has, always below 2 to the 63. A file that was never written has length 0.
    fn length(&mut self, file: FileId) -> Result<u64, Failed>
        requires { MayAsk (is_ready self.old) file }
        ensures told { IsTrue tells → Asked (world self.old) (world self.new) }
        ensures len { IfOk result (λ n. IsTrue tells → n ≡ length ((world self.old).disk file).seen) }
        ensures bound { IfOk result (λ n. n < 2 ^ 63) }
        ensures faults { Counted (File file) result (faults self.old) (faults self.new) }
        ensures ready { StaysReady (is_ready self.old) (is_ready self.new) };

    /// Reads the bytes from `at` on into the front of `into` and answers how many. It answers less than the slice's
    /// length only where the file ends there. After `Failed` the slice holds any bytes.
    fn read_at(&mut self, file: FileId, at: u64, into: &mut [u8]) -> Result<usize, Failed>
        requires { MayAsk (is_ready self.old) file }
        ensures told { IsTrue tells → Asked (world self.old) (world self.new) }
        ensures bytes { IfOk result (λ n. IsTrue tells
            → Filled n at ((world self.old).disk file).seen into.old into.new) }
        ensures bound { IfOk result (λ n. n ≤ length into.old) }
        ensures faults { Counted (File file) result (faults self.old) (faults self.new) }
        ensures ready { StaysReady (is_ready self.old) (is_ready self.new) };

    /// Writes the bytes from `at` on, which is at most the file's length. Until a sync succeeds, a crash may leave any
    /// bytes in their range. After `Failed` a read may give any bytes there too, unless the write never began. It
    /// answers Ok only where the range ends below 2 to the 63.
    fn write_at(&mut self, file: FileId, at: u64, bytes: &[u8]) -> Result<(), Failed>
        requires file { MayAsk (is_ready self.old) file }
        requires place { IsTrue tells → at ≤ length ((world self.old).disk file).seen }
        ensures told { IsTrue tells → Written file at (length bytes.now) (world self.old) (world self.new) }
        ensures ok { OnOk result (IsTrue tells
            → Overwrote at bytes.now ((world self.old).disk file) ((world self.new).disk file)) }
        ensures bound { OnOk result (at + length bytes.now < 2 ^ 63) }
        ensures faults { Counted (File file) result (faults self.old) (faults self.new) }
        ensures ready { StaysReady (is_ready self.old) (is_ready self.new) };

    /// Makes the room in which a grain file's count can rise. It touches no file and raises no count, and a file that
    /// is ready stays so.
    fn ready(&mut self, file: FileId) -> Result<(), AllocError>
        requires { HasSlot file }
        ensures told { IsTrue tells → world self.new ≡ world self.old }
        ensures ok { OnOk result (IsTrue (is_ready self.new file)) }
        ensures faults { (channel : Channel) → faults self.new channel ≡ faults self.old channel }
        ensures ready { StaysReady (is_ready self.old) (is_ready self.new) };

    /// Makes all that was written to a file last: after Ok a crash leaves what a read gives. After `Failed` what was
    /// pending is pending still.
    fn sync(&mut self, file: FileId) -> Result<(), Failed>
        requires { MayAsk (is_ready self.old) file }
        ensures told { IsTrue tells → Synced file (is_ok result) (world self.old) (world self.new) }
        ensures count { OnOk result (IsTrue tells → (world self.new).syncs ≡ (world self.old).syncs + 1) }
        ensures faults { Counted (File file) result (faults self.old) (faults self.new) }
        ensures ready { StaysReady (is_ready self.old) (is_ready self.new) };

    /// What a read gives is among what a crash may leave.
    ghost seen_may_stay: { (host : Self) (file : FileId) → IsTrue tells
        → MayLeave ((world host).disk file) ((world host).disk file).seen };
}
