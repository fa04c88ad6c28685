ghost use Rattle.std.specs.Prelude.{◌≡◌, ◌+◌, ◌-◌, ◌^◌, ◌<◌, ◌≤◌, ℕ, Bool, true, false, IsTrue, length, take, drop, IfOk, OnOk, OnErr};
ghost use Rattle.host_trait.specs.Disk.{Tears, overlaid, settled};
ghost use Rattle.host_trait.specs.Files.{MayAsk, StaysReady};
ghost use Rattle.host_trait.specs.Runs.{RunsOnFile, OnlyAsked, HasFailedWrite};
ghost use Rattle.host_trait.specs.Faults.{Counted};
ghost use Rattle.host_trait.specs.declared.channels.Channel.TheVariants.{File};

use crate::channels::{Failed, FileId};
use crate::host::Host;

/// One write, and one sync behind it. After Ok a crash leaves the file with these bytes. At each moment each outcome of a
/// crash is one of before but for the bytes in the range, and so it is after `Failed`. Then the write never began, and all is as
/// it was; or its range is pending still, so that a crash may leave any bytes there, those that were written too.
pub fn write_synced<H: Host>(
    host: &mut H,
    file: FileId,
    at: u64,
    bytes: &[u8],
) -> Result<(), Failed>
    requires file { MayAsk (H.is_ready host.old) file }
    requires place { IsTrue H.tells → at ≤ length ((H.world host.old).disk file).seen }
    ensures run { IsTrue H.tells
        → RunsOnFile file (Tears at (length bytes.now)) 1 (H.world host.old) (H.world host.new) }
    ensures ok { OnOk result (IsTrue H.tells
        → (H.world host.new).disk file ≡ settled (overlaid ((H.world host.old).disk file).seen at bytes.now)) }
    ensures count { OnOk result (IsTrue H.tells
        → (H.world host.new).syncs ≡ (H.world host.old).syncs + 1) }
    ensures bound { OnOk result (at + length bytes.now < 2 ^ 63) }
    ensures left { OnErr result (IsTrue H.tells
        → HasFailedWrite file at (length bytes.now) (H.world host.old) (H.world host.new)) }
    ensures faults { Counted (File file) result (H.faults host.old) (H.faults host.new) }
    ensures ready { StaysReady (H.is_ready host.old) (H.is_ready host.new) }
{
    host.write_at(file, at, bytes)?;
    host.sync(file)?;
    Ok(())
}

/// Reads as many bytes from `at` on as the slice has, and answers whether the file goes on that far. Where it doesn't,
/// and after `Failed`, the slice holds any bytes.
pub fn read_full<H: Host>(
    host: &mut H,
    file: FileId,
    at: u64,
    into: &mut [u8],
) -> Result<bool, Failed>
    requires { MayAsk (H.is_ready host.old) file }
    ensures full { IfOk result (λ full. IsTrue H.tells → IsTrue full →
        (length into.old ≤ length ((H.world host.old).disk file).seen - at)
        × (into.new ≡ take (length into.old) (drop at ((H.world host.old).disk file).seen))) }
    ensures short { IfOk result (λ full. IsTrue H.tells → full ≡ false →
        length ((H.world host.old).disk file).seen - at < length into.old) }
    ensures asked { IsTrue H.tells → OnlyAsked (H.world host.old) (H.world host.new) }
    ensures faults { Counted (File file) result (H.faults host.old) (H.faults host.new) }
    ensures ready { StaysReady (H.is_ready host.old) (H.is_ready host.new) }
{
    let n = host.read_at(file, at, into)?;
    Ok(n == into.len())
}
