ghost use Rattle.std.specs.Prelude.{◌≡◌, ◌+◌, ◌^◌, ◌<◌, ◌≤◌, IsTrue, length, IfOk, OnOk, IsErrOf};
ghost use Rattle.std.specs.List.{AllByRecursion};
ghost use Rattle.host_trait.specs.Disk.{Tears};
ghost use Rattle.host_trait.specs.Faults.{HasCalled};
ghost use Rattle.host_trait.specs.Files.{HasSlot};
ghost use Rattle.host_trait.specs.Runs.{RunsOnFile};
ghost use Rattle.field_codec.specs.declared.formats.Format.TheVariants.{Two};
ghost use Rattle.field_codec.specs.Spelling.{VersionFits};
ghost use Rattle.grain_log.specs.Counts.{WriteFaulted};
ghost use Rattle.grain_log.specs.Places.{spelling_of_versions, places_from, WroteVersions};
ghost use Rattle.grain_log.specs.declared.faults.LogFault.{LogFault};

use crate::faults::LogFault;
use base_types::{List, Place, Version};
use field_codec::Spelled;
use host_trait::{FileId, Host, write_synced};
use std::alloc::{AllocError, Global};

// The versions' bytes, and their places, the first at `at`.
fn encode(
    alloc: Global,
    at: u64,
    versions: &[Version],
) -> Result<(Vec<u8>, List<Place>), AllocError>
    requires { at < 2 ^ 63 }
    ensures bytes { IfOk result (λ made. made.0.items ≡ spelling_of_versions versions.now) }
    ensures places { IfOk result (λ made. made.1 ≡ places_from at versions.now) }
    ensures fits { OnOk result (AllByRecursion (VersionFits Two) versions.now) }
{
    let mut bytes = Vec::new(alloc);
    let mut places = List::new(alloc);
    for version in versions {
        let start = bytes.len();
        version.append(&mut bytes)?;
        let offset = at + start as u64;
        let len = (bytes.len() - start) as u32;
        places.push(Place { offset, len })?;
    }
    Ok((bytes, places))
}

/// Writes versions one behind the other from `at` on, by one write and one sync, and answers their places. `at` is at most the
/// file's length. After Ok each image of the file has them, and what stood before `at`.
pub fn write_versions<H: Host>(
    alloc: Global,
    host: &mut H,
    file: FileId,
    at: u64,
    versions: &List<Version>,
) -> Result<List<Place>, LogFault>
    requires slot { HasSlot file }
    requires place { at < 2 ^ 63 }
    requires within { IsTrue H.tells → at ≤ length ((H.world host.old).disk file).seen }

    // No other file and no output changes, and images and reads differ from those of before in the versions' bytes alone.
    ensures run { IsTrue H.tells
        → RunsOnFile file (Tears at (length (spelling_of_versions versions.now))) 1 (H.world host.old) (H.world host.new) }

    // Once it is done the versions last, each at its place.
    ensures wrote { OnOk result (IsTrue H.tells → WroteVersions file at versions.now (H.world host.old) (H.world host.new)) }
    ensures places { IfOk result (λ places. places ≡ places_from at versions.now) }
    ensures fits { OnOk result (AllByRecursion (VersionFits Two) versions.now) }
    ensures bound { OnOk result (at + length (spelling_of_versions versions.now) < 2 ^ 63) }

    // Without memory nothing was written.
    ensures memory { IsErrOf result LogFault.Memory → IsTrue H.tells → H.world host.new ≡ H.world host.old }

    // No count changes unless the answer is `Failed`; then the file's rose, and no other changed.
    ensures calls { HasCalled (WriteFaulted file) result H.is_ready H.faults host.old host.new }

    // The file is ready once versions were written, or a call on it failed.
    ensures readied { OnOk result (IsTrue (H.is_ready host.new file)) }
    ensures failed { IsErrOf result LogFault.Failed → IsTrue (H.is_ready host.new file) }
{
    host.ready(file)?;
    let (bytes, places) = encode(alloc, at, versions.as_slice())?;
    write_synced(host, file, at, &bytes)?;
    Ok(places)
}
