// How a version is read back from its grain's file, and versions that stand one behind the other.
ghost use Rattle.std.specs.Prelude.{◌≡◌, ◌+◌, ◌-◌, ◌^◌, ◌<◌, ◌≤◌, ℕ, List, IsTrue, true, false, length, take, drop, Some, None, Ok, OnOk, IfOk, IfErr, IfSome, IfNone, IsErrOf};
ghost use Rattle.std.specs.Int.{w64, to_le_bytes};
ghost use Rattle.host_trait.specs.Faults.{HasCalled};
ghost use Rattle.host_trait.specs.Files.{HasSlot};
ghost use Rattle.host_trait.specs.Runs.{OnlyAsked};
ghost use Rattle.field_codec.specs.Results.{GivesRead, named_place, place_of};
ghost use Rattle.grain_log.specs.Counts.{VersionReadFaulted};
ghost use Rattle.grain_log.specs.Places.{IsVersionOf, IsVersionIn};
ghost use Rattle.grain_log.specs.Reads.{fields_in, version_in, version_of, is_beyond, in_file, damage_at, version_at_place, version_by_owner, BeginsBy, IsTextAt, GivesVersion, IsReadAt, IsImpossible};
ghost use Rattle.field_codec.specs.Readers.{AreBytes};
ghost use Rattle.field_codec.specs.Units.{may_be_unit};
ghost use Rattle.field_codec.specs.declared.units.Numbers.TheVariants.{Logged};
ghost use Rattle.grain_log.specs.declared.faults.VersionFault.{VersionFault as Fault};

use crate::faults::VersionFault;
use base_types::{List, Place, Shape, State, UnitNo, Version};
use field_codec::{CodecFault, Format, get_exactly, get_u64};
use host_trait::{FileId, Host, read_full};
use std::alloc::Global;

// How many fields the versions of a file have.
fn fields_in(shape: &Shape, file: FileId) -> Option<usize>
    ensures { result ≡ fields_in shape.now file }
{
    match file {
        FileId::Program { .. } => None,
        FileId::Manager { .. } => None,
        FileId::Grain { grain, .. } => match shape.types.get(grain.kind as usize) {
            Some(of_type) => Some(of_type.initial.len()),
            None => None,
        },
    }
}

// Whether no version can stand at a place.
fn is_beyond(place: Place, format: Format) -> bool
    ensures { result ≡ is_beyond format place }
{
    place.offset > 9223372036854775807 || place.len > format.version_limit()
}

// Whether a place ends below 2 to the 63.
fn is_near(place: Place) -> bool
    ensures near { result ≡ true → place.offset + place.len < 2 ^ 63 }
    ensures far { result ≡ false → 2 ^ 63 ≤ place.offset + place.len }
{
    place.offset < 9223372036854775808 - place.len as u64
}

// The version that stands at a place.
#[tactic(auto, unfolding(crate::specs::Reads::version_in, field_codec::specs::Readers::field, field_codec::specs::Readers::whole))]
fn get_version(
    alloc: Global,
    bytes: &[u8],
    at: usize,
    fields: usize,
    format: Format,
) -> Result<(Version, usize), CodecFault>
    ensures { GivesRead result (version_in format fields bytes.now at) }
{
    let (unit, after) = get_u64(bytes, at)?;
    let (values, after) = get_exactly(alloc, bytes, after, format.field_limit(), fields, format)?;
    let unit = UnitNo(unit);
    let state = State::from_list(values);
    Ok((Version { unit, state }, after))
}

fn get_whole(
    alloc: Global,
    text: &[u8],
    fields: usize,
    format: Format,
) -> Result<Version, CodecFault>
    ensures { GivesRead result (version_of format fields text.now) }
{
    let (version, end) = get_version(alloc, text, 0, fields, format)?;
    if end == text.len() {
        return Ok(version);
    }
    Err(CodecFault::Trailing { place: end })
}

// The one version of a whole text.
fn decode(alloc: Global, text: &[u8], fields: usize, format: Format) -> Result<Version, CodecFault>
    ensures exact { GivesRead result (version_of format fields text.now) }
    ensures within { IfErr result (λ fault. place_of fault ≤ length text.now) }
    ensures shaped { IfOk result (λ version. IsVersionOf format fields (length text.now) version) }
{
    get_whole(alloc, text, fields, format)
}

// The fault of reading a version, counted in the file.
fn in_file(offset: u64, fault: CodecFault) -> VersionFault
    requires { offset + place_of fault < 2 ^ 64 }
    ensures { result ≡ damage_at offset (named_place fault) }
{
    match fault.place() {
        Some(place) => VersionFault::Damaged {
            place: offset + place as u64,
        },
        None => VersionFault::Memory,
    }
}

// The one version of a whole text that stands at an offset of the file.
fn decode_at(
    alloc: Global,
    offset: u64,
    text: &[u8],
    fields: usize,
    format: Format,
) -> Result<Version, VersionFault>
    requires offset { offset < 2 ^ 63 }
    requires short { length text.now < 2 ^ 32 }
    ensures exact { GivesVersion result (in_file offset (version_of format fields text.now)) }
    ensures quiet { IsErrOf result Fault.Failed → ⊥ }
    ensures bytes { AreBytes text.now }
    ensures shaped { IfOk result (λ version. IsVersionOf format fields (length text.now) version) }
{
    match decode(alloc, text, fields, format) {
        Ok(version) => Ok(version),
        Err(fault) => Err(in_file(offset, fault)),
    }
}

// Whether a text begins with a unit's number.
fn begins_with(text: &[u8], unit: UnitNo) -> bool
    ensures yes { result ≡ true → take 8 text.now ≡ to_le_bytes w64 unit.0 }
    ensures no { result ≡ false → take 8 text.now ≡ to_le_bytes w64 unit.0 → ⊥ }
{
    match text.split_first_chunk::<8>() {
        Some((first, _)) => *first == unit.0.to_le_bytes(),
        None => false,
    }
}

// Whether a unit of a log may have this number.
fn is_logged(number: u64) -> bool
    ensures { result ≡ may_be_unit Logged number }
{
    0 < number && number < 9_223_372_036_854_775_808
}

// Whether a text begins with the number of a unit of a log.
fn begins_logged(text: &[u8]) -> bool
    ensures yes { result ≡ true → BeginsBy None text.now }
    ensures no { result ≡ false → BeginsBy None text.now → ⊥ }
{
    match text.split_first_chunk::<8>() {
        Some((first, _)) => is_logged(u64::from_le_bytes(*first)),
        None => false,
    }
}

// Whether a text begins with the number of a unit that is named, or of one of a log where none is.
fn begins_by(text: &[u8], owner: Option<UnitNo>) -> bool
    ensures yes { result ≡ true → BeginsBy owner text.now }
    ensures no { result ≡ false → BeginsBy owner text.now → ⊥ }
{
    match owner {
        Some(unit) => begins_with(text, unit),
        None => begins_logged(text),
    }
}

// The version of a unit, or of any of a log where none is named, in a text that stands at a place.
fn owned_in(
    alloc: Global,
    text: &[u8],
    owner: Option<UnitNo>,
    place: Place,
    fields: usize,
    format: Format,
) -> Result<Version, VersionFault>
    requires near { is_beyond format place ≡ false }
    requires size { length text.now ≡ place.len }
    ensures exact { (seen : List ℕ) → IsTextAt place seen text.now → GivesVersion result (version_by_owner format (Some fields) owner place seen) }
    ensures quiet { IsErrOf result Fault.Failed → ⊥ }
    ensures shaped { IfOk result (λ version. IsVersionOf format fields place.len version) }
{
    if !begins_by(text, owner) {
        return Err(VersionFault::Damaged {
            place: place.offset,
        });
    }
    let version = decode_at(alloc, place.offset, text, fields, format)?;
    Ok(version)
}

// The bytes at a place, none where the file ends before them.
fn read_text<H: Host>(
    alloc: Global,
    host: &mut H,
    file: FileId,
    place: Place,
) -> Result<Option<Vec<u8>>, VersionFault>
    requires slot { HasSlot file }
    requires offset { place.offset < 2 ^ 63 }
    ensures some { IfOk result (λ found. IsTrue H.tells → IfSome found (λ text.
        (place.len ≤ length ((H.world host.old).disk file).seen - place.offset)
        × (text.items ≡ take place.len (drop place.offset ((H.world host.old).disk file).seen)))) }
    ensures len { IfOk result (λ found. IfSome found (λ text. length text.items ≡ place.len)) }
    ensures near { IfOk result (λ found. IfSome found (λ _. place.offset + place.len < 2 ^ 63)) }
    ensures none { IfOk result (λ found. IsTrue H.tells → IfNone found (length ((H.world host.old).disk file).seen - place.offset < place.len)) }
    ensures bad { (at : ℕ) → IsErrOf result (Fault.Damaged at) → ⊥ }
    ensures asked { IsTrue H.tells → OnlyAsked (H.world host.old) (H.world host.new) }
    ensures calls { HasCalled (VersionReadFaulted file) result H.is_ready H.faults host.old host.new }
    ensures readied { OnOk result (IsTrue (H.is_ready host.new file)) }
    ensures failed { IsErrOf result Fault.Failed → IsTrue (H.is_ready host.new file) }
{
    host.ready(file)?;
    // No file is longer, so a place that ends beyond isn't in it: the host's own word for that is its length.
    if !is_near(place) {
        host.length(file)?;
        return Ok(None);
    }
    let mut text = vec![in alloc; 0u8; place.len as usize]?;
    if !read_full(host, file, place.offset, &mut text)? {
        return Ok(None);
    }
    Ok(Some(text))
}

// The version at a place, or the first place that is damaged.
fn read_there<H: Host>(
    alloc: Global,
    host: &mut H,
    file: FileId,
    place: Place,
    shape: &Shape,
    format: Format,
) -> Result<Version, VersionFault>
    requires { HasSlot file }

    ensures exact { IsTrue H.tells → GivesVersion result (version_at_place format (fields_in shape.now file) place ((H.world host.old).disk file).seen) }

    ensures bytes { IfOk result (λ version. IsTrue H.tells → AreBytes (take place.len (drop place.offset ((H.world host.old).disk file).seen))) }

    ensures impossible { IsImpossible format (fields_in shape.now file) place → host.new ≡ host.old }
    ensures refused { IsImpossible format (fields_in shape.now file) place → IsErrOf result (Fault.Damaged place.offset) }
    ensures shaped { IfOk result (λ version. IsVersionIn format (fields_in shape.now file) place.len version) }
    ensures near { OnOk result (place.offset + place.len < 2 ^ 63) }
    ensures asked { IsTrue H.tells → OnlyAsked (H.world host.old) (H.world host.new) }
    ensures calls { HasCalled (VersionReadFaulted file) result H.is_ready H.faults host.old host.new }
    ensures readied { OnOk result (IsTrue (H.is_ready host.new file)) }
    ensures failed { IsErrOf result Fault.Failed → IsTrue (H.is_ready host.new file) }
{
    let damaged = VersionFault::Damaged {
        place: place.offset,
    };
    let Some(fields) = fields_in(shape, file) else {
        return Err(damaged);
    };
    if is_beyond(place, format) {
        return Err(damaged);
    }
    let Some(text) = read_text(alloc, host, file, place)? else {
        return Err(damaged);
    };
    let version = decode_at(alloc, place.offset, &text, fields, format)?;
    Ok(version)
}

/// Reads the version at a place of a grain's file, by one read, whosever it is, and changes no file. `Damaged` comes exactly
/// where no version of the grain's type, within the limits of the format, stands there with that length: at the first field that
/// can't be read; at the first byte behind the version; at the place's offset where the place doesn't lie in the file, or is longer
/// than any version of the format, or begins at 2 to the 63 or beyond, or where the program has no such type. In the last three
/// cases no host call is made.
pub fn read_version<H: Host>(
    alloc: Global,
    host: &mut H,
    file: FileId,
    place: Place,
    shape: &Shape,
    format: Format,
) -> Result<Version, VersionFault>
    requires { HasSlot file }

    // It answers a version exactly where one of the grain's type stands at the place, and else the first place that is damaged.
    ensures read { IsTrue H.tells → IsReadAt format (fields_in shape.now file) place ((H.world host.old).disk file).seen result }

    // Where no version can stand there it is damaged at its offset, and the host is as before.
    ensures impossible { IsImpossible format (fields_in shape.now file) place → host.new ≡ host.old }
    ensures refused { IsImpossible format (fields_in shape.now file) place → IsErrOf result (Fault.Damaged place.offset) }

    // Over every host: the version is of the grain's type, and as long as the place, which ends below 2 to the 63.
    ensures shaped { IfOk result (λ version. IsVersionIn format (fields_in shape.now file) place.len version) }
    ensures near { OnOk result (place.offset + place.len < 2 ^ 63) }
    ensures asked { IsTrue H.tells → OnlyAsked (H.world host.old) (H.world host.new) }

    // No count changes unless the answer is `Failed`; then the file's rose, and no other changed.
    ensures calls { HasCalled (VersionReadFaulted file) result H.is_ready H.faults host.old host.new }

    // The file is ready once a version was read, or a call on it failed.
    ensures readied { OnOk result (IsTrue (H.is_ready host.new file)) }
    ensures failed { IsErrOf result Fault.Failed → IsTrue (H.is_ready host.new file) }
{
    read_there(alloc, host, file, place, shape, format)
}

/// Reads the version that a unit's record names at a place of a grain's file, or a checkpoint, which names no unit: by one read, and
/// changes no file. `Damaged` comes exactly where no version of that unit, or of any unit of a log where none is named, and of the
/// grain's type stands there with that length: at the place's offset where the eight bytes there aren't the unit's number, or aren't
/// that of a unit of a log, which is above 0 and below 2 to the 63; and else where [`read_version`] says.
pub fn read_named<H: Host>(
    alloc: Global,
    host: &mut H,
    file: FileId,
    owner: Option<UnitNo>,
    place: Place,
    shape: &Shape,
    format: Format,
) -> Result<Version, VersionFault>
    requires { HasSlot file }

    // It answers such a version exactly where one stands, and else the first place that is damaged.
    ensures exact { IsTrue H.tells → GivesVersion result (version_by_owner format (fields_in shape.now file) owner place ((H.world host.old).disk file).seen) }

    // Where no version can stand there it is damaged at its offset, and the host is as before.
    ensures impossible { IsImpossible format (fields_in shape.now file) place → host.new ≡ host.old }
    ensures refused { IsImpossible format (fields_in shape.now file) place → IsErrOf result (Fault.Damaged place.offset) }

    // Over every host: the version is of the grain's type, and as long as the place, which ends below 2 to the 63.
    ensures shaped { IfOk result (λ version. IsVersionIn format (fields_in shape.now file) place.len version) }
    ensures near { OnOk result (place.offset + place.len < 2 ^ 63) }
    ensures asked { IsTrue H.tells → OnlyAsked (H.world host.old) (H.world host.new) }

    // No count changes unless the answer is `Failed`; then the file's rose, and no other changed.
    ensures calls { HasCalled (VersionReadFaulted file) result H.is_ready H.faults host.old host.new }

    // The file is ready once a version was read, or a call on it failed.
    ensures readied { OnOk result (IsTrue (H.is_ready host.new file)) }
    ensures failed { IsErrOf result Fault.Failed → IsTrue (H.is_ready host.new file) }
{
    let damaged = VersionFault::Damaged {
        place: place.offset,
    };
    let Some(fields) = fields_in(shape, file) else {
        return Err(damaged);
    };
    if is_beyond(place, format) {
        return Err(damaged);
    }
    let Some(text) = read_text(alloc, host, file, place)? else {
        return Err(damaged);
    };
    let version = owned_in(alloc, &text, owner, place, fields, format)?;
    Ok(version)
}

/// The version that a unit's record or a checkpoint names at a place of a grain's file, from the bytes that stand there and were read
/// before, by no host call. It is what [`read_named`] answers of a file that has these bytes there.
pub fn named_in(
    alloc: Global,
    text: &[u8],
    file: FileId,
    owner: Option<UnitNo>,
    place: Place,
    shape: &Shape,
    format: Format,
) -> Result<Version, VersionFault>
    requires size { length text.now ≡ place.len }

    // It answers such a version exactly where one stands, and else the first place that is damaged.
    ensures exact { (seen : List ℕ) → IsTextAt place seen text.now → GivesVersion result (version_by_owner format (fields_in shape.now file) owner place seen) }

    // Where no version can stand there it is damaged at its offset.
    ensures refused { IsImpossible format (fields_in shape.now file) place → IsErrOf result (Fault.Damaged place.offset) }

    // Whatever the file: the version is of the grain's type, and as long as the place.
    ensures shaped { IfOk result (λ version. IsVersionIn format (fields_in shape.now file) place.len version) }
    ensures quiet { IsErrOf result Fault.Failed → ⊥ }
{
    let damaged = VersionFault::Damaged {
        place: place.offset,
    };
    let Some(fields) = fields_in(shape, file) else {
        return Err(damaged);
    };
    if is_beyond(place, format) {
        return Err(damaged);
    }
    let version = owned_in(alloc, text, owner, place, fields, format)?;
    Ok(version)
}
