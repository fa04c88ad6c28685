ghost use Rattle.std.specs.Prelude.{◌≡◌, IsErrOf};
ghost use Rattle.field_codec.specs.Units.{may_be_unit, may_be_parent};
ghost use Rattle.field_codec.specs.Fields.{unit_at, parent_at, session_at};
ghost use Rattle.field_codec.specs.Results.{GivesRead};
ghost use Rattle.field_codec.specs.declared.faults.CodecFault.{CodecFault as Fault};

use crate::faults::CodecFault;
use crate::formats::Format;
use crate::numbers::get_u64;

/// Which numbers of units a reading takes.
#[derive(Clone, Copy, Debug, PartialEq, Eq)]
pub enum Numbers {
    /// Any number of 64 bits.
    Free,
    /// Those that a log may have: a unit's is above 0, and a unit's and a parent's are below 2 to the 63.
    Logged,
}

fn may_be_unit(numbers: Numbers, number: u64) -> bool
    ensures { result ≡ may_be_unit numbers number }
{
    match numbers {
        Numbers::Free => true,
        Numbers::Logged => 0 < number && number < 9223372036854775808,
    }
}

fn may_be_parent(numbers: Numbers, number: u64) -> bool
    ensures { result ≡ may_be_parent numbers number }
{
    match numbers {
        Numbers::Free => true,
        Numbers::Logged => number < 9223372036854775808,
    }
}

/// The number of a unit that stands at a place, and the place behind it. `Unknown` where it is none that is taken.
#[tactic(auto, unfolding(crate::specs::Fields::unit_at, crate::specs::Readers::field, crate::specs::Readers::choice, crate::specs::Readers::refused, crate::specs::Readers::whole))]
pub fn get_unit(bytes: &[u8], at: usize, numbers: Numbers) -> Result<(u64, usize), CodecFault>
    ensures exact { GivesRead result (unit_at numbers bytes.now at) }
    ensures quiet { IsErrOf result Fault.Memory → ⊥ }
{
    let (number, after) = get_u64(bytes, at)?;
    if may_be_unit(numbers, number) {
        return Ok((number, after));
    }
    Err(CodecFault::Unknown { place: at })
}

/// The number of a parent that stands at a place, and the place behind it. `Unknown` where it is none that is taken.
#[tactic(auto, unfolding(crate::specs::Fields::parent_at, crate::specs::Readers::field, crate::specs::Readers::choice, crate::specs::Readers::refused, crate::specs::Readers::whole))]
pub fn get_parent(bytes: &[u8], at: usize, numbers: Numbers) -> Result<(u64, usize), CodecFault>
    ensures exact { GivesRead result (parent_at numbers bytes.now at) }
    ensures quiet { IsErrOf result Fault.Memory → ⊥ }
{
    let (number, after) = get_u64(bytes, at)?;
    if may_be_parent(numbers, number) {
        return Ok((number, after));
    }
    Err(CodecFault::Unknown { place: at })
}

/// The number of a session that stands at a place, and the place behind it; 1 in format 1, which spells none.
/// `BadOrder` where it is below `last`, the one before, and else `Unknown` where it is none that is taken.
#[tactic(auto, unfolding(crate::specs::Fields::session_at, crate::specs::Readers::field, crate::specs::Readers::choice, crate::specs::Readers::refused, crate::specs::Readers::whole))]
pub fn get_session(
    bytes: &[u8],
    at: usize,
    last: u64,
    format: Format,
    numbers: Numbers,
) -> Result<(u64, usize), CodecFault>
    ensures exact { GivesRead result (session_at format numbers last bytes.now at) }
    ensures quiet { IsErrOf result Fault.Memory → ⊥ }
{
    match format {
        Format::One => Ok((1, at)),
        Format::Two => {
            let (number, after) = get_u64(bytes, at)?;
            if number < last {
                return Err(CodecFault::BadOrder { place: at });
            }
            if may_be_parent(numbers, number) {
                return Ok((number, after));
            }
            Err(CodecFault::Unknown { place: at })
        }
    }
}
