ghost use Rattle.std.specs.Prelude.{◌≡◌, Ok, Err, IfOk, IfErr};
ghost use Rattle.request_wire.specs.Names.{names_in};
ghost use Rattle.request_wire.specs.Request.{call_of};
ghost use Rattle.script_tree.specs.Programs.{program_tree};

use crate::calls::call_of;
use crate::faults::RequestFault;
use base_types::{BadRequest, Call};
use script_check::Checked;
use std::alloc::Global;

/// A line of the input: its number, counted from 1, and the call it asks for or why it asks for none.
#[derive(Drop)]
pub struct Line {
    pub number: u32,
    pub what: Result<Call, BadRequest>,
}

/// The call that a line asks of a program. The line comes without its line feed, and may have any length.
///
/// Five tests are made in this order, and the first that the line fails is answered as `Bad`:
///
/// - `Json`: the line is JSON, with nothing but white space behind it.
/// - `Shape`: it is an object with exactly the keys `args`, an array, and `call`, a string. Of a key that comes
///   twice the last value counts, and it counts as one key.
/// - `Grain`: the call is `TYPE/KEY.METHOD`, cut at the first `/` and at the first `.` behind it. The type is one
///   of the program's, and the key is from 0 to 4294967295 without a leading zero.
/// - `Method`: the type has this method.
/// - `Args`: there are as many arguments as parameters. Each is a number that fits an `i64`, is not `-0` and has
///   neither a point nor an exponent, or a string of at most 4,096 bytes.
///
/// `Memory`: memory ran out. It says nothing about the line.
pub fn read_request(alloc: Global, line: &[u8], checked: &Checked) -> Result<Call, RequestFault>
    ensures ok { IfOk result (λ call. call_of (names_in (program_tree checked.now)) line.now ≡ Ok call) }
    ensures bad { IfErr result (λ fault. (why : BadRequest) → fault ≡ RequestFault.Bad why
        → call_of (names_in (program_tree checked.now)) line.now ≡ Err why) }
{
    call_of(alloc, line, checked)
}
