ghost use Rattle.std.specs.Prelude.{◌≡◌, ◌<◌, ◌≤◌, ◌+◌, ◌-◌, ◌^◌, length, IfOk, IfErr};
ghost use Rattle.field_codec.specs.declared.units.Numbers.TheVariants.{Logged};
ghost use Rattle.field_codec.specs.Results.{named_place};
ghost use Rattle.field_codec.specs.Units.{SessionFits};
ghost use Rattle.field_codec.specs.Fields.{session_of};
ghost use Rattle.script_tree.specs.Programs.{program_tree};
ghost use Rattle.script_check.specs.Shapes.{type_shapes};
ghost use Rattle.program_file.specs.Programs.{program_in};
ghost use Rattle.program_file.specs.Answers.{program_fault_place};
ghost use Rattle.log_reading.specs.Entries.{where_accepted, entry_by_content, entry_of_body, damage_from, EndsAt, IsSaid, IsRead, IsNear};

use base_types::{List, Shape};
use commit_log::{Body, CommitRecord, read_front};
use field_codec::{CodecFault, Format};
use program_file::{ProgramFault, accept};
use script_check::{Checked, compare};
use std::alloc::Global;

/// What a body says: records of the program in force, or the text of the program that comes into force and that program.
#[derive(Drop)]
pub enum Said {
    Records(List<CommitRecord>),
    Upgrade { text: List<u8>, checked: Checked },
}

/// Why a body says nothing: it is damaged at this offset, or there was no memory.
#[derive(Clone, Copy, Debug, PartialEq, Eq)]
pub enum EntryFault {
    Damaged { place: usize },
    Memory,
}

// The fault of a body that isn't in the grammar.
fn in_body(fault: CodecFault) -> EntryFault
    ensures { result ≡ damage_from 0 (named_place fault) }
{
    match fault.place() {
        Some(place) => EntryFault::Damaged { place },
        None => EntryFault::Memory,
    }
}

// The fault of a text that is no program, and stands at an offset of the body.
fn in_text(start: usize, fault: ProgramFault) -> EntryFault
    requires { start < 2 ^ 63 }
    ensures is { result ≡ damage_from start (program_fault_place fault) }
    ensures near { IsNear (start + 2 ^ 32) result }
{
    match fault.place() {
        Some(at) => EntryFault::Damaged {
            place: start + at as usize,
        },
        None => EntryFault::Memory,
    }
}

// The fault of a type's name at this place of a text that stands at an offset of the body.
fn in_name(start: usize, at: u32) -> EntryFault
    requires { start < 2 ^ 63 }
    ensures is { result ≡ damage_from start (Some at) }
    ensures near { IsNear (start + 2 ^ 32) result }
{
    EntryFault::Damaged {
        place: start + at as usize,
    }
}

// The program of an upgrade's text, which ends in a body at this place.
fn read_program(
    alloc: Global,
    body: &[u8],
    text: List<u8>,
    end: usize,
    program: &Checked,
) -> Result<Said, EntryFault>
    requires small { (length text ≤ end) × (length text ≤ 262144) }
    requires within { end ≤ length body.now }
    ensures said { IsSaid result (where_accepted body.now (program_tree program.now) (end - length text) end text (program_in text)) }
    ensures near { IfErr result (λ fault. IsNear (length body.now + 2 ^ 32) fault) }
{
    let start = end - text.len();
    let checked = match accept(alloc, text.as_slice()) {
        Ok(checked) => checked,
        Err(fault) => return Err(in_text(start, fault)),
    };
    if let Err(fault) = compare(program, &checked, text.len() as u32) {
        return Err(in_name(start, fault.at));
    }
    if end == body.len() {
        return Ok(Said::Upgrade { text, checked });
    }
    Err(EntryFault::Damaged { place: end })
}

// What a body's content says, which ends at this place.
fn read_content(
    alloc: Global,
    body: &[u8],
    content: Body,
    end: usize,
    program: &Checked,
) -> Result<Said, EntryFault>
    requires text { EndsAt end content }
    requires within { end ≤ length body.now }
    ensures said { IsSaid result (entry_by_content body.now (program_tree program.now) end content) }
    ensures near { IfErr result (λ fault. IsNear (length body.now + 2 ^ 32) fault) }
{
    let records = match content {
        Body::Records(records) => records,
        Body::Upgrade(text) => return read_program(alloc, body, text, end, program),
    };
    if end == body.len() {
        return Ok(Said::Records(records));
    }
    Err(EntryFault::Damaged { place: end })
}

/// What a body of a log of a format says, under the program in force, of which this is the shape, and its session, behind the greatest
/// session before it; in format 1, which spells none, it is 1. The fault names the first place that is damaged, in this order: a session
/// that is below the one before, or 2 to the 63 or more; what isn't in the grammar; in an upgrade's text what is no program; a type's name
/// in it that isn't the program's in force, or the text's end where types are missing; and bytes that follow.
pub fn read_entry(
    alloc: Global,
    body: &[u8],
    program: &Checked,
    shape: &Shape,
    session: u64,
    format: Format,
) -> Result<(u64, Said), EntryFault>
    ensures said { IsRead result (entry_of_body format (program_tree program.now) shape.now session body.now) }
    ensures session { IfOk result (λ found. found.0 ≡ session_of format body.now) }
    ensures fits { IfOk result (λ found. SessionFits format Logged session found.0) }

    // A place in a text is below 2 to the 32.
    ensures near { IfErr result (λ fault. IsNear (length body.now + 2 ^ 32) fault) }
{
    let ((own, content), end) = match read_front(alloc, body, shape, session, format) {
        Ok(found) => found,
        Err(fault) => return Err(in_body(fault)),
    };
    match read_content(alloc, body, content, end, program) {
        Ok(said) => Ok((own, said)),
        Err(fault) => Err(fault),
    }
}
