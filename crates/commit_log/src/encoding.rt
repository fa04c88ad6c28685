ghost use Rattle.std.specs.Prelude.{◌≡◌, ◌<◌, ◌≤◌, ◌^◌, ◌++◌, length, take, drop, OnOk, IfOk};
ghost use Rattle.std.specs.Int.{w16, w32, to_le_bytes};
ghost use Rattle.std.specs.List.{flat_map, AllByRecursion};
ghost use Rattle.field_codec.specs.declared.formats.Format.TheVariants.{Two};
ghost use Rattle.field_codec.specs.Spelling.{spelling_of_outcome};
ghost use Rattle.gate_block.specs.Blocks.{block_of};
ghost use Rattle.commit_log.specs.Spelling.{spelling_of_write, spelling_of_body, AnswersFit, WriteFits, RecordsFit};
ghost use Rattle.commit_log.specs.Sessions.{spelling_with_session};
ghost use Rattle.commit_log.specs.declared.contents.Body.{Body as ABody};
ghost use Rattle.commit_log.specs.EncodableRecords.{MaySpell};

use crate::records::{CommitRecord, Written};
use base_types::{List, Outcome};
use field_codec::{Spelled, append_all, put_u16, put_u32, put_u64};
use std::alloc::{AllocError, Global};

impl Spelled for Written {
    ghost use Rattle.commit_log.specs.Spelling.{spelling_of_write, WriteFits};

    ghost may_spell = { λ _. Unit {0} };

    ghost spelling = { spelling_of_write };

    ghost fits = { WriteFits };

    fn append(&self, into: &mut Vec<u8>) -> Result<(), AllocError> {
        put_u16(into, self.grain.kind)?;
        put_u32(into, self.grain.key)?;
        put_u64(into, self.place.offset)?;
        put_u32(into, self.place.len)?;
        Ok(())
    }
}

// Appends how many answers there are, and each.
fn append_answers(into: &mut Vec<u8>, answers: &[Outcome]) -> Result<(), AllocError>
    requires { length answers.now ≤ 64 }
    ensures ok { OnOk result (into.new.items ≡ into.old.items ++ (to_le_bytes w16 (length answers.now) ++ flat_map spelling_of_outcome answers.now)) }
    ensures fits { OnOk result (AnswersFit Two answers.now) }
    ensures begins { take (length into.old.items) into.new.items ≡ into.old.items }
{
    put_u16(into, answers.len() as u16)?;
    append_all(into, answers)?;
    Ok(())
}

// Appends how many writes there are, and each.
fn append_writes(into: &mut Vec<u8>, writes: &[Written]) -> Result<(), AllocError>
    requires { length writes.now ≤ 64 }
    ensures ok { OnOk result (into.new.items ≡ into.old.items ++ (to_le_bytes w16 (length writes.now) ++ flat_map spelling_of_write writes.now)) }
    ensures fits { OnOk result (AllByRecursion WriteFits writes.now) }
    ensures begins { take (length into.old.items) into.new.items ≡ into.old.items }
{
    put_u16(into, writes.len() as u16)?;
    append_all(into, writes)?;
    Ok(())
}

impl Spelled for CommitRecord {
    ghost use Rattle.field_codec.specs.declared.formats.Format.TheVariants.{Two};
    ghost use Rattle.commit_log.specs.Spelling.{spelling_of_record, RecordFits};
    ghost use Rattle.commit_log.specs.EncodableRecords.{MaySpell};

    ghost may_spell = { MaySpell };

    ghost spelling = { spelling_of_record };

    ghost fits = { RecordFits Two };

    fn append(&self, into: &mut Vec<u8>) -> Result<(), AllocError> {
        put_u64(into, self.unit.0)?;
        self.origin.append(into)?;
        self.call.append(into)?;
        append_answers(into, self.answers.as_slice())?;
        self.result.append(into)?;
        append_writes(into, self.writes.as_slice())?;
        Ok(())
    }
}

// Appends what a body of these records says.
fn append_body(into: &mut Vec<u8>, records: &[CommitRecord]) -> Result<(), AllocError>
    requires count { length records.now ≤ 64 }
    requires each { AllByRecursion MaySpell records.now }
    ensures ok { OnOk result (into.new.items ≡ into.old.items ++ spelling_of_body records.now) }
    ensures fits { OnOk result (RecordsFit Two records.now) }
{
    put_u32(into, records.len() as u32)?;
    append_all(into, records)?;
    Ok(())
}

// Writes the length of the body over the block's first four bytes.
fn set_length(block: &mut Vec<u8>, size: u32)
    requires { 4 ≤ length block.old.items }
    ensures { block.new.items ≡ to_le_bytes w32 size ++ drop 4 block.old.items }
{
    let (field, _) = block.as_mut_slice().split_at_mut(4);
    field.copy_from_slice(&size.to_le_bytes());
}

/// The block of a batch in a session: its body's length, its body, which begins with the session, and the closed gate of the next
/// block. A batch has at most 64 records, each with at most 8 arguments, 64 answers and 64 writes, with its writes in ascending grain
/// order, and with a result that is no abort.
pub fn encode_block(
    alloc: Global,
    records: &List<CommitRecord>,
    session: u64,
) -> Result<List<u8>, AllocError>
    requires count { length records.now ≤ 64 }
    requires each { AllByRecursion MaySpell records.now }
    ensures spelled { IfOk result (λ block. block ≡ block_of (spelling_with_session Two session (ABody.Records records.now))) }
    ensures fits { OnOk result (RecordsFit Two records.now) }
    ensures small { OnOk result (length (spelling_with_session Two session (ABody.Records records.now)) < 2 ^ 32) }
{
    let mut block = Vec::new(alloc);
    put_u32(&mut block, 0)?;
    put_u64(&mut block, session)?;
    append_body(&mut block, records.as_slice())?;
    let size = (block.len() - 4) as u32;
    set_length(&mut block, size);
    block.push(0)?;
    Ok(List::from_vec(block))
}
