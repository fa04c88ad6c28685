ghost use Rattle.std.specs.Prelude.{◌≡◌, ◌<◌, ◌≤◌, ◌^◌, List, true, false, IsTrue, length, map, None, IfOk, IfSome, IfNone, IsErrOf};
ghost use Rattle.std.specs.List.{AllByRecursion};
ghost use Rattle.field_codec.specs.declared.formats.Format.TheVariants.{Two};
ghost use Rattle.commit_log.specs.declared.records.CommitRecord.{CommitRecord as ARecord};
ghost use Rattle.commit_log.specs.declared.records.Written.{Written as AWritten};
ghost use Rattle.batch_disk.specs.declared.records.WorkFault.{WorkFault};
ghost use Rattle.commit_log.specs.EncodableRecords.{MaySpell, IsNoAbort};
ghost use Rattle.commit_log.specs.Orders.{IsAscending};
ghost use Rattle.commit_log.specs.Spelling.{RecordsFit};
ghost use Rattle.gate_block.specs.Blocks.{block_of};
ghost use Rattle.batch_disk.specs.Writers.{voted_by};
ghost use Rattle.batch_disk.specs.Records.{place_among, HavePlaces, IsRecordFor, AreRecordsFor, sealed_body};

use crate::kept_version::KeptVersion;
use crate::moved_places::version_among;
use base_types::{GrainId, List, Outcome, Place, State, UnitNo};
use commit_log::{CommitRecord, Written, encode_block, is_above};
use core_model::Effect;
use std::alloc::{AllocError, Global};

/// The records of a batch's units to commit, in batch order, and the block that they make.
#[derive(Drop)]
pub struct SealWork {
    pub(crate) records: List<CommitRecord>,
    pub(crate) block: List<u8>,
}

/// Why a batch's units have no records.
#[derive(Clone, Copy, Debug, PartialEq, Eq)]
pub(crate) enum WorkFault {
    /// There was no memory.
    Memory,
    /// A place of a version that a unit wrote isn't kept, or a unit or the batch goes beyond the limits of the format.
    Unlawful,
}

impl From<AllocError> for WorkFault {
    ghost use Rattle.std.specs.Prelude.{◌≡◌};
    ghost use Rattle.batch_disk.specs.declared.records.WorkFault.{WorkFault};

    ghost from_gives = { λ _ fault. fault ≡ WorkFault.Memory };

    fn from(_: AllocError) -> Self {
        WorkFault::Memory
    }
}

// The place of a unit's version of a grain, none where it isn't kept.
#[tactic(auto, using(crate::proofs::MovedPlaces::place_of))]
fn place_among(kept: &[KeptVersion], unit: UnitNo, grain: GrainId) -> Option<Place>
    ensures { result ≡ place_among unit grain (map voted_by kept.now) }
{
    match version_among(kept, unit, grain) {
        Some(version) => Some(version.place),
        None => None,
    }
}

// The places of what a unit wrote, none where one isn't kept.
fn places_of(
    alloc: Global,
    kept: &[KeptVersion],
    unit: UnitNo,
    writes: &[(GrainId, State)],
) -> Result<Option<List<Written>>, AllocError>
    ensures some { IfOk result (λ found. IfSome found (λ made. HavePlaces (map voted_by kept.now) unit writes.now made)) }
    ensures none { IfOk result (λ found. IfNone found ((made : List AWritten) → HavePlaces (map voted_by kept.now) unit writes.now made → ⊥)) }
{
    let mut made = List::new(alloc);
    for write in writes {
        let grain = write.0;
        let Some(place) = place_among(kept, unit, grain) else {
            return Ok(None);
        };
        made.push(Written { grain, place })?;
    }
    Ok(Some(made))
}

// A unit's record, none where a place isn't kept.
fn record_of(
    alloc: Global,
    kept: &[KeptVersion],
    effect: Effect,
) -> Result<Option<CommitRecord>, AllocError>
    ensures some { IfOk result (λ found. IfSome found (λ made. IsRecordFor (map voted_by kept.now) effect made)) }
    ensures none { IfOk result (λ found. IfNone found ((made : ARecord) → IsRecordFor (map voted_by kept.now) effect made → ⊥)) }
{
    let Effect {
        unit,
        origin,
        call,
        answers,
        reads: _,
        writes,
        result,
    } = effect;
    let Some(writes) = places_of(alloc, kept, unit, writes.as_slice())? else {
        return Ok(None);
    };
    Ok(Some(CommitRecord {
        unit,
        origin,
        call,
        answers,
        result,
        writes,
    }))
}

// The records of these units, in their order, none where a place isn't kept.
fn records_of(
    alloc: Global,
    kept: &[KeptVersion],
    effects: List<Effect>,
) -> Result<Option<List<CommitRecord>>, AllocError>
    ensures some { IfOk result (λ found. IfSome found (λ records. AreRecordsFor (map voted_by kept.now) effects records)) }
    ensures none { IfOk result (λ found. IfNone found ((records : List ARecord) → AreRecordsFor (map voted_by kept.now) effects records → ⊥)) }
{
    let mut records = List::new(alloc);
    for effect in effects.into_vec() {
        let Some(record) = record_of(alloc, kept, effect)? else {
            return Ok(None);
        };
        records.push(record)?;
    }
    Ok(Some(records))
}

// Whether the outcome is none that the log keeps.
fn is_abort(outcome: &Outcome) -> bool
    ensures none { result ≡ false → IsNoAbort outcome.now }
    ensures some { IsNoAbort outcome.now → result ≡ false }
{
    match outcome {
        Outcome::Aborted => true,
        Outcome::Value(_) => false,
        Outcome::Fault(_) => false,
    }
}

// Whether the grains of these writes ascend.
fn are_ascending(writes: &[Written]) -> bool
    ensures yes { IsTrue result → IsAscending None writes.now }
    ensures no { IsAscending None writes.now → IsTrue result }
{
    let mut last = None;
    for write in writes {
        if !is_above(last, write.grain) {
            return false;
        }
        last = Some(write.grain);
    }
    true
}

// Whether the record keeps the limits of the format.
fn may_spell(logged: &CommitRecord) -> bool
    ensures yes { IsTrue result → MaySpell logged.now }
    ensures no { MaySpell logged.now → IsTrue result }
{
    if logged.call.args.len() > 8 || logged.answers.len() > 64 || logged.writes.len() > 64 {
        return false;
    }
    if is_abort(&logged.result) {
        return false;
    }
    are_ascending(logged.writes.as_slice())
}

// Whether the records keep the limits of the format.
fn all_may_spell(records: &[CommitRecord]) -> bool
    ensures yes { IsTrue result → AllByRecursion MaySpell records.now }
    ensures no { AllByRecursion MaySpell records.now → IsTrue result }
{
    for record in records {
        if !may_spell(record) {
            return false;
        }
    }
    true
}

/// The records of these units with the places that are kept, and their block in this session. `Unlawful` only where no such records are within
/// the limits of the format.
pub(crate) fn work_of(
    alloc: Global,
    kept: &[KeptVersion],
    effects: List<Effect>,
    session: u64,
) -> Result<SealWork, WorkFault>
    ensures records { IfOk result (λ work. AreRecordsFor (map voted_by kept.now) effects work.records) }
    ensures fits { IfOk result (λ work. RecordsFit Two work.records) }
    ensures small { IfOk result (λ work. length (sealed_body session work.records) < 2 ^ 32) }
    ensures block { IfOk result (λ work. work.block ≡ block_of (sealed_body session work.records)) }
    ensures unlawful { IsErrOf result WorkFault.Unlawful → (records : List ARecord) → AreRecordsFor (map voted_by kept.now) effects records
        → length records ≤ 64 → AllByRecursion MaySpell records → ⊥ }
{
    let Some(records) = records_of(alloc, kept, effects)? else {
        return Err(WorkFault::Unlawful);
    };
    if records.len() > 64 {
        return Err(WorkFault::Unlawful);
    }
    if !all_may_spell(records.as_slice()) {
        return Err(WorkFault::Unlawful);
    }
    let block = encode_block(alloc, &records, session)?;
    Ok(SealWork { records, block })
}
