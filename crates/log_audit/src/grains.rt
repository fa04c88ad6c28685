// The grains that a log wrote.

ghost use Rattle.std.specs.Prelude.{◌≡◌, ◌≤◌, [], map, IsTrue, Ok, OnOk, IfOk, IfErr};
ghost use Rattle.host_trait.specs.Faults.{HasCalled};
ghost use Rattle.host_trait.specs.Runs.{OnlyAsked};
ghost use Rattle.host_trait.specs.declared.channels.FileId.TheVariants.{Manager};
ghost use Rattle.field_codec.specs.declared.formats.Format.TheVariants.{Two};
ghost use Rattle.log_reading.specs.Blocks.{LogRead as ALog, log_in_file};
ghost use Rattle.log_reading.specs.Counts.{ReadFaulted};
ghost use Rattle.log_audit.specs.RereadFaults.{IsLogFault};
ghost use Rattle.log_reading.specs.Entries.{entry_said};
ghost use Rattle.promise_spec.specs.Programs.{Program};
ghost use Rattle.log_audit.specs.InForce.{types_in_force, HasShape, types_said};
ghost use Rattle.log_audit.specs.WrittenGrains.{grains_recorded, grains_said, grains_of_log, grains_added};

use crate::in_force::InForce;
use base_types::GrainId;
use commit_log::{CommitRecord, Written};
use field_codec::Format;
use host_trait::Host;
use log_reading::{FolderFault, Said, next_entry, read_base};
use std::alloc::{AllocError, Global};
use std::collections::BTreeSet;

// Adds the grains of these writes.
fn add_written(grains: &mut BTreeSet<GrainId>, writes: &[Written]) -> Result<(), AllocError>
    ensures { OnOk result (grains.new.keys ≡ grains_added grains.old.keys (map (λ w. w.grain) writes.now)) }
{
    for one in writes {
        grains.insert(one.grain)?;
    }
    Ok(())
}

// Adds the grains that these records wrote.
fn add_grains(grains: &mut BTreeSet<GrainId>, records: &[CommitRecord]) -> Result<(), AllocError>
    ensures { OnOk result (grains.new.keys ≡ grains_added grains.old.keys (grains_recorded records.now)) }
{
    for entry in records {
        add_written(grains, entry.writes.as_slice())?;
    }
    Ok(())
}

// Adds the grains of what a block says, and has the program that is in force behind it.
fn add_said(grains: &mut BTreeSet<GrainId>, now: &mut InForce, said: Said) -> Result<(), AllocError>
    requires shape { HasShape now.old }
    ensures grains { OnOk result (grains.new.keys ≡ grains_added grains.old.keys (grains_said (entry_said said))) }
    ensures behind { OnOk result (types_in_force now.new ≡ types_said now.old said) }
    ensures shaped { OnOk result (HasShape now.new) }
{
    match said {
        Said::Records(records) => {
            add_grains(grains, records.as_slice())?;
            Ok(())
        }
        Said::Upgrade {
            text: _text,
            checked,
        } => {
            now.change_to(checked)?;
            Ok(())
        }
    }
}

/// The grains that a slot's log names, in a checkpoint that it begins with or in its records, ascending; `now` is its first program, and
/// then each that comes into force. It reads the log block by block, and keeps them, one block and one program.
pub(crate) fn read_grains<H: Host>(
    alloc: Global,
    host: &mut H,
    slot: u8,
    now: &mut InForce,
) -> Result<BTreeSet<GrainId>, FolderFault>
    requires slot { slot ≤ 1 }
    requires shape { HasShape now.old }
    ensures found { IfOk result (λ grains. IsTrue H.tells → (p : Program) → p.types ≡ types_in_force now.old
        → (log : ALog) → log_in_file Two p ((H.world host.old).disk (Manager slot)).seen ≡ Ok log
        → grains.keys ≡ grains_added [] (grains_of_log log)) }
    ensures unread { IfErr result (λ e. IsTrue H.tells → (p : Program) → p.types ≡ types_in_force now.old
        → (log : ALog) → log_in_file Two p ((H.world host.old).disk (Manager slot)).seen ≡ Ok log
        → IsLogFault slot p ((H.world host.old).disk (Manager slot)).seen e) }
    ensures asked { IsTrue H.tells → OnlyAsked (H.world host.old) (H.world host.new) }
    ensures calls { HasCalled ReadFaulted result H.is_ready H.faults host.old host.new }
{
    let base = read_base(alloc, host, slot, &now.shape, Format::Two)?;
    let mut grains = BTreeSet::new(alloc);
    add_written(&mut grains, base.saved.as_slice())?;
    let mut last = base.session;
    let mut gate_at = base.gate_at;
    drop(base);
    while let Some((session, said, behind)) = next_entry(
        alloc,
        host,
        slot,
        &now.checked,
        &now.shape,
        last,
        Format::Two,
        gate_at,
    )? {
        add_said(&mut grains, now, said)?;
        last = session;
        gate_at = behind;
    }
    Ok(grains)
}
