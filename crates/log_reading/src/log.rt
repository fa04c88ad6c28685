ghost use Rattle.std.specs.Prelude.{◌≡◌, ◌^◌, ◌<◌, ◌≤◌, ℕ, IsTrue, length, is_ok, if◌then◌else◌, IfOk, IsErrOf, Err};
ghost use Rattle.host_trait.specs.Faults.{HasCalled};
ghost use Rattle.host_trait.specs.Runs.{OnlyAsked};
ghost use Rattle.host_trait.specs.declared.channels.FileId.{FileId};
ghost use Rattle.host_trait.specs.declared.channels.FileId.TheVariants.{Manager};
ghost use Rattle.program_file.specs.Programs.{Program};
ghost use Rattle.script_tree.specs.Programs.{program_tree};
ghost use Rattle.log_reading.specs.declared.faults.FolderFault.{FolderFault};
ghost use Rattle.log_reading.specs.Blocks.{log_in_file};
ghost use Rattle.log_reading.specs.Counts.{ReadFaulted};
ghost use Rattle.log_reading.specs.Versions.{named_by_grain};
ghost use Rattle.log_reading.specs.Sums.{IsReadAs};

use crate::bases::read_base;
use crate::entries::{add_said, begin, next_said};
use crate::faults::FolderFault;
use base_types::{List, UnitNo};
use commit_log::Named;
use field_codec::Format;
use host_trait::Host;
use script_check::Checked;
use std::alloc::{AllocError, Global};

/// What opening keeps of a log: how many entries it has, those before its beginning too, the number of the next unit, the greatest
/// session, each version that it names, those of its beginning first and then in the log's order, the gate at which it ends, the programs that came into force after
/// that of the program file, in their order, and the text of the last of them.
#[derive(Drop)]
pub struct ReadLog {
    pub count: u64,
    pub next_unit: UnitNo,
    pub session: u64,
    pub named: List<Named>,
    pub gate_at: u64,
    pub later: List<Checked>,
    pub text: Option<List<u8>>,
}

/// Reads the log of a slot's manager file, block by block behind the header, first the pieces of a checkpoint, where it begins with
/// one, and then records and upgrades, each under the program in force, which is that of the program file first, and behind the sessions
/// before it; and keeps what opening needs of it. `Damaged` names the first place that is damaged, and `Failed` that file, a call on which failed.
pub fn read_log<H: Host>(
    alloc: Global,
    host: &mut H,
    slot: u8,
    first: &Checked,
    format: Format,
) -> Result<ReadLog, FolderFault>
    requires slot { slot ≤ 1 }
    ensures log { IfOk result (λ l. (p : Program) → p.types ≡ program_tree first.now
        → IsReadAs H.tells format p ((H.world host.old).disk (Manager slot)).seen l) }
    ensures bound { IfOk result (λ l. (l.gate_at < 2 ^ 63) × ((0 < l.next_unit.0) × (l.next_unit.0 ≤ 2 ^ 63))) }
    ensures session { IfOk result (λ l. l.session < 2 ^ 63) }
    ensures numbers { IfOk result (λ l. length l.later < 2 ^ 32) }
    ensures damaged { (file : FileId) (place : ℕ) → IsErrOf result (FolderFault.Damaged file place) → IsTrue H.tells
        → (p : Program) → p.types ≡ program_tree first.now → log_in_file format p ((H.world host.old).disk (Manager slot)).seen ≡ Err place }
    ensures file { (file : FileId) (place : ℕ) → IsErrOf result (FolderFault.Damaged file place) → file ≡ Manager slot }
    ensures failed { (file : FileId) → IsErrOf result (FolderFault.Failed file) → file ≡ Manager slot }
    ensures asked { IsTrue H.tells → OnlyAsked (H.world host.old) (H.world host.new) }
    ensures calls { HasCalled ReadFaulted result H.is_ready H.faults host.old host.new }
{
    let shape = first.shape()?;
    let base = match read_base(alloc, host, slot, &shape, format) {
        Ok(base) => base,
        Err(fault) => return Err(fault),
    };
    let mut session = base.session;
    let mut gate_at = base.gate_at;
    let mut so_far = begin(alloc, base, shape)?;
    while let Some((own, said, behind)) = next_said(
        alloc, host, slot, first, &so_far, session, format, gate_at,
    )? {
        add_said(&mut so_far, said)?;
        session = own;
        gate_at = behind;
    }
    Ok(ReadLog {
        count: so_far.count,
        next_unit: UnitNo(so_far.next),
        session,
        named: so_far.named,
        gate_at,
        later: so_far.later,
        text: so_far.text,
    })
}

/// Sorts named versions by their grains, those of one grain in the order that they had. Without memory they stay in their places.
pub fn sort_by_grain(named: &mut Vec<Named>) -> Result<(), AllocError>
    ensures { named.new.items ≡ (if is_ok result then named_by_grain named.old.items else named.old.items) }
{
    named.sort_by_key(|n| n.written.grain)?;
    Ok(())
}
