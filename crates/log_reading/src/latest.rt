ghost use Rattle.std.specs.Prelude.{◌≡◌, ◌≤◌, ℕ, List, IsTrue, length, Ok, Err, IfOk, IsErrOf};
ghost use Rattle.host_trait.specs.Faults.{HasCalled};
ghost use Rattle.host_trait.specs.Runs.{OnlyAsked};
ghost use Rattle.host_trait.specs.declared.channels.FileId.{FileId};
ghost use Rattle.host_trait.specs.declared.channels.FileId.TheVariants.{Manager};
ghost use Rattle.script_tree.specs.Programs.{program_tree};
ghost use Rattle.program_file.specs.Programs.{Program};
ghost use Rattle.log_reading.specs.declared.faults.FolderFault.{FolderFault};
ghost use Rattle.log_reading.specs.Counts.{ReadFaulted};
ghost use Rattle.log_reading.specs.Blocks.{LogRead, log_in_file};
ghost use Rattle.log_reading.specs.Versions.{named_in, named_by_grain, goes_on, latest_of};

use crate::faults::FolderFault;
use crate::log::{read_log, sort_by_grain};
use base_types::List;
use commit_log::Named;
use field_codec::Format;
use host_trait::Host;
use script_check::Checked;
use std::alloc::{AllocError, Global};

// Whether the first of these versions is of the grain of the one before them.
fn goes_on(one: Named, rest: &[Named]) -> bool
    ensures { result ≡ goes_on one rest.now }
{
    match rest.first() {
        Some(next) => one.written.grain == next.written.grain,
        None => false,
    }
}

// Of named versions by grains, the last of each grain.
fn keep_latest(alloc: Global, named: &[Named]) -> Result<List<Named>, AllocError>
    ensures { IfOk result (λ kept. kept ≡ latest_of named.now) }
{
    let mut kept = List::new(alloc);
    let mut behind = 0;
    for one in named {
        behind += 1;
        if !goes_on(*one, &named[behind..]) {
            kept.push(*one)?;
        }
    }
    Ok(kept)
}

/// Reads the log of a slot's manager file once more, from the program of the program file on, and answers of each grain that it names the
/// last version, by ascending grains. No version is read. `Damaged` names the first place of the file that is damaged, and `Failed` that
/// file, a call on which failed.
pub fn read_latest<H: Host>(
    alloc: Global,
    host: &mut H,
    slot: u8,
    first: &Checked,
    format: Format,
) -> Result<List<Named>, FolderFault>
    requires slot { slot ≤ 1 }
    ensures latest { IfOk result (λ named. IsTrue H.tells → (p : Program) → p.types ≡ program_tree first.now
        → (log : LogRead) × (log_in_file format p ((H.world host.old).disk (Manager slot)).seen ≡ Ok log)
        × (named ≡ latest_of (named_by_grain (named_in log)))) }
    ensures damaged { (file : FileId) (place : ℕ) → IsErrOf result (FolderFault.Damaged file place) → IsTrue H.tells
        → (p : Program) → p.types ≡ program_tree first.now → log_in_file format p ((H.world host.old).disk (Manager slot)).seen ≡ Err place }
    ensures file { (file : FileId) (place : ℕ) → IsErrOf result (FolderFault.Damaged file place) → file ≡ Manager slot }
    ensures failed { (file : FileId) → IsErrOf result (FolderFault.Failed file) → file ≡ Manager slot }
    ensures asked { IsTrue H.tells → OnlyAsked (H.world host.old) (H.world host.new) }
    ensures calls { HasCalled ReadFaulted result H.is_ready H.faults host.old host.new }
{
    let mut named = match read_log(alloc, host, slot, first, format) {
        Ok(log) => log.named.into_vec(),
        Err(fault) => return Err(fault),
    };
    match sort_by_grain(&mut named) {
        Ok(()) => {}
        Err(AllocError) => return Err(FolderFault::Memory),
    }
    match keep_latest(alloc, named.as_slice()) {
        Ok(kept) => Ok(kept),
        Err(AllocError) => Err(FolderFault::Memory),
    }
}
