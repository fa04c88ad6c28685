ghost use Rattle.std.specs.Prelude.{◌≡◌, ◌⊎◌, ◌+◌, ◌^◌, ◌<◌, ℕ, List as AList, IsTrue, Some, IfOk, IfErr, OnOk};
ghost use Rattle.script_tree.specs.Programs.{program_tree};
ghost use Rattle.script_check.specs.Comparison.{GoesOnFrom, compared};
ghost use Rattle.promise_spec.specs.Words.{Manner};
ghost use Rattle.promise_spec.specs.Endings.{BadUse};
ghost use Rattle.promise_spec.specs.Upgrading.{UpgradesSilo};
ghost use Rattle.silo_opening.specs.CommandCalls.{HasCalledAs};
ghost use Rattle.silo_upgrade.specs.declared.faults.UpgradeEnd.{UpgradeEnd as AnEnd};
ghost use Rattle.silo_upgrade.specs.Endings.{upgrade_ending, upgraded_as};

use crate::faults::UpgradeEnd;
use crate::input::read_program;
use crate::sealing::seal_upgrade;
use host_trait::Host;
use script_check::{Checked, compare};
use silo_opening::{Opened, open_silo};
use std::alloc::Global;

// The session of the upgrade's block, where the program goes on from the one in force; `end` is the length of its text.
fn session_for(opened: &Opened, checked: &Checked, end: u32) -> Result<u64, UpgradeEnd>
    ensures next { IfOk result (λ session. (session ≡ opened.now.session + 1) × (session < 2 ^ 63)) }
    ensures follows { OnOk result (GoesOnFrom (program_tree opened.now.checked) (program_tree checked.now)) }
    ensures refused { IfErr result (λ e. (e ≡ AnEnd.Memory)
        ⊎ ((at : ℕ) × (e ≡ AnEnd.Refused at) × (compared (program_tree opened.now.checked) (program_tree checked.now) end ≡ Some at))) }
{
    let Some(session) = opened.next_session() else {
        return Err(UpgradeEnd::Memory);
    };
    match compare(&opened.checked, checked, end) {
        Ok(()) => Ok(session),
        Err(fault) => Err(UpgradeEnd::Refused { at: fault.at }),
    }
}

/// Reads a program's text from the input, and brings it into force in the host's silo, as the last entry of its log. States are carried
/// where they are read.
///
/// The input is read to its end and must be a program; then the silo is opened; then the program's types must begin with the names of
/// those in force, in their order. Only then is anything written: one block in the live slot's manager file, in the session after the
/// log's greatest, by two syncs. A crash before the second of these leaves the silo with the upgrade or without it.
///
/// # Errors
///
/// Those of the input come first, then those of the program in it, then those of an opening, then `Refused`; `DiskFault` names the live
/// slot's manager file, where a call on it failed while the block was sealed. `Memory` may come in place of each of them but the last;
/// and it comes where the log's greatest session is 2 to the 63 less 1.
pub fn upgrade<H: Host>(alloc: Global, host: &mut H) -> Result<(), UpgradeEnd>
    // What the command `upgrade` promises, however it ends.
    ensures upgrades { IsTrue H.tells → (manner : Manner) (asked : AList (AList ℕ))
        → UpgradesSilo (upgraded_as manner asked (H.world host.old) (H.world host.new) (H.faults host.old) (H.faults host.new) result) }

    // A fault is answered exactly where a call on its channel failed: its count rose, and no other changed. With another answer no
    // count has changed. Each file that was ready is.
    ensures calls { HasCalledAs (upgrade_ending result) H.is_ready H.faults host.old host.new }
    ensures good { upgrade_ending result ≡ BadUse → ⊥ }
{
    let (text, checked) = match read_program(alloc, host) {
        Ok(read) => read,
        Err(end) => return Err(end),
    };
    let opened = match open_silo(alloc, host) {
        Ok(opened) => opened,
        Err(fault) => {
            drop(checked);
            return Err(UpgradeEnd::Unopened(fault));
        }
    };
    let session = match session_for(&opened, &checked, text.len() as u32) {
        Ok(session) => session,
        Err(end) => {
            drop(opened);
            drop(checked);
            return Err(end);
        }
    };
    let slot = opened.slot;
    let gate_at = opened.gate_at;
    drop(opened);
    drop(checked);
    match seal_upgrade(alloc, host, slot, gate_at, &text, session) {
        Ok(()) => Ok(()),
        Err(end) => Err(end),
    }
}
