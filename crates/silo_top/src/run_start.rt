ghost use Rattle.std.specs.Prelude.{◌≡◌, ◌^◌, ◌<◌, ◌≤◌, [], length, Some, IfOk};
ghost use Rattle.log_reading.specs.Sums.{AreNear, AreOfPrograms};
ghost use Rattle.promise_spec.specs.Cores.{memory_limit};
ghost use Rattle.batch_disk.specs.Writers.{IsInBounds};
ghost use Rattle.program_file.specs.Succession.{ArePrograms};
ghost use Rattle.silo_opening.specs.OpenedSilo.{programs_of};
ghost use Rattle.silo_top.specs.RunStart.{IsStartOf};

use activations::Recent;
use cell_table::OpeningStates;
use history_core::{Core, Opening};
use script_check::Checked;
use settle_loop::Settler;
use silo_opening::Opened;
use std::alloc::{AllocError, Global};
use std::num::NonZeroUsize;
use std::snapshot::Snapshot;

/// How many of the grains that were used last stay in memory.
const KEPT_GRAINS: usize = 4_096;

/// What carries the lines of a run: the slot of its files, the program, a core without events, and a settler at the end of the log.
#[derive(Drop)]
pub(crate) struct Started {
    pub(crate) slot: u8,
    pub(crate) checked: Checked,
    pub(crate) core: Core,
    pub(crate) settler: Settler,
}

/// No grain was used yet, of those that stay in memory.
fn unused_memory(alloc: Global) -> Result<Recent, AllocError>
    ensures grains { IfOk result (λ made. made.grains ≡ []) }
    ensures limit { IfOk result (λ made. Some made.limit ≡ memory_limit) }
{
    let Some(limit) = NonZeroUsize::new(KEPT_GRAINS) else {
        unreachable!()
    };
    let recent = Recent::new(alloc, limit)?;
    Ok(recent)
}

/// A core and a settler of an opened silo. A quiet settler writes no replies, and its core keeps the last states. The settler's blocks have
/// the session that follows the greatest of the log; where none follows, that is answered as want of memory.
pub(crate) fn start(alloc: Global, opened: Opened, quiet: bool) -> Result<Started, AllocError>
    requires slot { opened.slot ≤ 1 }
    requires gate { opened.gate_at < 2 ^ 63 }
    requires above { 0 < opened.next_unit.0 }
    requires few { opened.next_unit.0 ≤ 2 ^ 63 }
    requires near { AreNear opened.ends }
    requires programs { ArePrograms (programs_of opened) }
    requires numbered { AreOfPrograms (length opened.programs) opened.places }
    ensures start { IfOk result (λ started. IsStartOf opened started) }
    ensures quiet { IfOk result (λ started. started.settler.quiet ≡ quiet) }
    ensures bounds { IfOk result (λ started. IsInBounds started.settler.writer) }
{
    let Some(session) = opened.next_session() else {
        drop(opened);
        return Err(AllocError);
    };
    let shape = match opened.checked.shape() {
        Ok(shape) => shape,
        Err(AllocError) => {
            drop(opened);
            return Err(AllocError);
        }
    };
    let recent = match unused_memory(alloc) {
        Ok(recent) => recent,
        Err(AllocError) => {
            drop(shape);
            drop(opened);
            return Err(AllocError);
        }
    };
    let core = Core::new(
        alloc,
        Opening {
            shape,
            opened: OpeningStates::Placed(Snapshot::of(&opened.places)),
            next_unit: opened.next_unit,
            recent: Some(recent),
            keeps_last: quiet,
        },
    );
    drop(opened.text);
    let settler = match Settler::new(
        alloc,
        opened.slot,
        opened.gate_at,
        opened.ends,
        quiet,
        opened.places,
        opened.programs,
        session,
    ) {
        Ok(settler) => settler,
        Err(AllocError) => {
            drop(core);
            drop(opened.checked);
            return Err(AllocError);
        }
    };
    Ok(Started {
        slot: opened.slot,
        checked: opened.checked,
        core,
        settler,
    })
}
