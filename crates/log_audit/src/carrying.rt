ghost use Rattle.std.specs.Prelude.{◌≡◌, IfOk};
ghost use Rattle.base_types.specs.Stores.{state_in};
ghost use Rattle.base_types.specs.declared.calls.GrainId.{GrainId as AGrain};
ghost use Rattle.script_tree.specs.Programs.{program_tree};
ghost use Rattle.script_check.specs.Comparison.{GoesOnFrom};
ghost use Rattle.log_audit.specs.CarriedStores.{StoreFits, carried_in};

use base_types::Store;
use script_check::{Checked, carry_state};
use std::alloc::{AllocError, Global};

/// The store that there is once the program `new` comes into force after `old`: each state is carried to it, and a grain that has none
/// has none still. It keeps a second store as it goes.
pub(crate) fn carry_store(
    alloc: Global,
    old: &Checked,
    new: &Checked,
    store: &Store,
) -> Result<Store, AllocError>
    requires follows { GoesOnFrom (program_tree old.now) (program_tree new.now) }
    requires fits { StoreFits (program_tree old.now) store.now }
    ensures { IfOk result (λ made. (grain : AGrain) → state_in made grain ≡ carried_in (program_tree old.now) (program_tree new.now) store.now grain) }
{
    let grains = store.grains(alloc)?;
    let mut made = Store::new(alloc);
    for grain in grains {
        if let Some(state) = store.get(grain) {
            let carried = carry_state(alloc, old, new, grain.kind, state)?;
            made.put(grain, carried)?;
        }
    }
    Ok(made)
}
