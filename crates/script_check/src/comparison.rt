ghost use Rattle.std.specs.Prelude.{◌≡◌, map, OnOk, OnErr, IfErr};
ghost use Rattle.script_tree.specs.Programs.{type_tree, program_tree};
ghost use Rattle.script_check.specs.Comparison.{compared, refused_place, GoesOnFrom, IsRefusedAt};

use crate::checked_program::Checked;
use script_scopes::is_same;
use script_tree::TypeDecl;
use thiserror::Error;

/// Why a program may not follow another: its types don't begin with the other's names, in their order. `at` is the place in the new
/// text of the first type's name that differs, or the text's length where types are missing.
#[derive(Clone, Copy, Debug, PartialEq, Eq, Error)]
#[error("the types don't go on at {at}")]
pub struct UpgradeFault {
    pub at: u32,
}

// The types' names, one after the other.
fn compare_types(olds: &[TypeDecl], news: &[TypeDecl], end: u32) -> Result<(), UpgradeFault>
    ensures { refused_place result ≡ compared (map type_tree olds.now) (map type_tree news.now) end }
{
    for (place, old) in olds.iter().enumerate() {
        let Some(new) = news.get(place) else {
            return Err(UpgradeFault { at: end });
        };
        if !is_same(&old.name.text, &new.name.text) {
            return Err(UpgradeFault { at: new.name.at });
        }
    }
    Ok(())
}

/// Whether the program `new`, whose text has `end` bytes, may follow `old`: its types begin with the old ones' names, in their order.
/// More types may stand behind them, and fields and methods may be others. Takes no memory.
pub fn compare(old: &Checked, new: &Checked, end: u32) -> Result<(), UpgradeFault>
    ensures exact { refused_place result ≡ compared (program_tree old.now) (program_tree new.now) end }

    // It goes through exactly where the new types begin with the old names.
    ensures accepted { OnOk result (GoesOnFrom (program_tree old.now) (program_tree new.now)) }
    ensures refused { OnErr result (¬ GoesOnFrom (program_tree old.now) (program_tree new.now)) }

    // Else it names the first name that differs, or the text's end where types are missing.
    ensures first { IfErr result (λ fault. IsRefusedAt (program_tree old.now) (program_tree new.now) end fault.at) }
{
    compare_types(
        old.program().types.as_slice(),
        new.program().types.as_slice(),
        end,
    )
}
