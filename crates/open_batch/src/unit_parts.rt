ghost use Rattle.std.specs.Prelude.{◌≡◌, map, IfOk};
ghost use Rattle.open_batch.specs.Members.{unprepared, sources_of};

use crate::members::FinishedUnit;
use base_types::UnitNo;
use cell_model::Prepared;
use std::alloc::{AllocError, Global};

// The units, before any vote.
pub fn prepared_of(alloc: Global, members: &[FinishedUnit]) -> Result<Vec<Prepared>, AllocError>
    ensures { IfOk result (λ made. made.items ≡ map unprepared members.now) }
{
    let mut prepared = Vec::new(alloc);
    for member in members {
        let deps = member.deps.copy_list()?;
        prepared.push(Prepared {
            unit: member.effect.unit,
            failed: None,
            deps,
        })?;
    }
    Ok(prepared)
}

// The sources of the units, one unit's after the other's.
pub fn sources_of(alloc: Global, members: &[FinishedUnit]) -> Result<Vec<UnitNo>, AllocError>
    ensures { IfOk result (λ made. made.items ≡ sources_of members.now) }
{
    let mut sources = Vec::new(alloc);
    for member in members {
        sources.extend_from_slice(member.deps.list())?;
    }
    Ok(sources)
}
