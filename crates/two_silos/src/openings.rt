ghost use Rattle.std.specs.Prelude.{◌≡◌, ◌≤◌, length, IfOk};
ghost use Rattle.two_silos.specs.World.{IsOpening, nodes_from};

use base_types::{GrainId, List};
use silo_nodes::Participant;
use std::alloc::{AllocError, Global};

/// The participants of these opening balances, numbered from 0.
pub fn nodes_of(
    openings: &[List<(GrainId, i64)>],
    alloc: Global,
) -> Result<Vec<Participant>, AllocError>
    requires few { length openings.now ≤ 8 }
    requires balances { IsOpening openings.now }
    ensures { IfOk result (λ nodes. nodes.items ≡ nodes_from 0 openings.now) }
{
    let mut nodes = Vec::new(alloc);
    for (at, opening) in openings.iter().enumerate() {
        let balances = copied(opening.as_slice(), alloc)?;
        let node = Participant::new(at as u8, balances, alloc)?;
        nodes.push(node)?;
    }
    Ok(nodes)
}

// A copy of the balances.
fn copied(balances: &[(GrainId, i64)], alloc: Global) -> Result<List<(GrainId, i64)>, AllocError>
    ensures { IfOk result (λ made. made ≡ balances.now) }
{
    let mut made = Vec::new(alloc);
    for balance in balances {
        made.push(*balance)?;
    }
    Ok(List::from_vec(made))
}
