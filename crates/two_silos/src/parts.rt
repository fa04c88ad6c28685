ghost use Rattle.std.specs.Prelude.{◌≡◌, is_some};
ghost use Rattle.std.specs.List.{list_all};
ghost use Rattle.silo_nodes.specs.Packets.{is_before, is_ascending};
ghost use Rattle.silo_nodes.specs.LogCache.{opening_in};
ghost use Rattle.two_silos.specs.World.{is_part, has_grain};
ghost use Rattle.two_silos.specs.Links.{follows};

use base_types::GrainId;
use silo_nodes::{Part, Participant, Shift};

/// Whether each part is of a participant that is there and has its grains, and its grains ascend.
pub fn are_parts(nodes: &[Participant], parts: &[Part]) -> bool
    ensures { result ≡ list_all (is_part nodes.now) parts.now }
{
    for part in parts {
        if !is_part(nodes, part) {
            return false;
        }
    }
    true
}

// Whether one part is.
fn is_part(nodes: &[Participant], part: &Part) -> bool
    ensures { result ≡ is_part nodes.now part.now }
{
    let Some(node) = nodes.get(part.node as usize) else {
        return false;
    };
    is_ascending(part.shifts.as_slice()) && has_grains(node, part.shifts.as_slice())
}

// Whether the participant has these grains.
fn has_grains(node: &Participant, shifts: &[Shift]) -> bool
    ensures { result ≡ list_all (has_grain node.now) shifts.now }
{
    for shift in shifts {
        if !has_grain(node, shift.grain) {
            return false;
        }
    }
    true
}

// Whether the participant has the grain.
fn has_grain(node: &Participant, grain: GrainId) -> bool
    ensures { result ≡ is_some (opening_in node.now.opening grain) }
{
    node.balance(grain).is_some()
}

// Whether the grains of the shifts ascend.
fn is_ascending(shifts: &[Shift]) -> bool
    ensures { result ≡ is_ascending shifts.now }
{
    let mut previous = None;
    for shift in shifts {
        if !follows(previous, shift) {
            return false;
        }
        previous = Some(shift.grain);
    }
    true
}

// Whether the shift's grain comes after the one before it, if there is one.
fn follows(previous: Option<GrainId>, shift: &Shift) -> bool
    ensures { result ≡ follows previous shift.now.grain }
{
    match previous {
        Some(before) => is_before(before, shift.grain),
        None => true,
    }
}

// Whether the first grain comes before the second.
fn is_before(a: GrainId, b: GrainId) -> bool
    ensures { result ≡ is_before a b }
{
    a.kind < b.kind || (a.kind == b.kind && a.key < b.key)
}
