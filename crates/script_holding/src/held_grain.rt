ghost use Rattle.std.specs.Prelude.{◌≡◌};
ghost use Rattle.script_holding.specs.Holding.{change, raised, same_grain, with_field};

use base_types::{GrainId, Mode, State, Value};

/// A grain that a unit holds: how it is locked, the unit's working state of it, and whether a field was set.
#[derive(Drop)]
pub struct Held {
    pub grain: GrainId,
    pub mode: Mode,
    pub state: State,
    pub written: bool,
}

/// Whether the two are one grain.
pub fn same_grain(one: GrainId, other: GrainId) -> bool
    ensures { result ≡ same_grain one other }
{
    one.kind == other.kind && one.key == other.key
}

/// A shared lock becomes exclusive.
fn raise_held(one: &mut Held)
    ensures { one.new ≡ raised one.old }
{
    one.mode = Mode::Update;
}

/// A field of the working state gets a value. A field that isn't there is left alone.
fn set_held(one: &mut Held, field: usize, value: Value)
    ensures { one.new ≡ with_field field value one.old }
{
    if field < one.state.len() {
        one.state.set(field, value);
    }
    one.written = true;
}

/// Makes a held grain's lock exclusive.
pub fn raise_at(held: &mut Vec<Held>, grain: GrainId)
    ensures { held.new.items ≡ change grain raised held.old.items }
{
    for i in 0..held.len() {
        if same_grain(held[i].grain, grain) {
            raise_held(&mut held[i]);
            return;
        }
    }
}

/// Gives a field of a held grain's working state a value.
pub fn set_at(held: &mut Vec<Held>, grain: GrainId, field: usize, value: Value)
    ensures { held.new.items ≡ change grain (with_field field value) held.old.items }
{
    for i in 0..held.len() {
        if same_grain(held[i].grain, grain) {
            set_held(&mut held[i], field, value);
            return;
        }
    }
}
