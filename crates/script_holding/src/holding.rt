ghost use Rattle.std.specs.Prelude.{◌≡◌, ◌≤◌, ◌-◌, [], ◌∷◌, ◌++◌, length, nat_lt, OnOk, OnErr, IfOk, nat_eq, if◌then◌else◌};
ghost use Rattle.script_holding.specs.Limits.{step_limit, unit_limit, grain_limit};
ghost use Rattle.script_holding.specs.Holding.{change, initial_fields, mode_at, newly_held, one_asked, raised, state_at, with_field, with_held, with_left};

use crate::held_grain::{Held, raise_at, same_grain, set_at};
use crate::limits::{GRAIN_LIMIT, STEP_LIMIT, UNIT_LIMIT};
use base_types::{GrainId, Mode, State, Value};
use script_check::initial_state;
use script_tree::FieldDecl;
use std::alloc::{AllocError, Global};
use std::marker::Model;

/// What a unit has while it runs: the steps that are left, how many units it asked for, and the grains that it
/// holds in the order of their first locks.
#[derive(Drop)]
pub struct Holding {
    left: u32,
    asked: u32,
    held: Vec<Held>,
}

impl Model for Holding {
    ghost use Rattle.script_holding.specs.Holding.{Holding as Has};

    ghost Value = { Has };

    ghost view = { λ h. record { left = h.left; asked = h.asked; held = h.held.items } };
}

impl Holding {
    /// What a unit has when it begins: all its steps, and nothing held. Takes no memory.
    pub fn new(alloc: Global) -> Holding
        ensures { result ≡ record { left = step_limit; asked = 0; held = [] } }
    {
        Holding {
            left: STEP_LIMIT,
            asked: 0,
            held: Vec::new(alloc),
        }
    }

    /// Takes a step. False exactly where none is left, and nothing changes then.
    pub fn take_step(&mut self) -> bool
        ensures there { result ≡ nat_lt 0 self.old.left }
        ensures taken { self.new ≡ with_left (self.old.left - 1) self.old }
    {
        if self.left == 0 {
            return false;
        }
        self.left -= 1;
        true
    }

    /// Counts a unit of its own that the unit asks for. False exactly where it has asked for as many as it may,
    /// and nothing changes then.
    pub fn ask_unit(&mut self) -> bool
        ensures there { result ≡ nat_lt self.old.asked unit_limit }
        ensures counted { self.new ≡ (if result then one_asked self.old else self.old) }
    {
        if self.asked >= UNIT_LIMIT {
            return false;
        }
        self.asked += 1;
        true
    }

    /// The grains that it holds, in the order of their first locks.
    pub fn held(&self) -> &[Held]
        ensures { result.now ≡ self.now.held }
    {
        self.held.as_slice()
    }

    /// The same, handed out. Takes no memory.
    pub fn into_held(self) -> Vec<Held>
        ensures { result.items ≡ self.held }
    {
        self.held
    }

    /// How a grain is locked, none where it isn't held.
    pub fn mode_of(&self, grain: GrainId) -> Option<Mode>
        ensures { result ≡ mode_at grain self.now.held }
    {
        for one in &self.held {
            if same_grain(one.grain, grain) {
                return Some(one.mode);
            }
        }
        None
    }

    /// Whether one more grain may be held.
    pub fn has_room(&self) -> bool
        ensures { result ≡ nat_lt (length self.now.held) grain_limit }
    {
        self.held.len() < GRAIN_LIMIT
    }

    /// Holds a grain from now on, which was found with this state. Its working state begins with the type's
    /// fields where the state found has another number of values. Without memory nothing changes.
    pub fn lock(
        &mut self,
        grain: GrainId,
        mode: Mode,
        fields: &[FieldDecl],
        found: State,
    ) -> Result<(), AllocError>
        requires { length fields.now ≤ 64 }
        ensures ok { OnOk result (self.new ≡ with_held self.old (self.old.held ++ newly_held grain mode fields.now found ∷ [])) }
        ensures err { OnErr result (self.new ≡ self.old) }
    {
        let one = take_hold(*self.held.allocator(), grain, mode, fields, found)?;
        self.held.push(one)?;
        Ok(())
    }

    /// Makes a held grain's lock exclusive.
    pub fn raise(&mut self, grain: GrainId)
        ensures { self.new ≡ with_held self.old (change grain raised self.old.held) }
    {
        raise_at(&mut self.held, grain);
    }

    /// A held grain's working state, no values where it isn't held.
    pub fn state_of(&self, grain: GrainId) -> &[Value]
        ensures { result.now ≡ state_at grain self.now.held }
    {
        for one in &self.held {
            if same_grain(one.grain, grain) {
                return one.state.as_slice();
            }
        }
        &[]
    }

    /// Gives a field of a held grain's working state a value, by its number from 0.
    pub fn set_field(&mut self, grain: GrainId, field: usize, value: Value)
        ensures { self.new ≡ with_held self.old (change grain (with_field field value) self.old.held) }
    {
        set_at(&mut self.held, grain, field, value);
    }
}

/// A grain that is locked, not yet among those held.
fn take_hold(
    alloc: Global,
    grain: GrainId,
    mode: Mode,
    fields: &[FieldDecl],
    found: State,
) -> Result<Held, AllocError>
    requires { length fields.now ≤ 64 }
    ensures { IfOk result (λ one. one ≡ newly_held grain mode fields.now found) }
{
    let state = begun(alloc, fields, found)?;
    Ok(Held {
        grain,
        mode,
        state,
        written: false,
    })
}

/// The state found, or the type's first fields where it has another number of values.
fn begun(alloc: Global, fields: &[FieldDecl], found: State) -> Result<State, AllocError>
    requires { length fields.now ≤ 64 }
    ensures { IfOk result (λ state. state ≡ (if nat_eq (length found) (length fields.now) then found else initial_fields fields.now)) }
{
    if found.len() == fields.len() {
        return Ok(found);
    }
    initial_state(alloc, fields)
}
