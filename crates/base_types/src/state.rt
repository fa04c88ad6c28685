ghost use Rattle.std.specs.Prelude.{◌≡◌, ◌≤◌, ◌<◌, ◌+◌, [], ◌∷◌, ◌++◌, length, is_ok, if◌then◌else◌, slice_get, slice_set, IfOk, IfErr};
ghost use Rattle.std.specs.Option.{option_copied};

use crate::calls::Value;
use crate::limits::STATE_LIMIT;
use crate::list::{List, TryCopy};
use std::alloc::{AllocError, AllocFailed, Global};
use std::marker::Model;

/// A grain's state: one value per field of its type, in the order of the fields, at most [`STATE_LIMIT`].
/// Contracts see the list of the values.
#[derive(Drop)]
pub struct State {
    values: List<Value>,
}

impl Model for State {
    ghost use Rattle.std.specs.Prelude.{◌≤◌, List, length};
    ghost use Rattle.base_types.specs.declared.calls.Value.{Value as GrainValue};

    ghost Value = { List GrainValue };

    ghost view = { λ s. s.values };

    ghost invariant = { λ s. length s.values ≤ 64 };
}

impl State {
    /// No values. Takes no memory.
    pub fn new(alloc: Global) -> State
        ensures { result ≡ [] }
    {
        State {
            values: List::new(alloc),
        }
    }

    /// These values. Takes no memory.
    pub fn from_list(values: List<Value>) -> State
        requires { length values ≤ STATE_LIMIT }
        ensures { result ≡ values }
    {
        State { values }
    }

    /// How many values there are.
    pub fn len(&self) -> usize
        ensures count { result ≡ length self.now }
        ensures within { result ≤ STATE_LIMIT }
    {
        self.values.len()
    }

    /// The values in order.
    pub fn as_slice(&self) -> &[Value]
        ensures { result.now ≡ self.now }
    {
        self.values.as_slice()
    }

    /// The value of a field, by its index from 0, none past the end.
    pub fn get(&self, field: usize) -> Option<&Value>
        ensures { option_copied result ≡ slice_get self.now field }
    {
        self.values.get(field)
    }

    /// Appends a value. Without memory the state stays as it was, and that very value is handed back.
    pub fn push(&mut self, value: Value) -> Result<(), AllocFailed<Value>>
        requires { length self.old < STATE_LIMIT }
        ensures pushed { self.new ≡ (if is_ok result then self.old ++ value ∷ [] else self.old) }
        ensures handed_back { IfErr result (λ refused. refused.value ≡ value) }
    {
        self.values.push(value)
    }

    /// Gives a field a value. Takes no memory.
    pub fn set(&mut self, field: usize, value: Value)
        requires { field < length self.old }
        ensures { self.new ≡ slice_set self.old field value }
    {
        self.values.set(field, value)
    }

    /// A copy, equal to its source.
    pub fn copy(&self) -> Result<State, AllocError>
        ensures { IfOk result (λ made. made ≡ self.now) }
    {
        let values = self.values.copy()?;
        Ok(State { values })
    }
}

impl TryCopy for State {
    fn try_copy(&self) -> Result<State, AllocError> {
        self.copy()
    }
}
