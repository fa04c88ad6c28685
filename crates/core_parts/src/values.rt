// When two texts, values, states or outcomes are the same.
ghost use Rattle.std.specs.Prelude.{◌≡◌};
ghost use Rattle.core_model.specs.Equality.{same_text, same_value, same_state, same_outcome};

use crate::lists::{Same, same_items};
use base_types::{Outcome, State, Text, Value};

/// Two texts, byte by byte.
impl Same for Text {
    ghost same = { same_text };

    fn is_same(&self, other: &Text) -> bool {
        self.as_str() == other.as_str()
    }
}

/// Two numbers, or two texts.
impl Same for Value {
    ghost same = { same_value };

    fn is_same(&self, other: &Value) -> bool {
        match (self, other) {
            (Value::Int(ours), Value::Int(theirs)) => ours == theirs,
            (Value::Text(ours), Value::Text(theirs)) => ours.is_same(theirs),
            (Value::Int(_), Value::Text(_)) | (Value::Text(_), Value::Int(_)) => false,
        }
    }
}

/// Two states, field by field.
impl Same for State {
    ghost same = { same_state };

    fn is_same(&self, other: &State) -> bool {
        same_items(self.as_slice(), other.as_slice())
    }
}

/// Two results, two faults, or two aborts.
impl Same for Outcome {
    ghost same = { same_outcome };

    fn is_same(&self, other: &Outcome) -> bool {
        match (self, other) {
            (Outcome::Value(ours), Outcome::Value(theirs)) => ours.is_same(theirs),
            (Outcome::Fault(ours), Outcome::Fault(theirs)) => ours.is_same(theirs),
            (Outcome::Aborted, Outcome::Aborted) => true,
            _ => false,
        }
    }
}
