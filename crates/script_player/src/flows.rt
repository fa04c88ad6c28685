use base_types::{Text, Value};

/// Where a statement leads, if not to the unit's end.
#[derive(Drop)]
pub enum Flow {
    /// To what follows it.
    Next,
    /// Out of the method, with a value.
    Return(Value),
}

/// Where a call leads, if not to the unit's end.
#[derive(Drop)]
pub enum Answer {
    /// To its value.
    Value(Value),
    /// To the fault of a unit of its own, which the caller may catch.
    Caught(Text),
}
