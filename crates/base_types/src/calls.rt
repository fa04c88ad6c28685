ghost use Rattle.std.specs.Prelude.{◌≡◌, IfOk};
ghost use Rattle.base_types.specs.Origins.{depth_of};

use crate::list::{List, TryCopy};
use crate::text::Text;
use std::alloc::AllocError;

/// The number of a unit, which is one run of a call. Units are numbered from 1 in the order in which they
/// begin, and a lower number is older. Number 0 is nobody, and names the opening state.
#[derive(Clone, Copy, Debug, PartialEq, Eq, PartialOrd, Ord)]
pub struct UnitNo(pub u64);

impl TryCopy for UnitNo {
    fn try_copy(&self) -> Result<UnitNo, AllocError> {
        Ok(*self)
    }
}

/// A grain: the number of its type in the program, from 0, and its key. Grains are ordered by type, then key.
#[derive(Clone, Copy, Debug, PartialEq, Eq, PartialOrd, Ord, Hash)]
pub struct GrainId {
    pub kind: u16,
    pub key: u32,
}

impl TryCopy for GrainId {
    fn try_copy(&self) -> Result<GrainId, AllocError> {
        Ok(*self)
    }
}

/// A value of the grain language.
#[derive(Drop)]
pub enum Value {
    Int(i64),
    Text(Text),
}

impl Value {
    /// A copy, equal to its source.
    pub fn copy(&self) -> Result<Value, AllocError>
        ensures { IfOk result (λ made. made ≡ self.now) }
    {
        match self {
            Value::Int(number) => Ok(Value::Int(*number)),
            Value::Text(text) => Ok(Value::Text(text.copy()?)),
        }
    }
}

impl TryCopy for Value {
    fn try_copy(&self) -> Result<Value, AllocError> {
        self.copy()
    }
}

/// A call of a method on a grain: the number of the method in its type, from 0, and the arguments, at most 8.
#[derive(Drop)]
pub struct Call {
    pub grain: GrainId,
    pub method: u16,
    pub args: List<Value>,
}

impl Call {
    /// A copy, equal to its source.
    pub fn copy(&self) -> Result<Call, AllocError>
        ensures { IfOk result (λ made. made ≡ self.now) }
    {
        Ok(Call {
            grain: self.grain,
            method: self.method,
            args: self.args.copy()?,
        })
    }
}

/// How a unit ended: with a value, with a fault of its method, or aborted.
#[derive(Drop)]
pub enum Outcome {
    Value(Value),
    Fault(Text),
    Aborted,
}

impl Outcome {
    /// A copy, equal to its source.
    pub fn copy(&self) -> Result<Outcome, AllocError>
        ensures { IfOk result (λ made. made ≡ self.now) }
    {
        match self {
            Outcome::Value(value) => Ok(Outcome::Value(value.copy()?)),
            Outcome::Fault(text) => Ok(Outcome::Fault(text.copy()?)),
            Outcome::Aborted => Ok(Outcome::Aborted),
        }
    }
}

impl TryCopy for Outcome {
    fn try_copy(&self) -> Result<Outcome, AllocError> {
        self.copy()
    }
}

/// How a grain is locked: shared with other readers, or for one unit alone.
#[derive(Clone, Copy, Debug, PartialEq, Eq)]
pub enum Mode {
    Read,
    Update,
}

/// What a unit is the run of: a request line of this run, counted from 1, or a nested call.
///
/// `index` counts the parent's answers from 0. `depth` is the depth of the child's first frame, where a
/// line's has depth 1.
#[derive(Clone, Copy, Debug, PartialEq, Eq)]
pub enum Origin {
    Line(u32),
    Child {
        parent: UnitNo,
        index: u32,
        depth: u16,
    },
}

impl Origin {
    /// The depth of the unit's first frame: 1 of a line's.
    pub fn depth(&self) -> u16
        ensures { result ≡ depth_of self.now }
    {
        match self {
            Origin::Line(_line) => 1,
            Origin::Child {
                parent: _parent,
                index: _index,
                depth,
            } => *depth,
        }
    }
}
