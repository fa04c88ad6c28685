// Copies of the core's entries.
ghost use Rattle.std.specs.Prelude.{◌≡◌, IfOk};

use crate::effects::{Effect, Read};
use base_types::TryCopy;
use std::alloc::AllocError;

impl Read {
    /// A copy, equal to its source.
    pub fn copy(&self) -> Result<Read, AllocError>
        ensures { IfOk result (λ made. made ≡ self.now) }
    {
        Ok(Read {
            grain: self.grain,
            state: self.state.copy()?,
            source: self.source,
        })
    }
}

impl TryCopy for Read {
    fn try_copy(&self) -> Result<Read, AllocError> {
        self.copy()
    }
}

impl Effect {
    /// A copy, equal to its source.
    pub fn copy(&self) -> Result<Effect, AllocError>
        ensures { IfOk result (λ made. made ≡ self.now) }
    {
        Ok(Effect {
            unit: self.unit,
            origin: self.origin,
            call: self.call.copy()?,
            answers: self.answers.copy()?,
            reads: self.reads.copy()?,
            writes: self.writes.copy()?,
            result: self.result.copy()?,
        })
    }
}

impl TryCopy for Effect {
    fn try_copy(&self) -> Result<Effect, AllocError> {
        self.copy()
    }
}
