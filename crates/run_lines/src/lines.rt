ghost use Rattle.std.specs.Prelude.{◌≡◌, List, IfOk, slice_get};
ghost use Rattle.request_wire.specs.declared.requests.Line.{Line as ALine};

use request_wire::Line;
use std::alloc::{AllocError, Global};

/// The lines of a run, by their places.
pub trait Lines {
    /// All lines, in order.
    ghost lines: { Self → List ALine };

    /// The line at this place, from 0; none behind the last. Cheap where places go up. The one error is want of memory.
    fn line_at(&mut self, alloc: Global, place: usize) -> Result<Option<Line>, AllocError>
        ensures same { lines self.new ≡ lines self.old }
        ensures line { IfOk result (λ line. line ≡ slice_get (lines self.old) place) };
}
