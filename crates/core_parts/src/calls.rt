// When two calls, origins or reads are the same.
ghost use Rattle.std.specs.Prelude.{◌≡◌};
ghost use Rattle.core_model.specs.Equality.{same_call, same_origin, same_read};

use crate::lists::Same;
use base_types::{Call, Origin};
use core_model::Read;

/// Two calls: grain, method and arguments.
impl Same for Call {
    ghost same = { same_call };

    fn is_same(&self, other: &Call) -> bool {
        self.grain == other.grain && self.method == other.method && self.args.is_same(&other.args)
    }
}

/// Two lines of one number, or one child of one parent.
impl Same for Origin {
    ghost same = { same_origin };

    fn is_same(&self, other: &Origin) -> bool {
        match (*self, *other) {
            (Origin::Line(ours), Origin::Line(theirs)) => ours == theirs,
            (
                Origin::Child {
                    parent,
                    index,
                    depth,
                },
                Origin::Child {
                    parent: other_parent,
                    index: other_index,
                    depth: other_depth,
                },
            ) => parent == other_parent && index == other_index && depth == other_depth,
            _ => false,
        }
    }
}

/// Two reads: grain, state and source.
impl Same for Read {
    ghost same = { same_read };

    fn is_same(&self, other: &Read) -> bool {
        self.grain == other.grain && self.state.is_same(&other.state) && self.source == other.source
    }
}
