ghost use Rattle.std.specs.Prelude.{◌≡◌, List as Items, Bool};
ghost use Rattle.core_model.specs.Equality.{same_list};

use base_types::List;

/// A type with a test whether two of its values are one.
pub trait Same {
    /// Whether the two are one.
    ghost same: { Self → Self → Bool };

    /// Whether this one and the other are one.
    fn is_same(&self, other: &Self) -> bool
        ensures { result ≡ same self.now other.now };
}

/// Two lists, item by item.
impl<T: Same> Same for List<T> {
    ghost same = { same_list T.same };

    fn is_same(&self, other: &List<T>) -> bool {
        same_items(self.as_slice(), other.as_slice())
    }
}

/// Whether the two have as many items, each the same as the other's at its place.
pub fn same_items<T: Same>(ours: &[T], theirs: &[T]) -> bool
    ensures { result ≡ same_list T.same ours.now theirs.now }
{
    if ours.len() != theirs.len() {
        return false;
    }
    for index in 0..ours.len() {
        if !ours[index].is_same(&theirs[index]) {
            return false;
        }
    }
    true
}
