ghost use Rattle.std.specs.Prelude.{◌≡◌, List, [], ◌∷◌, ◌++◌};
ghost use Rattle.std.specs.Borrow.{ftrue};
ghost use Rattle.base_types.specs.declared.entries.Entry.{Entry};

use base_types::Entry;
use std::marker::Model;

/// The entries that are emitted, in the order in which they came, for contracts alone.
#[derive(Drop)]
pub struct EmittedEntries {
    pub ghost entries: { List Entry },
}

impl Model for EmittedEntries {
    ghost also_owns = { λ _. ftrue };
}

// A struct with `also_owns` may cross threads only where it is said. This one owns nothing.
unsafe impl Send for EmittedEntries {}

unsafe impl Sync for EmittedEntries {}

impl EmittedEntries {
    /// No entry. Takes no memory.
    pub fn new() -> EmittedEntries
        ensures { result.entries ≡ [] }
    {
        EmittedEntries {}
    }

    /// These with one entry more. Takes no memory, and reads nothing of the entry when it runs.
    pub fn with(_before: &EmittedEntries, _entry: &Entry) -> EmittedEntries
        ensures { result.entries ≡ _before.now.entries ++ _entry.now ∷ [] }
    {
        EmittedEntries {}
    }
}
