ghost use Rattle.std.specs.Prelude.{◌≡◌, ◌==◌, [], ◌∷◌, ◌++◌, length, is_ok, if◌then◌else◌, slice_get, IfErr};
ghost use Rattle.std.specs.Option.{option_copied};

use std::alloc::{AllocFailed, Global};

/// A list of any length. Contracts see it as `list.items`.
#[derive(Drop)]
pub struct Items<T> {
    pub list: Vec<T>,
}

impl<T> Items<T> {
    /// No items. Takes no memory.
    pub fn new(alloc: Global) -> Items<T>
        ensures { result.list.items ≡ [] }
    {
        Items {
            list: Vec::new(alloc),
        }
    }

    /// How many items there are.
    pub fn len(&self) -> usize
        ensures { result ≡ length self.now.list.items }
    {
        self.list.len()
    }

    /// Whether there is no item.
    pub fn is_empty(&self) -> bool
        ensures { result ≡ (length self.now.list.items == 0) }
    {
        self.list.is_empty()
    }

    /// The items in order.
    pub fn as_slice(&self) -> &[T]
        ensures { result.now ≡ self.now.list.items }
    {
        self.list.as_slice()
    }

    /// The item at an index from 0, none past the end.
    pub fn get(&self, index: usize) -> Option<&T>
        ensures { option_copied result ≡ slice_get self.now.list.items index }
    {
        self.list.get(index)
    }

    /// Appends one item. Without memory the list stays as it was and the item is handed back.
    pub fn push(&mut self, item: T) -> Result<(), AllocFailed<T>>
        ensures pushed { self.new.list.items ≡
            (if is_ok result then self.old.list.items ++ item ∷ [] else self.old.list.items) }
        ensures handed_back { IfErr result (λ refused. refused.value ≡ item) }
    {
        self.list.push(item)
    }
}
