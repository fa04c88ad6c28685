ghost use Rattle.std.specs.Prelude as std;
ghost use Rattle.std.specs.Prelude.{◌≡◌, ◌==◌, ◌<◌, [], ◌∷◌, ◌++◌, length, is_ok, if◌then◌else◌, slice_get, slice_set, IfOk, IfErr};
ghost use Rattle.std.specs.Option.{option_copied};

use std::alloc::{AllocError, AllocFailed, Global};
use std::marker::Model;

/// A list that keeps the allocator it was made with. Contracts see its items in order.
#[derive(Drop)]
pub struct List<T> {
    items: Vec<T>,
}

impl<T> Model for List<T> {
    ghost Value = { std.List T };

    ghost view = { λ l. l.items.items };
}

/// A value that can be copied where memory is there.
pub trait TryCopy: Drop {
    /// A copy, equal to its source.
    fn try_copy(&self) -> Result<Self, AllocError>
        ensures { IfOk result (λ made. made ≡ self.now) };
}

/// Two values, each with a copy of its own.
impl<A: TryCopy, B: TryCopy> TryCopy for (A, B) {
    fn try_copy(&self) -> Result<(A, B), AllocError> {
        Ok((self.0.try_copy()?, self.1.try_copy()?))
    }
}

impl<T: Copy> List<T> {
    /// A copy of a list of plain items, equal to its source.
    pub fn copied(&self) -> Result<List<T>, AllocError>
        ensures { IfOk result (λ made. made ≡ self.now) }
    {
        let items = Vec::from_slice(*self.items.allocator(), self.items.as_slice())?;
        Ok(List { items })
    }
}

impl<T: TryCopy> List<T> {
    /// A copy, equal to its source.
    pub fn copy(&self) -> Result<List<T>, AllocError>
        ensures { IfOk result (λ made. made ≡ self.now) }
    {
        let mut items = Vec::with_capacity(*self.items.allocator(), self.items.len())?;
        for item in self.items.as_slice() {
            items.push(item.try_copy()?)?;
        }
        Ok(List { items })
    }
}

impl<T> List<T> {
    /// No items. Takes no memory.
    pub fn new(alloc: Global) -> List<T>
        ensures { result ≡ [] }
    {
        List {
            items: Vec::new(alloc),
        }
    }

    /// The items of a `Vec`. Takes no memory.
    pub fn from_vec(items: Vec<T>) -> List<T>
        ensures { result ≡ items.items }
    {
        List { items }
    }

    /// The items as a `Vec`. Takes no memory.
    pub fn into_vec(self) -> Vec<T>
        ensures { result.items ≡ self }
    {
        self.items
    }

    /// How many items there are.
    pub fn len(&self) -> usize
        ensures { result ≡ length self.now }
    {
        self.items.len()
    }

    /// Whether there is no item.
    pub fn is_empty(&self) -> bool
        ensures { result ≡ (length self.now == 0) }
    {
        self.items.is_empty()
    }

    /// The items in order.
    pub fn as_slice(&self) -> &[T]
        ensures { result.now ≡ self.now }
    {
        self.items.as_slice()
    }

    /// The item at an index from 0, none past the end.
    pub fn get(&self, index: usize) -> Option<&T>
        ensures { option_copied result ≡ slice_get self.now index }
    {
        self.items.get(index)
    }

    /// Writes the item at an index. Takes no memory.
    pub fn set(&mut self, index: usize, item: T)
    where
        T: Drop,
        requires { index < length self.old }
        ensures { self.new ≡ slice_set self.old index item }
    {
        self.items[index] = item;
    }

    /// Appends one item. Without memory the list stays as it was, and that very item is handed back.
    pub fn push(&mut self, item: T) -> Result<(), AllocFailed<T>>
        ensures pushed { self.new ≡ (if is_ok result then self.old ++ item ∷ [] else self.old) }
        ensures handed_back { IfErr result (λ refused. refused.value ≡ item) }
    {
        self.items.push(item)
    }
}
