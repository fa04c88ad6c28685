ghost use Rattle.std.specs.Prelude.{◌≡◌, [], ◌++◌, IfOk, IfErr, OnOk, OnErr, IsSome};
ghost use Rattle.std.specs.Option.{option_copied};
ghost use Rattle.std.specs.BTreeMap.{is_at};
ghost use Rattle.std.specs.Map.{keys_of, lookup};
ghost use Rattle.std.specs.List.Sorted.{IsStrictlySortedBy};
ghost use Rattle.base_types.specs.MapEntries.{IsPlaceOf, IsGapFor, SetsValue};

use std::alloc::{AllocError, Global};
use std::collections::BTreeMap;
use std::marker::Model;

/// A map from keys to values that takes little memory where its keys come in ascending order: such keys stand in a vector, one behind
/// the other, and only a key that comes later than a greater one goes to a tree. So an entry of the vector takes its own bytes, and no
/// more than as many again while the vector has room for what follows. Contracts see its entries, each a key and its value: the first that has a key tells what it has.
#[derive(Drop)]
pub struct AscendingMap<K: Ord, V> {
    // Those whose keys came in ascending order.
    ascending: Vec<(K, V)>,
    // The others.
    others: BTreeMap<K, V>,
}

impl<K: Ord, V> Model for AscendingMap<K, V> {
    ghost use Rattle.std.specs.Prelude.{◌++◌, List};
    ghost use Rattle.std.specs.Map.{keys_of};
    ghost use Rattle.std.specs.List.Sorted.{IsStrictlySortedBy};

    ghost Value = { List (K × V) };

    ghost view = { λ m. m.ascending.items ++ m.others.entries };

    ghost invariant = { λ m. IsStrictlySortedBy K.cmp (keys_of m.ascending.items) };
}

// Where a key stands among ascending ones, or where it would stand.
fn place_of<K: Ord + Copy, V>(entries: &[(K, V)], key: &K) -> Result<usize, usize>
    requires { IsStrictlySortedBy K.cmp (keys_of entries.now) }
    ensures found { IfOk result (IsPlaceOf K.cmp key.now entries.now) }
    ensures absent { IfErr result (IsGapFor K.cmp key.now entries.now) }
{
    entries.binary_search_by_key(key, |entry| entry.0)
}

/// Adds the keys of a tree to others.
pub fn add_keys<K: Ord + Copy, V>(
    keys: &mut Vec<K>,
    tree: &BTreeMap<K, V>,
) -> Result<(), AllocError>
    ensures { OnOk result (keys.new.items ≡ keys.old.items ++ keys_of tree.now.entries) }
{
    for key in tree.keys() {
        keys.push(*key)?;
    }
    Ok(())
}

impl<K: Ord + Copy, V: Drop> AscendingMap<K, V> {
    /// No key. Takes no memory.
    pub fn new(alloc: Global) -> AscendingMap<K, V>
        ensures { result ≡ [] }
    {
        AscendingMap {
            ascending: Vec::new(alloc),
            others: BTreeMap::new(alloc),
        }
    }

    /// The value of a key, none where the key isn't there.
    pub fn get(&self, key: K) -> Option<&V>
        ensures { option_copied result ≡ lookup (is_at (K.cmp key)) self.now }
    {
        match place_of(self.ascending.as_slice(), &key) {
            Ok(at) => Some(&self.ascending[at].1),
            Err(_) => self.others.get(&key),
        }
    }

    /// The keys, some perhaps twice.
    pub fn keys(&self, alloc: Global) -> Result<Vec<K>, AllocError>
        ensures { IfOk result (λ keys. keys.items ≡ keys_of self.now) }
    {
        let mut keys = Vec::with_capacity(alloc, self.ascending.len())?;
        for entry in self.ascending.iter() {
            keys.push(entry.0)?;
        }
        add_keys(&mut keys, &self.others)?;
        Ok(keys)
    }

    /// Gives a key a value, in place of the one that it has, if it has one. Without memory all stays as it was.
    pub fn insert(&mut self, key: K, value: V) -> Result<(), AllocError>
        ensures ok { OnOk result (SetsValue K.cmp self.old self.new key value) }
        ensures kept { OnErr result (self.new ≡ self.old) }
    {
        match place_of(self.ascending.as_slice(), &key) {
            Ok(at) => {
                self.ascending[at].1 = value;
                Ok(())
            }
            Err(at) => {
                if at == self.ascending.len() {
                    self.ascending.push((key, value))?;
                    return Ok(());
                }
                self.others.insert(key, value)?;
                Ok(())
            }
        }
    }

    /// Gives a key that is there another value. Takes no memory.
    pub fn replace(&mut self, key: K, value: V)
        requires { IsSome (lookup (is_at (K.cmp key)) self.old) }
        ensures { SetsValue K.cmp self.old self.new key value }
    {
        match place_of(self.ascending.as_slice(), &key) {
            Ok(at) => self.ascending[at].1 = value,
            Err(_) => {
                if let Some(place) = self.others.get_mut(&key) {
                    *place = value;
                }
            }
        }
    }
}
