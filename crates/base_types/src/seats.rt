ghost use Rattle.std.specs.Prelude.{◌≡◌, [], ◌++◌, true, Some, IfOk, OnOk, OnErr};
ghost use Rattle.std.specs.Option.{option_copied};
ghost use Rattle.std.specs.Map.{keys_of};
ghost use Rattle.std.specs.Ordering.{eq_by_cmp};
ghost use Rattle.std.specs.Set.{is_member};
ghost use Rattle.std.specs.List.Sorted.{IsStrictlySortedBy};
ghost use Rattle.base_types.specs.MapEntries.{SetsValue};
ghost use Rattle.base_types.specs.Seats.{value_in, has_seat, KeepsSeats};

use crate::ascending_map::{AscendingMap, add_keys};
use std::alloc::{AllocError, Global};
use std::collections::BTreeMap;
use std::marker::Model;

/// A map in which room may be made for a key's value before the key has one. Contracts see its entries, each a key and what it has, none
/// where it has room alone.
#[derive(Drop)]
pub struct Seats<K: Ord, V> {
    values: AscendingMap<K, V>,
    // The keys for which room was made before they had a value, with what they have got since.
    rooms: BTreeMap<K, Option<V>>,
}

impl<K: Ord, V> Model for Seats<K, V> {
    ghost use Rattle.std.specs.Prelude.{◌++◌, List, Option};
    ghost use Rattle.base_types.specs.Seats.{filled};

    ghost Value = { List (K × Option V) };

    ghost view = { λ m. filled m.values ++ m.rooms.entries };
}

// Gives a seat a value, in place of the one that it has, if it has one.
fn fill<V: Drop>(seat: &mut Option<V>, value: V)
    ensures { seat.new ≡ Some value }
{
    *seat = Some(value);
}

impl<K: Ord + Copy, V: Drop> Seats<K, V> {
    /// No key. Takes no memory.
    pub fn new(alloc: Global) -> Seats<K, V>
        ensures { result ≡ [] }
    {
        Seats {
            values: AscendingMap::new(alloc),
            rooms: BTreeMap::new(alloc),
        }
    }

    /// The value of a key, none where it has none.
    pub fn get(&self, key: K) -> Option<&V>
        ensures { option_copied result ≡ value_in K.cmp self.now key }
    {
        match self.values.get(key) {
            Some(value) => Some(value),
            None => match self.rooms.get(&key) {
                Some(seat) => seat.as_ref(),
                None => None,
            },
        }
    }

    /// The keys that have a value or room for one, in ascending order, each once.
    pub fn keys(&self, alloc: Global) -> Result<Vec<K>, AllocError>
        ensures listed { IfOk result (λ keys. (key : K) → is_member (eq_by_cmp K.cmp) keys.items key ≡ has_seat K.cmp self.now key) }
        ensures ordered { IfOk result (λ keys. IsStrictlySortedBy K.cmp keys.items) }
    {
        let mut keys = self.values.keys(alloc)?;
        add_keys(&mut keys, &self.rooms)?;
        keys.sort()?;
        keys.dedup();
        Ok(keys)
    }

    /// Gives a key a value. Without memory all stays as it was.
    pub fn put(&mut self, key: K, value: V) -> Result<(), AllocError>
        ensures ok { OnOk result (SetsValue K.cmp self.old self.new key (Some value)) }
        ensures kept { OnErr result (self.new ≡ self.old) }
        ensures room { KeepsSeats K.cmp self.old self.new }
    {
        self.values.insert(key, value)?;
        Ok(())
    }

    // Whether a key has a value, or room for one.
    fn has_seat(&self, key: K) -> bool
        ensures { result ≡ has_seat K.cmp self.now key }
    {
        match self.values.get(key) {
            Some(_) => true,
            None => self.rooms.contains_key(&key),
        }
    }

    /// Makes room for a key's value, so that `replace` takes no memory. Changes no value, and takes no room away, whether there was
    /// memory or not.
    pub fn room(&mut self, key: K) -> Result<(), AllocError>
        ensures made { OnOk result (has_seat K.cmp self.new key ≡ true) }
        ensures same { (other : K) → value_in K.cmp self.new other ≡ value_in K.cmp self.old other }
        ensures room { KeepsSeats K.cmp self.old self.new }
    {
        if self.has_seat(key) {
            return Ok(());
        }
        self.rooms.insert(key, None)?;
        Ok(())
    }

    /// Gives a key that has room a value, in place of the one that it has, if it has one. Takes no memory.
    pub fn replace(&mut self, key: K, value: V)
        requires { has_seat K.cmp self.old key ≡ true }
        ensures sets { SetsValue K.cmp self.old self.new key (Some value) }
        ensures room { KeepsSeats K.cmp self.old self.new }
    {
        if self.values.get(key).is_some() {
            self.values.replace(key, value);
            return;
        }
        if let Some(seat) = self.rooms.get_mut(&key) {
            fill(seat, value);
        }
    }
}
