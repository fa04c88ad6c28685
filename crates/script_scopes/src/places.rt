ghost use Rattle.std.specs.Prelude.{◌≡◌, ℕ, List, Some, None, bytes_eq, OnOk, OnErr};
ghost use Rattle.std.specs.Map.{update};
ghost use Rattle.script_scopes.specs.Places.{place_in};

use script_tree::Chars;
use std::alloc::{AllocError, Global};
use std::collections::BTreeMap;

/// The places of names in a list. Each call takes time in the logarithm of how many names have one.
#[derive(Drop)]
pub struct NamePlaces {
    map: BTreeMap<String, usize>,
}

impl NamePlaces {
    /// No name has a place. Takes no memory.
    pub fn new(alloc: Global) -> NamePlaces
        ensures { (name : List ℕ) → place_in result name ≡ None }
    {
        NamePlaces {
            map: BTreeMap::new(alloc),
        }
    }

    /// The place of a name.
    pub fn find(&self, name: &Chars) -> Option<usize>
        ensures { result ≡ place_in self.now name.now }
    {
        self.map.get(name.as_str()).copied()
    }

    /// Gives a name a place. Without memory all stay as they were.
    pub fn note(&mut self, alloc: Global, name: &Chars, at: usize) -> Result<(), AllocError>
        ensures ok { OnOk result ((other : List ℕ) →
            place_in self.new other ≡ update bytes_eq (place_in self.old) name.now (Some at) other) }
        ensures err { OnErr result ((other : List ℕ) →
            place_in self.new other ≡ place_in self.old other) }
    {
        let key = String::from_str(alloc, name.as_str())?;
        self.map.insert(key, at)?;
        Ok(())
    }

    /// Takes a name's place away.
    pub fn forget(&mut self, name: &Chars)
        ensures { (other : List ℕ) →
            place_in self.new other ≡ update bytes_eq (place_in self.old) name.now None other }
    {
        self.map.remove(name.as_str());
    }
}
