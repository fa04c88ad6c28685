ghost use Rattle.std.specs.Prelude.{◌≡◌, ◌-◌, ◌∷◌, ◌++◌, [], IfOk, is_ok, if◌then◌else◌, length, map, take};
ghost use Rattle.script_scopes.specs.Names.{is_in};

use crate::places::NamePlaces;
use script_tree::Chars;
use std::alloc::{AllocError, Global};
use std::marker::Model;

/// The names in scope, the first declared first. A look-up takes time in the logarithm of how many there are,
/// and so do a name more and a name that leaves.
#[derive(Drop)]
pub struct InScope<'a> {
    list: Vec<&'a Chars>,
    places: NamePlaces,
}

impl<'a> Model for InScope<'a> {
    ghost use Rattle.std.specs.Prelude.{map};
    ghost use Rattle.script_scopes.specs.NamesInScope.{NamesInScope};

    ghost Value = { NamesInScope };

    ghost use Rattle.script_scopes.specs.Places.{HasPlaces};

    ghost view = { λ s. record { items = s.list.items } };

    ghost invariant = { λ s. HasPlaces s.places (map (λ n. n.now) s.list.items) };
}

impl<'a> InScope<'a> {
    /// No names. Takes no memory.
    pub fn new(alloc: Global) -> InScope<'a>
        ensures { result.items ≡ [] }
    {
        InScope {
            list: Vec::new(alloc),
            places: NamePlaces::new(alloc),
        }
    }

    /// These names.
    pub fn of(alloc: Global, names: &[&'a Chars]) -> Result<InScope<'a>, AllocError>
        ensures { IfOk result (λ made. made.items ≡ names.now) }
    {
        let mut scope = InScope::new(alloc);
        push_each(&mut scope, names)?;
        Ok(scope)
    }

    /// How many names there are.
    pub fn len(&self) -> usize
        ensures { result ≡ length self.now.items }
    {
        self.list.len()
    }

    /// Whether a name stands for something.
    #[tactic(auto, using(crate::proofs::ScopePlaces::found_is_in))]
    pub fn has(&self, name: &Chars) -> bool
        ensures { result ≡ is_in (map (λ n. n.now) self.now.items) name.now }
    {
        self.places.find(name).is_some()
    }

    /// One name more. Without memory the names stay.
    pub fn push(&mut self, name: &'a Chars) -> Result<(), AllocError>
        ensures { self.new.items ≡ (if is_ok result then self.old.items ++ name.entry ∷ [] else self.old.items) }
    {
        let alloc = *self.list.allocator();
        let at = self.list.len();
        self.list.push(name)?;
        if self.places.find(name).is_some() {
            return Ok(());
        }
        match self.places.note(alloc, name, at) {
            Ok(()) => Ok(()),
            Err(error) => {
                self.list.pop();
                Err(error)
            }
        }
    }

    /// The first names stay, so many of them.
    pub fn truncate(&mut self, count: usize)
        ensures { self.new.items ≡ take count self.old.items }
    {
        while self.len() > count {
            self.pop();
        }
    }

    /// The last name leaves.
    fn pop(&mut self)
        ensures { self.new.items ≡ take (length self.old.items - 1) self.old.items }
    {
        let Some(name) = self.list.pop() else {
            return;
        };
        if self.places.find(name) == Some(self.list.len()) {
            self.places.forget(name);
        }
    }
}

/// Puts names into a scope that has none yet.
fn push_each<'a>(scope: &mut InScope<'a>, names: &[&'a Chars]) -> Result<(), AllocError>
    requires { scope.old.items ≡ [] }
    ensures { IfOk result (λ _. scope.new.items ≡ names.now) }
{
    for name in names {
        scope.push(*name)?;
    }
    Ok(())
}
