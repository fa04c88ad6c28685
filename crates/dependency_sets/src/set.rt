ghost use Rattle.std.specs.Prelude.{◌≡◌, ◌<◌, ◌≤◌, ◌+◌, ◌-◌, [], not, nat_lt, position, vec_len, vec_capacity, IsOk, IfOk, OnOk, OnErr};
ghost use Rattle.cell_model.specs.Sources.{is_among, with_source, first_aborted};
ghost use Rattle.cell_model.specs.Units.{UnitsAscend};

use base_types::{List, UnitNo};
use std::alloc::{AllocError, Global};
use std::marker::Model;

/// The sources that a unit depends on. Contracts see them ascending, each once, with the spare: how many more
/// fit without memory.
#[derive(Drop)]
pub struct DepSet {
    sources: Vec<UnitNo>,
}

impl Model for DepSet {
    ghost use Rattle.std.specs.Prelude.{◌-◌, vec_len, vec_capacity};
    ghost use Rattle.cell_model.specs.Units.{UnitsAscend};
    ghost use Rattle.dependency_sets.specs.Room.{SourcesInRoom};

    ghost Value = { SourcesInRoom };

    ghost view = { λ s. record { sources = s.sources.items; spare = vec_capacity s.sources - vec_len s.sources } };

    ghost invariant = { λ s. UnitsAscend s.sources.items };
}

impl DepSet {
    /// No source. Takes no memory.
    pub fn new(alloc: Global) -> Result<DepSet, AllocError>
        ensures made { IsOk result }
        ensures none { IfOk result (λ made. made.sources ≡ []) }
    {
        Ok(DepSet {
            sources: Vec::new(alloc),
        })
    }

    /// Makes the spare at least 1. The set has the sources that it had, whether there was memory or not.
    pub fn reserve(&mut self) -> Result<(), AllocError>
        ensures same { self.new.sources ≡ self.old.sources }
        ensures ok { OnOk result (0 < self.new.spare) }
        ensures spare { self.old.spare ≤ self.new.spare }
    {
        self.sources.reserve(1)
    }

    /// Adds the unit, where it isn't there. Takes no memory.
    pub fn insert(&mut self, unit: UnitNo)
        requires { 0 < self.old.spare }
        ensures added { self.new.sources ≡ with_source self.old.sources unit }
        ensures spare { self.old.spare ≤ self.new.spare + 1 }
    {
        put_in(&mut self.sources, unit);
    }

    /// Adds the unit, where it isn't there. Without memory the set has the sources that it had.
    pub fn add_source(&mut self, unit: UnitNo) -> Result<(), AllocError>
        ensures ok { OnOk result (self.new.sources ≡ with_source self.old.sources unit) }
        ensures err { OnErr result (self.new.sources ≡ self.old.sources) }
    {
        self.reserve()?;
        self.insert(unit);
        Ok(())
    }

    /// The sources, ascending, each once.
    pub fn list(&self) -> &[UnitNo]
        ensures same { result.now ≡ self.now.sources }
        ensures ascending { UnitsAscend self.now.sources }
    {
        self.sources.as_slice()
    }

    /// The sources as a list of its own.
    pub fn copy_list(&self) -> Result<List<UnitNo>, AllocError>
        ensures { IfOk result (λ made. made ≡ self.now.sources) }
    {
        let units = Vec::from_slice(*self.sources.allocator(), self.sources.as_slice())?;
        Ok(List::from_vec(units))
    }

    /// The oldest source that is among the aborted, `None` exactly where none of them is.
    pub fn first_aborted(&self, aborted: &List<UnitNo>) -> Option<UnitNo>
        ensures { result ≡ first_aborted self.now.sources aborted.now }
    {
        find_in(self.sources.as_slice(), aborted.as_slice())
    }
}

// Puts the unit in its place among ascending ones, where it isn't there.
fn put_in(units: &mut Vec<UnitNo>, unit: UnitNo)
    requires { vec_len units.old < vec_capacity units.old }
    ensures items { units.new.items ≡ with_source units.old.items unit }
    ensures spare { vec_capacity units.old - vec_len units.old ≤ (vec_capacity units.new - vec_len units.new) + 1 }
{
    let Some(at) = place_of(units, unit) else {
        let done = units.push(unit);
        prove!(done.is_ok());
        return;
    };
    if units[at].0 != unit.0 {
        let done = units.insert(at, unit);
        prove!(done.is_ok());
    }
}

// Where the first that isn't older than the unit stands.
fn place_of(units: &[UnitNo], unit: UnitNo) -> Option<usize>
    ensures { result ≡ position (λ u. not (nat_lt u.0 unit.0)) units.now }
{
    units.iter().position(|u| u.0 >= unit.0)
}

// The first of the sources that is among the aborted.
fn find_in(sources: &[UnitNo], aborted: &[UnitNo]) -> Option<UnitNo>
    ensures { result ≡ first_aborted sources.now aborted.now }
{
    sources
        .iter()
        .copied()
        .find(|source| is_in(aborted, *source))
}

// Whether the unit is in the list.
fn is_in(units: &[UnitNo], unit: UnitNo) -> bool
    ensures { result ≡ is_among units.now unit }
{
    units.iter().any(|u| *u == unit)
}
