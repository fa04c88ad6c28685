ghost use Rattle.std.specs.Prelude.{◌≡◌, ◌<◌, ◌≤◌, ℕ, true, [], length, IfOk, OnErr, MatchResult};
ghost use Rattle.core_model.specs.LockAnswers.{IsGoing};
ghost use Rattle.core_model.specs.LegalRuns.{ends};
ghost use Rattle.core_access.specs.FitAccess.{StaysFit};
ghost use Rattle.core_access.specs.Sights.{run_seen};
ghost use Rattle.script_tree.specs.Programs.{program_tree};
ghost use Rattle.txn_agent.specs.AgentStep.{Acts};
ghost use Rattle.txn_agent.specs.Wishes.{LacksNoGrain, Wishes};
ghost use Rattle.unit_carrier.specs.CarriedUnits.{AreCarried, AreFreed, CarriesOneMore, FindsMover, FindsWithin, StepsOn, WishesAt, as_carried, units_carried, unit_at};

use crate::moves::{can_move_now, has_grain_now, want_now};
use base_types::{Call, GrainId, Origin, UnitNo};
use core_access::Access;
use script_check::Checked;
use std::alloc::{AllocError, Global};
use txn_agent::{Advanced, Agent};

/// Units that are carried, in number order.
#[derive(Drop)]
pub struct Agents {
    pub list: Vec<Agent>,
}

/// Who is found among the units that are carried.
#[derive(Clone, Copy)]
pub enum Found {
    /// The unit at this index.
    At(usize),
    /// There are so many movers, and no more.
    Few(usize),
}

/// What became of a unit's step.
#[derive(Clone, Copy)]
pub enum Went {
    /// An event of the unit came.
    Moved,
    /// The unit locked the grain, or made its lock exclusive, and found the source's version there.
    Granted { grain: GrainId, source: UnitNo },
    /// A child of the unit began, and is carried too.
    Began { child: UnitNo },
    /// Nothing came.
    Stayed,
}

impl Agents {
    /// Nobody is carried yet.
    pub fn new(alloc: Global) -> Agents
        ensures { result.list.items ≡ [] }
    {
        Agents {
            list: Vec::new(alloc),
        }
    }

    /// How many of the units, from the first on, are known to be over and to have given back all their locks, where so many are
    /// known to be. Looks at those behind them alone, as far as the first that isn't so.
    pub fn freed_front(&self, known: usize) -> usize
        requires known { AreFreed known self.now.list.items }
        ensures freed { AreFreed result self.now.list.items }
    {
        let mut front = known;
        while front < self.list.len() && self.list[front].has_freed_all() {
            front += 1;
        }
        front
    }

    /// The mover of this place, counted from 0, among the units that are carried. The first `front` of them are over and have given back
    /// all their locks: they aren't looked at. Whether there is memory or not, the same units are carried as before.
    pub fn find<A: Access>(
        &mut self,
        alloc: Global,
        checked: &Checked,
        access: &mut A,
        front: usize,
        place: usize,
    ) -> Result<Found, AllocError>
        requires fit { A.is_fit access.old }
        requires carried { AreCarried (program_tree checked.now) A.may_come (A.sight access.old) self.old.list.items }
        requires freed { AreFreed front self.old.list.items }
        ensures kept { StaysFit (A.is_fit access.new) (A.aside access.old) (A.aside access.new) }
        ensures same { A.sight access.new ≡ A.sight access.old }
        ensures carried { IfOk result (λ _. AreCarried (program_tree checked.now) A.may_come (A.sight access.new) self.new.list.items) }
        ensures units { as_carried self.new.list.items ≡ as_carried self.old.list.items }
        ensures within { IfOk result (λ found. FindsWithin found (length self.old.list.items)) }
        ensures freed { AreFreed front self.new.list.items }
        ensures found { IsGoing (ends (run_seen (A.sight access.old)))
            → IfOk result (λ found. FindsMover (program_tree checked.now) (run_seen (A.sight access.old)) (units_carried self.old.list.items) place found) }
    {
        let mut movers = 0usize;
        for index in front..self.list.len() {
            if can_move_now(alloc, checked, access, &mut self.list[index])? {
                if movers == place {
                    return Ok(Found::At(index));
                }
                movers += 1;
            }
        }
        Ok(Found::Few(movers))
    }

    /// Whether the unit at this index asks for no lock, or for one whose grain is shown to be in memory. First it hears of a child that is
    /// decided. Whether there is memory or not, the same units are carried as before.
    pub fn has_grain<A: Access>(
        &mut self,
        alloc: Global,
        checked: &Checked,
        access: &mut A,
        index: usize,
    ) -> Result<bool, AllocError>
        requires fit { A.is_fit access.old }
        requires within { index < length self.old.list.items }
        requires carried { AreCarried (program_tree checked.now) A.may_come (A.sight access.old) self.old.list.items }
        ensures kept { StaysFit (A.is_fit access.new) (A.aside access.old) (A.aside access.new) }
        ensures same { A.sight access.new ≡ A.sight access.old }
        ensures has { IfOk result (λ has. has ≡ true → IsGoing (ends (run_seen (A.sight access.old)))
            → LacksNoGrain (program_tree checked.now) (unit_at self.old.list.items index) (run_seen (A.sight access.old))) }
        ensures carried { IfOk result (λ _. AreCarried (program_tree checked.now) A.may_come (A.sight access.new) self.new.list.items) }
        ensures units { as_carried self.new.list.items ≡ as_carried self.old.list.items }
        ensures freed { (front : ℕ) → front ≤ index → AreFreed front self.old.list.items → AreFreed front self.new.list.items }
    {
        let has = has_grain_now(alloc, checked, access, &mut self.list[index])?;
        Ok(has)
    }

    /// The unit at this index wishes for the grain of the lock for which its script asks, where that isn't in memory, and answers
    /// whether the wish was done. First it hears of a child that is decided. Whether there is memory or not, the same units are carried
    /// as before.
    pub fn want<A: Access>(
        &mut self,
        alloc: Global,
        checked: &Checked,
        access: &mut A,
        index: usize,
    ) -> Result<bool, AllocError>
        requires fit { A.is_fit access.old }
        requires within { index < length self.old.list.items }
        requires carried { AreCarried (program_tree checked.now) A.may_come (A.sight access.old) self.old.list.items }
        ensures kept { StaysFit (A.is_fit access.new) (A.aside access.old) (A.aside access.new) }
        ensures wishes { Wishes A.may_come (program_tree checked.now) (unit_at self.old.list.items index) (A.sight access.old) (A.sight access.new) }
        ensures told { IfOk result (λ wished. WishesAt (program_tree checked.now) (unit_at self.old.list.items index) (A.sight access.old)
            (A.sight access.new) wished) }
        ensures carried { IfOk result (λ _. AreCarried (program_tree checked.now) A.may_come (A.sight access.new) self.new.list.items) }
        ensures units { as_carried self.new.list.items ≡ as_carried self.old.list.items }
        ensures freed { (front : ℕ) → front ≤ index → AreFreed front self.old.list.items → AreFreed front self.new.list.items }
    {
        let wished = want_now(alloc, checked, access, &mut self.list[index])?;
        Ok(wished)
    }

    /// Carries a unit that has just begun, behind all others. Without memory the units that are carried stay as they were.
    pub fn carry(
        &mut self,
        alloc: Global,
        checked: &Checked,
        unit: UnitNo,
        origin: Origin,
        call: Call,
        plain: bool,
    ) -> Result<(), AllocError>
        ensures { MatchResult result (λ _. CarriesOneMore (program_tree checked.now) unit origin call plain self.old.list.items self.new.list.items)
            (λ _. self.new.list.items ≡ self.old.list.items) }
    {
        let agent = Agent::new(alloc, checked, unit, origin, call, plain)?;
        self.list.push(agent)?;
        Ok(())
    }

    /// The unit at this index goes on by one event. A child that it begins is carried too. Without memory the same units are carried as
    /// before.
    pub fn advance<A: Access>(
        &mut self,
        alloc: Global,
        checked: &Checked,
        access: &mut A,
        index: usize,
    ) -> Result<Went, AllocError>
        requires fit { A.is_fit access.old }
        requires within { index < length self.old.list.items }
        requires carried { AreCarried (program_tree checked.now) A.may_come (A.sight access.old) self.old.list.items }
        ensures kept { StaysFit (A.is_fit access.new) (A.aside access.old) (A.aside access.new) }
        ensures acts { Acts A.may_come (program_tree checked.now) (unit_at self.old.list.items index) (A.sight access.old) (A.sight access.new) }
        ensures steps { IfOk result (λ went. StepsOn A.may_come (program_tree checked.now) (unit_at self.old.list.items index) (A.sight access.old)
            (A.sight access.new) (units_carried self.old.list.items) (units_carried self.new.list.items) went) }
        ensures carried { IfOk result (λ _. AreCarried (program_tree checked.now) A.may_come (A.sight access.new) self.new.list.items) }
        ensures units { OnErr result (as_carried self.new.list.items ≡ as_carried self.old.list.items) }
        ensures freed { (front : ℕ) → front ≤ index → AreFreed front self.old.list.items → AreFreed front self.new.list.items }
    {
        let agent = &mut self.list[index];
        let unit = agent.unit();
        let children = agent.children();
        match agent.advance(alloc, checked, access)? {
            Advanced::Began { child, call, depth } => {
                let origin = Origin::Child {
                    parent: unit,
                    index: children,
                    depth,
                };
                self.carry(alloc, checked, child, origin, call, false)?;
                Ok(Went::Began { child })
            }
            Advanced::Granted { grain, source } => Ok(Went::Granted { grain, source }),
            Advanced::Moved => Ok(Went::Moved),
            Advanced::Waits { holder: _holder } => Ok(Went::Stayed),
            Advanced::WaitsLoad { grain: _grain } => Ok(Went::Stayed),
            Advanced::WaitsFor { child: _child } => Ok(Went::Stayed),
            Advanced::Ended => Ok(Went::Stayed),
        }
    }
}
