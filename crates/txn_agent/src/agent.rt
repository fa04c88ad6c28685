ghost use Rattle.std.specs.Prelude.{◌≡◌, true, IfErr, IfOk, IsOk};
ghost use Rattle.core_access.specs.FitAccess.{StaysFit};
ghost use Rattle.core_access.specs.Sights.{Sight, Counts, Looks};
ghost use Rattle.script_tree.specs.Programs.{ProgramTree, program_tree};
ghost use Rattle.txn_agent.specs.CoreLink.{IfOwn, IsNew, Knows};
ghost use Rattle.promise_spec.specs.TurnRule.{is_line};
ghost use Rattle.txn_agent.specs.AgentStep.{Acts, AnswerSays, Hears, children_of, has_freed_all, is_awaiting, is_freeing};
ghost use Rattle.txn_agent.specs.ShownMoves.{ShowsMove};
ghost use Rattle.txn_agent.specs.Wishes.{HasItsGrain, WishSays};

use crate::steps::{hear_child, moves_now, step};
use crate::wishes::{has_grain, wish};
use crate::work::{Carried, Doing, Work};
use base_types::{Call, GrainId, List, Origin, UnitNo};
use core_access::Access;
use script_check::Checked;
use script_machine::{Input, Machine};
use std::alloc::{AllocError, Global};
use std::mem;

/// What a step of an agent came to.
#[derive(Drop)]
pub enum Advanced {
    /// Another event of the unit applied; or one that the core had shown to be possible in this call was answered otherwise
    /// when it was put, which only another who makes events, a doubt or a stop can cause.
    Moved,
    /// The unit locked the grain, or made its lock exclusive. The version that it found there is the source's.
    Granted {
        grain: GrainId,
        source: UnitNo,
    },
    /// A unit of its own began, which is to be carried too: its origin has the number of the units that this one had begun
    /// before, and this depth.
    Began {
        child: UnitNo,
        call: Call,
        depth: u16,
    },
    /// The lock that the unit asks for is held by younger units in a mode that conflicts, of which this is the oldest.
    Waits {
        holder: UnitNo,
    },
    /// The grain for whose lock the unit asks isn't in memory.
    WaitsLoad {
        grain: GrainId,
    },
    /// The unit's child isn't decided.
    WaitsFor {
        child: UnitNo,
    },
    /// The unit has no event left: it is over and holds no lock, or its end came after a doubt or a stop.
    Ended,
}

/// A unit that is carried: its machine, what it holds, and what it asks the core for next.
///
/// After want of memory it is only dropped. An event that was put by then stands, and is told as each other one.
#[derive(Drop)]
pub struct Agent {
    carried: Carried,
    doing: Doing,
}

impl Agent {
    /// An agent for a unit that has just begun, of this call: it runs the script to its first pause.
    pub fn new(
        alloc: Global,
        checked: &Checked,
        unit: UnitNo,
        origin: Origin,
        call: Call,
        plain: bool,
    ) -> Result<Agent, AllocError>
        ensures carried { IfOk result (λ agent. agent.carried ≡ record { unit = unit; origin = origin; plain = plain }) }
        ensures children { IfOk result (λ agent. children_of agent.doing ≡ 0) }
        ensures knows { IfOk result (λ agent. (s : Sight) → IfOwn agent.carried s (λ r. IsNew (program_tree checked.now) r agent.carried call)
            → Knows (program_tree checked.now) s agent) }
    {
        let asked = call.copy()?;
        let machine = Machine::start(alloc, checked, asked, origin.depth())?;
        let work = Work {
            call,
            machine,
            held: List::new(alloc),
            sources: List::new(alloc),
            kids: 0,
        };
        let (work, pause) = work.resume(alloc, checked, Input::First)?;
        Ok(Agent {
            carried: Carried {
                unit,
                origin,
                plain,
            },
            doing: Doing::Asks { work, pause },
        })
    }

    /// The unit.
    pub fn unit(&self) -> UnitNo
        ensures { result ≡ self.now.carried.unit }
    {
        self.carried.unit
    }

    /// Whether the unit is a line's.
    pub fn is_line(&self) -> bool
        ensures { result ≡ is_line self.now.carried.origin }
    {
        match self.carried.origin {
            Origin::Line(_line) => true,
            Origin::Child {
                parent: _parent,
                index: _index,
                depth: _depth,
            } => false,
        }
    }

    /// Whether the unit is over and has given back all its locks.
    pub fn has_freed_all(&self) -> bool
        ensures { result ≡ has_freed_all self.now.doing }
    {
        match &self.doing {
            Doing::Frees { held } => held.is_empty(),
            Doing::Asks { .. } | Doing::Awaits { .. } | Doing::Stopped => false,
        }
    }

    /// Whether the unit is over, whether or not it has locks to give back still.
    pub fn is_freeing(&self) -> bool
        ensures { result ≡ is_freeing self.now.doing }
    {
        match &self.doing {
            Doing::Frees { .. } => true,
            Doing::Asks { .. } | Doing::Awaits { .. } | Doing::Stopped => false,
        }
    }

    /// Whether the unit waits for its child.
    pub fn is_awaiting(&self) -> bool
        ensures { result ≡ is_awaiting self.now.doing }
    {
        match &self.doing {
            Doing::Awaits { .. } => true,
            Doing::Asks { .. } | Doing::Frees { .. } | Doing::Stopped => false,
        }
    }

    /// How many units of its own the unit has begun, while it runs: the number of the next one among them.
    pub fn children(&self) -> u32
        ensures { result ≡ children_of self.now.doing }
    {
        match &self.doing {
            Doing::Asks { work, .. } | Doing::Awaits { work, .. } => work.kids,
            Doing::Frees { .. } | Doing::Stopped => 0,
        }
    }

    // What the unit does from now on.
    fn go_on(&mut self, doing: Doing)
        ensures { self.new ≡ record self.old { doing = doing } }
    {
        self.doing = doing;
    }

    // Does what `ready` says, also where the script waits for no child. It stands apart since room for what a script is at is cleared
    // wherever this is entered, which costs more than a look at an agent that waits for none.
    #[inline(never)]
    fn hear_now<A: Access>(
        &mut self,
        alloc: Global,
        checked: &Checked,
        access: &mut A,
    ) -> Result<(), AllocError>
        requires fit { A.is_fit access.old }
        requires counts { Counts (A.sight access.old) }
        requires knows { Knows (program_tree checked.now) (A.sight access.old) self.old }
        ensures kept { StaysFit (A.is_fit access.new) (A.aside access.old) (A.aside access.new) }
        ensures carried { self.new.carried ≡ self.old.carried }
        ensures looked { Looks A.may_come (A.sight access.old) (A.sight access.new) }
        ensures heard { IfOk result (λ _. Hears (A.sight access.new) self.new.doing) }
        ensures children { IfOk result (λ _. children_of self.new.doing ≡ children_of self.old.doing) }
        ensures knows { IfOk result (λ _. Knows (program_tree checked.now) (A.sight access.new) self.new) }
    {
        let doing = mem::replace(&mut self.doing, Doing::Stopped);
        let doing = hear_child(alloc, checked, access, self.carried, doing)?;
        self.go_on(doing);
        Ok(())
    }

    /// Hands the script the outcome of the child for which it waits, where the core shows in this call that the child is
    /// decided, and runs the script to its next pause.
    pub fn ready<A: Access>(
        &mut self,
        alloc: Global,
        checked: &Checked,
        access: &mut A,
    ) -> Result<(), AllocError>
        requires fit { A.is_fit access.old }
        requires counts { Counts (A.sight access.old) }
        requires knows { Knows (program_tree checked.now) (A.sight access.old) self.old }
        ensures kept { StaysFit (A.is_fit access.new) (A.aside access.old) (A.aside access.new) }
        ensures carried { self.new.carried ≡ self.old.carried }
        ensures looked { Looks A.may_come (A.sight access.old) (A.sight access.new) }
        ensures heard { IfOk result (λ _. Hears (A.sight access.new) self.new.doing) }
        ensures children { IfOk result (λ _. children_of self.new.doing ≡ children_of self.old.doing) }
        ensures knows { IfOk result (λ _. Knows (program_tree checked.now) (A.sight access.new) self.new) }
    {
        if !matches!(self.doing, Doing::Awaits { .. }) {
            return Ok(());
        }
        self.hear_now(alloc, checked, access)
    }

    /// Whether the unit moves, by what was looked at in this call: false where `advance` would answer `Waits`, `WaitsLoad`,
    /// `WaitsFor` or `Ended`. `ready` was called since the last move; else a unit whose child is decided by now is told to move, which it
    /// does by hearing of it. It takes no memory.
    pub fn can_move<A: Access>(&self, access: &mut A) -> Result<bool, AllocError>
        requires fit { A.is_fit access.old }
        ensures kept { StaysFit (A.is_fit access.new) (A.aside access.old) (A.aside access.new) }
        ensures looked { Looks A.may_come (A.sight access.old) (A.sight access.new) }
        ensures sure { IsOk result }
        ensures moves { IfOk result (λ b. (types : ProgramTree) → Counts (A.sight access.old) → Knows types (A.sight access.old) self.now
            → IfOwn self.now.carried (A.sight access.new) (λ r. ShowsMove types r self.now.carried self.now.doing b)) }
    {
        moves_now(access, self.carried, &self.doing)
    }

    /// Puts the unit's wish that the grain for whose lock its script asks be brought into memory, where the core shows in this call
    /// that it isn't there, and answers whether the wish was done: it isn't where the unit wants the grain already, nor behind a doubt
    /// or a stop. `ready` was called since the last move; else a unit whose child is decided by now has no wish. What the unit goes on
    /// with stays as it was. Where there is no memory nothing was put.
    pub fn want<A: Access>(&self, access: &mut A) -> Result<bool, AllocError>
        requires fit { A.is_fit access.old }
        ensures kept { StaysFit (A.is_fit access.new) (A.aside access.old) (A.aside access.new) }
        ensures looked { IfErr result (λ _. Looks A.may_come (A.sight access.old) (A.sight access.new)) }
        ensures told { IfOk result (λ done. (types : ProgramTree) → Counts (A.sight access.old) → Knows types (A.sight access.old) self.now
            → WishSays A.may_come types self.now.carried.unit self.now.doing (A.sight access.old) (A.sight access.new) done) }
        ensures knows { (types : ProgramTree) → Counts (A.sight access.old) → Knows types (A.sight access.old) self.now
            → Knows types (A.sight access.new) self.now }
    {
        wish(access, self.carried, &self.doing)
    }

    /// Whether the unit asks for no lock, or the core shows in this call that the grain of the one for which it asks is in memory.
    /// `ready` was called since the last move. It takes no memory.
    pub fn has_grain<A: Access>(&self, access: &mut A) -> bool
        requires fit { A.is_fit access.old }
        ensures kept { StaysFit (A.is_fit access.new) (A.aside access.old) (A.aside access.new) }
        ensures looked { Looks A.may_come (A.sight access.old) (A.sight access.new) }
        ensures has { (types : ProgramTree) → Counts (A.sight access.old) → Knows types (A.sight access.old) self.now → result ≡ true
            → HasItsGrain types (A.sight access.new) self.now.carried.unit self.now.doing }
    {
        has_grain(access, self.carried, &self.doing)
    }

    /// Goes on by at most one event of the unit. Want of memory is the one error: an event that was put by then stands.
    pub fn advance<A: Access>(
        &mut self,
        alloc: Global,
        checked: &Checked,
        access: &mut A,
    ) -> Result<Advanced, AllocError>
        requires fit { A.is_fit access.old }
        requires counts { Counts (A.sight access.old) }
        requires knows { Knows (program_tree checked.now) (A.sight access.old) self.old }
        ensures kept { StaysFit (A.is_fit access.new) (A.aside access.old) (A.aside access.new) }
        ensures carried { self.new.carried ≡ self.old.carried }

        // What was put stands where memory was wanting too.
        ensures acts { Acts A.may_come (program_tree checked.now) self.old.carried.unit (A.sight access.old) (A.sight access.new) }
        ensures told { IfOk result (λ advanced. AnswerSays A.may_come (program_tree checked.now) self.old.carried.unit (children_of self.old.doing)
            (A.sight access.old) (A.sight access.new) advanced) }
        ensures knows { IfOk result (λ _. Knows (program_tree checked.now) (A.sight access.new) self.new) }
    {
        let doing = mem::replace(&mut self.doing, Doing::Stopped);
        let (doing, advanced) = step(alloc, checked, access, self.carried, doing)?;
        self.go_on(doing);
        Ok(advanced)
    }
}
