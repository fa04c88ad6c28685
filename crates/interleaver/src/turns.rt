ghost use Rattle.std.specs.Prelude.{◌≡◌, ◌&&◌, not, is_some, ◌+◌, ◌-◌, ◌<◌, ◌≤◌, ◌^◌, ◌⊎◌, ℕ, List as AList, Some, true, false, IfOk, IfErr, OnErr, length};
ghost use Rattle.cell_model.specs.Units.{UnitsAscend};
ghost use Rattle.core_model.specs.CoreState.{UnitNo as AUnit, Member};
ghost use Rattle.core_model.specs.LegalRuns.{Run, ends};
ghost use Rattle.core_model.specs.Settler.{has_step, settler_step};
ghost use Rattle.settle_loop.specs.SettlerStep.{wanted_step};
ghost use Rattle.core_model.specs.declared.events.CoreReply.{CoreReply as AReply};
ghost use Rattle.core_access.specs.OneHolder.{none_comes, own_sight};
ghost use Rattle.core_access.specs.Sights.{Looks};
ghost use Rattle.history_core.specs.Cores.{run_of};
ghost use Rattle.script_tree.specs.Programs.{ProgramTree, program_tree};
ghost use Rattle.script_check.specs.Shapes.{type_shapes};
ghost use Rattle.promise_spec.specs.TurnRule.{picks_used};
ghost use Rattle.txn_agent.specs.declared.agent.Agent.{Agent as AnAgent};
ghost use Rattle.txn_agent.specs.AgentStep.{Acts};
ghost use Rattle.unit_carrier.specs.CarriedUnits.{AreCarried, AreFreed, unit_at, units_carried};
ghost use Rattle.unit_carrier.specs.Lines.{PutsLine};
ghost use Rattle.run_books.specs.declared.faults.RunFault.TheVariants.{Memory};
ghost use Rattle.run_books.specs.RecordFrame.{TurnsBeside};
ghost use Rattle.interleaver.specs.Flights.{lines_carried, next_line_by};
ghost use Rattle.interleaver.specs.LastLook.{IsLooked, looked_after};
ghost use Rattle.interleaver.specs.SureUnits.{AreSure, AreSureFrom, LackNone, LacksNone, SureBySpace};
ghost use Rattle.interleaver.specs.Turns.{TurnsCarry, WhereTurnsBegin};
ghost use Rattle.interleaver.specs.TurnStages.{turn_stage, AsksOne, BeganOn, HoldsUnits, LeavesTurns, LoadsBy, LoadsOne, MoveGoesOn, MovedOn, PassGoesOn, PickedGoesOn, SettlesBy, SettlesOne, StepLoads, StepSettles, TurnGoesOn};
ghost use Rattle.run_books.specs.Stages.{stage_of, IsSafe, StaysSafe};

use crate::ended_turns::ended_by;
use crate::flights::{drop_unless_doubted, lines_in};
use crate::movers::{NextMover, next_mover, pick_at};
use base_types::{List, Shape, UnitNo};
use history_core::Core;
use host_trait::Host;
use request_wire::Line;
use run_books::RunFault;
use run_lines::Lines;
use script_check::Checked;
use settle_loop::{Gate, GatePlace, Settler};
use std::alloc::{AllocError, Global};
use unit_carrier::{Agents, Went, begin_line};

/// Where a run of turns stands: the units that are carried, how many lines have begun and how many picks were used.
#[derive(Drop)]
pub(crate) struct Turns {
    pub(crate) alloc: Global,
    pub(crate) shape: Shape,
    pub(crate) agents: Agents,
    /// How many of these units, from the first on, are known to be over and to have given back all their locks.
    pub(crate) front: usize,
    /// How many entries were settled when all units that were carried were lines' that weren't decided, where that is known. Those that
    /// began since are lines' too.
    pub(crate) looked: Option<usize>,
    /// The units below this number lacked no grain when they were asked last, but for the one that moved since.
    pub(crate) sure: u64,
    /// The unit that moved since, which may lack one.
    pub(crate) moved: Option<UnitNo>,
    /// Where that one stood when it moved. It stands there still, unless units before it were dropped since.
    pub(crate) moved_at: usize,
    pub(crate) begun: usize,
    pub(crate) used: usize,
}

/// The settler goes on by one step.
fn settle<H: Host, G: Gate>(
    shape: &Shape,
    core: &mut Core,
    settler: &mut Settler,
    host: &mut H,
    gate: &G,
) -> Result<(), RunFault>
    requires safe { IsSafe H.tells settler.old.writer (H.world host.old) }
    ensures settles { SettlesBy (run_of core.old) (run_of core.new) }
    ensures acted { IfOk result (λ _. has_step (settler_step (ends (run_of core.old))) ≡ true → SettlesOne (run_of core.old) (run_of core.new)) }
    ensures goes { StepSettles H.tells shape.now
        (stage_of H.world H.faults (run_of core.old) settler.old host.old)
        (stage_of H.world H.faults (run_of core.new) settler.new host.new) result }
    ensures beside { TurnsBeside H.tells
        (stage_of H.world H.faults (run_of core.old) settler.old host.old)
        (stage_of H.world H.faults (run_of core.new) settler.new host.new) result }
    ensures safe { StaysSafe H.tells H.is_ready H.world settler.new.writer host.old host.new }
{
    let turned = settler.step(shape, core, host, gate)?;
    ended_by(turned)
}

/// The grain that a unit of the pass wants is brought into memory.
fn load<H: Host>(
    shape: &Shape,
    core: &mut Core,
    settler: &mut Settler,
    host: &mut H,
) -> Result<(), RunFault>
    requires safe { IsSafe H.tells settler.old.writer (H.world host.old) }
    ensures loads { LoadsBy (run_of core.old) (run_of core.new) }
    ensures acted { IfOk result (λ _. has_step (wanted_step (ends (run_of core.old))) ≡ true → LoadsOne (run_of core.old) (run_of core.new)) }
    ensures goes { StepLoads H.tells shape.now
        (stage_of H.world H.faults (run_of core.old) settler.old host.old)
        (stage_of H.world H.faults (run_of core.new) settler.new host.new) result }
    ensures beside { TurnsBeside H.tells
        (stage_of H.world H.faults (run_of core.old) settler.old host.old)
        (stage_of H.world H.faults (run_of core.new) settler.new host.new) result }
    ensures doubted { settler.new.doubted ≡ settler.old.doubted }
    ensures safe { StaysSafe H.tells H.is_ready H.world settler.new.writer host.old host.new }
{
    let turned = settler.load(shape, core, host)?;
    ended_by(turned)
}

/// Whether a grain that a unit waits for may be brought into memory: memory has a limit, and nothing is in doubt.
fn can_miss(core: &Core, settler: &Settler) -> bool
    ensures { result ≡ (is_some (run_of core.now).capacity && not settler.now.doubted) }
{
    core.has_limit() && !settler.doubted()
}

/// Reaches the place that a line's begin has come to.
fn reach_begun<G: Gate>(gate: &G, began: Option<UnitNo>) {
    match began {
        None => {}
        Some(unit) => gate.reach(GatePlace::Begun { unit }),
    }
}

/// Reaches the places that a unit's step has come to.
fn reach_step<G: Gate>(gate: &G, unit: UnitNo, went: Went) {
    match went {
        Went::Moved => {}
        Went::Granted { grain, source } => gate.reach(GatePlace::Granted {
            unit,
            grain,
            source,
        }),
        Went::Began { child } => gate.reach(GatePlace::Begun { unit: child }),
        Went::Stayed => {}
    }
}

/// Of how many units it is known still that they have given back all their locks, where the one at this index goes on: of none, where
/// it was among them.
fn known_before(front: usize, index: usize) -> usize
    ensures before { result ≤ index }
    ensures freed { (agents : AList AnAgent) → AreFreed front agents → AreFreed result agents }
{
    if index < front {
        return 0;
    }
    front
}

/// What is known still behind a unit's step.
fn looked_after(looked: Option<usize>, went: Went) -> Option<usize>
    ensures { result ≡ looked_after looked went }
{
    match went {
        Went::Moved => looked,
        Went::Granted {
            grain: _grain,
            source: _source,
        } => looked,
        Went::Began { child: _child } => None,
        Went::Stayed => looked,
    }
}

/// Below which number units lack no grain still, where one moves: none does for sure where another had moved already.
fn sure_after(sure: u64, moved: Option<UnitNo>) -> u64
    ensures below { result ≤ sure }
    ensures none { (u : AUnit) → moved ≡ Some u → result ≡ 0 }
{
    match moved {
        None => sure,
        Some(_unit) => 0,
    }
}

/// Below which number units lack no grain still: a grain may have left memory where that has no space for one more.
fn sure_with(sure: u64, core: &Core) -> u64
    ensures below { result ≤ sure }
    ensures space { SureBySpace result (run_of core.now) }
{
    if core.has_space() {
        return sure;
    }
    0
}

/// The first index where it is one from the second one on and before the third one; else the third one.
fn place_between(index: usize, from: usize, end: usize) -> usize
    requires { from ≤ end }
    ensures behind { from ≤ result }
    ensures within { result ≤ end }
    ensures place { (result ≡ index) ⊎ ((result ≡ end) × ((index < from) ⊎ (end ≤ index))) }
{
    if index < from {
        return end;
    }
    if index >= end {
        return end;
    }
    index
}

impl Turns {
    /// How many lines are in flight.
    fn in_flight(&self) -> usize
        ensures { (types : ProgramTree) (r : Run) → AreCarried types none_comes (own_sight r) self.now.agents.list.items
            → IsLooked self.now.looked r (units_carried self.now.agents.list.items) → result ≡ lines_carried self.now.agents.list.items }
    {
        match self.looked {
            None => lines_in(&self.agents),
            Some(_settled) => self.agents.list.len(),
        }
    }

    /// The next line, where one may begin: fewer lines than the width are in flight, one is left, and nothing is in doubt. No line
    /// is read before it may begin.
    fn next_line<L: Lines>(
        &self,
        settler: &Settler,
        lines: &mut L,
        width: u32,
    ) -> Result<Option<Line>, AllocError>
        requires known { (types : ProgramTree) × (r : Run) × AreCarried types none_comes (own_sight r) self.now.agents.list.items
            × IsLooked self.now.looked r (units_carried self.now.agents.list.items) }
        ensures same { L.lines lines.new ≡ L.lines lines.old }
        ensures next { IfOk result (λ line. line ≡ next_line_by settler.now.doubted self.now.agents.list.items width self.now.begun (L.lines lines.old)) }
    {
        if settler.doubted() {
            return Ok(None);
        }
        if self.in_flight() >= width as usize {
            return Ok(None);
        }
        lines.line_at(self.alloc, self.begun)
    }

    /// The next line begins.
    fn begin<G: Gate>(
        &mut self,
        checked: &Checked,
        core: &mut Core,
        line: &Line,
        gate: &G,
    ) -> Result<(), RunFault>
        requires carried { AreCarried (program_tree checked.now) none_comes (own_sight (run_of core.old)) self.old.agents.list.items }
        requires looked { IsLooked self.old.looked (run_of core.old) (units_carried self.old.agents.list.items) }
        requires sure { AreSure (program_tree checked.now) (run_of core.old) (units_carried self.old.agents.list.items) self.old.sure self.old.moved }
        requires room { self.old.begun < 2 ^ 64 - 1 }
        ensures put { OnErr result (Looks none_comes (own_sight (run_of core.old)) (own_sight (run_of core.new))
            ⊎ ((r : AReply) × PutsLine none_comes (program_tree checked.now) line.now.number line.now.what (own_sight (run_of core.old))
            (own_sight (run_of core.new)) r)) }
        ensures memory { IfErr result (λ fault. fault ≡ Memory) }
        ensures begins { IfOk result (λ _. BeganOn (program_tree checked.now) line.now (run_of core.old) (run_of core.new)
            self.old.agents.list.items self.new.agents.list.items) }
        ensures units { IfOk result (λ _. HoldsUnits (program_tree checked.now) (run_of core.new) self.new) }
        ensures begun { IfOk result (λ _. self.new.begun ≡ self.old.begun + 1) }
        ensures used { self.new.used ≡ self.old.used }
        ensures shape { self.new.shape ≡ self.old.shape }
    {
        let number = line.number;
        prove!(u64::from(number) < 4_294_967_296);
        let began = begin_line(self.alloc, checked, core, &mut self.agents, line)?;
        core.show_few();
        reach_begun(gate, began);
        self.front = 0;
        self.begun += 1;
        Ok(())
    }

    /// The unit at this index goes on by one event.
    fn move_unit<G: Gate>(
        &mut self,
        checked: &Checked,
        core: &mut Core,
        gate: &G,
        index: usize,
    ) -> Result<(), RunFault>
        requires within { index < length self.old.agents.list.items }
        requires units { HoldsUnits (program_tree checked.now) (run_of core.old) self.old }
        ensures acts { Acts none_comes (program_tree checked.now) (unit_at self.old.agents.list.items index)
            (own_sight (run_of core.old)) (own_sight (run_of core.new)) }
        ensures memory { IfErr result (λ fault. fault ≡ Memory) }
        ensures moves { IfOk result (λ _. MovedOn (program_tree checked.now) index (run_of core.old) (run_of core.new)
            self.old.agents.list.items self.new.agents.list.items) }
        ensures units { IfOk result (λ _. HoldsUnits (program_tree checked.now) (run_of core.new) self.new) }
        ensures begun { self.new.begun ≡ self.old.begun }
        ensures used { self.new.used ≡ self.old.used }
        ensures shape { self.new.shape ≡ self.old.shape }
    {
        self.front = known_before(self.front, index);
        let unit = self.agents.list[index].unit();
        let went = self.agents.advance(self.alloc, checked, core, index)?;
        core.show_few();
        reach_step(gate, unit, went);
        self.looked = looked_after(self.looked, went);
        self.sure = sure_after(self.sure, self.moved);
        self.moved = Some(unit);
        self.moved_at = index;
        Ok(())
    }

    /// Whether the unit lacks no grain for sure: it lacked none when it was asked last, and hasn't moved since.
    fn is_sure(&self, unit: UnitNo) -> bool
        ensures { result ≡ true → (unit.0 < self.now.sure) × (self.now.moved ≡ Some unit → ⊥) }
    {
        match self.moved {
            None => unit.0 < self.sure,
            Some(moved) => moved.0 != unit.0 && unit.0 < self.sure,
        }
    }

    /// Whether this unit stands at the index.
    fn stands_at(&self, index: usize, unit: UnitNo) -> bool
        ensures stands { result ≡ true → (index < length self.now.agents.list.items) × (unit_at self.now.agents.list.items index ≡ unit) }
        ensures other { result ≡ false → index < length self.now.agents.list.items → unit_at self.now.agents.list.items index ≡ unit → ⊥ }
    {
        match self.agents.list.get(index) {
            None => false,
            Some(agent) => agent.unit().0 == unit.0,
        }
    }

    /// Whether the unit at this index has a number up to which units are sure.
    fn is_below(&self, index: usize) -> bool
        requires within { index < length self.now.agents.list.items }
        ensures { result ≡ true → (unit_at self.now.agents.list.items index).0 < self.now.sure }
    {
        self.agents.list[index].unit().0 < self.sure
    }

    /// The index behind the last unit, from this one on, whose number is one up to which units are sure; or this one. It looks at the
    /// units from the last one down to that.
    fn sure_end(&self, from: usize) -> usize
        requires within { from ≤ length self.now.agents.list.items }
        ensures behind { from ≤ result }
        ensures within { result ≤ length self.now.agents.list.items }
        ensures last { from < result → (unit_at self.now.agents.list.items (result - 1)).0 < self.now.sure }
    {
        let mut end = self.agents.list.len();
        while end > from {
            if self.is_below(end - 1) {
                return end;
            }
            end -= 1;
        }
        end
    }

    /// Where the unit that moved stands among those from the first index on and before the second one; which is answered where it isn't
    /// among them. It looks for it only where units were dropped since.
    fn moved_between(&self, from: usize, end: usize) -> usize
        requires within { end ≤ length self.now.agents.list.items }
        requires order { from ≤ end }
        requires older { UnitsAscend (units_carried self.now.agents.list.items) }
        ensures behind { from ≤ result }
        ensures within { result ≤ end }
        ensures others { (i : ℕ) → from ≤ i → i < result → self.now.moved ≡ Some (unit_at self.now.agents.list.items i) → ⊥ }
    {
        let Some(moved) = self.moved else {
            return end;
        };
        if self.stands_at(self.moved_at, moved) {
            return place_between(self.moved_at, from, end);
        }
        for index in from..end {
            if self.stands_at(index, moved) {
                return index;
            }
        }
        end
    }

    /// The first index from this one on of a unit that may lack a grain; or how many units are carried, where there is none.
    fn next_to_ask(&self, from: usize) -> usize
        requires older { UnitsAscend (units_carried self.now.agents.list.items) }
        ensures behind { from ≤ result }
        ensures within { from < result → result ≤ length self.now.agents.list.items }
        ensures sure { AreSureFrom self.now.sure self.now.moved self.now.agents.list.items from result }
    {
        if from >= self.agents.list.len() {
            return from;
        }
        if !self.is_sure(self.agents.list[from].unit()) {
            return from;
        }
        let end = self.sure_end(from);
        self.moved_between(from, end)
    }

    /// One above the number of the last unit that is carried, 0 where none is.
    fn above_all(&self) -> u64
        ensures { (n : ℕ) → ((u : AUnit) → Member u (units_carried self.now.agents.list.items) → u.0 < n) → result ≤ n }
    {
        match self.agents.list.last() {
            None => 0,
            Some(agent) => agent.unit().0.saturating_add(1),
        }
    }

    /// The unit at this index is asked in the pass: where it waits for a grain it wants it, and the grain is brought into memory right
    /// behind the wish.
    fn ask_one<H: Host>(
        &mut self,
        checked: &Checked,
        core: &mut Core,
        settler: &mut Settler,
        host: &mut H,
        index: usize,
    ) -> Result<(), RunFault>
        requires within { index < length self.old.agents.list.items }
        requires front { self.old.front ≤ index }
        requires units { HoldsUnits (program_tree checked.now) (run_of core.old) self.old }
        requires unsure { self.old.sure ≡ 0 }
        requires shape { self.old.shape.types ≡ type_shapes (program_tree checked.now) }
        requires safe { IsSafe H.tells settler.old.writer (H.world host.old) }
        ensures asks { AsksOne H.tells (program_tree checked.now) index
            (stage_of H.world H.faults (run_of core.old) settler.old host.old) self.old
            (stage_of H.world H.faults (run_of core.new) settler.new host.new) self.new result }
        ensures units { IfOk result (λ _. HoldsUnits (program_tree checked.now) (run_of core.new) self.new) }
        ensures leaves { LeavesTurns self.old settler.old.doubted self.new settler.new.doubted }
        ensures unsure { self.new.sure ≡ 0 }
        ensures safe { StaysSafe H.tells H.is_ready H.world settler.new.writer host.old host.new }
    {
        if !self.agents.want(self.alloc, checked, core, index)? {
            return Ok(());
        }
        load(&self.shape, core, settler, host)
    }

    /// The unit at this index is asked, unless it lacks no grain for sure. Answers whether it lacks none behind that, and nothing was put.
    fn ask_unless_sure<H: Host>(
        &mut self,
        checked: &Checked,
        core: &mut Core,
        settler: &mut Settler,
        host: &mut H,
        index: usize,
    ) -> Result<bool, RunFault>
        requires within { index < length self.old.agents.list.items }
        requires front { self.old.front ≤ index }
        requires units { HoldsUnits (program_tree checked.now) (run_of core.old) self.old }
        requires space { SureBySpace self.old.sure (run_of core.old) }
        requires shape { self.old.shape.types ≡ type_shapes (program_tree checked.now) }
        requires safe { IsSafe H.tells settler.old.writer (H.world host.old) }
        ensures asks { AsksOne H.tells (program_tree checked.now) index
            (stage_of H.world H.faults (run_of core.old) settler.old host.old) self.old
            (stage_of H.world H.faults (run_of core.new) settler.new host.new) self.new result }
        ensures units { IfOk result (λ _. HoldsUnits (program_tree checked.now) (run_of core.new) self.new) }
        ensures space { IfOk result (λ _. SureBySpace self.new.sure (run_of core.new)) }
        ensures lacks { IfOk result (λ sure. sure ≡ true → LacksNone (program_tree checked.now) (run_of core.old) (run_of core.new)
            (unit_at self.old.agents.list.items index)) }
        ensures leaves { LeavesTurns self.old settler.old.doubted self.new settler.new.doubted }
        ensures safe { StaysSafe H.tells H.is_ready H.world settler.new.writer host.old host.new }
    {
        let unit = self.agents.list[index].unit();
        if self.is_sure(unit) {
            return Ok(true);
        }
        let here = self.agents.has_grain(self.alloc, checked, core, index)?;
        if here {
            let awaits = self.agents.list[index].is_awaiting();
            return Ok(!awaits);
        }
        self.sure = 0;
        self.ask_one(checked, core, settler, host, index)?;
        Ok(false)
    }

    /// The units that are carried are asked, in number order, but for those that lack no grain for sure, which aren't looked at. Answers
    /// whether all of them lack none behind that.
    fn ask_all<H: Host>(
        &mut self,
        checked: &Checked,
        core: &mut Core,
        settler: &mut Settler,
        host: &mut H,
    ) -> Result<bool, RunFault>
        requires units { HoldsUnits (program_tree checked.now) (run_of core.old) self.old }
        requires space { SureBySpace self.old.sure (run_of core.old) }
        requires calm { settler.old.doubted ≡ false }
        requires shape { self.old.shape.types ≡ type_shapes (program_tree checked.now) }
        requires safe { IsSafe H.tells settler.old.writer (H.world host.old) }
        ensures passes { PassGoesOn H.tells (program_tree checked.now)
            (turn_stage (stage_of H.world H.faults (run_of core.old) settler.old host.old) self.old)
            (stage_of H.world H.faults (run_of core.new) settler.new host.new) self.new result }
        ensures units { IfOk result (λ _. HoldsUnits (program_tree checked.now) (run_of core.new) self.new) }
        ensures lack { IfOk result (λ sure. sure ≡ true → LackNone (program_tree checked.now) (run_of core.new)
            (units_carried self.new.agents.list.items)) }
        ensures begun { self.new.begun ≡ self.old.begun }
        ensures used { self.new.used ≡ self.old.used }
        ensures shape { self.new.shape ≡ self.old.shape }
        ensures safe { StaysSafe H.tells H.is_ready H.world settler.new.writer host.old host.new }
    {
        let mut sure = true;
        let mut index = self.next_to_ask(self.front);
        while index < self.agents.list.len() {
            let lacks_none = self.ask_unless_sure(checked, core, settler, host, index)?;
            sure = sure & lacks_none;
            index = self.next_to_ask(index + 1);
        }
        Ok(sure)
    }

    /// The pass of a turn. Who lacked no grain in the last one and hasn't moved since isn't asked while memory has space for one grain
    /// more, since none left it then. Where memory has no limit, or something is in doubt, nobody is asked.
    fn load_pass<H: Host>(
        &mut self,
        checked: &Checked,
        core: &mut Core,
        settler: &mut Settler,
        host: &mut H,
    ) -> Result<(), RunFault>
        requires units { HoldsUnits (program_tree checked.now) (run_of core.old) self.old }
        requires shape { self.old.shape.types ≡ type_shapes (program_tree checked.now) }
        requires safe { IsSafe H.tells settler.old.writer (H.world host.old) }
        ensures passes { PassGoesOn H.tells (program_tree checked.now)
            (turn_stage (stage_of H.world H.faults (run_of core.old) settler.old host.old) self.old)
            (stage_of H.world H.faults (run_of core.new) settler.new host.new) self.new result }
        ensures units { IfOk result (λ _. HoldsUnits (program_tree checked.now) (run_of core.new) self.new) }
        ensures begun { self.new.begun ≡ self.old.begun }
        ensures used { self.new.used ≡ self.old.used }
        ensures shape { self.new.shape ≡ self.old.shape }
        ensures safe { StaysSafe H.tells H.is_ready H.world settler.new.writer host.old host.new }
    {
        if !can_miss(core, settler) {
            return Ok(());
        }
        self.sure = sure_with(self.sure, core);
        if self.ask_all(checked, core, settler, host)? {
            self.sure = self.above_all();
            self.moved = None;
        }
        Ok(())
    }

    /// The mover at the next pick moves. Answers whether there was one.
    fn move_picked<H: Host, G: Gate>(
        &mut self,
        checked: &Checked,
        core: &mut Core,
        settler: &mut Settler,
        host: &mut H,
        gate: &G,
        picks: &[u32],
    ) -> Result<bool, RunFault>
        requires units { HoldsUnits (program_tree checked.now) (run_of core.old) self.old }
        requires room { self.old.used < 2 ^ 64 - 1 }
        requires shape { self.old.shape.types ≡ type_shapes (program_tree checked.now) }
        requires safe { IsSafe H.tells settler.old.writer (H.world host.old) }
        ensures turns { PickedGoesOn H.tells (program_tree checked.now) picks.now
            (stage_of H.world H.faults (run_of core.old) settler.old host.old) self.old
            (turn_stage (stage_of H.world H.faults (run_of core.new) settler.new host.new) self.new) result }
        ensures units { IfOk result (λ _. HoldsUnits (program_tree checked.now) (run_of core.new) self.new) }
        ensures used { IfOk result (λ _. self.new.used ≤ self.old.used + 1) }
        ensures goes { IfOk result (λ more. more ≡ true → self.new.begun + self.new.used ≡ self.old.begun + self.old.used + 1) }
        ensures shape { self.new.shape ≡ self.old.shape }
        ensures safe { StaysSafe H.tells H.is_ready H.world settler.new.writer host.old host.new }
    {
        let pick = pick_at(picks, self.used);
        match next_mover(
            self.alloc,
            checked,
            core,
            &mut self.agents,
            self.front,
            settler,
            pick,
        )? {
            NextMover::Nobody => Ok(false),
            NextMover::Settler => {
                settle(&self.shape, core, settler, host, gate)?;
                self.used += 1;
                Ok(true)
            }
            NextMover::Unit(index) => {
                self.move_unit(checked, core, gate, index)?;
                self.used += 1;
                Ok(true)
            }
        }
    }

    /// The pass, and then the mover at the next pick moves. Answers whether there was one.
    fn move_one<H: Host, G: Gate>(
        &mut self,
        checked: &Checked,
        core: &mut Core,
        settler: &mut Settler,
        host: &mut H,
        gate: &G,
        picks: &[u32],
    ) -> Result<bool, RunFault>
        requires units { HoldsUnits (program_tree checked.now) (run_of core.old) self.old }
        requires room { self.old.used < 2 ^ 64 - 1 }
        requires shape { self.old.shape.types ≡ type_shapes (program_tree checked.now) }
        requires safe { IsSafe H.tells settler.old.writer (H.world host.old) }
        ensures turns { MoveGoesOn H.tells (program_tree checked.now) picks.now
            (turn_stage (stage_of H.world H.faults (run_of core.old) settler.old host.old) self.old)
            (turn_stage (stage_of H.world H.faults (run_of core.new) settler.new host.new) self.new) result }
        ensures units { IfOk result (λ _. HoldsUnits (program_tree checked.now) (run_of core.new) self.new) }
        ensures used { IfOk result (λ _. self.new.used ≤ self.old.used + 1) }
        ensures goes { IfOk result (λ more. more ≡ true → self.new.begun + self.new.used ≡ self.old.begun + self.old.used + 1) }
        ensures shape { self.new.shape ≡ self.old.shape }
        ensures safe { StaysSafe H.tells H.is_ready H.world settler.new.writer host.old host.new }
    {
        self.front = self.agents.freed_front(self.front);
        self.load_pass(checked, core, settler, host)?;
        self.move_picked(checked, core, settler, host, gate, picks)
    }

    /// One turn: the next line begins, where one may, or else the mover at the next pick moves. Answers whether anything was
    /// left to do.
    fn turn<H: Host, G: Gate, L: Lines>(
        &mut self,
        checked: &Checked,
        core: &mut Core,
        settler: &mut Settler,
        lines: &mut L,
        host: &mut H,
        gate: &G,
        width: u32,
        picks: &[u32],
    ) -> Result<bool, RunFault>
        requires units { HoldsUnits (program_tree checked.now) (run_of core.old) self.old }
        requires room { self.old.begun + self.old.used < 2 ^ 64 - 1 }
        requires shape { self.old.shape.types ≡ type_shapes (program_tree checked.now) }
        requires safe { IsSafe H.tells settler.old.writer (H.world host.old) }
        ensures same { L.lines lines.new ≡ L.lines lines.old }
        ensures turns { TurnGoesOn H.tells (program_tree checked.now) (L.lines lines.old) width picks.now
            (turn_stage (stage_of H.world H.faults (run_of core.old) settler.old host.old) self.old)
            (turn_stage (stage_of H.world H.faults (run_of core.new) settler.new host.new) self.new) result }
        ensures units { IfOk result (λ _. HoldsUnits (program_tree checked.now) (run_of core.new) self.new) }
        ensures used { IfOk result (λ _. self.new.used ≤ self.old.used + 1) }
        ensures goes { IfOk result (λ more. more ≡ true → self.new.begun + self.new.used ≡ self.old.begun + self.old.used + 1) }
        ensures shape { self.new.shape ≡ self.old.shape }
        ensures safe { StaysSafe H.tells H.is_ready H.world settler.new.writer host.old host.new }
    {
        drop_unless_doubted(
            &mut self.agents,
            &mut self.front,
            &mut self.looked,
            core,
            settler,
        );
        match self.next_line(settler, lines, width)? {
            Some(line) => {
                self.begin(checked, core, &line, gate)?;
                Ok(true)
            }
            None => self.move_one(checked, core, settler, host, gate, picks),
        }
    }
}

/// Carries all lines, and settles what they do, on one thread.
///
/// The width is 1 or more; with 0 nothing begins. While fewer lines than that are in flight and one is left, it begins: a bad line is told to the core, any other begins as
/// a unit. Else the mover at the next pick moves, 0 behind the end of the list: the picks count the movers round and round, which
/// are the units that can move, in number order, children among them, and after them the settler where it has a step. A unit
/// makes its next event, the settler its next step. After a doubt the settler alone moves. Without a mover the run has ended.
///
/// How many picks calls before this one used is told by `used`, 0 where there was none, and where it answers `Ok` that goes on by those
/// of this call: so a later call's picks begin where these ended.
///
/// It answers `Ok` where each line has its entry, all is written and nobody can move.
///
/// # Errors
///
/// - `InDoubt`: a batch was left in doubt, and all that is settled is written.
/// - `WriteFault`: the output failed.
/// - `LoadFault`: the file of a grain that a unit wants failed, where its last version was to be read; nothing is in doubt.
/// - `LoadDamaged`: no version stands where the log names that grain's last one. It doesn't come over a host that tells.
/// - `Memory`: memory ran out. So is told a run that hasn't ended by 2 to the 64 less one turns, in each of which an event applied; the
///   picks that were used before count among them.
///   What was put into the core and done to the host by then stands.
pub fn run_turns<H: Host, G: Gate, L: Lines>(
    alloc: Global,
    checked: &Checked,
    core: &mut Core,
    settler: &mut Settler,
    lines: &mut L,
    host: &mut H,
    gate: &G,
    width: u32,
    turns: &List<u32>,
    used: &mut usize,
) -> Result<(), RunFault>
    requires above { 0 < (run_of core.old).base }
    requires safe { IsSafe H.tells settler.old.writer (H.world host.old) }

    // The run's record, however it ends, and what it leaves beside that.
    ensures carries { TurnsCarry H.tells (program_tree checked.now) (L.lines lines.old) width turns.now used.old
        (stage_of H.world H.faults (run_of core.old) settler.old host.old)
        (stage_of H.world H.faults (run_of core.new) settler.new host.new) result }

    // How many picks were used by then, where all is done.
    ensures used { WhereTurnsBegin H.tells (program_tree checked.now) (L.lines lines.old) width turns.now used.old
        (stage_of H.world H.faults (run_of core.old) settler.old host.old)
        (λ o b. o.ruled ≡ true → IfOk result (λ _. picks_used (run_of core.new) (length (run_of core.new).events) ≡ used.new)) }
    ensures unused { IfErr result (λ _. used.new ≡ used.old) }

    ensures same { L.lines lines.new ≡ L.lines lines.old }
    ensures safe { StaysSafe H.tells H.is_ready H.world settler.new.writer host.old host.new }
{
    core.show_few();
    let _program = checked.program();
    let mut state = Turns {
        alloc,
        shape: checked.shape()?,
        agents: Agents::new(alloc),
        front: 0,
        looked: None,
        sure: 0,
        moved: None,
        moved_at: 0,
        begun: 0,
        used: *used,
    };
    for _turn in *used..usize::MAX {
        if !state.turn(
            checked,
            core,
            settler,
            lines,
            host,
            gate,
            width,
            turns.as_slice(),
        )? {
            *used = state.used;
            return Ok(());
        }
    }
    Err(RunFault::Memory)
}
