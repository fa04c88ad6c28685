// What a unit that is played does by itself: it evaluates, takes locks and asks for units of its own.

ghost use Rattle.std.specs.Prelude.{◌≡◌, ◌≤◌, ℕ, [], length, map, if◌then◌else◌, IfOk};
ghost use Rattle.script_tree.specs.Exprs.{expr_tree};
ghost use Rattle.script_tree.specs.Stmts.{SetField};
ghost use Rattle.script_tree.specs.Programs.{ProgramTree};
ghost use Rattle.script_values.specs.Expressions.{value_in, values_in};
ghost use Rattle.script_values.specs.Scopes.{surroundings};
ghost use Rattle.script_values.specs.Stops.{GivesOrStops};
ghost use Rattle.script_holding.specs.Holding.{Holding as Has, mode_at};
ghost use Rattle.script_meaning.specs.Requests.{Requests, Back, Caught, with_value};
ghost use Rattle.script_meaning.specs.Calls.{Runner, locked, joined, in_own_unit, answered, with_key, readable, settable};
ghost use Rattle.script_meaning.specs.Statements.{Next, by_truth, does};
ghost use Rattle.script_meaning.specs.Play.{at_start};
ghost use Rattle.script_player.specs.PlayState.{site_of, surrounds, answering, Leads};
ghost use Rattle.script_player.specs.declared.frames.World.{World as Worlds};

use crate::flows::Answer;
use crate::frames::{Site, World};
use base_types::{Call, GrainId, List, Mode, Outcome, State, Value};
use script_holding::Holding;
use script_tree::{Expr, FieldDecl, MethodKind, Name};
use script_values::{
    LocalList, Reason, Scope, Stop, evaluate, evaluate_all, fault_of, field_number, is_true,
    stop_at,
};
use std::alloc::{AllocError, Global};

/// How far a play came: the units that it asked for, the grains that it read, and how many answers it used.
#[derive(Drop)]
pub struct Progress {
    pub asked: List<(Call, u16)>,
    pub reads: List<(GrainId, State)>,
    pub used: usize,
}

/// A unit that is played: what it has, and how far it came.
#[derive(Drop)]
pub struct Player {
    pub has: Holding,
    pub progress: Progress,
}

/// What a caller does with a child's outcome: an abort is a fault.
fn answered(alloc: Global, outcome: &Outcome) -> Result<Answer, AllocError>
    ensures { IfOk result (λ answer. (back : Back) (caught : Caught) (has : Has) →
        answering answer back caught has ≡ answered outcome.now back caught has) }
{
    match outcome {
        Outcome::Value(value) => Ok(Answer::Value(value.copy()?)),
        Outcome::Fault(text) => Ok(Answer::Caught(text.copy()?)),
        Outcome::Aborted => Ok(Answer::Caught(fault_of(alloc, Reason::Aborted)?)),
    }
}

/// The fields that a method of this kind may read.
fn readable<'a>(kind: MethodKind, fields: &'a [FieldDecl]) -> &'a [FieldDecl]
    ensures { result.now ≡ readable kind fields.now }
{
    match kind {
        MethodKind::Plain => &[],
        MethodKind::Read | MethodKind::Update => fields,
    }
}

/// The fields that a method of this kind may set.
fn settable<'a>(kind: MethodKind, fields: &'a [FieldDecl]) -> &'a [FieldDecl]
    ensures { result.now ≡ settable kind fields.now }
{
    match kind {
        MethodKind::Plain | MethodKind::Read => &[],
        MethodKind::Update => fields,
    }
}

impl Player {
    /// A unit that begins.
    pub fn new(alloc: Global) -> Player
        ensures has { result.has ≡ at_start }
        ensures progress { result.progress ≡ record { asked = []; reads = []; used = 0 } }
    {
        Player {
            has: Holding::new(alloc),
            progress: Progress {
                asked: List::new(alloc),
                reads: List::new(alloc),
                used: 0,
            },
        }
    }

    /// What the expressions of a frame are evaluated in.
    fn scope<'a>(&'a self, site: &Site<'a>, locals: &'a LocalList) -> Scope<'a>
        ensures { surroundings result ≡ surrounds (site_of site.now) locals.now self.now.has }
    {
        Scope {
            fields: readable(site.kind, site.fields),
            key: site.grain.key,
            state: self.has.state_of(site.grain),
            locals,
        }
    }

    /// The value of an expression.
    pub fn given(
        &self,
        alloc: Global,
        site: &Site<'_>,
        expression: &Expr,
        locals: &LocalList,
    ) -> Result<Value, Stop>
        ensures { GivesOrStops result (value_in (surrounds (site_of site.now) locals.now self.now.has) (expr_tree expression.now)) }
    {
        let scope = self.scope(site, locals);
        evaluate(alloc, expression, &scope)
    }

    /// The values of a call's arguments.
    pub fn given_all(
        &self,
        alloc: Global,
        site: &Site<'_>,
        args: &[Expr],
        locals: &LocalList,
    ) -> Result<List<Value>, Stop>
        ensures { GivesOrStops result (values_in (surrounds (site_of site.now) locals.now self.now.has) (map expr_tree args.now)) }
    {
        let scope = self.scope(site, locals);
        evaluate_all(alloc, args, &scope)
    }

    /// What a condition's value means.
    fn truth_of(&self, alloc: Global, value: &Value) -> Result<bool, Stop>
        ensures { (world : Worlds) (first second : Requests) →
            Leads world self.now self.now.progress result (λ holds. if holds then first else second)
            (by_truth value.now self.now.has first second) }
    {
        match value {
            Value::Int(number) => Ok(is_true(*number)),
            Value::Text(_) => Err(stop_at(alloc, Reason::Kind)),
        }
    }

    /// Whether a condition holds. A number other than 0 is true, and a text is no condition.
    pub fn test(
        &self,
        alloc: Global,
        site: &Site<'_>,
        test: &Expr,
        locals: &LocalList,
    ) -> Result<bool, Stop>
        ensures { (world : Worlds) (first second : Requests) →
            Leads world self.now self.now.progress result (λ holds. if holds then first else second)
            (with_value (value_in (surrounds (site_of site.now) locals.now self.now.has) (expr_tree test.now))
            self.now.has (λ value. by_truth value self.now.has first second)) }
    {
        let value = self.given(alloc, site, test, locals)?;
        self.truth_of(alloc, &value)
    }

    /// The key at a place: a number from 0 on that fits 32 bits.
    pub fn key_at(&self, alloc: Global, place: &Value) -> Result<u32, Stop>
        ensures { (world : Worlds) (go : ℕ → Requests) →
            Leads world self.now self.now.progress result go (with_key place.now self.now.has go) }
    {
        match place {
            Value::Int(number) => {
                if *number < 0 {
                    return Err(stop_at(alloc, Reason::Key));
                }
                if *number > 4294967295 {
                    return Err(stop_at(alloc, Reason::Key));
                }
                Ok(*number as u32)
            }
            Value::Text(_) => Err(stop_at(alloc, Reason::Kind)),
        }
    }

    /// Sets a field of the frame's grain.
    pub fn set(
        &mut self,
        alloc: Global,
        site: &Site<'_>,
        name: &Name,
        value: &Expr,
        locals: &LocalList,
    ) -> Result<(), Stop>
        ensures led { (world : Worlds) (types : ProgramTree) (runner : Runner) (back : Back) (next : Next) →
            Leads world self.new self.old.progress result (λ _. next locals.now self.new.has)
            (does types runner (site_of site.now) back (SetField name.now (expr_tree value.now)) next
            locals.now self.old.has) }
        ensures fewer { self.new.has.left ≤ self.old.has.left }
    {
        let value = self.given(alloc, site, value, locals)?;
        let fields = settable(site.kind, site.fields);
        let Some(field) = field_number(&name.text, fields) else {
            return Err(stop_at(alloc, Reason::Unknown));
        };
        self.has.set_field(site.grain, field, value);
        Ok(())
    }

    /// Takes the lock of a grain that isn't held, where one more may be held.
    fn lock_first(
        &mut self,
        alloc: Global,
        world: &World<'_>,
        mode: Mode,
        grain: GrainId,
        fields: &[FieldDecl],
    ) -> Result<(), Stop>
        requires { length fields.now ≤ 64 }
        ensures led { (go : Has → Requests) →
            Leads world.now self.new self.old.progress result (λ _. go self.new.has)
            (locked None mode grain fields.now go self.old.has) }
        ensures fewer { self.new.has.left ≤ self.old.has.left }
    {
        if !self.has.has_room() {
            return Err(stop_at(alloc, Reason::Grains));
        }
        let found = world.found(alloc, grain)?;
        let read = found.copy()?;
        self.has.lock(grain, mode, fields, found)?;
        self.progress.reads.push((grain, read))?;
        Ok(())
    }

    /// Locks a grain, unless it is locked so already.
    fn lock(
        &mut self,
        alloc: Global,
        world: &World<'_>,
        mode: Mode,
        grain: GrainId,
        fields: &[FieldDecl],
    ) -> Result<(), Stop>
        requires { length fields.now ≤ 64 }
        ensures led { (go : Has → Requests) →
            Leads world.now self.new self.old.progress result (λ _. go self.new.has)
            (locked (mode_at grain self.old.has.held) mode grain fields.now go self.old.has) }
        ensures fewer { self.new.has.left ≤ self.old.has.left }
    {
        match self.has.mode_of(grain) {
            None => self.lock_first(alloc, world, mode, grain, fields),
            Some(Mode::Update) => Ok(()),
            Some(Mode::Read) => match mode {
                Mode::Read => Ok(()),
                Mode::Update => {
                    self.has.raise(grain);
                    Ok(())
                }
            },
        }
    }

    /// Joins a frame: locks its grain as its method needs it.
    pub fn join(
        &mut self,
        alloc: Global,
        world: &World<'_>,
        kind: MethodKind,
        grain: GrainId,
        fields: &[FieldDecl],
    ) -> Result<(), Stop>
        requires { length fields.now ≤ 64 }
        ensures led { (go : Has → Requests) →
            Leads world.now self.new self.old.progress result (λ _. go self.new.has)
            (joined kind grain fields.now go self.old.has) }
        ensures fewer { self.new.has.left ≤ self.old.has.left }
    {
        match kind {
            MethodKind::Plain => Ok(()),
            MethodKind::Read => self.lock(alloc, world, Mode::Read, grain, fields),
            MethodKind::Update => self.lock(alloc, world, Mode::Update, grain, fields),
        }
    }

    /// Asks for a unit of its own, where one more may be asked for, and takes the next of the answers.
    pub fn ask(
        &mut self,
        alloc: Global,
        world: &World<'_>,
        call: Call,
        depth: u16,
    ) -> Result<Answer, Stop>
        ensures led { (onto : Back) (caught : Caught) →
            Leads world.now self.new self.old.progress result (λ answer. answering answer onto caught self.new.has)
            (in_own_unit call depth onto caught self.old.has) }
        ensures fewer { self.new.has.left ≤ self.old.has.left }
    {
        if !self.has.ask_unit() {
            return Err(stop_at(alloc, Reason::Units));
        }
        self.progress.asked.push((call, depth))?;
        let Some(outcome) = world.answer(self.progress.used) else {
            return Ok(Answer::Caught(fault_of(alloc, Reason::Aborted)?));
        };
        self.progress.used += 1;
        Ok(answered(alloc, outcome)?)
    }
}
