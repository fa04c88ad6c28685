// What a unit that is played does statement by statement, one frame within another.

ghost use Rattle.std.specs.Prelude.{◌≡◌, ◌≤◌, ◌-◌, length};
ghost use Rattle.base_types.specs.declared.calls.Value.{Value as Values};
ghost use Rattle.script_tree.specs.Exprs.{expr_tree, call_tree};
ghost use Rattle.script_tree.specs.Stmts.{Repeat, source_tree, stmt_tree, stmt_trees, block_tree};
ghost use Rattle.script_tree.specs.Programs.{method_tree};
ghost use Rattle.script_holding.specs.Limits.{depth_limit};
ghost use Rattle.script_meaning.specs.Requests.{Back, Caught, stop};
ghost use Rattle.script_meaning.specs.Calls.{bound, enters};
ghost use Rattle.script_meaning.specs.Statements.{Next, takes_step, calls, sourced, does, runs, deep};
ghost use Rattle.script_meaning.specs.Targets.{target_of};
ghost use Rattle.script_player.specs.PlayState.{types_in, site_of, below, plays_method, answering, flowing, Leads};

use crate::flows::{Answer, Flow};
use crate::frames::{Site, World};
use crate::player::Player;
use base_types::{Call, GrainId, List, Value};
use script_check::fitted;
use script_holding::DEPTH_LIMIT;
use script_meaning::{Target, bind_arguments, target_named, type_number};
use script_tree::{CallExpr, Entered, Expr, Method, MethodKind, Source, Stmt};
use script_values::{FrameLocals, LocalList, Reason, Stop, assign, refusal, stop_at};
use std::alloc::Global;
use txn_options::enter;

impl Player {
    /// The statements of a block.
    #[cycle(play)]
    fn play_block(
        &mut self,
        alloc: Global,
        world: &World<'_>,
        site: &Site<'_>,
        block: &[Stmt],
        locals: &mut FrameLocals,
    ) -> Result<Flow, Stop>
        requires { site.now.depth ≤ 32 }
        ensures led { (back : Back) (next : Next) →
            Leads world.now self.new self.old.progress result (λ flow. flowing flow back next locals.new.items self.new.has)
            (runs (types_in world.now) (below world.now site.now.depth) (site_of site.now) back
            (block_tree (stmt_trees block.now)) next locals.old.items self.old.has) }
        ensures fewer { self.new.has.left ≤ self.old.has.left }
    {
        for stmt in block {
            match self.play_step(alloc, world, site, stmt, locals)? {
                Flow::Next => {}
                Flow::Return(value) => return Ok(Flow::Return(value)),
            }
        }
        Ok(Flow::Next)
    }

    /// A statement, for which a step is taken.
    #[cycle(play)]
    fn play_step(
        &mut self,
        alloc: Global,
        world: &World<'_>,
        site: &Site<'_>,
        stmt: &Stmt,
        locals: &mut FrameLocals,
    ) -> Result<Flow, Stop>
        requires { site.now.depth ≤ 32 }
        ensures led { (back : Back) (next : Next) →
            Leads world.now self.new self.old.progress result (λ flow. flowing flow back next locals.new.items self.new.has)
            (takes_step (does (types_in world.now) (below world.now site.now.depth) (site_of site.now) back
            (stmt_tree stmt.now) next) locals.old.items self.old.has) }
        ensures fewer { self.new.has.left ≤ self.old.has.left }
    {
        if !self.has.take_step() {
            return Err(stop_at(alloc, Reason::Budget));
        }
        self.play_statement(alloc, world, site, stmt, locals)
    }

    /// A statement, once its step is taken.
    #[cycle(play)]
    fn play_statement(
        &mut self,
        alloc: Global,
        world: &World<'_>,
        site: &Site<'_>,
        stmt: &Stmt,
        locals: &mut FrameLocals,
    ) -> Result<Flow, Stop>
        requires { site.now.depth ≤ 32 }
        ensures led { (back : Back) (next : Next) →
            Leads world.now self.new self.old.progress result (λ flow. flowing flow back next locals.new.items self.new.has)
            (does (types_in world.now) (below world.now site.now.depth) (site_of site.now) back
            (stmt_tree stmt.now) next locals.old.items self.old.has) }
        ensures fewer { self.new.has.left ≤ self.old.has.left }
    {
        match stmt {
            Stmt::Let { name, value } => {
                let value = self.play_source(alloc, world, site, value, locals.as_slice())?;
                assign(locals, &name.text, value)?;
                Ok(Flow::Next)
            }
            Stmt::Assign { name, value } => {
                let value = self.play_source(alloc, world, site, value, locals.as_slice())?;
                assign(locals, &name.text, value)?;
                Ok(Flow::Next)
            }
            Stmt::Set { name, value } => {
                self.set(alloc, site, name, value, locals.as_slice())?;
                Ok(Flow::Next)
            }
            Stmt::Call { call } => {
                self.play_plainly(alloc, world, site, call, locals.as_slice())?;
                Ok(Flow::Next)
            }
            Stmt::If { test, then, other } => {
                let holds = self.test(alloc, site, test, locals.as_slice())?;
                if holds {
                    return self.play_block(alloc, world, site, then.as_slice(), locals);
                }
                match other {
                    Some(other) => self.play_block(alloc, world, site, other.as_slice(), locals),
                    None => Ok(Flow::Next),
                }
            }
            Stmt::While { test, body } => self.play_loop(
                alloc,
                world,
                site,
                test,
                body.as_slice(),
                locals,
            ),
            Stmt::Return { value } => {
                let value = self.given(alloc, site, value, locals.as_slice())?;
                Ok(Flow::Return(value))
            }
            Stmt::Fail { text } => Err(Stop::Fault(fitted(alloc, text)?)),
            Stmt::Attempt {
                name,
                call,
                then,
                other,
                ..
            } => match self.play_call(alloc, world, site, call, locals.as_slice())? {
                Answer::Value(value) => {
                    assign(locals, &name.text, value)?;
                    self.play_block(alloc, world, site, then.as_slice(), locals)
                }
                Answer::Caught(text) => {
                    assign(locals, &name.text, Value::Text(text))?;
                    self.play_block(alloc, world, site, other.as_slice(), locals)
                }
            },
        }
    }

    /// A loop. Each turn takes a step for its test.
    #[cycle(play)]
    fn play_loop(
        &mut self,
        alloc: Global,
        world: &World<'_>,
        site: &Site<'_>,
        test: &Expr,
        body: &[Stmt],
        locals: &mut FrameLocals,
    ) -> Result<Flow, Stop>
        requires { site.now.depth ≤ 32 }
        ensures led { (back : Back) (next : Next) →
            Leads world.now self.new self.old.progress result (λ flow. flowing flow back next locals.new.items self.new.has)
            (does (types_in world.now) (below world.now site.now.depth) (site_of site.now) back
            (Repeat (expr_tree test.now) (block_tree (stmt_trees body.now))) next locals.old.items self.old.has) }
        ensures fewer { self.new.has.left ≤ self.old.has.left }
    {
        'turns: loop {
            if !self.has.take_step() {
                return Err(stop_at(alloc, Reason::Budget));
            }
            let holds = self.test(alloc, site, test, locals.as_slice())?;
            if !holds {
                return Ok(Flow::Next);
            }
            match self.play_block(alloc, world, site, body, locals)? {
                Flow::Next => {}
                Flow::Return(value) => return Ok(Flow::Return(value)),
            }
        }
    }

    /// What a local is given.
    #[cycle(play)]
    fn play_source(
        &mut self,
        alloc: Global,
        world: &World<'_>,
        site: &Site<'_>,
        source: &Source,
        locals: &LocalList,
    ) -> Result<Value, Stop>
        requires { site.now.depth ≤ 32 }
        ensures led { (back : Back) (onto : Values → Next) →
            Leads world.now self.new self.old.progress result (λ value. onto value locals.now self.new.has)
            (sourced (types_in world.now) (below world.now site.now.depth) (site_of site.now) back
            (source_tree source.now) onto locals.now self.old.has) }
        ensures fewer { self.new.has.left ≤ self.old.has.left }
    {
        match source {
            Source::Expr(value) => self.given(alloc, site, value, locals),
            Source::Call(call) => self.play_plainly(alloc, world, site, call, locals),
        }
    }

    /// A call whose fault nothing catches.
    #[cycle(play)]
    fn play_plainly(
        &mut self,
        alloc: Global,
        world: &World<'_>,
        site: &Site<'_>,
        call: &CallExpr,
        locals: &LocalList,
    ) -> Result<Value, Stop>
        requires { site.now.depth ≤ 32 }
        ensures led { (back onto : Back) →
            Leads world.now self.new self.old.progress result (λ value. onto value self.new.has)
            (calls (types_in world.now) (below world.now site.now.depth) (site_of site.now) back
            (call_tree call.now) onto stop locals.now self.old.has) }
        ensures fewer { self.new.has.left ≤ self.old.has.left }
    {
        match self.play_call(alloc, world, site, call, locals)? {
            Answer::Value(value) => Ok(value),
            Answer::Caught(text) => Err(Stop::Fault(text)),
        }
    }

    /// A call: its place and its arguments are evaluated, then its method is looked up.
    #[cycle(play)]
    fn play_call(
        &mut self,
        alloc: Global,
        world: &World<'_>,
        site: &Site<'_>,
        call: &CallExpr,
        locals: &LocalList,
    ) -> Result<Answer, Stop>
        requires { site.now.depth ≤ 32 }
        ensures led { (back onto : Back) (caught : Caught) →
            Leads world.now self.new self.old.progress result (λ answer. answering answer onto caught self.new.has)
            (calls (types_in world.now) (below world.now site.now.depth) (site_of site.now) back
            (call_tree call.now) onto caught locals.now self.old.has) }
        ensures fewer { self.new.has.left ≤ self.old.has.left }
    {
        let place = self.given(alloc, site, &call.place, locals)?;
        let args = self.given_all(alloc, site, call.args.as_slice(), locals)?;
        let key = self.key_at(alloc, &place)?;
        let types = world.types();
        let Some(kind) = type_number(types, &call.target.text) else {
            return Err(stop_at(alloc, Reason::Unknown));
        };
        let Some(target) = target_named(types, kind, &call.method.text) else {
            return Err(stop_at(alloc, Reason::Unknown));
        };
        let way = enter(target.method.option, site.context);
        let grain = GrainId { kind, key };
        self.play_target(alloc, world, way, site.depth + 1, grain, target, args)
    }

    /// A method's frame at this depth, or its unit.
    #[cycle(play)]
    pub fn play_target(
        &mut self,
        alloc: Global,
        world: &World<'_>,
        way: Entered,
        depth: u16,
        grain: GrainId,
        target: Target<'_>,
        args: List<Value>,
    ) -> Result<Answer, Stop>
        requires { length target.of_type.now.fields.list.items ≤ 64 }
        ensures led { (onto : Back) (caught : Caught) →
            Leads world.now self.new self.old.progress result (λ answer. answering answer onto caught self.new.has)
            (enters (deep (types_in world.now) (33 - depth)) way depth grain (target_of target.entry) args
            onto caught self.old.has) }
        ensures fewer { self.new.has.left ≤ self.old.has.left }
    {
        if let Entered::Refused(why) = way {
            return Err(stop_at(alloc, refusal(why)));
        }
        if depth > DEPTH_LIMIT {
            return Err(stop_at(alloc, Reason::Depth));
        }
        let fields = target.of_type.fields.as_slice();
        match way {
            Entered::NewUnit => {
                let call = Call {
                    grain,
                    method: target.number,
                    args,
                };
                self.ask(alloc, world, call, depth)
            }
            Entered::Plain { context } => {
                let site = Site {
                    fields,
                    kind: MethodKind::Plain,
                    grain,
                    context,
                    depth,
                };
                let value = self.play_method(alloc, world, &site, target.method, args)?;
                Ok(Answer::Value(value))
            }
            Entered::Joined => {
                self.join(alloc, world, target.method.kind, grain, fields)?;
                let site = Site {
                    fields,
                    kind: target.method.kind,
                    grain,
                    context: true,
                    depth,
                };
                let value = self.play_method(alloc, world, &site, target.method, args)?;
                Ok(Answer::Value(value))
            }
            Entered::Refused(why) => Err(stop_at(alloc, refusal(why))),
        }
    }

    /// A method's body in a frame of its own. Without a `return` it gives 0.
    #[cycle(play)]
    fn play_method(
        &mut self,
        alloc: Global,
        world: &World<'_>,
        site: &Site<'_>,
        method: &Method,
        args: List<Value>,
    ) -> Result<Value, Stop>
        requires { site.now.depth ≤ 32 }
        ensures led { (back : Back) →
            Leads world.now self.new self.old.progress result (λ value. back value self.new.has)
            (plays_method world.now (site_of site.now) (method_tree method.now)
            (bound method.now.params.list.items args) back self.old.has) }
        ensures fewer { self.new.has.left ≤ self.old.has.left }
    {
        let mut locals = bind_arguments(alloc, &method.params, args)?;
        match self.play_block(alloc, world, site, method.body.as_slice(), &mut locals)? {
            Flow::Next => Ok(Value::Int(0)),
            Flow::Return(value) => Ok(value),
        }
    }
}
