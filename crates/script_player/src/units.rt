ghost use Rattle.std.specs.Prelude.{◌≡◌, ◌≤◌, ◌++◌, ◌∷◌, List as Lists, length, take, drop, IfOk};
ghost use Rattle.base_types.specs.declared.calls.Value.{Value as Values};
ghost use Rattle.script_tree.specs.Programs.{program_tree};
ghost use Rattle.script_holding.specs.Holding.{Holding as Has};
ghost use Rattle.script_meaning.specs.Requests.{Requests, End, stop};
ghost use Rattle.script_meaning.specs.Play.{at_start, as_first, ends_unit, unit, is_below, insert, states_set, writes_of, play};
ghost use Rattle.script_player.specs.PlayState.{types_in, answering, heard, Leads, played_of};
ghost use Rattle.script_player.specs.declared.frames.World.{World as Worlds};
ghost use Rattle.script_player.specs.declared.player.Player.{Player as Players};
ghost use Rattle.script_player.specs.declared.player.Progress.{Progress as Progresses};

use crate::flows::Answer;
use crate::frames::World;
use crate::player::Player;
use base_types::{Call, GrainId, List, Outcome, State, Store};
use script_check::Checked;
use script_holding::Held;
use script_meaning::target_at;
use script_tree::Entered;
use script_values::{Reason, Stop, stop_at};
use std::alloc::{AllocError, Global};
use txn_options::enter;

/// What a play gives: its result, the units that it asks for with their depths, the grains in the order of their
/// first locks with the states found, and the grains that it set with their last states, ascending.
#[derive(Drop)]
pub struct Played {
    pub result: Outcome,
    pub asked: List<(Call, u16)>,
    pub reads: List<(GrainId, State)>,
    pub writes: List<(GrainId, State)>,
}

/// The first frame of a unit of its own is in that unit.
fn as_first(way: Entered) -> Entered
    ensures { result ≡ as_first way }
{
    match way {
        Entered::NewUnit => Entered::Joined,
        Entered::Joined => Entered::Joined,
        Entered::Plain { context } => Entered::Plain { context },
        Entered::Refused(why) => Entered::Refused(why),
    }
}

/// Grains in order: by type, then key.
fn is_below(one: GrainId, other: GrainId) -> bool
    ensures { result ≡ is_below one other }
{
    one.kind < other.kind || (one.kind == other.kind && one.key < other.key)
}

/// Where a grain belongs among others in order.
fn place_of(list: &[(GrainId, State)], grain: GrainId) -> usize
    ensures within { result ≤ length list.now }
    ensures there { (state : Lists Values) →
        insert (grain, state) list.now ≡ take result list.now ++ ((grain, state) ∷ drop result list.now) }
{
    for (i, one) in list.iter().enumerate() {
        if is_below(grain, one.0) {
            return i;
        }
    }
    list.len()
}

/// The held grains that were set, ascending, with their working states.
fn written(alloc: Global, held: &[Held]) -> Result<Vec<(GrainId, State)>, AllocError>
    ensures { IfOk result (λ writes. writes.items ≡ states_set held.now) }
{
    let mut writes = Vec::new(alloc);
    let mut left = held.len();
    while left > 0 {
        left -= 1;
        let one = &held[left];
        if one.written {
            let state = one.state.copy()?;
            let place = place_of(writes.as_slice(), one.grain);
            writes.insert(place, (one.grain, state))?;
        }
    }
    Ok(writes)
}

/// What a unit writes: nothing, unless it ended with a value.
fn writes_of(
    alloc: Global,
    outcome: &Outcome,
    held: &[Held],
) -> Result<List<(GrainId, State)>, AllocError>
    ensures { (has : Has) → has.held ≡ held.now → IfOk result (λ writes. writes ≡ writes_of outcome.now has) }
{
    match outcome {
        Outcome::Value(_) => Ok(List::from_vec(written(alloc, held)?)),
        Outcome::Fault(_) | Outcome::Aborted => Ok(List::new(alloc)),
    }
}

/// How a unit ended.
fn outcome_of(end: Result<Answer, Stop>) -> Result<Outcome, AllocError>
    ensures { IfOk result (λ outcome. (world : Worlds) (player : Players) (old : Progresses) (before : Requests) →
        Leads world player old end (λ answer. answering answer ends_unit stop player.has) before → heard world player.progress
        (End outcome player.has) ≡ heard world old before) }
{
    match end {
        Ok(Answer::Value(value)) => Ok(Outcome::Value(value)),
        Ok(Answer::Caught(text)) => Ok(Outcome::Fault(text)),
        Err(Stop::Fault(text)) => Ok(Outcome::Fault(text)),
        Err(Stop::Memory) => Err(AllocError),
    }
}

impl Player {
    /// A unit from its beginning, whose first frame has this depth.
    fn play_unit(
        &mut self,
        alloc: Global,
        world: &World<'_>,
        call: &Call,
        depth: u16,
    ) -> Result<Answer, Stop>
        requires { self.old.has ≡ at_start }
        ensures { Leads world.now self.new self.old.progress result (λ answer. answering answer ends_unit stop self.new.has)
            (unit (types_in world.now) call.now depth) }
    {
        let Some(target) = target_at(world.types(), call.grain.kind, call.method) else {
            return Err(stop_at(alloc, Reason::Unknown));
        };
        let way = as_first(enter(target.method.option, false));
        let args = call.args.copy()?;
        self.play_target(alloc, world, way, depth, call.grain, target, args)
    }
}

/// What a call does as a unit over a store, where the units that it asks for have these outcomes in order, and
/// any more of them are aborted. The first frame has this depth: 1 for a request, one more than its caller's for
/// a child.
///
/// This is the meaning carried out step by step: slow beside a machine that pauses, and the same.
pub fn play(
    alloc: Global,
    checked: &Checked,
    call: &Call,
    depth: u16,
    store: &Store,
    answers: &[Outcome],
) -> Result<Played, AllocError>
    ensures { IfOk result (λ played. played_of played ≡ play (program_tree checked.now) call.now depth store.now answers.now) }
{
    let world = World {
        program: checked,
        store,
        answers,
    };
    let mut player = Player::new(alloc);
    let end = player.play_unit(alloc, &world, call, depth);
    let result = outcome_of(end)?;
    let writes = writes_of(alloc, &result, player.has.held())?;
    Ok(Played {
        result,
        asked: player.progress.asked,
        reads: player.progress.reads,
        writes,
    })
}
