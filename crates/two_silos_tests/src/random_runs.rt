// Random events of a world, beside the plain second implementation.
ghost use Rattle.std.specs.Prelude.{◌<◌, ◌≤◌};

use crate::openings::{account, openings, parts};
use crate::plain_model::{Move, Plain};
use std::alloc::{AllocError, Global};
use std::test::Fail;
use two_silos::{World, WorldEvent};

// One more draw, below a limit.
fn draw(number: &mut u64, limit: u64) -> u64
    requires some { 0 < limit }
    ensures { result < limit }
{
    *number = number
        .wrapping_mul(6364136223846793005)
        .wrapping_add(1442695040888963407);
    (*number >> 33) % limit
}

// The moves of the next transaction, by participant, then account: about three.
fn moves(
    plain: &Plain,
    nodes: u8,
    number: &mut u64,
    alloc: Global,
) -> Result<Vec<Move>, AllocError> {
    let txn = plain.next();
    let mut made = Vec::new(alloc);
    for at in 0..nodes as u32 * 3 {
        if draw(number, nodes as u64 + 1) == 0 {
            made.push(Move {
                txn,
                node: (at / 3) as u8,
                key: at % 3,
                delta: draw(number, 21) as i64 - 10,
            })?;
        }
    }
    Ok(made)
}

// The world and the plain second implementation, with as many participants.
#[derive(Drop)]
struct Pair {
    world: World,
    plain: Plain,
    nodes: u8,
    number: u64,
}

fn opened(seed: u64, alloc: Global) -> Result<Pair, AllocError> {
    let nodes = (2 + seed % 7) as u8;
    let plain = Plain::new(nodes, 10, alloc);
    let number = seed;
    let openings = openings(nodes, alloc)?;
    let world = World::new(openings, alloc)?;
    Ok(Pair {
        world,
        plain,
        nodes,
        number,
    })
}

// The next random event of the world, which has happened in the plain one already.
fn draw_event(
    plain: &mut Plain,
    nodes: u8,
    packets: u64,
    number: &mut u64,
    alloc: Global,
) -> Result<WorldEvent, AllocError> {
    let pick = draw(number, 40);
    if pick < 6 {
        let moves = moves(plain, nodes, number, alloc)?;
        plain.start(moves.as_slice())?;
        let parts = parts(moves.as_slice(), nodes, alloc)?;
        return Ok(WorldEvent::Start { parts });
    }
    if pick < 8 {
        plain.nudge_coordinator()?;
        return Ok(WorldEvent::NudgeCoordinator);
    }
    if pick < 10 {
        let node = draw(number, 9) as u8;
        plain.nudge(node)?;
        return Ok(WorldEvent::Nudge { node });
    }
    if pick == 10 {
        plain.restart_coordinator();
        return Ok(WorldEvent::RestartCoordinator);
    }
    if pick == 11 {
        let node = draw(number, 9) as u8;
        return Ok(WorldEvent::Restart { node });
    }
    let packet = draw(number, 20 + packets.min(4294967275)) as u32;
    plain.deliver(packet as usize)?;
    Ok(WorldEvent::Deliver { packet })
}

// An event happens in both. Whether they tell the same after it.
fn happen(pair: &mut Pair, alloc: Global) -> Result<bool, AllocError> {
    let packets = pair.world.packets();
    let event = draw_event(
        &mut pair.plain,
        pair.nodes,
        packets,
        &mut pair.number,
        alloc,
    )?;
    pair.world.step(event)?;
    Ok(agree(&pair.world, &pair.plain, pair.nodes))
}

// Whether both tell the same of a participant.
fn agree_at(world: &World, plain: &Plain, node: u8) -> bool {
    let Some(log) = world.log(node) else {
        return false;
    };
    for key in 0..3u32 {
        if world.balance(node, account(key)) != Some(plain.balance(node, key)) {
            return false;
        }
    }
    plain.has_log(node, log)
}

// Whether both tell the same.
fn agree(world: &World, plain: &Plain, nodes: u8) -> bool {
    for node in 0..nodes {
        if !agree_at(world, plain, node) {
            return false;
        }
    }
    world.packets() == plain.packets()
        && world.pending() == plain.pending()
        && world.commits() == plain.commits()
}

#[test]
fn random_events_do_as_the_plain_rules_say(rt: HostRuntime) -> Result<(), Fail> {
    let alloc = rt.alloc();
    let mut commits = 0usize;
    for seed in 0..56u64 {
        let mut pair = opened(seed, alloc)?;
        for event in 0..200u32 {
            assert!(rt; happen(&mut pair, alloc)?, "seed {seed}, event {event}");
        }
        commits = commits.wrapping_add(pair.world.commits().len());
    }
    assert!(rt; commits > 100, "only {commits} commits");
    Ok(())
}
