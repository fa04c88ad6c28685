// What no clause says: that calls return, that threads get on side by side, and what two objects make of their events.
mod marks;
mod tally;
mod workers;

use crate::TurnCell;
use marks::Marks;
use std::test::Fail;
use tally::{Add, Tally};
use workers::{beside, crowd, may_cross};

#[test]
fn two_threads_add_a_thousand_each(rt: HostRuntime) -> Result<(), Fail> {
    let (cell, pass) = TurnCell::new(rt.alloc(), Tally::new(rt.alloc(), 2000))?;
    let (pass, other) = cell.split(pass);
    may_cross(&cell, &other);
    let (pass, other, rose) = beside(&rt, &cell, pass, other, 1000);
    assert!(rt; rose, "a reply did not rise");
    let pass = cell.join(pass, other);
    let tally = cell.close(pass);
    assert_eq!(rt; (tally.number(), tally.count()), (2000, 2000));
    Ok(())
}

#[test]
fn four_threads_see_their_own_replies_rise(rt: HostRuntime) -> Result<(), Fail> {
    let (cell, pass) = TurnCell::new(rt.alloc(), Tally::new(rt.alloc(), 1000))?;
    let (pass, rose) = crowd(&rt, &cell, pass, 250, 4);
    assert!(rt; rose, "a reply did not rise");
    let tally = cell.close(pass);
    assert_eq!(rt; (tally.number(), tally.count()), (1000, 1000));
    Ok(())
}

#[test]
fn a_look_sees_the_call_before_it(rt: HostRuntime) -> Result<(), Fail> {
    let (cell, pass) = TurnCell::new(rt.alloc(), Tally::new(rt.alloc(), 3))?;
    let (mut pass, reply) = cell.call(&rt, pass, Add(5));
    assert!(rt; reply == Ok(5), "the first reply");
    let seen = cell.see(&rt, &mut pass, &());
    assert!(rt; seen == Ok(5), "seen by the same pass");
    let reply = cell.put(&rt, &mut pass, Add(u64::MAX));
    assert!(rt; reply == Ok(4), "replies are modulo 2 to the 64");
    let (pass, seen) = cell.look(&rt, pass, &());
    assert!(rt; seen == Ok(4), "seen by the same pass");
    let tally = cell.close(pass);
    assert_eq!(rt; (tally.number(), tally.count()), (4, 2));
    Ok(())
}

#[test]
fn a_refused_event_leaves_all_as_it_was(rt: HostRuntime) -> Result<(), Fail> {
    let (cell, pass) = TurnCell::new(rt.alloc(), Tally::new(rt.alloc(), 1))?;
    let (pass, first) = cell.call(&rt, pass, Add(5));
    assert!(rt; first == Ok(5), "there is room for one");
    let (pass, refused) = cell.call(&rt, pass, Add(6));
    assert!(rt;
        matches!(&refused, Err((_, Add(6)))),
        "the event comes back"
    );
    let (pass, seen) = cell.look(&rt, pass, &());
    assert!(rt; seen == Ok(5), "after the refusal");
    let tally = cell.close(pass);
    assert_eq!(rt; (tally.number(), tally.count()), (5, 1));
    Ok(())
}

#[test]
fn an_object_may_mean_a_function(rt: HostRuntime) -> Result<(), Fail> {
    let (cell, pass) = TurnCell::new(rt.alloc(), Marks::new(rt.alloc()))?;
    let (mut pass, mut other) = cell.split(pass);
    let first = cell.put(&rt, &mut pass, 7);
    let second = cell.put(&rt, &mut pass, 3);
    let third = cell.put(&rt, &mut pass, 7);
    assert!(rt;
        first == Ok(1) && second == Ok(1),
        "each number for the first time"
    );
    assert!(rt; third == Ok(2), "7 for the second time");
    let seen = cell.see(&rt, &mut other, &7);
    assert!(rt; seen == Ok(2), "the other pass sees it");
    let pass = cell.join(pass, other);
    let marks = cell.close(pass);
    assert_eq!(rt; marks.count(), 3);
    Ok(())
}
