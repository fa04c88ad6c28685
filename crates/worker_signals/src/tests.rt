// One thread's calls, in order, and that threads may share the signals.
use crate::{Signals, Stand};
use std::test::Fail;

fn is_shared<T: Send + Sync>(_shared: &T) -> bool {
    true
}

#[test]
fn moves_are_counted_and_end_a_sleep(rt: HostRuntime) -> Result<(), Fail> {
    let signals = Signals::new();
    let mut stand = Stand::new();
    assert!(rt; is_shared(&signals), "threads may share it");
    assert_eq!(rt; signals.seen(), 0, "nobody has moved");
    signals.changed();
    assert_eq!(rt; signals.seen(), 1, "one move");
    signals.wait(&rt, 0, &mut stand);
    signals.wait(&rt, 1, &mut stand);
    assert_eq!(rt; signals.seen(), 1, "a sleep is no move");
    Ok(())
}

#[test]
fn workers_and_failures_are_told(rt: HostRuntime) -> Result<(), Fail> {
    let signals = Signals::new();
    assert_eq!(rt; signals.working(), 0, "nobody works");
    signals.begin();
    signals.begin();
    signals.end();
    assert_eq!(rt; signals.working(), 1, "one of two has ended");
    assert_eq!(rt; signals.seen(), 1, "an end is told as a move");
    assert!(rt; !signals.has_failed(), "nobody failed");
    signals.fail();
    assert!(rt; signals.has_failed(), "a worker failed");
    Ok(())
}

#[test]
fn a_call_ends_a_rest(rt: HostRuntime) -> Result<(), Fail> {
    let signals = Signals::new();
    let mut stand = Stand::new();
    assert_eq!(rt; signals.called(), 0, "nobody has called");
    signals.begin();
    signals.end();
    assert_eq!(rt; signals.called(), 1, "an end is a call");
    signals.rest(&rt, 0);
    signals.fail();
    assert_eq!(rt; signals.called(), 2, "so is a failure");
    signals.wait(&rt, 0, &mut stand);
    assert_eq!(rt; signals.called(), 3, "and one who waits calls");
    signals.rest(&rt, 3);
    Ok(())
}

#[test]
fn workers_are_ahead_of_one_who_writes(rt: HostRuntime) -> Result<(), Fail> {
    let signals = Signals::new();
    let mut stand = Stand::new();
    signals.come_to(1_000_000);
    assert!(rt; signals.may_begin(&mut stand), "nobody writes");
    signals.write(999_744);
    assert!(rt; signals.may_begin(&mut stand), "256 lines ahead");
    signals.write(999_743);
    assert!(rt; !signals.may_begin(&mut stand), "257 lines ahead");
    signals.keep_back(&rt, 0, &stand);
    assert_eq!(rt; signals.called(), 1, "one who is ahead calls");
    signals.write_no_more();
    assert!(rt; signals.may_begin(&mut stand), "nobody writes any more");
    Ok(())
}

#[test]
fn fewer_carry_where_lines_meet(rt: HostRuntime) -> Result<(), Fail> {
    let signals = Signals::new();
    let mut one = Stand::new();
    let mut other = Stand::new();
    assert!(rt;
        signals.may_begin(&mut one) && signals.may_begin(&mut other),
        "two may"
    );
    signals.come_to(2);
    signals.carry(&mut one, 1);
    signals.carry(&mut other, 2);
    signals.meet(&other);
    signals.end_line(&mut other);
    assert!(rt; !signals.may_begin(&mut other), "then one may");
    signals.keep_back(&rt, signals.room(), &other);
    signals.end_line(&mut one);
    assert!(rt; signals.may_begin(&mut one), "who has a place keeps it");
    for number in 3..66 {
        signals.come_to(number);
        signals.carry(&mut one, number);
        signals.end_line(&mut one);
    }
    assert!(rt;
        signals.may_begin(&mut other),
        "after 64 lines two may again"
    );
    signals.leave(&mut one);
    assert!(rt; signals.room() > 0, "one that leaves makes room");
    Ok(())
}

#[test]
fn nobody_begins_while_one_is_left_behind(rt: HostRuntime) -> Result<(), Fail> {
    let signals = Signals::new();
    let mut one = Stand::new();
    let mut other = Stand::new();
    signals.carry(&mut one, 1);
    signals.come_to(257);
    signals.wait(&rt, 1, &mut one);
    assert!(rt; signals.may_begin(&mut other), "256 lines began behind it");
    signals.come_to(258);
    signals.wait(&rt, 1, &mut one);
    assert!(rt; !signals.may_begin(&mut other), "257 did");
    signals.end_line(&mut one);
    assert!(rt; signals.may_begin(&mut other), "it has ended");
    Ok(())
}
