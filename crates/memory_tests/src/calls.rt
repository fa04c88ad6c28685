// Calls of a host in memory, with files, failures, stops and crashes worked out by hand.
use base_types::GrainId;
use host_memory::{CallKind, MemoryHost};
use host_trait::{Channel, Failed, FileId, Host, read_full, write_synced};
use std::test::Fail;

const MANAGER: FileId = FileId::Manager { slot: 0 };

const PROGRAM: FileId = FileId::Program { slot: 0 };

fn is(bytes: &[u8], want: &[u8]) -> bool {
    bytes == want
}

fn holds(host: &MemoryHost, file: FileId, want: &[u8]) -> bool {
    match host.file(file) {
        Some(bytes) => bytes == want,
        None => false,
    }
}

// The text of a file, `-` where it was never written.
fn text_in(host: &MemoryHost, file: FileId) -> &str {
    match host.file(file) {
        Some(bytes) => std::str::from_utf8(bytes).unwrap_or("?"),
        None => "-",
    }
}

fn byte(bytes: &[u8], i: usize) -> u8 {
    bytes.get(i).copied().unwrap_or(0)
}

// Writes where the file has the place.
fn write(host: &mut MemoryHost, at: u64, bytes: &[u8]) -> Result<(), Failed> {
    let length = host.length(FileId::Manager { slot: 0 })?;
    if at > length {
        return Err(Failed);
    }
    host.write_at(FileId::Manager { slot: 0 }, at, bytes)?;
    Ok(())
}

// A host whose manager file is `abcd`, on the disk.
fn with_abcd(rt: &HostRuntime) -> Result<MemoryHost, Fail> {
    let mut host = MemoryHost::new(rt.alloc(), b"")?;
    host.set_file(FileId::Manager { slot: 0 }, b"abcd")?;
    Ok(host)
}

#[test]
fn what_is_pulled_is_the_input_and_what_is_emitted_the_output(rt: HostRuntime) -> Result<(), Fail> {
    let mut host = MemoryHost::new(rt.alloc(), b"hello")?;
    let mut into = [0; 3];
    assert_eq!(rt; host.pull(&mut into), Ok(3));
    assert_eq!(rt; into, *b"hel");
    assert_eq!(rt; host.pull(&mut into), Ok(2));
    assert_eq!(rt; into, *b"lol");
    assert_eq!(rt; host.pull(&mut into), Ok(0));
    host.set_input(b"more")?;
    assert_eq!(rt; host.pull(&mut into), Ok(3));
    assert!(rt; host.emit(b"one ").is_ok());
    assert!(rt; host.emit(b"two").is_ok());
    assert!(rt; is(host.output(), b"one two"));
    assert_eq!(rt; host.calls(), 6);
    assert_eq!(rt; host.starved(), 0);
    Ok(())
}

#[test]
fn a_file_gives_back_what_was_written(rt: HostRuntime) -> Result<(), Fail> {
    let mut host = MemoryHost::new(rt.alloc(), b"")?;
    assert!(rt; host.file(MANAGER).is_none());
    assert_eq!(rt; host.length(FileId::Manager { slot: 0 }), Ok(0));
    assert!(rt; write(&mut host, 0, b"hello").is_ok());
    assert!(rt; write(&mut host, 3, b"p!!").is_ok());
    assert!(rt; host.sync(FileId::Manager { slot: 0 }).is_ok());
    assert!(rt; holds(&host, MANAGER, b"help!!"));
    assert!(rt; host.file(PROGRAM).is_none());
    let mut into = [0; 8];
    assert_eq!(rt;
        host.read_at(FileId::Manager { slot: 0 }, 2, &mut into),
        Ok(4)
    );
    assert_eq!(rt; into, *b"lp!!\0\0\0\0");
    assert_eq!(rt;
        host.read_at(FileId::Manager { slot: 0 }, 9, &mut into),
        Ok(0)
    );
    assert_eq!(rt; host.syncs(), 1);
    host.set_file(FileId::Program { slot: 1 }, b"text")?;
    assert!(rt; holds(&host, FileId::Program { slot: 1 }, b"text"));
    Ok(())
}

#[test]
fn a_grain_file_is_used_once_it_is_ready(rt: HostRuntime) -> Result<(), Fail> {
    let mut host = MemoryHost::new(rt.alloc(), b"")?;
    let file = FileId::Grain {
        slot: 0,
        grain: GrainId { kind: 1, key: 7 },
    };
    host.ready(file)?;
    assert!(rt; host.write_at(file, 0, b"state").is_ok());
    assert!(rt; host.sync(file).is_ok());
    assert!(rt; holds(&host, file, b"state"));
    Ok(())
}

#[test]
fn two_calls_that_belong_together(rt: HostRuntime) -> Result<(), Fail> {
    let mut host = MemoryHost::new(rt.alloc(), b"")?;
    assert!(rt; write_synced(&mut host, FileId::Manager { slot: 0 }, 0, b"block").is_ok());
    assert_eq!(rt; host.syncs(), 1);
    let mut into = [0; 3];
    assert_eq!(rt;
        read_full(&mut host, FileId::Manager { slot: 0 }, 1, &mut into),
        Ok(true)
    );
    assert_eq!(rt; into, *b"loc");
    assert_eq!(rt;
        read_full(&mut host, FileId::Manager { slot: 0 }, 3, &mut into),
        Ok(false)
    );
    Ok(())
}

#[test]
fn the_planned_calls_fail(rt: HostRuntime) -> Result<(), Fail> {
    let mut host = MemoryHost::new(rt.alloc(), b"ab")?;
    host.fail_on(CallKind::Pull, Channel::Input, 2)?;
    host.fail_on(CallKind::Emit, Channel::Output, 1)?;
    host.fail_on(CallKind::Length, Channel::File(MANAGER), 1)?;
    host.fail_on(CallKind::Read, Channel::File(MANAGER), 1)?;
    host.fail_on(CallKind::Write, Channel::File(MANAGER), 2)?;
    host.fail_on(CallKind::Sync, Channel::File(MANAGER), 1)?;
    host.fail_on(CallKind::Sync, Channel::File(PROGRAM), 0)?;
    let mut into = [0; 1];
    assert_eq!(rt; host.pull(&mut into), Ok(1));
    assert!(rt; host.pull(&mut into).is_err());
    assert_eq!(rt; host.pull(&mut into), Ok(1));
    assert!(rt; host.emit(b"lost").is_err());
    assert!(rt; host.emit(b"kept").is_ok());
    assert!(rt; is(host.output(), b"kept"));
    assert!(rt; host.length(FileId::Manager { slot: 0 }).is_err());
    assert!(rt;
        host.read_at(FileId::Manager { slot: 0 }, 0, &mut into)
            .is_err()
    );
    assert!(rt;
        host.write_at(FileId::Manager { slot: 0 }, 0, b"first")
            .is_ok()
    );
    assert!(rt;
        host.write_at(FileId::Manager { slot: 0 }, 0, b"second")
            .is_err()
    );
    assert!(rt; holds(&host, MANAGER, b"first"));
    assert!(rt; host.sync(FileId::Program { slot: 0 }).is_ok());
    assert!(rt; host.sync(FileId::Manager { slot: 0 }).is_err());
    assert!(rt; host.sync(FileId::Manager { slot: 0 }).is_ok());
    assert_eq!(rt; host.syncs(), 3);
    assert_eq!(rt; host.starved(), 0);
    Ok(())
}

#[test]
fn the_nth_call_of_any_kind_fails(rt: HostRuntime) -> Result<(), Fail> {
    let manager = Channel::File(MANAGER);
    for nth in 0..5u64 {
        let mut host = MemoryHost::new(rt.alloc(), b"abc")?;
        host.fail_call(nth);
        let mut into = [0; 2];
        let pulled = host.pull(&mut into).is_ok();
        let written = host.write_at(FileId::Manager { slot: 0 }, 0, b"x").is_ok();
        let synced = host.sync(FileId::Manager { slot: 0 }).is_ok();
        let emitted = host.emit(b"y").is_ok();
        assert_eq!(rt;
            (pulled, written, synced, emitted),
            (nth != 1, nth != 2, nth != 3, nth != 4)
        );
        assert_eq!(rt; host.faults(Channel::Input), if nth == 1 { 1 } else { 0 });
        assert_eq!(rt;
            host.faults(manager),
            if nth == 2 || nth == 3 { 1 } else { 0 }
        );
        assert_eq!(rt; host.faults(Channel::Output), if nth == 4 { 1 } else { 0 });
        assert_eq!(rt; host.calls(), 4);
    }
    Ok(())
}

#[test]
fn after_the_stop_nothing_changes(rt: HostRuntime) -> Result<(), Fail> {
    for calls in 0..4u64 {
        let mut host = MemoryHost::new(rt.alloc(), b"abc")?;
        host.stop_after(calls);
        let mut into = [0; 2];
        let pulled = host.pull(&mut into).is_ok();
        let written = host.write_at(FileId::Manager { slot: 0 }, 0, b"x").is_ok();
        let synced = host.sync(FileId::Manager { slot: 0 }).is_ok();
        let emitted = host.emit(b"y").is_ok();
        assert_eq!(rt;
            (pulled, written, synced, emitted),
            (calls > 0, calls > 1, calls > 2, false)
        );
        assert_eq!(rt; host.calls(), calls);
        assert_eq!(rt; host.file(MANAGER).is_some(), calls > 1);
        assert_eq!(rt; host.syncs(), if calls > 2 { 1 } else { 0 });
        assert!(rt; is(host.output(), b""));
    }
    Ok(())
}

fn mark(is_there: bool, bit: u32) -> u32 {
    if is_there { bit } else { 0 }
}

// Which kinds of outcome these bytes are, where `abcd` was on the disk and `WXYZ` was written from the third byte on; one bit
// more where they are none.
fn kinds_of(bytes: &[u8]) -> u32 {
    let third = byte(bytes, 2);
    let fourth = byte(bytes, 3);
    let fifth = byte(bytes, 4);
    let is_front = (byte(bytes, 0) == b'a') & (byte(bytes, 1) == b'b');
    let is_in_range = (bytes.len() >= 4) & (bytes.len() <= 6);
    let is_torn = ((third == b'W') & (fourth == b'd')) | ((third == b'c') & (fourth == b'X'));
    let is_garbage = (third != b'c') & (third != b'W');
    let is_garbage_past_the_end = (bytes.len() > 4) & (fifth != b'Y') & (fifth != 0);
    mark(is(bytes, b"abcd"), 1)
        | mark(is(bytes, b"abWXYZ"), 2)
        | mark(is_torn, 4)
        | mark(is_garbage, 8)
        | mark(is_garbage_past_the_end, 16)
        | mark(bytes.len() == 4, 32)
        | mark(bytes.len() == 5, 64)
        | mark(bytes.len() == 6, 128)
        | mark(!(is_front & is_in_range), 256)
}

#[test]
fn a_crash_reaches_each_kind_of_outcome(rt: HostRuntime) -> Result<(), Fail> {
    let mut host = with_abcd(&rt)?;
    assert!(rt; write(&mut host, 2, b"WXYZ").is_ok());
    let calls = host.calls();
    let mut reached = 0;
    for pick in 0..256u64 {
        let crashed = host.crashed(calls, pick)?;
        reached |= kinds_of(crashed.file(MANAGER).ok_or("no file")?);
    }
    assert_eq!(rt; reached, 0b11111111);
    Ok(())
}

// Which of an image's two files have lost what was pending and which have kept it, where each did one or the other: one bit a pair.
fn pair_of(image: &MemoryHost) -> u32 {
    let manager = text_in(image, MANAGER);
    let program = text_in(image, PROGRAM);
    mark((manager == "abcd") & (program == "efgh"), 1)
        | mark((manager == "abcd") & (program == "YZgh"), 2)
        | mark((manager == "abWX") & (program == "efgh"), 4)
        | mark((manager == "abWX") & (program == "YZgh"), 8)
}

#[test]
fn the_files_of_an_image_go_each_its_way(rt: HostRuntime) -> Result<(), Fail> {
    let mut host = with_abcd(&rt)?;
    host.set_file(PROGRAM, b"efgh")?;
    assert!(rt; write(&mut host, 2, b"WX").is_ok());
    assert!(rt; host.write_at(FileId::Program { slot: 0 }, 0, b"YZ").is_ok());
    let calls = host.calls();
    let mut reached = 0;
    for pick in 0..64u64 {
        let crashed = host.crashed(calls, pick)?;
        reached |= pair_of(&crashed);
    }
    assert_eq!(rt; reached, 0b1111);
    Ok(())
}

#[test]
fn a_crash_may_come_at_any_call(rt: HostRuntime) -> Result<(), Fail> {
    let mut host = MemoryHost::new(rt.alloc(), b"")?;
    assert!(rt;
        host.write_at(FileId::Manager { slot: 0 }, 0, b"one")
            .is_ok()
    );
    assert!(rt; host.sync(FileId::Manager { slot: 0 }).is_ok());
    assert!(rt;
        host.write_at(FileId::Program { slot: 0 }, 0, b"two")
            .is_ok()
    );
    let calls = host.calls();
    assert_eq!(rt; calls, 3);
    // Before the sync the file may be lost, after it never; the next call's write counts at an odd pick.
    for (after, pick, manager, program) in [
        (0, 0, "-", "-"),
        (0, 3, "one", "-"),
        (1, 0, "", "-"),
        (1, 2, "one", "-"),
        (2, 0, "one", "-"),
        (2, 1, "one", ""),
        (2, 3, "one", "two"),
        (3, 0, "one", ""),
        (3, 2, "one", "two"),
    ] {
        let after: u64 = after;
        if after > calls {
            return Err("too late".into());
        }
        let crashed = host.crashed(after, pick)?;
        assert_eq!(rt; text_in(&crashed, MANAGER), manager, "at {after}, {pick}");
        assert_eq!(rt; text_in(&crashed, PROGRAM), program, "at {after}, {pick}");
        assert_eq!(rt; crashed.calls(), 0);
        assert_eq!(rt; crashed.syncs(), 0);
    }
    Ok(())
}

#[test]
fn what_failed_is_pending(rt: HostRuntime) -> Result<(), Fail> {
    let mut host = with_abcd(&rt)?;
    host.fail_on(CallKind::Write, Channel::File(MANAGER), 1)?;
    assert!(rt; write(&mut host, 2, b"WXYZ").is_err());
    assert!(rt; holds(&host, MANAGER, b"abcd"));
    let calls = host.calls();
    let mut reached = 0;
    for pick in 0..256u64 {
        let crashed = host.crashed(calls, pick)?;
        reached |= kinds_of(crashed.file(MANAGER).ok_or("no file")?);
    }
    // All but the new bytes.
    assert_eq!(rt; reached, 0b11111001);
    assert_eq!(rt; host.starved(), 0);
    Ok(())
}

// The byte at this place of the manager file in the outcomes of so many crashes: each that there is, once.
fn bytes_after_crashes(host: &MemoryHost, place: usize, picks: u64) -> Result<[bool; 256], Fail> {
    let mut reached = [false; 256];
    let calls = host.calls();
    for pick in 0..picks {
        let crashed = host.crashed(calls, pick)?;
        let bytes = crashed.file(MANAGER).ok_or("no file")?;
        reached[byte(bytes, place) as usize] = true;
    }
    Ok(reached)
}

fn count(reached: &[bool; 256]) -> usize {
    let mut count: usize = 0;
    for is_there in reached.as_slice() {
        if *is_there {
            count = count.saturating_add(1);
        }
    }
    count
}

#[test]
fn a_write_of_one_byte_inside_the_file_is_torn_too(rt: HostRuntime) -> Result<(), Fail> {
    let mut host = with_abcd(&rt)?;
    assert!(rt; write(&mut host, 1, b"W").is_ok());
    assert_eq!(rt;
        count(&bytes_after_crashes(&host, 1, 2048)?),
        256,
        "any byte there"
    );
    assert_eq!(rt;
        count(&bytes_after_crashes(&host, 0, 64)?),
        1,
        "none before it"
    );
    assert_eq!(rt;
        count(&bytes_after_crashes(&host, 2, 64)?),
        1,
        "none behind it"
    );
    assert!(rt; host.sync(FileId::Manager { slot: 0 }).is_ok());
    assert_eq!(rt;
        count(&bytes_after_crashes(&host, 1, 64)?),
        1,
        "nor once it is synced"
    );
    Ok(())
}
