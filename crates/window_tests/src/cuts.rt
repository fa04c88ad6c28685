// Inputs that are cut into windows, a byte at a time and as much as there is.
use host_memory::{CallKind, MemoryHost};
use host_trait::Channel;
use input_windows::{InputWindows, WindowFault};
use std::test::Fail;

// What a cut gave: each window by how many lines stand before it, how many bytes it has and whether it is the last, and the fault
// that ended it.
#[derive(Drop)]
struct Cut {
    windows: Vec<(u32, usize, bool)>,
    fault: Option<WindowFault>,
}

// The windows of what is left of the host's input, 40 of them at most.
fn cut_all(rt: &HostRuntime, host: &mut MemoryHost) -> Result<Cut, Fail> {
    let mut input = InputWindows::new(rt.alloc());
    let mut windows = Vec::new(rt.alloc());
    for _round in 0..40 {
        match input.next_window(host) {
            Ok(true) => {
                let window = (input.lines_before(), input.window().len(), input.is_last());
                windows.push(window)?;
            }
            Ok(false) => {
                return Ok(Cut {
                    windows,
                    fault: None,
                });
            }
            Err(fault) => {
                return Ok(Cut {
                    windows,
                    fault: Some(fault),
                });
            }
        }
    }
    Ok(Cut {
        windows,
        fault: None,
    })
}

// So many lines of these bytes, each with a line feed.
fn lines(rt: &HostRuntime, count: usize, line: &[u8]) -> Result<Vec<u8>, Fail> {
    let mut input = Vec::new(rt.alloc());
    for _line in 0..count {
        input.extend_from_slice(line)?;
        input.push(b'\n')?;
    }
    Ok(input)
}

// Whether the cut of an input is this one, pulled a byte at a time and as much as there is.
fn is_cut(
    rt: &HostRuntime,
    input: &[u8],
    windows: &[(u32, usize, bool)],
    fault: Option<WindowFault>,
) -> Result<bool, Fail> {
    for most in [1, usize::MAX] {
        let mut host = MemoryHost::new(rt.alloc(), input)?;
        host.pull_at_most(most);
        let found = cut_all(rt, &mut host)?;
        if found.windows.as_slice() != windows || found.fault != fault {
            return Ok(false);
        }
    }
    Ok(true)
}

#[test]
fn windows_have_4096_lines_but_the_last(rt: HostRuntime) -> Result<(), Fail> {
    assert!(rt; is_cut(&rt, b"", &[], None)?);
    assert!(rt; is_cut(&rt, b"a\nb", &[(0, 3, true)], None)?);
    let mut input = lines(&rt, 4095, b"x")?;
    input.push(b'y')?;
    assert!(rt;
        is_cut(&rt, &input, &[(0, 8191, true)], None)?,
        "4,096, one open"
    );
    input.push(b'\n')?;
    assert!(rt; is_cut(&rt, &input, &[(0, 8192, false)], None)?, "4,096");
    input.push(b'z')?;
    let two = [(0, 8192, false), (4096, 1, true)];
    assert!(rt; is_cut(&rt, &input, &two, None)?, "4,097, one open");
    Ok(())
}

#[test]
fn one_piece_may_have_many_windows(rt: HostRuntime) -> Result<(), Fail> {
    let input = lines(&rt, 70_000, b"")?;
    let mut windows = Vec::new(rt.alloc());
    for before in 0..17 {
        windows.push((before * 4096, 4096, false))?;
    }
    windows.push((69_632, 368, true))?;
    assert!(rt; is_cut(&rt, &input, &windows, None)?);
    Ok(())
}

#[test]
fn a_line_has_65536_bytes_at_most(rt: HostRuntime) -> Result<(), Fail> {
    let mut long = Vec::new(rt.alloc());
    long.resize(65_536, b'a')?;
    assert!(rt;
        is_cut(&rt, &long, &[(0, 65_536, true)], None)?,
        "65,536 bytes"
    );
    let mut input = lines(&rt, 2, b"x")?;
    input.extend_from_slice(&long)?;
    input.push(b'a')?;
    let third = Some(WindowFault::TooLong { line: 3 });
    assert!(rt; is_cut(&rt, &input, &[], third)?, "65,537 bytes");
    let mut input = lines(&rt, 4096, b"")?;
    input.extend_from_slice(&long)?;
    input.push(b'a')?;
    let behind = Some(WindowFault::TooLong { line: 4097 });
    let first = [(0, 4096, false)];
    assert!(rt; is_cut(&rt, &input, &first, behind)?, "behind a window");
    Ok(())
}

#[test]
fn a_fault_refuses_its_window_alone(rt: HostRuntime) -> Result<(), Fail> {
    for (count, windows) in [(3, 0), (4096, 1)] {
        let input = lines(&rt, count, b"x")?;
        let mut host = MemoryHost::new(rt.alloc(), &input)?;
        host.fail_on(CallKind::Pull, Channel::Input, 2)?;
        let found = cut_all(&rt, &mut host)?;
        assert_eq!(rt; found.windows.len(), windows, "of {count} lines");
        assert_eq!(rt; found.fault, Some(WindowFault::Failed), "of {count} lines");
    }
    Ok(())
}
