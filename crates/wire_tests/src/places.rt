// Lines by their numbers, and the places where reading goes on.
use crate::programs::{COUNTER, program_of};
use base_types::{BadRequest, List};
use request_wire::Line;
use run_lines::{InputLines, Lines, ListLines};
use script_check::Checked;
use std::alloc::Global;
use std::test::Fail;

/// A line that asks, an empty one, one of another shape, and one without a line feed at its end.
const INPUT: &str = "{\"args\":[5],\"call\":\"counter/1.add\"}\n\n{}\nx";

/// Places that are asked for one after another: the number of the line that is there, 0 behind the last, and the test that it
/// fails.
const PLACES: &[(usize, u32, Option<BadRequest>)] = &[
    (0, 1, None),
    (1, 2, Some(BadRequest::Json)),
    (2, 3, Some(BadRequest::Shape)),
    (3, 4, Some(BadRequest::Json)),
    (4, 0, None),
    (9, 0, None),
    (2, 3, Some(BadRequest::Shape)),
    (2, 3, Some(BadRequest::Shape)),
    (0, 1, None),
    (3, 4, Some(BadRequest::Json)),
];

/// The number of the line at a place, 0 behind the last, and the test that it fails.
fn found<L: Lines>(
    alloc: Global,
    lines: &mut L,
    place: usize,
) -> Result<(u32, Option<BadRequest>), Fail> {
    let Some(line) = lines.line_at(alloc, place)? else {
        return Ok((0, None));
    };
    match line.what {
        Ok(_) => Ok((line.number, None)),
        Err(why) => Ok((line.number, Some(why))),
    }
}

/// The lines of a short input.
fn short_lines<'a>(checked: &'a Checked, input: &'a [u8]) -> Result<InputLines<'a>, Fail> {
    if input.len() > 1000 {
        return Err("too long".into());
    }
    Ok(InputLines::new(checked, input))
}

#[test]
fn each_place_of_an_input_has_its_line_whatever_was_asked_before(
    rt: HostRuntime,
) -> Result<(), Fail> {
    let alloc = rt.alloc();
    let counter = program_of(alloc, COUNTER)?;
    let mut lines = short_lines(&counter, INPUT.as_bytes())?;
    for (place, number, why) in PLACES {
        let line = found(alloc, &mut lines, *place)?;
        assert!(rt; line.0 == *number, "the number at {place}");
        assert!(rt; line.1 == *why, "what the line at {place} asks");
    }
    Ok(())
}

/// The lines of a short input behind those of others.
fn lines_behind<'a>(
    checked: &'a Checked,
    before: u32,
    input: &'a [u8],
) -> Result<InputLines<'a>, Fail> {
    if input.len() > 1000 || before > 1_000_000 {
        return Err("too long".into());
    }
    Ok(InputLines::new_behind(checked, before, input))
}

#[test]
fn lines_are_numbered_behind_those_of_the_inputs_before(rt: HostRuntime) -> Result<(), Fail> {
    let alloc = rt.alloc();
    let counter = program_of(alloc, COUNTER)?;
    let mut lines = lines_behind(&counter, 4096, INPUT.as_bytes())?;
    let last = found(alloc, &mut lines, 3)?;
    let first = found(alloc, &mut lines, 0)?;
    let none = found(alloc, &mut lines, 4)?;
    assert!(rt; last == (4100, Some(BadRequest::Json)));
    assert!(rt; first == (4097, None));
    assert!(rt; none == (0, None));
    Ok(())
}

#[test]
fn a_copy_goes_on_by_itself_and_may_be_shared(rt: HostRuntime) -> Result<(), Fail> {
    let alloc = rt.alloc();
    let counter = program_of(alloc, COUNTER)?;
    let mut lines = short_lines(&counter, INPUT.as_bytes())?;
    let mut copied = lines;
    let far = found(alloc, &mut lines, 3)?;
    let near = found(alloc, &mut copied, 0)?;
    assert!(rt; inputs_are_shared(&copied));
    assert!(rt; far.0 == 4);
    assert!(rt; near.0 == 1);
    Ok(())
}

fn is_shared<L: Lines + Copy + Send + Sync>(_lines: &L) -> bool {
    true
}

fn inputs_are_shared(lines: &InputLines) -> bool {
    is_shared(lines)
}

#[test]
fn a_list_has_its_lines_by_their_places(rt: HostRuntime) -> Result<(), Fail> {
    let alloc = rt.alloc();
    let mut list = List::new(alloc);
    list.push(Line {
        number: 7,
        what: Err(BadRequest::Args),
    })?;
    let mut lines = ListLines::new(&list);
    assert!(rt; is_shared(&lines));
    let first = found(alloc, &mut lines, 0)?;
    let behind = found(alloc, &mut lines, 1)?;
    assert!(rt; first == (7, Some(BadRequest::Args)));
    assert!(rt; behind == (0, None));
    Ok(())
}
