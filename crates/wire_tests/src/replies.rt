// Reply lines, byte by byte.
use base_types::{
    BadRequest, Entry, GrainId, List, Outcome, Settled, Shape, State, Text, TypeShape, UnitNo,
    Value,
};
use request_wire::reply_text;
use std::alloc::Global;
use std::process::Abort;
use std::test::Fail;

fn type_of(alloc: Global, name: &str) -> Result<TypeShape, Fail> {
    let name = Text::new(alloc, name)?.ok_or("too long")?;
    Ok(TypeShape {
        name,
        initial: State::new(alloc),
        params: List::new(alloc),
    })
}

/// The types `bank` and `counter`.
fn two_types(alloc: Global) -> Result<Shape, Fail> {
    let mut types = List::new(alloc);
    types.push(type_of(alloc, "bank")?)?;
    types.push(type_of(alloc, "counter")?)?;
    Ok(Shape { types })
}

fn expect_reply(
    rt: &impl Abort,
    alloc: Global,
    line: u32,
    what: Settled,
    expected: &str,
) -> Result<(), Fail> {
    let shape = two_types(alloc)?;
    let unit = UnitNo(line as u64 + 10);
    let entry = Entry { line, unit, what };
    let text = reply_text(alloc, &entry, &shape)?;
    assert_eq!(rt; text.as_slice(), expected.as_bytes(), "{expected}");
    Ok(())
}

#[test]
fn a_unit_that_ended_has_its_value_or_fault(rt: HostRuntime) -> Result<(), Fail> {
    let alloc = rt.alloc();
    let least = Outcome::Value(Value::Int(-9223372036854775808));
    let expected = "{\"n\":1,\"reply\":-9223372036854775808,\"unit\":11}\n";
    expect_reply(&rt, alloc, 1, Settled::Done(least), expected)?;
    let text = Text::new(alloc, "\"a\"\n\u{1}é")?.ok_or("too long")?;
    let expected = "{\"n\":2,\"reply\":\"\\\"a\\\"\\n\\u0001é\",\"unit\":12}\n";
    expect_reply(
        &rt,
        alloc,
        2,
        Settled::Done(Outcome::Value(Value::Text(text))),
        expected,
    )?;
    let text = Text::new(alloc, "overflow")?.ok_or("too long")?;
    let expected = "{\"fault\":\"overflow\",\"n\":3,\"unit\":13}\n";
    expect_reply(&rt, alloc, 3, Settled::Done(Outcome::Fault(text)), expected)?;
    let expected = "{\"fault\":\"aborted\",\"n\":4294967295,\"unit\":4294967305}\n";
    expect_reply(
        &rt,
        alloc,
        4294967295,
        Settled::Done(Outcome::Aborted),
        expected,
    )
}

#[test]
fn an_aborted_unit_has_its_cause(rt: HostRuntime) -> Result<(), Fail> {
    let alloc = rt.alloc();
    let by = UnitNo(18446744073709551615);
    let grain = GrainId { kind: 1, key: 7 };
    let expected =
        "{\"aborted\":\"lock\",\"by\":18446744073709551615,\"grain\":\"counter/7\",\"n\":4,\"unit\":14}\n";
    expect_reply(&rt, alloc, 4, Settled::Lock { by, grain }, expected)?;
    let grain = GrainId {
        kind: 0,
        key: 4294967295,
    };
    let expected = "{\"aborted\":\"vote\",\"grain\":\"bank/4294967295\",\"n\":5,\"unit\":15}\n";
    expect_reply(&rt, alloc, 5, Settled::Vote { grain }, expected)?;
    let grain = GrainId { kind: 2, key: 0 };
    let expected = "{\"aborted\":\"vote\",\"grain\":\"/0\",\"n\":6,\"unit\":16}\n";
    expect_reply(&rt, alloc, 6, Settled::Vote { grain }, expected)?;
    let expected = "{\"aborted\":\"dependency\",\"n\":7,\"on\":3,\"unit\":17}\n";
    expect_reply(
        &rt,
        alloc,
        7,
        Settled::Dependency { on: UnitNo(3) },
        expected,
    )?;
    let expected = "{\"aborted\":\"disk\",\"n\":8,\"unit\":18}\n";
    expect_reply(&rt, alloc, 8, Settled::Disk, expected)
}

#[test]
fn doubt_and_bad_lines_have_their_words(rt: HostRuntime) -> Result<(), Fail> {
    let alloc = rt.alloc();
    let expected = "{\"in_doubt\":true,\"n\":9,\"unit\":19}\n";
    expect_reply(&rt, alloc, 9, Settled::InDoubt, expected)?;
    for (why, word) in [
        (BadRequest::Json, "json"),
        (BadRequest::Shape, "shape"),
        (BadRequest::Grain, "grain"),
        (BadRequest::Method, "method"),
        (BadRequest::Args, "args"),
    ] {
        let expected = format!(in alloc; "{{\"bad\":\"{word}\",\"n\":10}}\n")?;
        expect_reply(&rt, alloc, 10, Settled::Bad(why), expected.as_str())?;
    }
    Ok(())
}
