// Request lines, and the test that each fails.
use crate::programs::{BANK, COUNTER, program_of};
use base_types::{BadRequest, Call, GrainId, Value};
use request_wire::{RequestFault, first_line, read_request};
use script_check::Checked;
use std::alloc::Global;
use std::test::Fail;

/// The key and the number of a line that passes all tests for a program.
fn added(alloc: Global, line: &[u8], program: &Checked) -> Result<(u32, i64), Fail> {
    let call = passed(alloc, line, program)?;
    match call.args.get(0) {
        Some(Value::Int(number)) => Ok((call.grain.key, *number)),
        _ => Err("no number".into()),
    }
}

/// The test that a line fails for a program, none where it passes all.
fn failed(alloc: Global, line: &[u8], program: &Checked) -> Result<Option<BadRequest>, Fail> {
    match read_request(alloc, line, program) {
        Ok(_) => Ok(None),
        Err(RequestFault::Bad(why)) => Ok(Some(why)),
        Err(RequestFault::Memory) => Err("no memory".into()),
    }
}

const CARRIED: &[(&str, u32, i64)] = &[
    ("{\"args\":[5],\"call\":\"counter/1.add\"}", 1, 5),
    ("{\"call\":\"counter/1.add\",\"args\":[5]}", 1, 5),
    (
        "{\"args\":[5],\"args\":[6],\"call\":\"counter/1.add\"}",
        1,
        6,
    ),
    ("{\"call\":7,\"args\":[5],\"call\":\"counter/2.add\"}", 2, 5),
    ("{\"args\":[-1],\"call\":\"counter/0.add\"}", 0, -1),
    (
        "{\"args\":[0],\"call\":\"counter/4294967295.add\"}",
        4294967295,
        0,
    ),
    (
        "{\"args\":[9223372036854775807],\"call\":\"counter/1.add\"}",
        1,
        9223372036854775807,
    ),
    (
        "{\"args\":[-9223372036854775808],\"call\":\"counter/1.add\"}",
        1,
        -9223372036854775808,
    ),
    (
        " \t{ \"args\" : [ 5 ] , \"call\" : \"counter/1.add\" } \r",
        1,
        5,
    ),
    ("{\"args\":[5],\"call\":\"counter\\/1.\\u0061dd\"}", 1, 5),
];

#[test]
fn a_line_that_adds_a_number_asks_for_it(rt: HostRuntime) -> Result<(), Fail> {
    let alloc = rt.alloc();
    let counter = program_of(alloc, COUNTER)?;
    for (line, key, number) in CARRIED {
        let found = added(alloc, line.as_bytes(), &counter)?;
        assert!(rt; found == (*key, *number), "{line}");
    }
    Ok(())
}

const NO_JSON: &[&str] = &[
    "",
    " ",
    "{",
    "{\"args\":[5],\"call\":\"counter/1.add\"}{}",
    "{\"args\":[5],\"call\":\"counter/1.add\",}",
];

const NO_OBJECT_OF_TWO: &[&str] = &[
    "[]",
    "null",
    "{}",
    "{\"args\":[5]}",
    "{\"call\":\"counter/1.add\"}",
    "{\"args\":[5],\"call\":\"counter/1.add\",\"more\":1}",
    "{\"args\":[5],\"more\":\"counter/1.add\"}",
    "{\"args\":5,\"call\":\"counter/1.add\"}",
    "{\"args\":[5],\"call\":7}",
];

const NO_GRAIN: &[&str] = &[
    "{\"args\":[5],\"call\":\"\"}",
    "{\"args\":[5],\"call\":\"counter\"}",
    "{\"args\":[5],\"call\":\"counter/1\"}",
    "{\"args\":[5],\"call\":\"counter.1/add\"}",
    "{\"args\":[5],\"call\":\"counter/.add\"}",
    "{\"args\":[5],\"call\":\"counter/01.add\"}",
    "{\"args\":[5],\"call\":\"counter/00.add\"}",
    "{\"args\":[5],\"call\":\"counter/+1.add\"}",
    "{\"args\":[5],\"call\":\"counter/-1.add\"}",
    "{\"args\":[5],\"call\":\"counter/ 1.add\"}",
    "{\"args\":[5],\"call\":\"counter/1/2.add\"}",
    "{\"args\":[5],\"call\":\"counter/4294967296.add\"}",
    "{\"args\":[5],\"call\":\"bank/1.add\"}",
    "{\"args\":[5],\"call\":\"Counter/1.add\"}",
];

const NO_METHOD: &[&str] = &[
    "{\"args\":[5],\"call\":\"counter/1.x\"}",
    "{\"args\":[5],\"call\":\"counter/1.\"}",
    "{\"args\":[5],\"call\":\"counter/1.add.add\"}",
];

const NO_ARGUMENTS: &[&str] = &[
    "{\"args\":[],\"call\":\"counter/1.add\"}",
    "{\"args\":[1,2],\"call\":\"counter/1.add\"}",
    "{\"args\":[5.0],\"call\":\"counter/1.add\"}",
    "{\"args\":[1e2],\"call\":\"counter/1.add\"}",
    "{\"args\":[-0],\"call\":\"counter/1.add\"}",
    "{\"args\":[9223372036854775808],\"call\":\"counter/1.add\"}",
    "{\"args\":[-9223372036854775809],\"call\":\"counter/1.add\"}",
    "{\"args\":[null],\"call\":\"counter/1.add\"}",
    "{\"args\":[true],\"call\":\"counter/1.add\"}",
    "{\"args\":[[5]],\"call\":\"counter/1.add\"}",
    "{\"args\":[5],\"call\":\"counter/1.read\"}",
];

#[test]
fn a_line_that_fails_a_test_is_refused(rt: HostRuntime) -> Result<(), Fail> {
    let alloc = rt.alloc();
    let counter = program_of(alloc, COUNTER)?;
    for (lines, why) in [
        (NO_JSON, BadRequest::Json),
        (NO_OBJECT_OF_TWO, BadRequest::Shape),
        (NO_GRAIN, BadRequest::Grain),
        (NO_METHOD, BadRequest::Method),
        (NO_ARGUMENTS, BadRequest::Args),
    ] {
        for line in lines {
            assert!(rt;
                failed(alloc, line.as_bytes(), &counter)? == Some(why),
                "{line}"
            );
        }
    }
    let no_text = b"{\"args\":[5],\"call\":\"counter/1.add\xff\"}";
    assert!(rt; failed(alloc, no_text, &counter)? == Some(BadRequest::Json));
    Ok(())
}

/// A call of `add` with a string of so many bytes.
fn with_text(alloc: Global, len: usize) -> Result<String, Fail> {
    let mut line = String::from_str(alloc, "{\"args\":[\"")?;
    for _ in 0..len {
        line.push('a')?;
    }
    line.push_str("\"],\"call\":\"counter/1.add\"}")?;
    Ok(line)
}

/// The call of a line that passes all tests for a program.
fn passed(alloc: Global, line: &[u8], program: &Checked) -> Result<Call, Fail> {
    read_request(alloc, line, program).map_err(|_| "refused".into())
}

#[test]
fn a_text_and_no_argument_pass_where_they_fit(rt: HostRuntime) -> Result<(), Fail> {
    let alloc = rt.alloc();
    let counter = program_of(alloc, COUNTER)?;
    let longest = with_text(alloc, 4_096)?;
    let call = passed(alloc, longest.as_bytes(), &counter)?;
    assert!(rt; matches!(call.args.get(0), Some(Value::Text(_))));
    let too_long = with_text(alloc, 4_097)?;
    assert!(rt; failed(alloc, too_long.as_bytes(), &counter)? == Some(BadRequest::Args));
    let read = b"{\"args\":[],\"call\":\"counter/7.read\"}";
    let call = passed(alloc, read, &counter)?;
    assert_eq!(rt; call.grain, GrainId { kind: 0, key: 7 });
    assert_eq!(rt; call.method, 1);
    Ok(())
}

const OF_THE_BANK: &[(&str, u16, u32, u16, usize)] = &[
    ("{\"args\":[],\"call\":\"account/7.read\"}", 0, 7, 0, 0),
    (
        "{\"args\":[1,\"a\"],\"call\":\"account/0.move\"}",
        0,
        0,
        1,
        2,
    ),
    (
        "{\"args\":[\"\"],\"call\":\"atm/4294967295.move\"}",
        1,
        4294967295,
        0,
        1,
    ),
    ("{\"args\":[],\"call\":\"atm/1.stop\"}", 1, 1, 1, 0),
];

const NOT_OF_THE_BANK: &[(&str, BadRequest)] = &[
    ("{\"args\":[],\"call\":\"atm/1.stop\"", BadRequest::Json),
    ("{\"args\":[],\"calls\":\"atm/1.stop\"}", BadRequest::Shape),
    ("{\"args\":[],\"call\":\"bank/1.stop\"}", BadRequest::Grain),
    (
        "{\"args\":[],\"call\":\"account/1.stop\"}",
        BadRequest::Method,
    ),
    (
        "{\"args\":[1],\"call\":\"account/1.move\"}",
        BadRequest::Args,
    ),
    ("{\"args\":[1,2],\"call\":\"atm/1.move\"}", BadRequest::Args),
];

#[test]
fn a_request_names_a_grain_and_a_method_of_the_program(rt: HostRuntime) -> Result<(), Fail> {
    let alloc = rt.alloc();
    let checked = program_of(alloc, BANK)?;
    for (line, kind, key, method, args) in OF_THE_BANK {
        let call = read_request(alloc, line.as_bytes(), &checked).map_err(|_| "refused")?;
        let grain = GrainId {
            kind: *kind,
            key: *key,
        };
        assert!(rt; call.grain == grain, "{line}");
        assert!(rt; call.method == *method, "{line}");
        assert!(rt; call.args.len() == *args, "{line}");
    }
    for (line, why) in NOT_OF_THE_BANK {
        let fault = read_request(alloc, line.as_bytes(), &checked);
        assert!(rt;
            matches!(fault, Err(RequestFault::Bad(bad)) if bad == *why),
            "{line}"
        );
    }
    Ok(())
}

#[test]
fn the_input_is_cut_at_each_line_feed(rt: HostRuntime) -> Result<(), Fail> {
    for (input, first, rest) in [
        ("a", "a", ""),
        ("a\n", "a", ""),
        ("\n", "", ""),
        ("\n\n", "", "\n"),
        ("a\n\nb", "a", "\nb"),
        ("a\r\nb", "a\r", "b"),
    ] {
        let (line, left) = first_line(input.as_bytes()).ok_or("no line")?;
        assert_eq!(rt; line, first.as_bytes(), "{input}");
        assert_eq!(rt; left, rest.as_bytes(), "{input}");
    }
    assert!(rt; first_line(b"").is_none());
    Ok(())
}

#[test]
fn a_fault_says_what_it_is(rt: HostRuntime) -> Result<(), Fail> {
    let alloc = rt.alloc();
    let bad = RequestFault::Bad(BadRequest::Json);
    let memory = RequestFault::Memory;
    let text = format!(in alloc; "{bad}; {memory}")?;
    assert_eq!(rt;
        text.as_str(),
        "the line is no request that is carried; no memory"
    );
    Ok(())
}
