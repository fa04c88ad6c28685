// What the reports of the first deposit's folder write, and how they end.
use crate::folders::{GRAIN, MANAGER, folder_of};
use host_memory::{CallKind, MemoryHost};
use host_trait::Channel;
use log_audit::{ReportFault, history, print_audit, show};
use std::alloc::Global;
use std::test::Fail;

#[derive(Clone, Copy)]
enum Report {
    Show,
    History,
    Audit,
}

#[derive(Clone, Copy)]
struct Row {
    name: &'static str,
    report: Report,
    // How long the manager file is, and a byte of it that is set.
    length: usize,
    set: (usize, u8),
    // The call that fails: the nth of its kind on its channel, from 1.
    fails: Option<(CallKind, Channel, u64)>,
    answer: Result<(), ReportFault>,
    output: &'static str,
}

const GRAIN_LINE: &str = "{\"fields\":{\"balance\":5},\"grain\":\"account/1\"}\n";

const SHOWN: &str = "{\"fields\":{\"balance\":5},\"grain\":\"account/1\"}\n{\"count\":1}\n";

const TOLD: &str =
    "{\"args\":[5],\"call\":\"account/1.deposit\",\"n\":1,\"reply\":5,\"session\":1,\"unit\":1}\n";

// The same, of a block of session 7.
const TOLD_OF_SEVEN: &str =
    "{\"args\":[5],\"call\":\"account/1.deposit\",\"n\":1,\"reply\":5,\"session\":7,\"unit\":1}\n";

const WELL: &str = "{\"count\":1,\"first_bad\":null}\n";

const ILL: &str = "{\"count\":1,\"first_bad\":1}\n";

// A byte that is 1 already.
const NONE: (usize, u8) = (0, 1);

const GRAIN_FAULT: Result<(), ReportFault> = Err(ReportFault::DiskFault { file: GRAIN });

const ROWS: [Row; 16] = [
    Row {
        name: "the states",
        report: Report::Show,
        length: 97,
        set: NONE,
        fails: None,
        answer: Ok(()),
        output: SHOWN,
    },
    Row {
        name: "a byte behind the log",
        report: Report::Show,
        length: 97,
        set: (96, 7),
        fails: None,
        answer: Ok(()),
        output: SHOWN,
    },
    Row {
        name: "a log that is cut",
        report: Report::Show,
        length: 58,
        set: NONE,
        fails: None,
        answer: Err(ReportFault::Damaged {
            file: MANAGER,
            place: 16,
        }),
        output: "",
    },
    Row {
        name: "an argument of no kind",
        report: Report::History,
        length: 97,
        set: (55, 3),
        fails: None,
        answer: Err(ReportFault::Damaged {
            file: MANAGER,
            place: 55,
        }),
        output: "",
    },
    Row {
        name: "the version of a grain can't be read for its state",
        report: Report::Show,
        length: 97,
        set: NONE,
        fails: Some((CallKind::Read, Channel::File(GRAIN), 2)),
        answer: GRAIN_FAULT,
        output: "",
    },
    Row {
        name: "the second line isn't written",
        report: Report::Show,
        length: 97,
        set: NONE,
        fails: Some((CallKind::Emit, Channel::Output, 2)),
        answer: Err(ReportFault::WriteFault),
        output: GRAIN_LINE,
    },
    Row {
        name: "the records",
        report: Report::History,
        length: 97,
        set: NONE,
        fails: None,
        answer: Ok(()),
        output: TOLD,
    },
    Row {
        name: "a grain's file can't be read",
        report: Report::History,
        length: 97,
        set: NONE,
        fails: Some((CallKind::Read, Channel::File(GRAIN), 1)),
        answer: GRAIN_FAULT,
        output: "",
    },
    Row {
        name: "another session",
        report: Report::History,
        length: 97,
        set: (20, 7),
        fails: None,
        answer: Ok(()),
        output: TOLD_OF_SEVEN,
    },
    Row {
        name: "a session that no log has",
        report: Report::History,
        length: 97,
        set: (27, 128),
        fails: None,
        answer: Err(ReportFault::Damaged {
            file: MANAGER,
            place: 20,
        }),
        output: "",
    },
    Row {
        name: "the states of a silo of the old format",
        report: Report::Show,
        length: 97,
        set: (8, 49),
        fails: None,
        answer: Err(ReportFault::OldFormat),
        output: "",
    },
    Row {
        name: "its records",
        report: Report::History,
        length: 97,
        set: (8, 49),
        fails: None,
        answer: Err(ReportFault::OldFormat),
        output: "",
    },
    Row {
        name: "its audit",
        report: Report::Audit,
        length: 97,
        set: (8, 49),
        fails: None,
        answer: Err(ReportFault::OldFormat),
        output: "",
    },
    Row {
        name: "a log that replays",
        report: Report::Audit,
        length: 97,
        set: NONE,
        fails: None,
        answer: Ok(()),
        output: WELL,
    },
    Row {
        name: "another result",
        report: Report::Audit,
        length: 97,
        set: (68, 6),
        fails: None,
        answer: Ok(()),
        output: ILL,
    },
    Row {
        name: "a grain's file can't be read again",
        report: Report::Audit,
        length: 97,
        set: NONE,
        fails: Some((CallKind::Read, Channel::File(GRAIN), 2)),
        answer: GRAIN_FAULT,
        output: "",
    },
];

fn write_report(alloc: Global, host: &mut MemoryHost, report: Report) -> Result<(), ReportFault> {
    match report {
        Report::Show => show(alloc, host),
        Report::History => history(alloc, host),
        Report::Audit => print_audit(alloc, host),
    }
}

// What of the row this folder doesn't give, and nothing where it gives all.
fn missed(alloc: Global, host: &mut MemoryHost, row: &Row) -> Result<&'static str, Fail> {
    if let Some((what, channel, nth)) = row.fails {
        host.fail_on(what, channel, nth)?;
    }
    if write_report(alloc, host, row.report) != row.answer {
        return Ok("the answer");
    }
    if host.output() != row.output.as_bytes() {
        return Ok("the output");
    }
    Ok("")
}

#[test]
fn each_row_gives_all_that_it_says(rt: HostRuntime) -> Result<(), Fail> {
    let alloc = rt.alloc();
    for row in &ROWS {
        let name = row.name;
        let (at, byte) = row.set;
        let mut host = folder_of(alloc, row.length, at, byte)?;
        assert_eq!(rt; missed(alloc, &mut host, row)?, "", "{name}");
    }
    Ok(())
}

#[test]
fn a_report_that_is_stopped_wrote_a_first_part(rt: HostRuntime) -> Result<(), Fail> {
    let alloc = rt.alloc();
    for (report, text) in [
        (Report::Show, SHOWN),
        (Report::History, TOLD),
        (Report::Audit, WELL),
    ] {
        let mut whole = folder_of(alloc, 97, 0, 1)?;
        assert_eq!(rt; write_report(alloc, &mut whole, report), Ok(()));
        for calls in 0..whole.calls() {
            let mut host = folder_of(alloc, 97, 0, 1)?;
            host.stop_after(calls);
            assert!(rt; write_report(alloc, &mut host, report).is_err(), "{calls}");
            assert!(rt; text.as_bytes().starts_with(host.output()), "{calls}");
        }
    }
    Ok(())
}
