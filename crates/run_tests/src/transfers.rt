// Six transfers between three accounts, four in flight, and what their replies and an image say of the balances.
use crate::answers::add_end;
use crate::commands::{carry, copied};
use host_memory::MemoryHost;
use silo_top::Status;
use std::alloc::{AllocError, Global};
use std::sync::Wait;
use std::thread::Threads;

// The run's lines. The fourth has no funds, but where the first is aborted.
const LINES: &str = r#"{"args":[1,2,30],"call":"atm/0.transfer"}
{"args":[2,3,50],"call":"atm/0.transfer"}
{"args":[3,1,10],"call":"atm/0.transfer"}
{"args":[1,3,90],"call":"atm/0.transfer"}
{"args":[3,2,20],"call":"atm/0.transfer"}
{"args":[2,1,5],"call":"atm/0.transfer"}
"#;

// The books before the run.
const BEFORE: i64 = 100_100_100;

// How a transfer's reply line names it, and what it adds to the books.
const MOVES: [(&str, i64); 6] = [
    ("\"n\":1,", 29_970),
    ("\"n\":2,", 49_950_000),
    ("\"n\":3,", -9_999_990),
    ("\"n\":4,", 89_999_910),
    ("\"n\":5,", -19_980_000),
    ("\"n\":6,", -4_995),
];

// The lines of a round, a transfer from each account to the next.
const ROUND: &str = r#"{"args":[1,2,1],"call":"atm/0.transfer"}
{"args":[2,3,1],"call":"atm/0.transfer"}
{"args":[3,1,1],"call":"atm/0.transfer"}
"#;

// So many rounds of these lines.
fn repeated(alloc: Global, round: &str, count: u64) -> Result<String, AllocError> {
    let mut lines = String::new(alloc);
    for _ in 0..count {
        lines.push_str(round)?;
    }
    Ok(lines)
}

/// The lines of so many rounds of transfers between the three accounts.
pub fn rounds(alloc: Global, count: u64) -> Result<String, AllocError> {
    repeated(alloc, ROUND, count)
}

// The lines of a mixed round: the transfers of a round, and between them runs that begin units of their own on the first account, or
// on the grain that they hold, and deposit nothing.
const MIXED: &str = r#"{"args":[1,2,1],"call":"atm/0.transfer"}
{"args":[1,0],"call":"probe/1.aside"}
{"args":[2,3,1],"call":"atm/0.transfer"}
{"args":[],"call":"probe/1.outer"}
{"args":[3,1,1],"call":"atm/0.transfer"}
{"args":[1,0],"call":"probe/2.split"}
"#;

// The lines of a hot round: all want the first account, two of them by units of their own.
const HOT: &str = r#"{"args":[1,1,1],"call":"atm/0.transfer"}
{"args":[1,0],"call":"probe/1.aside"}
{"args":[1,0],"call":"probe/2.split"}
{"args":[],"call":"account/1.read"}
"#;

/// The lines of so many mixed rounds.
pub fn mixed_rounds(alloc: Global, count: u64) -> Result<String, AllocError> {
    repeated(alloc, MIXED, count)
}

/// The lines of so many hot rounds.
pub fn hot_rounds(alloc: Global, count: u64) -> Result<String, AllocError> {
    repeated(alloc, HOT, count)
}

/// Carries the six transfers.
pub fn transfer<R: Threads + Wait + Sync>(
    rt: &R,
    alloc: Global,
    host: &mut MemoryHost,
) -> Result<Status, AllocError> {
    carry(rt, alloc, host, "run --width 4", LINES)
}

// Writes how the host carries the six transfers, and by how many calls.
fn add_transferred<R: Threads + Wait + Sync>(
    rt: &R,
    alloc: Global,
    out: &mut String,
    host: &mut MemoryHost,
) -> Result<(), AllocError> {
    let status = transfer(rt, alloc, host)?;
    add_end(out, status, host)?;
    let calls = host.calls();
    write!(out, ", {calls} calls")
}

/// Writes how a copy of the host carries the six transfers, and by how many calls.
pub fn add_transfers<R: Threads + Wait + Sync>(
    rt: &R,
    alloc: Global,
    out: &mut String,
    before: &MemoryHost,
) -> Result<(), AllocError> {
    let mut host = copied(before)?;
    let added = add_transferred(rt, alloc, out, &mut host);
    drop(host);
    added
}

/// A copy of the host that has carried the six transfers.
pub fn transferred<R: Threads + Wait + Sync>(
    rt: &R,
    alloc: Global,
    before: &MemoryHost,
) -> Result<MemoryHost, AllocError> {
    let mut host = copied(before)?;
    match transfer(rt, alloc, &mut host) {
        Ok(_status) => Ok(host),
        Err(error) => {
            drop(host);
            Err(error)
        }
    }
}

// What a reply line adds to the books.
fn change_in(line: &str) -> i64 {
    if !line.contains("\"reply\"") {
        return 0;
    }
    for (tag, change) in MOVES {
        if line.contains(tag) {
            return change;
        }
    }
    0
}

/// The books behind the first so many reply lines.
pub fn books_after(output: &str, count: usize) -> i64 {
    let mut books = BEFORE;
    for line in output.lines().take(count) {
        books = books.wrapping_add(change_in(line));
    }
    books
}

/// Whether books are those behind the first reply lines, so many or more.
pub fn is_cut(books: i64, output: &str, least: usize) -> bool {
    for count in least..=MOVES.len() {
        if books == books_after(output, count) {
            return true;
        }
    }
    false
}
