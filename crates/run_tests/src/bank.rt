// The program of the runs, and silos of it.
use crate::commands::{carried, carry, copied, output_of};
use crate::names::{FIRST_ACCOUNT, MANAGER, PROGRAM};
use host_memory::MemoryHost;
use silo_top::Status;
use std::alloc::{AllocError, Global};
use std::sync::Wait;
use std::thread::Threads;
use test_cases::BANK;

// What `all` answers has the balances of three accounts in its digits, those of `account/1` last.
const BOOKS: &str = r#"type books {
  method all() create plain {
    let a = call account/1.read();
    let b = call account/2.read();
    let c = call account/3.read();
    return a + 1000 * b + 1000000 * c;
  }
}
"#;

const READ_BOOKS: &str = r#"{"args":[],"call":"books/0.all"}"#;

// What makes the three accounts, with 100 in each.
const DEPOSITS: &str = r#"{"args":[100],"call":"account/1.deposit"}
{"args":[100],"call":"account/2.deposit"}
{"args":[100],"call":"account/3.deposit"}
"#;

/// The manager file of a new silo.
pub const NEW_LOG: &[u8] = b"\x01OTXLOG02\0\0\0\0\0\0\0";

/// The manager file of a silo of the last generation with an empty log, whose header gate is closed.
pub const LAST_LOG: &[u8] = b"\0OTXLOG02\xff\xff\xff\xff\0\0\0";

// The manager file of a silo of format 1, which has one record: a deposit of 5 on account 1, as the first line's unit.
const OLD_LOG: &[u8] =
    b"\x01OTXLOG01\0\0\0\0\0\0\x01\x44\0\0\0\x01\0\0\0\x01\0\0\0\0\0\0\0\0\x01\0\0\0\0\0\x01\0\0\0\0\0\x01\0\0\x05\0\0\0\0\0\0\0\0\0\x01\0\x05\0\0\0\0\0\0\0\x01\0\0\0\x01\0\0\0\0\0\0\0\0\0\0\0\x13\0\0\0\0";

// The version that it names.
const OLD_VERSION: &[u8] = b"\x01\0\0\0\0\0\0\0\x01\0\0\x05\0\0\0\0\0\0\0";

/// The text of the bank program, with a type `books`.
pub fn program_text(alloc: Global) -> Result<String, AllocError> {
    format!(in alloc; "{BANK}{BOOKS}")
}

/// A new silo of the bank program.
pub fn new_silo<R: Threads + Wait + Sync>(rt: &R, alloc: Global) -> Result<MemoryHost, AllocError> {
    let text = program_text(alloc)?;
    let host = MemoryHost::new(alloc, &[])?;
    let (host, _status) = carried(rt, alloc, host, "init", text.as_str())?;
    Ok(host)
}

// What a silo of the bank program has on its disk where its log is one of format 1.
fn made_old(host: &mut MemoryHost) -> Result<MemoryHost, AllocError> {
    host.set_file(MANAGER, OLD_LOG)?;
    host.set_file(FIRST_ACCOUNT, OLD_VERSION)?;
    copied(host)
}

/// A silo of format 1 of the bank program, with one deposit.
pub fn old_silo<R: Threads + Wait + Sync>(rt: &R, alloc: Global) -> Result<MemoryHost, AllocError> {
    let mut host = new_silo(rt, alloc)?;
    let old = made_old(&mut host);
    drop(host);
    old
}

/// A silo of the bank program with three accounts, whose host has put out nothing.
pub fn new_books<R: Threads + Wait + Sync>(
    rt: &R,
    alloc: Global,
) -> Result<MemoryHost, AllocError> {
    let host = new_silo(rt, alloc)?;
    let (host, _status) = carried(rt, alloc, host, "run", DEPOSITS)?;
    let copy = copied(&host);
    drop(host);
    copy
}

/// Whether the folder is a silo of this program's text with an empty log.
pub fn is_new_silo(host: &MemoryHost, text: &[u8]) -> bool {
    match host.file(PROGRAM) {
        Some(bytes) => host.file(MANAGER) == Some(NEW_LOG) && bytes.get(4..) == Some(text),
        None => false,
    }
}

// The value of a reply line.
fn value_in(output: &str) -> Option<i64> {
    let (_, behind) = output.split_once("\"reply\":")?;
    let (value, _) = behind.split_once(",")?;
    value.parse::<i64>().ok()
}

/// The books that a run over an image reads, none where it isn't done.
pub fn read_books<R: Threads + Wait + Sync>(
    rt: &R,
    alloc: Global,
    image: &mut MemoryHost,
) -> Result<Option<i64>, AllocError> {
    let status = carry(rt, alloc, image, "run", READ_BOOKS)?;
    if status != Status::Done {
        return Ok(None);
    }
    Ok(value_in(output_of(image)))
}

/// The sum of the three balances that are in books.
pub fn sum_of(books: i64) -> i64 {
    books % 1000 + books / 1000 % 1000 + books / 1_000_000
}
